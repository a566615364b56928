// A kind as a use is handed it: one that leads somewhere with its step. Each kind says in a line which it is: a body in the trait would
// have to be proved of kinds that lead and of kinds that don't.
ghost use Rattle.std.specs.Prelude.{ℕ, List, Option, Some, None};
ghost use Rattle.format.specs.Answers.{Answer};
ghost use Rattle.format.specs.Archive.{Found, pointer_step, slice_step, text_step, inline_step};

use crate::purpose::Use;
use endian::order::Endian;
use kind::Kind;
use links::{Array, Link, Mark, ZeroSlice};
use scalars::{Scalar, ScalarKind};
use texts::{ZeroStr, ZeroString};

pub trait Usable: Kind {
    ghost leads: { Self → Option (List ℕ → ℕ → Answer Found) };

    fn serve<U: Use>(&self, purpose: &mut U) -> U::Answer
        ensures { U.tells purpose.old (record { meaning = Self.Kind.meaning self.now; step = leads self.now }) result purpose.new };
}

impl<S: Scalar, E: Endian> Usable for ScalarKind<S, E> {
    ghost leads = { λ _. None };

    fn serve<U: Use>(&self, purpose: &mut U) -> U::Answer {
        purpose.with(self)
    }
}

impl<E: Endian> Usable for ZeroStr<E> {
    ghost leads = { λ _. Some (text_step E.Endian.order) };

    fn serve<U: Use>(&self, purpose: &mut U) -> U::Answer {
        purpose.with_step(self)
    }
}

impl<E: Endian> Usable for ZeroString<E> {
    ghost leads = { λ k. Some (inline_step k.capacity.value E.Endian.order) };

    fn serve<U: Use>(&self, purpose: &mut U) -> U::Answer {
        purpose.with_step(self)
    }
}

impl<M: Mark, K: Kind, E: Endian> Usable for Link<M, K, E> {
    ghost leads = { λ k. Some (pointer_step (K.Kind.meaning k.item) E.Endian.order) };

    fn serve<U: Use>(&self, purpose: &mut U) -> U::Answer {
        purpose.with_step(self)
    }
}

impl<K: Kind> Usable for Array<K> {
    ghost leads = { λ _. None };

    fn serve<U: Use>(&self, purpose: &mut U) -> U::Answer {
        purpose.with(self)
    }
}

impl<K: Kind, E: Endian> Usable for ZeroSlice<K, E> {
    ghost leads = { λ k. Some (slice_step (K.Kind.meaning k.item) E.Endian.order) };

    fn serve<U: Use>(&self, purpose: &mut U) -> U::Answer {
        purpose.with_step(self)
    }
}
