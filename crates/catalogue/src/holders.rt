// What stands before the rest of a name: a kind is used as it is, or another kind holds it.
ghost use Rattle.std.specs.Prelude.{◌≡◌, Some};
ghost use Rattle.std.proofs.Common.{refl};
ghost use Rattle.format.specs.Orders.{Order};
ghost use Rattle.format.specs.Answers.{Answer, Fault, good, bad};
ghost use Rattle.naming.specs.Senses.{Sense, pointed, sliced, far_arrayed, arrayed};
ghost use Rattle.catalogue.specs.Used.{Used};

use crate::missing::Missing;
use crate::purpose::Use;
use crate::usable::Usable;
use endian::order::Endian;
use links::{Array, RelativePtr, ZeroArray, ZeroSlice};
use std::marker::PhantomData;

pub trait Hold {
    // What it makes of a kind that it holds, or of why there is none.
    ghost holds: { Order → Answer Sense → Answer Sense };

    fn run<K: Usable + Drop, E: Endian, U: Use>(
        kind: K,
        purpose: &mut U,
    ) -> Result<U::Answer, Missing>
        ensures { Used U.tells (Some (holds E.Endian.order (good (record { meaning = K.Kind.meaning kind; step = K.Usable.leads kind })))) purpose.old result purpose.new };

    ghost keeps: { (o : Order) (f : Fault) → holds o (bad f) ≡ bad f };
}

pub struct Alone;

impl Hold for Alone {
    ghost holds = { λ _ k. k };

    ghost keeps = { λ o f. refl };

    fn run<K: Usable + Drop, E: Endian, U: Use>(
        kind: K,
        purpose: &mut U,
    ) -> Result<U::Answer, Missing> {
        Ok(kind.serve(purpose))
    }
}

// Each holder is a type and an impl of its own: one for all would take an associated type with parameters, which Rattle lacks.
pub struct Pointed<H: Hold>(PhantomData<H>);

impl<H: Hold> Hold for Pointed<H> {
    ghost holds = { λ o k. H.holds o (pointed o k) };

    ghost keeps = { H.keeps };

    fn run<K: Usable + Drop, E: Endian, U: Use>(
        kind: K,
        purpose: &mut U,
    ) -> Result<U::Answer, Missing> {
        H::run::<_, E, U>(RelativePtr::<K, E>::new(kind), purpose)
    }
}

pub struct Sliced<H: Hold>(PhantomData<H>);

impl<H: Hold> Hold for Sliced<H> {
    ghost holds = { λ o k. H.holds o (sliced o k) };

    ghost keeps = { H.keeps };

    fn run<K: Usable + Drop, E: Endian, U: Use>(
        kind: K,
        purpose: &mut U,
    ) -> Result<U::Answer, Missing> {
        H::run::<_, E, U>(ZeroSlice::<K, E>::new(kind), purpose)
    }
}

pub struct Far<H: Hold, const COUNT: u32>(PhantomData<H>);

impl<H: Hold, const COUNT: u32> Hold for Far<H, COUNT> {
    ghost holds = { λ o k. H.holds o (far_arrayed COUNT o k) };

    ghost keeps = { H.keeps };

    fn run<K: Usable + Drop, E: Endian, U: Use>(
        kind: K,
        purpose: &mut U,
    ) -> Result<U::Answer, Missing> {
        H::run::<_, E, U>(ZeroArray::<K, E>::new(kind, COUNT)?, purpose)
    }
}

pub struct Arrayed<H: Hold, const COUNT: u32>(PhantomData<H>);

impl<H: Hold, const COUNT: u32> Hold for Arrayed<H, COUNT> {
    ghost holds = { λ o k. H.holds o (arrayed COUNT k) };

    ghost keeps = { H.keeps };

    fn run<K: Usable + Drop, E: Endian, U: Use>(
        kind: K,
        purpose: &mut U,
    ) -> Result<U::Answer, Missing> {
        H::run::<_, E, U>(Array::new(kind, COUNT)?, purpose)
    }
}
