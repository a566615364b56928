// One step from a head, for the kinds that lead somewhere: what `get` finds.
ghost use Rattle.std.specs.Prelude.{◌≡◌, ℕ, List};
ghost use Rattle.format.specs.Answers.{Answer};
ghost use Rattle.format.specs.Archive.{Found as Finding};
ghost use Rattle.refusal.specs.Told.{told_by};
ghost use Rattle.kind.specs.Asked.{Seated};
ghost use Rattle.kind.specs.Finds.{found_of};

use crate::Kind;
use refusal::Refusal;

// Bytes of an archive, and where they stand in it.
#[derive(Clone, Copy, Debug)]
pub struct Part<'a> {
    pub place: usize,
    pub bytes: &'a [u8],
}

#[derive(Clone, Copy, Debug)]
pub enum Found<'a> {
    // What a pointer or a far array leads to.
    Target { place: usize },
    // The items of a slice, side by side.
    Items { place: usize, count: u32 },
    // A text: no copy, but the part of the archive itself.
    Text(Part<'a>),
}

pub trait OneStep: Kind {
    ghost step: { Self → List ℕ → ℕ → Answer Finding };

    fn one_step<'a>(&self, archive: &'a [u8], at: usize) -> Result<Found<'a>, Refusal>
        requires { Seated (Self.Kind.meaning self.now) archive.now at }
        ensures { told_by found_of result ≡ step self.now archive.now at };
}
