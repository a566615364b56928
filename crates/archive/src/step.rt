// One step from a root.
ghost use Rattle.std.specs.Prelude.{◌≡◌};
ghost use Rattle.format.specs.Archive.{get as get_by};
ghost use Rattle.refusal.specs.Told.{told_by};
ghost use Rattle.kind.specs.Finds.{found_of};

use crate::check::root;
use kind::{Found, OneStep};
use refusal::Refusal;

// Where a pointer or a far array leads, where a slice's items are and how many, or the text, which is the part of the archive itself.
pub fn get<'a, K: OneStep>(kind: &K, archive: &'a [u8], place: usize) -> Result<Found<'a>, Refusal>
    ensures { told_by found_of result ≡ get_by (K.Kind.meaning kind.now) (K.OneStep.step kind.now) archive.now place }
{
    root(kind, archive, place)?;
    kind.one_step(archive, place)
}
