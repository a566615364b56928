// Copies the sheet of a value out of an archive.
ghost use Rattle.std.specs.Prelude.{◌≡◌};
ghost use Rattle.format.specs.Archive.{copy_out as copy_out_by};
ghost use Rattle.refusal.specs.Told.{told};

use crate::check::root;
use kind::Kind;
use refusal::{Cause, Refusal};

// Puts the sheet of the root at a place at the front of an output, and tells its length. Nothing is written before all of it was read and has room.
pub fn copy_out<K: Kind>(
    kind: &K,
    archive: &[u8],
    place: usize,
    output: &mut [u8],
) -> Result<usize, Refusal>
    ensures { record { answer = told result; output = output.new } ≡ copy_out_by (K.Kind.meaning kind.now) archive.now place output.old }
{
    root(kind, archive, place)?;
    let length = kind.deep(archive, place)?;
    if output.len() < length {
        return Err(Refusal::whole(Cause::NoRoom));
    }
    Ok(kind.copy(archive, place, output, 0))
}
