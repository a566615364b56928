// Whether a value of a kind stands at a place: by one look, and by reading all that it holds.
ghost use Rattle.std.specs.Prelude.{◌≡◌, OnOk};
ghost use Rattle.format.specs.Archive.{rooted, is_valid as is_valid_by, is_valid_deep as is_valid_deep_by};
ghost use Rattle.kind.specs.Asked.{Seated};
ghost use Rattle.refusal.specs.Told.{told};

use buffer::LIMIT;
use distance::sits;
use kind::Kind;
use refusal::{Cause, Refusal};

// A root that sits in an archive within the limit.
pub fn root<K: Kind>(kind: &K, archive: &[u8], place: usize) -> Result<usize, Refusal>
    ensures told { told result ≡ rooted (K.Kind.meaning kind.now) archive.now place }
    ensures seated { OnOk result (Seated (K.Kind.meaning kind.now) archive.now place) }
{
    if archive.len() > LIMIT {
        return Err(Refusal::whole(Cause::OverLimit));
    }
    sits(place, place, kind.size(), kind.align(), archive.len())
}

// The two checks stay two functions: what they share is `root`.
// One look: the root, whether its target sits, and text, truth or character in its head.
pub fn is_valid<K: Kind>(kind: &K, archive: &[u8], place: usize) -> Result<usize, Refusal>
    ensures { told result ≡ is_valid_by (K.Kind.meaning kind.now) archive.now place }
{
    root(kind, archive, place)?;
    kind.shallow(archive, place)?;
    Ok(place)
}

// All that the root holds, in reading order; the first fault is told.
pub fn is_valid_deep<K: Kind>(kind: &K, archive: &[u8], place: usize) -> Result<usize, Refusal>
    ensures { told result ≡ is_valid_deep_by (K.Kind.meaning kind.now) archive.now place }
{
    root(kind, archive, place)?;
    kind.deep(archive, place)?;
    Ok(place)
}
