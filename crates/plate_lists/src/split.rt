// Bytes cut into pieces, and the lines of a list.
ghost use Rattle.std.specs.Prelude.{◌≡◌, IfOk};
ghost use Rattle.plate_lists.specs.Lists.{pieces as pieces_of, unended as unended_by, lines as lines_of, ArePieces, AreLines};
ghost use Rattle.plate_lists.specs.Told.{held};

use std::alloc::{AllocError, Global};

// A piece without the separator that it may end with.
fn unended(piece: &[u8], separator: u8) -> &[u8]
    ensures { result.now ≡ unended_by separator piece.now }
{
    piece.strip_suffix(&[separator]).unwrap_or(piece)
}

// Each piece ends at a separator, which is no part of it; the last also where the bytes end.
pub fn pieces(heap: Global, bytes: &[u8], separator: u8) -> Result<Vec<&[u8]>, AllocError>
    ensures made { IfOk result (λ v. held v.items ≡ pieces_of separator bytes.now) }
    ensures cut { ArePieces separator bytes.now (pieces_of separator bytes.now) }
{
    bytes
        .split_inclusive(|byte| *byte == separator)
        .map(|piece| unended(piece, separator))
        .collect(heap)
}

// The pieces between line feeds.
pub fn lines(heap: Global, list: &[u8]) -> Result<Vec<&[u8]>, AllocError>
    ensures made { IfOk result (λ v. held v.items ≡ lines_of list.now) }
    ensures cut { AreLines list.now (lines_of list.now) }
{
    pieces(heap, list, b'\n')
}
