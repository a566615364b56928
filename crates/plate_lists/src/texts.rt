// The sheets of a slice of texts, and of a slice of such slices.
ghost use Rattle.std.specs.Prelude.{◌≡◌, ℕ, ◌+◌, ◌<◌, ◌≤◌, List, [], ◌++◌, length, vec_items, nat_le};
ghost use Rattle.format.specs.Places.{limit};
ghost use Rattle.format.specs.Sheets.{text_sheet, text_mark};
ghost use Rattle.plate_lists.specs.Lists.{slice_sheet, texts_sheet, lists_sheet, limited, counted, sheet_of};
ghost use Rattle.plate_lists.specs.Told.{held, held_lists, Tells};
ghost use Rattle.std.proofs.Common.{rules};

use crate::error::ListError;
use buffer::{LIMIT, lies_within};
use endian::order::{Endian, LittleEndian};
use refusal::{Cause, Refusal};
use sheet::marks;
use std::alloc::Global;
use std::marker::Model;

// What a slice may hold: a text, or a list of texts. Each has a byte at least.
trait Piece {
    ghost sheet: { Self → List ℕ };

    fn push_to(&self, draft: &mut Draft) -> Result<(), ListError>
        ensures { Tells (λ _. draft.new) result (limited (draft.old ++ sheet self.now)) };

    ghost some: { (x : Self) → 0 < length (sheet x) };
}

// A sheet that is being written, within the limit.
#[derive(Drop)]
struct Draft {
    bytes: Vec<u8>,
}

impl Model for Draft {
    ghost Value = { List ℕ };

    ghost view = { λ d. d.bytes.items };

    ghost invariant = { λ d. length d.bytes.items ≤ limit };
}

impl Draft {
    fn new(heap: Global) -> Draft
        ensures { result ≡ [] }
    {
        Draft {
            bytes: Vec::new(heap),
        }
    }

    // Whether there is room for a mark, a number of four bytes, and so many bytes more.
    fn has_room(&self, more: usize) -> bool
        ensures { result ≡ nat_le (length self.now + (6 + more)) limit }
    {
        lies_within(LIMIT - self.bytes.len(), 6, more)
    }

    // A mark and the count of what follows it: bytes or values, for each of which there must be room of a byte at least.
    fn push_count(&mut self, mark: &[u8; 2], count: usize) -> Result<(), ListError>
        ensures { Tells (λ _. self.new) result (counted self.old mark.now count) }
    {
        if !self.has_room(count) {
            return Err(Refusal::whole(Cause::OverLimit).into());
        }
        self.bytes.extend_from_slice(mark)?;
        self.bytes
            .extend_from_slice(&LittleEndian::from_native_u32(count as u32))?;
        Ok(())
    }

    // A slice: its mark and the count of its values, and these one behind the other.
    fn push_slice<T: Piece>(&mut self, values: &[T]) -> Result<(), ListError>
        ensures { Tells (λ _. self.new) result (limited (self.old ++ slice_sheet T.sheet values.now)) }
    {
        self.push_count(marks::SL, values.len())?;
        for value in values {
            value.push_to(self)?;
        }
        Ok(())
    }
}

impl Piece for &[u8] {
    ghost sheet = { λ text. text_sheet text_mark text.now };

    ghost some = { λ text. Prim.search rules };

    fn push_to(&self, draft: &mut Draft) -> Result<(), ListError> {
        draft.push_count(marks::TX, self.len())?;
        draft.bytes.extend_from_slice(self)?;
        Ok(())
    }
}

impl Piece for Vec<&[u8]> {
    ghost sheet = { λ list. texts_sheet (held list.items) };

    ghost some = { λ list. Prim.search rules };

    fn push_to(&self, draft: &mut Draft) -> Result<(), ListError> {
        draft.push_slice(self.as_slice())
    }
}

fn sheet_of_slice<T: Piece>(heap: Global, values: &[T]) -> Result<Vec<u8>, ListError>
    ensures { Tells vec_items result (limited (slice_sheet T.sheet values.now)) }
{
    let mut sheet = Draft::new(heap);
    sheet.push_slice(values)?;
    Ok(sheet.bytes)
}

// A sheet that would pass the limit is refused. Whether the texts are text is for the sheet's reader to say.
pub fn sheet_of_texts(heap: Global, texts: &[&[u8]]) -> Result<Vec<u8>, ListError>
    ensures { Tells vec_items result (sheet_of (held texts.now)) }
{
    sheet_of_slice(heap, texts)
}

// Two functions, each in the words of what it is handed.
pub fn sheet_of_lists(heap: Global, lists: &[Vec<&[u8]>]) -> Result<Vec<u8>, ListError>
    ensures { Tells vec_items result (limited (lists_sheet (held_lists lists.now))) }
{
    sheet_of_slice(heap, lists)
}
