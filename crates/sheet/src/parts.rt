// The parts that words are made of, read by their place in the sheet. A fault stands at the place of the value's mark.
ghost use Rattle.std.specs.Prelude.{◌≡◌, ◌+◌, ◌≤◌, length, IfOk, OnOk};
ghost use Rattle.refusal.specs.Told.{told, told_by};
ghost use Rattle.format.specs.Sheets.{truth_mark, character_mark, marked as marked_by, at_place, number_read, text_read, any, is_truth, is_character};
ghost use Rattle.sheet.specs.Words.{bit};

use crate::marks;
use buffer::lies_within;
use endian::order::LittleEndian;
use endian::width::{Primitive, Width1, Width4};
use refusal::{Cause, Refusal};
use utf8::is_text;

// That what is read lies within the sheet is said of the two together: no type of an answer holds it.
// Where a mark with so many bytes of its own ends.
pub fn marked(sheet: &[u8], at: usize, mark: &[u8; 2], own: usize) -> Result<usize, Refusal>
    ensures told { told result ≡ at_place (marked_by mark.now own) sheet.now at }
    ensures within { IfOk result (λ end. at + (2 + own) ≤ length sheet.now) }
{
    if !lies_within(sheet.len(), at, 2) {
        return Err(Refusal::at(Cause::SheetEnds, at));
    }
    if sheet[at..at + 2] != mark[..] {
        return Err(Refusal::at(Cause::WrongMark, at));
    }
    if !lies_within(sheet.len(), at + 2, own) {
        return Err(Refusal::at(Cause::SheetEnds, at));
    }
    Ok(at + 2 + own)
}

// The number behind a mark: the lowest byte first, whatever the archive's order.
pub fn number<P: Primitive>(sheet: &[u8], at: usize, mark: &[u8; 2]) -> Result<P::Number, Refusal>
    ensures told { told_by P.Primitive.value result ≡ number_read mark.now P.Primitive.SIZE any sheet.now at }
    ensures within { OnOk result (at + (2 + P.Primitive.SIZE) ≤ length sheet.now) }
{
    marked(sheet, at, mark, P::SIZE)?;
    Ok(P::take_back::<LittleEndian>(sheet, at + 2))
}

// 0 or 1.
pub fn truth(sheet: &[u8], at: usize) -> Result<bool, Refusal>
    ensures told { told_by bit result ≡ number_read truth_mark 1 is_truth sheet.now at }
    ensures within { OnOk result (at + 3 ≤ length sheet.now) }
{
    // No `TryFrom`: the library has none of a byte for a truth.
    match number::<Width1>(sheet, at, marks::BO)? {
        0 => Ok(false),
        1 => Ok(true),
        _ => Err(Refusal::at(Cause::SheetNotScalar, at)),
    }
}

// A Unicode scalar value.
pub fn character(sheet: &[u8], at: usize) -> Result<char, Refusal>
    ensures told { told result ≡ number_read character_mark 4 is_character sheet.now at }
    ensures within { OnOk result (at + 6 ≤ length sheet.now) }
{
    let number = number::<Width4>(sheet, at, marks::CH)?;
    char::from_u32(number).ok_or(Refusal::at(Cause::SheetNotScalar, at))
}

// The text behind a mark and its length: a part of the sheet itself.
pub fn text<'a>(sheet: &'a [u8], at: usize, mark: &[u8; 2]) -> Result<&'a [u8], Refusal>
    ensures told { told_by (λ x. x.now) result ≡ text_read mark.now sheet.now at }
    ensures within { IfOk result (λ bytes. at + 6 + length bytes.now ≤ length sheet.now) }
{
    let length = number::<Width4>(sheet, at, mark)? as usize;
    let start = at + 6;
    let bytes = sheet
        .get(start..start + length)
        .ok_or(Refusal::at(Cause::SheetEnds, at))?;
    if !is_text(bytes) {
        return Err(Refusal::at(Cause::SheetNotText, at));
    }
    Ok(bytes)
}
