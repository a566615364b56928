// The sheet reader: the word at a place of a sheet.
ghost use Rattle.std.specs.Prelude.{◌≡◌};
ghost use Rattle.refusal.specs.Told.{told, told_by};
ghost use Rattle.format.specs.Sheets.{marked as marked_by, scan_number, scan_text, any, heard, truth_form, character_form, slice_form, number_word as number_word_by, text_word as text_word_by, count_word, number_of, text_of, read_at, ended as sheet_ended};
ghost use Rattle.sheet.specs.Words.{form_of, read_of};

use crate::marks;
use crate::parts::{character, marked, number, text, truth};
use crate::word::{Form, Read, Word};
use endian::width::{Primitive, Width1, Width2, Width4, Width8};
use refusal::{Cause, Refusal};

// A reader for each word: each calls another part and ends by its own rule; what they share is one struct literal.
fn number_word<'a, P: Primitive>(
    sheet: &'a [u8],
    at: usize,
    mark: &[u8; 2],
) -> Result<Read<'a>, Refusal>
    ensures { told_by read_of result ≡ heard (scan_number mark.now P.Primitive.SIZE any) (λ v. number_word_by at (number_of P.Primitive.SIZE v)) sheet.now at }
{
    let value = P::widen(number::<P>(sheet, at, mark)?);
    Ok(Read {
        word: Word::Number { place: at, value },
        end: at + 2 + P::SIZE,
    })
}

fn truth_word(sheet: &[u8], at: usize) -> Result<Read<'_>, Refusal>
    ensures { told_by read_of result ≡ read_at truth_form sheet.now at }
{
    let value = u64::from(truth(sheet, at)?);
    Ok(Read {
        word: Word::Number { place: at, value },
        end: at + 3,
    })
}

fn character_word(sheet: &[u8], at: usize) -> Result<Read<'_>, Refusal>
    ensures { told_by read_of result ≡ read_at character_form sheet.now at }
{
    let value = u64::from(character(sheet, at)?);
    Ok(Read {
        word: Word::Number { place: at, value },
        end: at + 6,
    })
}

fn text_word<'a>(sheet: &'a [u8], at: usize, mark: &[u8; 2]) -> Result<Read<'a>, Refusal>
    ensures { told_by read_of result ≡ heard (scan_text mark.now) (λ v. text_word_by at (text_of v)) sheet.now at }
{
    let bytes = text(sheet, at, mark)?;
    Ok(Read {
        word: Word::Text { place: at, bytes },
        end: at + 6 + bytes.len(),
    })
}

// A mark alone, before as many values as its kind holds.
fn values_word<'a>(
    sheet: &'a [u8],
    at: usize,
    mark: &[u8; 2],
    count: u32,
) -> Result<Read<'a>, Refusal>
    ensures { told_by read_of result ≡ heard (marked_by mark.now 0) (λ v. count_word at count) sheet.now at }
{
    let end = marked(sheet, at, mark, 0)?;
    Ok(Read {
        word: Word::Count { place: at, count },
        end,
    })
}

fn count_word(sheet: &[u8], at: usize) -> Result<Read<'_>, Refusal>
    ensures { told_by read_of result ≡ read_at slice_form sheet.now at }
{
    let count = number::<Width4>(sheet, at, marks::SL)?;
    Ok(Read {
        word: Word::Count { place: at, count },
        end: at + 6,
    })
}

// The word at a place of a sheet. A place behind the sheet is answered as its end is.
pub fn read(sheet: &[u8], at: usize, form: Form) -> Result<Read<'_>, Refusal>
    ensures { told_by read_of result ≡ read_at (form_of form) sheet.now at }
{
    match form {
        Form::Number1 => number_word::<Width1>(sheet, at, marks::N1),
        Form::Number2 => number_word::<Width2>(sheet, at, marks::N2),
        Form::Number4 => number_word::<Width4>(sheet, at, marks::N4),
        Form::Number8 => number_word::<Width8>(sheet, at, marks::N8),
        Form::Truth => truth_word(sheet, at),
        Form::Character => character_word(sheet, at),
        Form::Text => text_word(sheet, at, marks::TX),
        Form::InlineText => text_word(sheet, at, marks::TI),
        Form::Pointer => values_word(sheet, at, marks::RP, 1),
        Form::Array(count) => values_word(sheet, at, marks::AN, u32::from(count)),
        Form::FarArray(count) => values_word(sheet, at, marks::AR, u32::from(count)),
        Form::Slice => count_word(sheet, at),
    }
}

// That a sheet which is read up to a place ends there.
pub fn ended(sheet: &[u8], at: usize) -> Result<usize, Refusal>
    ensures { told result ≡ sheet_ended sheet.now at }
{
    if at < sheet.len() {
        return Err(Refusal::at(Cause::BytesBehind, at));
    }
    Ok(at)
}
