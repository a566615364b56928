// The sheet of a text: a mark, the length, and the bytes.
ghost use Rattle.std.specs.Prelude.{◌≡◌, ℕ, ◌+◌, ◌^◌, ◌<◌, ◌≤◌, List, length, IfOk};
ghost use Rattle.format.specs.Places.{put};
ghost use Rattle.format.specs.Sheets.{at_place, scan_text as scan_text_by, text_sheet};
ghost use Rattle.format.specs.Answers.{good};
ghost use Rattle.refusal.specs.Told.{told};
ghost use Rattle.texts.specs.Found.{Stands, Found};

use buffer::put_at;
use endian::order::LittleEndian;
use endian::width::{Primitive, Width4};
use refusal::Refusal;
use sheet;

// How long the sheet of a text is.
pub fn sheet_length(bytes: &[u8]) -> usize
    requires { 6 + length bytes.now < 2 ^ 64 }
    ensures { result ≡ 6 + length bytes.now }
{
    6 + bytes.len()
}

// Where the text at a place of a sheet ends, or its first fault.
pub fn scan_text(sheet: &[u8], at: usize, mark: &[u8; 2]) -> Result<usize, Refusal>
    ensures told { told result ≡ at_place (scan_text_by mark.now) sheet.now at }
    ensures within { IfOk result (λ end. (at ≤ end) × (end ≤ length sheet.now)) }
{
    let bytes = sheet::text(sheet, at, mark)?;
    Ok(at + sheet_length(bytes))
}

// The text at a place where a scan found one. `at` goes on behind it.
pub fn next_text<'a>(sheet: &'a [u8], at: &mut usize) -> &'a [u8]
    requires { Stands sheet.now at.old }
    ensures found { (mark : List ℕ) (next : ℕ) → at_place (scan_text_by mark) sheet.now at.old ≡ good next → Found mark sheet.now at.old at.new result.now }
    ensures small { length result.now < 4294967296 }
{
    let start = *at + 6;
    let length = Width4::take_back::<LittleEndian>(sheet, *at + 2) as usize;
    *at = start + length;
    &sheet[start..*at]
}

// Puts the sheet of a text over the bytes at a place, and tells where it ends.
pub fn put_text(out: &mut [u8], to: usize, mark: &[u8; 2], bytes: &[u8]) -> usize
    requires { (to + (6 + length bytes.now) ≤ length out.old) × (length bytes.now < 4294967296) }
    ensures bytes { out.new ≡ put out.old to (text_sheet mark.now bytes.now) }
    ensures end { result ≡ to + length (text_sheet mark.now bytes.now) }
{
    put_at(out, to, mark);
    Width4::lay::<LittleEndian>(bytes.len() as u32, out, to + 2);
    put_at(out, to + 6, bytes);
    to + sheet_length(bytes)
}
