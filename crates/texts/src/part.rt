// The text of a head, as a part of the archive itself.
ghost use Rattle.std.specs.Prelude.{◌≡◌, ◌+◌, ◌≤◌, length, IfOk};
ghost use Rattle.format.specs.Places.{limit};
ghost use Rattle.format.specs.Answers.{both};
ghost use Rattle.format.specs.Texts.{text_of_length, text_at, inline_at as inline_at_by};
ghost use Rattle.refusal.specs.Told.{told_by};
ghost use Rattle.texts.specs.Parts.{judge, part_of, led};

use distance::follow;
use endian::order::Endian;
use endian::width::{Primitive, Width4};
use kind::Part;
use refusal::{Cause, Refusal};
use utf8::is_text;

// A part, if it is text. A refusal names the head that led there.
fn judged(part: Part<'_>, head: usize) -> Result<Part<'_>, Refusal>
    ensures told { told_by part_of result ≡ judge head (part_of part.entry) }
    ensures same { IfOk result (λ x. x ≡ part.entry) }
{
    // No bytes are text: no pass is begun over none.
    if !part.bytes.is_empty() && !is_text(part.bytes) {
        return Err(Refusal::at(Cause::NotText, head));
    }
    Ok(part)
}

// That a part lies within its archive is said of the two together, so no type of the part holds it.
// The bytes that the distance behind a length leads to.
fn led_part<E: Endian>(archive: &[u8], at: usize, count: usize) -> Result<Part<'_>, Refusal>
    requires { (at + 8 ≤ length archive.now) × (length archive.now ≤ limit) }
    ensures judged { both (told_by part_of result) (judge at) ≡ led E.Endian.order archive.now at count }
    ensures within { IfOk result (λ x. x.place + length x.bytes.now ≤ length archive.now) }
{
    let place = follow::<E>(archive, at + 4, count, 1)?;
    Ok(Part {
        place,
        bytes: &archive[place..place + count],
    })
}

// Where a text of so many bytes stands. One of none is found behind its length, and its distance is ignored.
fn part_of_length<E: Endian>(archive: &[u8], at: usize, count: usize) -> Result<Part<'_>, Refusal>
    requires { (at + 8 ≤ length archive.now) × (length archive.now ≤ limit) }
    ensures judged { both (told_by part_of result) (judge at) ≡ text_of_length E.Endian.order archive.now at count }
    ensures within { IfOk result (λ x. x.place + length x.bytes.now ≤ length archive.now) }
{
    if count == 0 {
        let place = at + 4;
        return Ok(Part {
            place,
            bytes: &archive[place..place],
        });
    }
    led_part::<E>(archive, at, count)
}

// Where the text of the head at a place stands, which may be no text.
pub(crate) fn part_at<E: Endian>(archive: &[u8], at: usize) -> Result<Part<'_>, Refusal>
    requires { (at + 8 ≤ length archive.now) × (length archive.now ≤ limit) }
    ensures judged { both (told_by part_of result) (judge at) ≡ text_at E.Endian.order archive.now at }
    ensures within { IfOk result (λ x. x.place + length x.bytes.now ≤ length archive.now) }
{
    let count = Width4::take_back::<E>(archive, at) as usize;
    part_of_length::<E>(archive, at, count)
}

// The text of the head at a place.
pub fn text_at<E: Endian>(archive: &[u8], at: usize) -> Result<Part<'_>, Refusal>
    requires { (at + 8 ≤ length archive.now) × (length archive.now ≤ limit) }
    ensures told { told_by part_of result ≡ text_at E.Endian.order archive.now at }
    ensures within { IfOk result (λ x. x.place + length x.bytes.now ≤ length archive.now) }
{
    judged(part_at::<E>(archive, at)?, at)
}

// Where the inline text of the head at a place stands, which may be no text. A length above the capacity reads as the capacity.
pub(crate) fn inline_part<E: Endian>(archive: &[u8], at: usize, capacity: usize) -> Part<'_>
    requires { at + 4 + capacity ≤ length archive.now }
    ensures judged { judge at (part_of result) ≡ inline_at_by capacity E.Endian.order archive.now at }
    ensures within { result.place + length result.bytes.now ≤ length archive.now }
{
    let count = Width4::take_back::<E>(archive, at) as usize;
    let place = at + 4;
    Part {
        place,
        bytes: &archive[place..place + capacity.min(count)],
    }
}

// The inline text of the head at a place.
pub fn inline_at<E: Endian>(archive: &[u8], at: usize, capacity: usize) -> Result<Part<'_>, Refusal>
    requires { at + 4 + capacity ≤ length archive.now }
    ensures told { told_by part_of result ≡ inline_at_by capacity E.Endian.order archive.now at }
    ensures within { IfOk result (λ x. x.place + length x.bytes.now ≤ length archive.now) }
{
    judged(inline_part::<E>(archive, at, capacity), at)
}
