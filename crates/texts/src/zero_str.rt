// Text as a kind: its head is the length and the distance to its bytes, which are its tail.
ghost use Rattle.std.specs.Prelude.{◌≡◌, ◌+◌, ◌-◌, ◌^◌, ◌<◌, ◌≤◌, ◌++◌, length};
ghost use Rattle.format.specs.Places.{limit, put, stop};
ghost use Rattle.format.specs.Sheets.{text_mark, text_sheet};
ghost use Rattle.format.specs.Texts.{text_kind};
ghost use Rattle.format.specs.Archive.{text_step};
ghost use Rattle.format.proofs.TextKindLaws.{text_laws};

use crate::part::{part_at, text_at};
use crate::sheet_text::{next_text, put_text, scan_text, sheet_length};
use buffer::{STOP, put_at};
use distance::lead;
use endian::order::Endian;
use endian::width::{Primitive, Width4};
use kind::{Found, Kind, OneStep};
use refusal::Refusal;
use sheet::marks;
use std::marker::PhantomData;

#[derive(Drop)]
pub struct ZeroStr<E: Endian> {
    order: PhantomData<E>,
}

impl<E: Endian> ZeroStr<E> {
    pub fn new() -> Self {
        ZeroStr { order: PhantomData }
    }
}

// Where a tail of so many bytes ends, which is told up to a limit.
fn tail_end(tail: usize, count: usize) -> usize
    requires { tail + count < 2 ^ 64 }
    ensures { result ≡ stop (tail + count) }
{
    (tail + count).min(STOP)
}

// Puts the head of a text over the bytes at a place: how many bytes it has, and the distance to them.
fn put_head<E: Endian>(out: &mut [u8], head: usize, count: usize, tail: usize)
    requires small { count < 4294967296 }
    requires seated { (head + 8 ≤ tail) × ((tail ≤ length out.old) × (length out.old ≤ limit)) }
    ensures { out.new ≡ put out.old head (E.Endian.order.lay 4 count ++ E.Endian.order.lay 4 (tail - (head + 4))) }
{
    Width4::lay::<E>(count as u32, out, head);
    lead::<E>(out, head + 4, tail);
}

// Puts the sheet of a text over the bytes at a place, and tells where it ends.
fn put_sheet(out: &mut [u8], to: usize, bytes: &[u8]) -> usize
    requires { (to + (6 + length bytes.now) ≤ length out.old) × (length bytes.now < 4294967296) }
    ensures bytes { out.new ≡ put out.old to (text_sheet text_mark bytes.now) }
    ensures end { result ≡ to + length (text_sheet text_mark bytes.now) }
{
    put_text(out, to, marks::TX, bytes)
}

impl<E: Endian> Kind for ZeroStr<E> {
    ghost meaning = { λ _. text_kind E.Endian.order };

    ghost lawful = { λ k. text_laws E.Endian.order E.Endian.undoes };

    fn size(&self) -> usize {
        8
    }

    fn align(&self) -> usize {
        4
    }

    fn scan(&self, sheet: &[u8], at: usize) -> Result<usize, Refusal> {
        scan_text(sheet, at, marks::TX)
    }

    fn layout(&self, sheet: &[u8], at: &mut usize, tail: usize) -> (usize, usize) {
        let bytes = next_text(sheet, at);
        (tail_end(tail, bytes.len()), 4)
    }

    fn fill(
        &self,
        sheet: &[u8],
        at: &mut usize,
        out: &mut [u8],
        head: usize,
        tail: usize,
    ) -> usize {
        let bytes = next_text(sheet, at);
        put_head::<E>(out, head, bytes.len(), tail);
        put_at(out, tail, bytes);
        tail + bytes.len()
    }

    fn shallow(&self, archive: &[u8], at: usize) -> Result<usize, Refusal> {
        text_at::<E>(archive, at).and(Ok(at))
    }

    fn deep(&self, archive: &[u8], at: usize) -> Result<usize, Refusal> {
        let text = text_at::<E>(archive, at)?;
        Ok(sheet_length(text.bytes))
    }

    fn copy(&self, archive: &[u8], at: usize, out: &mut [u8], to: usize) -> usize {
        // A copy comes behind a deep check, which judged the text.
        let text = part_at::<E>(archive, at).unwrap();
        put_sheet(out, to, text.bytes)
    }
}

impl<E: Endian> OneStep for ZeroStr<E> {
    ghost step = { λ _. text_step E.Endian.order };

    fn one_step<'a>(&self, archive: &'a [u8], at: usize) -> Result<Found<'a>, Refusal> {
        let text = text_at::<E>(archive, at)?;
        Ok(Found::Text(text))
    }
}
