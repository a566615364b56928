// Inline text as a kind: its head is the length, the bytes and zeros, and it has no tail.
ghost use Rattle.std.specs.Prelude.{◌≡◌, ◌+◌, ◌<◌, ◌≤◌, length};
ghost use Rattle.format.specs.Places.{put};
ghost use Rattle.format.specs.Sheets.{inline_mark, text_sheet};
ghost use Rattle.format.specs.Meaning.{counted};
ghost use Rattle.format.specs.Texts.{inline_kind};
ghost use Rattle.format.specs.Archive.{inline_step};
ghost use Rattle.refusal.specs.Told.{told_by};
ghost use Rattle.format.proofs.TextKindLaws.{inline_laws};

use crate::cut::cut_length;
use crate::part::{inline_at, inline_part};
use crate::sheet_text::{next_text, put_text, scan_text, sheet_length};
use buffer::{put_at, put_zeros};
use endian::order::Endian;
use endian::width::{Primitive, Width4};
use kind::{Count, Found, Kind, OneStep};
use refusal::Refusal;
use sheet::marks;
use std::marker::PhantomData;

#[derive(Drop)]
pub struct ZeroString<E: Endian> {
    order: PhantomData<E>,
    capacity: Count,
}

impl<E: Endian> ZeroString<E> {
    // For texts of at most so many bytes. Longer ones are cut.
    pub fn new(capacity: usize) -> Result<ZeroString<E>, Refusal>
        ensures { told_by (λ k. k.capacity.value) result ≡ counted capacity }
    {
        Ok(ZeroString {
            order: PhantomData,
            capacity: Count::new(capacity)?,
        })
    }

    pub fn capacity(&self) -> usize
        ensures { result ≡ self.now.capacity.value }
    {
        self.capacity.value() as usize
    }
}

// Puts the sheet of an inline text over the bytes at a place, and tells where it ends.
fn put_sheet(out: &mut [u8], to: usize, bytes: &[u8]) -> usize
    requires { (to + (6 + length bytes.now) ≤ length out.old) × (length bytes.now < 4294967296) }
    ensures bytes { out.new ≡ put out.old to (text_sheet inline_mark bytes.now) }
    ensures end { result ≡ to + length (text_sheet inline_mark bytes.now) }
{
    put_text(out, to, marks::TI, bytes)
}

impl<E: Endian> Kind for ZeroString<E> {
    ghost meaning = { λ k. inline_kind k.capacity.value E.Endian.order };

    ghost lawful = { λ k. inline_laws k.capacity.value E.Endian.order E.Endian.undoes k.capacity.sound.1 };

    fn size(&self) -> usize {
        (4 + self.capacity()).next_multiple_of(4)
    }

    fn align(&self) -> usize {
        4
    }

    fn scan(&self, sheet: &[u8], at: usize) -> Result<usize, Refusal> {
        scan_text(sheet, at, marks::TI)
    }

    fn layout(&self, sheet: &[u8], at: &mut usize, tail: usize) -> (usize, usize) {
        next_text(sheet, at);
        (tail, 4)
    }

    fn fill(
        &self,
        sheet: &[u8],
        at: &mut usize,
        out: &mut [u8],
        head: usize,
        tail: usize,
    ) -> usize {
        let bytes = next_text(sheet, at);
        let kept = cut_length(bytes, self.capacity());
        Width4::lay::<E>(kept as u32, out, head);
        put_at(out, head + 4, &bytes[0..kept]);
        put_zeros(out, head + 4 + kept, self.size() - (4 + kept));
        tail
    }

    fn shallow(&self, archive: &[u8], at: usize) -> Result<usize, Refusal> {
        inline_at::<E>(archive, at, self.capacity()).and(Ok(at))
    }

    fn deep(&self, archive: &[u8], at: usize) -> Result<usize, Refusal> {
        let text = inline_at::<E>(archive, at, self.capacity())?;
        Ok(sheet_length(text.bytes))
    }

    fn copy(&self, archive: &[u8], at: usize, out: &mut [u8], to: usize) -> usize {
        // A copy comes behind a deep check, which judged the text.
        let text = inline_part::<E>(archive, at, self.capacity());
        put_sheet(out, to, text.bytes)
    }
}

impl<E: Endian> OneStep for ZeroString<E> {
    ghost step = { λ k. inline_step k.capacity.value E.Endian.order };

    fn one_step<'a>(&self, archive: &'a [u8], at: usize) -> Result<Found<'a>, Refusal> {
        let text = inline_at::<E>(archive, at, self.capacity())?;
        Ok(Found::Text(text))
    }
}
