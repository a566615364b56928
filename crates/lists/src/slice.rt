// A count, and a distance to so many values in a row.
ghost use Rattle.std.specs.Prelude.{◌≡◌, ℕ, ◌+◌};
ghost use Rattle.format.specs.Places.{part};
ghost use Rattle.format.specs.Orders.{number as number_by};
ghost use Rattle.format.specs.Items.{row};
ghost use Rattle.format.specs.Links.{slice as slice_kind, slice_at};
ghost use Rattle.format.specs.Archive.{slice_step};
ghost use Rattle.refusal.specs.Told.{told_by};
ghost use Rattle.kind.specs.Asked.{Next, Seated};
ghost use Rattle.lists.specs.Spans.{span_of};
ghost use Rattle.format.proofs.LinkLaws.{slice-laws};

use buffer::put_at;
use distance::follow;
use endian::order::{Endian, LittleEndian};
use endian::width::{Primitive, Width4};
use holding::{behind_front, far_tail, held, reach};
use kind::{Found, Kind, OneStep};
use refusal::Refusal;
use rows::Row;
use sheet::{marks, number};
use std::marker::PhantomData;

// A count and a distance.
const SIZE: usize = 8;

const ALIGN: usize = 4;

// Where the items of a slice are, and how many.
#[derive(Clone, Copy)]
struct Span {
    place: usize,
    count: u32,
}

#[derive(Drop)]
pub struct ZeroSlice<K: Kind, E: Endian> {
    item: K,
    order: PhantomData<E>,
}

impl<K: Kind, E: Endian> ZeroSlice<K, E> {
    pub fn new(item: K) -> Self
        ensures { result.item ≡ item }
    {
        ZeroSlice {
            item,
            order: PhantomData,
        }
    }

    // So many of its items.
    fn row(&self, count: u32) -> Row<'_, K>
        ensures { row (K.Kind.meaning result.item.now) result.count ≡ row (K.Kind.meaning self.now.item) count }
    {
        Row {
            item: &self.item,
            count,
        }
    }

    // How many items the slice at a place of a sheet has, if there is one.
    fn count(&self, sheet: &[u8], at: usize) -> u32
        requires { ((q : ℕ) × Next (slice_kind (K.Kind.meaning self.now.item) E.Endian.order) sheet.now at q) }
        ensures { result ≡ number_by (part (at + 2) 4 sheet.now) }
    {
        Width4::take_back::<LittleEndian>(sheet, at + 2)
    }

    // Where the items of the slice at a place are, and how many. The distance of one that has none is ignored.
    fn span(&self, archive: &[u8], at: usize) -> Result<Span, Refusal>
        requires { Seated (slice_kind (K.Kind.meaning self.now.item) E.Endian.order) archive.now at }
        ensures { told_by span_of result ≡ slice_at (K.Kind.meaning self.now.item) E.Endian.order archive.now at }
    {
        let count = Width4::take_back::<E>(archive, at);
        if count == 0 {
            return Ok(Span {
                place: at + 4,
                count,
            });
        }
        let row = self.row(count);
        let place = follow::<E>(archive, at + 4, row.size(), row.align())?;
        Ok(Span { place, count })
    }
}

impl<K: Kind, E: Endian> Kind for ZeroSlice<K, E> {
    ghost meaning = { λ k. slice_kind (K.Kind.meaning k.item) E.Endian.order };

    ghost lawful = { λ k. slice-laws (K.Kind.meaning k.item) E.Endian.order (K.Kind.lawful k.item) E.Endian.undoes };

    fn size(&self) -> usize {
        SIZE
    }

    fn align(&self) -> usize {
        ALIGN
    }

    fn scan(&self, sheet: &[u8], at: usize) -> Result<usize, Refusal> {
        let count = number::<Width4>(sheet, at, marks::SL)?;
        held(self.row(count).scan(sheet, at + 6))
    }

    fn layout(&self, sheet: &[u8], at: &mut usize, tail: usize) -> (usize, usize) {
        let count = self.count(sheet, *at);
        *at += 6;
        let row = self.row(count);
        let start = far_tail(tail, row.size(), row.align());
        let (end, widest) = row.layout(sheet, at, start);
        (end, widest.max(ALIGN))
    }

    fn fill(
        &self,
        sheet: &[u8],
        at: &mut usize,
        out: &mut [u8],
        head: usize,
        tail: usize,
    ) -> usize {
        let distance = head + 4;
        let count = self.count(sheet, *at);
        *at += 6;
        Width4::lay::<E>(count, out, head);
        let row = self.row(count);
        let place = reach::<E>(out, distance, tail, row.align());
        let start = place + row.size();
        row.fill(sheet, at, out, place, start)
    }

    fn shallow(&self, archive: &[u8], at: usize) -> Result<usize, Refusal> {
        self.span(archive, at)?;
        Ok(at)
    }

    fn deep(&self, archive: &[u8], at: usize) -> Result<usize, Refusal> {
        let Span { place, count } = self.span(archive, at)?;
        if count == 0 {
            return Ok(6);
        }
        behind_front(self.row(count).deep(archive, place), 6)
    }

    fn copy(&self, archive: &[u8], at: usize, out: &mut [u8], to: usize) -> usize {
        let Span { place, count } = self.span(archive, at).unwrap();
        put_at(out, to, marks::SL);
        Width4::lay::<LittleEndian>(count, out, to + 2);
        if count == 0 {
            return to + 6;
        }
        self.row(count).copy(archive, place, out, to + 6)
    }
}

impl<K: Kind, E: Endian> OneStep for ZeroSlice<K, E> {
    ghost step = { λ k. slice_step (K.Kind.meaning k.item) E.Endian.order };

    fn one_step<'a>(&self, archive: &'a [u8], at: usize) -> Result<Found<'a>, Refusal> {
        let Span { place, count } = self.span(archive, at)?;
        Ok(Found::Items { place, count })
    }
}
