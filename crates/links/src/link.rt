// A mark of its own, and a distance to what it holds.
ghost use Rattle.std.specs.Prelude.{◌≡◌, IfOk};
ghost use Rattle.format.specs.Meaning.{counted};
ghost use Rattle.format.specs.Links.{link, linked};
ghost use Rattle.format.specs.Archive.{pointer_step};
ghost use Rattle.refusal.specs.Told.{told, told_by};
ghost use Rattle.kind.specs.Asked.{Seated};
ghost use Rattle.format.proofs.LinkLaws.{link_laws};

use crate::mark::{FarArrayMark, Mark, PointerMark};
use crate::{ALIGN, SIZE};
use buffer::put_at;
use distance::follow;
use endian::order::Endian;
use holding::{behind_front, far_tail, held, led, reach};
use kind::{Found, Kind, OneStep};
use refusal::Refusal;
use rows::Items;
use sheet::marked;
use std::marker::PhantomData;

#[derive(Drop)]
pub struct Link<M: Mark, K: Kind, E: Endian> {
    item: K,
    mark: PhantomData<M>,
    order: PhantomData<E>,
}

impl<K: Kind, E: Endian> Link<PointerMark, K, E> {
    pub fn new(item: K) -> Self
        ensures { result.item ≡ item }
    {
        Link::to(item)
    }
}

impl<K: Kind + Drop, E: Endian> Link<FarArrayMark, Items<K>, E> {
    // Of 1 to 65,535 items; another count is refused.
    pub fn new(item: K, count: u32) -> Result<Self, Refusal>
        ensures told { told_by (λ a. a.item.count.value) result ≡ counted count }
        ensures item { IfOk result (λ a. a.item.item ≡ item) }
    {
        let items = Items::new(item, count)?;
        Ok(Link::to(items))
    }
}

impl<M: Mark, K: Kind, E: Endian> Link<M, K, E> {
    fn to(item: K) -> Self
        ensures { result.item ≡ item }
    {
        Link {
            item,
            mark: PhantomData,
            order: PhantomData,
        }
    }

    // Where the distance at a place leads, if the item sits there. Always in line: else the size of far arrays is computed for each of a row,
    // which then takes half as long again to check.
    #[inline(always)]
    fn target(&self, archive: &[u8], at: usize) -> Result<usize, Refusal>
        requires { Seated (link M.Mark.MARK (K.Kind.meaning self.now.item) E.Endian.order) archive.now at }
        ensures { told result ≡ linked (K.Kind.meaning self.now.item) E.Endian.order archive.now at }
    {
        follow::<E>(archive, at, self.item.size(), self.item.align())
    }
}

impl<M: Mark, K: Kind, E: Endian> Kind for Link<M, K, E> {
    ghost meaning = { λ k. link M.Mark.MARK (K.Kind.meaning k.item) E.Endian.order };

    ghost lawful = { λ k. link_laws M.Mark.MARK (K.Kind.meaning k.item) E.Endian.order M.Mark.bytes M.Mark.two (K.Kind.lawful k.item).keeps E.Endian.undoes };

    fn size(&self) -> usize {
        SIZE
    }

    fn align(&self) -> usize {
        ALIGN
    }

    fn scan(&self, sheet: &[u8], at: usize) -> Result<usize, Refusal> {
        let item = marked(sheet, at, &M::MARK, 0)?;
        held(self.item.scan(sheet, item))
    }

    fn layout(&self, sheet: &[u8], at: &mut usize, tail: usize) -> (usize, usize) {
        *at += 2;
        let start = far_tail(tail, self.item.size(), self.item.align());
        let (end, widest) = self.item.layout(sheet, at, start);
        (end, widest.max(ALIGN))
    }

    fn fill(
        &self,
        sheet: &[u8],
        at: &mut usize,
        out: &mut [u8],
        head: usize,
        tail: usize,
    ) -> usize {
        *at += 2;
        let place = reach::<E>(out, head, tail, self.item.align());
        self.item
            .fill(sheet, at, out, place, place + self.item.size())
    }

    fn shallow(&self, archive: &[u8], at: usize) -> Result<usize, Refusal> {
        self.target(archive, at)?;
        Ok(at)
    }

    fn deep(&self, archive: &[u8], at: usize) -> Result<usize, Refusal> {
        let place = self.target(archive, at)?;
        behind_front(self.item.deep(archive, place), 2)
    }

    fn copy(&self, archive: &[u8], at: usize, out: &mut [u8], to: usize) -> usize {
        put_at(out, to, &M::MARK);
        self.item.copy(archive, led::<E>(archive, at), out, to + 2)
    }
}

impl<M: Mark, K: Kind, E: Endian> OneStep for Link<M, K, E> {
    ghost step = { λ k. pointer_step (K.Kind.meaning k.item) E.Endian.order };

    fn one_step<'a>(&self, archive: &'a [u8], at: usize) -> Result<Found<'a>, Refusal> {
        let place = self.target(archive, at)?;
        Ok(Found::Target { place })
    }
}
