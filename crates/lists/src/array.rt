// So many values in a row, in the head itself.
ghost use Rattle.std.specs.Prelude.{◌≡◌, IfOk};
ghost use Rattle.format.specs.Meaning.{counted};
ghost use Rattle.format.specs.Links.{array};
ghost use Rattle.refusal.specs.Told.{told_by};
ghost use Rattle.format.proofs.LinkLaws.{array_laws};

use buffer::put_at;
use holding::{behind_front, held};
use kind::Kind;
use refusal::Refusal;
use rows::Items;
use sheet::{marked, marks};

#[derive(Drop)]
pub struct Array<K: Kind> {
    items: Items<K>,
}

impl<K: Kind + Drop> Array<K> {
    // Of 1 to 65,535 items; another count is refused.
    pub fn new(item: K, count: u32) -> Result<Self, Refusal>
        ensures told { told_by (λ a. a.items.count.value) result ≡ counted count }
        ensures item { IfOk result (λ a. a.items.item ≡ item) }
    {
        let items = Items::new(item, count)?;
        Ok(Array { items })
    }
}

impl<K: Kind> Kind for Array<K> {
    ghost meaning = { λ k. array k.items.count.value (K.Kind.meaning k.items.item) };

    ghost lawful = { λ k. array_laws k.items.count.value (K.Kind.meaning k.items.item) k.items.count.sound.0 (K.Kind.lawful k.items.item) };

    fn size(&self) -> usize {
        self.items.size()
    }

    fn align(&self) -> usize {
        self.items.align()
    }

    fn scan(&self, sheet: &[u8], at: usize) -> Result<usize, Refusal> {
        let first = marked(sheet, at, marks::AN, 0)?;
        held(self.items.scan(sheet, first))
    }

    fn layout(&self, sheet: &[u8], at: &mut usize, tail: usize) -> (usize, usize) {
        *at += 2;
        self.items.layout(sheet, at, tail)
    }

    fn fill(
        &self,
        sheet: &[u8],
        at: &mut usize,
        out: &mut [u8],
        head: usize,
        tail: usize,
    ) -> usize {
        *at += 2;
        self.items.fill(sheet, at, out, head, tail)
    }

    #[tactic(auto, using(crate::proofs::ArrayCalls::looked))]
    fn shallow(&self, archive: &[u8], at: usize) -> Result<usize, Refusal> {
        held(self.items.shallow(archive, at))?;
        Ok(at)
    }

    fn deep(&self, archive: &[u8], at: usize) -> Result<usize, Refusal> {
        behind_front(self.items.deep(archive, at), 2)
    }

    fn copy(&self, archive: &[u8], at: usize, out: &mut [u8], to: usize) -> usize {
        put_at(out, to, marks::AN);
        self.items.copy(archive, at, out, to + 2)
    }
}
