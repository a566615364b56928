// So many items as a kind of their own, without a mark: what an array has in its head and a far array leads to.
ghost use Rattle.std.specs.Prelude.{◌≡◌, IfOk};
ghost use Rattle.format.specs.Meaning.{counted};
ghost use Rattle.refusal.specs.Told.{told_by};
ghost use Rattle.format.specs.Items.{row};
ghost use Rattle.format.proofs.LinkLaws.{array_laws};
ghost use Rattle.format.proofs.RowLaws.{row_keeps};

use crate::Row;
use kind::{Count, Kind};
use refusal::Refusal;

#[derive(Drop)]
pub struct Items<K: Kind> {
    pub item: K,
    pub count: Count,
}

impl<K: Kind + Drop> Items<K> {
    // Of 1 to 65,535 items; another count is refused.
    pub fn new(item: K, count: u32) -> Result<Self, Refusal>
        ensures told { told_by (λ a. a.count.value) result ≡ counted count }
        ensures item { IfOk result (λ a. a.item ≡ item) }
    {
        let count = Count::new(count as usize)?;
        Ok(Items { item, count })
    }
}

impl<K: Kind> Items<K> {
    fn row(&self) -> Row<'_, K>
        ensures item { result.item.now ≡ self.now.item }
        ensures count { result.count ≡ self.now.count.value }
    {
        Row {
            item: &self.item,
            count: self.count.value(),
        }
    }
}

impl<K: Kind> Kind for Items<K> {
    ghost meaning = { λ k. row (K.Kind.meaning k.item) k.count.value };

    // The size is that of an inline array of them, so it is not 0.
    ghost lawful = { λ k. record { some = (array_laws k.count.value (K.Kind.meaning k.item) k.count.sound.0 (K.Kind.lawful k.item)).some; keeps = row_keeps (K.Kind.meaning k.item) k.count.value (K.Kind.lawful k.item) } };

    fn size(&self) -> usize {
        self.row().size()
    }

    fn align(&self) -> usize {
        self.row().align()
    }

    fn scan(&self, sheet: &[u8], at: usize) -> Result<usize, Refusal> {
        self.row().scan(sheet, at)
    }

    fn layout(&self, sheet: &[u8], at: &mut usize, tail: usize) -> (usize, usize) {
        self.row().layout(sheet, at, tail)
    }

    fn fill(
        &self,
        sheet: &[u8],
        at: &mut usize,
        out: &mut [u8],
        head: usize,
        tail: usize,
    ) -> usize {
        self.row().fill(sheet, at, out, head, tail)
    }

    fn shallow(&self, archive: &[u8], at: usize) -> Result<usize, Refusal> {
        self.row().shallow(archive, at)
    }

    fn deep(&self, archive: &[u8], at: usize) -> Result<usize, Refusal> {
        self.row().deep(archive, at)
    }

    fn copy(&self, archive: &[u8], at: usize, out: &mut [u8], to: usize) -> usize {
        self.row().copy(archive, at, out, to)
    }
}
