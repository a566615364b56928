// Items side by side: what a kind answers of one, asked of so many in a row. Arrays and slices hold such a row.
#![tactic(auto)]

ghost use Rattle.std.specs.Prelude.{◌≡◌, ◌+◌, ◌*◌, ◌<◌, ◌^◌};
ghost use Rattle.format.specs.Items.{row};

use buffer::STOP;
use kind::Kind;

mod items;
mod reading;
mod sheets;

pub use items::Items;

// So many items of a kind, one behind another.
#[derive_where(Clone, Copy)]
pub struct Row<'a, K: Kind> {
    pub item: &'a K,
    pub count: u32,
}

impl<K: Kind> Row<'_, K> {
    // How many bytes the heads take.
    pub fn size(&self) -> usize
        ensures { result ≡ (row (K.Kind.meaning self.now.item.now) self.now.count).size }
    {
        (self.count as usize * self.item.size()).min(STOP)
    }

    pub fn align(&self) -> usize
        ensures { result ≡ (row (K.Kind.meaning self.now.item.now) self.now.count).align }
    {
        self.item.align()
    }

    // Where the head of an item is, if the first one's is at `at`.
    fn place(&self, at: usize, index: u32) -> usize
        requires { at + index * (K.Kind.meaning self.now.item.now).size < 2 ^ 64 }
        ensures { result ≡ at + index * (K.Kind.meaning self.now.item.now).size }
    {
        at + index as usize * self.item.size()
    }
}
