// A row in an archive: heads side by side, each as far from the last as an item is long.
ghost use Rattle.std.specs.Prelude.{◌≡◌, ℕ, ◌+◌, List, length};
ghost use Rattle.format.specs.Places.{put};
ghost use Rattle.format.specs.Answers.{good};
ghost use Rattle.format.specs.Items.{row};
ghost use Rattle.refusal.specs.Told.{told};
ghost use Rattle.kind.specs.Asked.{Seated, length_read, Copyable};

use crate::Row;
use kind::Kind;
use refusal::Refusal;

// These stay loops over the index: the invariant of a loop says what stands after each step, where a step of `try_fold` would have to
// carry it along, and one that writes does so behind what the last one wrote. With places by `step_by` it would have to divide by a size.
impl<K: Kind> Row<'_, K> {
    // One look at each head in turn: the place behind the last, or the first fault.
    pub fn shallow(&self, archive: &[u8], at: usize) -> Result<usize, Refusal>
        requires { Seated (row (K.Kind.meaning self.now.item.now) self.now.count) archive.now at }
        ensures { told result ≡ (row (K.Kind.meaning self.now.item.now) self.now.count).shallow archive.now at }
    {
        for index in 0..self.count {
            self.item.shallow(archive, self.place(at, index))?;
        }
        Ok(self.place(at, self.count))
    }

    // All that is read from each head in turn: how long their sheets are together, which stops at 2^64 - 1, or the first fault.
    pub fn deep(&self, archive: &[u8], at: usize) -> Result<usize, Refusal>
        requires { Seated (row (K.Kind.meaning self.now.item.now) self.now.count) archive.now at }
        ensures { told result ≡ length_read ((row (K.Kind.meaning self.now.item.now) self.now.count).reading archive.now at) }
    {
        if let Some(length) = self.item.always() {
            return Ok(length.saturating_mul(self.count as usize));
        }
        let mut total: usize = 0;
        for index in 0..self.count {
            let length = self.item.deep(archive, self.place(at, index))?;
            total = total.saturating_add(length);
        }
        Ok(total)
    }

    // Puts the sheets that are read from the heads into a buffer, one behind another from `to` on, and tells where the last ends.
    pub fn copy(&self, archive: &[u8], at: usize, out: &mut [u8], to: usize) -> usize
        requires { Copyable (row (K.Kind.meaning self.now.item.now) self.now.count) archive.now at out.old to }
        ensures { (s : List ℕ) → (row (K.Kind.meaning self.now.item.now) self.now.count).reading archive.now at ≡ good s → (out.new ≡ put out.old to s) × (result ≡ to + length s) }
    {
        let mut end = to;
        for index in 0..self.count {
            let place = self.place(at, index);
            end = self.item.copy(archive, place, out, end);
        }
        end
    }
}
