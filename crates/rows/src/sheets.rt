// A row in a sheet: one value after another, without a mark of its own.
ghost use Rattle.std.specs.Prelude.{◌≡◌, ◌≤◌, length, IfOk};
ghost use Rattle.format.specs.Sheets.{at_place};
ghost use Rattle.format.specs.Items.{row};
ghost use Rattle.refusal.specs.Told.{told};
ghost use Rattle.kind.specs.Asked.{value_at, Next, Askable, Foretold, Fillable, filled};

use crate::Row;
use kind::Kind;
use refusal::Refusal;

// Each loop goes on from where the last item ended, which only that item tells.
impl<K: Kind> Row<'_, K> {
    // Where the last item ends, or the first fault.
    pub fn scan(&self, sheet: &[u8], at: usize) -> Result<usize, Refusal>
        requires { at ≤ length sheet.now }
        ensures told { told result ≡ at_place (row (K.Kind.meaning self.now.item.now) self.now.count).scan sheet.now at }
        ensures within { IfOk result (λ end. (at ≤ end) × (end ≤ length sheet.now)) }
    {
        let mut end = at;
        for _ in 0..self.count {
            end = self.item.scan(sheet, end)?;
        }
        Ok(end)
    }

    // Where the last item's tail would end, the first's starting at `tail`, and the largest alignment used. `at` goes on behind the row.
    pub fn layout(&self, sheet: &[u8], at: &mut usize, tail: usize) -> (usize, usize)
        requires { Askable (row (K.Kind.meaning self.now.item.now) self.now.count) sheet.now at.old tail }
        ensures foretold { Foretold (row (K.Kind.meaning self.now.item.now) self.now.count) sheet.now at.old tail result.0 result.1 }
        ensures next { Next (row (K.Kind.meaning self.now.item.now) self.now.count) sheet.now at.old at.new }
    {
        let mut end = tail;
        let mut widest = self.item.align();
        for _ in 0..self.count {
            let (item_end, item_widest) = self.item.layout(sheet, at, end);
            end = item_end;
            widest = widest.max(item_widest);
        }
        (end, widest)
    }

    // Fills in each item: heads side by side from `head` on, tails one behind another from `tail` on. `at` goes on behind the row.
    pub fn fill(
        &self,
        sheet: &[u8],
        at: &mut usize,
        out: &mut [u8],
        head: usize,
        tail: usize,
    ) -> usize
        requires { Fillable (row (K.Kind.meaning self.now.item.now) self.now.count) sheet.now at.old out.old head tail }
        ensures bytes { out.new ≡ filled out.old head tail ((row (K.Kind.meaning self.now.item.now) self.now.count).lay (value_at (row (K.Kind.meaning self.now.item.now) self.now.count) sheet.now at.old) head tail) }
        ensures end { result ≡ ((row (K.Kind.meaning self.now.item.now) self.now.count).lay (value_at (row (K.Kind.meaning self.now.item.now) self.now.count) sheet.now at.old) head tail).end }
        ensures next { Next (row (K.Kind.meaning self.now.item.now) self.now.count) sheet.now at.old at.new }
    {
        let mut end = tail;
        for index in 0..self.count {
            let place = self.place(head, index);
            end = self.item.fill(sheet, at, out, place, end);
        }
        end
    }
}
