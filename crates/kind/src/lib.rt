// The kind: one interface for every kind of value, with its meaning and its laws.
#![tactic(auto)]

ghost use Rattle.std.specs.Prelude.{◌≡◌, ℕ, ◌+◌, ◌≤◌, List, length, IfOk};
ghost use Rattle.format.specs.Places.{limit, put};
ghost use Rattle.format.specs.Answers.{good};
ghost use Rattle.format.specs.Sheets.{at_place};
ghost use Rattle.format.specs.Meaning.{Meaning, Laws};
ghost use Rattle.refusal.specs.Told.{told};
ghost use Rattle.kind.specs.Asked.{value_at, Next, Askable, Foretold, Fillable, filled, Seated, length_read, Always, Copyable};

use refusal::Refusal;

mod count;
mod found;

pub use count::Count;
pub use found::{Found, OneStep, Part};

// A sheet or an archive and a place in it stay two parameters, here and in the crates above: each call goes on with the same bytes at
// another place, so a struct of the two would be made anew at each. What callers show of them, as `Seated`, speaks of a kind's meaning
// too; a type for it would hold all three, and would have to be made by each kind for each value that it holds. So do an output and the
// places in it, `to`, `head` and `tail`: each value that is held gets others. What `layout` tells is a pair, which is taken apart at once.
pub trait Kind {
    // size and alignment, sheets, layout and readings
    ghost meaning: { Self → Meaning };

    fn size(&self) -> usize
        ensures { result ≡ (meaning self.now).size };

    fn align(&self) -> usize
        ensures { result ≡ (meaning self.now).align };

    // That an end lies within its sheet, here and in the crates above, is said of the two together: no type of an end holds it.
    // Where the value at a place of a sheet ends, or its first fault.
    fn scan(&self, sheet: &[u8], at: usize) -> Result<usize, Refusal>
        requires { at ≤ length sheet.now }
        ensures told { told result ≡ at_place (meaning self.now).scan sheet.now at }
        ensures within { IfOk result (λ end. (at ≤ end) × (end ≤ length sheet.now)) };

    // Where the tail of the value at a place of a sheet would end, and the largest alignment used. `at` goes on to the next value.
    fn layout(&self, sheet: &[u8], at: &mut usize, tail: usize) -> (usize, usize)
        requires { Askable (meaning self.now) sheet.now at.old tail }
        ensures foretold { Foretold (meaning self.now) sheet.now at.old tail result.0 result.1 }
        ensures next { Next (meaning self.now) sheet.now at.old at.new };

    // Fills in the value at a place of a sheet: its head at `head`, its tail from `tail` on. Tells the tail's end; `at` goes on to the next value.
    fn fill(&self, sheet: &[u8], at: &mut usize, out: &mut [u8], head: usize, tail: usize) -> usize
        requires { Fillable (meaning self.now) sheet.now at.old out.old head tail }
        ensures bytes { out.new ≡ filled out.old head tail ((meaning self.now).lay (value_at (meaning self.now) sheet.now at.old) head tail) }
        ensures end { result ≡ ((meaning self.now).lay (value_at (meaning self.now) sheet.now at.old) head tail).end }
        ensures next { Next (meaning self.now) sheet.now at.old at.new };

    // One look at the head at a place of an archive.
    fn shallow(&self, archive: &[u8], at: usize) -> Result<usize, Refusal>
        requires { Seated (meaning self.now) archive.now at }
        ensures { told result ≡ (meaning self.now).shallow archive.now at };

    // All that is read from the head at a place of an archive: how long its sheet is, which stops at 2^64 - 1, or the first fault.
    fn deep(&self, archive: &[u8], at: usize) -> Result<usize, Refusal>
        requires { Seated (meaning self.now) archive.now at }
        ensures { told result ≡ length_read ((meaning self.now).reading archive.now at) };

    // How long the sheet of every reading is, where none can be refused and all are as long: a row of such items need not be read.
    fn always(&self) -> Option<usize>
        ensures { Always (meaning self.now) result }
    {
        None
    }

    // Puts the sheet that is read from a head into a buffer, from `to` on, and tells where it ends.
    fn copy(&self, archive: &[u8], at: usize, out: &mut [u8], to: usize) -> usize
        requires { Copyable (meaning self.now) archive.now at out.old to }
        ensures { (s : List ℕ) → (meaning self.now).reading archive.now at ≡ good s → (out.new ≡ put out.old to s) × (result ≡ to + length s) };

    ghost lawful: { (k : Self) → Laws (meaning k) };
}
