// How an archive grows: zeros up to the next place of an alignment, then what is added.
ghost use Rattle.std.specs.Prelude.{◌≡◌, ◌+◌, ◌-◌, ◌≤◌, max, length, IfOk, OnOk, ◌==◌, nat_le};
ghost use Rattle.format.specs.Places.{up, zeros, put};
ghost use Rattle.format.specs.Answers.{good, fault, unless};
ghost use Rattle.format.specs.Builder.{allowed, appended, done};
ghost use Rattle.refusal.specs.Told.{told};
ghost use Rattle.builder.specs.Additions.{bytes_of};
ghost use Rattle.builder.specs.Model.{model, left, Growable};

use crate::ZeroBuilder;
use crate::addition::Addition;
use crate::alignment::Alignment;
use buffer::{lies_within, put_zeros, rounded};
use refusal::{Cause, Refusal};

impl ZeroBuilder {
    // That a buffer is as long as at the start. `grow`, `append` and `commit` ask it by a clause: of a struct that lends builder and buffer
    // each of them would owe two clauses more, on the references that it still holds.
    pub(crate) fn own(&self, length: usize) -> Result<usize, Refusal>
        ensures told { told result ≡ unless (length == self.now.room) (fault 2 0) (good length) }
        ensures same { OnOk result (length ≡ self.now.room) }
    {
        if length != self.room {
            return Err(Refusal::whole(Cause::OtherBuffer));
        }
        Ok(length)
    }

    // That so many bytes from a place on have room.
    pub(crate) fn reach(&self, place: usize, count: usize) -> Result<usize, Refusal>
        ensures told { told result ≡ unless (nat_le (place + count) self.now.room) (fault 4 0) (good place) }
        ensures within { IfOk result (λ p. (p ≡ place) × (place + count ≤ self.now.room)) }
    {
        if !lies_within(self.room, place, count) {
            return Err(Refusal::whole(Cause::NoRoom));
        }
        Ok(place)
    }

    // The next place of an alignment.
    pub(crate) fn next(&self, alignment: Alignment) -> usize
        ensures place { result ≡ up self.now.used alignment.bytes }
        ensures low { self.now.used ≤ result }
        ensures high { result ≤ 2147487743 }
    {
        rounded(self.used, alignment.bytes)
    }

    // Zeros up to a place; the archive then has so many bytes and that alignment.
    pub(crate) fn grow(&mut self, buffer: &mut [u8], place: usize, used: usize, align: Alignment)
        requires { Growable (model self.old) buffer.old place used }
        ensures builder { model self.new ≡ record { used = used; align = align.bytes; room = self.old.room } }
        ensures bytes { buffer.new ≡ put buffer.old self.old.used (zeros (place - self.old.used)) }
    {
        put_zeros(buffer, self.used, place - self.used);
        self.used = used;
        self.align = align;
    }

    // What is added, at the next place of an alignment, which is told.
    pub(crate) fn append(
        &mut self,
        buffer: &mut [u8],
        alignment: Alignment,
        addition: Addition<'_>,
    ) -> Result<usize, Refusal>
        requires { length buffer.old ≡ self.old.room }
        ensures { left result self.new buffer.new ≡ done (model self.old) buffer.old (appended (model self.old) alignment.bytes (bytes_of addition.entry)) }
    {
        let count = addition.count();
        let place = self.reach(self.next(alignment), count)?;
        let align = self.align.larger(alignment);
        self.grow(buffer, place, place + count, align);
        addition.put(buffer, place);
        Ok(place)
    }

    // The same of an alignment that is asked for, in a buffer that is not yet known to be the one of the start.
    pub(crate) fn append_asked(
        &mut self,
        buffer: &mut [u8],
        alignment: usize,
        addition: Addition<'_>,
    ) -> Result<usize, Refusal>
        ensures { left result self.new buffer.new ≡ done (model self.old) buffer.old (unless (length buffer.old == self.old.room) (fault 2 0) (unless (allowed alignment) (fault 3 0) (appended (model self.old) (max 1 alignment) (bytes_of addition.entry)))) }
    {
        self.own(buffer.len())?;
        let alignment = Alignment::asked(alignment)?;
        self.append(buffer, alignment, addition)
    }
}
