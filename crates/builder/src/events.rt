// What a builder can be asked. A refused call changes nothing.
ghost use Rattle.std.specs.Prelude.{◌≡◌};
ghost use Rattle.format.specs.Builder.{new as begun, step, align as aligns, reserve as reserves, reserve_bytes as reserves_bytes, write as writes, push as pushes, push_bytes as pushes_bytes, finish as ends};
ghost use Rattle.format.specs.Life.{LivesWell};
ghost use Rattle.refusal.specs.Told.{told_by};
ghost use Rattle.builder.specs.Model.{model, left, finished_of};

use crate::addition::Addition;
use crate::alignment::Alignment;
use crate::{Finished, ZeroBuilder};
use buffer::{LIMIT, lies_within, put_at};
use kind::Kind;
use refusal::{Cause, Refusal};

impl ZeroBuilder {
    // An archive of no bytes.
    pub fn new(buffer: &[u8]) -> Result<ZeroBuilder, Refusal>
        ensures { told_by model result ≡ begun buffer.now }
    {
        if buffer.len() > LIMIT {
            return Err(Refusal::whole(Cause::OverLimit));
        }
        Ok(ZeroBuilder {
            used: 0,
            align: Alignment { bytes: 1 },
            room: buffer.len(),
        })
    }

    // Zeros up to the next place of an alignment, which is told.
    pub fn align(&mut self, buffer: &mut [u8], alignment: usize) -> Result<usize, Refusal>
        ensures { left result self.new buffer.new ≡ step (aligns alignment) (model self.old) buffer.old }
    {
        self.reserve_bytes(buffer, 0, alignment)
    }

    // Zeros for a head of a kind; their place is told.
    pub fn reserve<K: Kind>(&mut self, buffer: &mut [u8], kind: &K) -> Result<usize, Refusal>
        ensures { left result self.new buffer.new ≡ step (reserves (K.Kind.meaning kind.now)) (model self.old) buffer.old }
    {
        self.own(buffer.len())?;
        self.append(buffer, Alignment::of(kind), Addition::Zeros(kind.size()))
    }

    // So many zeros; their place is told.
    pub fn reserve_bytes(
        &mut self,
        buffer: &mut [u8],
        count: usize,
        alignment: usize,
    ) -> Result<usize, Refusal>
        ensures { left result self.new buffer.new ≡ step (reserves_bytes count alignment) (model self.old) buffer.old }
    {
        self.append_asked(buffer, alignment, Addition::Zeros(count))
    }

    // Puts bytes over those at a place of the archive.
    pub fn write(&mut self, buffer: &mut [u8], place: usize, bytes: &[u8]) -> Result<usize, Refusal>
        ensures { left result self.new buffer.new ≡ step (writes place bytes.now) (model self.old) buffer.old }
    {
        self.own(buffer.len())?;
        if !lies_within(self.used, place, bytes.len()) {
            return Err(Refusal::whole(Cause::PastUsed));
        }
        put_at(buffer, place, bytes);
        Ok(place)
    }

    // The raw bytes of a head of a kind; their place is told.
    pub fn push<K: Kind>(
        &mut self,
        buffer: &mut [u8],
        kind: &K,
        bytes: &[u8],
    ) -> Result<usize, Refusal>
        ensures { left result self.new buffer.new ≡ step (pushes (K.Kind.meaning kind.now) bytes.now) (model self.old) buffer.old }
    {
        self.own(buffer.len())?;
        if bytes.len() != kind.size() {
            return Err(Refusal::whole(Cause::WrongSize));
        }
        self.append(buffer, Alignment::of(kind), Addition::Bytes(bytes))
    }

    // Bytes as they are; their place is told.
    pub fn push_bytes(
        &mut self,
        buffer: &mut [u8],
        bytes: &[u8],
        alignment: usize,
    ) -> Result<usize, Refusal>
        ensures { left result self.new buffer.new ≡ step (pushes_bytes bytes.now alignment) (model self.old) buffer.old }
    {
        self.append_asked(buffer, alignment, Addition::Bytes(bytes))
    }

    // Ends the builder. Whatever life it had, this is what it leaves.
    pub fn finish(self) -> Finished
        ensures told { finished_of result ≡ ends (model self) }
        ensures life { LivesWell (model self) (finished_of result) }
    {
        Finished {
            length: self.used,
            alignment: self.align.bytes,
        }
    }
}
