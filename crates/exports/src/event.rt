// The calls of a life, made on a builder.
ghost use Rattle.std.specs.Prelude.{◌≡◌};
ghost use Rattle.format.specs.Builder.{step};
ghost use Rattle.builder.specs.Model.{model, left};
ghost use Rattle.exports.specs.Calls.{named};
ghost use Rattle.exports.specs.Lives.{made as made_by};
ghost use Rattle.exports.specs.Steps.{event_of, of_kind, left_by, Waits};

use crate::answer::{Told, Trouble};
use crate::calls::{Name, made};
use builder::ZeroBuilder;
use catalogue::Use;
use kind::{Kind, OneStep};
use refusal::Refusal;

#[derive(Clone, Copy)]
pub enum Event<'a> {
    Align(usize),
    ReserveBytes { count: usize, alignment: usize },
    Write { place: usize, bytes: &'a [u8] },
    PushBytes { bytes: &'a [u8], alignment: usize },
    OfKind(Name<'a>, KindEvent<'a>),
}

#[derive(Clone, Copy)]
pub enum KindEvent<'a> {
    Reserve,
    Push(&'a [u8]),
    Build(&'a [u8]),
}

impl Event<'_> {
    pub(crate) fn make(self, builder: &mut ZeroBuilder, buffer: &mut [u8]) -> Result<Told, Trouble>
        ensures { left_by result builder.new buffer.new ≡ made_by (model builder.old) buffer.old (event_of self.entry) }
    {
        let told = match self {
            Event::Align(alignment) => builder.align(buffer, alignment)?,
            Event::ReserveBytes { count, alignment } => {
                builder.reserve_bytes(buffer, count, alignment)?
            }
            Event::Write { place, bytes } => builder.write(buffer, place, bytes)?,
            Event::PushBytes { bytes, alignment } => {
                builder.push_bytes(buffer, bytes, alignment)?
            }
            Event::OfKind(name, event) => return event.make_named(name, builder, buffer),
        };
        Ok(told.into())
    }
}

impl KindEvent<'_> {
    // With the kind that a name means.
    fn make_named(
        self,
        name: Name,
        builder: &mut ZeroBuilder,
        buffer: &mut [u8],
    ) -> Result<Told, Trouble>
        ensures { left_by result builder.new buffer.new ≡ made_by (model builder.old) buffer.old (named name.entry.kind.now name.entry.order (of_kind self.entry)) }
    {
        made(
            name,
            &mut Waiting {
                event: &self,
                builder,
                buffer,
            },
        )
    }

    fn make<K: Kind>(
        self,
        builder: &mut ZeroBuilder,
        buffer: &mut [u8],
        kind: &K,
    ) -> Result<usize, Refusal>
        ensures { left result builder.new buffer.new ≡ step (of_kind self.entry (K.Kind.meaning kind.now)) (model builder.old) buffer.old }
    {
        match self {
            KindEvent::Reserve => builder.reserve(buffer, kind),
            KindEvent::Push(bytes) => builder.push(buffer, kind, bytes),
            KindEvent::Build(sheet) => builder.build(buffer, kind, sheet),
        }
    }
}

// An event that waits for its kind, with what it is made on. By reference: of a struct that holds an enum which borrows, a proof would
// not know what builder and buffer it leaves.
#[derive(Drop)]
struct Waiting<'a, 'b, 'c> {
    event: &'a KindEvent<'a>,
    builder: &'b mut ZeroBuilder,
    buffer: &'c mut [u8],
}

impl Use for Waiting<'_, '_, '_> {
    type Answer = Result<Told, Trouble>;

    ghost tells = { Waits };

    fn with<K: Kind>(&mut self, kind: &K) -> Result<Told, Trouble> {
        Ok(self.event.make(self.builder, self.buffer, kind)?.into())
    }

    fn with_step<K: OneStep>(&mut self, kind: &K) -> Result<Told, Trouble> {
        self.with(kind)
    }
}
