// The calls on sheets and archives, each made with a kind of the catalogue.
ghost use Rattle.std.specs.Prelude.{◌≡◌, Result};
ghost use Rattle.catalogue.specs.Orders.{order_named};
ghost use Rattle.exports.specs.declared.answer.Told.{Told};
ghost use Rattle.exports.specs.declared.answer.Trouble.{Trouble};
ghost use Rattle.exports.specs.Numbers.{answer_of};
ghost use Rattle.exports.specs.Answering.{scanned, checked, checked_deeply, stepped};
ghost use Rattle.exports.specs.Making.{Copies, MadeIn};

use crate::answer::{Answer, NotMade, Told, Trouble};
use archive::{copy_out, get, is_valid, is_valid_deep};
use catalogue::{Order, Use, with_kind};
use kind::{Found, Kind, OneStep};

type Outcome = Result<Told, Trouble>;

// A kind and a byte order as C names them.
#[derive(Clone, Copy)]
pub struct Name<'a> {
    pub kind: &'a [u8],
    pub order: u8,
}

// Makes a call with the kind of a name; the order is asked for first.
pub(crate) fn made<U: Use<Answer = Outcome>>(name: Name, call: &mut U) -> Outcome
    ensures { MadeIn U.tells call.old result call.new name.entry.kind.now (order_named name.entry.order) }
{
    let order = Order::named(name.order).ok_or(NotMade::NoOrder)?;
    with_kind(name.kind, order, call)?
}

pub(crate) fn asked<U: Use<Answer = Outcome>>(kind: &[u8], order: u8, call: &mut U) -> Answer
    ensures { (r : Result Told Trouble) × (result ≡ answer_of r) × MadeIn U.tells call.old r call.new kind.now (order_named order) }
{
    made(Name { kind, order }, call).into()
}

// A value's head in an archive.
#[derive(Clone, Copy)]
pub struct Root<'a> {
    pub archive: &'a [u8],
    pub place: usize,
}

#[derive(Clone, Copy)]
pub struct Scan<'a> {
    pub sheet: &'a [u8],
}

impl Use for Scan<'_> {
    type Answer = Outcome;

    ghost tells = { λ u k r v. answer_of r ≡ scanned u.sheet.now k };

    fn with<K: Kind>(&mut self, kind: &K) -> Outcome {
        Ok(kind.scan(self.sheet, 0)?.into())
    }

    fn with_step<K: OneStep>(&mut self, kind: &K) -> Outcome {
        self.with(kind)
    }
}

#[derive(Clone, Copy)]
pub struct Shallow<'a>(pub Root<'a>);

impl Use for Shallow<'_> {
    type Answer = Outcome;

    ghost tells = { λ u k r v. answer_of r ≡ checked u.0.archive.now u.0.place k };

    fn with<K: Kind>(&mut self, kind: &K) -> Outcome {
        Ok(is_valid(kind, self.0.archive, self.0.place)?.into())
    }

    fn with_step<K: OneStep>(&mut self, kind: &K) -> Outcome {
        self.with(kind)
    }
}

#[derive(Clone, Copy)]
pub struct Deep<'a>(pub Root<'a>);

impl Use for Deep<'_> {
    type Answer = Outcome;

    ghost tells = { λ u k r v. answer_of r ≡ checked_deeply u.0.archive.now u.0.place k };

    fn with<K: Kind>(&mut self, kind: &K) -> Outcome {
        Ok(is_valid_deep(kind, self.0.archive, self.0.place)?.into())
    }

    fn with_step<K: OneStep>(&mut self, kind: &K) -> Outcome {
        self.with(kind)
    }
}

#[derive(Clone, Copy)]
pub struct Get<'a>(pub Root<'a>);

impl Use for Get<'_> {
    type Answer = Outcome;

    ghost tells = { λ u k r v. answer_of r ≡ stepped u.0.archive.now u.0.place k };

    // One step is not for each kind.
    fn with<K: Kind>(&mut self, kind: &K) -> Outcome {
        Err(NotMade::NoGet.into())
    }

    fn with_step<K: OneStep>(&mut self, kind: &K) -> Outcome {
        match get(kind, self.0.archive, self.0.place)? {
            Found::Target { place } => Ok(place.into()),
            Found::Items { place, count } => Ok(Told {
                value: place,
                count: count as usize,
            }),
            Found::Text(part) => Ok(Told {
                value: part.place,
                count: part.bytes.len(),
            }),
        }
    }
}

#[derive(Drop)]
pub struct CopyOut<'a, 'b> {
    pub root: Root<'a>,
    pub output: &'b mut [u8],
}

impl Use for CopyOut<'_, '_> {
    type Answer = Outcome;

    ghost tells = { Copies };

    fn with<K: Kind>(&mut self, kind: &K) -> Outcome {
        Ok(copy_out(kind, self.root.archive, self.root.place, self.output)?.into())
    }

    fn with_step<K: OneStep>(&mut self, kind: &K) -> Outcome {
        self.with(kind)
    }
}
