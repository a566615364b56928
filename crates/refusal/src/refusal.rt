// A refusal, and how it is told.
ghost use Rattle.std.specs.Prelude.{◌≡◌};
ghost use Rattle.format.specs.Answers.{deeper as one_deeper};
ghost use Rattle.refusal.specs.Told.{cause_number, fault_of};

use crate::cause::Cause;
use thiserror::Error;

// Places of 11 to 15 count from the sheet's first byte, of 21 to 24 from the archive's.
// The depth is how many pointers, arrays and slices hold the faulty value.
#[derive(Clone, Copy, PartialEq, Eq, Debug, Error)]
#[error("{cause} (refusal {}, place {place}, depth {depth})", .cause.number())]
pub struct Refusal {
    pub cause: Cause,
    pub place: usize,
    pub depth: u32,
}

// Where depths stop: a number of their own type, beside the stop of sizes in `buffer`.
const DEEPEST: u32 = 2_147_483_648;

impl Cause {
    // No `From`: the documents speak of a refusal's number.
    pub fn number(self) -> u8
        ensures { result ≡ cause_number self }
    {
        self as u8
    }
}

impl Refusal {
    // Of a whole call: place 0 and depth 0.
    pub fn whole(cause: Cause) -> Refusal
        ensures { result ≡ record { cause = cause; place = 0; depth = 0 } }
    {
        Refusal::at(cause, 0)
    }

    // Of the value at a place that nothing holds.
    pub fn at(cause: Cause, place: usize) -> Refusal
        ensures { result ≡ record { cause = cause; place = place; depth = 0 } }
    {
        Refusal {
            cause,
            place,
            depth: 0,
        }
    }

    // The same of a value that is held by one more.
    pub fn deeper(self) -> Refusal
        ensures { fault_of result ≡ one_deeper (fault_of self) }
    {
        Refusal {
            depth: self.depth.saturating_add(1).min(DEEPEST),
            ..self
        }
    }
}
