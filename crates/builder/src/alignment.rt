// The alignments that a builder goes by.
ghost use Rattle.std.specs.Prelude.{◌≡◌, max};
ghost use Rattle.format.specs.Answers.{good, fault, unless};
ghost use Rattle.format.specs.Builder.{allowed};
ghost use Rattle.refusal.specs.Told.{told_by};
ghost use Rattle.builder.specs.Alignments.{Power};

use kind::Kind;
use refusal::{Cause, Refusal};

const LARGEST: usize = 4096;

// A power of two up to 4,096.
#[derive(Clone, Copy)]
pub(crate) struct Alignment {
    pub(crate) bytes: usize,
    ghost power: { Power bytes },
}

impl Alignment {
    // One that is asked for; 0 is taken as 1. As `Count` and the kinds, it is made by a function with a name, and by no `TryFrom`.
    pub(crate) fn asked(number: usize) -> Result<Alignment, Refusal>
        ensures { told_by (λ a. a.bytes) result ≡ unless (allowed number) (fault 3 0) (good (max 1 number)) }
    {
        let bytes = number.max(1);
        if bytes > LARGEST || !bytes.is_power_of_two() {
            return Err(Refusal::whole(Cause::BadAlignment));
        }
        Ok(Alignment { bytes })
    }

    // A kind's own, which the laws of kinds make one.
    pub(crate) fn of<K: Kind>(kind: &K) -> Alignment
        ensures { result.bytes ≡ (K.Kind.meaning kind.now).align }
    {
        Alignment {
            bytes: kind.align(),
        }
    }

    pub(crate) fn larger(self, other: Alignment) -> Alignment
        ensures { result.bytes ≡ max self.bytes other.bytes }
    {
        Alignment {
            bytes: self.bytes.max(other.bytes),
        }
    }
}
