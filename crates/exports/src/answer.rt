// What a call answers, as C reads it.
ghost use Rattle.std.specs.Prelude.{◌≡◌};
ghost use Rattle.exports.specs.declared.answer.Trouble.TheVariants.{Refused as Refusing, NotMade as Unmade};
ghost use Rattle.exports.specs.Numbers.{answer_of, trouble_of};

use catalogue::Missing;
use refusal::Refusal;

// As `c/gachullpi.h` has it.
#[repr(C)]
#[derive(Clone, Copy)]
pub struct Answer {
    pub refusal: u64,
    pub place: u64,
    pub depth: u64,
    pub value: u64,
    pub count: u64,
}

// Why a call is not made. The numbers are those of the header.
#[derive(Clone, Copy)]
pub enum NotMade {
    NoKind = 100,
    NoOrder = 101,
    NoGet = 102,
    NoCall = 103,
    NoAnswer = 104,
}

// What an accepted call tells.
#[derive(Clone, Copy)]
pub struct Told {
    pub value: usize,
    pub count: usize,
}

impl From<usize> for Told {
    ghost from_gives = { λ n t. t ≡ record { value = n; count = 0 } };

    fn from(value: usize) -> Told {
        Told { value, count: 0 }
    }
}

#[derive(Clone, Copy)]
pub enum Trouble {
    Refused(Refusal),
    NotMade(NotMade),
}

// These stand by hand, since the contracts name the error that a `?` makes, and a derived `From` has no contract.
impl From<Refusal> for Trouble {
    ghost from_gives = { λ e r. r ≡ Refusing e };

    fn from(refusal: Refusal) -> Trouble {
        Trouble::Refused(refusal)
    }
}

impl From<NotMade> for Trouble {
    ghost from_gives = { λ e r. r ≡ Unmade e };

    fn from(why: NotMade) -> Trouble {
        Trouble::NotMade(why)
    }
}

impl From<Missing> for Trouble {
    ghost from_gives = { λ e r. r ≡ trouble_of e };

    fn from(missing: Missing) -> Trouble {
        match missing {
            Missing::NoKind => NotMade::NoKind.into(),
            Missing::Refused(refusal) => refusal.into(),
        }
    }
}

impl From<Result<Told, Trouble>> for Answer {
    ghost from_gives = { λ o a. a ≡ answer_of o };

    fn from(outcome: Result<Told, Trouble>) -> Answer {
        let nothing = Answer {
            refusal: 0,
            place: 0,
            depth: 0,
            value: 0,
            count: 0,
        };
        match outcome {
            Ok(told) => Answer {
                value: told.value as u64,
                count: told.count as u64,
                ..nothing
            },
            Err(Trouble::Refused(refusal)) => Answer {
                refusal: refusal.cause.number() as u64,
                place: refusal.place as u64,
                depth: refusal.depth as u64,
                ..nothing
            },
            Err(Trouble::NotMade(why)) => Answer {
                refusal: why as u64,
                ..nothing
            },
        }
    }
}
