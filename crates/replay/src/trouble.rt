// Why a call gives no answer of its own: it is refused, or it cannot be made.
use catalogue::Missing;
use hex::FromHexError;
use refusal::Refusal;
use std::alloc::AllocError;
use thiserror::Error;

// What is wrong with a line that is no call.
#[derive(Clone, Copy, Debug, Error)]
pub enum Unread {
    #[error("a word is missing")]
    NoWord,
    #[error("a number was expected")]
    NoNumber,
    #[error("hexadecimal digits were expected")]
    NoDigits,
    #[error("an odd number of hexadecimal digits")]
    OddDigits,
    #[error("an order is l or b")]
    NoOrder,
    #[error("no such kind in the catalogue")]
    NoKind,
    #[error("no such word of a sheet")]
    NoForm,
    #[error("texts are counted up to a length of 3")]
    TooLong,
    #[error("this kind has no get")]
    NoGet,
    #[error("no builder is open")]
    NoBuilder,
    #[error("no such call")]
    NoCall,
}

#[derive(Debug, Drop, Error)]
pub enum Trouble {
    #[error("refused {} {} {}", .0.cause.number(), .0.place, .0.depth)]
    Refused(#[from] Refusal),
    #[error("refused: {0}")]
    Told(Refusal),
    #[error("not a call: {0}")]
    Unread(#[from] Unread),
    #[error("not made: out of memory")]
    Memory(#[from(alloc)] AllocError),
}

impl Trouble {
    // A refusal in words.
    pub(crate) fn told(self) -> Trouble {
        match self {
            Trouble::Refused(refusal) => Trouble::Told(refusal),
            other => other,
        }
    }
}

// By hand: an error of `hex` becomes one of three.
impl From<FromHexError> for Trouble {
    fn from(error: FromHexError) -> Trouble {
        match error {
            FromHexError::OddLength => Unread::OddDigits.into(),
            FromHexError::InvalidHexCharacter { .. } | FromHexError::InvalidStringLength => {
                Unread::NoDigits.into()
            }
            FromHexError::OutOfMemory => AllocError.into(),
        }
    }
}

// By hand: each case is another error here.
impl From<Missing> for Trouble {
    fn from(missing: Missing) -> Trouble {
        match missing {
            Missing::NoKind => Unread::NoKind.into(),
            Missing::Refused(refusal) => refusal.into(),
        }
    }
}
