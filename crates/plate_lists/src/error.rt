// What a list is refused for: want of memory, a line without a cast, or a refusal with its number, place and depth.
ghost use Rattle.std.specs.Prelude.{◌≡◌};
ghost use Rattle.plate_lists.specs.declared.error.ListError.TheVariants.{Memory, Refused as Refusing};

use refusal::Refusal;
use std::alloc::{AllocError, AllocFailed};
use thiserror::Error;

// `From` stands by hand, since the contracts name the error that a `?` makes, and that of `#[from]` has no contract.
#[derive(Debug, Drop, Error)]
pub enum ListError {
    #[error("out of memory")]
    Memory,
    #[error("the plate has no cast")]
    NoCast,
    #[error(transparent)]
    Refused(Refusal),
}

impl From<AllocError> for ListError {
    ghost from_gives = { λ _ r. r ≡ Memory };

    fn from(_e: AllocError) -> ListError {
        ListError::Memory
    }
}

impl<T: Drop> From<AllocFailed<T>> for ListError {
    ghost from_gives = { λ _ r. r ≡ Memory };

    fn from(_e: AllocFailed<T>) -> ListError {
        ListError::Memory
    }
}

impl From<Refusal> for ListError {
    ghost from_gives = { λ e r. r ≡ Refusing e };

    fn from(e: Refusal) -> ListError {
        ListError::Refused(e)
    }
}
