// What is wrong with an archive, said behind its name.
ghost use Rattle.std.specs.Prelude.{◌≡◌};
ghost use Rattle.plate_archive.specs.declared.fault.Fault.TheVariants.{Refused as Refusing, Memory as NoMemory};

use crate::roots::{Root, Which};
use refusal::Refusal;
use std::alloc::AllocError;
use thiserror::Error;

// `From` stands by hand, since the contracts name the error that a `?` makes, and that of `#[from]` has no contract.
#[derive(Debug, Drop, Error)]
pub enum Fault {
    #[error("is refused: {list}: {refusal}")]
    Refused {
        list: Which,
        refusal: Refusal,
    },
    // No `PerList`: the words name each of the three.
    #[error("is refused: it has {numbers} plate numbers, {casts} casts and {parts} lists of parts, which should be as many")]
    Uneven {
        numbers: u32,
        casts: u32,
        parts: u32,
    },
    #[error("is refused: it has no plates")]
    NoPlates,
    #[error("is not what was built: {list} is another")]
    Altered {
        list: Which,
    },
    #[error("needs more memory than there is")]
    Memory,
}

impl Fault {
    // A refusal of a list.
    pub fn on<R: Root>(refusal: Refusal) -> Fault
        ensures { result ≡ Refusing R.which refusal }
    {
        Fault::Refused {
            list: R::which(),
            refusal,
        }
    }
}

impl From<AllocError> for Fault {
    ghost from_gives = { λ _ r. r ≡ NoMemory };

    fn from(_e: AllocError) -> Fault {
        Fault::Memory
    }
}
