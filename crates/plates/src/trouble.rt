// Why the program did not do what it was asked to. What is said of it on standard error is written here, and printed by `main`.
use crate::name::Name;
use crate::plate_list::ListFault;
use plate_archive::{AssembleError, Fault};
use plate_lists::ListError;
use refusal::Refusal;
use std::alloc::AllocError;
use std::io;
use thiserror::Error;

// Why what is asked of an archive is not answered, said behind its name.
#[derive(Debug, Drop, Error)]
pub enum NoAnswer {
    #[error(transparent)]
    Fault(#[from] Fault),
    #[error("is refused: the sheet of the plate numbers: {0}")]
    Sheet(#[from] ListError),
    #[error("needs more memory than there is")]
    Memory(#[from] AllocError),
}

// What is wrong with the words of the command line.
#[derive(Debug, Drop, Error)]
pub enum Misuse<'a> {
    #[error("the words of the command cannot be read: {0}")]
    Words(io::Error),
    #[error("there is no command '{0}'; 'plates help' shows those that there are")]
    NoCommand(&'a str),
    #[error("this command is written 'plates {0}'; 'plates help' says more")]
    Usage(&'static str),
    #[error("FILE cannot be '-': an archive is read again before it gets its name")]
    ToStandardOutput,
}

// What is wrong with a file or a stream, said behind its name.
#[derive(Debug, Drop, Error)]
pub enum Unfit {
    #[error("is a directory")]
    Directory,
    #[error("is there, and is no file that could be replaced")]
    NoFile,
    #[error("is the list itself: the archive would replace it")]
    TheList,
    #[error("is there already: another build is at work, or one was cut off and left it; then it can be removed")]
    Taken,
    #[error("is refused: {0}")]
    TooLong(Refusal),
    #[error("changed while it was read: it had {told} bytes, and {read} were read")]
    Changed { told: u64, read: usize },
}

// Why a file or a stream is not read, or not written.
#[derive(Debug, Drop, Error)]
pub enum FileError<'a> {
    #[error("cannot {verb} {name}: {error}")]
    NotDone {
        verb: &'static str,
        name: Name<'a>,
        error: io::Error,
    },
    #[error("cannot rename {from} to {to}: {error}")]
    Rename {
        from: Name<'a>,
        to: Name<'a>,
        error: io::Error,
    },
    #[error("{0} {1}")]
    Unfit(Name<'a>, Unfit),
    #[error("out of memory")]
    Memory(#[from] AllocError),
}

#[derive(Debug, Drop, Error)]
pub enum Trouble<'a> {
    #[error(transparent)]
    Misuse(#[from] Misuse<'a>),
    #[error(transparent)]
    File(#[from] FileError<'a>),
    #[error(transparent)]
    List(#[from] ListFault),
    #[error(transparent)]
    Assemble(#[from] AssembleError),
    #[error("{name} {reason}")]
    Archive { name: Name<'a>, reason: NoAnswer },
    #[error("the archive {0}")]
    InMemory(#[from] NoAnswer),
    #[error("cannot write to standard output: {0}")]
    Output(io::Error),
    #[error("out of memory")]
    Memory(#[from] AllocError),
}

// What the system answers; of its error it is said what was tried, and with which file.
pub(crate) fn tried<'a, T>(
    verb: &'static str,
    name: Name<'a>,
    answer: io::Result<T>,
) -> Result<T, FileError<'a>> {
    answer.map_err(|error| FileError::NotDone { verb, name, error })
}
