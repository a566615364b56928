// What a file or a stream goes by, in what is said of it.
use std::alloc::{AllocError, Global};
use std::fmt;

#[derive(Clone, Copy, Debug)]
pub enum Name<'a> {
    StandardInput,
    Path(&'a str),
    // What is written beside a path, until it is whole.
    Beside(&'a str),
}

impl<'a> Name<'a> {
    // What a word of the command line stands for, where something is read: no `From`, since elsewhere it stands for something else.
    pub(crate) fn of(word: &'a str) -> Name<'a> {
        match word {
            "-" => Name::StandardInput,
            path => Name::Path(path),
        }
    }

    // Where the system has it.
    pub(crate) fn path(self, heap: Global) -> Result<String, AllocError> {
        match self {
            Name::StandardInput => String::from_str(heap, "/dev/stdin"),
            file => format!(in heap; "{file}"),
        }
    }
}

// By hand: `thiserror` writes the words of errors, and a name is none.
impl fmt::Display for Name<'_> {
    fn fmt<W: fmt::Write>(&self, f: &mut fmt::Formatter<W>) -> fmt::Result {
        match self {
            Name::StandardInput => write!(f, "standard input"),
            Name::Path(path) => write!(f, "{path}"),
            Name::Beside(path) => write!(f, "{path}.part"),
        }
    }
}
