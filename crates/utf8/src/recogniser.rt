// The recogniser of UTF-8: one of eight positions, moved by one byte at a time.

// At the start of a character, so many bytes owed, or just after a byte that narrows the next one.
#[derive(Clone, Copy, PartialEq, Eq, Debug)]
pub enum Position {
    Start,
    One,
    Two,
    Three,
    AfterE0,
    AfterEd,
    AfterF0,
    AfterF4,
}

#[derive(Clone, Copy, PartialEq, Eq, Debug)]
pub struct Recogniser {
    pub position: Position,
}
