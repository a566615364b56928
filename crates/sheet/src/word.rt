// What a value of a sheet looks like, and the words that it is read by.

// The form of a value. Arrays are told how many values they hold; the sheets of the others say it.
#[derive(Clone, Copy, PartialEq, Eq, Debug)]
pub enum Form {
    Number1,
    Number2,
    Number4,
    Number8,
    Truth,
    Character,
    Text,
    InlineText,
    Pointer,
    Array(u16),
    FarArray(u16),
    Slice,
}

// A number, a text that is a part of the sheet, or how many values follow; each with the place of its mark.
#[derive(Clone, Copy, Debug)]
pub enum Word<'a> {
    Number { place: usize, value: u64 },
    Text { place: usize, bytes: &'a [u8] },
    Count { place: usize, count: u32 },
}

// A word, and where it ends.
#[derive(Clone, Copy, Debug)]
pub struct Read<'a> {
    pub word: Word<'a>,
    pub end: usize,
}
