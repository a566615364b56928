// What a call answers, and how it is told.
use hex::encode_to_slice;
use std::fmt;
use std::str::from_utf8;

// How many bytes are written at a time.
const BLOCK: usize = 512;

// Bytes, told as two capital digits each; a minus sign where there are none. The digits are written in blocks, since all of them would take
// twice the memory of the bytes.
#[derive(Drop)]
pub struct Digits(pub Vec<u8>);

impl fmt::Display for Digits {
    fn fmt<W: fmt::Write>(&self, f: &mut fmt::Formatter<W>) -> fmt::Result {
        if self.0.is_empty() {
            return f.write_str("-");
        }
        for bytes in self.0.chunks(BLOCK) {
            let mut block = [0u8; 2 * BLOCK];
            let digits = block.get_mut(..2 * bytes.len()).ok_or(fmt::Error)?;
            encode_to_slice(bytes, digits).map_err(|_| fmt::Error)?;
            digits.make_ascii_uppercase();
            f.write_str(from_utf8(digits).map_err(|_| fmt::Error)?)?;
        }
        Ok(())
    }
}

#[derive(Drop)]
pub enum Said {
    Nothing,
    Number(usize),
    Pair(usize, usize),
    // The place of a text and its bytes, or the length of a sheet and all of the output.
    Bytes(usize, Digits),
    // A length, an alignment, and an archive.
    Archive(usize, usize, Digits),
    Fact(&'static str),
    // Where a word of a sheet begins and ends, and what it is.
    Word(usize, usize, Term),
}

// A word of a sheet: a number, a text, or how many values stand behind it.
#[derive(Drop)]
pub enum Term {
    Number(u64),
    Text(Digits),
    Count(u32),
}

impl fmt::Display for Term {
    fn fmt<W: fmt::Write>(&self, f: &mut fmt::Formatter<W>) -> fmt::Result {
        match self {
            Term::Number(value) => write!(f, "number {value}"),
            Term::Text(bytes) => write!(f, "text {bytes}"),
            Term::Count(count) => write!(f, "values {count}"),
        }
    }
}

impl fmt::Display for Said {
    fn fmt<W: fmt::Write>(&self, f: &mut fmt::Formatter<W>) -> fmt::Result {
        match self {
            Said::Nothing => write!(f, "ok"),
            Said::Number(n) => write!(f, "ok {n}"),
            Said::Pair(a, b) => write!(f, "ok {a} {b}"),
            Said::Bytes(n, bytes) => write!(f, "ok {n} {bytes}"),
            Said::Archive(length, alignment, bytes) => write!(f, "ok {length} {alignment} {bytes}"),
            Said::Fact(fact) => write!(f, "ok {fact}"),
            Said::Word(place, end, term) => write!(f, "ok {place} {end} {term}"),
        }
    }
}
