// Samples of what lies below the kinds: text, the words of sheets, and the facts that are proved.
ghost use Rattle.std.specs.Prelude.{◌≤◌};

use crate::desk::Desk;
use crate::said::{Said, Term};
use crate::trouble::{Trouble, Unread};
use crate::words::Words;
use sheet::{Form, Word};
use utf8::is_text;
use worked::worked_samples;

#[derive(Clone, Copy)]
pub enum Sample<'a> {
    // Whether bytes are text.
    Text(&'a [u8]),
    // How many sequences of so many bytes are text.
    Texts(usize),
    // What a sheet begins with.
    Word(Form, &'a [u8]),
    // How many worked facts hold by proof.
    Worked,
}

// By the letter that the name of a kind has for it. An array has 2 values, a far array 3.
fn form(name: &str) -> Result<Form, Unread> {
    match name.as_bytes() {
        b"1" => Ok(Form::Number1),
        b"2" => Ok(Form::Number2),
        b"4" => Ok(Form::Number4),
        b"8" => Ok(Form::Number8),
        b"b" => Ok(Form::Truth),
        b"c" => Ok(Form::Character),
        b"t" => Ok(Form::Text),
        b"i" => Ok(Form::InlineText),
        b"p" => Ok(Form::Pointer),
        b"r" => Ok(Form::Array(2)),
        b"a" => Ok(Form::FarArray(3)),
        b"s" => Ok(Form::Slice),
        _ => Err(Unread::NoForm),
    }
}

// How many sequences of N bytes are text. The length is known where this is compiled: with it as a number, to count those of 3 bytes takes
// half as long again.
fn texts_of<const N: usize>() -> usize
    requires { N ≤ 3 }
{
    (0..1u32 << (8 * N))
        .filter(
            |n|
                requires { N ≤ 3 }
            { is_text(&n.to_be_bytes()[4 - N..]) },
        )
        .count()
}

fn texts(length: usize) -> Result<Said, Trouble> {
    let count = match length {
        0 => texts_of::<0>(),
        1 => texts_of::<1>(),
        2 => texts_of::<2>(),
        3 => texts_of::<3>(),
        _ => return Err(Unread::TooLong.into()),
    };
    Ok(Said::Number(count))
}

fn word(form: Form, sheet: &[u8], desk: &Desk) -> Result<Said, Trouble> {
    let read = sheet::read(sheet, 0, form)?;
    let (place, term) = match read.word {
        Word::Number { place, value } => (place, Term::Number(value)),
        Word::Text { place, bytes } => (place, Term::Text(desk.digits(bytes)?)),
        Word::Count { place, count } => (place, Term::Count(count)),
    };
    Ok(Said::Word(place, read.end, term))
}

impl<'a> Sample<'a> {
    // The first word of a sheet, which is refused as a value is.
    pub(crate) fn of_sheet(words: Words<'a>) -> Result<Option<Sample<'a>>, Unread> {
        match words.word(0)? {
            "word" => Ok(Some(Sample::Word(form(words.word(1)?)?, words.bytes))),
            _ => Ok(None),
        }
    }

    pub(crate) fn read(words: Words<'a>) -> Result<Option<Sample<'a>>, Unread> {
        let sample = match words.word(0)? {
            "text" => Sample::Text(words.bytes),
            "texts" => Sample::Texts(words.number(1)?),
            "worked" => Sample::Worked,
            _ => return Sample::of_sheet(words),
        };
        Ok(Some(sample))
    }

    pub(crate) fn answer(self, desk: &Desk) -> Result<Said, Trouble> {
        match self {
            Sample::Text(bytes) if is_text(bytes) => Ok(Said::Fact("text")),
            Sample::Text(_) => Ok(Said::Fact("no text")),
            Sample::Texts(length) => texts(length),
            Sample::Word(form, sheet) => word(form, sheet, desk),
            Sample::Worked => Ok(Said::Number(usize::from(worked_samples()))),
        }
    }
}
