// The words of a line.
use crate::calls::Root;
use crate::trouble::{Trouble, Unread};
use std::alloc::Global;

// Two hexadecimal digits a byte, with no small letters; a minus sign for none.
fn hexadecimal(heap: Global, text: &str) -> Result<Vec<u8>, Trouble> {
    if text == "-" {
        return Ok(Vec::new(heap));
    }
    if !text.bytes().all(|b| matches!(b, b'0'..=b'9' | b'A'..=b'F')) {
        return Err(Unread::NoDigits.into());
    }
    Ok(hex::decode(heap, text)?)
}

// Which word of a call has its bytes.
fn place_of_bytes(call: &str) -> Option<usize> {
    match call {
        "push_bytes" | "text" => Some(1),
        "scan" | "word" | "write" => Some(2),
        "build" | "push" => Some(3),
        "deep" | "get" | "shallow" => Some(4),
        "copy" => Some(5),
        _ => None,
    }
}

// The bytes of a call; none where it has none.
pub(crate) fn bytes(heap: Global, words: &[&str]) -> Result<Vec<u8>, Trouble> {
    let call = words.first().copied().ok_or(Unread::NoWord)?;
    let Some(place) = place_of_bytes(call) else {
        return Ok(Vec::new(heap));
    };
    let digits = words.get(place).copied().ok_or(Unread::NoWord)?;
    hexadecimal(heap, digits)
}

// The words of a call, and what the digits of one of them stand for.
#[derive(Clone, Copy)]
pub struct Words<'a> {
    pub words: &'a [&'a str],
    pub bytes: &'a [u8],
}

impl<'a> Words<'a> {
    pub(crate) fn word(self, i: usize) -> Result<&'a str, Unread> {
        self.words.get(i).copied().ok_or(Unread::NoWord)
    }

    pub(crate) fn number(self, i: usize) -> Result<usize, Unread> {
        self.word(i)?.parse::<usize>().map_err(|_| Unread::NoNumber)
    }

    // An archive and the place in it.
    pub(crate) fn root(self) -> Result<Root<'a>, Unread> {
        Ok(Root {
            archive: self.bytes,
            place: self.number(3)?,
        })
    }
}
