// The calls that are made with a kind.
ghost use Rattle.std.specs.Prelude.{⊤};

use crate::desk::Desk;
use crate::said::{Digits, Said};
use crate::trouble::{Trouble, Unread};
use crate::words::Words;
use archive::{copy_out, get, is_valid, is_valid_deep};
use builder::ZeroBuilder;
use catalogue::Use;
use kind::{Found, Kind, OneStep};
use refusal::Refusal;

// A value's head in an archive.
#[derive(Clone, Copy)]
pub struct Root<'a> {
    pub archive: &'a [u8],
    pub place: usize,
}

// What is asked of a value in an archive.
#[derive(Clone, Copy)]
pub enum Ask {
    Shallow,
    Deep,
    Get,
    // Into an output of so many bytes.
    Copy(usize),
}

// A call on an archive.
#[derive(Clone, Copy)]
pub struct Look<'a> {
    root: Root<'a>,
    ask: Ask,
}

impl Look<'_> {
    // One step is not for each kind.
    fn make<K: Kind>(self, desk: &Desk, kind: &K) -> Result<Said, Trouble> {
        let Root { archive, place } = self.root;
        let answer = match self.ask {
            Ask::Shallow => is_valid(kind, archive, place),
            Ask::Deep => is_valid_deep(kind, archive, place),
            Ask::Get => return Err(Unread::NoGet.into()),
            Ask::Copy(room) => return copy(self.root, room, desk, kind),
        };
        Ok(Said::Number(answer?))
    }
}

fn copy<K: Kind>(root: Root, room: usize, desk: &Desk, kind: &K) -> Result<Said, Trouble> {
    let mut output = desk.filled(room)?;
    let length = copy_out(kind, root.archive, root.place, output.as_mut_slice())?;
    Ok(Said::Bytes(length, Digits(output)))
}

fn found(found: Found, desk: &Desk) -> Result<Said, Trouble> {
    match found {
        Found::Target { place } => Ok(Said::Number(place)),
        Found::Items { place, count } => Ok(Said::Pair(place, count as usize)),
        Found::Text(part) => Ok(Said::Bytes(part.place, desk.digits(part.bytes)?)),
    }
}

// A call on the open builder.
#[derive(Clone, Copy)]
pub enum Entry<'a> {
    Reserve,
    Push(&'a [u8]),
    Build(&'a [u8]),
}

impl Entry<'_> {
    fn make<K: Kind>(
        self,
        builder: &mut ZeroBuilder,
        buffer: &mut [u8],
        kind: &K,
    ) -> Result<usize, Refusal> {
        match self {
            Entry::Reserve => builder.reserve(buffer, kind),
            Entry::Push(bytes) => builder.push(buffer, kind, bytes),
            Entry::Build(sheet) => builder.build(buffer, kind, sheet),
        }
    }
}

#[derive(Clone, Copy)]
pub enum Call<'a> {
    // Of a sheet.
    Scan(&'a [u8]),
    Look(Look<'a>),
    Entry(Entry<'a>),
}

impl<'a> Call<'a> {
    // One on a sheet or an archive, if the words are of one.
    pub(crate) fn on_bytes(words: Words<'a>) -> Result<Option<Call<'a>>, Unread> {
        let ask = match words.word(0)? {
            "scan" => return Ok(Some(Call::Scan(words.bytes))),
            "shallow" => Ask::Shallow,
            "deep" => Ask::Deep,
            "get" => Ask::Get,
            "copy" => Ask::Copy(words.number(4)?),
            _ => return Ok(None),
        };
        let root = words.root()?;
        Ok(Some(Call::Look(Look { root, ask })))
    }

    // One on the open builder.
    pub(crate) fn on_builder(words: Words<'a>, desk: &Desk) -> Result<Option<Call<'a>>, Unread> {
        let entry = match words.word(0)? {
            "reserve" => Entry::Reserve,
            "push" => Entry::Push(words.bytes),
            "build" => Entry::Build(words.bytes),
            _ => return Ok(None),
        };
        desk.opened()?;
        Ok(Some(Call::Entry(entry)))
    }

    // Not put in line: the program would take twice as long to compile.
    #[inline(never)]
    fn make<K: Kind>(self, desk: &mut Desk, buffer: &mut [u8], kind: &K) -> Result<Said, Trouble> {
        match self {
            Call::Scan(sheet) => Ok(Said::Number(kind.scan(sheet, 0)?)),
            Call::Look(look) => look.make(desk, kind),
            Call::Entry(entry) => Ok(Said::Number(entry.make(desk.builder()?, buffer, kind)?)),
        }
    }
}

// A call that waits for its kind, with what it is made on.
#[derive(Drop)]
pub struct Request<'a, 'b, 'c> {
    pub call: Call<'a>,
    pub desk: &'b mut Desk,
    pub buffer: &'c mut [u8],
}

impl Use for Request<'_, '_, '_> {
    type Answer = Result<Said, Trouble>;

    // What the program says is tested.
    ghost tells = { λ _ _ _ _. ⊤ };

    fn with<K: Kind>(&mut self, kind: &K) -> Result<Said, Trouble> {
        self.call.make(self.desk, self.buffer, kind)
    }

    fn with_step<K: OneStep>(&mut self, kind: &K) -> Result<Said, Trouble> {
        match self.call {
            Call::Look(
                Look {
                    root,
                    ask: Ask::Get,
                },
            ) => found(get(kind, root.archive, root.place)?, self.desk),
            call => call.make(self.desk, self.buffer, kind),
        }
    }
}
