// A line: what it asks for, and in which manner.
use crate::desk::Desk;
use crate::said::Said;
use crate::sample::Sample;
use crate::task::Task;
use crate::trouble::{Trouble, Unread};
use crate::words::Words;

#[derive(Clone, Copy)]
pub enum Line<'a> {
    // A builder over a new buffer of so many bytes.
    New(usize),
    Finish,
    Sample(Sample<'a>),
    Task(Task<'a>),
}

impl<'a> Line<'a> {
    // A line is text: its calls are told apart by their names where they are read, and nowhere behind.
    fn read(words: Words<'a>, desk: &Desk) -> Result<Line<'a>, Unread> {
        match words.word(0)? {
            "new" => Ok(Line::New(words.number(1)?)),
            "finish" => Ok(Line::Finish),
            _ => match Sample::read(words)? {
                Some(sample) => Ok(Line::Sample(sample)),
                None => Ok(Line::Task(Task::read(words, desk)?)),
            },
        }
    }

    fn answer(self, desk: &mut Desk, buffer: &mut Vec<u8>) -> Result<Said, Trouble> {
        match self {
            Line::New(room) => {
                *buffer = desk.open(room)?;
                Ok(Said::Nothing)
            }
            Line::Finish => desk.finish(buffer.as_slice()),
            Line::Sample(sample) => sample.answer(desk),
            Line::Task(task) => task.run(desk, buffer.as_mut_slice()),
        }
    }
}

// What `tell` makes: a call that can be refused, but for `new`.
fn told(words: Words, desk: &mut Desk, buffer: &mut [u8]) -> Result<Said, Trouble> {
    match Sample::of_sheet(words)? {
        Some(sample) => sample.answer(desk),
        None => Task::read(words, desk)?.run(desk, buffer),
    }
}

// How a call is made and told.
#[derive(Clone, Copy)]
pub enum Manner {
    Plain,
    // The buffer is handed without its last byte.
    Short,
    // A refusal is told in words.
    Told,
}

impl Manner {
    // A line's manner, and its call.
    pub(crate) fn split<'a>(words: &'a [&'a str]) -> (Manner, &'a [&'a str]) {
        match words {
            ["short", call @ ..] => (Manner::Short, call),
            ["tell", call @ ..] => (Manner::Told, call),
            call => (Manner::Plain, call),
        }
    }

    pub(crate) fn answer(
        self,
        words: Words,
        desk: &mut Desk,
        buffer: &mut Vec<u8>,
    ) -> Result<Said, Trouble> {
        match self {
            Manner::Plain => Line::read(words, desk)?.answer(desk, buffer),
            Manner::Short => {
                let end = buffer.len().saturating_sub(1);
                Task::read(words, desk)?.run(desk, &mut buffer.as_mut_slice()[..end])
            }
            Manner::Told => told(words, desk, buffer.as_mut_slice()).map_err(Trouble::told),
        }
    }
}
