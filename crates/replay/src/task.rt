// A task: a call that is handed a buffer, with a kind or without. Those of `exports` are like these, roots and calls too; but a static library
// lends no other crate its types, and there they carry what the contracts say.
use crate::calls::{Call, Request};
use crate::desk::Desk;
use crate::said::Said;
use crate::trouble::{Trouble, Unread};
use crate::words::Words;
use builder::ZeroBuilder;
use catalogue::{Order, with_kind};
use refusal::Refusal;

fn order(word: &str) -> Result<Order, Unread> {
    match word.as_bytes() {
        [letter] => Order::named(*letter).ok_or(Unread::NoOrder),
        _ => Err(Unread::NoOrder),
    }
}

// A call on the open builder, with no kind.
#[derive(Clone, Copy)]
pub enum Step<'a> {
    Align(usize),
    ReserveBytes { count: usize, alignment: usize },
    Write { place: usize, bytes: &'a [u8] },
    PushBytes { bytes: &'a [u8], alignment: usize },
}

impl<'a> Step<'a> {
    fn read(words: Words<'a>, desk: &Desk) -> Result<Option<Step<'a>>, Unread> {
        let bytes = words.bytes;
        let step = match words.word(0)? {
            "align" => Step::Align(desk.number(words, 1)?),
            "reserve_bytes" => Step::ReserveBytes {
                count: desk.number(words, 1)?,
                alignment: desk.number(words, 2)?,
            },
            "write" => {
                let place = desk.number(words, 1)?;
                Step::Write { place, bytes }
            }
            "push_bytes" => {
                let alignment = desk.number(words, 2)?;
                Step::PushBytes { bytes, alignment }
            }
            _ => return Ok(None),
        };
        Ok(Some(step))
    }

    fn make(self, builder: &mut ZeroBuilder, buffer: &mut [u8]) -> Result<usize, Refusal> {
        match self {
            Step::Align(alignment) => builder.align(buffer, alignment),
            Step::ReserveBytes { count, alignment } => {
                builder.reserve_bytes(buffer, count, alignment)
            }
            Step::Write { place, bytes } => builder.write(buffer, place, bytes),
            Step::PushBytes { bytes, alignment } => builder.push_bytes(buffer, bytes, alignment),
        }
    }
}

#[derive(Clone, Copy)]
pub enum Task<'a> {
    // With a kind of that name, in a byte order.
    Kind(&'a str, Order, Call<'a>),
    Step(Step<'a>),
}

impl<'a> Task<'a> {
    fn of_kind(words: Words<'a>, call: Call<'a>) -> Result<Task<'a>, Unread> {
        let name = words.word(1)?;
        let order = match call {
            // A sheet has none.
            Call::Scan(_) => Order::Little,
            _ => order(words.word(2)?)?,
        };
        Ok(Task::Kind(name, order, call))
    }

    // The first fault is told: of the bytes, which are read before, then that no builder is open, then of the numbers, then of the kind and
    // the order.
    pub(crate) fn read(words: Words<'a>, desk: &Desk) -> Result<Task<'a>, Unread> {
        if let Some(call) = Call::on_bytes(words)? {
            return Task::of_kind(words, call);
        }
        if let Some(call) = Call::on_builder(words, desk)? {
            return Task::of_kind(words, call);
        }
        match Step::read(words, desk)? {
            Some(step) => Ok(Task::Step(step)),
            None => Err(Unread::NoCall),
        }
    }

    pub(crate) fn run(self, desk: &mut Desk, buffer: &mut [u8]) -> Result<Said, Trouble> {
        match self {
            Task::Kind(name, order, call) => {
                let mut request = Request { call, desk, buffer };
                with_kind(name.as_bytes(), order, &mut request)?
            }
            Task::Step(step) => Ok(Said::Number(step.make(desk.builder()?, buffer)?)),
        }
    }
}
