// The calls of a life as bytes, in the form that `c/gachullpi.h` describes.
ghost use Rattle.std.specs.Prelude.{◌≡◌};
ghost use Rattle.std.specs.Option.{option_map};
ghost use Rattle.exports.specs.Calls.{number as a_number, parts as all_parts, asked, first_call};
ghost use Rattle.exports.specs.Steps.{front, same, parts_of, asked_of, with_rest};

use crate::calls::Name;
use crate::event::{Event, KindEvent};

#[derive(Clone, Copy)]
pub enum Step<'a> {
    Event(Event<'a>),
    Finish,
}

// The parts of any call; what a call doesn't take may hold anything.
#[derive(Clone, Copy)]
struct Parts<'a> {
    call: u8,
    name: Name<'a>,
    number: usize,
    alignment: usize,
    bytes: &'a [u8],
}

fn byte(rest: &mut &[u8]) -> Option<u8>
    ensures { front same result rest.new.now ≡ a_number 1 rest.old.now }
{
    rest.split_off_first().copied()
}

fn whole_number(rest: &mut &[u8]) -> Option<usize>
    ensures { front same result rest.new.now ≡ a_number 8 rest.old.now }
{
    let (bytes, behind) = rest.split_first_chunk::<8>()?;
    *rest = behind;
    Some(usize::from_le_bytes(*bytes))
}

impl<'a> Parts<'a> {
    // Takes them off the front of bytes.
    fn read(rest: &mut &'a [u8]) -> Option<Parts<'a>>
        ensures { front parts_of result rest.new.now ≡ all_parts rest.old.now }
    {
        let call = byte(rest)?;
        let order = byte(rest)?;
        let kind_length = byte(rest)?;
        let kind = rest.split_off(..kind_length as usize)?;
        let number = whole_number(rest)?;
        let alignment = whole_number(rest)?;
        let length = whole_number(rest)?;
        let bytes = rest.split_off(..length)?;
        Some(Parts {
            call,
            name: Name { kind, order },
            number,
            alignment,
            bytes,
        })
    }

    // The numbers of the calls are those of the header.
    fn step(self) -> Option<Step<'a>>
        ensures { option_map asked_of result ≡ asked (parts_of self.entry) }
    {
        let Parts {
            call,
            name,
            number,
            alignment,
            bytes,
        } = self;
        let event = match call {
            1 => Event::Align(alignment),
            2 => Event::OfKind(name, KindEvent::Reserve),
            3 => Event::ReserveBytes {
                count: number,
                alignment,
            },
            4 => Event::Write {
                place: number,
                bytes,
            },
            5 => Event::OfKind(name, KindEvent::Push(bytes)),
            6 => Event::PushBytes { bytes, alignment },
            7 => Event::OfKind(name, KindEvent::Build(bytes)),
            8 => return Some(Step::Finish),
            _ => return None,
        };
        Some(Step::Event(event))
    }
}

impl<'a> Step<'a> {
    // The call at the front of bytes, and the bytes behind it.
    pub(crate) fn read(bytes: &'a [u8]) -> Option<(Step<'a>, &'a [u8])>
        ensures { with_rest result ≡ first_call bytes.now }
    {
        let mut rest = bytes;
        let step = Parts::read(&mut rest)?.step()?;
        Some((step, rest))
    }
}
