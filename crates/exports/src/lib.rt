// What C calls: `c/gachullpi.h` declares these functions, and says what is asked of their caller. A thin layer: each hands its call to the library.
// An archive and a place stay two parameters here, since numbers and slices are what C hands over; behind this file they are one `Root`.
#![tactic(auto)]

ghost use Rattle.std.specs.Prelude.{◌≡◌};
ghost use Rattle.utf8.specs.Recognised.{Recognised};
ghost use Rattle.exports.specs.Answering.{scanned, checked, checked_deeply, stepped, copied, answers_by, copies_by};
ghost use Rattle.exports.specs.Lives.{life};

mod answer;
mod calls;
mod encoded;
mod event;
mod life;

use crate::calls::{CopyOut, Deep, Get, Root, Scan, Shallow, asked};
pub use answer::Answer;

#[unsafe(no_mangle)]
pub extern "C" fn gachullpi_is_text(bytes: &[u8]) -> bool
    ensures { Recognised bytes.now result }
{
    utf8::is_text(bytes)
}

#[unsafe(no_mangle)]
pub extern "C" fn gachullpi_scan(kind: &[u8], sheet: &[u8]) -> Answer
    ensures { result ≡ answers_by (scanned sheet.now) kind.now 108 }
{
    // A sheet has no byte order.
    asked(kind, b'l', &mut Scan { sheet })
}

#[unsafe(no_mangle)]
pub extern "C" fn gachullpi_is_valid(kind: &[u8], order: u8, archive: &[u8], place: usize) -> Answer
    ensures { result ≡ answers_by (checked archive.now place) kind.now order }
{
    asked(kind, order, &mut Shallow(Root { archive, place }))
}

#[unsafe(no_mangle)]
pub extern "C" fn gachullpi_is_valid_deep(
    kind: &[u8],
    order: u8,
    archive: &[u8],
    place: usize,
) -> Answer
    ensures { result ≡ answers_by (checked_deeply archive.now place) kind.now order }
{
    asked(kind, order, &mut Deep(Root { archive, place }))
}

#[unsafe(no_mangle)]
pub extern "C" fn gachullpi_get(kind: &[u8], order: u8, archive: &[u8], place: usize) -> Answer
    ensures { result ≡ answers_by (stepped archive.now place) kind.now order }
{
    asked(kind, order, &mut Get(Root { archive, place }))
}

#[unsafe(no_mangle)]
pub extern "C" fn gachullpi_copy_out(
    kind: &[u8],
    order: u8,
    archive: &[u8],
    place: usize,
    output: &mut [u8],
) -> Answer
    ensures { record { answer = result; output = output.new } ≡ copies_by (copied archive.now place) output.old kind.now order }
{
    let root = Root { archive, place };
    asked(kind, order, &mut CopyOut { root, output })
}

#[unsafe(no_mangle)]
pub extern "C" fn gachullpi_life(calls: &[u8], buffer: &mut [u8], answers: &mut [Answer]) -> Answer
    ensures { record { answer = result; buffer = buffer.new; answers = answers.new } ≡ life calls.now buffer.old answers.old }
{
    life::run(calls, buffer, answers)
}
