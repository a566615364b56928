// replay: reads calls from standard input, a line a call, and prints an answer for each.
#![tactic(auto)]

mod calls;
mod desk;
mod line;
mod said;
mod sample;
mod task;
mod trouble;
mod words;

use crate::desk::Desk;
use crate::line::Manner;
use crate::said::Said;
use crate::trouble::Trouble;
use crate::words::{Words, bytes};
use std::alloc::Global;

fn answer(
    heap: Global,
    line: &str,
    desk: &mut Desk,
    buffer: &mut Vec<u8>,
) -> Result<Said, Trouble> {
    let words = line.split_whitespace().collect::<Vec<_>>(heap)?;
    let (manner, words) = Manner::split(words.as_slice());
    let bytes = bytes(heap, words)?;
    let bytes = bytes.as_slice();
    manner.answer(Words { words, bytes }, desk, buffer)
}

fn run(rt: &HostRuntime) -> anyhow::Result<()> {
    let mut desk = Desk::new(rt.alloc());
    let mut buffer = Vec::new(rt.alloc());
    for line in rt.lines(rt.alloc()) {
        match answer(rt.alloc(), line?.as_str(), &mut desk, &mut buffer) {
            Ok(said) => println!(rt; "{said}")?,
            Err(trouble) => println!(rt; "{trouble}")?,
        }
    }
    Ok(())
}

fn main(rt: HostRuntime) -> anyhow::Result<()> {
    run(&rt)
}
