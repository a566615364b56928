// plates: builds an archive of a plate list, checks one, lists it, and copies its sheets out.
#![tactic(auto)]

mod build;
mod command;
mod input;
mod name;
mod plate_list;
mod round;
mod show;
mod trouble;
mod whole;

use crate::command::Command;
use crate::trouble::{Misuse, Trouble};
use std::io::Write;
use std::process::ExitCode;
use std::{env, io};

// The words behind the program's name.
fn words(rt: &HostRuntime) -> io::Result<Vec<String>> {
    Ok(env::args(rt)?.skip(1).collect(rt.alloc())?)
}

fn answer<'a>(rt: &HostRuntime, words: &'a [String]) -> Result<Vec<u8>, Trouble<'a>> {
    let words: Vec<_> = words.iter().map(String::as_str).collect(rt.alloc())?;
    Command::of(words.as_slice())?.run(rt)
}

// All of standard output is written at once, when nothing can be refused any more.
fn run<'a>(rt: &HostRuntime, words: &'a [String]) -> Result<(), Trouble<'a>> {
    let output = answer(rt, words)?;
    rt.stdout()
        .write_all(output.as_slice())
        .map_err(|error| Trouble::Output(error))
}

fn ended(rt: &HostRuntime, done: Result<(), Trouble>) -> ExitCode {
    match done {
        Ok(()) => ExitCode::SUCCESS,
        Err(trouble) => {
            // Where standard error is closed too, the status is left to tell.
            let _ = eprintln!(rt; "plates: {trouble}");
            ExitCode::FAILURE
        }
    }
}

fn main(rt: HostRuntime) -> ExitCode {
    match words(&rt) {
        Ok(words) => ended(&rt, run(&rt, words.as_slice())),
        Err(error) => ended(&rt, Err(Misuse::Words(error).into())),
    }
}
