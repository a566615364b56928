// The commands, and the words that they are asked for by.
ghost use Rattle.std.specs.Prelude.{IfOk};
ghost use Rattle.plate_archive.specs.Archives.{check as check_by, IsSound};

use crate::build::Built;
use crate::input::read;
use crate::name::Name;
use crate::round::round;
use crate::show::{plate_lines, word_lines};
use crate::trouble::{Misuse, NoAnswer, Trouble};
use crate::whole::{put, refuse_place};
use plate_archive::{check, sheets};
use std::alloc::{AllocError, Global};

// What an archive is asked for.
#[derive(Drop)]
pub enum Question {
    Check,
    List,
    Words,
    Copy,
}

#[derive(Drop)]
pub enum Command<'a> {
    Round,
    Build { list: Name<'a>, path: &'a str },
    Ask(Question, Name<'a>),
    Help,
}

// How a command is written behind the program's name, and what it does: a table, since `help` goes over all of them. Which words ask for
// which command is the `match` of `Command::of`.
struct Usage {
    name: &'static str,
    words: &'static str,
    does: &'static str,
}

static USAGES: [Usage; 6] = [
    Usage {
        name: "build",
        words: "build LIST FILE",
        does: "builds the archive FILE from the plate list LIST",
    },
    Usage {
        name: "check",
        words: "check FILE",
        does: "reads all of an archive, and says what is wrong and where",
    },
    Usage {
        name: "list",
        words: "list FILE",
        does: "shows each plate: its number, its cast, the parts that were cut from it",
    },
    Usage {
        name: "words",
        words: "words FILE",
        does: "shows the sheet of the plate numbers: each with its place in it and its length, then totals",
    },
    Usage {
        name: "copy",
        words: "copy FILE",
        does: "writes the sheets of the three lists to standard output, one behind another",
    },
    Usage {
        name: "help",
        words: "help",
        does: "shows this",
    },
];

const MORE_HELP: &str = "\
plates                   the whole round in memory, on the list that standard input has; at its end a byte is damaged

A plate list is UTF-8 text with a line a plate: number;cast;part;part;..  A plate of which nothing was cut has no parts.
Where a list or an archive is read, '-' stands for standard input. FILE may not be LIST, nor anything that is no file.
build writes FILE.part, reads it again, checks it, copies its lists out, compares, and only then renames it to FILE: what
has the name FILE is always whole. Where a build was cut off FILE.part stays, and the next build says so: remove it then.
Where anything is refused, standard error says why, standard output has nothing, and the exit status is 1; the status is 1
too where standard output cannot be written. Each 16 MiB that are read are told of on standard error. More than
2,147,483,647 bytes are refused.
";

fn checked(heap: Global, name: Name<'_>, archive: &[u8]) -> Result<String, NoAnswer>
    ensures { IfOk result (λ _. IsSound (check_by archive.now)) }
{
    let count = check(archive)?.numbers.count;
    let length = archive.len();
    Ok(format!(in heap; "{name} is sound: {count} plates in {length} bytes\n")?)
}

fn copied(heap: Global, archive: &[u8]) -> Result<Vec<u8>, NoAnswer>
    ensures { IfOk result (λ _. IsSound (check_by archive.now)) }
{
    let sheets = sheets(heap, archive)?;
    let mut output = Vec::new(heap);
    for sheet in sheets.each() {
        output.extend_from_slice(sheet)?;
    }
    Ok(output)
}

impl Question {
    // Whatever is asked, only an archive that is sound is answered for.
    fn answer(self, heap: Global, name: Name<'_>, archive: &[u8]) -> Result<Vec<u8>, NoAnswer>
        ensures { IfOk result (λ _. IsSound (check_by archive.now)) }
    {
        match self {
            Question::Check => Ok(checked(heap, name, archive)?.into_bytes()),
            Question::List => Ok(plate_lines(heap, archive)?.into_bytes()),
            Question::Words => Ok(word_lines(heap, archive)?.into_bytes()),
            Question::Copy => copied(heap, archive),
        }
    }
}

fn ask<'a>(rt: &HostRuntime, question: Question, name: Name<'a>) -> Result<Vec<u8>, Trouble<'a>> {
    let archive = read(rt, name)?;
    question
        .answer(rt.alloc(), name, archive.as_slice())
        .map_err(|reason| Trouble::Archive { name, reason })
}

fn put_and_report<'a>(
    rt: &HostRuntime,
    path: &'a str,
    built: &Built,
) -> Result<Vec<u8>, Trouble<'a>> {
    put(rt, path, built)?;
    let mut text = built.report(rt.alloc())?;
    writeln!(text, "written to {path}")?;
    Ok(text.into_bytes())
}

fn build<'a>(rt: &HostRuntime, list: Name<'a>, path: &'a str) -> Result<Vec<u8>, Trouble<'a>> {
    refuse_place(rt, list, path)?;
    let built = Built::of_list(rt, list)?;
    put_and_report(rt, path, &built)
}

fn help(heap: Global) -> Result<Vec<u8>, AllocError> {
    let mut text = String::new(heap);
    for usage in &USAGES {
        writeln!(text, "plates {:<17} {}", usage.words, usage.does)?;
    }
    text.push_str(MORE_HELP)?;
    Ok(text.into_bytes())
}

// Words that are no command, or another number of them than it takes.
fn misused(name: &str) -> Misuse<'_> {
    match USAGES.iter().find(|usage| usage.name == name) {
        Some(usage) => Misuse::Usage(usage.words),
        None => Misuse::NoCommand(name),
    }
}

impl<'a> Command<'a> {
    // Of the words of the command line. A `TryFrom` would say it under another name.
    pub(crate) fn of(words: &[&'a str]) -> Result<Command<'a>, Misuse<'a>> {
        match *words {
            [] => Ok(Command::Round),
            ["build", _, "-"] => Err(Misuse::ToStandardOutput),
            ["build", list, path] => Ok(Command::Build {
                list: Name::of(list),
                path,
            }),
            ["check", file] => Ok(Command::Ask(Question::Check, Name::of(file))),
            ["list", file] => Ok(Command::Ask(Question::List, Name::of(file))),
            ["words", file] => Ok(Command::Ask(Question::Words, Name::of(file))),
            ["copy", file] => Ok(Command::Ask(Question::Copy, Name::of(file))),
            ["help" | "--help" | "-h"] => Ok(Command::Help),
            [name, ..] => Err(misused(name)),
        }
    }

    // All that it says on standard output.
    pub(crate) fn run(self, rt: &HostRuntime) -> Result<Vec<u8>, Trouble<'a>> {
        match self {
            Command::Round => round(rt),
            Command::Build { list, path } => build(rt, list, path),
            Command::Ask(question, name) => ask(rt, question, name),
            Command::Help => Ok(help(rt.alloc())?),
        }
    }
}
