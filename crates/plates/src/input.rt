// Reading a file, or standard input, to its end.
use crate::name::Name;
use crate::trouble::{FileError, Unfit, tried};
use buffer::LIMIT;
use refusal::{Cause, Refusal};
use std::fs::File;
use std::io;
use std::io::Read;

const MIB: usize = 1_048_576;

// What is read before the next word of progress.
const BLOCK: usize = 16 * MIB;

fn too_long(name: Name<'_>) -> FileError<'_> {
    FileError::Unfit(name, Unfit::TooLong(Refusal::whole(Cause::OverLimit)))
}

// Not told where standard error is closed: that is no reason not to read on.
fn tell_progress(rt: &HostRuntime, name: Name<'_>, bytes: usize) {
    let done = bytes / MIB;
    let _ = eprintln!(rt; "plates: {name}: {done} MiB read ..");
}

fn read_block<S: Read>(source: &mut S, bytes: &mut Vec<u8>) -> io::Result<usize> {
    source.by_ref().take(BLOCK as u64).read_to_end(bytes)
}

fn read_blocks<'a, S: Read>(
    rt: &HostRuntime,
    name: Name<'a>,
    source: &mut S,
) -> Result<Vec<u8>, FileError<'a>> {
    let mut bytes = Vec::new(rt.alloc());
    // So many whole blocks are over the limit.
    for _ in 0..=LIMIT / BLOCK {
        let count = tried("read", name, read_block(source, &mut bytes))?;
        if count < BLOCK {
            return Ok(bytes);
        }
        tell_progress(rt, name, bytes.len());
    }
    Err(too_long(name))
}

fn open<'a>(rt: &HostRuntime, name: Name<'a>) -> Result<File, FileError<'a>> {
    let path = name.path(rt.alloc())?;
    tried("open", name, File::open(rt, path))
}

// How long a file says that it is, where it can say so. One that says that it is over the limit is not read at all, and what cannot say
// so only so far.
fn told_length<'a>(name: Name<'a>, file: &File) -> Result<Option<u64>, FileError<'a>> {
    let metadata = tried("open", name, file.metadata())?;
    if metadata.is_dir() {
        return Err(FileError::Unfit(name, Unfit::Directory));
    }
    let told = metadata.len();
    if told > LIMIT as u64 {
        return Err(too_long(name));
    }
    Ok(metadata.is_file().then_some(told))
}

fn read_file<'a>(rt: &HostRuntime, name: Name<'a>) -> Result<Vec<u8>, FileError<'a>> {
    let mut file = open(rt, name)?;
    let told = told_length(name, &file)?;
    let bytes = read_blocks(rt, name, &mut file)?;
    let read = bytes.len();
    match told {
        Some(told) if told != read as u64 => {
            Err(FileError::Unfit(name, Unfit::Changed { told, read }))
        }
        _ => Ok(bytes),
    }
}

pub(crate) fn read<'a>(rt: &HostRuntime, name: Name<'a>) -> Result<Vec<u8>, FileError<'a>> {
    match name {
        Name::StandardInput => read_blocks(rt, name, &mut rt.stdin()),
        file => read_file(rt, file),
    }
}
