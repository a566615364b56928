// Writing an archive whole, or not at all.
use crate::build::Built;
use crate::input::read;
use crate::name::Name;
use crate::trouble::{FileError, Trouble, Unfit, tried};
use plate_archive::{Sheets, verify};
use std::alloc::AllocError;
use std::fs::{File, Metadata};
use std::io::{ErrorKind, Write};
use std::os::unix::fs::MetadataExt;
use std::{fs, io};

// Whether a list stands in the file that is there, by whichever names.
fn holds(rt: &HostRuntime, there: &Metadata, list: Name) -> Result<bool, AllocError> {
    let path = list.path(rt.alloc())?;
    Ok(fs::metadata(rt, path).is_ok_and(|listed| listed.dev() == there.dev()
        && listed.ino() == there.ino()))
}

// An archive takes the place of what has its name: of nothing but a file, and never of the list that it is built from.
pub(crate) fn refuse_place<'a>(
    rt: &HostRuntime,
    list: Name<'a>,
    path: &'a str,
) -> Result<(), FileError<'a>> {
    let name = Name::Path(path);
    let Ok(there) = fs::metadata(rt, path) else {
        // What cannot be looked at is no file yet, or is told of where it is written.
        return Ok(());
    };
    if there.is_dir() {
        Err(FileError::Unfit(name, Unfit::Directory))
    } else if !there.is_file() {
        Err(FileError::Unfit(name, Unfit::NoFile))
    } else if holds(rt, &there, list)? {
        Err(FileError::Unfit(name, Unfit::TheList))
    } else {
        Ok(())
    }
}

// A file that was there belongs to another build, or is the list: it stays as it is.
fn create<'a>(rt: &HostRuntime, name: Name<'a>, path: &str) -> Result<File, FileError<'a>> {
    match File::create_new(rt, path) {
        Err(error) if error.kind() == ErrorKind::AlreadyExists => {
            Err(FileError::Unfit(name, Unfit::Taken))
        }
        created => tried("write", name, created),
    }
}

fn fill(mut file: File, bytes: &[u8]) -> io::Result<()> {
    file.write_all(bytes)?;
    file.sync_all()
}

fn verify_file<'a>(rt: &HostRuntime, name: Name<'a>, sheets: &Sheets) -> Result<(), Trouble<'a>> {
    let bytes = read(rt, name)?;
    verify(rt.alloc(), bytes.as_slice(), sheets).map_err(|fault| Trouble::Archive {
        name,
        reason: fault.into(),
    })
}

fn rename<'a>(rt: &HostRuntime, path: &'a str) -> Result<(), FileError<'a>> {
    let (from, to) = (Name::Beside(path), Name::Path(path));
    fs::rename(rt, from.path(rt.alloc())?, path).map_err(|error| FileError::Rename {
        from,
        to,
        error,
    })
}

fn fill_and_rename<'a>(
    rt: &HostRuntime,
    file: File,
    path: &'a str,
    built: &Built,
) -> Result<(), Trouble<'a>> {
    let beside = Name::Beside(path);
    tried("write", beside, fill(file, built.archive.as_slice()))?;
    verify_file(rt, beside, &built.sheets)?;
    Ok(rename(rt, path)?)
}

// Written beside the file, under another name, read again and verified; then it gets its name. On any trouble it is taken away.
pub(crate) fn put<'a>(rt: &HostRuntime, path: &'a str, built: &Built) -> Result<(), Trouble<'a>> {
    let beside = Name::Beside(path);
    let beside_path = beside.path(rt.alloc())?;
    let file = create(rt, beside, beside_path.as_str())?;
    let done = fill_and_rename(rt, file, path, built);
    if done.is_err() {
        let _ = fs::remove_file(rt, beside_path);
    }
    done
}
