// The whole round in memory, on the list that standard input has; at its end a byte is damaged.
use crate::build::Built;
use crate::name::Name;
use crate::show::{plate_lines, word_lines};
use crate::trouble::{NoAnswer, Trouble};
use plate_archive::{check, verify};
use std::alloc::{AllocError, Global};

// Every bit of the last byte turned: whether the checks see it depends on what it was, and they say.
fn push_damaged(text: &mut String, archive: &mut [u8]) -> Result<(), AllocError> {
    let place = archive.len().saturating_sub(1);
    if let Some(byte) = archive.get_mut(place) {
        *byte ^= 0xff;
    }
    match check(archive) {
        Ok(_) => writeln!(text, "with byte {place} damaged it is still sound"),
        Err(fault) => writeln!(text, "with byte {place} damaged it {fault}"),
    }
}

fn push_lines(text: &mut String, heap: Global, archive: &[u8]) -> Result<(), NoAnswer> {
    text.push_str(plate_lines(heap, archive)?.as_str())?;
    text.push_str("the sheet of the plate numbers, read back word by word:\n")?;
    text.push_str(word_lines(heap, archive)?.as_str())?;
    Ok(())
}

// From the archive on: verified, shown, damaged.
fn go_round(heap: Global, built: &mut Built) -> Result<String, Trouble<'static>> {
    verify(heap, built.archive.as_slice(), &built.sheets).map_err(NoAnswer::Fault)?;
    let mut text = built.report(heap)?;
    push_lines(&mut text, heap, built.archive.as_slice())?;
    push_damaged(&mut text, built.archive.as_mut_slice())?;
    Ok(text)
}

pub(crate) fn round(rt: &HostRuntime) -> Result<Vec<u8>, Trouble<'static>> {
    let mut built = Built::of_list(rt, Name::StandardInput)?;
    Ok(go_round(rt.alloc(), &mut built)?.into_bytes())
}
