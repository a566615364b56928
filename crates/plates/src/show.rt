// What an archive holds, as text; nothing is shown of one that is not sound.
ghost use Rattle.std.specs.Prelude.{IfOk};
ghost use Rattle.plate_archive.specs.Archives.{check as check_by, IsSound};

use crate::trouble::NoAnswer;
use plate_archive::{Casts, Fault, Items, Numbers, Parts, PerList, check, copy, text_at, texts_at};
use plate_lists::list_words;
use refusal::{Cause, Refusal};
use sheet::Word;
use std::alloc::{AllocError, Global};
use std::iter::StepBy;
use std::ops::Range;
use std::str::from_utf8;

// The head of a text or a list is as long.
const HEAD: usize = 8;

// The heads of items, one behind another.
fn heads(items: Items) -> StepBy<Range<usize>> {
    let end = items
        .place
        .saturating_add(HEAD.saturating_mul(items.count as usize));
    (items.place..end).step_by(HEAD)
}

fn push_parts(text: &mut String, archive: &[u8], place: usize) -> Result<(), NoAnswer> {
    let parts = texts_at(archive, place).map_err(Fault::on::<Parts>)?;
    if parts.count == 0 {
        text.push_str("  nothing cut yet")?;
    }
    for (index, head) in heads(parts).enumerate() {
        let part = text_at(archive, head).map_err(Fault::on::<Parts>)?;
        let before = if index == 0 { "  cut: " } else { ", " };
        write!(text, "{before}{part}")?;
    }
    Ok(())
}

// The line of a plate: its index, its number, its cast, and the parts that were cut from it.
fn push_plate(
    text: &mut String,
    archive: &[u8],
    index: usize,
    heads: PerList<usize>,
) -> Result<(), NoAnswer> {
    let number = text_at(archive, heads.numbers).map_err(Fault::on::<Numbers>)?;
    let cast = text_at(archive, heads.casts).map_err(Fault::on::<Casts>)?;
    write!(text, "{index:>5}  {number}  cast {cast}")?;
    push_parts(text, archive, heads.parts)?;
    text.push_str("\n")?;
    Ok(())
}

// A line for each plate.
pub(crate) fn plate_lines(heap: Global, archive: &[u8]) -> Result<String, NoAnswer>
    ensures { IfOk result (λ _. IsSound (check_by archive.now)) }
{
    let lists = check(archive)?;
    let mut text = String::new(heap);
    let numbers_and_casts = heads(lists.numbers).zip(heads(lists.casts));
    let plates = numbers_and_casts.zip(heads(lists.parts));
    for (index, ((numbers, casts), parts)) in plates.enumerate() {
        let heads = PerList {
            numbers,
            casts,
            parts,
        };
        push_plate(&mut text, archive, index, heads)?;
    }
    Ok(text)
}

fn push_word(text: &mut String, index: usize, word: Word<'_>) -> Result<(), NoAnswer> {
    if let Word::Text { place, bytes } = word {
        let length = bytes.len();
        let number = from_utf8(bytes).map_err(|_| Fault::on::<Numbers>(Refusal::at(
            Cause::SheetNotText,
            place,
        )))?;
        writeln!(
            text,
            "{index:>5}  place {place:>6}  length {length:>4}  {number}"
        )?;
    }
    Ok(())
}

fn length(word: &Word) -> Option<usize> {
    match word {
        Word::Text { bytes, .. } => Some(bytes.len()),
        _ => None,
    }
}

fn push_totals(text: &mut String, words: &[Word], sheet_length: usize) -> Result<(), AllocError> {
    let count = words.len();
    let empty = words.iter().filter(|word| length(word) == Some(0)).count();
    let bytes_in_all = words
        .iter()
        .filter_map(length)
        .fold(0, usize::saturating_add);
    writeln!(
        text,
        "{count} plates, {empty} of them without a number; {bytes_in_all} bytes of text in a sheet of {sheet_length} bytes"
    )
}

// Each number with its place in the sheet, and then totals.
fn sheet_lines(heap: Global, sheet: &[u8]) -> Result<String, NoAnswer> {
    let words = list_words(heap, sheet)?;
    let mut text = String::new(heap);
    for (index, word) in words.iter().enumerate() {
        push_word(&mut text, index, *word)?;
    }
    push_totals(&mut text, words.as_slice(), sheet.len())?;
    Ok(text)
}

// The sheet of the plate numbers as it is copied out, read back word by word.
pub(crate) fn word_lines(heap: Global, archive: &[u8]) -> Result<String, NoAnswer>
    ensures { IfOk result (λ _. IsSound (check_by archive.now)) }
{
    check(archive)?;
    let sheet = copy::<Numbers>(heap, archive)?;
    sheet_lines(heap, sheet.as_slice())
}
