// A plate list: a line a plate, its fields parted by semicolons.
use plate_archive::{PerList, Sheets};
use plate_lists::{ListError, Plate, lines, plate_of, sheet_of_lists, sheet_of_texts};
use std::alloc::{AllocError, Global};
use thiserror::Error;
use utf8::is_text;

#[derive(Debug, Drop, Error)]
pub enum ListFault {
    #[error("the list is empty: it has no plate")]
    Empty,
    #[error("line {line} of the list: it is not UTF-8 text")]
    NotText { line: usize },
    #[error("line {line} of the list: a plate has a number and a cast, with a semicolon between them")]
    NoCast { line: usize },
    #[error("the list is refused: {0}")]
    Refused(#[from] ListError),
    #[error("out of memory")]
    Memory(#[from] AllocError),
}

// How many plates a list has, and the sheets of their numbers, casts and parts.
#[derive(Drop)]
pub struct PlateList {
    pub count: usize,
    pub sheets: Sheets,
}

fn plate(heap: Global, line: usize, bytes: &[u8]) -> Result<Plate<'_>, ListFault> {
    if !is_text(bytes) {
        return Err(ListFault::NotText { line });
    }
    plate_of(heap, bytes).map_err(|error| match error {
        ListError::NoCast => ListFault::NoCast { line },
        other => ListFault::Refused(other),
    })
}

fn plates_of(heap: Global, list: &[u8]) -> Result<Vec<Plate<'_>>, ListFault> {
    lines(heap, list)?
        .iter()
        .enumerate()
        .map(|(index, line)| plate(heap, index.saturating_add(1), line))
        .try_collect(heap)
}

fn sheet_of_numbers(heap: Global, plates: &[Plate]) -> Result<Vec<u8>, ListError> {
    let numbers: Vec<_> = plates.iter().map(|plate| plate.number).collect(heap)?;
    sheet_of_texts(heap, numbers.as_slice())
}

fn sheet_of_casts(heap: Global, plates: &[Plate]) -> Result<Vec<u8>, ListError> {
    let casts: Vec<_> = plates.iter().map(|plate| plate.cast).collect(heap)?;
    sheet_of_texts(heap, casts.as_slice())
}

fn sheet_of_parts(heap: Global, plates: Vec<Plate>) -> Result<Vec<u8>, ListError> {
    let parts: Vec<_> = plates.into_iter().map(|plate| plate.parts).collect(heap)?;
    sheet_of_lists(heap, parts.as_slice())
}

fn sheets_of(heap: Global, plates: Vec<Plate>) -> Result<Sheets, ListError> {
    Ok(PerList {
        numbers: sheet_of_numbers(heap, plates.as_slice())?,
        casts: sheet_of_casts(heap, plates.as_slice())?,
        parts: sheet_of_parts(heap, plates)?,
    })
}

impl PlateList {
    pub(crate) fn read(heap: Global, list: &[u8]) -> Result<PlateList, ListFault> {
        let plates = plates_of(heap, list)?;
        if plates.is_empty() {
            return Err(ListFault::Empty);
        }
        Ok(PlateList {
            count: plates.len(),
            sheets: sheets_of(heap, plates)?,
        })
    }
}
