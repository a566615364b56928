// An archive of three sheets: three pointers at its front, and behind them the lists that they lead to.
ghost use Rattle.std.specs.Prelude.{◌≡◌, ◌-◌, ◌<◌, take, vec_items};
ghost use Rattle.refusal.specs.Told.{told_by};
ghost use Rattle.builder.specs.Model.{model};
ghost use Rattle.plate_archive.specs.declared.assembly.AssembleError.TheVariants.{Refused as Refusing, Memory as NoMemory};
ghost use Rattle.plate_archive.specs.Assembly.{reserve_pointers as reserves_pointers, lead as leads, build as builds, build_lists as builds_lists, assemble_in as assembles_in, room_for as room_by, assemble as assembles};
ghost use Rattle.plate_archive.specs.Told.{sheets_of, left_by, places_of, made_of, Assembles};

use crate::roots::{Casts, Numbers, Parts, PerList, Root, Sheets, Which, list_of, pointer_to};
use buffer::LIMIT;
use builder::{Finished, ZeroBuilder};
use endian::order::{Endian, LittleEndian};
use refusal::Refusal;
use std::alloc::{AllocError, Global};
use thiserror::Error;

// `From` stands by hand, since the contracts name the error that a `?` makes, and that of `#[from]` has no contract.
#[derive(Debug, Drop, Error)]
pub enum AssembleError {
    #[error("the archive cannot be built: {0}")]
    Refused(Refusal),
    #[error("out of memory")]
    Memory,
}

impl From<Refusal> for AssembleError {
    ghost from_gives = { λ e r. r ≡ Refusing e };

    fn from(e: Refusal) -> AssembleError {
        AssembleError::Refused(e)
    }
}

impl From<AllocError> for AssembleError {
    ghost from_gives = { λ _ r. r ≡ NoMemory };

    fn from(_e: AllocError) -> AssembleError {
        AssembleError::Memory
    }
}

// Where the lists were built, and what the builder told at its end.
#[derive(Drop)]
pub struct Assembled {
    pub places: PerList<usize>,
    pub finished: Finished,
}

// Enough for the lists of such sheets: a head has at most 8 bytes where a sheet has at least 6, and each list at most 3 of padding.
fn room_for(sheets: &Sheets) -> usize
    ensures { result ≡ room_by (sheets_of sheets.now) }
{
    let bytes = sheets
        .numbers
        .len()
        .saturating_add(sheets.casts.len())
        .saturating_add(sheets.parts.len());
    bytes.saturating_mul(2).saturating_add(64).min(LIMIT)
}

// They come first, so that they stand at 0, 4 and 8 whatever the lists hold.
fn reserve_pointers(builder: &mut ZeroBuilder, buffer: &mut [u8]) -> Result<usize, Refusal>
    ensures { left_by (λ p. p) result builder.new buffer.new ≡ reserves_pointers (model builder.old) buffer.old }
{
    builder.reserve(buffer, &pointer_to::<Numbers>())?;
    builder.reserve(buffer, &pointer_to::<Casts>())?;
    builder.reserve(buffer, &pointer_to::<Parts>())
}

// From a pointer to its list. No `-`: no contract of the builder says that what is built stands behind.
fn apart(pointer: usize, place: usize) -> usize
    ensures { result ≡ place - pointer }
{
    place.saturating_sub(pointer)
}

// Lets the pointer of a list lead to a place.
fn lead(
    list: Which,
    builder: &mut ZeroBuilder,
    buffer: &mut [u8],
    place: usize,
) -> Result<usize, Refusal>
    requires { place < 4294967296 }
    ensures { left_by (λ p. p) result builder.new buffer.new ≡ leads list place (model builder.old) buffer.old }
{
    let pointer = list.place();
    let distance = apart(pointer, place) as u32;
    builder.write(buffer, pointer, &LittleEndian::from_native_u32(distance))?;
    Ok(place)
}

// Builds a list behind what stands, and lets its pointer lead there.
fn build<R: Root>(
    builder: &mut ZeroBuilder,
    buffer: &mut [u8],
    sheet: &[u8],
) -> Result<usize, Refusal>
    ensures { left_by (λ p. p) result builder.new buffer.new ≡ builds R.which sheet.now (model builder.old) buffer.old }
{
    let place = builder.build(buffer, &list_of::<R>(), sheet)?;
    lead(R::which(), builder, buffer, place)
}

fn build_lists(
    builder: &mut ZeroBuilder,
    buffer: &mut [u8],
    sheets: &Sheets,
) -> Result<PerList<usize>, Refusal>
    ensures { left_by places_of result builder.new buffer.new ≡ builds_lists (sheets_of sheets.now) (model builder.old) buffer.old }
{
    Ok(PerList {
        numbers: build::<Numbers>(builder, buffer, sheets.numbers.as_slice())?,
        casts: build::<Casts>(builder, buffer, sheets.casts.as_slice())?,
        parts: build::<Parts>(builder, buffer, sheets.parts.as_slice())?,
    })
}

fn assemble_in(buffer: &mut [u8], sheets: &Sheets) -> Result<Assembled, Refusal>
    ensures { record { answer = told_by made_of result; buffer = buffer.new } ≡ assembles_in (sheets_of sheets.now) buffer.old }
{
    let mut builder = ZeroBuilder::new(buffer)?;
    reserve_pointers(&mut builder, buffer)?;
    let places = build_lists(&mut builder, buffer, sheets)?;
    let finished = builder.finish();
    Ok(Assembled { places, finished })
}

// The front of a buffer, as long as its builder told.
fn cut(mut buffer: Vec<u8>, assembled: &Assembled) -> Vec<u8>
    ensures { vec_items result ≡ take assembled.now.finished.length (vec_items buffer) }
{
    buffer.truncate(assembled.finished.length);
    buffer
}

// The bytes of the archive, and what was told of it.
pub fn assemble(heap: Global, sheets: &Sheets) -> Result<(Vec<u8>, Assembled), AssembleError>
    ensures { Assembles result (assembles (sheets_of sheets.now)) }
{
    let mut buffer = vec![in heap; 0; room_for(sheets)]?;
    let assembled = assemble_in(buffer.as_mut_slice(), sheets)?;
    Ok((cut(buffer, &assembled), assembled))
}
