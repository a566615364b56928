// The sheets of the three lists, copied out of an archive.
ghost use Rattle.std.specs.Prelude.{◌≡◌, vec_items, IfOk};
ghost use Rattle.format.specs.Archive.{sheet_at};
ghost use Rattle.plate_archive.specs.Archives.{IsSound, check as check_by, on, list, sheet_of, sheets as sheets_by, each, same, all_same, verified, sound};
ghost use Rattle.plate_archive.specs.Told.{judged, Says, sheets_of};

use crate::fault::Fault;
use crate::items::place;
use crate::roots::{Casts, Numbers, Parts, PerList, Root, Sheets, Which, list_of};
use crate::soundness::check;
use archive::copy_out;
use refusal::Cause;
use std::alloc::Global;

// The sheet of the slice at a place. A list that shares bytes can have a longer sheet than its archive, so the output grows until it has room.
fn copy_from<R: Root>(heap: Global, archive: &[u8], place: usize) -> Result<Vec<u8>, Fault>
    ensures { Says (judged vec_items result) (on R.which (sheet_at (list R.which) archive.now place)) }
{
    let mut room = archive.len();
    // A loop needs an end: doubled so often, no room is larger.
    for _ in 0..usize::BITS {
        let mut output = vec![in heap; 0; room]?;
        match copy_out(&list_of::<R>(), archive, place, output.as_mut_slice()) {
            Ok(length) => {
                output.truncate(length);
                return Ok(output);
            }
            Err(refusal) => match refusal.cause {
                Cause::NoRoom => room = room.saturating_mul(2),
                _ => return Err(Fault::on::<R>(refusal)),
            },
        }
    }
    Err(Fault::Memory)
}

// The sheet of one list.
#[tactic(auto, unfolding(crate::specs::Archives::sheet_of))]
pub fn copy<R: Root>(heap: Global, archive: &[u8]) -> Result<Vec<u8>, Fault>
    ensures { Says (judged vec_items result) (on R.which (sheet_of R.which archive.now)) }
{
    match place::<R>(archive) {
        Ok(place) => copy_from::<R>(heap, archive, place),
        Err(refusal) => Err(Fault::on::<R>(refusal)),
    }
}

// The sheets of the three lists.
fn copies(heap: Global, archive: &[u8]) -> Result<Sheets, Fault>
    ensures { Says (judged sheets_of result) (each (λ w. sheet_of w archive.now)) }
{
    Ok(PerList {
        numbers: copy::<Numbers>(heap, archive)?,
        casts: copy::<Casts>(heap, archive)?,
        parts: copy::<Parts>(heap, archive)?,
    })
}

// The sheets of the three lists of an archive that is sound.
pub fn sheets(heap: Global, archive: &[u8]) -> Result<Sheets, Fault>
    ensures told { Says (judged sheets_of result) (sheets_by archive.now) }
    ensures sound { IfOk result (λ _. IsSound (check_by archive.now)) }
{
    check(archive)?;
    copies(heap, archive)
}

fn compare(list: Which, copied: &[u8], sheet: &[u8]) -> Result<(), Fault>
    ensures { judged (λ x. x) result ≡ same list copied.now sheet.now }
{
    if copied != sheet {
        return Err(Fault::Altered { list });
    }
    Ok(())
}

// That each sheet is the one that its list was built from.
fn compare_each(copied: &Sheets, built_from: &Sheets) -> Result<(), Fault>
    ensures { judged (λ x. x) result ≡ all_same (sheets_of copied.now) (sheets_of built_from.now) }
{
    compare(
        Which::Numbers,
        copied.numbers.as_slice(),
        built_from.numbers.as_slice(),
    )?;
    compare(
        Which::Casts,
        copied.casts.as_slice(),
        built_from.casts.as_slice(),
    )?;
    compare(
        Which::Parts,
        copied.parts.as_slice(),
        built_from.parts.as_slice(),
    )
}

// That an archive is sound, and copies out as the sheets that it was built from.
pub fn verify(heap: Global, archive: &[u8], built_from: &Sheets) -> Result<(), Fault>
    ensures told { Says (judged (λ x. x) result) (verified (sheets_of built_from.now) archive.now) }
    ensures same { IfOk result (λ _. sheets_by archive.now ≡ sound (sheets_of built_from.now)) }
{
    compare_each(&sheets(heap, archive)?, built_from)
}
