// Whether an archive is sound.
ghost use Rattle.std.specs.Prelude.{◌≡◌, IfOk};
ghost use Rattle.plate_archive.specs.Archives.{IsSound, Readable, check as check_by, on, items_of, even as even_by};
ghost use Rattle.plate_archive.specs.Told.{judged, span_of, spans_of};

use crate::fault::Fault;
use crate::items::{Items, checked};
use crate::roots::{Casts, Numbers, Parts, PerList, Root};

// One list, read to its end.
fn items<R: Root>(archive: &[u8]) -> Result<Items, Fault>
    ensures { judged span_of result ≡ on R.which (items_of R.which archive.now) }
{
    checked::<R>(archive).map_err(|refusal| Fault::on::<R>(refusal))
}

// That the lists are of the same plates, one at least.
fn even(lists: PerList<Items>) -> Result<PerList<Items>, Fault>
    ensures { judged spans_of result ≡ even_by (spans_of lists) }
{
    let (numbers, casts, parts) = (lists.numbers.count, lists.casts.count, lists.parts.count);
    if casts != numbers || parts != numbers {
        return Err(Fault::Uneven {
            numbers,
            casts,
            parts,
        });
    }
    // Zeros alone read as three empty lists, which no build makes.
    if numbers == 0 {
        return Err(Fault::NoPlates);
    }
    Ok(lists)
}

// Reads all of an archive: each list by itself, and that they are of the same plates, one at least.
pub fn check(archive: &[u8]) -> Result<PerList<Items>, Fault>
    ensures told { judged spans_of result ≡ check_by archive.now }
    ensures sound { IfOk result (λ _. IsSound (check_by archive.now)) }
    ensures readable { IfOk result (λ x. Readable archive.now (spans_of x)) }
{
    even(PerList {
        numbers: items::<Numbers>(archive)?,
        casts: items::<Casts>(archive)?,
        parts: items::<Parts>(archive)?,
    })
}
