// A line of a plate list: the plate's number, its cast, and the parts that were cut from it.
ghost use Rattle.plate_lists.specs.Lists.{fields as fields_of};
ghost use Rattle.plate_lists.specs.Told.{TellsPlate};

use crate::error::ListError;
use crate::split::pieces;
use std::alloc::Global;

#[derive(Drop)]
pub struct Plate<'a> {
    pub number: &'a [u8],
    pub cast: &'a [u8],
    pub parts: Vec<&'a [u8]>,
}

// The fields between semicolons, as they stand; without the first two a line says no plate.
pub fn plate_of(heap: Global, line: &[u8]) -> Result<Plate<'_>, ListError>
    ensures { TellsPlate result (fields_of line.now) }
{
    let mut fields = pieces(heap, line, b';')?;
    let [number, cast, ..] = *fields.as_slice() else {
        return Err(ListError::NoCast);
    };
    let parts = fields.split_off(2)?;
    Ok(Plate {
        number,
        cast,
        parts,
    })
}
