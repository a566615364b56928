// An archive of a plate list, built in memory.
use crate::input::read;
use crate::name::Name;
use crate::plate_list::PlateList;
use crate::trouble::Trouble;
use builder::Finished;
use plate_archive::{Assembled, PerList, Sheets, assemble};
use std::alloc::{AllocError, Global};

// An archive, the sheets that it was built from, and what was told of it.
#[derive(Drop)]
pub struct Built {
    pub archive: Vec<u8>,
    pub sheets: Sheets,
    count: usize,
    assembled: Assembled,
}

impl Built {
    pub(crate) fn of_list<'a>(rt: &HostRuntime, list: Name<'a>) -> Result<Built, Trouble<'a>> {
        let bytes = read(rt, list)?;
        let PlateList { count, sheets } = PlateList::read(rt.alloc(), bytes.as_slice())?;
        let (archive, assembled) = assemble(rt.alloc(), &sheets)?;
        Ok(Built {
            archive,
            sheets,
            count,
            assembled,
        })
    }

    // What is said of an archive once it was verified.
    pub(crate) fn report(&self, heap: Global) -> Result<String, AllocError> {
        let count = self.count;
        let PerList {
            numbers,
            casts,
            parts,
        } = self.assembled.places;
        let Finished { length, alignment } = self.assembled.finished;
        format!(in heap;
            "built {count} plates: numbers at {numbers}, casts at {casts}, parts at {parts}; {length} bytes, alignment {alignment}\n\
            read again, checked deeply and copied out: {count} plates, equal to what was built\n"
        )
    }
}
