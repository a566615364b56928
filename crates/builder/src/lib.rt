// The builder of archives: it lays values and bytes one behind another into a buffer that each call is handed.
#![tactic(auto)]

ghost use Rattle.std.specs.Prelude.{◌≤◌};
ghost use Rattle.format.specs.Places.{limit};

mod addition;
mod alignment;
mod events;
mod growth;
mod planning;

use crate::alignment::Alignment;

// How much of the buffer is the archive, its largest alignment, and how long the buffer was at the start. Not the buffer, which is lent
// to each call, so that the caller keeps it.
#[derive(Drop)]
pub struct ZeroBuilder {
    used: usize,
    align: Alignment,
    room: usize,
    ghost inside: { used ≤ room },
    ghost within: { room ≤ limit },
}

// What a builder leaves: how long the archive is, and the alignment that it is to be placed by.
#[derive(Clone, Copy, PartialEq, Eq, Debug)]
pub struct Finished {
    pub length: usize,
    pub alignment: usize,
}
