// What the kinds share that hold others: a front before what is held, and one distance to it.
#![tactic(auto)]

mod far;
mod front;

pub use far::{far_tail, led, reach};
pub use front::{behind_front, held};
