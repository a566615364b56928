// The calls on an archive that somebody else may have written: two checks, one step, and copying out, of a value of any kind.
#![tactic(auto)]

mod check;
mod copy;
mod step;

pub use check::{is_valid, is_valid_deep};
pub use copy::copy_out;
pub use step::get;
