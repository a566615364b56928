// The kinds whose head is or counts items: inline arrays and slices.
#![tactic(auto)]

mod array;
mod slice;

pub use array::Array;
pub use slice::ZeroSlice;
