// The kinds that are one distance to what they hold, pointers and far arrays; and beside them those of `lists`, so that all four that hold others go by one name.
#![tactic(auto)]

mod link;
mod mark;

pub use link::Link;
pub use lists::{Array, ZeroSlice};
pub use mark::{FarArrayMark, Mark, PointerMark};
use rows::Items;

// To one value.
pub type RelativePtr<K, E> = Link<PointerMark, K, E>;

// To so many values in a row.
pub type ZeroArray<K, E> = Link<FarArrayMark, Items<K>, E>;

// Of a distance, which is all of such a head.
const SIZE: usize = 4;

const ALIGN: usize = 4;
