// The kinds of one scalar: numbers, truths and characters, in any byte order.
#![tactic(auto)]

mod scalar;
mod scalar_kind;

pub use scalar::{Character, Number, Scalar, Truth};
pub use scalar_kind::ScalarKind;
