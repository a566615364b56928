// Why a call refuses: a cause with its number, a place and a depth.
#![tactic(auto)]

mod cause;
mod refusal;

pub use cause::Cause;
pub use refusal::Refusal;
