// The kinds of text: with its bytes in the tail, and inline, with its bytes in the head.
#![tactic(auto)]

// Text and inline text stay two impls: their meanings and laws are two, and a type generic over where the bytes stand would need a trait for
// one function, an impl of it for each, and is no shorter.
mod cut;
mod part;
mod sheet_text;
mod zero_str;
mod zero_string;

pub use kind::Part;
pub use part::{inline_at, text_at};
pub use zero_str::ZeroStr;
pub use zero_string::ZeroString;
