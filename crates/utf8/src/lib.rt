// Text: the recogniser of UTF-8, and the check of a whole text.
#![tactic(auto)]

mod recogniser;
mod text;

pub use recogniser::{Position, Recogniser};
pub use text::is_text;
