// The sheet reader: words of a sheet, one at a time, each with its place.
#![tactic(auto)]

pub mod marks;
mod parts;
mod reader;
mod word;

// The sheet and the place in it stay two parameters: a reader that moved would have to say of each step that its sheet is the same one.
pub use parts::{character, marked, number, text, truth};
pub use reader::{ended, read};
pub use word::{Form, Read, Word};
