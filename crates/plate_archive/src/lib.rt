// An archive of plates: built, judged, and its sheets copied out.
#![tactic(auto)]

mod assembly;
mod copies;
mod fault;
mod items;
mod roots;
mod soundness;

pub use assembly::{AssembleError, Assembled, assemble};
pub use copies::{copy, sheets, verify};
pub use fault::Fault;
pub use items::{Items, text_at, texts_at};
pub use roots::{Casts, Numbers, Parts, PerList, Root, Sheets, Which};
pub use soundness::check;
