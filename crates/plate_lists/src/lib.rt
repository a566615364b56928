// A plate list, line by line and field by field, the sheets of what its fields say, and the words that such a sheet is read back by.
#![tactic(auto)]

mod error;
mod plate;
mod split;
mod texts;
mod words;

pub use error::ListError;
pub use plate::{Plate, plate_of};
pub use split::{lines, pieces};
pub use texts::{sheet_of_lists, sheet_of_texts};
pub use words::list_words;
