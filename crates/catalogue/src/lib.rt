// The catalogue: the kinds that can be named while a program runs. A kind is a type and is compiled for itself, so a name chooses among those that
// stand here. Which one it means is said in `naming`.
#![tactic(auto)]

mod holders;
mod missing;
mod names;
mod order;
mod purpose;
mod usable;

pub use missing::Missing;
pub use names::with_kind;
pub use order::Order;
pub use purpose::Use;
