// Byte orders, and the numbers of each width that are laid by them.
#![tactic(auto)]

pub mod order;
pub mod width;
