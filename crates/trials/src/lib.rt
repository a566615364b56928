// Tests that use libraries as any crate above them does. They stand apart, since the tests of a crate are proved with all of the crate once more.
#![tactic(auto)]

#[cfg(test)]
mod limits;
#[cfg(test)]
mod lists;
#[cfg(test)]
mod orders;
#[cfg(test)]
mod twice_bytes;
