// How many items an array may have, and how many bytes an inline text may keep.
ghost use Rattle.std.specs.Prelude.{◌≡◌, ◌≤◌};
ghost use Rattle.format.specs.Meaning.{counted};
ghost use Rattle.refusal.specs.Told.{told_by};

use refusal::{Cause, Refusal};

const MOST: usize = 65_535;

// 1 to 65,535.
#[derive(Clone, Copy, PartialEq, Eq, Debug)]
pub struct Count {
    value: u32,
    ghost sound: { (1 ≤ value) × (value ≤ 65535) },
}

impl Count {
    // Another number is refused. As the other kinds are made by `new`, so is this; a `TryFrom` would say it under another name.
    pub fn new(n: usize) -> Result<Count, Refusal>
        ensures { told_by (λ c. c.value) result ≡ counted n }
    {
        if n < 1 || MOST < n {
            return Err(Refusal::whole(Cause::BadCount));
        }
        Ok(Count { value: n as u32 })
    }

    pub fn value(self) -> u32
        ensures { result ≡ self.value }
    {
        self.value
    }
}
