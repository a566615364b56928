// One distance to something that sits: what pointers, far arrays and slices share.
ghost use Rattle.std.specs.Prelude.{◌≡◌, ℕ, ◌+◌, ◌-◌, ◌<◌, ◌≤◌, length};
ghost use Rattle.format.specs.Places.{limit, stop, up, put, zeros};
ghost use Rattle.format.specs.Answers.{good};
ghost use Rattle.format.specs.Texts.{target as target_of};

use buffer::{STOP, put_zeros, rounded};
use distance::{lead, target};
use endian::order::Endian;

// Where the tail starts of what a distance leads to, if the holder's tail starts at `tail`.
pub fn far_tail(tail: usize, size: usize, align: usize) -> usize
    requires { (tail ≤ 2147483648) × ((0 < align) × ((align ≤ 4096) × (size ≤ 2147483648))) }
    ensures { result ≡ stop (up tail align + size) }
{
    (rounded(tail, align) + size).min(STOP)
}

// That the output is within the limit, and the alignment within its bounds, stay clauses, here and above: see `distance` and `rounded`.
// Leads from `at` to the next place of an alignment from `tail` on, with zeros before it, and tells that place.
pub fn reach<E: Endian>(out: &mut [u8], at: usize, tail: usize, align: usize) -> usize
    requires { (at + 4 ≤ tail) × ((0 < align) × ((align ≤ 4096) × ((up tail align ≤ length out.old) × (length out.old ≤ limit)))) }
    ensures place { result ≡ up tail align }
    ensures bytes { out.new ≡ put (put out.old at (E.Endian.order.lay 4 (up tail align - at))) tail (zeros (up tail align - tail)) }
{
    let place = rounded(tail, align);
    lead::<E>(out, at, place);
    put_zeros(out, tail, place - tail);
    place
}

// Where the distance at a place leads that is known to lead somewhere.
pub fn led<E: Endian>(archive: &[u8], at: usize) -> usize
    requires { (at + 4 ≤ length archive.now) × ((length archive.now ≤ limit) × (((q : ℕ) × (target_of E.Endian.order archive.now at ≡ good q)))) }
    ensures { target_of E.Endian.order archive.now at ≡ good result }
{
    target::<E>(archive, at).unwrap()
}
