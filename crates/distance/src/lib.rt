// Distances: signed 32-bit numbers, counted from their own first byte, that lead to a place of the archive.
#![tactic(auto)]

ghost use Rattle.std.specs.Prelude.{◌≡◌, ◌+◌, ◌-◌, ◌%◌, ◌<◌, ◌≤◌, length, IfOk};
ghost use Rattle.format.specs.Places.{limit, put};
ghost use Rattle.format.specs.Answers.{both};
ghost use Rattle.format.specs.Meaning.{sits as sits_by};
ghost use Rattle.format.specs.Texts.{target as target_of};
ghost use Rattle.refusal.specs.Told.{told};

use buffer::lies_within;
use endian::order::Endian;
use endian::width::{Primitive, Width4};
use refusal::{Cause, Refusal};

// That an archive is within the limit stays a clause: a type for it would take one of the three facts that `Seated` gives and leave two.
// Where the distance at a place leads. Below the archive's first byte is outside.
pub fn target<E: Endian>(archive: &[u8], at: usize) -> Result<usize, Refusal>
    requires { (at + 4 ≤ length archive.now) × (length archive.now ≤ limit) }
    ensures { told result ≡ target_of E.Endian.order archive.now at }
{
    let distance = Width4::take_back::<E>(archive, at).cast_signed();
    let place = at as i64 + i64::from(distance);
    usize::try_from(place).map_err(|_| Refusal::at(Cause::Outside, at))
}

// A place, if so many bytes sit there at an alignment in an archive of a length; a refusal names the place that led there.
// Size and alignment are two numbers: a kind answers each by itself.
pub fn sits(
    named: usize,
    place: usize,
    size: usize,
    align: usize,
    length: usize,
) -> Result<usize, Refusal>
    requires { 0 < align }
    ensures told { told result ≡ sits_by named place size align length }
    ensures seated { IfOk result (λ q. (q ≡ place) × (place + size ≤ length) × (place % align ≡ 0)) }
{
    if !lies_within(length, place, size) {
        return Err(Refusal::at(Cause::Outside, named));
    }
    if place % align != 0 {
        return Err(Refusal::at(Cause::Misaligned, named));
    }
    Ok(place)
}

// Where the distance at a place leads, if so many bytes sit there at an alignment; a refusal names the place of the distance.
pub fn follow<E: Endian>(
    archive: &[u8],
    at: usize,
    size: usize,
    align: usize,
) -> Result<usize, Refusal>
    requires { (at + 4 ≤ length archive.now) × ((length archive.now ≤ limit) × (0 < align)) }
    ensures told { told result ≡ both (target_of E.Endian.order archive.now at) (λ q. sits_by at q size align (length archive.now)) }
    ensures within { IfOk result (λ q. q + size ≤ length archive.now) }
{
    let place = target::<E>(archive, at)?;
    sits(at, place, size, align, archive.len())
}

// Puts the distance from a place to one behind it over the bytes there.
pub fn lead<E: Endian>(out: &mut [u8], at: usize, to: usize)
    requires { (at + 4 ≤ length out.old) × ((at ≤ to) × (to ≤ limit)) }
    ensures { out.new ≡ put out.old at (E.Endian.order.lay 4 (to - at)) }
{
    Width4::lay::<E>((to - at) as u32, out, at);
}
