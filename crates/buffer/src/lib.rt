// Places in a buffer, and writes into a part of one, so that nothing above meets a raw write. Callers show that the part lies within it.
#![tactic(auto)]

ghost use Rattle.std.specs.Prelude.{◌≡◌, ◌+◌, ◌<◌, ◌≤◌, length, nat_le};
ghost use Rattle.format.specs.Places.{up, put, zeros};

// The most bytes that an archive, a buffer, or a sheet that is built may have.
pub const LIMIT: usize = 2_147_483_647;

// Where sizes and ends stop: one past the limit.
pub const STOP: usize = 2_147_483_648;

// Whether so many bytes from a place on lie within a length. No sum of the two is taken, so none wraps.
pub fn lies_within(length: usize, place: usize, count: usize) -> bool
    ensures { result ≡ nat_le (place + count) length }
{
    count <= length && place <= length - count
}

// Puts bytes over those at a place. Not into a part `&mut out[at..]` that a caller makes: the contracts speak of the whole buffer.
pub fn put_at(out: &mut [u8], at: usize, bytes: &[u8])
    requires { at + length bytes.now ≤ length out.old }
    ensures { out.new ≡ put out.old at bytes.now }
{
    out[at..at + bytes.len()].copy_from_slice(bytes);
}

// Puts so many zeros over the bytes at a place.
pub fn put_zeros(out: &mut [u8], at: usize, count: usize)
    requires { at + count ≤ length out.old }
    ensures { out.new ≡ put out.old at (zeros count) }
{
    out[at..at + count].fill(0);
}

// The next place of an alignment, from a place on. The alignment is a number and no type with these bounds, since it is one in what a kind
// answers: the type would be made and taken apart at each call.
#[tactic(auto, using(crate::proofs::Rounds::nearest))]
pub fn rounded(place: usize, align: usize) -> usize
    requires { (place ≤ 2147483648) × ((0 < align) × (align ≤ 4096)) }
    ensures { result ≡ up place align }
{
    place.next_multiple_of(align)
}
