// The cut of a text: its longest beginning that fits and does not split a character.
ghost use Rattle.std.specs.Prelude.{◌≡◌, ◌≤◌, length, take};
ghost use Rattle.format.specs.Recogniser.{among};
ghost use Rattle.format.specs.Texts.{cut};

// Whether a byte goes on with a character, and so no cut is before it.
fn goes_on(byte: u8) -> bool
    ensures { result ≡ among 0x80 0xbf byte }
{
    matches!(byte, 0x80..=0xbf)
}

// How many bytes of a text are left within a capacity.
pub fn cut_length(bytes: &[u8], capacity: usize) -> usize
    ensures long { result ≡ length (cut capacity bytes.now) }
    ensures front { take result bytes.now ≡ cut capacity bytes.now }
    ensures within { (result ≤ length bytes.now) × (result ≤ capacity) }
{
    if bytes.len() <= capacity {
        return bytes.len();
    }
    // A loop, whose invariant says what the bytes that were passed over are. With `find` over the same range that was not shown; and what
    // `rposition` over the bytes from 1 on finds counts from there, so it would be turned back.
    for end in (1..=capacity).rev() {
        if !goes_on(bytes[end]) {
            return end;
        }
    }
    0
}
