// What is put behind an archive.
ghost use Rattle.std.specs.Prelude.{◌≡◌, ◌+◌, ◌≤◌, length};
ghost use Rattle.format.specs.Places.{put};
ghost use Rattle.builder.specs.Additions.{bytes_of};

use buffer::{put_at, put_zeros};

#[derive(Clone, Copy)]
pub(crate) enum Addition<'a> {
    Zeros(usize),
    Bytes(&'a [u8]),
}

impl Addition<'_> {
    // How many bytes it has.
    pub(crate) fn count(self) -> usize
        ensures { result ≡ length (bytes_of self.entry) }
    {
        match self {
            Addition::Zeros(count) => count,
            Addition::Bytes(bytes) => bytes.len(),
        }
    }

    // Puts its bytes over those at a place.
    pub(crate) fn put(self, buffer: &mut [u8], place: usize)
        requires { place + length (bytes_of self) ≤ length buffer.old }
        ensures { buffer.new ≡ put buffer.old place (bytes_of self.entry) }
    {
        match self {
            Addition::Zeros(count) => put_zeros(buffer, place, count),
            Addition::Bytes(bytes) => put_at(buffer, place, bytes),
        }
    }
}
