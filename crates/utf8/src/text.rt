// The moves of the recogniser, and the check of a text.
ghost use Rattle.std.specs.Prelude.{◌≡◌, false, if◌then◌else◌};
ghost use Rattle.format.specs.Recogniser.{start, broken, move, at_start as at_start_by};
ghost use Rattle.utf8.specs.Recognised.{Recognised};
ghost use Rattle.utf8.specs.Stands.{stands};

use crate::recogniser::{Position, Recogniser};

impl Recogniser {
    pub fn new() -> Recogniser
        ensures { stands result.position ≡ start }
    {
        Recogniser {
            position: Position::Start,
        }
    }

    // A state and a byte decide together, so each move is an arm of one match.
    // Takes one byte. False where no text begins with what was fed; the position is then as it was.
    pub fn feed(&mut self, byte: u8) -> bool
        ensures moved { (if result then stands self.new.position else broken) ≡ move (stands self.old.position) byte }
        ensures kept { result ≡ false → self.new ≡ self.old }
    {
        // The most common move by a branch of its own, which a processor foresees: of such bytes none waits for the one before.
        if self.at_start() && byte.is_ascii() {
            return true;
        }
        self.position = match (self.position, byte) {
            (Position::Start, 0xc2..=0xdf) => Position::One,
            (Position::Start, 0xe0) => Position::AfterE0,
            (Position::Start, 0xed) => Position::AfterEd,
            (Position::Start, 0xe1..=0xef) => Position::Two,
            (Position::Start, 0xf0) => Position::AfterF0,
            (Position::Start, 0xf1..=0xf3) => Position::Three,
            (Position::Start, 0xf4) => Position::AfterF4,
            (Position::One, 0x80..=0xbf) => Position::Start,
            (Position::Two, 0x80..=0xbf) => Position::One,
            (Position::Three, 0x80..=0xbf) => Position::Two,
            (Position::AfterE0, 0xa0..=0xbf) => Position::One,
            (Position::AfterEd, 0x80..=0x9f) => Position::One,
            (Position::AfterF0, 0x90..=0xbf) => Position::Two,
            (Position::AfterF4, 0x80..=0x8f) => Position::Two,
            _ => return false,
        };
        true
    }

    // Whether what was fed is whole characters.
    pub fn at_start(&self) -> bool
        ensures { result ≡ at_start_by (stands self.now.position) }
    {
        self.position == Position::Start
    }
}

// Whether bytes are text: just where the grammar of RFC 3629 makes them, and just where they encode Unicode scalar values.
pub fn is_text(bytes: &[u8]) -> bool
    ensures { Recognised bytes.now result }
{
    let mut recogniser = Recogniser::new();
    for byte in bytes {
        if !recogniser.feed(*byte) {
            return false;
        }
    }
    recogniser.at_start()
}
