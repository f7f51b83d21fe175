//! The counts of a virtual link.
ghost use Rattle.std.specs.Prelude.{[], ◌∷◌};

use crossbeam_utils::atomic::Words;

/// Counts of a virtual link's transmission: the frames that at least one network accepted, the sum of their lengths,
/// the messages whose last frame is among them, and the time of the last frame in microseconds, 0 before the first.
#[derive(Clone, Copy, Debug, PartialEq, Eq)]
pub struct Counts {
    pub frames: u64,
    pub bytes: u64,
    pub messages: u64,
    pub last: u64,
}

impl Counts {
    /// The counts of a link that has sent nothing.
    pub const ZERO: Counts = Counts {
        frames: 0,
        bytes: 0,
        messages: 0,
        last: 0,
    };
}

impl Words<4> for Counts {
    ghost words = { λ c. c.frames ∷ c.bytes ∷ c.messages ∷ c.last ∷ [] };

    fn to_words(self) -> [u64; 4] {
        [self.frames, self.bytes, self.messages, self.last]
    }

    fn from_words(bits: &[u64; 4]) -> Counts {
        Counts {
            frames: bits[0],
            bytes: bits[1],
            messages: bits[2],
            last: bits[3],
        }
    }
}
