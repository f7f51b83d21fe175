//! The end system that a frame's source MAC address names.
ghost use Rattle.std.specs.Prelude.{◌≡◌};
ghost use Rattle.judge.specs.Tap.{source_of};

use afdx_frame::word_at;

// The first bytes of the MAC address of an end system; its number follows, and the byte of the network.
const FRONT: [u8; 3] = [0x02, 0x00, 0x00];

/// Returns the end system that the source MAC address of a frame names. `None` if it is none's, or if the frame ends
/// before it does.
pub fn source_of(frame: &[u8]) -> Option<u16>
    ensures { result ≡ source_of frame.now }
{
    if frame.len() < 12 || frame[6] != FRONT[0] || frame[7] != FRONT[1] || frame[8] != FRONT[2] {
        return None;
    }
    Some(word_at(frame, 9))
}
