//! The numbers that calls return, as `afdx.h` has them, the meaning of the other numbers there, and the values that
//! calls write: counts and releases in the layout of C, and bytes in a buffer.
ghost use Rattle.std.specs.Prelude.{◌≡◌, ◌+◌, ◌≤◌, ◌++◌, length, take, drop, slice_index};
ghost use Rattle.afdx_handle.specs.Numbers.{net_of, refusal_number, standing_bits};
ghost use Rattle.afdx_handle.specs.Script.{IsReleaseOf};

use afdx_frame::Net;
use afdx_tx::Refusal;
use redundant_mux::Standing;

/// Success.
pub const DONE: u8 = 0;

/// Both networks have failed before.
pub const BOTH_DOWN: u8 = 1;

/// An allocation failed.
pub const MEMORY: u8 = 15;

/// The handle holds nothing.
pub const NOT_HELD: u8 = 32;

/// The handle holds a port instead of an end system, or an end system instead of a port.
pub const WRONG_HANDLE: u8 = 33;

/// The handle to be filled holds something.
pub const HELD: u8 = 34;

/// The time is before an earlier poll's.
pub const TIME_BACK: u8 = 35;

/// The end system doesn't hold such a port.
pub const NO_PORT: u8 = 36;

/// No such virtual link, or no such sub-VL of it.
pub const NO_SUB: u8 = 37;

/// No such virtual link.
pub const NO_LINK: u8 = 38;

/// No such network.
pub const NO_NETWORK: u8 = 39;

/// The last poll made fewer frames.
pub const NO_FRAME: u8 = 40;

/// The frame has more bytes than the buffer.
pub const SMALL_BUFFER: u8 = 41;

/// A port of the plan is out.
pub const PORT_MISSING: u8 = 42;

/// The ports were gathered before.
pub const GATHERED: u8 = 43;

/// The ports weren't gathered yet.
pub const NOT_GATHERED: u8 = 44;

/// A capture is cut off or malformed.
pub const BAD_CAPTURE: u8 = 45;

/// Returns the network with this number.
pub fn net_of(number: u8) -> Option<Net>
    ensures { result ≡ net_of number }
{
    match number {
        0 => Some(Net::A),
        1 => Some(Net::B),
        _ => None,
    }
}

/// Returns the number of a refusal.
pub fn refusal_number(why: Refusal) -> u8
    ensures { result ≡ refusal_number why }
{
    match why {
        Refusal::Empty => 1,
        Refusal::TooLong => 2,
        Refusal::Closed => 3,
        Refusal::Exhausted => 4,
        Refusal::Full => 5,
    }
}

/// Returns the networks that are up, as bits: 1 for A and 2 for B.
pub fn standing_bits(standing: Standing) -> u8
    ensures { result ≡ standing_bits standing.a standing.b }
{
    u8::from(standing.a) + 2 * u8::from(standing.b)
}

/// The counts of a virtual link: the frames that at least one network accepted, the sum of their lengths in bytes, the
/// messages whose last frame is among them, and the time of the last frame in microseconds.
#[repr(C)]
#[derive(Clone, Copy)]
pub struct LinkCounts {
    pub frames: u64,
    pub bytes: u64,
    pub messages: u64,
    pub last: u64,
}

/// The virtual link of a frame, the index of its sub-VL, and its sequence number.
#[repr(C)]
#[derive(Clone, Copy)]
pub struct FrameRelease {
    pub vl: u16,
    pub sub: u8,
    pub number: u8,
}

/// Returns the byte at an index, or 0 if there are fewer.
fn byte_at(bytes: &[u8], i: usize) -> u8
    ensures { result ≡ slice_index bytes.now i }
{
    if i < bytes.len() { bytes[i] } else { 0 }
}

/// Returns the release of a frame, or of any bytes: missing bytes count as 0.
#[tactic(auto, using(std::proofs::Common::arith))]
pub fn release_of(frame: &[u8]) -> FrameRelease
    ensures { IsReleaseOf frame.now result }
{
    FrameRelease {
        vl: 256 * byte_at(frame, 4) as u16 + byte_at(frame, 5) as u16,
        sub: byte_at(frame, 19) % 4,
        number: byte_at(frame, frame.len().saturating_sub(1)),
    }
}

/// Writes bytes into a buffer from an index on.
pub(crate) fn put_at(buffer: &mut [u8], at: usize, bytes: &[u8])
    requires { at + length bytes.now ≤ length buffer.old }
    ensures { buffer.new ≡ take at buffer.old ++ bytes.now ++ drop (at + length bytes.now) buffer.old }
{
    buffer[at..at + bytes.len()].copy_from_slice(bytes);
}
