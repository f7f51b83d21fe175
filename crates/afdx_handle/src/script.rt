//! The meaning of a script's line, in the layout of C.
ghost use Rattle.std.specs.Prelude.{◌≡◌, ◌≢◌, ◌<◌, [], ◌∷◌, length};
ghost use Rattle.afdx_handle.specs.Listing.{with_front};
ghost use Rattle.afdx_handle.specs.Numbers.{IsOneOf};
ghost use Rattle.afdx_handle.specs.Script.{laid_out, message_in};

use crate::answer::{DONE, SMALL_BUFFER, put_at};
use script_text::Line;

/// The version of the library: 10,000 times its first number, 100 times its second, and its third.
pub const VERSION: u32 = 20_100;

/// The meaning of a line: 0 nothing, 1 `send`, 2 `at` or 3 `close`; the sub-VL of a close; the port of a send, or the
/// virtual link of a close; the time of an `at`; and the number of bytes in the message of a send.
#[repr(C)]
#[derive(Clone, Copy)]
pub struct ScriptLine {
    pub kind: u8,
    pub sub: u8,
    pub id: u16,
    pub at: u64,
    pub size: usize,
}

/// Returns the message of a line, no bytes if it isn't a send.
fn message_in(said: &Line) -> &[u8]
    ensures { result.now ≡ message_in said.now }
{
    match said {
        Line::Send { bytes, .. } => bytes.as_slice(),
        _ => &[],
    }
}

/// Returns the meaning of a line, in the layout of C.
pub fn laid_out(said: &Line) -> ScriptLine
    ensures { result ≡ laid_out said.now }
{
    let nothing = ScriptLine {
        kind: 0,
        sub: 0,
        id: 0,
        at: 0,
        size: 0,
    };
    match said {
        Line::Nothing => nothing,
        Line::Send { port, bytes } => ScriptLine {
            kind: 1,
            id: *port,
            size: bytes.as_slice().len(),
            ..nothing
        },
        Line::At(at) => ScriptLine {
            kind: 2,
            at: *at,
            ..nothing
        },
        Line::Close { vl, sub } => ScriptLine {
            kind: 3,
            sub: *sub,
            id: *vl,
            ..nothing
        },
    }
}

/// Writes the message of a line over the front of a buffer, if there is room.
pub fn write_message(said: &Line, buffer: &mut [u8]) -> u8
    ensures answers { IsOneOf result (DONE ∷ SMALL_BUFFER ∷ []) }
    ensures written { result ≡ DONE → buffer.new ≡ with_front (message_in said.now) buffer.old }
    ensures small { result ≡ SMALL_BUFFER → length buffer.old < length (message_in said.now) }
    ensures unwritten { result ≢ DONE → buffer.new ≡ buffer.old }
{
    let message = message_in(said);
    if buffer.len() < message.len() {
        return SMALL_BUFFER;
    }
    put_at(buffer, 0, message);
    DONE
}
