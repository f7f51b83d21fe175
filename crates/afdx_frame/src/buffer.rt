//! The buffer of a frame, which is overwritten in place.
ghost use Rattle.std.specs.Prelude.{◌≡◌, ◌≤◌, [], length, take, ◌+◌, ◌++◌};
ghost use Rattle.afdx_frame.specs.Header.{twin_of};
ghost use Rattle.arrayvec.specs.ArrayVec.{array_vec_len};
ghost use Rattle.afdx_frame.specs.declared.net.TheConstants.{GREATEST_FRAME};
ghost use Rattle.afdx_frame.specs.Template.{Buffered};

use crate::field;
use crate::net::{Frame, GREATEST_FRAME, Net, SHORTEST_FRAME};
use crate::write::interface;
use arrayvec::ArrayVec;
use std::marker::Model;

/// A frame, over the bytes that longer ones left in its buffer: unlike a `Frame`, it is never blanked. Contracts see
/// the bytes of the frame.
#[derive(Drop)]
pub struct FrameBuffer {
    // The length of the frame. First, so that a short frame and its length are in the same lines of the cache.
    pub(crate) len: usize,
    // Full until the frame leaves the buffer, and overwritten in place: a vector blanks what is cut off.
    pub(crate) bytes: ArrayVec<u8, GREATEST_FRAME>,
    // Unused. The buffer and the word that malloc of glibc keeps before it fill 25 lines of the cache, so the frames of
    // all buffers begin at the same place of a line, and are copied faster.
    pad: [u64; 7],
}

impl Model for FrameBuffer {
    ghost Value = { Buffered };

    ghost view = { λ b. record { items = take b.len b.bytes.items } };

    ghost invariant = { λ b. (b.len ≤ GREATEST_FRAME) × (array_vec_len b.bytes ≡ GREATEST_FRAME) };
}

/// Overwrites all bytes.
fn put_all<const N: usize>(out: &mut [u8], bytes: &[u8; N])
    requires { length out.old ≡ N }
    ensures { out.new ≡ bytes.now }
{
    if let Some(all) = out.as_mut_array::<N>() {
        *all = *bytes;
    }
}

/// Overwrites the first `N` bytes. A copy of a fixed length is no call.
pub(crate) fn put_first<const N: usize>(out: &mut [u8], bytes: &[u8; N])
    requires { N ≤ length out.old }
    ensures { take N out.new ≡ bytes.now }
{
    put_all(&mut out[..N], bytes);
}

/// Overwrites the first bytes.
fn put_front(out: &mut [u8], frame: &[u8])
    requires { length frame.now ≤ length out.old }
    ensures { take (length frame.now) out.new ≡ frame.now }
{
    match frame.as_array::<SHORTEST_FRAME>() {
        Some(short) => put_first(out, short),
        None => put(out, 0, frame),
    }
}

impl FrameBuffer {
    /// Creates a buffer without a frame.
    pub fn new() -> FrameBuffer
        ensures { result.items ≡ [] }
    {
        FrameBuffer {
            bytes: ArrayVec::from_array_in((), [0; GREATEST_FRAME]),
            len: 0,
            pad: [0; 7],
        }
    }

    /// Returns the frame.
    pub fn as_slice(&self) -> &[u8]
        ensures value { result.now ≡ self.now.items }
        ensures short { length result.now ≤ GREATEST_FRAME }
    {
        &self.bytes.as_slice()[..self.len]
    }

    /// Copies a frame in.
    pub fn fill(&mut self, frame: &[u8])
        requires { length frame.now ≤ GREATEST_FRAME }
        ensures { self.new.items ≡ frame.now }
    {
        put_front(self.bytes.as_mut_slice(), frame);
        self.len = frame.len();
    }

    /// Turns the frame into its twin for a network, which differs in the interface identifier alone. Bytes too
    /// short to have one are unchanged.
    pub fn turn(&mut self, net: Net)
        ensures { self.new.items ≡ twin_of net self.old.items }
    {
        if field::INTERFACE < self.len {
            self.bytes.as_mut_slice()[field::INTERFACE] = interface(net);
        }
    }

    /// Returns the frame, in the buffer's vector.
    pub fn into_frame(self) -> Frame
        ensures { result.items ≡ self.items }
    {
        let FrameBuffer { len, mut bytes, .. } = self;
        bytes.truncate(len);
        bytes
    }
}

/// Returns the frame's twin for a network: the same bytes, with the interface identifier of the
/// network in byte 11. Bytes too short to have one are unchanged.
pub fn twin(frame: &Frame, net: Net) -> Frame
    ensures { result.items ≡ twin_of net frame.now.items }
{
    let mut out = FrameBuffer::new();
    out.fill(frame);
    out.turn(net);
    out.into_frame()
}

/// Overwrites bytes from an index on.
#[tactic(auto, using(std::proofs::lemmas::Slice::overwrites))]
pub(crate) fn put(out: &mut [u8], at: usize, bytes: &[u8])
    requires { at + length bytes.now ≤ length out.old }
    ensures { take (at + length bytes.now) out.new ≡ take at out.old ++ bytes.now }
{
    out[at..at + bytes.len()].copy_from_slice(bytes);
}

/// Overwrites bytes as `put` does, by two copies of `step` bytes each, the first and the last, which may overlap.
fn put_ends(out: &mut [u8], at: usize, bytes: &[u8], step: usize)
    requires room { at + length bytes.now ≤ length out.old }
    requires least { step ≤ length bytes.now }
    requires most { length bytes.now ≤ step + step }
    ensures { take (at + length bytes.now) out.new ≡ take at out.old ++ bytes.now }
{
    let rest = bytes.len() - step;
    put(out, at, &bytes[..step]);
    put(out, at + rest, &bytes[rest..]);
}

/// Overwrites bytes as `put` does, but copies fewer than 16 bytes without a call.
pub(crate) fn put_short(out: &mut [u8], at: usize, bytes: &[u8])
    requires { at + length bytes.now ≤ length out.old }
    ensures { take (at + length bytes.now) out.new ≡ take at out.old ++ bytes.now }
{
    let many = bytes.len();
    if many >= 16 {
        put(out, at, bytes);
    } else if many >= 8 {
        put_ends(out, at, bytes, 8);
    } else if many >= 4 {
        put_ends(out, at, bytes, 4);
    } else if many >= 2 {
        put_ends(out, at, bytes, 2);
    } else if many == 1 {
        put(out, at, &bytes[..1]);
    }
}
