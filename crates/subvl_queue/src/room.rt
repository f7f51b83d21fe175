//! Room for one message.
ghost use Rattle.std.specs.Prelude.{◌≡◌, ◌%◌, ◌≤◌, length, take, IfOk, IfSome, Some, None};
ghost use Rattle.subvl_queue.specs.Messages.{IsMessage, most_bytes, room_with, bytes_of, port_of, RoomView, item_of};
ghost use Rattle.internet_sum.specs.Words.{word_sum};
ghost use Rattle.std.specs.Box.{boxed_slice_items};

use internet_sum::word_sum_modulo;
use std::alloc::{AllocError, Global};
use std::boxed::BoxedSlice;
use std::marker::Model;

/// Room for one message, allocated when it is made: no later call allocates or frees, and its content can't grow.
/// Contracts see the number of bytes, and the message with the index of its sender, if there is one. They don't see
/// whether the message has the sum of its 16-bit words with it.
#[derive(Drop)]
pub struct Room {
    block: BoxedSlice<u8>,
    // The length of the message and the index of its sender, both 0 if there is none. Small, since each send and each
    // take exchanges two rooms.
    len: u16,
    port: u8,
    // The sum of its 16-bit words modulo 65,535, if its sender made it.
    sum: Option<u16>,
}

impl Model for Room {
    ghost Value = { RoomView };

    ghost view = { λ r. room_with (length (boxed_slice_items r.block))
        (item_of r.port (take r.len (boxed_slice_items r.block))) };

    ghost invariant = { λ r. (r.len ≤ length (boxed_slice_items r.block)) × (r.len ≡ 0 → r.port ≡ 0)
        × IfSome r.sum (λ sum. sum ≡ word_sum (take r.len (boxed_slice_items r.block)) % 65535) };
}

/// Overwrites the first bytes.
#[tactic(auto, using(std::proofs::lemmas::Slice::overwrites))]
fn put(out: &mut [u8], bytes: &[u8])
    requires { length bytes.now ≤ length out.old }
    ensures front { take (length bytes.now) out.new ≡ bytes.now }
    ensures len { length out.new ≡ length out.old }
{
    out[..bytes.len()].copy_from_slice(bytes);
}

impl Room {
    /// Creates an empty room for a message of at most `most` bytes.
    pub fn new(alloc: Global, most: usize) -> Result<Room, AllocError>
        ensures { IfOk result (λ room. room ≡ room_with most None) }
    {
        let block = Vec::from_elem(alloc, 0u8, most)?.into_boxed_slice();
        Ok(Room {
            block,
            len: 0,
            port: 0,
            sum: None,
        })
    }

    /// Copies a message in.
    pub(crate) fn fill(&mut self, port: u8, bytes: &[u8])
        requires message { IsMessage bytes.now }
        requires most { length bytes.now ≤ self.old.most }
        ensures { self.new ≡ room_with self.old.most (Some (port, bytes.now)) }
    {
        put(self.block.as_mut_slice(), bytes);
        self.len = bytes.len() as u16;
        self.port = port;
        self.sum = None;
    }

    /// Makes the sum of the message's words.
    pub(crate) fn sum_up(&mut self)
        requires { length (bytes_of self.old.item) ≤ most_bytes }
        ensures { self.new ≡ self.old }
    {
        self.sum = Some(word_sum_modulo(self.bytes()));
    }

    /// Forgets the message.
    pub fn clear(&mut self)
        ensures { self.new ≡ room_with self.old.most None }
    {
        self.len = 0;
        self.port = 0;
        self.sum = None;
    }

    /// Returns the length of the message, or 0.
    pub fn len(&self) -> usize
        ensures { result ≡ length (bytes_of self.now.item) }
    {
        usize::from(self.len)
    }

    /// Returns the bytes of the message, or none.
    pub fn bytes(&self) -> &[u8]
        ensures { result.now ≡ bytes_of self.now.item }
    {
        &self.block.as_slice()[..self.len()]
    }

    /// Returns the index of the message's sender, or 0.
    #[tactic(auto, using(crate::proofs::Rooms::port_is))]
    pub fn port(&self) -> usize
        ensures { result ≡ port_of self.now.item }
    {
        usize::from(self.port)
    }

    /// Returns the sum of the 16-bit words of the message modulo 65,535, if its sender made it.
    pub fn sum(&self) -> Option<u16>
        ensures { IfSome result (λ sum. sum ≡ word_sum (bytes_of self.now.item) % 65535) }
    {
        self.sum
    }
}
