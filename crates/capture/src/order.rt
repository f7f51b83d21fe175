//! Numbers in either order of bytes.
ghost use Rattle.std.specs.Prelude.{◌≡◌, ◌+◌, ◌≤◌, length};
ghost use Rattle.capture.specs.Units.{number_at};

use byteorder::{BigEndian, ByteOrder, LittleEndian};

/// The order of the bytes of a number: the lowest first, or the highest.
#[derive(Clone, Copy, Debug, PartialEq, Eq)]
pub enum Order {
    Little,
    Big,
}

impl Order {
    /// Returns the 16-bit number at an index.
    pub(crate) fn half_at(self, bytes: &[u8], i: usize) -> u16
        requires { i + 2 ≤ length bytes.now }
        ensures { result ≡ number_at self 2 i bytes.now }
    {
        match self {
            Order::Little => LittleEndian::read_u16(&bytes[i..]),
            Order::Big => BigEndian::read_u16(&bytes[i..]),
        }
    }

    /// Returns the 32-bit number at an index.
    pub(crate) fn word_at(self, bytes: &[u8], i: usize) -> u32
        requires { i + 4 ≤ length bytes.now }
        ensures { result ≡ number_at self 4 i bytes.now }
    {
        match self {
            Order::Little => LittleEndian::read_u32(&bytes[i..]),
            Order::Big => BigEndian::read_u32(&bytes[i..]),
        }
    }

    /// Returns the 64-bit number in the first 8 bytes.
    pub(crate) fn long(self, bytes: &[u8]) -> u64
        requires { 8 ≤ length bytes.now }
        ensures { result ≡ number_at self 8 0 bytes.now }
    {
        match self {
            Order::Little => LittleEndian::read_u64(bytes),
            Order::Big => BigEndian::read_u64(bytes),
        }
    }
}
