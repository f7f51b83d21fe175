//! The index of each field of a frame, in bytes from the destination MAC address on, and the piece of a datagram in it;
//! a word.
ghost use Rattle.std.specs.Prelude.{◌≡◌, ◌+◌, ◌/◌, ◌%◌, ◌≤◌, length, slice_set};
ghost use Rattle.afdx_frame.specs.Profile.{word_at, has_more, is_icmp};

use byteorder::{BigEndian, ByteOrder};

/// The identifier of the virtual link, in the destination MAC address.
pub const LINK: usize = 4;

/// The identifier of the end system, in the source MAC address.
pub const END_SYSTEM: usize = 9;

/// The interface identifier, the last byte of the source MAC address.
pub const INTERFACE: usize = 11;

/// The type of the Ethernet frame.
pub const ETHERTYPE: usize = 12;

/// The version and the length of the internet header, its first byte (RFC 791).
pub const VERSION: usize = 14;

/// The total length of the fragment with its internet header.
pub const TOTAL_LENGTH: usize = 16;

/// The identification.
pub const IDENTIFICATION: usize = 18;

/// The word of flags and fragment offset.
pub const FRAGMENT: usize = 20;

/// The time to live.
pub const TIME_TO_LIVE: usize = 22;

/// The protocol.
pub const PROTOCOL: usize = 23;

/// The checksum of the internet header.
pub const CHECKSUM: usize = 24;

/// The source address.
pub const SOURCE: usize = 26;

/// The destination address.
pub const DESTINATION: usize = 30;

/// The data of the fragment; in a first fragment the UDP ports (RFC 768).
pub const DATA: usize = 34;

/// The length of the datagram, in a first fragment.
pub const UDP_LENGTH: usize = 38;

/// The checksum of the datagram, in a first fragment.
pub const UDP_CHECKSUM: usize = 40;

/// The message, in a first fragment.
pub const MESSAGE: usize = 42;

/// Returns the 16-bit number at an index, high byte first.
pub fn word_at(bytes: &[u8], i: usize) -> u16
    requires { i + 2 ≤ length bytes.now }
    ensures { result ≡ word_at bytes.now i }
{
    BigEndian::read_u16(&bytes[i..])
}

/// Overwrites the 16-bit number at an index, high byte first.
pub(crate) fn set_word(out: &mut [u8], i: usize, word: u16)
    requires { i + 2 ≤ length out.old }
    ensures { out.new ≡ slice_set (slice_set out.old i (word / 256 % 256)) (i + 1) (word % 256) }
{
    BigEndian::write_u16(&mut out[i..i + 2], word);
}

/// The greatest length of a datagram in bytes: a message of 8,192 bytes with its UDP header.
pub const GREATEST_DATAGRAM: u32 = 8_200;

/// The flag of don't fragment in the word of flags and offset.
pub const DONT_FRAGMENT: u16 = 0x4000;

/// The flag of more fragments in the word of flags and offset.
pub const MORE_FRAGMENTS: u16 = 0x2000;

/// The word of flags and offset modulo this is the offset, in units of 8 bytes.
pub const OFFSET_MODULUS: u16 = 0x2000;

/// Returns true if more pieces follow a frame's piece, whatever the flags beside that of more fragments.
pub fn has_more(frame: &[u8]) -> bool
    requires { 22 ≤ length frame.now }
    ensures { result ≡ has_more frame.now }
{
    word_at(frame, FRAGMENT) % DONT_FRAGMENT >= MORE_FRAGMENTS
}

/// Returns true if a frame carries a message of ICMP, or a piece of one.
pub fn is_icmp(frame: &[u8]) -> bool
    requires { 24 ≤ length frame.now }
    ensures { result ≡ is_icmp frame.now }
{
    frame[PROTOCOL] == 1
}

/// A piece of a datagram, in bytes: its start, its length, and whether more pieces follow.
#[derive(Clone, Copy, Debug, PartialEq, Eq)]
pub struct Piece {
    pub start: usize,
    pub len: usize,
    pub more: bool,
}
