//! The units of a capture: the blocks of pcapng, the file header and the records of pcap.
ghost use Rattle.std.specs.Prelude.{◌≡◌, ◌≤◌, length, IfOk};
ghost use Rattle.capture.specs.Units.{unit_of, section_unit, header_unit, size_of, block_size, record_size, least_size};

use crate::order::Order;
use crate::stop::Fault;

/// The greatest length in bytes of a block, or of a record with its header.
pub const GREATEST_UNIT: usize = 0x10_0000;

/// The bytes in front of a unit from which its kind and its length are known.
pub const UNIT_FRONT: usize = 12;

// The type of a section header block, the same in either order, and its byte-order magic.
const SECTION_TYPE: u32 = 0x0a0d_0d0a;

const SECTION_MAGIC: u32 = 0x1a2b_3c4d;

// The magic numbers of a pcap file, by the unit of its times.
const MICROS_MAGIC: u32 = 0xa1b2_c3d4;

const NANOS_MAGIC: u32 = 0xa1b2_3c4d;

/// The unit of the second part of a record's time.
#[derive(Clone, Copy, Debug, PartialEq, Eq)]
pub enum Clock {
    Micros,
    Nanos,
}

/// The format of a capture, as far as it is known.
#[derive(Clone, Copy, Debug, PartialEq, Eq)]
pub enum Format {
    /// Nothing was read.
    Unknown,
    /// The blocks of a section of pcapng.
    Blocks(Order),
    /// The records of pcap.
    Records(Order, Clock),
}

/// A unit, by its front.
#[derive(Clone, Copy, Debug, PartialEq, Eq)]
pub(crate) enum Unit {
    /// A section header block.
    Section(Order),
    /// Another block.
    Block(Order),
    /// The header of a pcap file.
    Header(Order, Clock),
    /// A record of a pcap file.
    Record(Order, Clock),
}

impl Unit {
    /// Returns the unit that begins with these bytes.
    #[tactic(auto, unfolding(crate::specs::Units::unit_of))]
    pub(crate) fn of(format: Format, front: &[u8]) -> Result<Unit, Fault>
        requires { UNIT_FRONT ≤ length front.now }
        ensures { result ≡ unit_of format front.now }
    {
        match format {
            Format::Records(order, clock) => Ok(Unit::Record(order, clock)),
            _ if Order::Little.word_at(front, 0) == SECTION_TYPE => section(front),
            Format::Blocks(order) => Ok(Unit::Block(order)),
            Format::Unknown => header(front),
        }
    }

    /// Returns the length of the unit.
    #[tactic(auto, unfolding(crate::specs::Units::size_of))]
    pub(crate) fn size(self, front: &[u8]) -> Result<usize, Fault>
        requires { UNIT_FRONT ≤ length front.now }
        ensures value { result ≡ size_of self front.now }
        ensures least { IfOk result (λ size. least_size self ≤ size) }
        ensures most { IfOk result (λ size. size ≤ GREATEST_UNIT) }
    {
        match self {
            Unit::Section(order) => block_len(order.word_at(front, 4)),
            Unit::Block(order) => block_len(order.word_at(front, 4)),
            Unit::Header(_, _) => Ok(24),
            Unit::Record(order, _) => record_len(order.word_at(front, 8)),
        }
    }
}

/// Returns the section header block that begins with these bytes, by its byte-order magic.
#[tactic(auto, unfolding(crate::specs::Units::section_unit))]
fn section(front: &[u8]) -> Result<Unit, Fault>
    requires { UNIT_FRONT ≤ length front.now }
    ensures { result ≡ section_unit front.now }
{
    if Order::Little.word_at(front, 8) == SECTION_MAGIC {
        Ok(Unit::Section(Order::Little))
    } else if Order::Big.word_at(front, 8) == SECTION_MAGIC {
        Ok(Unit::Section(Order::Big))
    } else {
        Err(Fault::ByteOrder)
    }
}

/// Returns the header of the pcap file that begins with these bytes, by its magic number.
#[tactic(auto, unfolding(crate::specs::Units::header_unit))]
fn header(front: &[u8]) -> Result<Unit, Fault>
    requires { UNIT_FRONT ≤ length front.now }
    ensures { result ≡ header_unit front.now }
{
    match Order::Little.word_at(front, 0) {
        MICROS_MAGIC => Ok(Unit::Header(Order::Little, Clock::Micros)),
        NANOS_MAGIC => Ok(Unit::Header(Order::Little, Clock::Nanos)),
        _ => {
            match Order::Big.word_at(front, 0) {
                MICROS_MAGIC => Ok(Unit::Header(Order::Big, Clock::Micros)),
                NANOS_MAGIC => Ok(Unit::Header(Order::Big, Clock::Nanos)),
                _ => Err(Fault::Format),
            }
        }
    }
}

/// Returns the length of a block.
#[tactic(auto, unfolding(crate::specs::Units::block_size))]
fn block_len(len: u32) -> Result<usize, Fault>
    ensures value { result ≡ block_size len }
    ensures least { IfOk result (λ size. 12 ≤ size) }
    ensures most { IfOk result (λ size. size ≤ GREATEST_UNIT) }
{
    if len < 12 || len % 4 != 0 {
        Err(Fault::Length)
    } else if len as usize > GREATEST_UNIT {
        Err(Fault::TooLong)
    } else {
        Ok(len as usize)
    }
}

/// Returns the length of a record with this number of captured bytes.
#[tactic(auto, unfolding(crate::specs::Units::record_size))]
fn record_len(captured: u32) -> Result<usize, Fault>
    ensures value { result ≡ record_size captured }
    ensures least { IfOk result (λ size. 16 ≤ size) }
    ensures most { IfOk result (λ size. size ≤ GREATEST_UNIT) }
{
    let len = 16 + captured as usize;
    if len > GREATEST_UNIT {
        Err(Fault::TooLong)
    } else {
        Ok(len)
    }
}
