//! The reasons for which a reading stops, and the end of a capture.
use crate::interface::MOST_INTERFACES;
use crate::unit::GREATEST_UNIT;
use thiserror::Error;

/// The end of a capture, after the packets that were read.
#[derive(Clone, Copy, Debug, PartialEq, Eq)]
pub enum CaptureEnd {
    /// With its last block or record.
    Whole,
    /// In the block or the record that begins at this byte, or before its first one.
    CutOff(u64),
    /// The block or the record that begins at this byte is malformed.
    Broken(u64, Fault),
}

/// The faults of a capture.
#[derive(Clone, Copy, Debug, PartialEq, Eq, Error)]
pub enum Fault {
    #[error("the first bytes begin neither pcapng nor pcap")]
    Format,
    #[error("the byte-order magic of a section is none")]
    ByteOrder,
    #[error("the major version isn't 1 in pcapng, or 2 in pcap")]
    Version,
    #[error("a block's length is no multiple of 4, or too short for its type")]
    Length,
    #[error("a block or a record is longer than {GREATEST_UNIT} bytes")]
    TooLong,
    #[error("a block has another length at its end than in front")]
    EndLength,
    #[error("the link type of an interface isn't Ethernet")]
    LinkType,
    #[error("an option runs past the end of its block, or its value has a wrong length")]
    BadOption,
    #[error("a section has more than {MOST_INTERFACES} interfaces")]
    Interfaces,
    #[error("a packet block has the type that the format has given up (2), which isn't read")]
    Obsolete,
    #[error("a packet names an interface that its section doesn't describe")]
    NoInterface,
    #[error("the bytes of a packet run past the end of its block")]
    Captured,
    #[error("the time of a packet is before 1970")]
    Time,
}

/// The reasons for which no step was taken.
#[derive(Clone, Copy, Debug, PartialEq, Eq, Error)]
pub enum NoStep {
    #[error("the window ends before the next block or record does")]
    More,
    #[error("the next block or record is malformed: {0}")]
    Malformed(Fault),
}
