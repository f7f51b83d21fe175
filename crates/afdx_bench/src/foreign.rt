//! Frames of other makers' equipment on a tap: how many there are, by their source and their type.
use capture::Packet;
use std::alloc::{AllocError, Global};
use std::fmt;
use std::io::{self, Write};

// The most rows; further sources and types are counted in one more.
const ROWS: usize = 64;

/// Frames of one source MAC address and EtherType.
#[derive(Clone, Copy)]
pub struct ForeignRow {
    pub source: MacAddress,
    pub ether_type: u16,
    pub packets: u64,
}

/// A MAC address, printed in hexadecimal.
#[derive(Clone, Copy, PartialEq, Eq)]
pub struct MacAddress(pub [u8; 6]);

impl fmt::Display for MacAddress {
    fn fmt<W: fmt::Write>(&self, f: &mut fmt::Formatter<W>) -> fmt::Result {
        let [a, b, c, d, e, g] = self.0;
        write!(f, "{a:02x}:{b:02x}:{c:02x}:{d:02x}:{e:02x}:{g:02x}")
    }
}

/// The foreign frames of a recording. Counts stop at their greatest value.
#[derive(Drop)]
pub struct Foreign {
    pub rows: Vec<ForeignRow>,
    /// The number of frames without a row.
    pub others: u64,
}

impl Foreign {
    /// Creates the counts of a recording without foreign frames.
    pub fn new(alloc: Global) -> Foreign {
        Foreign {
            rows: Vec::new(alloc),
            others: 0,
        }
    }

    /// Counts a packet, of at least 14 bytes.
    pub fn count(&mut self, packet: &Packet<'_>) -> Result<(), AllocError> {
        let (_, [a, b, c, d, e, g, high, low, ..]) = packet
            .bytes
            .split_at(packet.bytes.len().min(6))
        else {
            self.others = self.others.saturating_add(1);
            return Ok(());
        };
        let source = MacAddress([*a, *b, *c, *d, *e, *g]);
        let ether_type = u16::from_be_bytes([*high, *low]);
        for row in self.rows.iter_mut() {
            if row.source == source && row.ether_type == ether_type {
                row.packets = row.packets.saturating_add(1);
                return Ok(());
            }
        }
        if self.rows.len() >= ROWS {
            self.others = self.others.saturating_add(1);
            return Ok(());
        }
        Ok(
            self.rows.push(ForeignRow {
                source,
                ether_type,
                packets: 1,
            })?,
        )
    }

    /// Writes a line for each row, and one for the others.
    pub fn write<W: Write>(&self, writer: &mut W) -> io::Result<()> {
        for row in self.rows.iter() {
            let ForeignRow {
                source,
                ether_type,
                packets,
            } = row;
            writeln!(
                writer,
                "foreign: {packets} of {source}, EtherType {ether_type:04x}"
            )?;
        }
        let others = self.others;
        if others > 0 {
            writeln!(writer, "foreign: {others} of others")?;
        }
        Ok(())
    }
}
