//! A capture that is read in pieces.
ghost use Rattle.std.specs.Prelude.{◌≤◌, length, vec_len, IfSome};

use crate::findings::NoFrames;
use crate::hearing::Hearing;
use crate::stop::{Cause, Stop};
use afdx_frame::Net;
use capture::{CaptureEnd, Fault, GREATEST_UNIT, NoStep, Packet, Reading};
use std::alloc::{AllocError, Global};
use std::fmt;
use std::fs::File;
use std::io::{ErrorKind, Read, Write};
use tx_script::RunFault;

// The bytes of the window: any unit fits in one half.
const WINDOW: usize = 2 * GREATEST_UNIT;

// The most bytes that are read at once. They stay in the processor's cache until they are judged.
const PIECE: usize = 0x1_0000;

/// The packets of a capture that are judged, and their networks.
#[derive(Clone, Copy)]
pub enum Part {
    /// The packets of both networks, by their interfaces.
    Both,
    /// The packets of one network, by their interfaces.
    Interface(Net),
    /// All packets, as packets of this network.
    File(Net),
}

impl Part {
    /// Returns the network of a packet, given its interface's, if the packet is judged.
    fn heard(self, network: Option<Net>) -> Option<Net> {
        match self {
            Part::Both => network,
            Part::Interface(net) => if network == Some(net) { network } else { None },
            Part::File(net) => Some(net),
        }
    }
}

/// The numbers of packets that were read, and of those that came from other interfaces.
#[derive(Clone, Copy)]
struct Counts {
    packets: u64,
    others: u64,
}

impl Counts {
    /// Counts a packet of the capture with this number, and has it judged if it has a network.
    fn take<'a, W: Write>(
        &mut self,
        writer: &mut W,
        hearing: &mut Hearing,
        capture: u8,
        net: Option<Net>,
        packet: &Packet<'_>,
    ) -> Result<(), Stop<'a>> {
        self.packets = self.packets.saturating_add(1);
        match net {
            Some(net) => hearing.hear(writer, capture, net, self.packets, packet)?,
            None if packet.network.is_some() => {}
            None => self.others = self.others.saturating_add(1),
        }
        Ok(())
    }
}

/// A packet that was read and not judged, if there is one, and its bytes. A second step over it would count its losses
/// twice.
#[derive(Drop)]
struct Ahead {
    kept: Option<Kept>,
    bytes: Vec<u8>,
}

/// A packet without its bytes, and the network whose packet it is.
#[derive(Clone, Copy)]
struct Kept {
    net: Net,
    interface: u32,
    network: Option<Net>,
    at: Option<u128>,
    original: u32,
    fcs: Option<bool>,
}

impl Ahead {
    /// Keeps a packet.
    fn keep(&mut self, net: Net, packet: &Packet<'_>) -> Result<(), AllocError> {
        self.bytes.clear();
        self.bytes.extend_from_slice(packet.bytes)?;
        self.kept = Some(Kept {
            net,
            interface: packet.interface,
            network: packet.network,
            at: packet.at,
            original: packet.original,
            fcs: packet.fcs,
        });
        Ok(())
    }

    /// Returns a packet that was kept.
    fn packet(&self, kept: Kept) -> Packet<'_> {
        Packet {
            interface: kept.interface,
            network: kept.network,
            at: kept.at,
            original: kept.original,
            bytes: self.bytes.as_slice(),
            fcs: kept.fcs,
        }
    }
}

/// Returns whether a packet of this time is later than another time; each is later than none.
fn is_later(at: Option<u128>, until: Option<u128>) -> bool {
    !matches!(until, Some(time) if at.unwrap_or(0) <= time)
}

/// A capture, and a window on it. `Display` prints the number of packets that were read, the numbers of packets from
/// other interfaces and of packets that the recorder lost, and the end.
#[derive(Drop)]
pub struct Source<'a> {
    file: File,
    path: &'a str,
    // The number of the capture.
    number: u8,
    part: Part,
    reading: Reading,
    window: Vec<u8>,
    // The bytes of the window that are read and not used.
    start: usize,
    end: usize,
    // The bytes of the capture that are used.
    used: u64,
    counts: Counts,
    ahead: Ahead,
    // The time of the next packet, at first the least, and the end of the capture once it is read.
    next: u128,
    ended: Option<CaptureEnd>,
    // The link type that ended it.
    link_type: Option<u16>,
    ghost ordered: { start ≤ end },
    ghost within: { end ≤ vec_len window },
}

impl<'a> Source<'a> {
    /// Creates the source of a capture with this number, before anything is read of its file.
    pub fn new(
        alloc: Global,
        file: File,
        path: &'a str,
        number: u8,
        part: Part,
    ) -> Result<Source<'a>, AllocError> {
        Ok(Source {
            file,
            path,
            number,
            part,
            reading: Reading::new(),
            window: vec![in alloc; 0u8; WINDOW]?,
            start: 0,
            end: 0,
            used: 0,
            counts: Counts {
                packets: 0,
                others: 0,
            },
            ahead: Ahead {
                kept: None,
                bytes: Vec::new(alloc),
            },
            next: 0,
            ended: None,
            link_type: None,
        })
    }

    /// Returns the time of the next packet, or `None` at the end. Before anything is read, any packet may be next.
    pub fn next(&self) -> Option<u128> {
        match self.ended {
            Some(_) => None,
            None => Some(self.next),
        }
    }

    /// Judges the packets up to time `until`; the first later one stays for the next call. Without a time, stops before
    /// the first packet.
    pub fn read_until<W: Write>(
        &mut self,
        until: Option<u128>,
        hearing: &mut Hearing,
        writer: &mut W,
    ) -> Result<(), Stop<'a>> {
        if !self.take_kept(until, hearing, writer)? {
            return Ok(());
        }
        for _ in 0..u64::MAX {
            let rest = &self.window.as_slice()[self.start..self.end];
            match self.reading.step(rest) {
                Ok(step) => {
                    self.start += step.used;
                    self.used = self.used.saturating_add(step.used as u64);
                    let Some(packet) = step.packet else {
                        continue;
                    };
                    match self.part.heard(packet.network) {
                        Some(net) if is_later(packet.at, until) => {
                            self.next = packet.at.unwrap_or(0);
                            self.ahead.keep(net, &packet)?;
                            return Ok(());
                        }
                        net => {
                            self.counts
                                .take(writer, hearing, self.number, net, &packet)?
                        }
                    }
                }
                Err(stop) => {
                    if stop != NoStep::More || !self.fill()? {
                        self.finish(stop);
                        return Ok(());
                    }
                }
            }
        }
        Ok(())
    }

    /// Judges the packet that was kept, if it isn't later than `until`. Returns whether none is kept any more.
    fn take_kept<W: Write>(
        &mut self,
        until: Option<u128>,
        hearing: &mut Hearing,
        writer: &mut W,
    ) -> Result<bool, Stop<'a>> {
        let Some(kept) = self.ahead.kept else {
            return Ok(true);
        };
        if is_later(kept.at, until) {
            return Ok(false);
        }
        self.ahead.kept = None;
        let (net, packet) = (Some(kept.net), self.ahead.packet(kept));
        self.counts
            .take(writer, hearing, self.number, net, &packet)?;
        Ok(true)
    }

    /// Ends the reading, which stopped at the front of the window.
    fn finish(&mut self, stop: NoStep) {
        let rest = &self.window.as_slice()[self.start..self.end];
        self.ended = Some(self.reading.end(self.used, rest, stop));
        if stop == NoStep::Malformed(Fault::LinkType) {
            self.link_type = link_type_in(rest);
        }
    }

    /// Moves the unused bytes to the front of the window, and reads more. Returns false if there was no more.
    fn fill(&mut self) -> Result<bool, Stop<'a>> {
        self.window
            .as_mut_slice()
            .copy_within(self.start..self.end, 0);
        self.end -= self.start;
        self.start = 0;
        let room = &mut self.window.as_mut_slice()[self.end..];
        let most = room.len().min(PIECE);
        match read_some(&mut self.file, &mut room[..most]) {
            Some(count) => {
                self.end += count;
                Ok(count > 0)
            }
            None => Err(Stop::by_file(RunFault::Read, self.path, Cause::Unread)),
        }
    }

    /// Returns the end of the capture.
    fn ending(&self) -> CaptureEnd {
        self.ended.unwrap_or(CaptureEnd::CutOff(self.used))
    }

    /// Returns true if the capture was read to its end.
    pub fn is_whole(&self) -> bool {
        self.ending() == CaptureEnd::Whole
    }

    /// Returns the number of packets that the recorder lost, as it told so far.
    pub fn lost(&self) -> u64 {
        self.reading.lost()
    }

    /// Returns true if the capture was read to its end, and its recorder lost no packet.
    pub fn is_complete(&self) -> bool {
        self.is_whole() && self.lost() == 0
    }

    /// Returns the reason that the file is no capture of Ethernet frames. `None` if it has a packet, is whole, or
    /// hasn't ended.
    pub fn no_frames(&self) -> Option<NoFrames> {
        if self.ended.is_none() || self.counts.packets > 0 || self.is_whole() {
            return None;
        }
        Some(match (self.ending(), self.link_type) {
            (_, Some(number)) => NoFrames::OtherLink(number),
            (CaptureEnd::Broken(_, Fault::Format), _) => NoFrames::OtherFormat,
            _ => NoFrames::NoPacket,
        })
    }

    /// Returns the number of packets that were read.
    pub fn packets(&self) -> u64 {
        self.counts.packets
    }

    /// Returns how many of the packets that were read came from other interfaces.
    pub fn others(&self) -> u64 {
        self.counts.others
    }
}

/// Returns the link type in a unit: the header of pcap or the block of an interface.
fn link_type_in(unit: &[u8]) -> Option<u16> {
    match unit.get(..4)? {
        [0xd4, 0xc3, 0xb2, 0xa1] | [0x4d, 0x3c, 0xb2, 0xa1] => half_in(unit, 20, false),
        [0xa1, 0xb2, 0xc3, 0xd4] | [0xa1, 0xb2, 0x3c, 0x4d] => half_in(unit, 22, true),
        [1, 0, 0, 0] => half_in(unit, 8, false),
        _ => half_in(unit, 8, true),
    }
}

/// Returns the number that two bytes of a unit make, the high one first or last.
fn half_in(unit: &[u8], at: usize, is_high_first: bool) -> Option<u16> {
    let (one, other) = (*unit.get(at)?, *unit.get(at.saturating_add(1))?);
    Some(if is_high_first {
        u16::from_be_bytes([one, other])
    } else {
        u16::from_le_bytes([one, other])
    })
}

impl fmt::Display for Source<'_> {
    fn fmt<W: fmt::Write>(&self, f: &mut fmt::Formatter<W>) -> fmt::Result {
        let (packets, others, lost) = (self.packets(), self.others(), self.lost());
        write!(f, "{packets} packets")?;
        if others > 0 {
            write!(f, ", {others} of other interfaces")?;
        }
        if lost > 0 {
            write!(f, ", {lost} lost by the recorder")?;
        }
        match self.ending() {
            CaptureEnd::Whole => Ok(()),
            CaptureEnd::CutOff(at) => write!(f, ", cut off at byte {at}"),
            CaptureEnd::Broken(_, Fault::Format) => f.write_str(", neither pcapng nor pcap"),
            CaptureEnd::Broken(at, fault) => match self.link_type {
                Some(number) => write!(f, ", link type {number} at byte {at}"),
                None => write!(f, ", malformed at byte {at}: {fault:?}"),
            },
        }
    }
}

/// Reads once, and again after an interruption. Returns the number of bytes that were read: 0 at the end of the file,
/// or if there is no room. `None` if the file can't be read.
fn read_some(file: &mut File, room: &mut [u8]) -> Option<usize>
    ensures { IfSome result (λ count. count ≤ length room.old) }
{
    for _ in 0..u64::MAX {
        match file.read(room) {
            Ok(count) => return Some(count),
            Err(error) if error.kind() == ErrorKind::Interrupted => {}
            Err(_) => return None,
        }
    }
    None
}
