//! Reading a capture, a unit at a time, or as a whole.
ghost use Rattle.std.specs.Prelude.{◌≡◌, ℕ, ◌+◌, ◌≤◌, ◌<◌, length, IfOk, IfErr, OnOk, OnErr};
ghost use Rattle.capture.specs.Units.{least_size};
ghost use Rattle.capture.specs.Recording.{Progress, at_start, section_content, interface_content, block_content, header_content, statistics_content, enhanced_content, no_packet, lost_by, body_of, content, content_of, Does, moved, next, ended, recorded_if, recording_of, read_capture as recording_in};

use crate::interface::{Interface, MOST_INTERFACES, fcs_in, fcs_on};
use crate::order::Order;
use crate::packet::{Packet, enhanced, from_record, simple};
use crate::stop::{CaptureEnd, Fault, NoStep};
use crate::unit::{Clock, Format, UNIT_FRONT, Unit};
use arrayvec::ArrayVec;
use std::alloc::{AllocError, Global};
use std::marker::Model;

// The types of blocks.
const INTERFACE_TYPE: u32 = 1;

const OBSOLETE_TYPE: u32 = 2;

const SIMPLE_TYPE: u32 = 3;

const STATISTICS_TYPE: u32 = 5;

const ENHANCED_TYPE: u32 = 6;

/// The result of a step: the packet of the unit that was read, if it has one, and the number of the unit's bytes.
#[derive(Clone, Copy, Debug, PartialEq, Eq)]
pub struct Step<'a> {
    pub packet: Option<Packet<'a>>,
    pub used: usize,
}

/// A reading of a capture, pcapng or pcap: its state after the units before the next one.
#[derive(Drop)]
pub struct Reading {
    format: Format,
    interfaces: ArrayVec<Interface, MOST_INTERFACES>,
    // The packets that were lost in earlier sections.
    lost_before: u64,
}

impl Model for Reading {
    ghost Value = { Progress };

    ghost view = { λ r. record { format = r.format; interfaces = r.interfaces.items; lost_before = r.lost_before } };
}

impl Reading {
    /// Creates a reading that has read nothing.
    pub fn new() -> Reading
        ensures { result ≡ at_start }
    {
        Reading {
            format: Format::Unknown,
            interfaces: ArrayVec::new(),
            lost_before: 0,
        }
    }

    /// Returns the number of packets that were lost so far, as the recorder told.
    #[tactic(auto, using(crate::proofs::Counts::lost_more, crate::proofs::Counts::lost_done))]
    pub fn lost(&self) -> u64
        ensures { result ≡ lost_by self.now }
    {
        let mut lost = self.lost_before;
        for interface in self.interfaces.iter() {
            lost = lost.saturating_add(interface.losses.total());
        }
        lost
    }

    /// Returns the end of the capture after a reading that stopped: `at` bytes of it were read, and `rest` is all that
    /// is left.
    pub fn end(&self, at: u64, rest: &[u8], stop: NoStep) -> CaptureEnd
        ensures { result ≡ ended self.now.format at rest.now stop }
    {
        match stop {
            NoStep::Malformed(fault) => CaptureEnd::Broken(at, fault),
            NoStep::More if rest.len() == 0 && self.format != Format::Unknown => CaptureEnd::Whole,
            NoStep::More => CaptureEnd::CutOff(at),
        }
    }

    /// Reads the unit that begins the window. The bytes that it used are left out of the next window: a second step
    /// over them would count the losses that they tell again.
    #[tactic(auto, unfolding(crate::specs::Recording::next))]
    pub fn step<'a>(&mut self, window: &'a [u8]) -> Result<Step<'a>, NoStep>
        ensures ok { IfOk result (λ s. next self.old window.now
            ≡ Ok (moved s.used (content self.new (recorded_if s.packet)))) }
        ensures err { IfErr result (λ stop. next self.old window.now ≡ Err stop) }
        ensures unchanged { OnErr result (self.new ≡ self.old) }
        ensures some { IfOk result (λ s. UNIT_FRONT ≤ s.used) }
        ensures within { IfOk result (λ s. s.used ≤ length window.now) }
    {
        if window.len() < UNIT_FRONT {
            return Err(NoStep::More);
        }
        let unit = Unit::of(self.format, window).map_err(NoStep::Malformed)?;
        let used = unit.size(window).map_err(NoStep::Malformed)?;
        if window.len() < used {
            return Err(NoStep::More);
        }
        let taken = self.take(unit, &window[..used]);
        let packet = taken.map_err(NoStep::Malformed)?;
        Ok(Step { packet, used })
    }

    /// Takes the content of a whole unit.
    #[tactic(auto, unfolding(crate::specs::Recording::content_of))]
    fn take<'a>(&mut self, unit: Unit, whole: &'a [u8]) -> Result<Option<Packet<'a>>, Fault>
        requires { least_size unit ≤ length whole.now }
        ensures { Does self.old self.new result (content_of self.old unit whole.now) }
    {
        match unit {
            Unit::Section(order) => self.begin_section(order, body(order, whole)?),
            Unit::Block(order) => {
                self.take_block(order, order.word_at(whole, 0), body(order, whole)?)
            }
            Unit::Header(order, clock) => self.begin_records(order, clock, whole),
            Unit::Record(order, clock) => {
                let fcs = fcs_on(self.interfaces.as_slice(), 0);
                Ok(Some(from_record(order, clock, fcs, whole)))
            }
        }
    }

    /// Begins a section of pcapng, which has no interfaces yet.
    #[tactic(auto, unfolding(crate::specs::Recording::section_content))]
    fn begin_section<'a>(
        &mut self,
        order: Order,
        body: &'a [u8],
    ) -> Result<Option<Packet<'a>>, Fault>
        ensures { Does self.old self.new result (section_content self.old order body.now) }
    {
        if body.len() < 16 {
            return Err(Fault::Length);
        }
        if order.half_at(body, 4) != 1 {
            return Err(Fault::Version);
        }
        self.lost_before = self.lost();
        self.format = Format::Blocks(order);
        self.interfaces.clear();
        Ok(None)
    }

    /// Begins the records of pcap, all of one interface.
    #[tactic(auto, unfolding(crate::specs::Recording::header_content))]
    fn begin_records<'a>(
        &mut self,
        order: Order,
        clock: Clock,
        whole: &'a [u8],
    ) -> Result<Option<Packet<'a>>, Fault>
        requires { 24 ≤ length whole.now }
        ensures { Does self.old self.new result (header_content self.old order clock whole.now) }
    {
        if order.half_at(whole, 4) != 2 {
            return Err(Fault::Version);
        }
        let link = order.word_at(whole, 20);
        if link % 0x1_0000 != 1 {
            return Err(Fault::LinkType);
        }
        self.format = Format::Records(order, clock);
        self.interfaces.clear();
        self.interfaces.push(Interface {
            fcs: fcs_in(link),
            ..Interface::new(order.word_at(whole, 16))
        });
        Ok(None)
    }

    /// Takes one more interface.
    #[tactic(auto, unfolding(crate::specs::Recording::interface_content))]
    fn add_interface<'a>(
        &mut self,
        order: Order,
        body: &'a [u8],
    ) -> Result<Option<Packet<'a>>, Fault>
        ensures { Does self.old self.new result (interface_content self.old order body.now) }
    {
        if body.len() < 8 {
            return Err(Fault::Length);
        }
        if order.half_at(body, 0) != 1 {
            return Err(Fault::LinkType);
        }
        if self.interfaces.len() >= MOST_INTERFACES {
            return Err(Fault::Interfaces);
        }
        let plain = Interface::new(order.word_at(body, 4));
        let interface = plain.with_options(order, &body[8..])?;
        self.interfaces.push(interface);
        Ok(None)
    }

    /// Takes a block, by its type.
    #[tactic(auto, unfolding(crate::specs::Recording::block_content))]
    fn take_block<'a>(
        &mut self,
        order: Order,
        kind: u32,
        body: &'a [u8],
    ) -> Result<Option<Packet<'a>>, Fault>
        ensures { Does self.old self.new result (block_content self.old order kind body.now) }
    {
        match kind {
            INTERFACE_TYPE => self.add_interface(order, body),
            OBSOLETE_TYPE => Err(Fault::Obsolete),
            SIMPLE_TYPE => Ok(Some(simple(order, self.interfaces.as_slice(), body)?)),
            STATISTICS_TYPE => {
                self.take_statistics(order, body);
                Ok(None)
            }
            ENHANCED_TYPE => self.take_enhanced(order, body),
            _ => Ok(None),
        }
    }

    /// Takes the statistics of an interface.
    #[tactic(auto, using(crate::proofs::Counts::losses_at, crate::proofs::Counts::losses_past), unfolding(crate::specs::Recording::statistics_content))]
    fn take_statistics(&mut self, order: Order, body: &[u8])
        ensures { no_packet self.new ≡ statistics_content self.old order body.now }
    {
        if body.len() < 12 {
            return;
        }
        let number = order.word_at(body, 0) as usize;
        if let Some(interface) = self.interfaces.get_mut(number) {
            interface.losses = interface.losses.with_statistics(order, body);
        }
    }

    /// Takes an enhanced packet block.
    #[tactic(auto, using(crate::proofs::Counts::losses_at, crate::proofs::Counts::losses_past), unfolding(crate::specs::Recording::enhanced_content))]
    fn take_enhanced<'a>(
        &mut self,
        order: Order,
        body: &'a [u8],
    ) -> Result<Option<Packet<'a>>, Fault>
        ensures { Does self.old self.new result (enhanced_content self.old order body.now) }
    {
        let packet = enhanced(order, self.interfaces.as_slice(), body)?;
        let number = packet.interface as usize;
        if let Some(interface) = self.interfaces.get_mut(number) {
            interface.losses = interface.losses.with_packet(order, body);
        }
        Ok(Some(packet))
    }
}

/// Returns the body of a block.
#[tactic(auto, unfolding(crate::specs::Recording::body_of))]
fn body<'a>(order: Order, whole: &'a [u8]) -> Result<&'a [u8], Fault>
    requires { 12 ≤ length whole.now }
    ensures ok { IfOk result (λ inside. body_of order whole.now ≡ Ok inside.now) }
    ensures err { IfErr result (λ fault. body_of order whole.now ≡ Err fault) }
{
    let end = whole.len() - 4;
    if order.word_at(whole, end) as usize != whole.len() {
        return Err(Fault::EndLength);
    }
    Ok(&whole[8..end])
}

/// The packets that were read of a capture, in their order, the number of packets that were lost, as the recorder told,
/// and the end of the reading.
#[derive(Debug, Drop)]
pub struct Recording<'a> {
    pub packets: Vec<Packet<'a>>,
    pub lost: u64,
    pub end: CaptureEnd,
}

/// Reads a capture that is in memory as a whole. Fails only if memory runs out; a fault of the capture is in `end`.
pub fn read_capture<'a>(alloc: Global, bytes: &'a [u8]) -> Result<Recording<'a>, AllocError>
    ensures { IfOk result (λ r. recording_of r ≡ recording_in bytes.now) }
{
    let mut reading = Reading::new();
    let mut packets = Vec::new(alloc);
    let mut used = 0;
    'units: loop {
        match reading.step(&bytes[used..]) {
            Ok(step) => {
                used += step.used;
                match step.packet {
                    Some(packet) => packets.push(packet)?,
                    None => {}
                }
            }
            Err(stop) => {
                let end = reading.end(used as u64, &bytes[used..], stop);
                let lost = reading.lost();
                return Ok(Recording { packets, lost, end });
            }
        }
    }
}
