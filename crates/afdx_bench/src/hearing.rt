//! The judges of a recording, and what came of the packets that they heard: findings, how many there are, foreign
//! frames, silent links, and the rows of links.
use crate::addresses::{Addresses, Rewriting, net_of};
use crate::findings::{FindingLine, Tally, mark_of, network_name};
use crate::foreign::Foreign;
use crate::link_row::write_table;
use crate::stop::Stop;
use afdx_frame::Net;
use afdx_plan::{Config, LinkPlan};
use capture::Packet;
use judge::{Addressing, Figures, Finding, FindingKind, Judge, Options, Tap};
use plan_analysis::carries;
use std::alloc::{AllocError, Global};
use std::io::{self, Write};

// The nanoseconds of a second.
const SECOND: u128 = 1_000_000_000;

// The most interfaces that are told.
const INTERFACES: usize = 64;

/// The ways in which packets are heard.
#[derive(Clone, Copy)]
pub struct Ways {
    /// Frames of other sources are counted, and not judged.
    pub foreign: bool,
    /// The network of a frame is what its byte 11 says.
    pub by_byte: bool,
    /// The addresses of frames, if they aren't the profile's.
    pub addressing: Option<Addressing>,
    /// The nanoseconds of the recording after which the rows are written each time.
    pub every: Option<u128>,
    /// Findings are kept and not written.
    pub is_quiet: bool,
}

/// An interface of a capture, and the network that it was taken for.
#[derive(Clone, Copy, PartialEq, Eq)]
pub struct Taken {
    pub net: Net,
    pub capture: u8,
    pub interface: u32,
}

/// The judges, and what they found.
#[derive(Drop)]
pub struct Hearing {
    pub tap: Tap,
    pub tally: Tally,
    pub foreign: Foreign,
    /// The first findings of each kind.
    pub kept: Vec<Finding>,
    pub taken: Vec<Taken>,
    /// The times of the first packet and of the latest.
    pub times: Option<(u128, u128)>,
    ways: Ways,
    rewriting: Option<Rewriting>,
    // the findings of one packet
    found: Vec<Finding>,
    // when the rows are written next
    due: Option<u128>,
}

impl Hearing {
    /// Judges by these plans that have heard nothing.
    pub fn new(
        alloc: Global,
        plans: Vec<Config>,
        options: Options,
        ways: Ways,
    ) -> Result<Hearing, AllocError> {
        Ok(Hearing {
            tap: Tap::new(alloc, plans, options)?,
            tally: Tally::new(),
            foreign: Foreign::new(alloc),
            kept: Vec::new(alloc),
            taken: Vec::new(alloc),
            times: None,
            ways,
            rewriting: ways
                .addressing
                .map(|own| Rewriting::new(alloc, own, options.fcs)),
            found: Vec::new(alloc),
            due: None,
        })
    }

    /// Judges a packet that an interface of a network recorded, by its number in its capture, and writes the findings.
    /// A foreign frame is counted, if it isn't judged.
    pub fn hear<'a, W: Write>(
        &mut self,
        writer: &mut W,
        capture: u8,
        net: Net,
        number: u64,
        packet: &Packet<'_>,
    ) -> Result<(), Stop<'a>> {
        if let Some(at) = packet.at {
            self.times = match self.times {
                Some((first, latest)) => Some((first, latest.max(at))),
                None => Some((at, at)),
            };
        }
        if self.ways.foreign && self.tap.is_foreign(packet) {
            self.foreign.count(packet)?;
        } else {
            self.judge(capture, net, number, packet)?;
            self.tell(writer)?;
        }
        Ok(self.write_due(writer)?)
    }

    /// Judges a packet, and appends the findings.
    fn judge(
        &mut self,
        capture: u8,
        net: Net,
        number: u64,
        packet: &Packet<'_>,
    ) -> Result<(), AllocError> {
        let net = match packet.bytes.get(11) {
            Some(byte) if self.ways.by_byte => match net_of(self.ways.addressing, *byte) {
                Some(net) => net,
                None => return Ok(self.found.push(of_no_network(net, number, packet, *byte))?),
            },
            _ => net,
        };
        self.take(Taken {
            net,
            capture,
            interface: packet.interface,
        })?;
        let Some(rewriting) = &mut self.rewriting else {
            return self.tap.take(net, number, packet, &mut self.found);
        };
        let own = rewriting.packet(packet)?;
        self.tap.take(net, number, &own, &mut self.found)?;
        rewriting.restore(self.found.as_mut_slice());
        Ok(())
    }

    /// Keeps that an interface was taken for a network.
    fn take(&mut self, taken: Taken) -> Result<(), AllocError> {
        if self.taken.len() >= INTERFACES || self.taken.iter().any(|it| *it == taken) {
            return Ok(());
        }
        Ok(self.taken.push(taken)?)
    }

    /// Ends the recording, and writes the last findings, with silent links if they are wanted, and how many findings
    /// there are.
    pub fn write_findings<'a, W: Write>(
        &mut self,
        all_links: bool,
        writer: &mut W,
    ) -> Result<(), Stop<'a>> {
        self.tap.end(&mut self.found)?;
        self.tell(writer)?;
        if all_links {
            self.tell_silent(writer)?;
        }
        if self.ways.is_quiet {
            return Ok(());
        }
        self.tally.write_rest(writer)?;
        let tally = &self.tally;
        Ok(writeln!(writer, "{tally}")?)
    }

    /// Counts the findings of a packet, and writes those that are printed.
    fn tell<'a, W: Write>(&mut self, writer: &mut W) -> Result<(), Stop<'a>> {
        if self.found.is_empty() {
            return Ok(());
        }
        let mut is_told = false;
        for finding in self.found.iter() {
            if !self.tally.add(finding.kind) {
                continue;
            }
            keep(&mut self.kept, finding)?;
            if !self.ways.is_quiet {
                let line = FindingLine(finding);
                writeln!(writer, "{line}")?;
                is_told = true;
            }
        }
        self.found.clear();
        if is_told {
            writer.flush()?;
        }
        Ok(())
    }

    /// Counts each link without a frame on a network that carries it, and writes those that are printed.
    fn tell_silent<W: Write>(&mut self, writer: &mut W) -> io::Result<()> {
        for id in self.tap.end_systems() {
            let Some(judge) = self.tap.judge_of(*id) else {
                continue;
            };
            for (place, link) in judge.config().links().iter().enumerate() {
                for net in [Net::A, Net::B] {
                    if is_silent(judge, place, link, net)
                        && self.tally.add_silent()
                        && !self.ways.is_quiet
                    {
                        let (id, network) = (link.id.0, network_name(net));
                        writeln!(writer, "- {network} - vl {id} Silent")?;
                    }
                }
            }
        }
        Ok(())
    }

    /// Writes the rows so far, if so much was recorded since they were written.
    fn write_due<W: Write>(&mut self, writer: &mut W) -> io::Result<()> {
        let (Some(every), Some((first, latest))) = (self.ways.every, self.times) else {
            return Ok(());
        };
        let due = self.due.unwrap_or(first.saturating_add(every));
        if latest < due {
            self.due = Some(due);
            return Ok(());
        }
        self.due = Some(latest.saturating_add(every));
        if self.ways.is_quiet {
            return Ok(());
        }
        let (seconds, nanos, tally) = (latest / SECOND, latest % SECOND, &self.tally);
        writeln!(writer, "at {seconds}.{nanos:09}: {tally}")?;
        self.write_rows(writer)?;
        writer.flush()
    }

    /// Writes which interface was taken for which network, the addresses if they were given, the links without a frame,
    /// the foreign frames, and the rows.
    pub fn write_summary<W: Write>(&self, writer: &mut W) -> io::Result<()> {
        self.write_taken(writer)?;
        if let Some(own) = self.ways.addressing {
            let own = Addresses(own);
            writeln!(writer, "addresses: {own}")?;
        }
        for id in self.tap.end_systems() {
            let Some(judge) = self.tap.judge_of(*id) else {
                continue;
            };
            self.write_silence(writer, judge)?;
        }
        self.foreign.write(writer)?;
        self.write_rows(writer)
    }

    /// Writes which interface was taken for which network, if any was.
    fn write_taken<W: Write>(&self, writer: &mut W) -> io::Result<()> {
        let mut is_first = true;
        for net in [Net::A, Net::B] {
            for taken in self.taken.iter() {
                if taken.net == net {
                    let (mark, network) = (mark_of(is_first, "networks: "), network_name(net));
                    let (capture, interface) = (taken.capture, taken.interface);
                    write!(
                        writer,
                        "{mark}{network} is interface {interface} of capture {capture}"
                    )?;
                    is_first = false;
                }
            }
        }
        if !is_first {
            writer.write_all(b"\n")?;
        }
        Ok(())
    }

    /// Returns whether several plans are judged by.
    fn has_several(&self) -> bool {
        self.tap.end_systems().len() > 1
    }

    /// Writes a line of the networks of a plan without a frame, and of the links without one on another network.
    fn write_silence<W: Write>(&self, writer: &mut W, judge: &Judge) -> io::Result<()> {
        let mut is_first = true;
        for net in [Net::A, Net::B] {
            let (is_whole, mut is_told) = (is_quiet_on(judge, net), false);
            for (place, link) in judge.config().links().iter().enumerate() {
                if !is_silent(judge, place, link, net) || is_whole && is_told {
                    continue;
                }
                if is_first {
                    self.write_whose(writer, judge)?;
                }
                let (id, network, mark) = (link.id.0, network_name(net), mark_of(is_first, ": "));
                if is_whole {
                    write!(writer, "{mark}network {network}")?;
                } else {
                    write!(writer, "{mark}link {id} on {network}")?;
                }
                (is_first, is_told) = (false, true);
            }
        }
        if !is_first {
            writer.write_all(b"\n")?;
        }
        Ok(())
    }

    /// Writes what begins the line of silence.
    fn write_whose<W: Write>(&self, writer: &mut W, judge: &Judge) -> io::Result<()> {
        if self.has_several() {
            let id = judge.config().end_system();
            write!(writer, "end system {id}, ")?;
        }
        writer.write_all(b"without a frame")
    }

    /// Writes a row for each link and each network that carries it; of several plans, each after the line of its end
    /// system.
    fn write_rows<W: Write>(&self, writer: &mut W) -> io::Result<()> {
        for id in self.tap.end_systems() {
            let Some(judge) = self.tap.judge_of(*id) else {
                continue;
            };
            if self.has_several() {
                let id = judge.config().end_system();
                writeln!(writer, "end system {id}")?;
            }
            write_table(writer, judge)?;
        }
        Ok(())
    }
}

/// Appends a finding.
fn keep(kept: &mut Vec<Finding>, finding: &Finding) -> Result<(), AllocError> {
    Ok(kept.push(*finding)?)
}

/// Returns the finding of a packet whose byte 11 names no network.
fn of_no_network(net: Net, number: u64, packet: &Packet<'_>, byte: u8) -> Finding {
    Finding {
        kind: FindingKind::Network,
        packet: number,
        net,
        at: packet.at.unwrap_or(0),
        link: None,
        seen: byte as u64,
        wanted: 0,
    }
}

/// Returns whether a network carries links of a plan, and none of them has a frame on it.
fn is_quiet_on(judge: &Judge, net: Net) -> bool {
    let mut links = judge.config().links().iter().enumerate();
    !links.any(|(place, link)| match figures_of(judge, place, link, net) {
        Some(figures) => figures.frames > 0,
        None => false,
    })
}

/// Returns whether a network carries a link, which has no frame on it.
pub fn is_silent(judge: &Judge, place: usize, link: &LinkPlan, net: Net) -> bool {
    match figures_of(judge, place, link, net) {
        Some(figures) => figures.frames == 0,
        None => false,
    }
}

/// Returns the figures of the link at a place on a network, if that carries it.
pub fn figures_of(judge: &Judge, place: usize, link: &LinkPlan, net: Net) -> Option<Figures> {
    if carries(net, link.networks) {
        judge.figures(place, net)
    } else {
        None
    }
}
