//! The line of a finding, and the counts of findings.
use afdx_frame::Net;
use judge::{Finding, FindingKind, FragmentMisfit, Layout};
use plan_report::Cell;
use std::{fmt, io};

// The nanoseconds of a second.
const SECOND: u128 = 1_000_000_000;

/// A finding, printed as a line without its end: the packet's number, network and time in seconds, its link, the kind
/// with its rule, and the numbers seen and wanted.
#[derive(Drop)]
pub struct FindingLine<'a>(pub &'a Finding);

impl fmt::Display for FindingLine<'_> {
    fn fmt<W: fmt::Write>(&self, f: &mut fmt::Formatter<W>) -> fmt::Result {
        let (packet, network) = (self.0.packet, network_name(self.0.net));
        let (seconds, nanos) = (self.0.at / SECOND, self.0.at % SECOND);
        let link = Cell(self.0.link.map(|id| id.0), "-");
        write!(f, "{packet} {network} {seconds}.{nanos:09} vl {link} ")?;
        write_kind(f, self.0)
    }
}

/// Returns the name of a network.
pub(crate) fn network_name(net: Net) -> &'static str {
    match net {
        Net::A => "A",
        Net::B => "B",
    }
}

/// Writes the kind, its rule, and the numbers.
fn write_kind<W: fmt::Write>(f: &mut fmt::Formatter<W>, finding: &Finding) -> fmt::Result {
    let (kind, seen, wanted) = (finding.kind, finding.seen, finding.wanted);
    match kind {
        FindingKind::Frame(rule) => match rule {
            Layout::Time => f.write_str("Frame Time"),
            Layout::Snapped | Layout::CheckSequence | Layout::Recorded | Layout::Length => {
                write!(f, "Frame {rule:?}: seen {seen}, wanted {wanted}")
            }
            _ => write!(f, "Frame {rule:?}: byte {seen}"),
        },
        FindingKind::Link => f.write_str("Link"),
        FindingKind::Fragment(FragmentMisfit::Addresses) => f.write_str("Fragment Addresses"),
        FindingKind::Fragment(FragmentMisfit::Repeated) => write!(
            f,
            "Fragment Repeated: seen {seen}"
        ),
        FindingKind::Fragment(rule) => write!(f, "Fragment {rule:?}: seen {seen}, wanted {wanted}"),
        FindingKind::Message(rule) => write!(f, "Message {rule:?}: seen {seen}, wanted {wanted}"),
        FindingKind::Turn => write!(f, "Turn: sub-VL {seen}, between pieces of sub-VL {wanted}"),
        FindingKind::Twin => write!(f, "Twin: byte {seen}, packet {wanted}"),
        FindingKind::Port | FindingKind::Missing => write!(f, "{kind:?}: seen {seen}"),
        _ => write!(f, "{kind:?}: seen {seen}, wanted {wanted}"),
    }
}

// The names of the kinds by their numbers, from 1; the last one is that of a link without a frame.
const KINDS: usize = 16;

const SILENT: usize = 15;

const NAMES: [&str; KINDS] = [
    "", "Frame", "Source", "Link", "Network", "Size", "Number", "Early", "Port", "Fragment",
    "Message", "Turn", "Twin", "Missing", "Restart", "Silent",
];

// The most findings of a kind that are printed.
const PRINTED: u64 = 100;

/// Returns the name of a kind.
pub fn kind_name(kind: FindingKind) -> &'static str {
    NAMES.get(kind.number() as usize).copied().unwrap_or("")
}

/// A file that is no capture of Ethernet frames, so that nothing was judged: its number, and the reason.
#[derive(Clone, Copy)]
pub struct NoCapture(pub u8, pub NoFrames);

/// The reason that a file is no capture of Ethernet frames.
#[derive(Clone, Copy, PartialEq, Eq)]
pub enum NoFrames {
    /// A file that begins as neither pcapng nor pcap.
    OtherFormat,
    /// A capture whose frames have this link type.
    OtherLink(u16),
    /// A capture that is cut off or malformed before its first packet.
    NoPacket,
}

impl fmt::Display for NoCapture {
    fn fmt<W: fmt::Write>(&self, f: &mut fmt::Formatter<W>) -> fmt::Result {
        let NoCapture(file, why) = self;
        write!(f, "nothing judged: capture {file} ")?;
        match why {
            NoFrames::OtherFormat => f.write_str("is neither pcapng nor pcap")?,
            NoFrames::OtherLink(number) => {
                write!(f, "has link type {number}, not Ethernet's, which is 1")?
            }
            NoFrames::NoPacket => f.write_str("ends before its first packet")?,
        }
        f.write_str("; record one interface, as tcpdump -i eth1 -w FILE does")
    }
}

/// The number of findings of each kind. Counts stop at their greatest value. `Display` prints the line of them, or that
/// nothing was judged.
#[derive(Drop)]
pub struct Tally {
    counts: [u64; KINDS],
    /// The reason that nothing was judged.
    pub no_capture: Option<NoCapture>,
}

impl Tally {
    /// Creates a tally without findings.
    pub fn new() -> Tally {
        Tally {
            counts: [0; KINDS],
            no_capture: None,
        }
    }

    /// Counts a finding. Returns whether it is one of the first of its kind, which are printed.
    pub fn add(&mut self, kind: FindingKind) -> bool {
        self.count(kind.number() as usize)
    }

    /// Counts a link without a frame on a network. Returns whether it is one of the first.
    pub fn add_silent(&mut self) -> bool {
        self.count(SILENT)
    }

    fn count(&mut self, place: usize) -> bool {
        match self.counts.get_mut(place) {
            Some(count) => {
                *count = count.saturating_add(1);
                *count <= PRINTED
            }
            None => false,
        }
    }

    /// Returns the names of the kinds, each with its number of findings.
    pub fn counts(&self) -> [(&'static str, u64); KINDS] {
        let mut counts = [("", 0); KINDS];
        for ((place, name), count) in counts.iter_mut().zip(NAMES.iter()).zip(self.counts.iter()) {
            *place = (*name, *count);
        }
        counts
    }

    /// Writes how many findings aren't printed, if any aren't.
    pub fn write_rest<W: io::Write>(&self, writer: &mut W) -> io::Result<()> {
        let mut is_first = true;
        for place in 0..KINDS {
            let more = self.counts[place].saturating_sub(PRINTED);
            if more > 0 {
                let (mark, name) = (mark_of(is_first, "and more: "), NAMES[place]);
                write!(writer, "{mark}{name} {more}")?;
                is_first = false;
            }
        }
        if !is_first {
            writer.write_all(b"\n")?;
        }
        Ok(())
    }

    /// Returns the number of findings.
    pub fn total(&self) -> u64 {
        let mut total: u64 = 0;
        for count in self.counts.iter() {
            total = total.saturating_add(*count);
        }
        total
    }
}

/// Returns the mark before an entry of a list: `first` before the first one, and a comma before the others.
pub(crate) fn mark_of(is_first: bool, first: &'static str) -> &'static str {
    if is_first { first } else { ", " }
}

impl fmt::Display for Tally {
    fn fmt<W: fmt::Write>(&self, f: &mut fmt::Formatter<W>) -> fmt::Result {
        if let Some(why) = &self.no_capture {
            return write!(f, "{why}");
        }
        let total = self.total();
        match total {
            0 => return f.write_str("no findings"),
            1 => f.write_str("1 finding")?,
            _ => write!(f, "{total} findings")?,
        }
        let mut is_first = true;
        for place in 0..KINDS {
            let count = self.counts[place];
            if count > 0 {
                let (mark, name) = (mark_of(is_first, ": "), NAMES[place]);
                write!(f, "{mark}{name} {count}")?;
                is_first = false;
            }
        }
        Ok(())
    }
}
