//! The findings of a judge.
ghost use Rattle.std.specs.Prelude.{◌≡◌, OnOk};
ghost use Rattle.judge.specs.Deviations.{kind_number, deviation, finding_of, with_finding};

use afdx_frame::{Layout, Net};
use afdx_plan::VlId;
use std::alloc::AllocError;

/// The ways in which a frame isn't the next piece of its sub-VL's message.
#[derive(Clone, Copy, Debug, PartialEq, Eq)]
pub enum FragmentMisfit {
    /// The piece begins at byte `seen` of the datagram; `wanted` is the byte after the piece before it, or 0.
    Offset,
    /// The identification is `seen`, and `wanted` is the message's, or the next message's.
    Identification,
    /// The piece has other addresses than the message's first piece. Both numbers are 0.
    Addresses,
    /// The piece has `seen` bytes. With more to follow it is `wanted`, the greatest multiple of 8 that fits into a
    /// frame. A last piece has at least `wanted`, since fewer had fitted into the frame before it.
    Length,
    /// The identification is `seen`, as in the message before; both have more pieces. `wanted` is 0. Only by ARINC 664
    /// alone.
    Repeated,
}

/// The faults of a message, as its last frame shows them.
#[derive(Clone, Copy, Debug, PartialEq, Eq)]
pub enum Ending {
    /// The UDP length is `seen`, and the datagram has `wanted` bytes.
    UdpLength,
    /// The message has `seen` bytes: none, or more than the port's `max`, which is `wanted`.
    Size,
    /// The UDP checksum is `seen`, and `wanted` is right.
    UdpChecksum,
}

/// The kinds of findings. Each is about one frame.
#[derive(Clone, Copy, Debug, PartialEq, Eq)]
pub enum FindingKind {
    /// The frame doesn't have the layout.
    Frame(Layout),
    /// The frame's end system is `seen`, and the plan's is `wanted`.
    Source,
    /// The frame's link is `seen`, which isn't in the plan. `wanted` is 0.
    Link,
    /// The interface byte is `seen`, and the network's is `wanted`; 0 if the network doesn't carry the link.
    Network,
    /// The frame has `seen` bytes with its check sequence, more than Lmax, which is `wanted`.
    Size,
    /// The sequence number is `seen`, and the next is `wanted`. A `Restart` isn't told so.
    Number,
    /// The frame comes `seen` nanoseconds after the frame before it (0 if before it), and should come `wanted` or more.
    /// With a jitter of a BAG or more that may be 0, and only a frame with an earlier time is then told.
    Early,
    /// No port has the frame's sub-VL, partition, destination and UDP ports. `seen` is its source UDP port, `wanted` is
    /// 0.
    Port,
    /// The frame isn't the next piece of its sub-VL's message.
    Fragment(FragmentMisfit),
    /// The frame ends a message with a fault.
    Message(Ending),
    /// The frame is the second one of sub-VL `seen` between two pieces of a message of sub-VL `wanted`.
    Turn,
    /// The frame differs at byte `seen` from the frame with its number on the other network, packet `wanted` of its
    /// file.
    Twin,
    /// The frame has no twin on the other network within the skew. That network has a packet more than the skew before
    /// the frame, and one more than the skew after it, or none until the frame's own network came to its number again.
    /// `seen` is its sequence number, `wanted` is 0.
    Missing,
    /// The sequence number is 0, `seen`, though the link was heard before, and its last number wasn't 255: the link's
    /// transmitter restarted. The number that was due is `wanted`.
    Restart,
}

impl FindingKind {
    /// Returns the number of the kind, 1 to 14.
    pub fn number(self) -> u8
        ensures { result ≡ kind_number self }
    {
        match self {
            FindingKind::Frame(_) => 1,
            FindingKind::Source => 2,
            FindingKind::Link => 3,
            FindingKind::Network => 4,
            FindingKind::Size => 5,
            FindingKind::Number => 6,
            FindingKind::Early => 7,
            FindingKind::Port => 8,
            FindingKind::Fragment(_) => 9,
            FindingKind::Message(_) => 10,
            FindingKind::Turn => 11,
            FindingKind::Twin => 12,
            FindingKind::Missing => 13,
            FindingKind::Restart => 14,
        }
    }
}

/// A finding: a packet with its deviation.
#[derive(Clone, Copy, Debug, PartialEq, Eq)]
pub struct Finding {
    pub kind: FindingKind,
    /// The number of the packet in its file, as it was given.
    pub packet: u64,
    /// The network on which it was recorded.
    pub net: Net,
    /// The packet's time in nanoseconds since 1970; 0 if it has none.
    pub at: u128,
    /// The frame's link. None if the frame doesn't have the layout, or belongs to another end system.
    pub link: Option<VlId>,
    /// The number that was seen, and the number that was wanted: `FindingKind` says which ones.
    pub seen: u64,
    pub wanted: u64,
}

/// The deviation of a frame: a finding without the frame's packet.
#[derive(Clone, Copy)]
pub(crate) struct Deviation {
    pub(crate) kind: FindingKind,
    pub(crate) seen: u64,
    pub(crate) wanted: u64,
}

impl Deviation {
    /// Creates a deviation of this kind, with its two numbers.
    pub(crate) fn new(kind: FindingKind, seen: u64, wanted: u64) -> Deviation
        ensures { result ≡ deviation kind seen wanted }
    {
        Deviation { kind, seen, wanted }
    }
}

/// The packet of a finding.
#[derive(Clone, Copy)]
pub(crate) struct Tag {
    pub(crate) packet: u64,
    pub(crate) net: Net,
    pub(crate) at: u128,
}

impl Tag {
    /// Returns a finding of the packet.
    pub(crate) fn finding(&self, link: Option<VlId>, deviation: Deviation) -> Finding
        ensures { result ≡ finding_of self.now link deviation }
    {
        Finding {
            kind: deviation.kind,
            packet: self.packet,
            net: self.net,
            at: self.at,
            link,
            seen: deviation.seen,
            wanted: deviation.wanted,
        }
    }
}

/// Appends a packet's finding, if there is one.
pub(crate) fn add(
    found: &mut Vec<Finding>,
    tag: &Tag,
    link: Option<VlId>,
    deviation: Option<Deviation>,
) -> Result<(), AllocError>
    ensures { OnOk result (found.new.items ≡ with_finding tag.now link deviation found.old.items) }
{
    match deviation {
        Some(deviation) => Ok(found.push(tag.finding(link, deviation))?),
        None => Ok(()),
    }
}
