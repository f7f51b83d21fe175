//! The rules of a frame's layout, in their order. A frame that breaks none is one of the profile.
ghost use Rattle.std.specs.Prelude.{◌≡◌, ◌+◌, ◌≤◌, ◌↔◌, false, length, Some, None};
ghost use Rattle.afdx_frame.specs.Layout.{breach, link_broken, framed, has_total, has_flags, has_units, has_fragment, has_protocol, internet_broken, has_destination, first_nonzero, end_broken, layout_broken, IsReadable};
ghost use Rattle.afdx_frame.specs.Profile.{total_length, HasFragmentation, IsFrame};

use crate::field::{
    self, DONT_FRAGMENT, GREATEST_DATAGRAM, OFFSET_MODULUS, has_more, is_icmp, word_at,
};
use crate::net::{GREATEST_FRAME, INTERFACE_A, INTERFACE_B, SHORTEST_FRAME};
use internet_sum::word_sum;

/// A rule of the layout of frames, in the order in which they are tested. `seen` is the byte at which the field begins,
/// and `wanted` is 0, if the rule says nothing else.
#[derive(Clone, Copy, Debug, PartialEq, Eq)]
pub enum Layout {
    /// The packet has no time. Both numbers are 0.
    Time,
    /// The packet was cut off: `seen` bytes were captured of `wanted`.
    Snapped,
    /// The check sequence is `seen`, and the bytes give `wanted`.
    CheckSequence,
    /// The frame has four bytes too many, as one that was recorded with its check sequence; only the first such frame
    /// of a recording is a finding. `seen` is the length, `wanted` the length without them.
    Recorded,
    /// The length is `seen`, which is below 60 (then `wanted`) or above 1,514 (then `wanted`).
    Length,
    /// The constant field of the destination MAC address (byte 0).
    DestinationMac,
    /// The constant field of the source MAC address (byte 6).
    SourceMac,
    /// The interface identifier is neither A's nor B's (byte 11).
    Interface,
    /// The type isn't the internet protocol's (byte 12).
    EtherType,
    /// The version, the header's length or the type of service (byte 14).
    Version,
    /// The total length: below 21, or not the frame's (byte 16).
    TotalLength,
    /// The flags, more pieces after one that has no multiple of 8 bytes, or an offset at which the piece ends past
    /// 8,200 bytes (byte 20).
    Fragment,
    /// The time to live isn't 1, or the protocol isn't UDP (byte 22). Other makers' frames may have ICMP.
    Protocol,
    /// The checksum of the internet header (byte 24).
    HeaderSum,
    /// The source address isn't the address of the end system in the source MAC address, or the partition is above 31
    /// (byte 26).
    SourceAddress,
    /// The destination address is neither the address of the link in the destination MAC address nor in 10.0.0.0/8
    /// (byte 30).
    DestinationAddress,
    /// A padding byte isn't zero: the first such byte.
    Padding,
}

/// A rule that a frame breaks, and its two numbers.
#[derive(Clone, Copy)]
pub struct Breach {
    pub rule: Layout,
    pub seen: usize,
    pub wanted: usize,
}

/// Returns a broken rule with its two numbers.
fn broken(rule: Layout, seen: usize, wanted: usize) -> Option<Breach>
    ensures { result ≡ Some (breach rule seen wanted) }
{
    Some(Breach { rule, seen, wanted })
}

/// Returns the first broken rule of the length, the constant fields of the MAC addresses, the interface identifier and
/// the type.
#[tactic(auto, unfolding(crate::specs::Layout::link_broken))]
fn link_broken(b: &[u8]) -> Option<Breach>
    ensures value { result ≡ link_broken b.now }
    ensures least { result ≡ None → 60 ≤ length b.now }
    ensures most { result ≡ None → length b.now ≤ 1514 }
{
    if b.len() < SHORTEST_FRAME {
        broken(Layout::Length, b.len(), SHORTEST_FRAME)
    } else if b.len() > GREATEST_FRAME {
        broken(Layout::Length, b.len(), GREATEST_FRAME)
    } else if b[0] != 3 || b[1] != 0 || b[2] != 0 || b[3] != 0 {
        broken(Layout::DestinationMac, 0, 0)
    } else if b[6] != 2 || b[7] != 0 || b[8] != 0 {
        broken(Layout::SourceMac, 6, 0)
    } else if b[field::INTERFACE] != INTERFACE_A && b[field::INTERFACE] != INTERFACE_B {
        broken(Layout::Interface, field::INTERFACE, 0)
    } else if b[field::ETHERTYPE] != 8 || b[field::ETHERTYPE + 1] != 0 {
        broken(Layout::EtherType, field::ETHERTYPE, 0)
    } else {
        None
    }
}

/// Returns the length of a frame with this total length.
pub fn framed(total: usize) -> usize
    requires { total ≤ 65535 }
    ensures { result ≡ framed total }
{
    (15 + total).max(SHORTEST_FRAME)
}

/// Returns true if the total length fits: the frame has that length.
fn has_total(b: &[u8]) -> bool
    requires { 60 ≤ length b.now }
    ensures { result ≡ has_total b.now }
{
    let total = word_at(b, field::TOTAL_LENGTH) as usize;
    total >= 21 && b.len() == framed(total)
}

/// Returns true if the flags are allowed: more fragments; if `arinc`, also don't fragment for a datagram in one frame.
fn has_flags(arinc: bool, b: &[u8]) -> bool
    requires { 60 ≤ length b.now }
    ensures { result ≡ has_flags arinc b.now }
{
    let fragment = word_at(b, field::FRAGMENT);
    fragment < DONT_FRAGMENT || arinc && fragment == DONT_FRAGMENT
}

/// Returns true if a piece that more follow has whole units of 8 bytes.
fn has_units(b: &[u8]) -> bool
    requires whole { 60 ≤ length b.now }
    requires some { 21 ≤ total_length b.now }
    ensures { result ≡ has_units b.now }
{
    !has_more(b) || (word_at(b, field::TOTAL_LENGTH) - 20) % 8 == 0
}

/// Returns true if the flags are allowed and fit the piece, and the piece ends within a datagram.
fn has_fragment(arinc: bool, b: &[u8]) -> bool
    requires whole { 60 ≤ length b.now }
    requires some { 21 ≤ total_length b.now }
    ensures { result ≡ has_fragment arinc b.now }
{
    let offset = word_at(b, field::FRAGMENT) % OFFSET_MODULUS;
    let end = 8 * offset as u32 + word_at(b, field::TOTAL_LENGTH) as u32;
    has_flags(arinc, b) && has_units(b) && end <= 20 + GREATEST_DATAGRAM
}

/// Returns true if the protocol is UDP, or if `arinc` ICMP.
fn has_protocol(arinc: bool, b: &[u8]) -> bool
    requires { 60 ≤ length b.now }
    ensures { result ≡ has_protocol arinc b.now }
{
    b[field::PROTOCOL] == 17 || arinc && is_icmp(b)
}

/// Returns the first broken rule of the internet header without its addresses.
#[tactic(auto, using(crate::proofs::LayoutRules::fragmentation_kept), unfolding(crate::specs::Layout::internet_broken))]
fn internet_broken(arinc: bool, b: &[u8]) -> Option<Breach>
    requires { 60 ≤ length b.now }
    ensures value { result ≡ internet_broken arinc b.now }
    ensures some { result ≡ None → 21 ≤ total_length b.now }
    ensures piece { result ≡ None → 15 + total_length b.now ≤ length b.now }
    ensures fragmentation { result ≡ None → HasFragmentation b.now }
{
    if b[field::VERSION] != 0x45 || !arinc && b[field::VERSION + 1] != 0 {
        broken(Layout::Version, field::VERSION, 0)
    } else if !has_total(b) {
        broken(Layout::TotalLength, field::TOTAL_LENGTH, 0)
    } else if !has_fragment(arinc, b) {
        broken(Layout::Fragment, field::FRAGMENT, 0)
    } else if !arinc && b[field::TIME_TO_LIVE] != 1 || !has_protocol(arinc, b) {
        broken(Layout::Protocol, field::TIME_TO_LIVE, 0)
    } else if word_sum(&b[field::VERSION..field::DATA]) % 0xffff != 0 {
        broken(Layout::HeaderSum, field::CHECKSUM, 0)
    } else {
        None
    }
}

/// Returns true if the destination address is the address of the link in the destination MAC address, or in 10.0.0.0/8.
fn has_destination(b: &[u8]) -> bool
    requires { 60 ≤ length b.now }
    ensures { result ≡ has_destination b.now }
{
    let start = field::DESTINATION;
    b[start] == 224
        && b[start + 1] == 224
        && b[start + 2] == b[field::LINK]
        && b[start + 3] == b[field::LINK + 1]
        || b[start] == 10
}

/// Returns the place of the first byte that isn't zero.
fn first_nonzero(bytes: &[u8]) -> Option<usize>
    ensures { result ≡ first_nonzero bytes.now }
{
    bytes.iter().position(|byte| *byte != 0)
}

/// Returns the first broken rule of the internet addresses and of the padding. The source is 10, the end system of the
/// source MAC address, and a partition.
#[tactic(auto, unfolding(crate::specs::Layout::end_broken))]
fn end_broken(arinc: bool, b: &[u8]) -> Option<Breach>
    requires { IsReadable b.now }
    ensures { result ≡ end_broken arinc b.now }
{
    let source = field::SOURCE;
    if b[source] != 10
        || b[source + 1] != b[field::END_SYSTEM]
        || b[source + 2] != b[field::END_SYSTEM + 1]
        || b[source + 3] > 31
    {
        broken(Layout::SourceAddress, source, 0)
    } else if !has_destination(b) {
        broken(Layout::DestinationAddress, field::DESTINATION, 0)
    } else if arinc {
        None
    } else {
        let start = field::VERSION + word_at(b, field::TOTAL_LENGTH) as usize;
        let place = first_nonzero(&b[start..b.len() - 1])?;
        broken(Layout::Padding, start + place, 0)
    }
}

/// Returns the first rule of the layout that a frame breaks; if `arinc`, of the rules that ARINC 664 has.
#[tactic(auto, using(crate::proofs::LayoutRules::layout_is_profile), unfolding(crate::specs::Layout::layout_broken))]
pub fn layout_broken(arinc: bool, frame: &[u8]) -> Option<Breach>
    ensures value { result ≡ layout_broken arinc frame.now }
    ensures readable { result ≡ None → IsReadable frame.now }
    ensures fragmentation { result ≡ None → HasFragmentation frame.now }
    ensures profile { (layout_broken false frame.now ≡ None) ↔ IsFrame frame.now }
{
    if let Some(broken) = link_broken(frame) {
        return Some(broken);
    }
    if let Some(broken) = internet_broken(arinc, frame) {
        return Some(broken);
    }
    end_broken(arinc, frame)
}
