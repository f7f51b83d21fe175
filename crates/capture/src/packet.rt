//! The packets of a capture.
ghost use Rattle.std.specs.Prelude.{◌≡◌, ◌+◌, ◌≤◌, length, OnOk};
ghost use Rattle.capture.specs.Recording.{Gives, enhanced, simple, from_record, recorded, captured_of};

use crate::interface::{Interface, known, network_of};
use crate::order::Order;
use crate::stop::Fault;
use crate::unit::Clock;
use afdx_frame::Net;

/// A packet of a capture, over the bytes that it was read from.
#[derive(Clone, Copy, Debug, PartialEq, Eq)]
pub struct Packet<'a> {
    /// The number of its interface in its section.
    pub interface: u32,
    /// The packet's network, by the name of its interface; without such names the first is A, and the second B.
    pub network: Option<Net>,
    /// The packet's time in nanoseconds since 1970; a simple packet block has none.
    pub at: Option<u128>,
    /// The packet's length on the network. If it is greater than the length of `bytes`, the packet was cut off.
    pub original: u32,
    /// The bytes that were captured.
    pub bytes: &'a [u8],
    /// The packet ends with its check sequence, or it doesn't. None if the capture doesn't say it.
    pub fcs: Option<bool>,
}

/// Returns the packet of an enhanced packet block.
#[tactic(auto, unfolding(crate::specs::Recording::enhanced))]
pub(crate) fn enhanced<'a>(
    order: Order,
    interfaces: &[Interface],
    body: &'a [u8],
) -> Result<Packet<'a>, Fault>
    ensures value { Gives result (enhanced order interfaces.now body.now) }
    ensures least { OnOk result (20 ≤ length body.now) }
{
    if body.len() < 20 {
        return Err(Fault::Length);
    }
    let interface = order.word_at(body, 0);
    let described = known(interfaces, interface)?;
    let captured = order.word_at(body, 12) as usize;
    if body.len() < 20 + captured {
        return Err(Fault::Captured);
    }
    let ticks = order.word_at(body, 4) as u64 * 0x1_0000_0000 + order.word_at(body, 8) as u64;
    let at = described.time(ticks)?;
    Ok(Packet {
        interface,
        network: network_of(interfaces, interface),
        at: Some(at),
        original: order.word_at(body, 16),
        bytes: &body[20..20 + captured],
        fcs: described.fcs,
    })
}

/// Returns the number of bytes that were captured of a packet of this length.
fn captured_of(limit: u32, original: u32) -> u32
    ensures { result ≡ captured_of limit original }
{
    if limit == 0 || original < limit {
        original
    } else {
        limit
    }
}

/// Returns the packet of a simple packet block, which belongs to the first interface.
#[tactic(auto, unfolding(crate::specs::Recording::simple))]
pub(crate) fn simple<'a>(
    order: Order,
    interfaces: &[Interface],
    body: &'a [u8],
) -> Result<Packet<'a>, Fault>
    ensures { Gives result (simple order interfaces.now body.now) }
{
    if body.len() < 4 {
        return Err(Fault::Length);
    }
    let described = known(interfaces, 0)?;
    let original = order.word_at(body, 0);
    let captured = captured_of(described.limit, original) as usize;
    if body.len() < 4 + captured {
        return Err(Fault::Captured);
    }
    Ok(Packet {
        interface: 0,
        network: network_of(interfaces, 0),
        at: None,
        original,
        bytes: &body[4..4 + captured],
        fcs: described.fcs,
    })
}

/// Returns the packet of a record.
#[tactic(auto, unfolding(crate::specs::Recording::from_record))]
pub(crate) fn from_record<'a>(
    order: Order,
    clock: Clock,
    fcs: Option<bool>,
    whole: &'a [u8],
) -> Packet<'a>
    requires { 16 ≤ length whole.now }
    ensures { recorded result ≡ from_record order clock fcs whole.now }
{
    let unit = match clock {
        Clock::Micros => 1_000,
        Clock::Nanos => 1,
    };
    let seconds = order.word_at(whole, 0) as u128;
    let part = order.word_at(whole, 4) as u128;
    Packet {
        interface: 0,
        network: Some(Net::A),
        at: Some(seconds * 1_000_000_000 + part * unit),
        original: order.word_at(whole, 12),
        bytes: &whole[16..],
        fcs,
    }
}
