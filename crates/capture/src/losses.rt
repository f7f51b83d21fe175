//! The packets that a recorder lost, as it tells in the options of its blocks.
ghost use Rattle.std.specs.Prelude.{◌≡◌, ◌+◌, ◌≤◌, length, drop};
ghost use Rattle.capture.specs.Losses.{count_in, packet_options, with_packet_losses, with_statistics, lost_of};

use crate::interface::{END, first_option};
use crate::order::Order;
use crate::write::fill_of;

// The codes of options: `epb_dropcount`, `isb_ifdrop` and `isb_osdrop`.
const BEFORE_PACKET: u16 = 4;

const BY_INTERFACE: u16 = 5;

const BY_SYSTEM: u16 = 7;

/// The packets of an interface that were lost, as the recorder tells. Counts stop at their greatest value.
#[derive(Clone, Copy, Debug, Default, PartialEq, Eq)]
pub struct Losses {
    /// The packets that were lost before packets, by the options of these.
    pub before_packets: u64,
    /// The packets that the interface lost since the recording began, by its last statistics.
    pub by_interface: u64,
    /// The packets that the operating system lost since the recording began, by the interface's last statistics.
    pub by_system: u64,
}

impl Losses {
    /// Returns the number of packets that were lost. Packets and statistics tell of the same losses, so this is the
    /// greater count.
    pub fn total(self) -> u64
        ensures { result ≡ lost_of self }
    {
        self.before_packets
            .max(self.by_interface.saturating_add(self.by_system))
    }

    /// Returns the losses after one more enhanced packet block with this body.
    #[tactic(auto, unfolding(crate::specs::Losses::with_packet_losses))]
    pub(crate) fn with_packet(self, order: Order, body: &[u8]) -> Losses
        requires { 20 ≤ length body.now }
        ensures { result ≡ with_packet_losses order body.now self }
    {
        let more = count_in(order, BEFORE_PACKET, packet_options(order, body)).unwrap_or(0);
        Losses {
            before_packets: self.before_packets.saturating_add(more),
            ..self
        }
    }

    /// Returns the losses after one more interface statistics block with this body.
    #[tactic(auto, unfolding(crate::specs::Losses::with_statistics))]
    pub(crate) fn with_statistics(self, order: Order, body: &[u8]) -> Losses
        requires { 12 ≤ length body.now }
        ensures { result ≡ with_statistics order body.now self }
    {
        let options = &body[12..];
        Losses {
            by_interface: count_in(order, BY_INTERFACE, options).unwrap_or(self.by_interface),
            by_system: count_in(order, BY_SYSTEM, options).unwrap_or(self.by_system),
            ..self
        }
    }
}

/// Returns the options of an enhanced packet block.
fn packet_options(order: Order, body: &[u8]) -> &[u8]
    requires { 20 ≤ length body.now }
    ensures { result.now ≡ packet_options order body.now }
{
    let captured = order.word_at(body, 12) as usize;
    let front = 20 + (captured + fill_of(captured));
    &body[front.min(body.len())..]
}

/// Returns the count of 64 bits in the first of these options that has this code and 8 bytes.
fn count_in(order: Order, code: u16, options: &[u8]) -> Option<u64>
    ensures { result ≡ count_in order code options.now }
{
    let mut rest = options;
    while rest.len() > 0 {
        let Ok(front) = first_option(order, rest) else {
            return None;
        };
        if front.code == END {
            return None;
        }
        let len = front.len as usize;
        if front.code == code && len == 8 {
            return Some(order.long(&rest[4..4 + len]));
        }
        rest = &rest[4 + (len + fill_of(len))..];
    }
    None
}
