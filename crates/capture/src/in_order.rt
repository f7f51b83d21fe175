//! The order of the frames of two logs.
ghost use Rattle.std.specs.Prelude.{◌≡◌, List};
ghost use Rattle.std.specs.Iterator.{item_count};
ghost use Rattle.capture.specs.Order.{TakesPacket, Captured, in_order, next_net as net_of_next};

use afdx_frame::Net;
use redundant_mux::{FrameLog, LogFrames};
use std::marker::Model;

/// A frame of a network, with its time in microseconds.
#[derive(Clone, Copy, Debug)]
pub(crate) struct SentFrame<'a> {
    pub(crate) net: Net,
    pub(crate) at: u64,
    pub(crate) frame: &'a [u8],
}

/// The frames of two logs that are left. The earlier one comes first; of two frames at one time, A's.
#[derive(Drop)]
pub(crate) struct InOrder<'a> {
    a: LogFrames<'a>,
    b: LogFrames<'a>,
}

impl<'a> Model for InOrder<'a> {
    ghost Value = { List Captured };

    ghost view = { λ s. in_order s.a s.b };
}

impl<'a> InOrder<'a> {
    pub(crate) fn new(a: &'a FrameLog, b: &'a FrameLog) -> InOrder<'a>
        ensures { result ≡ in_order a.now.handed b.now.handed }
    {
        InOrder {
            a: a.frames(),
            b: b.frames(),
        }
    }
}

impl<'a> Iterator for InOrder<'a> {
    type Item = SentFrame<'a>;

    ghost next_gives = { TakesPacket };

    ghost remaining = { item_count (λ packets. packets) };

    #[tactic(auto, using(crate::proofs::Orders::order_a, crate::proofs::Orders::order_b, crate::proofs::Orders::order_none))]
    fn next(&mut self) -> Option<SentFrame<'a>> {
        let (on_a, on_b) = (self.a.next_moment(), self.b.next_moment());
        match next_net(on_a.map(|at| at as u128), on_b.map(|at| at as u128))? {
            Net::A => {
                let (at, frame) = self.a.next()?;
                let net = Net::A;
                Some(SentFrame { net, at, frame })
            }
            Net::B => {
                let (at, frame) = self.b.next()?;
                let net = Net::B;
                Some(SentFrame { net, at, frame })
            }
        }
    }
}

/// Returns the network of the next frame, by the times of the next frames on A and on B: the earlier, and A at one
/// time.
pub fn next_net(a: Option<u128>, b: Option<u128>) -> Option<Net>
    ensures { result ≡ net_of_next a b }
{
    match (a, b) {
        (None, None) => None,
        (None, Some(_)) => Some(Net::B),
        (Some(_), None) => Some(Net::A),
        (Some(a), Some(b)) => Some(if b < a { Net::B } else { Net::A }),
    }
}
