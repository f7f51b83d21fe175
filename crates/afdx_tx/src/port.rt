//! A port, for a thread of its own.
ghost use Rattle.std.specs.Prelude.{◌≡◌, ◌≤◌, length, All, ◌<◌, [], IfOk, IfErr, Some};
ghost use Rattle.afdx_tx.specs.Ports.{refusal_of, PortView, MaySend, HasOwnMessages, Accepts, Refuses, length_refusal};
ghost use Rattle.afdx_plan.specs.Plan.{IsPort};
ghost use Rattle.vl_link.specs.Calls.{ChangesSub, ChangesQueue, Hears};
ghost use Rattle.vl_link.specs.Links.{held_at};
ghost use Rattle.vl_link.specs.Seen.{queue_of};

use crate::fault::{Refusal, SendFault};
use afdx_plan::{PortId, PortPlan, UdpSum};
use std::marker::Model;
use subvl_queue::{Sender, Why};
use vl_link::Link;

/// A port of an emitter, which may be moved to another thread. Contracts see its place in the
/// plan, its entry there, and its sender with the port's accepted messages.
#[derive(Drop)]
pub struct TxPort {
    plan: PortPlan,
    place: usize,
    sender: Sender,
}

impl Model for TxPort {
    ghost Value = { PortView };

    ghost view = { λ p. record {
      place = p.place;
      plan = p.plan;
      sender = p.sender;
    } };

    ghost invariant = { λ p. IsPort p.plan × (p.plan.max ≤ p.sender.most)
        × All (λ m. MaySend p.plan (length m)) p.sender.own };
}

impl TxPort {
    // Creates the port at a place of a plan, with a sender of its sub-VL's queue, which sums messages if the port has
    // checksums.
    pub(crate) fn new(plan: PortPlan, place: usize, sender: Sender) -> TxPort
        requires port { IsPort plan }
        requires fresh { sender.own ≡ [] }
        requires room { plan.max ≤ sender.most }
        ensures { result ≡ record {
          place = place;
          plan = plan;
          sender = sender;
        } }
    {
        let mut sender = sender;
        if plan.checksum == UdpSum::Generated {
            sender.keep_sums();
        }
        TxPort {
            plan,
            place,
            sender,
        }
    }

    /// Returns the port's identifier.
    pub fn id(&self) -> PortId
        ensures { result ≡ self.now.plan.id }
    {
        self.plan.id
    }

    /// Returns the number of the port's accepted messages. Each has from 1 byte to the port's greatest message.
    pub fn accepted(&self) -> u64
        ensures count { result ≡ length self.now.sender.own }
        ensures messages { HasOwnMessages self.now }
    {
        self.sender.accepted()
    }

    /// Returns the reason for which the port refuses a message of `size` bytes, whatever its queue holds: `Empty` or
    /// `TooLong`.
    #[inline(always)]
    pub fn length_refusal(&self, size: usize) -> Option<Refusal>
        ensures { result ≡ length_refusal self.now.plan size }
    {
        if size == 0 {
            return Some(Refusal::Empty);
        }
        if size > self.plan.max {
            return Some(Refusal::TooLong);
        }
        None
    }

    // Returns the port's place in the plan.
    pub(crate) fn place(&self) -> usize
        ensures { result ≡ self.now.place }
    {
        self.place
    }

    // Tells a link of the port's messages.
    pub(crate) fn tell(&mut self, link: &mut Link)
        requires within { self.old.plan.sub < length link.old.subs }
        requires own { queue_of (held_at link.old.subs self.old.plan.sub).seen ≡ Some self.old.sender.queue }
        ensures link { ChangesSub (ChangesQueue (Hears self.old.sender)) self.old.plan.sub link.old link.new }
        ensures port { self.new ≡ self.old }
        ensures counts { length self.old.sender.places ≡ length self.old.sender.own }
    {
        link.hear(self.plan.sub, &mut self.sender);
    }

    // Returns the port's sender.
    pub(crate) fn into_sender(self) -> Sender
        ensures sender { result ≡ self.sender }
        ensures messages { HasOwnMessages self }
    {
        let TxPort {
            plan: _,
            place: _,
            sender,
        } = self;
        sender
    }

    /// Copies a message to the end of the queue of its sub-VL. Returns the reason if it is empty, is over the port's
    /// greatest message, or its queue refuses it. A refusal by length changes nothing; a refusal by the queue changes
    /// only the port's count of slot requests and the state in which it found the queue. Never waits, and allocates
    /// nothing.
    #[inline(always)]
    pub fn send_slice(&mut self, bytes: &[u8]) -> Result<(), Refusal>
        ensures accepted { IfOk result (λ _. Accepts self.old bytes.now self.new) }
        ensures sendable { IfOk result (λ _. MaySend self.old.plan (length bytes.now)) }
        ensures open { IfOk result (λ _. self.old.sender.asks < self.old.sender.calls) }
        ensures refused { IfErr result (λ why. Refuses self.old (length bytes.now) why self.new) }
    {
        self.send_slice_with(bytes, || {})
    }

    /// Sends as `send_slice` does, and returns a message that is refused. An accepted message is copied, and its list
    /// freed.
    #[inline(always)]
    pub fn send(&mut self, bytes: Vec<u8>) -> Result<(), SendFault>
        ensures accepted { IfOk result (λ _. Accepts self.old bytes.items self.new) }
        ensures sendable { IfOk result (λ _. MaySend self.old.plan (length bytes.items)) }
        ensures open { IfOk result (λ _. self.old.sender.asks < self.old.sender.calls) }
        ensures back { IfErr result (λ fault. fault.bytes.items ≡ bytes.items) }
        ensures refused { IfErr result (λ fault. Refuses self.old (length bytes.items) fault.why self.new) }
    {
        self.send_with(bytes, || {})
    }

    /// Sends as `send` does. If the message is accepted, `pause` runs before the message can be taken; if it is
    /// refused, `pause` doesn't run.
    pub fn send_with<F: FnOnce()>(&mut self, bytes: Vec<u8>, pause: F) -> Result<(), SendFault>
    where
        F: Drop,
        requires { F.pre pause }
        ensures accepted { IfOk result (λ _. Accepts self.old bytes.items self.new) }
        ensures sendable { IfOk result (λ _. MaySend self.old.plan (length bytes.items)) }
        ensures open { IfOk result (λ _. self.old.sender.asks < self.old.sender.calls) }
        ensures paused { IfOk result (λ _. F.post pause tt) }
        ensures back { IfErr result (λ fault. fault.bytes.items ≡ bytes.items) }
        ensures refused { IfErr result (λ fault. Refuses self.old (length bytes.items) fault.why self.new) }
    {
        match self.send_slice_with(&bytes, pause) {
            Ok(()) => Ok(()),
            Err(why) => Err(SendFault { why, bytes }),
        }
    }

    // Sends as `send_slice` does, with a pause as in `send_with`.
    #[tactic(auto, using(std::proofs::lemmas::Grind::common_steps))]
    #[inline(always)]
    fn send_slice_with<F: FnOnce()>(&mut self, bytes: &[u8], pause: F) -> Result<(), Refusal>
    where
        F: Drop,
        requires { F.pre pause }
        ensures accepted { IfOk result (λ _. Accepts self.old bytes.now self.new) }
        ensures sendable { IfOk result (λ _. MaySend self.old.plan (length bytes.now)) }
        ensures open { IfOk result (λ _. self.old.sender.asks < self.old.sender.calls) }
        ensures paused { IfOk result (λ _. F.post pause tt) }
        ensures refused { IfErr result (λ why. Refuses self.old (length bytes.now) why self.new) }
    {
        if let Some(why) = self.length_refusal(bytes.len()) {
            return Err(why);
        }
        match self.sender.send_with(bytes, pause) {
            Ok(()) => Ok(()),
            Err(why) => Err(refusal(why)),
        }
    }
}

// Returns the port's reason for a queue's reason.
fn refusal(why: Why) -> Refusal
    ensures { result ≡ refusal_of why }
{
    match why {
        Why::Closed => Refusal::Closed,
        Why::Exhausted => Refusal::Exhausted,
        Why::Full => Refusal::Full,
    }
}
