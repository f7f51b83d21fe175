//! The sending ends of a queue.
ghost use Rattle.std.specs.Prelude.{◌≡◌, ◌≢◌, ◌%◌, ◌^◌, ◌<◌, ◌≤◌, [], ◌∷◌, length, IfOk, IfErr, None, Some};
ghost use Rattle.subvl_queue.specs.declared.rule.Role.TheVariants.{Sender as AsSender};
ghost use Rattle.subvl_queue.specs.Messages.{IsMessage, room_with};
ghost use Rattle.subvl_queue.specs.Queue.{IsAtTable, RestsAs, IsSlotOf};
ghost use Rattle.subvl_queue.specs.declared.sender.Why.TheVariants.{Closed};
ghost use Rattle.subvl_queue.specs.Steps.{new_seat, drawn, asked_with_room, RefusedBy};
ghost use Rattle.subvl_queue.specs.Views.{own_of, places_of, new_sender, IsPlaced, IsRefused, SenderView};

use crate::ring::{CLOSED, Knowing, Ring};
use crate::room::Room;
use std::marker::{Brand, Model};
use std::sync::Arc;
use thiserror::Error;

/// The reasons for which a queue refuses a message: the first found of Closed, Exhausted and Full.
#[derive(Clone, Copy, Debug, PartialEq, Eq, Error)]
pub enum Why {
    /// The queue is closed. If it was closed after the sender's first check, a slot request was
    /// used.
    #[error("Closed")]
    Closed = 1,
    /// The queue was open, and the sender has used all its slot requests.
    #[error("Exhausted")]
    Exhausted = 2,
    /// The queue was open, and had no room. A slot request was used.
    #[error("Full")]
    Full = 3,
}

// Takes the steps of a send up to its place: checks for a close, reserves a slot, copies the message into the sender's
// room, sums it there if that is wanted, claims a place.
#[inline(always)]
fn claim_place(
    ring: &Ring,
    seat: &mut Knowing,
    asks: &mut u64,
    calls: u64,
    room: &mut Room,
    port: u8,
    sums: bool,
    bytes: &[u8],
) -> Result<u64, Why>
    requires seat { RestsAs ring.now.table.shared.table_id AsSender seat.old }
    requires port { port ≡ seat.old.me.0.port }
    requires message { IsMessage bytes.now × (length bytes.now ≤ ring.now.most) }
    requires size { room.old.most ≡ ring.now.most }
    requires asks { seat.old.me.0.asks ≡ asks.old }
    requires calls { (asks.old ≤ calls) × (calls ≤ 2 ^ 40) }
    ensures seat { IsAtTable ring.now.table.shared.table_id seat.new }
    ensures asks { (seat.new.me.0.asks ≡ asks.new) × (asks.new ≤ calls) }
    ensures found { IfOk result (λ _. (seat.old.me.0.asks < calls) × (seat.new.me.0.load < ring.now.capacity)) }
    ensures place { IfOk result (λ place. place < 2 ^ 63) }
    ensures drawn { IfOk result (λ place. seat.new.me ≡ (
      drawn (asked_with_room seat.old.me.0 seat.new.me.0.load) place (port, bytes.now),
      (place % ring.now.capacity, room_with ring.now.most None) ∷ [],
    )) }
    ensures size { room.new.most ≡ ring.now.most }
    ensures copied { IfOk result (λ _. room.new ≡ room_with ring.now.most (Some (port, bytes.now))) }
    ensures uncopied { IfErr result (λ why. why ≢ Closed → room.new ≡ room.old) }
    ensures free { IfErr result (λ _. seat.new.me.1 ≡ []) }
    ensures refused { IfErr result (λ why. RefusedBy calls ring.now.capacity seat.old.me.0 seat.new.me.0 why) }
{
    if ring.is_closed(seat) {
        return Err(Why::Closed);
    }
    if *asks == calls {
        return Err(Why::Exhausted);
    }
    *asks += 1;
    if !ring.reserve(seat) {
        ring.unreserve(seat);
        return Err(Why::Full);
    }
    room.fill(port, bytes);
    if sums {
        room.sum_up();
    }
    let place = ring.claim::<Brand>(seat, room, usize::from(port), bytes);
    if place >= CLOSED {
        ring.unreserve(seat);
        return Err(Why::Closed);
    }
    Ok(place)
}

/// A sender of a queue, which may be moved to a thread of its own. Contracts see its queue with its capacity, its
/// index, its slot requests and their limit, the state in which it last found the queue, and its own accepted messages
/// with their places.
#[derive(Drop)]
pub struct Sender {
    pub(crate) ring: Arc<Ring>,
    pub(crate) seat: Knowing,
    pub(crate) port: u8,
    pub(crate) sums: bool,
    pub(crate) calls: u64,
    pub(crate) asks: u64,
    pub(crate) accepted: u64,
    // The last place, or 0, and its slot.
    pub(crate) place: u64,
    pub(crate) slot: usize,
    // The message of a send is copied into it before the place is claimed.
    pub(crate) spare: Room,
}

impl Model for Sender {
    ghost Value = { SenderView };

    ghost view = { λ s. record {
      queue = s.seat.table_id;
      capacity = s.ring.value.capacity;
      most = s.ring.value.most;
      port = s.port;
      calls = s.calls;
      asks = s.asks;
      load = s.seat.me.0.load;
      glances = s.seat.me.0.glances;
      shut = s.seat.me.0.shut;
      own = own_of s.seat.me.0.own;
      places = places_of s.seat.me.0.own;
    } };

    ghost invariant = { λ s. RestsAs s.ring.value.table.shared.table_id AsSender s.seat
        × (s.seat.me.0.port ≡ s.port) × (s.seat.me.0.asks ≡ s.asks) × (s.asks ≤ s.calls) × (s.calls ≤ 2 ^ 40)
        × (s.accepted ≡ length s.seat.me.0.own) × (s.accepted ≤ s.asks)
        × IsSlotOf s.ring.value.capacity s.place s.slot × (s.spare.most ≡ s.ring.value.most) };
}

impl Sender {
    /// Copies a message of at least 1 byte, and at most its queue's greatest length, to the next
    /// place of the queue, or returns the reason that it isn't accepted. Allocates nothing.
    #[inline(always)]
    pub fn send_slice(&mut self, bytes: &[u8]) -> Result<(), Why>
        requires some { 1 ≤ length bytes.now }
        requires most { length bytes.now ≤ self.old.most }
        ensures ok { IfOk result (λ _. IsPlaced self.old bytes.now self.new) }
        ensures refused { IfErr result (λ why. IsRefused self.old why self.new) }
    {
        self.send_with(bytes, || {})
    }

    /// Sends as `send_slice` does. If the message is accepted, `pause` runs before the message is ready to be taken; if
    /// it is refused, `pause` doesn't run.
    #[inline(always)]
    pub fn send_with<F: FnOnce()>(&mut self, bytes: &[u8], pause: F) -> Result<(), Why>
    where
        F: Drop,
        requires some { 1 ≤ length bytes.now }
        requires most { length bytes.now ≤ self.old.most }
        requires pause { F.pre pause }
        ensures ok { IfOk result (λ _. IsPlaced self.old bytes.now self.new) }
        ensures paused { IfOk result (λ _. F.post pause tt) }
        ensures refused { IfErr result (λ why. IsRefused self.old why self.new) }
    {
        // Read before the steps on the ring, which no later read overtakes.
        let (ring, earlier, slot): (&Ring, u64, usize) = (&self.ring, self.place, self.slot);
        let place = claim_place(
            ring,
            &mut self.seat,
            &mut self.asks,
            self.calls,
            &mut self.spare,
            self.port,
            self.sums,
            bytes,
        )?;
        pause();
        let slot = ring.slot_from(place, earlier, slot);
        ring.publish(&mut self.seat, place, slot, &mut self.spare);
        self.place = place;
        self.slot = slot;
        self.accepted += 1;
        Ok(())
    }

    /// Makes the sender sum each message from now on. The sum goes with the message to the receiver's room.
    pub fn keep_sums(&mut self)
        ensures { self.new ≡ self.old }
    {
        self.sums = true;
    }

    /// Returns the sender's index among the queue's senders.
    pub fn index(&self) -> usize
        ensures index { result ≡ self.now.port }
        ensures small { result < 256 }
    {
        usize::from(self.port)
    }

    /// Returns the number of the sender's accepted messages.
    pub fn accepted(&self) -> u64
        ensures { result ≡ length self.now.own }
    {
        self.accepted
    }
}
