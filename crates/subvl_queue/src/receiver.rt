//! The receiving end of a queue, alone and with all ends together.
ghost use Rattle.std.specs.Prelude.{◌≡◌, ◌+◌, ◌^◌, ◌<◌, ◌≤◌, [], length, IfOk, IfErr, IfSome, IfNone, None, Some, false, is_some, ◌∷◌, ◌++◌, take, drop, map, MatchBool};
ghost use Rattle.subvl_queue.specs.declared.rule.Role.TheVariants.{Receiver as AsReceiver};
ghost use Rattle.subvl_queue.specs.Messages.{IsMessage, AreItems, room_with};
ghost use Rattle.subvl_queue.specs.Queue.{IsAtTable, RestsAs, IsSlotOf};
ghost use Rattle.subvl_queue.specs.Steps.{IsNext, Lists, AreInRow, with_look, freed_of, holding};
ghost use Rattle.subvl_queue.specs.Views.{new_receiver, new_sender, one_more, after_take, looked, closed, taken_back, accepted_of, brought_by_all, AreBack, HasAt, HaveRows, heard_from, LacksOne, AreOf, IsWhole, brought_back, brought_of, ReceiverView, IsGathered, whole, TellsLeft, HasPort, HasEvery, GatheredView};

use crate::ring::{Knowing, Ring};
use crate::room::Room;
use crate::sender::Sender;
use std::alloc::{AllocError, Global};
use std::marker::{Brand, Model};
use std::sync::Arc;

// Takes the next message, if it is published, into the caller's room.
#[tactic(auto, using(std::proofs::Common::arith))]
fn fetch(
    ring: &Ring,
    seat: &mut Knowing,
    taken: &mut u64,
    slot: &mut usize,
    room: &mut Room,
) -> bool
    requires seat { RestsAs ring.now.table.shared.table_id AsReceiver seat.old }
    requires taken { (taken.old ≡ length seat.old.me.0.taken) × (taken.old ≤ 2 ^ 46) }
    requires slot { IsSlotOf ring.now.capacity taken.old slot.old }
    requires room { room.old ≡ room_with ring.now.most None }
    ensures seat { IsAtTable ring.now.table.shared.table_id seat.new × (seat.new.me.1 ≡ []) }
    ensures told { result ≡ is_some room.new.item }
    ensures most { room.new.most ≡ ring.now.most }
    ensures some { IfSome room.new.item (λ x.
        seat.new.me.0 ≡ freed_of (holding seat.old.me.0 taken.old x) x seat.new.me.0.asks_then) }
    ensures next { IfSome room.new.item (λ x. IsNext seat.old.me.0 taken.old x) }
    ensures message { IfSome room.new.item (λ x. IsMessage x.1) }
    ensures counted { IfSome room.new.item (λ _. taken.new ≡ taken.old + 1) }
    ensures back { IfNone room.new.item ((y : _) → Lists seat.old.me.0.joined taken.old y → ⊥) }
    ensures heard { IfNone room.new.item ((y : _) → Lists seat.old.me.0.heard taken.old y → ⊥) }
    ensures row { seat.old.me.0.made ≡ 1 → AreInRow seat.old.me.0.heard }
    ensures none { IfNone room.new.item (seat.new.me.0 ≡ with_look seat.old.me.0 false) }
    ensures unchanged { IfNone room.new.item (taken.new ≡ taken.old) }
    ensures ended { IfNone room.new.item (IfSome seat.old.me.0.all (λ l. length l ≤ taken.old)) }
    ensures slot { IsSlotOf ring.now.capacity taken.new slot.new }
{
    let place = *taken;
    if !ring.is_ready::<Brand>(seat, place, *slot) {
        return false;
    }
    ring.take(seat, *slot, room);
    *taken += 1;
    *slot = ring.slot_after(*slot);
    true
}

// Keeps a spare room, in a list with a place for the room of each sender that the queue was opened for.
fn keep(spares: &mut Vec<Room>, spare: Room) {
    if spares.len() < spares.capacity() {
        spares.push_reserved(spare);
    }
}

/// The receiver of a queue. Contracts see its queue with its capacity, the number of senders, the number of its polls
/// of the queue, the result of the last poll, the messages taken, the total of its close, and the messages of the
/// senders that were taken back.
#[derive(Drop)]
pub struct Receiver {
    pub(crate) ring: Arc<Ring>,
    pub(crate) seat: Knowing,
    pub(crate) taken: u64,
    // The slot of the next place.
    pub(crate) slot: usize,
    pub(crate) ports: usize,
    pub(crate) total: Option<u64>,
    // The rooms of the senders that are back, so that taking one back frees nothing.
    pub(crate) spares: Vec<Room>,
}

impl Model for Receiver {
    ghost Value = { ReceiverView };

    ghost view = { λ r. record {
      queue = r.seat.table_id;
      capacity = r.ring.value.capacity;
      most = r.ring.value.most;
      ports = r.ports;
      looks = r.seat.me.0.looks;
      found = r.seat.me.0.found;
      taken = r.seat.me.0.taken;
      total = r.total;
      back = brought_back r.seat.me.0;
      heard = map brought_of r.seat.me.0.heard;
    } };

    ghost invariant = { λ r. RestsAs r.ring.value.table.shared.table_id AsReceiver r.seat
        × (r.seat.me.0.made ≡ r.ports) × (r.ports ≤ 64) × (r.taken ≡ length r.seat.me.0.taken) × (r.taken ≤ 2 ^ 46)
        × (r.seat.me.0.total ≡ r.total) × IfSome r.total (λ t. r.taken ≤ t)
        × (r.seat.me.0.all ≡ None) × IsSlotOf r.ring.value.capacity r.taken r.slot };
}

impl Receiver {
    /// Makes one more sender, with the next index, for at most `calls` slot requests, up to 2^40. A
    /// queue has at most 64 senders, and makes none once one was taken back. If an allocation
    /// fails, nothing changes.
    #[tactic(auto, using(crate::proofs::Senders::none_joined))]
    pub fn new_sender(&mut self, alloc: Global, calls: u64) -> Result<Sender, AllocError>
        requires few { self.old.ports < 64 }
        requires none_back { self.old.back ≡ [] }
        requires calls { calls ≤ 2 ^ 40 }
        ensures sender { IfOk result (λ sender. sender ≡
            new_sender self.old.queue self.old.capacity self.old.most calls self.old.ports) }
        ensures one_more { IfOk result (λ _. self.new ≡ one_more self.old) }
        ensures unchanged { IfErr result (λ _. self.new ≡ self.old) }
    {
        let spare = Room::new(alloc, self.ring.most)?;
        let ring = Arc::try_clone(&self.ring)?;
        let seat = self.ring.make_sender(&mut self.seat);
        let port = self.ports as u8;
        self.ports += 1;
        Ok(Sender {
            ring,
            seat,
            port,
            sums: false,
            calls,
            asks: 0,
            accepted: 0,
            place: 0,
            slot: 0,
            spare,
        })
    }

    /// Exchanges an empty room for the one with the message of the next place, if it is ready. Counts as a poll either
    /// way. Returns whether there was a message.
    pub fn take(&mut self, room: &mut Room) -> bool
        requires empty { room.old ≡ room_with self.old.most None }
        ensures most { room.new.most ≡ self.old.most }
        ensures told { result ≡ is_some room.new.item }
        ensures none { IfNone room.new.item (self.new ≡ looked self.old) }
        ensures some { IfSome room.new.item (λ item. self.new ≡ after_take self.old item) }
        ensures port { IfSome room.new.item (λ item. item.0 < self.old.ports) }
        ensures message { IfSome room.new.item (λ item. IsMessage item.1) }
        ensures heard { (item : _) → HasAt self.old.heard (length self.old.taken) item → room.new.item ≡ Some item }
        ensures back { (item : _) → HasAt self.old.back (length self.old.taken) item → room.new.item ≡ Some item }
        ensures alone { self.old.ports ≡ 1 → HaveRows self.old.heard }
        ensures few { length self.new.taken ≤ 2 ^ 46 }
        ensures within { IfSome self.old.total (λ t. length self.new.taken ≤ t) }
    {
        fetch(
            &self.ring,
            &mut self.seat,
            &mut self.taken,
            &mut self.slot,
            room,
        )
    }

    /// Closes the queue, and returns the number of accepted messages. No message is accepted from
    /// then on, and each later close returns the same.
    pub fn close(&mut self) -> u64
        ensures first { self.old.total ≡ None → self.new ≡ closed self.old result }
        ensures behind { length self.old.taken ≤ result }
        ensures total { IfSome self.old.total (λ t. result ≡ t) }
        ensures unchanged { IfSome self.old.total (λ _. self.new ≡ self.old) }
    {
        if let Some(total) = self.total {
            return total;
        }
        let total = self.ring.close(&mut self.seat);
        self.total = Some(total);
        total
    }

    /// Tells the receiver of the messages that a sender has sent. `take` then finds each of them once it is the next,
    /// and not only one that happens to be ready. No message needs this call: it is for a caller who has both ends at
    /// hand, and states in a contract what a poll finds.
    pub fn hear(&mut self, sender: &mut Sender)
        requires { sender.old.queue ≡ self.old.queue }
        ensures receiver { self.new ≡ heard_from self.old sender.old }
        ensures sender { sender.new ≡ sender.old }
        ensures counts { length sender.old.places ≡ length sender.old.own }
    {
        self.ring.tell(&mut self.seat, &mut sender.seat);
    }

    /// Takes back a sender of the queue, with its accepted messages.
    pub fn take_back(&mut self, sender: Sender)
        requires { sender.queue ≡ self.old.queue }
        ensures { self.new ≡ taken_back self.old sender }
    {
        self.ring.take_in::<Brand>(&mut self.seat, sender.seat);
        keep(&mut self.spares, sender.spare);
    }

    /// Brings all ends of the queue together, once each sender is back. From then on the accepted
    /// messages are known whole.
    pub fn into_gathered(self) -> Gathered
        requires every { AreBack self.ports self.back }
        ensures most { result.most ≡ self.most }
        ensures taken { result.taken ≡ self.taken }
        ensures ports { result.ports ≡ self.ports }
        ensures whole { IsWhole self.ports self.back (accepted_of result) }
        ensures items { AreItems self.ports (accepted_of result) }
        ensures total { IfSome self.total (λ t. t ≡ length (accepted_of result)) }
        ensures few { length (accepted_of result) ≤ 2 ^ 46 }
        ensures within { length result.left ≤ self.capacity }
    {
        let Receiver {
            ring,
            mut seat,
            ports: _,
            taken,
            slot,
            total,
            spares,
        } = self;
        let drawn = ring.gather(&mut seat);
        let total = match total {
            Some(total) => total,
            None => drawn,
        };
        Gathered {
            ring,
            seat,
            taken,
            slot,
            total,
            _spares: spares,
        }
    }

    /// Brings all ends of the queue together, with the senders in any order. From then on the
    /// accepted messages are known whole. If a sender is missing, returns both unchanged.
    pub fn gather(self, senders: Vec<Sender>) -> Result<Gathered, (Receiver, Vec<Sender>)>
        requires together { AreOf self.queue senders.items }
        ensures most { IfOk result (λ g. g.most ≡ self.most) }
        ensures taken { IfOk result (λ g. g.taken ≡ self.taken) }
        ensures ports { IfOk result (λ g. g.ports ≡ self.ports) }
        ensures whole { IfOk result (λ g. IsWhole self.ports (brought_by_all senders.items) (accepted_of g)) }
        ensures items { IfOk result (λ g. AreItems self.ports (accepted_of g)) }
        ensures total { IfOk result (λ g. IfSome self.total (λ t. t ≡ length (accepted_of g))) }
        ensures few { IfOk result (λ g. length (accepted_of g) ≤ 2 ^ 46) }
        ensures within { IfOk result (λ g. length g.left ≤ self.capacity) }
        ensures receiver_back { IfErr result (λ back. back.0 ≡ self) }
        ensures senders_back { IfErr result (λ back. back.1 ≡ senders) }
        ensures missing { IfErr result (λ _. LacksOne self.ports senders.items) }
    {
        if !has_every(senders.as_slice(), self.ports) {
            return Err((self, senders));
        }
        let mut receiver = self;
        take_all_back(&mut receiver, senders);
        Ok(receiver.into_gathered())
    }
}

/// All ends of a queue together, so that its accepted messages are known whole. Contracts see the number of the queue's
/// senders, the messages taken, and the messages accepted and not taken yet.
#[derive(Drop)]
pub struct Gathered {
    ring: Arc<Ring>,
    seat: Knowing,
    taken: u64,
    // The slot of the next place.
    slot: usize,
    total: u64,
    // The senders' rooms.
    _spares: Vec<Room>,
}

impl Model for Gathered {
    ghost Value = { GatheredView };

    ghost view = { λ g. record {
      most = g.ring.value.most;
      ports = g.seat.me.0.made;
      taken = g.seat.me.0.taken;
      left = drop g.taken (whole g.seat.me.0);
    } };

    ghost invariant = { λ g. RestsAs g.ring.value.table.shared.table_id AsReceiver g.seat
        × IsGathered g.taken g.total g.seat.me.0 × IsSlotOf g.ring.value.capacity g.taken g.slot };
}

impl Gathered {
    /// Exchanges an empty room for the one with the next accepted message, or changes nothing exactly if all were
    /// taken. Returns whether there was a message.
    #[tactic(auto, using(crate::proofs::Senders::leaves))]
    pub fn take(&mut self, room: &mut Room) -> bool
        requires empty { room.old ≡ room_with self.old.most None }
        ensures most { room.new.most ≡ self.old.most }
        ensures told { result ≡ is_some room.new.item }
        ensures none { IfNone room.new.item (self.old.left ≡ []) }
        ensures unchanged { IfNone room.new.item (self.new ≡ self.old) }
        ensures some { IfSome room.new.item (λ item. self.old.left ≡ item ∷ self.new.left) }
        ensures taken { IfSome room.new.item (λ item. self.new.taken ≡ self.old.taken ++ item ∷ []) }
        ensures same { (self.new.most ≡ self.old.most) × (self.new.ports ≡ self.old.ports) }
        ensures port { IfSome room.new.item (λ item. item.0 < self.old.ports) }
        ensures message { IfSome room.new.item (λ item. IsMessage item.1) }
        ensures few { length self.new.taken ≤ 2 ^ 46 }
    {
        fetch(
            &self.ring,
            &mut self.seat,
            &mut self.taken,
            &mut self.slot,
            room,
        )
    }

    /// Returns true if all accepted messages were taken.
    #[tactic(auto, using(crate::proofs::Parts::tells))]
    pub fn is_drained(&self) -> bool
        ensures { TellsLeft result self.now.left }
    {
        self.taken == self.total
    }
}

// Returns true if the list has a sender of the port.
fn has_port(senders: &[Sender], port: usize) -> bool
    ensures { MatchBool result (HasPort senders.now port) (HasPort senders.now port → ⊥) }
{
    for sender in senders {
        if sender.index() == port {
            return true;
        }
    }
    false
}

// Returns true if the list has a sender of each port.
fn has_every(senders: &[Sender], ports: usize) -> bool
    ensures { MatchBool result (HasEvery ports senders.now) (LacksOne ports senders.now) }
{
    for port in 0..ports {
        if !has_port(senders, port) {
            return false;
        }
    }
    true
}

// Takes each sender back.
fn take_all_back(receiver: &mut Receiver, senders: Vec<Sender>)
    requires { AreOf receiver.old.queue senders.items }
    ensures { receiver.new ≡ record receiver.old {
      back = receiver.old.back ++ brought_by_all senders.items;
    } }
{
    for sender in senders {
        receiver.take_back(sender);
    }
}
