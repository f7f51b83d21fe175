//! The table of a queue, and each step on it.
ghost use Rattle.std.specs.Prelude.{◌≡◌, ℕ, ◌+◌, ◌%◌, ◌^◌, ◌<◌, ◌≤◌, ◌⊎◌, [], ◌∷◌, false, Some, None, IsTrue, length, true};
ghost use mathlib.Core.Option.{some};
ghost use lib.ListN.{get_elem?};
ghost use Rattle.subvl_queue.specs.declared.rule.Role.TheVariants.{Sender, Receiver};
ghost use Rattle.subvl_queue.specs.declared.rule.Stage.TheVariants.{Idle, Asked, Refused, Drew, Late, Holding};
ghost use Rattle.subvl_queue.specs.Messages.{IsMessage, most_bytes, room_with};
ghost use Rattle.subvl_queue.specs.Queue.{IsAtTable, RestsAs, IsSlotOf};
ghost use Rattle.subvl_queue.specs.Steps.{new_seat, Finds, Misses, AreInRow, IsLog, with_ask, undone, published, drawn, lated, with_glance, with_total, one_made, with_joined, telling, hearing, with_all, freed_of};

use crate::room::Room;
use crate::rule::{
    Claim, Close, Gather, IsClosed, IsReady, Known, Left, Make, Publish, Reserve, Rule, Said, Take,
    TakeIn, Tells, Unreserve,
};
use atomic_table::{Seat, Table};
use std::alloc::Global;
use std::mem::swap;

/// The index of the word of the room.
pub const ROOM: usize = 0;

/// The index of the word of claimed places.
pub const TAIL: usize = 1;

/// The index of the first word that says which place is published in a slot.
pub const READY: usize = 2;

/// The bound over which the room's word says that there is room.
pub const NO_ROOM: u64 = 1 << 32;

/// The bit of TAIL that says that the queue is closed.
pub const CLOSED: u64 = 1 << 63;

/// A seat at the table, and its knowledge.
pub type Knowing = Seat<Room, Known>;

/// The table of a queue.
#[derive(Drop)]
pub struct Ring {
    // First, so that it is in the same line of the cache as the table's pointers.
    pub capacity: usize,
    // The number of bytes that each slot may hold.
    pub most: usize,
    pub table: Table<Room, Known, usize, Rule, Global>,
    ghost sized: { (table.shared.table_id.words ≡ capacity + 2) × (table.shared.table_id.slots ≡ capacity)
        × (0 < capacity) },
    ghost roomy: { (table.shared.key ≡ most) × (most ≤ most_bytes) },
}

impl Ring {
    /// Reserves a slot, and returns whether there was room: fewer held messages and slot requests under
    /// way than the capacity.
    #[tactic(auto, using(crate::proofs::Moves::reserves_ok))]
    pub fn reserve(&self, seat: &mut Knowing) -> bool
        requires seat { RestsAs self.now.table.shared.table_id Sender seat.old }
        requires asks { seat.old.me.0.asks < 2 ^ 40 }
        ensures seat { IsAtTable self.now.table.shared.table_id seat.new × (seat.new.me.1 ≡ []) }
        ensures found { IsTrue result → seat.new.me.0 ≡ with_ask seat.old.me.0 Asked seat.new.me.0.load }
        ensures room { IsTrue result → seat.new.me.0.load < self.now.capacity }
        ensures none { result ≡ false → seat.new.me.0 ≡ with_ask seat.old.me.0 Refused seat.new.me.0.load }
        ensures full { result ≡ false → self.now.capacity ≤ seat.new.me.0.load }
    {
        self.table.shared.fetch_sub::<Reserve>(seat, ROOM, 1) > NO_ROOM
    }

    /// Gives back a reservation that found no room, or whose place was late.
    pub fn unreserve(&self, seat: &mut Knowing)
        requires seat { IsAtTable self.now.table.shared.table_id seat.old × (seat.old.me.1 ≡ []) }
        requires role { seat.old.me.0.role ≡ Sender }
        requires stage { (seat.old.me.0.stage ≡ Refused) ⊎ (seat.old.me.0.stage ≡ Late) }
        ensures seat { IsAtTable self.now.table.shared.table_id seat.new × (seat.new.me.1 ≡ []) }
        ensures view { seat.new.me.0 ≡ undone seat.old.me.0 seat.new.me.0.asks_then }
    {
        self.table.shared.fetch_add::<Unreserve>(seat, ROOM, 1);
    }

    /// Claims a place for a port's message, which the room has. The message is accepted there if the queue isn't
    /// closed. The place's slot, which is empty, is then the seat's.
    pub fn claim<W: Said>(
        &self,
        seat: &mut Knowing,
        _room: &Room,
        _port: usize,
        _bytes: &[u8],
    ) -> u64
        requires copied { _room.now ≡ room_with self.now.most (Some (_port, _bytes.now)) }
        requires said { (W.item ≡ Some (_port, _bytes.now)) × (_port ≡ seat.old.me.0.port) }
        requires most { W.most ≡ self.now.most }
        requires message { IsMessage _bytes.now }
        requires seat { IsAtTable self.now.table.shared.table_id seat.old × (seat.old.me.1 ≡ []) }
        requires view { (seat.old.me.0.role ≡ Sender) × (seat.old.me.0.stage ≡ Asked) }
        ensures seat { IsAtTable self.now.table.shared.table_id seat.new }
        ensures drawn { result < 2 ^ 63 → seat.new.me ≡ (
          drawn seat.old.me.0 result (_port, _bytes.now),
          (result % self.now.capacity, room_with self.now.most None) ∷ [],
        ) }
        ensures late { 2 ^ 63 ≤ result → seat.new.me ≡ (lated seat.old.me.0, []) }
    {
        self.table.shared.fetch_add::<Claim<W>>(seat, TAIL, 1)
    }

    /// Returns the slot of a place.
    pub fn slot_of(&self, place: u64) -> usize
        ensures { IsSlotOf self.now.capacity place result }
    {
        (place % self.capacity as u64) as usize
    }

    /// Returns the slot of a place, from an earlier place and its slot. Divides only if a whole round of other places
    /// lies between.
    pub fn slot_from(&self, place: u64, earlier: u64, slot: usize) -> usize
        requires { IsSlotOf self.now.capacity earlier slot }
        ensures { IsSlotOf self.now.capacity place result }
    {
        if place < earlier || place - earlier >= self.capacity as u64 {
            return self.slot_of(place);
        }
        let ahead = (place - earlier) as usize;
        let left = self.capacity - slot;
        if ahead < left {
            slot + ahead
        } else {
            ahead - left
        }
    }

    /// Returns the slot of the next place after a slot's.
    pub fn slot_after(&self, slot: usize) -> usize
        requires { slot < self.now.capacity }
        ensures value { result ≡ (slot + 1) % self.now.capacity }
        ensures within { result < self.now.capacity }
    {
        let capacity = self.capacity;
        if slot + 1 < capacity { slot + 1 } else { 0 }
    }

    /// Exchanges the empty room in the slot of the place for the one with its message, and publishes
    /// the place.
    pub fn publish(&self, seat: &mut Knowing, place: u64, slot: usize, spare: &mut Room)
        requires seat { IsAtTable self.now.table.shared.table_id seat.old × (place < 2 ^ 63) }
        requires held { seat.old.me.1 ≡ (place % self.now.capacity, room_with self.now.most None) ∷ [] }
        requires slot { IsSlotOf self.now.capacity place slot }
        requires view { (seat.old.me.0.role ≡ Sender) × (seat.old.me.0.stage ≡ Drew) }
        requires item { (seat.old.me.0.at ≡ place) × (spare.old ≡ room_with self.now.most seat.old.me.0.item) }
        ensures seat { IsAtTable self.now.table.shared.table_id seat.new }
        ensures view { seat.new.me ≡ (published seat.old.me.0 seat.new.me.0.looks_then, []) }
        ensures room { spare.new ≡ room_with self.now.most None }
    {
        swap(seat.slot_mut(&self.table.shared, slot), spare);
        self.table
            .shared
            .store::<Publish>(seat, READY + slot, place + 1);
    }

    /// Returns true if the next place after the taken ones is published. If so, its slot is then the seat's.
    #[tactic(auto, using(crate::proofs::Moves::finds_ready_ok))]
    pub fn is_ready<W: Said>(&self, seat: &mut Knowing, place: u64, slot: usize) -> bool
        requires most { W.most ≡ self.now.most }
        requires seat { RestsAs self.now.table.shared.table_id Receiver seat.old }
        requires slot { (slot ≡ place % self.now.capacity) × (slot < self.now.capacity) }
        requires place { (place ≡ length seat.old.me.0.taken) × (place < 2 ^ 63) }
        ensures seat { IsAtTable self.now.table.shared.table_id seat.new }
        ensures found { IsTrue result → (x : _)
            × Finds (room_with self.now.most) IsMessage self.now.capacity place seat.old.me seat.new.me x }
        ensures none { result ≡ false → Misses place seat.old.me seat.new.me }
        ensures row { seat.old.me.0.made ≡ 1 → AreInRow seat.old.me.0.heard }
    {
        self.table.shared.load::<IsReady<W>>(seat, READY + slot) == place + 1
    }

    /// Exchanges the room in the slot of the place, which has a message, for one without, and gives
    /// the slot back.
    pub fn take(&self, seat: &mut Knowing, slot: usize, room: &mut Room)
        requires seat { IsAtTable self.now.table.shared.table_id seat.old }
        requires room { room.old ≡ room_with self.now.most None }
        requires slot { (x : _) × (seat.old.me.1 ≡ (slot, room_with self.now.most (Some x)) ∷ [])
            × (seat.old.me.0.item ≡ Some x) }
        requires view { (seat.old.me.0.role ≡ Receiver) × (seat.old.me.0.stage ≡ Holding) }
        requires place { seat.old.me.0.at % self.now.capacity ≡ slot }
        ensures seat { IsAtTable self.now.table.shared.table_id seat.new }
        ensures room { room.new ≡ room_with self.now.most seat.old.me.0.item }
        ensures view { (x : _) × (seat.old.me.0.item ≡ Some x)
            × (seat.new.me ≡ (freed_of seat.old.me.0 x seat.new.me.0.asks_then, [])) }
    {
        swap(seat.slot_mut(&self.table.shared, slot), room);
        self.table.shared.fetch_add::<Take>(seat, ROOM, 1);
    }

    /// Returns true if the queue is closed.
    pub fn is_closed(&self, seat: &mut Knowing) -> bool
        requires { RestsAs self.now.table.shared.table_id Sender seat.old }
        ensures seat { IsAtTable self.now.table.shared.table_id seat.new }
        ensures view { seat.new.me ≡ (with_glance seat.old.me.0 result, []) }
    {
        self.table.shared.load::<IsClosed>(seat, TAIL) >= CLOSED
    }

    /// Closes the queue, and returns the number of accepted messages.
    pub fn close(&self, seat: &mut Knowing) -> u64
        requires seat { RestsAs self.now.table.shared.table_id Receiver seat.old }
        requires open { seat.old.me.0.total ≡ None }
        ensures seat { IsAtTable self.now.table.shared.table_id seat.new }
        ensures view { seat.new.me ≡ (with_total seat.old.me.0 result seat.new.me.0.glances_then, []) }
        ensures taken { length seat.old.me.0.taken ≤ result }
    {
        self.table.shared.fetch_or::<Close>(seat, TAIL, CLOSED)
    }

    /// Finds all accepted messages, once each sender has joined. If the queue is open, returns their number.
    #[tactic(auto, using(crate::proofs::Moves::gathers_ok))]
    pub fn gather(&self, seat: &mut Knowing) -> u64
        requires seat { RestsAs self.now.table.shared.table_id Receiver seat.old }
        requires every { (k : ℕ) → k < seat.old.me.0.made →
            (i : ℕ) × (l : _) × (get_elem? seat.old.me.0.joined i ≡ some (k, l)) }
        ensures seat { IsAtTable self.now.table.shared.table_id seat.new × (seat.new.me.1 ≡ []) }
        ensures log { (l : _) × (seat.new.me.0 ≡ with_all seat.old.me.0 l)
            × IsLog IsMessage self.now.capacity seat.old.me.0 l × (seat.old.me.0.total ≡ None → result ≡ length l) }
    {
        self.table.shared.load::<Gather>(seat, TAIL)
    }

    /// Makes the seat of the next sender.
    pub fn make_sender(&self, seat: &mut Knowing) -> Knowing
        requires seat { RestsAs self.now.table.shared.table_id Receiver seat.old }
        requires made { seat.old.me.0.made < 64 }
        requires first { (seat.old.me.0.joined ≡ []) × (seat.old.me.0.all ≡ None) }
        ensures seat { IsAtTable self.now.table.shared.table_id seat.new }
        ensures view { seat.new.me ≡ (one_made seat.old.me.0, []) }
        ensures sender { IsAtTable self.now.table.shared.table_id result }
        ensures fresh { result.me ≡ (new_seat seat.old.me.0.made, []) }
    {
        self.table.shared.split_seat::<Make>(seat)
    }

    /// Takes in a sender's seat, with its knowledge.
    pub fn take_in<W: Left>(&self, seat: &mut Knowing, other: Knowing)
        requires left { (W.looks_then ≡ other.me.0.looks_then) × (W.asks_then ≡ other.me.0.asks_then) }
        requires seat { RestsAs self.now.table.shared.table_id Receiver seat.old }
        requires all { seat.old.me.0.all ≡ None }
        requires other { RestsAs self.now.table.shared.table_id Sender other }
        ensures seat { IsAtTable self.now.table.shared.table_id seat.new }
        ensures view { seat.new.me ≡ (with_joined seat.old.me.0 other.me.0, []) }
    {
        self.table.shared.join_seat::<TakeIn<W>>(seat, other);
    }

    /// Tells the receiver the messages of a sender that is between two calls.
    pub fn tell(&self, seat: &mut Knowing, teller: &mut Knowing)
        requires seat { RestsAs self.now.table.shared.table_id Receiver seat.old }
        requires teller { RestsAs self.now.table.shared.table_id Sender teller.old }
        ensures seat { IsAtTable self.now.table.shared.table_id seat.new }
        ensures view { seat.new.me ≡ (hearing seat.old.me.0 (telling teller.old.me.0), []) }
        ensures teller { IsAtTable self.now.table.shared.table_id teller.new }
        ensures same { teller.new.me ≡ (teller.old.me.0, []) }
    {
        let told = self.table.shared.split_seat::<Tells>(teller);
        self.table.shared.join_seat::<Tells>(seat, told);
    }
}
