//! A sub-VL: its queue, and the message being sent.
ghost use Rattle.std.specs.Prelude.{◌≡◌, ◌≢◌, ◌≤◌, [], ◌∷◌, length, All, None, Some, IfOk, IfErr, IfSome, IfNone, is_some};
ghost use Rattle.afdx_plan.specs.Plan.{IsLink};
ghost use Rattle.afdx_frame.specs.declared.net.Net.TheVariants.{A as ForA};
ghost use Rattle.afdx_frame.specs.Fragments.{blanked};
ghost use Rattle.afdx_frame.specs.Header.{IsFrameOf};
ghost use Rattle.subvl_queue.specs.Messages.{IsItem, most_calls, room_with};
ghost use Rattle.vl_link.specs.Seen.{most_of, ports_of, FindsNothing, Finds, TellsDrained, receiving, IsReceiving, queue_of};
ghost use Rattle.vl_link.specs.Kept.{seen_of, IsSub, AreOfEndSystem, plans_of, cut_among, IsPortOf};
ghost use Rattle.std.specs.Box.{boxed_slice_items};
ghost use Rattle.vl_link.specs.Links.{Held, left_of, Asks};
ghost use Rattle.vl_link.specs.Calls.{TellsSubDone, IsFullSub, GathersSub, LacksSender, ChangesQueue, Closes, MakesSender, TakesBack, Hears};

use afdx_frame::{FrameBuffer, Net, Rest, Template};
use afdx_plan::LinkPlan;
use std::alloc::{AllocError, Global};
use std::boxed::BoxedSlice;
use std::marker::Model;
use std::mem::replace;
use subvl_queue::{Gathered, Receiver, Room, Sender};

/// The taking end of a queue: a receiver, or all ends.
#[derive(Drop)]
pub enum Queue {
    Gathered(Gathered),
    // The receiver was moved out, to be gathered.
    Empty,
    // Last, since a `match` tests for the last variant first.
    Receiving(Receiver),
}

impl Queue {
    /// Exchanges an empty room for the one with the next message, if it is ready. Returns whether
    /// it was. Never waits.
    pub fn take(&mut self, room: &mut Room) -> bool
        requires empty { room.old ≡ room_with (most_of (seen_of self.old)) None }
        ensures most { room.new.most ≡ most_of (seen_of self.old) }
        ensures told { result ≡ is_some room.new.item }
        ensures none { IfNone room.new.item (FindsNothing (seen_of self.old) (seen_of self.new)) }
        ensures some { IfSome room.new.item (λ item. Finds (seen_of self.old) item (seen_of self.new)) }
        ensures item { IfSome room.new.item (IsItem (ports_of (seen_of self.old))) }
    {
        match self {
            Queue::Receiving(receiver) => receiver.take(room),
            Queue::Gathered(all) => all.take(room),
            Queue::Empty => false,
        }
    }

    /// Returns true if it is known that no message is left.
    pub fn is_drained(&self) -> bool
        ensures { TellsDrained result (seen_of self.now) }
    {
        match self {
            Queue::Receiving(_) => false,
            Queue::Gathered(all) => all.is_drained(),
            Queue::Empty => true,
        }
    }
}

/// A sub-VL. Contracts see its ports, the fragments left of the message being sent, and its queue.
#[derive(Drop)]
pub struct Sub {
    // The fields that a turn reads are side by side.
    queue: Queue,
    // The rest of the message being sent, and its room, which is empty if no message is being sent.
    rest: Rest,
    room: Room,
    // The place of the next message, modulo 16,384.
    place: u16,
    // The ports, in the order of the plan. A message's port is an index into them.
    ports: BoxedSlice<Template>,
    of: SubVl,
}

impl Model for Sub {
    ghost Value = { Held };

    ghost view = { λ s. record {
      of = s.of;
      ports = plans_of (boxed_slice_items s.ports);
      left = left_of s.of (cut_among (plans_of (boxed_slice_items s.ports)) s.room.item s.rest);
      seen = seen_of s.queue;
    } };

    ghost invariant = { λ s. IsSub s.of (plans_of (boxed_slice_items s.ports)) s.room s.rest (seen_of s.queue) s.place
        × AreOfEndSystem s.of.end_system (boxed_slice_items s.ports) };
}

impl Sub {
    /// Creates a sub-VL of the ports of these templates, over a queue with no more senders than ports. It has taken
    /// nothing, and has an empty room of the queue's size.
    pub fn new(of: SubVl, ports: Vec<Template>, receiver: Receiver, room: Room) -> Sub
        requires link { IsLink of.link }
        requires end_system { AreOfEndSystem of.end_system ports.items }
        requires ports { All (IsPortOf of) (plans_of ports.items) }
        requires count { receiver.ports ≤ length ports.items }
        requires fresh { receiver.taken ≡ [] }
        requires room { room ≡ room_with receiver.most None }
        ensures { result ≡ record {
          of = of;
          ports = plans_of ports.items;
          left = [];
          seen = receiving receiver;
        } }
    {
        Sub {
            queue: Queue::Receiving(receiver),
            rest: Rest::none(),
            room,
            place: 0,
            ports: ports.into_boxed_slice(),
            of,
        }
    }

    /// Returns true if there is a fragment to send. Polls the queue only if no message is being sent, and begins to
    /// send the message that it takes.
    pub fn ready(&mut self) -> bool
        ensures { Asks result self.old self.new }
    {
        if !self.rest.is_done() {
            return true;
        }
        if !self.queue.take(&mut self.room) {
            return false;
        }
        self.rest = Rest::new(self.room.len(), u64::from(self.place));
        self.place = (self.place + 1) % 16384;
        true
    }

    /// Returns true if no message is being sent, and it is known that none is left in the queue.
    pub fn is_done(&self) -> bool
        ensures { TellsSubDone result self.now }
    {
        self.rest.is_done() && self.queue.is_drained()
    }

    /// Writes the next frame, for network A and with this sequence number, into the caller's
    /// buffer.
    pub fn write_next(&mut self, number: u8, out: &mut FrameBuffer)
        requires { self.old.left ≢ [] }
        ensures left { self.old.left ≡ blanked out.new.items ∷ self.new.left }
        ensures frame { IsFrameOf self.old.of.link.id.0 self.old.of.sub number ForA out.new.items }
        ensures same { self.new ≡ record self.old { left = self.new.left } }
    {
        let template = &self.ports[self.room.port()];
        if !self.rest.write_next(
            self.room.bytes(),
            self.room.sum(),
            template,
            &self.of.link,
            number,
            Net::A,
            out,
        ) {
            unreachable!()
        }
        if self.rest.is_done() {
            self.rest = Rest::none();
            self.room.clear();
        }
    }

    /// Closes the sub-VL's queue, and returns the final number of accepted messages. None is accepted from then on, and
    /// each later close returns the same. Never waits.
    pub fn close(&mut self) -> u64
        requires receiving { IsReceiving self.old.seen }
        ensures { ChangesQueue (Closes result) self.old self.new }
    {
        match &mut self.queue {
            Queue::Receiving(receiver) => receiver.close(),
            _ => unreachable!(),
        }
    }

    /// Makes the sender of the sub-VL's next port, for at most `calls` calls. If an allocation fails, nothing changes.
    pub fn new_sender(&mut self, alloc: Global, calls: u64) -> Result<Sender, AllocError>
        requires lacks { LacksSender self.old }
        requires calls { calls ≤ most_calls }
        ensures sender { IfOk result (λ sender. ChangesQueue (MakesSender calls sender) self.old self.new) }
        ensures unchanged { IfErr result (λ _. self.new ≡ self.old) }
    {
        match &mut self.queue {
            Queue::Receiving(receiver) => receiver.new_sender(alloc, calls),
            _ => unreachable!(),
        }
    }

    /// Takes a sender of the sub-VL's queue back.
    pub fn take_back(&mut self, sender: Sender)
        requires own { queue_of self.old.seen ≡ Some sender.queue }
        ensures { ChangesQueue (TakesBack sender) self.old self.new }
    {
        match &mut self.queue {
            Queue::Receiving(receiver) => receiver.take_back(sender),
            _ => unreachable!(),
        }
    }

    /// Tells the sub-VL's queue of the messages that a sender of it has sent. A poll then finds each of them once it is
    /// the next (clause `heard` of `Receiver::take`).
    pub fn hear(&mut self, sender: &mut Sender)
        requires own { queue_of self.old.seen ≡ Some sender.old.queue }
        ensures queue { ChangesQueue (Hears sender.old) self.old self.new }
        ensures sender { sender.new ≡ sender.old }
        ensures counts { length sender.old.places ≡ length sender.old.own }
    {
        match &mut self.queue {
            Queue::Receiving(receiver) => receiver.hear(sender),
            _ => unreachable!(),
        }
    }

    /// Brings the ends of the sub-VL's queue together, once all its senders are back. Never waits.
    pub fn gather(&mut self)
        requires full { IsFullSub self.old }
        ensures { GathersSub self.old self.new }
    {
        let Queue::Receiving(receiver) = replace(&mut self.queue, Queue::Empty) else {
            unreachable!()
        };
        self.queue = Queue::Gathered(receiver.into_gathered());
    }
}

/// A sub-VL: its end system, its link, and its index there.
#[derive(Clone, Copy, Debug, PartialEq, Eq)]
pub struct SubVl {
    pub end_system: u16,
    pub link: LinkPlan,
    pub sub: u8,
}
