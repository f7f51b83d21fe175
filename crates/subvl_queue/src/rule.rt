//! The rule, the knowledge of a seat at the table, and the outcome of each step. No value of these types is made.
ghost use Rattle.std.specs.Prelude.{ℕ, List, [], Option, None, length};
ghost use Rattle.subvl_queue.specs.Messages.{IsMessage, room_with};
ghost use Rattle.subvl_queue.specs.Queue.{Queue};
ghost use Rattle.subvl_queue.specs.Steps.{first_view, new_seat, spent_view, reserves, unreserves, claims, publishes, finds_ready, takes_out, finds_closed, closes, gathers, one_made, with_joined, telling, hearing, no_seat};

use crate::room::Room;
use atomic_table::{Join, Play, Split, TableRule};
use std::collections::LinkedList;
use std::marker::{Brand, PhantomData};

pub enum Role {
    Sender,
    Receiver,
    Spent,
}

pub enum Stage {
    Idle,
    Asked,
    Refused,
    Drew,
    Late,
    Holding,
}

// `own` has each accepted message with its place. `load` is the number of held messages and slot requests under way at
// the seat's last slot request. `at` and `item` are the place and the message of the slot that it holds.
//
// Whether another seat's answer is true is judged by the counts of it that a seat took at its own steps: `looks_then`,
// the receiver's looks when the seat last made a place ready; `asks_then`, for each place or slot request that it gave
// back, the slot requests of each seat; `glances_then`, the checks of each seat at the close. `heard` has the lists of
// senders that the seat heard of, each with its port.
pub struct View<T> {
    pub role: Role,
    pub port: u64,
    pub asks: u64,
    pub own: LinkedList<(u64, T)>,
    pub stage: Stage,
    pub at: u64,
    pub item: Option<(u64, T)>,
    pub load: u64,
    pub glances: u64,
    pub shut: bool,
    pub looks: u64,
    pub found: bool,
    pub looks_then: u64,
    pub asks_then: LinkedList<LinkedList<u64>>,
    pub glances_then: LinkedList<u64>,
    pub heard: LinkedList<(u64, LinkedList<(u64, T)>)>,
    pub taken: LinkedList<(u64, T)>,
    pub made: u64,
    pub joined: LinkedList<(u64, LinkedList<(u64, T)>)>,
    pub total: Option<u64>,
    pub all: Option<LinkedList<(u64, T)>>,
}

/// The bytes of a message.
pub type Text = LinkedList<u8>;

/// The knowledge of a seat.
pub type Known = View<Text>;

// The table's parameter is the number of bytes that each slot may hold.
pub struct Rule;

impl TableRule<Room, Known, usize> for Rule {
    ghost holds = { λ most. Queue (room_with most) IsMessage };

    ghost first = { λ _. first_view };
}

// The number of bytes that a slot may hold, and the message that a send will write, for the proof alone.
pub(crate) trait Said {
    ghost most: { ℕ };

    ghost item: { Option (ℕ × List ℕ) };
}

impl Said for Brand {
    ghost most = { 0 };

    ghost item = { None };
}

pub(crate) struct Reserve;

impl Play<Room, Known> for Reserve {
    ghost then = { reserves };
}

pub(crate) struct Unreserve;

impl Play<Room, Known> for Unreserve {
    ghost then = { unreserves };
}

pub(crate) struct Claim<W> {
    marker: PhantomData<W>,
}

impl<W: Said> Play<Room, Known> for Claim<W> {
    ghost then = { claims (room_with W.most) W.item };
}

pub(crate) struct Publish;

impl Play<Room, Known> for Publish {
    ghost then = { publishes };
}

pub(crate) struct IsReady<W> {
    marker: PhantomData<W>,
}

impl<W: Said> Play<Room, Known> for IsReady<W> {
    ghost then = { λ st m r n. finds_ready (room_with W.most) IsMessage (length m.0.taken) st m r n };
}

pub(crate) struct Take;

impl Play<Room, Known> for Take {
    ghost then = { takes_out };
}

pub(crate) struct IsClosed;

impl Play<Room, Known> for IsClosed {
    ghost then = { finds_closed };
}

pub(crate) struct Close;

impl Play<Room, Known> for Close {
    ghost then = { closes };
}

pub(crate) struct Gather;

impl Play<Room, Known> for Gather {
    ghost then = { gathers IsMessage };
}

pub(crate) struct Make;

impl Split<Known> for Make {
    ghost left = { one_made };

    ghost right = { λ v. new_seat v.made };
}

// The counts that a sender took at its last step and at those in which it gave something back, for the proof alone.
pub(crate) trait Left {
    ghost looks_then: { ℕ };

    ghost asks_then: { List (List ℕ) };
}

impl Left for Brand {
    ghost looks_then = { 0 };

    ghost asks_then = { [] };
}

pub(crate) struct TakeIn<W> {
    marker: PhantomData<W>,
}

impl<W: Left> Join<Known> for TakeIn<W> {
    ghost both = { with_joined };

    ghost spent = { spent_view W.looks_then W.asks_then };
}

// The step in which a sender tells the receiver its accepted messages.
pub(crate) struct Tells;

impl Split<Known> for Tells {
    ghost left = { λ v. v };

    ghost right = { telling };
}

impl Join<Known> for Tells {
    ghost both = { hearing };

    ghost spent = { no_seat };
}
