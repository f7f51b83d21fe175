//! A network that keeps the last frames that it accepted.
ghost use Rattle.std.specs.Prelude.{Bool, ◌≡◌, ◌+◌, ◌-◌, ◌%◌, ◌≤◌, ◌^◌, ◌<◌, ◌||◌, nat_eq, [], ◌∷◌, ◌++◌, true, false, if◌then◌else◌, length, IfOk, OnOk, OnErr, IsErr, ◌↔◌, IsSome, IfSome};
ghost use Rattle.redundant_mux.specs.Lines.{IsAnswer, entry, entries_of};
ghost use Rattle.std.specs.Box.{boxed_slice_items};
ghost use Rattle.redundant_mux.specs.Memory.{OutboxView, KeepsLast, fresh_outbox, IsKept, entry_at, kept_entry, Refuses};

use crate::mux::Trail;
use crate::network::{Failable, HandFault, Network};
use afdx_frame::{FrameBuffer, GREATEST_FRAME};
use afdx_plan::Networks;
use std::alloc::{AllocError, Global};
use std::boxed::BoxedSlice;
use std::marker::{Model, PhantomData};
use std::mem::swap;

/// The greatest number of frames that are kept: the most of one poll, one per virtual link.
pub const ROOM: usize = 64;

/// The span of an outbox, which keeps at most the last 64 accepted frames: all of these, or only those with the latest
/// time.
pub trait Span {
    const EARLIER: bool;

    ghost EARLIER: { Bool };
}

/// The last 64 frames.
#[derive(Clone, Copy)]
pub struct LastFrames;

impl Span for LastFrames {
    const EARLIER: bool = true;

    ghost EARLIER = { true };
}

/// The frames of the last time, at most the last 64. They are written from the first slot on, so that few of them use
/// little of the cache.
#[derive(Clone, Copy)]
pub struct LastTime;

impl Span for LastTime {
    const EARLIER: bool = false;

    ghost EARLIER = { false };
}

/// A frame that is kept, and its time in microseconds.
#[derive(Drop)]
pub struct Kept {
    pub at: u64,
    pub frame: Box<FrameBuffer>,
}

/// The number of the first frame that is kept, and if none of an earlier time is, the time of all.
#[derive(Clone, Copy)]
struct Latest {
    at: u64,
    first: u64,
}

impl Latest {
    /// Returns the slot for the next frame, which is accepted at time `at`.
    fn slot(&mut self, earlier: bool, at: u64, count: u64) -> usize
        requires { self.old.first ≤ count }
        ensures at { earlier ≡ false → self.new.at ≡ at }
        ensures first { self.new.first ≡ (if earlier || nat_eq at self.old.at then self.old.first else count) }
        ensures slot { result ≡ (count - self.new.first) % 64 }
    {
        if !earlier && at != self.at {
            *self = Latest { at, first: count };
        }
        ((count - self.first) % ROOM as u64) as usize
    }
}

/// A network that keeps the last 64 accepted frames by their numbers, or only the ones with the latest time
/// (`Outbox<LastTime>`). After `fail` each call of `hand` and `hand_with` fails. Contracts see all frames that it
/// accepted, the failures, and whether it was made to fail.
#[derive(Drop)]
pub struct Outbox<S: Span = LastFrames> {
    slots: BoxedSlice<Kept>,
    latest: Latest,
    count: u64,
    failures: u64,
    failing: bool,
    // All frames accepted so far, for proofs alone.
    trail: Trail,
    span: PhantomData<S>,
}

impl<S: Span> Model for Outbox<S> {
    ghost Value = { OutboxView };

    ghost view = { λ o. record {
      handed = entries_of o.trail.logged;
      failures = o.failures;
      failing = o.failing;
    } };

    ghost invariant = { λ o. KeepsLast S.EARLIER (boxed_slice_items o.slots) o.latest o.count
        (entries_of o.trail.logged) };
}

/// Creates 64 empty slots.
fn make_slots(alloc: Global) -> Result<Vec<Kept>, AllocError>
    ensures { IfOk result (λ slots. length slots.items ≡ 64) }
{
    let mut slots = Vec::with_capacity(alloc, ROOM)?;
    for _ in 0..ROOM {
        slots.push(Kept {
            at: 0,
            frame: Box::new(alloc, FrameBuffer::new())?,
        })?;
    }
    Ok(slots)
}

impl Outbox<LastFrames> {
    /// Creates an outbox without frames, which will keep the last 64. No later call allocates.
    pub fn new(alloc: Global) -> Result<Outbox<LastFrames>, AllocError>
        ensures { IfOk result (λ outbox. outbox ≡ fresh_outbox) }
    {
        Outbox::empty(alloc)
    }
}

impl Outbox<LastTime> {
    /// Creates an outbox without frames. It will keep at most the last 64, and only the ones with the latest time. No
    /// later call allocates.
    pub fn of_last_time(alloc: Global) -> Result<Outbox<LastTime>, AllocError>
        ensures { IfOk result (λ outbox. outbox ≡ fresh_outbox) }
    {
        Outbox::empty(alloc)
    }
}

impl<S: Span> Outbox<S> {
    /// Creates an outbox without frames.
    fn empty(alloc: Global) -> Result<Outbox<S>, AllocError>
        ensures { IfOk result (λ outbox. outbox ≡ fresh_outbox) }
    {
        Ok(Outbox {
            slots: make_slots(alloc)?.into_boxed_slice(),
            latest: Latest { at: 0, first: 0 },
            count: 0,
            failures: 0,
            failing: false,
            trail: Trail::new(),
            span: PhantomData,
        })
    }

    /// Returns the number of frames accepted so far.
    pub fn count(&self) -> u64
        ensures { result ≡ length self.now.handed }
    {
        self.count
    }

    /// Returns the frame with this number, from 0, or `None` exactly if it isn't kept: it isn't among the last 64, or
    /// the outbox keeps only the latest time and a later frame has another time.
    pub fn frame(&self, number: u64) -> Option<&Kept>
        ensures some { IsSome result ↔ IsKept S.EARLIER self.now.handed number }
        ensures frame { IfSome result (λ kept. kept_entry kept.now ≡ entry_at self.now.handed number) }
    {
        let first = self.latest.first;
        if number < first || number >= self.count || self.count - number > ROOM as u64 {
            return None;
        }
        Some(&self.slots[((number - first) % ROOM as u64) as usize])
    }

    /// Counts a failure if it was made to fail or 2^64 - 1 frames were accepted.
    fn refuses(&mut self) -> bool
        requires few { self.old.failures + 1 < 2 ^ 64 }
        ensures handed { self.new.handed ≡ self.old.handed }
        ensures failures { self.new.failures ≡ (if result then self.old.failures + 1 else self.old.failures) }
        ensures failing { self.new.failing ≡ self.old.failing }
        ensures fails { Refuses self.old (result ≡ true) }
        ensures room { result ≡ false → length self.old.handed + 1 < 2 ^ 64 }
    {
        let refused = self.failing || self.count == u64::MAX;
        if refused {
            self.failures += 1;
        }
        refused
    }
}

impl<S: Span> Network for Outbox<S> {
    ghost handed = { λ o. o.handed };

    ghost failures = { λ o. o.failures };

    ghost failing = { λ o. o.failing };

    /// Copies the frame over an older one. Fails exactly if the outbox was made to fail, or if 2^64 - 1 frames were
    /// accepted.
    fn hand(&mut self, at: u64, frame: &[u8]) -> Result<(), HandFault>
        requires short { length frame.now ≤ GREATEST_FRAME }
        requires few { self.old.failures + 1 < 2 ^ 64 }
        ensures answer { IsAnswer result (entry at frame.now)
            self.old.handed self.new.handed self.old.failures self.new.failures }
        ensures failing { self.new.failing ≡ self.old.failing }
        ensures fails { Refuses self.old (IsErr result) }
    {
        if self.refuses() {
            return Err(HandFault);
        }
        let slot = &mut self.slots[self.latest.slot(S::EARLIER, at, self.count)];
        slot.at = at;
        slot.frame.fill(frame);
        self.count += 1;
        // Contracts read the entries alone, so any `Networks` will do.
        self.trail = Trail::with(&self.trail, &Networks::Both, &at, frame);
        Ok(())
    }

    /// Accepts a frame as `hand` does, without a copy: exchanges its buffer for an older frame's.
    fn hand_with(&mut self, at: u64, frame: &mut Box<FrameBuffer>) -> Result<(), HandFault>
        requires few { self.old.failures + 1 < 2 ^ 64 }
        ensures answer { IsAnswer result (entry at frame.old.value.items)
            self.old.handed self.new.handed self.old.failures self.new.failures }
        ensures failing { self.new.failing ≡ self.old.failing }
        ensures fails { Refuses self.old (IsErr result) }
    {
        if self.refuses() {
            return Err(HandFault);
        }
        let slot = &mut self.slots[self.latest.slot(S::EARLIER, at, self.count)];
        slot.at = at;
        swap(&mut slot.frame, frame);
        self.count += 1;
        self.trail = Trail::with(&self.trail, &Networks::Both, &at, slot.frame.as_slice());
        Ok(())
    }
}

impl<S: Span> Failable for Outbox<S> {
    /// Makes each later call of `hand` and `hand_with` fail.
    fn fail(&mut self)
        ensures { self.new ≡ record self.old { failing = true } }
    {
        self.failing = true;
    }
}
