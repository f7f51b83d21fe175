//! A network in memory.
ghost use Rattle.std.specs.Prelude.{◌≡◌, ◌≢◌, ℕ, ◌+◌, ◌^◌, ◌<◌, ◌≤◌, List, [], ◌∷◌, ◌++◌, None, Some, true, false, length, OnOk, OnErr, IsErr, min, map, vec_len, vec_capacity};
ghost use Rattle.redundant_mux.specs.Lines.{IsAnswer, entry};
ghost use Rattle.redundant_mux.specs.Memory.{entries, entry_of, Memory, unused};

use crate::network::{HandFault, Network};
use afdx_frame::{Frame, FrameBuffer, GREATEST_FRAME};
use std::alloc::Global;
use std::marker::Model;

/// A frame that a network accepted, and its time in microseconds.
#[derive(Debug, Drop)]
pub struct Handed {
    pub at: u64,
    pub frame: Frame,
}

impl Handed {
    /// Creates an entry without a frame, to be filled.
    pub(crate) fn empty() -> Handed {
        Handed {
            at: 0,
            frame: Frame::new(),
        }
    }

    /// Overwrites the entry.
    pub(crate) fn fill(&mut self, at: u64, frame: &[u8])
        requires { length frame.now ≤ GREATEST_FRAME }
        ensures { entry_of self.new ≡ entry at frame.now }
    {
        self.at = at;
        // The bytes that are cut off are blanked, so no more is cut off than is left over.
        let kept = frame.len().min(self.frame.len());
        self.frame.truncate(kept);
        self.frame.copy_from_slice(&frame[..kept]);
        if kept < frame.len() {
            if self.frame.try_extend_from_slice(&frame[kept..]).is_err() {
                unreachable!();
            }
        }
    }
}

/// A network that keeps all frames in memory. Contracts see the frames, the capacity, the number of
/// failures and of calls of `hand` and `hand_with`, and the number of the call that fails.
#[derive(Drop)]
pub struct MemNetwork {
    handed: Vec<Handed>,
    failures: u64,
    asked: u64,
    fails_at: Option<u64>,
}

impl Model for MemNetwork {
    ghost Value = { Memory };

    ghost view = { λ m. record {
      handed = entries m.handed.items;
      capacity = vec_capacity m.handed;
      failures = m.failures;
      asked = m.asked;
      fails_at = m.fails_at;
    } };
}

impl MemNetwork {
    /// Creates a network without frames. It fails only if an allocation fails.
    pub fn new(alloc: Global) -> MemNetwork
        ensures { result ≡ unused None }
    {
        MemNetwork {
            handed: Vec::new(alloc),
            failures: 0,
            asked: 0,
            fails_at: None,
        }
    }

    /// Creates a network as `new` does, but call `k` of `hand` and `hand_with`, counted from 1, fails. Later calls
    /// succeed again: abandoning a network is its caller's task.
    pub fn failing_at(alloc: Global, k: u64) -> MemNetwork
        ensures { result ≡ unused (Some k) }
    {
        let mut network = MemNetwork::new(alloc);
        network.fails_at = Some(k);
        network
    }

    /// Returns the accepted frames, in order.
    pub fn handed(&self) -> &[Handed]
        ensures { entries result.now ≡ self.now.handed }
    {
        &self.handed
    }

    /// Returns the number of failed calls of `hand` and `hand_with`.
    pub fn failures(&self) -> u64
        ensures { result ≡ self.now.failures }
    {
        self.failures
    }
}

impl Network for MemNetwork {
    ghost handed = { λ m. m.handed };

    ghost failures = { λ m. m.failures };

    /// Appends the frame. Fails only at the call that is to fail, or if an allocation fails. The
    /// count of calls stops at the greatest u64, and no later call is the one that is to fail.
    fn hand(&mut self, at: u64, frame: &[u8]) -> Result<(), HandFault>
        requires short { length frame.now ≤ GREATEST_FRAME }
        requires few { self.old.failures + 1 < 2 ^ 64 }
        ensures answer { IsAnswer result (entry at frame.now)
            self.old.handed self.new.handed self.old.failures self.new.failures }
        ensures fails { self.old.fails_at ≡ Some (self.old.asked + 1) → IsErr result }
        ensures only { OnErr result (self.old.fails_at ≢ Some (self.old.asked + 1) →
            self.old.capacity ≤ length self.old.handed) }
        ensures capacity { self.old.capacity ≤ self.new.capacity }
        ensures asked { self.new.asked ≡ min (self.old.asked + 1) u64.MAX }
        ensures fails_at { self.new.fails_at ≡ self.old.fails_at }
    {
        let is_to_fail = counts_to(&mut self.asked, self.fails_at);
        if is_to_fail || !keep(&mut self.handed, at, frame) {
            self.failures += 1;
            return Err(HandFault);
        }
        Ok(())
    }

    /// Accepts a frame as `hand` does, from a buffer, which is unchanged.
    fn hand_with(&mut self, at: u64, frame: &mut Box<FrameBuffer>) -> Result<(), HandFault>
        requires few { self.old.failures + 1 < 2 ^ 64 }
        ensures answer { IsAnswer result (entry at frame.old.value.items)
            self.old.handed self.new.handed self.old.failures self.new.failures }
        ensures fails { self.old.fails_at ≡ Some (self.old.asked + 1) → IsErr result }
        ensures only { OnErr result (self.old.fails_at ≢ Some (self.old.asked + 1) →
            self.old.capacity ≤ length self.old.handed) }
        ensures capacity { self.old.capacity ≤ self.new.capacity }
        ensures asked { self.new.asked ≡ min (self.old.asked + 1) u64.MAX }
        ensures fails_at { self.new.fails_at ≡ self.old.fails_at }
        ensures same { frame.new.value.items ≡ frame.old.value.items }
    {
        self.hand(at, frame.as_slice())
    }
}

/// Counts a call, up to the greatest u64. Returns whether this call is to fail.
fn counts_to(asked: &mut u64, fails_at: Option<u64>) -> bool
    ensures fails { fails_at ≡ Some (asked.old + 1) → result ≡ true }
    ensures other { fails_at ≢ Some (asked.old + 1) → result ≡ false }
    ensures asked { asked.new ≡ min (asked.old + 1) u64.MAX }
{
    match asked.checked_add(1) {
        Some(number) => {
            *asked = number;
            fails_at == Some(number)
        }
        None => false,
    }
}

/// Appends a frame, filled in place. Returns false if an allocation fails.
fn keep(handed: &mut Vec<Handed>, at: u64, frame: &[u8]) -> bool
    requires { length frame.now ≤ GREATEST_FRAME }
    ensures kept { result ≡ true → entries handed.new.items ≡ entries handed.old.items ++ entry at frame.now ∷ [] }
    ensures same { result ≡ false → entries handed.new.items ≡ entries handed.old.items }
    ensures full { result ≡ false → vec_capacity handed.old ≤ vec_len handed.old }
    ensures capacity { vec_capacity handed.old ≤ vec_capacity handed.new }
{
    let end = handed.len();
    if handed.push(Handed::empty()).is_err() {
        return false;
    }
    handed[end].fill(at, frame);
    true
}
