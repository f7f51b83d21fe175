//! Sequence numbers, gap and cyclic order of a virtual link.
ghost use Rattle.std.specs.Prelude.{◌≡◌, ℕ, ◌+◌, ◌-◌, ◌*◌, ◌%◌, ◌^◌, ◌<◌, ◌≤◌, None, Some, true, MatchOption};
ghost use Rattle.afdx_plan.specs.Plan.{bag_micros, sequence_number};
ghost use Rattle.vl_shaper.specs.Pace.{Pace, is_due, due_from, waits_until, IsLater, turn_of, IsShaped};

use afdx_plan::Bag;
use std::marker::Model;

/// A release: its time in microseconds, and its sub-VL.
#[derive(Clone, Copy, Debug, PartialEq, Eq)]
pub struct Stamp {
    pub at: u64,
    pub sub: u8,
}

/// The regulation of a virtual link: the time from which it is due, the order in which its sub-VLs have their turns,
/// and the next sequence number (ARINC 664 Part 7, end system, virtual link scheduling).
#[derive(Drop)]
pub struct Shaper {
    // The time from which it is due, at most `u64::MAX`.
    from: u64,
    gap: u64,
    sub_vls: u8,
    last: Option<Stamp>,
    number: u8,
}

impl Model for Shaper {
    ghost Value = { Pace };

    ghost view = { λ s. record {
      gap = s.gap;
      sub_vls = s.sub_vls;
      last = s.last;
      next = s.number;
    } };

    ghost invariant = { λ s. IsShaped s.gap s.sub_vls s.last × (s.from ≡ waits_until s.gap s.last) };
}

impl Shaper {
    /// Creates a link that has released nothing: it is due at any time, sub-VL 0 has the first turn, and the next
    /// number is 0.
    pub fn new(bag: Bag, sub_vls: u8) -> Shaper
        requires some { 1 ≤ sub_vls }
        requires few { sub_vls ≤ 4 }
        ensures { result ≡ record {
          gap = bag_micros bag;
          sub_vls = sub_vls;
          last = None;
          next = sequence_number 0;
        } }
    {
        Shaper {
            from: 0,
            gap: bag.micros(),
            sub_vls,
            last: None,
            number: 0,
        }
    }

    /// Returns the number of the link's sub-VLs.
    pub fn sub_vls(&self) -> u8
        ensures value { result ≡ self.now.sub_vls }
        ensures some { 1 ≤ result }
        ensures few { result ≤ 4 }
    {
        self.sub_vls
    }

    /// Returns true if a frame may be released at `now`, in microseconds: none was released, or the last one at least a
    /// gap ago. A link that is served late doesn't catch up.
    pub fn due(&self, now: u64) -> bool
        requires { IsLater self.now.last now }
        ensures { result ≡ is_due self.now.gap self.now.last now }
    {
        if now < self.from {
            return false;
        }
        if self.from < u64::MAX {
            return true;
        }
        // The time from which it is due may have more than 64 bits.
        match self.last {
            None => true,
            Some(last) => self.gap <= now - last.at,
        }
    }

    /// Returns the time in microseconds from which the link is due: 0 if nothing was released, and `None` if that time
    /// has more than 64 bits.
    pub fn due_from(&self) -> Option<u64>
        ensures { MatchOption result (2 ^ 64 ≤ due_from self.now.gap self.now.last)
            (λ at. at ≡ due_from self.now.gap self.now.last) }
    {
        match self.last {
            None => Some(0),
            Some(last) => last.at.checked_add(self.gap),
        }
    }

    /// Returns the time in microseconds from which the link is due, or `u64::MAX` if that has more than 64 bits.
    pub fn waits_until(&self) -> u64
        ensures { result ≡ waits_until self.now.gap self.now.last }
    {
        self.from
    }

    /// Returns the sub-VL of turn `k`, from 0: in cyclic order after the last served sub-VL, so that each sub-VL has
    /// one turn.
    pub fn turn(&self, k: u8) -> u8
        requires { k < self.now.sub_vls }
        ensures turn { result ≡ turn_of self.now.sub_vls self.now.last k }
        ensures below { result < self.now.sub_vls }
        ensures apart { (j : ℕ) → j < self.now.sub_vls → turn_of self.now.sub_vls self.now.last j ≡ result → j ≡ k }
    {
        if self.sub_vls == 1 {
            // The only one, before it is known which was served last.
            return k;
        }
        match self.last {
            None => k,
            Some(last) => {
                let turn = last.sub + 1 + k;
                if turn < self.sub_vls {
                    turn
                } else {
                    turn - self.sub_vls
                }
            }
        }
    }

    /// Records a release of a sub-VL at `now`, in microseconds, and returns its sequence number: 0
    /// for the first, then 1 to 255, and 1 again after 255.
    pub fn stamp(&mut self, now: u64, sub: u8) -> u8
        requires later { IsLater self.old.last now }
        requires due { is_due self.old.gap self.old.last now ≡ true }
        requires sub { sub < self.old.sub_vls }
        ensures number { result ≡ self.old.next }
        ensures next { (i : ℕ) → self.old.next ≡ sequence_number i → self.new.next ≡ sequence_number (i + 1) }
        ensures last { self.new.last ≡ Some (record { at = now; sub = sub }) }
        ensures gap { self.new.gap ≡ self.old.gap }
        ensures sub_vls { self.new.sub_vls ≡ self.old.sub_vls }
    {
        let number = self.number;
        self.from = now.saturating_add(self.gap);
        self.last = Some(Stamp { at: now, sub });
        self.number = if number == 255 { 1 } else { number + 1 };
        number
    }
}
