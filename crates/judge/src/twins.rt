//! The frames of a link that one network has carried and the other hasn't yet.
ghost use Rattle.std.specs.Prelude.{◌≡◌, ◌+◌, ◌^◌, ◌≤◌, ◌<◌, find, position, length, OnOk, IfOk, None, []};
ghost use Rattle.judge.specs.Waiting.{Wait, Pairing};
ghost use Rattle.judge.specs.Twins.{apart, is_near, is_heard_before, is_heard_after, is_late, same_net, is_passed, kept, is_lost, is_left, is_twin, missing, no_pairing, found_missing, left_waiting, first_other, twin_other, other_at, twin_deviation, pairing_with, found_at_end};

use crate::figures::{Total, greatest_of};
use crate::finding::{Deviation, Finding, FindingKind, Tag};
use crate::times::Times;
use afdx_frame::Net;
use afdx_plan::VlId;
use std::alloc::{AllocError, Global};
use std::marker::Model;

/// A frame that waits for its twin, with its sequence number.
#[derive(Drop)]
pub(crate) struct Waiting {
    tag: Tag,
    number: u8,
    bytes: Vec<u8>,
}

impl Model for Waiting {
    ghost use Rattle.std.specs.Prelude.{◌≤◌, length};
    ghost use Rattle.judge.specs.Waiting.{Wait};

    ghost Value = { Wait };

    ghost view = { λ w. record { tag = w.tag; number = w.number; bytes = w.bytes.items } };

    ghost invariant = { λ w. 12 ≤ length w.bytes.items };
}

/// The frames of a link that wait for their twins, in the order in which they came. Each came within the skew of the
/// link's last frame, or not more than the skew before the other network's latest packet, and no network has two of one
/// number: so they are at most 512.
#[derive(Drop)]
pub(crate) struct Twins {
    waiting: Vec<Waiting>,
    /// The greatest time in nanoseconds between a frame and its twin.
    pub(crate) lead: Option<u128>,
    /// All these times.
    pub(crate) leads: Total,
}

impl Model for Twins {
    ghost use Rattle.judge.specs.Waiting.{Pairing};

    ghost Value = { Pairing };

    ghost view = { λ t. record { waiting = t.waiting.items; lead = t.lead; leads = t.leads } };
}

/// The greatest time between twins, and the times of both networks' packets so far.
#[derive(Clone, Copy)]
pub(crate) struct Nearness {
    /// The skew in nanoseconds.
    pub(crate) skew: u128,
    pub(crate) times: Times,
}

/// Returns the time between two times.
fn apart(a: u128, b: u128) -> u128
    ensures { result ≡ apart a b }
{
    if a < b { b - a } else { a - b }
}

/// Returns true if two networks are one.
fn same_net(a: Net, b: Net) -> bool
    ensures { result ≡ same_net a b }
{
    a == b
}

impl Nearness {
    /// Returns true if two times are within the skew.
    fn is_near(&self, a: u128, b: u128) -> bool
        ensures { result ≡ is_near self.now a b }
    {
        apart(a, b) <= self.skew
    }

    /// Returns true if the other network has a packet more than the skew before a frame.
    fn is_heard_before(&self, tag: &Tag) -> bool
        ensures { result ≡ is_heard_before self.now tag.now }
    {
        match self.times.other_than(tag.net) {
            Some(span) => self.skew < tag.at.saturating_sub(span.earliest),
            None => false,
        }
    }

    /// Returns true if the other network has a packet more than the skew after a frame.
    fn is_heard_after(&self, tag: &Tag) -> bool
        ensures { result ≡ is_heard_after self.now tag.now }
    {
        match self.times.other_than(tag.net) {
            Some(span) => self.skew < span.latest.saturating_sub(tag.at),
            None => false,
        }
    }

    /// Returns true if a frame of this time comes too late to be a waiting frame's twin, and the wait is over: the
    /// other network was recorded long enough after the waiting frame, or not before it.
    fn is_late(&self, at: u128, tag: &Tag) -> bool
        ensures { result ≡ is_late self.now at tag.now }
    {
        !self.is_near(tag.at, at) && (self.is_heard_after(tag) || !self.is_heard_before(tag))
    }
}

/// Returns the first place at which bytes differ, counted from `from`. Most twins are equal, and `==` compares many
/// bytes at once: only bytes that differ are compared one by one.
#[tactic(auto, using(crate::proofs::Pairs::same_bytes))]
fn first_other(from: usize, a: &[u8], b: &[u8]) -> Option<usize>
    requires { from ≤ 12 }
    ensures { result ≡ first_other from a.now b.now }
{
    if a == b {
        return None;
    }
    let (mut place, mut rest_a, mut rest_b) = (from, a, b);
    'bytes: while let [x, after_a @ ..] = rest_a {
        let [y, after_b @ ..] = rest_b else {
            return Some(place);
        };
        if x != y {
            return Some(place);
        }
        place += 1;
        rest_a = after_a;
        rest_b = after_b;
    }
    if rest_b.len() == 0 { None } else { Some(place) }
}

/// Returns the first place at which frames of two networks differ, beside the interface identifier.
#[tactic(auto, unfolding(crate::specs::Twins::twin_other))]
fn twin_other(a: &[u8], b: &[u8]) -> Option<usize>
    requires a { 12 ≤ length a.now }
    requires b { 12 ≤ length b.now }
    ensures { result ≡ twin_other a.now b.now }
{
    match first_other(0, &a[0..11], &b[0..11]) {
        Some(place) => Some(place),
        None => first_other(12, &a[12..], &b[12..]),
    }
}

impl Waiting {
    /// Returns true if a frame with this tag and number ends the waiting frame's wait.
    fn is_passed(&self, nearness: &Nearness, tag: &Tag, number: u8) -> bool
        ensures { result ≡ is_passed nearness.now tag.now number self.now }
    {
        nearness.is_late(tag.at, &self.tag)
            || (same_net(self.tag.net, tag.net) && self.number == number)
    }

    /// Returns true if a frame with this tag and number makes the missing twin a finding.
    fn is_lost(&self, nearness: &Nearness, tag: &Tag, number: u8) -> bool
        ensures { result ≡ is_lost nearness.now tag.now number self.now }
    {
        self.is_passed(nearness, tag, number) && nearness.is_heard_before(&self.tag)
    }

    /// Returns true if the end of the recording makes the missing twin a finding.
    fn is_left(&self, nearness: &Nearness) -> bool
        ensures { result ≡ is_left nearness.now self.now }
    {
        nearness.is_heard_before(&self.tag) && nearness.is_heard_after(&self.tag)
    }

    /// Returns true if the waiting frame has this number, the other network than the tag, and a time within the skew.
    fn is_twin(&self, nearness: &Nearness, tag: &Tag, number: u8) -> bool
        ensures { result ≡ is_twin nearness.now tag.now number self.now }
    {
        !same_net(self.tag.net, tag.net)
            && self.number == number
            && nearness.is_near(self.tag.at, tag.at)
    }

    /// Returns the finding that the frame has no twin.
    fn missing(&self, vl: VlId) -> Finding
        ensures { result ≡ missing vl self.now }
    {
        let deviation = Deviation::new(FindingKind::Missing, self.number as u64, 0);
        self.tag.finding(Some(vl), deviation)
    }

    /// Returns a finding if the twin on the other network differs.
    fn deviation(&self, frame: &[u8]) -> Option<Deviation>
        requires { 12 ≤ length frame.now }
        ensures { result ≡ other_at self.now (twin_other self.now.bytes frame.now) }
    {
        let place = twin_other(&self.bytes, frame)?;
        Some(Deviation::new(FindingKind::Twin, place as u64, self.tag.packet))
    }
}

/// Keeps the waiting frames whose wait a frame doesn't end.
fn keep(waiting: &mut Vec<Waiting>, nearness: &Nearness, tag: &Tag, number: u8)
    ensures { waiting.new.items ≡ kept nearness.now tag.now number waiting.old.items }
{
    waiting.retain(|w| !w.is_passed(nearness, tag, number));
}

impl Twins {
    /// Creates the twins of a link without frames.
    pub(crate) fn new(alloc: Global) -> Twins
        ensures { result ≡ no_pairing }
    {
        Twins {
            waiting: Vec::new(alloc),
            lead: None,
            leads: Total::default(),
        }
    }

    /// Removes the waiting frames whose wait a frame ends, and appends the findings of those whose twins were wanted.
    #[tactic(auto, unfolding(crate::specs::Twins::found_missing, crate::specs::Twins::left_waiting))]
    pub(crate) fn give_up(
        &mut self,
        nearness: &Nearness,
        vl: VlId,
        tag: &Tag,
        number: u8,
        found: &mut Vec<Finding>,
    ) -> Result<(), AllocError>
        ensures after { OnOk result (self.new ≡ left_waiting nearness.now tag.now number self.old) }
        ensures found { OnOk result (found.new.items
            ≡ found_missing nearness.now vl tag.now number self.old.waiting found.old.items) }
    {
        let waiting = self.waiting.as_slice();
        for w in waiting {
            if w.is_lost(nearness, tag, number) {
                found.push(w.missing(vl))?;
            }
        }
        keep(&mut self.waiting, nearness, tag, number);
        Ok(())
    }

    /// Returns the place of a frame's twin among the waiting frames.
    fn place(&self, nearness: &Nearness, tag: &Tag, number: u8) -> Option<usize>
        ensures { result ≡ position (is_twin nearness.now tag.now number) self.now.waiting }
    {
        self.waiting
            .iter()
            .position(|w| w.is_twin(nearness, tag, number))
    }

    /// Pairs a frame with its twin, and returns their difference. A frame without a twin waits.
    #[tactic(auto, using(crate::proofs::Pairs::first_is, crate::proofs::Pairs::place_is, crate::proofs::Pairs::none_is), unfolding(crate::specs::Twins::pairing_with, crate::specs::Twins::twin_deviation))]
    pub(crate) fn meet(
        &mut self,
        nearness: &Nearness,
        tag: &Tag,
        number: u8,
        frame: &[u8],
    ) -> Result<Option<Deviation>, AllocError>
        requires { 12 ≤ length frame.now }
        ensures after { OnOk result (self.new ≡ pairing_with nearness.now tag.now number frame.now self.old) }
        ensures twin { IfOk result (λ d. d ≡ twin_deviation nearness.now tag.now number frame.now self.old) }
    {
        match self.place(nearness, tag, number) {
            Some(place) => {
                let twin = self.waiting.remove(place);
                let lead = apart(twin.tag.at, tag.at);
                self.lead = greatest_of(self.lead, Some(lead));
                self.leads = self.leads.with(lead);
                Ok(twin.deviation(frame))
            }
            None => {
                let alloc = *self.waiting.allocator();
                let bytes = frame.to_vec(alloc)?;
                let tag = *tag;
                self.waiting.push(Waiting { tag, number, bytes })?;
                Ok(None)
            }
        }
    }

    /// Appends the frames that wait at the end of the recording and whose twins were wanted.
    #[tactic(auto, unfolding(crate::specs::Twins::found_at_end))]
    pub(crate) fn find_left(
        &self,
        nearness: &Nearness,
        vl: VlId,
        found: &mut Vec<Finding>,
    ) -> Result<(), AllocError>
        ensures { OnOk result (found.new.items ≡ found_at_end nearness.now vl self.now.waiting found.old.items) }
    {
        let waiting = self.waiting.as_slice();
        for w in waiting {
            if w.is_left(nearness) {
                found.push(w.missing(vl))?;
            }
        }
        Ok(())
    }
}
