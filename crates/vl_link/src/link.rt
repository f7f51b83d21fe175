//! A link: its sub-VLs in turn.
ghost use Rattle.std.specs.Prelude.{◌≡◌, ◌<◌, true, length, IfSome, IfNone, ◌≤◌, [], ◌∷◌, ◌++◌, List, nat_lt, if◌then◌else◌, ℕ, ◌||◌, false, None, Some, IfOk, IfErr, MatchOption};
ghost use Rattle.afdx_legal.specs.Counting.{counts_in};
ghost use Rattle.vl_shaper.specs.Pace.{IsLater, waits_until};
ghost use Rattle.redundant_mux.specs.Lines.{BothEndure, log, Entry, entry};
ghost use Rattle.afdx_legal.specs.Streams.{link_stream};
ghost use Rattle.vl_link.specs.Links.{pace_of, AreSubsOf, AreSameSubs, Serves, Follows, IsPicked, PassedOver, LinkState, IsLinkOfPlan, AreNamed, IsSameLink, held_at};
ghost use Rattle.vl_link.specs.Turn.{may_release, is_lost};
ghost use Rattle.vl_link.specs.Calls.{TellsSubsDone, AreFullSubs, GathersSubs, BecomesDue, StaysAsIs, TellsLinkDone, GathersLink, LacksSender, ChangesSub, ChangesQueue, Closes, MakesSender, TakesBack, Hears};
ghost use Rattle.afdx_frame.specs.Profile.{fragment_field};
ghost use Rattle.afdx_frame.specs.Frame.{more_fragments};
ghost use Rattle.std.specs.Box.{boxed_slice_items};
ghost use Rattle.afdx_plan.specs.Plan.{sequence_number, IsLink, bag_micros};
ghost use Rattle.status_board.specs.Views.{zeros};
ghost use Rattle.subvl_queue.specs.Messages.{most_calls};
ghost use Rattle.vl_link.specs.Seen.{IsReceiving, queue_of};

use crate::sub::Sub;
use afdx_frame::FrameBuffer;
use afdx_plan::{LinkPlan, VlId};
use redundant_mux::{Mux, Network};
use status_board::Counts;
use std::alloc::{AllocError, Global};
use std::boxed::BoxedSlice;
use std::marker::Model;
use subvl_queue::Sender;
use vl_shaper::Shaper;

/// Picks the sub-VL to serve, whose next message is then being sent.
fn choose(shaper: &Shaper, subs: &mut [Sub]) -> Option<u8>
    requires { length subs.old ≡ shaper.now.sub_vls }
    ensures chosen { IfSome result (λ sub. IsPicked shaper.now subs.old sub subs.new) }
    ensures below { IfSome result (λ sub. sub < length subs.old) }
    ensures none { IfNone result (PassedOver shaper.now subs.old subs.new shaper.now.sub_vls) }
{
    for k in 0..shaper.sub_vls() {
        let sub = shaper.turn(k);
        let asked = &mut subs[sub as usize];
        if asked.ready() {
            return Some(sub);
        }
    }
    None
}

/// Takes one turn of a link that may release a frame, on the parts of the link.
fn serve_due<A: Network + Drop, B: Network + Drop>(
    plan: &LinkPlan,
    shaper: &mut Shaper,
    subs: &mut [Sub],
    counts: &mut Counts,
    frame: &mut Box<FrameBuffer>,
    mux: &mut Mux<A, B>,
    now: u64,
) -> Served
    requires count { length subs.old ≡ shaper.old.sub_vls }
    requires named { AreSubsOf plan.now subs.old }
    requires later { IsLater shaper.old.last now }
    requires may { may_release now plan.now shaper.old mux.old ≡ true }
    requires paced { shaper.old ≡ pace_of shaper.old.gap shaper.old.sub_vls (link_stream plan.now.id.0 (log mux.old)) }
    requires counted { counts.old ≡ counts_in (link_stream plan.now.id.0 (log mux.old)) }
    ensures serves { Serves now plan.now shaper.old subs.old subs.new mux.old mux.new result }
    ensures paced { Follows plan.now.id.0 shaper.new mux.new result }
    ensures counted { counts.new ≡ counts_in (link_stream plan.now.id.0 (log mux.new)) }
    ensures later { IsLater shaper.new.last now }
    ensures gap { shaper.new.gap ≡ shaper.old.gap }
    ensures sub_vls { shaper.new.sub_vls ≡ shaper.old.sub_vls }
    ensures same { AreSameSubs subs.old subs.new }
    ensures stays_down { BothEndure mux.old mux.new }
{
    let Some(sub) = choose(shaper, subs) else {
        return Served::Nothing;
    };
    let number = shaper.stamp(now, sub);
    subs[sub as usize].write_next(number, frame);
    let more = counts_with(counts, now, frame.as_slice());
    // If both networks are down, none is up for the link either.
    let _standing = mux.hand_with(now, frame, plan.networks);
    if mux.any_up(plan.networks) {
        *counts = more;
        Served::Released { sub, number }
    } else {
        Served::Lost
    }
}

/// Returns true if all sub-VLs are done.
fn subs_done(subs: &[Sub]) -> bool
    ensures { TellsSubsDone result subs.now }
{
    for sub in subs {
        if !sub.is_done() {
            return false;
        }
    }
    true
}

/// Brings the ends of each sub-VL's queue together, once all its senders are back.
fn gather_subs(subs: &mut [Sub])
    requires full { AreFullSubs subs.old }
    ensures { GathersSubs subs.old subs.new }
{
    for sub in subs.iter_mut() {
        sub.gather();
    }
}

/// A virtual link: its sub-VLs and its regulation. Contracts see its plan, its regulation, its
/// sub-VLs, whether one of its frames was lost with the last network that carries it, and the
/// counts of its frames.
#[derive(Drop)]
pub struct Link {
    end_system: u16,
    plan: LinkPlan,
    shaper: Shaper,
    subs: BoxedSlice<Sub>,
    lost: bool,
    counts: Counts,
}

impl Model for Link {
    ghost Value = { LinkState };

    ghost view = { λ l. record {
      end_system = l.end_system;
      plan = l.plan;
      pace = l.shaper;
      subs = boxed_slice_items l.subs;
      lost = l.lost;
      counts = l.counts;
    } };

    ghost invariant = { λ l. IsLinkOfPlan l.end_system l.plan l.shaper (boxed_slice_items l.subs) };
}

impl Link {
    /// Creates a link of the sub-VLs of its plan, which has released nothing.
    pub fn new(end_system: u16, plan: LinkPlan, subs: Vec<Sub>) -> Link
        requires plan { IsLink plan }
        requires count { length subs.items ≡ plan.sub_vls }
        requires named { AreNamed end_system plan subs.items }
        ensures { result ≡ record {
          end_system = end_system;
          plan = plan;
          pace = record {
            gap = bag_micros plan.bag;
            sub_vls = plan.sub_vls;
            last = None;
            next = sequence_number 0;
          };
          subs = subs.items;
          lost = false;
          counts = zeros;
        } }
    {
        Link {
            end_system,
            plan,
            shaper: Shaper::new(plan.bag, plan.sub_vls),
            subs: subs.into_boxed_slice(),
            lost: false,
            counts: Counts::ZERO,
        }
    }

    /// Returns the link's identifier.
    pub fn id(&self) -> VlId
        ensures { result ≡ self.now.plan.id }
    {
        self.plan.id
    }

    /// Returns the counts of the link's frames.
    pub fn counts(&self) -> Counts
        ensures { result ≡ self.now.counts }
    {
        self.counts
    }

    /// Returns true if the link has lost no frame, and all its sub-VLs are done.
    pub fn is_done(&self) -> bool
        ensures { TellsLinkDone result self.now }
    {
        !self.lost && subs_done(&self.subs)
    }

    /// Returns true if the link may release a frame at `now`, in microseconds: it is due, and a network that carries it
    /// is up.
    pub fn may_release<A: Network + Drop, B: Network + Drop>(
        &self,
        mux: &Mux<A, B>,
        now: u64,
    ) -> bool
        requires { IsLater self.now.pace.last now }
        ensures { result ≡ may_release now self.now.plan self.now.pace mux.now }
    {
        // Most links aren't due at most polls, so that test comes first.
        self.shaper.due(now) && mux.any_up(self.plan.networks)
    }

    /// Returns the first time after `now`, in microseconds, at which the link may release a frame. `None` if it may at
    /// `now`, if no network that carries it is up, or if that time has more than 64 bits.
    pub fn next_due<A: Network + Drop, B: Network + Drop>(
        &self,
        mux: &Mux<A, B>,
        now: u64,
    ) -> Option<u64>
        requires { IsLater self.now.pace.last now }
        ensures { MatchOption result (StaysAsIs now self.now.plan self.now.pace mux.now)
            (λ at. BecomesDue now at self.now.plan self.now.pace mux.now) }
    {
        if self.shaper.due(now) || !mux.any_up(self.plan.networks) {
            return None;
        }
        self.shaper.due_from()
    }

    /// Returns the time in microseconds from which the link is due, or `u64::MAX` if that has more than 64 bits.
    pub fn waits_until(&self) -> u64
        ensures { result ≡ waits_until self.now.pace.gap self.now.pace.last }
    {
        self.shaper.waits_until()
    }

    /// Takes one turn of the link at `now`, in microseconds, when it may release a frame. Makes the frame in the
    /// caller's buffer, which a network may exchange for another.
    pub fn serve<A: Network + Drop, B: Network + Drop>(
        &mut self,
        frame: &mut Box<FrameBuffer>,
        mux: &mut Mux<A, B>,
        now: u64,
    ) -> Served
        requires later { IsLater self.old.pace.last now }
        requires may { may_release now self.old.plan self.old.pace mux.old ≡ true }
        requires paced { self.old.pace ≡ pace_of self.old.pace.gap self.old.pace.sub_vls
            (link_stream self.old.plan.id.0 (log mux.old)) }
        requires counted { self.old.counts ≡ counts_in (link_stream self.old.plan.id.0 (log mux.old)) }
        ensures serves { Serves now self.old.plan self.old.pace self.old.subs self.new.subs mux.old mux.new result }
        ensures paced { Follows self.new.plan.id.0 self.new.pace mux.new result }
        ensures counted { self.new.counts ≡ counts_in (link_stream self.new.plan.id.0 (log mux.new)) }
        ensures later { IsLater self.new.pace.last now }
        ensures same { IsSameLink self.old self.new }
        ensures lost { self.new.lost ≡ (self.old.lost || is_lost result) }
        ensures stays_down { BothEndure mux.old mux.new }
    {
        let did = serve_due(
            &self.plan,
            &mut self.shaper,
            &mut self.subs,
            &mut self.counts,
            frame,
            mux,
            now,
        );
        if did.is_lost() {
            self.lost = true;
        }
        did
    }

    /// Closes the queue of one of its sub-VLs, and returns the final number of accepted messages.
    #[tactic(auto, using(std::proofs::lemmas::Grind::common_steps))]
    pub fn close(&mut self, sub: u8) -> u64
        requires within { sub < length self.old.subs }
        requires receiving { IsReceiving (held_at self.old.subs sub).seen }
        ensures { ChangesSub (ChangesQueue (Closes result)) sub self.old self.new }
    {
        self.subs[sub as usize].close()
    }

    /// Makes the sender of the next port of a sub-VL, for at most `calls` calls. If an allocation
    /// fails, nothing changes.
    #[tactic(auto, using(std::proofs::lemmas::Grind::common_steps))]
    pub fn new_sender(&mut self, alloc: Global, sub: u8, calls: u64) -> Result<Sender, AllocError>
        requires within { sub < length self.old.subs }
        requires lacks { LacksSender (held_at self.old.subs sub) }
        requires calls { calls ≤ most_calls }
        ensures sender { IfOk result (λ sender.
            ChangesSub (ChangesQueue (MakesSender calls sender)) sub self.old self.new) }
        ensures unchanged { IfErr result (λ _. self.new ≡ self.old) }
    {
        self.subs[sub as usize].new_sender(alloc, calls)
    }

    /// Takes a sender of a sub-VL's queue back.
    #[tactic(auto, using(std::proofs::lemmas::Grind::common_steps))]
    pub fn take_back(&mut self, sub: u8, sender: Sender)
        requires within { sub < length self.old.subs }
        requires own { queue_of (held_at self.old.subs sub).seen ≡ Some sender.queue }
        ensures { ChangesSub (ChangesQueue (TakesBack sender)) sub self.old self.new }
    {
        self.subs[sub as usize].take_back(sender);
    }

    /// Tells the queue of a sub-VL of the messages that a sender of it has sent, as `Sub::hear` does.
    #[tactic(auto, using(std::proofs::lemmas::Grind::common_steps))]
    pub fn hear(&mut self, sub: u8, sender: &mut Sender)
        requires within { sub < length self.old.subs }
        requires own { queue_of (held_at self.old.subs sub).seen ≡ Some sender.old.queue }
        ensures queue { ChangesSub (ChangesQueue (Hears sender.old)) sub self.old self.new }
        ensures sender { sender.new ≡ sender.old }
        ensures counts { length sender.old.places ≡ length sender.old.own }
    {
        self.subs[sub as usize].hear(sender);
    }

    /// Brings the ends of each sub-VL's queue together, once all its senders are back.
    #[tactic(auto, using(std::proofs::lemmas::Grind::common_steps))]
    pub fn gather(&mut self)
        requires full { AreFullSubs self.old.subs }
        ensures { GathersLink self.old self.new }
    {
        gather_subs(&mut self.subs);
    }
}

/// The outcome of one turn of a link.
#[derive(Clone, Copy, Debug, PartialEq, Eq)]
pub enum Served {
    /// The link wasn't due, none of its networks was up, or no sub-VL had anything.
    Nothing,
    /// A frame of this sub-VL was released, with this sequence number.
    Released { sub: u8, number: u8 },
    /// The last network that carries the link failed, and a frame was lost.
    Lost,
}

impl Served {
    /// Returns true if a frame was lost.
    pub fn is_lost(&self) -> bool
        ensures { result ≡ is_lost self.now }
    {
        matches!(self, Served::Lost)
    }
}

// Returns the number of messages that end with a frame: 0 if the flag of more fragments is set, otherwise 1 (RFC 791,
// 3.1).
fn messages_ended(frame: &[u8]) -> u64
    requires { 22 ≤ length frame.now }
    ensures { result ≡ (if nat_lt (fragment_field frame.now) more_fragments then 1 else 0) }
{
    if frame[20] < 0x20 { 1 } else { 0 }
}

/// Returns the counts of a link's stream after this frame. A full count stays full.
pub fn counts_with(counts: &Counts, now: u64, frame: &[u8]) -> Counts
    requires { 22 ≤ length frame.now }
    ensures { (stream : List Entry) → counts.now ≡ counts_in stream →
        result ≡ counts_in (stream ++ entry now frame.now ∷ []) }
{
    Counts {
        frames: counts.frames.saturating_add(1),
        bytes: counts.bytes.saturating_add(frame.len() as u64),
        messages: counts.messages.saturating_add(messages_ended(frame)),
        last: now,
    }
}
