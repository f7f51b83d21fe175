//! The turns of all links, and the results of a poll.
ghost use Rattle.std.specs.Prelude.{◌≡◌, ◌<◌, ◌≤◌, ◌++◌, List, [], length};
ghost use Rattle.afdx_tx.specs.declared.turns.Release.{Release};
ghost use Rattle.redundant_mux.specs.Lines.{BothEndure};
ghost use Rattle.afdx_tx.specs.Run.{IsRun};
ghost use Rattle.afdx_tx.specs.Report.{IsTold, turn_release};
ghost use Rattle.afdx_tx.specs.Emitter.{AllWaitUntil, AreApart, AreServedBy, AreWhole};
ghost use Rattle.afdx_tx.specs.Calls.{earlier, IsFirstDue, Reaches, PublishesCounts};
ghost use Rattle.afdx_tx.specs.Phases.{IsSteady, TellsAllDone};

use afdx_frame::FrameBuffer;
use afdx_plan::VlId;
use arrayvec::ArrayVec;
use redundant_mux::{Mux, Network, Standing};
use status_board::Board;
use std::default::Default;
use std::sync::Wait;
use vl_link::{Link, Served};

/// A frame that at least one network accepted: its virtual link, its sub-VL and its sequence
/// number.
#[derive(Clone, Copy, Debug, PartialEq, Eq)]
pub struct Release {
    pub vl: VlId,
    pub sub: u8,
    pub number: u8,
}

impl Default for Release {
    fn default() -> Release {
        Release {
            vl: VlId(0),
            sub: 0,
            number: 0,
        }
    }
}

/// The frames that a poll released, in order, and the networks that are up afterwards.
#[derive(Drop)]
pub struct Report {
    pub released: ArrayVec<Release, 64>,
    pub standing: Standing,
}

/// The notes that a poll makes of the frames that it releases.
pub trait Notes {
    /// The noted releases, as far as they are kept.
    ghost noted: { Self → List Release → Type 0 };

    /// Notes the frame that a turn released, if any.
    fn note(&mut self, vl: VlId, did: &Served)
        requires { (rs : List Release) × noted self.old rs × (length rs < 64) }
        ensures { (rs : List Release) → noted self.old rs → noted self.new (rs ++ turn_release vl did.now) };
}

impl Notes for ArrayVec<Release, 64> {
    ghost noted = { λ list rs. list.items ≡ rs };

    fn note(&mut self, vl: VlId, did: &Served) {
        if let Served::Released { sub, number } = *did {
            self.push(Release { vl, sub, number });
        }
    }
}

/// A report that notes nothing.
#[derive(Drop)]
pub struct Unreported;

impl Notes for Unreported {
    ghost noted = { λ none rs. Unit {0} };

    fn note(&mut self, _vl: VlId, _did: &Served) {}
}

/// Gives each link its turn, in order, and returns a time before which none is due: 0 if one was.
pub fn serve_all<A: Network + Drop, B: Network + Drop, N: Notes>(
    links: &mut [Link],
    frame: &mut Box<FrameBuffer>,
    mux: &mut Mux<A, B>,
    now: u64,
    notes: &mut N,
) -> u64
    requires few { length links.old ≤ 64 }
    requires none { N.noted notes.old [] }
    requires steady { IsSteady now links.old links.old mux.old }
    requires apart { AreApart links.old }
    requires whole { AreWhole links.old mux.old }
    ensures steady { IsSteady now links.old links.new mux.new }
    ensures run { IsRun now links.old links.new mux.old mux.new }
    ensures whole { AreWhole links.new mux.new }
    ensures told { (released : List Release) × N.noted notes.new released
        × (length released ≤ length links.old) × IsTold now released mux.old mux.new }
    ensures stays_down { BothEndure mux.old mux.new }
    ensures wait { AllWaitUntil result links.new (length links.new) }
{
    let mut first = u64::MAX;
    for link in links.iter_mut() {
        if link.may_release(mux, now) {
            let did = link.serve(frame, mux, now);
            notes.note(link.id(), &did);
            first = 0;
        } else {
            first = first.min(link.waits_until());
        }
    }
    first
}

/// Returns true if no link has anything left to send, and none has lost a frame.
pub fn all_done(links: &[Link]) -> bool
    ensures { TellsAllDone result links.now }
{
    links.iter().all(|link| link.is_done())
}

/// Returns the earlier of two times.
fn earlier(a: Option<u64>, b: Option<u64>) -> Option<u64>
    ensures { result ≡ earlier a b }
{
    match (a, b) {
        (Some(at), Some(other)) => Some(if other < at { other } else { at }),
        (Some(at), None) => Some(at),
        (None, other) => other,
    }
}

/// Returns the first time after `now` at which a link may release a frame and may not now.
pub fn first_due<A: Network + Drop, B: Network + Drop>(
    links: &[Link],
    mux: &Mux<A, B>,
    now: u64,
) -> Option<u64>
    requires { AreServedBy now links.now }
    ensures { IsFirstDue now links.now mux.now (length links.now) result }
{
    let mut first = None;
    for link in links {
        first = earlier(first, link.next_due(mux, now));
    }
    first
}

/// Publishes the counts of each link on a board.
pub fn publish_all<R: Wait>(rt: &R, links: &[Link], board: &mut Board)
    requires { Reaches links.now board.old }
    ensures counts { PublishesCounts links.now board.old board.new }
    ensures reaches { Reaches links.now board.new }
{
    for link in 0..links.len() {
        board.publish(rt, link, links[link].counts());
    }
}
