//! A thread that reads the board while it is written.
ghost use Rattle.std.specs.Prelude.{◌≡◌, ◌<◌, false, IfOk, ◌↔◌};
ghost use Rattle.status_board.specs.Views.{NoFieldFalls, links_of};
ghost use Rattle.storm.specs.Threads.{ReadsOnly, ReadsEach};

use crate::fault::StormStop;
use crate::gate::Gate;
use status_board::{Counts, Monitor};
use std::snapshot::Snapshot;
use std::sync::Wait;
use std::thread::{Promise, PromisedHandle, Scope};

/// The promise of the watcher: it returns the monitor, each of whose links was read `times` times, and saw no count
/// fall.
#[derive(Drop)]
pub(crate) struct WatchesAll {
    pub before: Snapshot<Monitor>,
    pub times: u32,
}

impl Promise<(Monitor, bool)> for WatchesAll {
    ghost kept_by = { λ p r. ReadsEach p.before.value r.0 p.times × (r.1 ≡ false) };
}

pub(crate) type Watching = PromisedHandle<(Monitor, bool), WatchesAll>;

/// Returns true if a field of a later reading is below the same field of an earlier one.
fn is_back(earlier: &Counts, later: &Counts) -> bool
    ensures { (result ≡ false) ↔ NoFieldFalls earlier.now later.now }
{
    later.frames < earlier.frames
        || later.bytes < earlier.bytes
        || later.messages < earlier.messages
        || later.last < earlier.last
}

/// Reads a link `times` times. Returns whether a count fell.
#[tactic(auto, using(std::proofs::Common::arith))]
fn watch_link<G: Gate, R: Wait>(
    rt: &R,
    gate: &G,
    monitor: &mut Monitor,
    link: usize,
    times: u32,
) -> bool
    requires { link < links_of monitor.old }
    ensures reads { ReadsOnly monitor.old monitor.new link times }
    ensures links { links_of monitor.new ≡ links_of monitor.old }
    ensures never_back { result ≡ false }
{
    let mut back = false;
    let mut last = Counts::ZERO;
    for _ in 0..times {
        let found = monitor.read(rt, link);
        gate.watched(link);
        back |= is_back(&last, &found);
        last = found;
    }
    back
}

/// Reads each link `times` times. Returns the monitor, and whether a count fell.
#[tactic(auto, using(std::proofs::Common::arith))]
fn watch<G: Gate, R: Wait>(
    rt: &R,
    gate: &G,
    monitor: Monitor,
    links: usize,
    times: u32,
) -> (Monitor, bool)
    requires { links_of monitor ≡ links }
    ensures reads { ReadsEach monitor result.0 times }
    ensures never_back { result.1 ≡ false }
{
    let mut monitor = monitor;
    let mut back = false;
    for link in 0..links {
        let fell = watch_link(rt, gate, &mut monitor, link, times);
        back |= fell;
    }
    (monitor, back)
}

pub(crate) fn start_watcher<'s, E: 's, G: Gate + Sync, R: Wait + Sync>(
    scope: &'s Scope<'s, E>,
    rt: &'s R,
    gate: &'s G,
    monitor: Monitor,
    links: usize,
    times: u32,
) -> Result<Watching, StormStop>
    requires { links_of monitor ≡ links }
    ensures before { IfOk result (λ watching. watching.promise.before.value ≡ monitor) }
    ensures times { IfOk result (λ watching. watching.promise.times ≡ times) }
{
    let promise = WatchesAll {
        before: Snapshot::of(&monitor),
        times,
    };
    match scope.spawn_with(promise, move || watch(rt, gate, monitor, links, times)) {
        Ok(watching) => Ok(watching),
        Err(_) => Err(StormStop::Memory),
    }
}
