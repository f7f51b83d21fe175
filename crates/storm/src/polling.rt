//! The main thread's part: it polls while workers run, then takes back the ports and sends the messages that are left.
ghost use Rattle.std.specs.Prelude.{◌≡◌, ◌*◌, ◌≤◌, length, IfOk, OnOk};
ghost use Rattle.redundant_mux.specs.Lines.{log};
ghost use Rattle.afdx_legal.specs.Accepted.{IsAllDone};
ghost use Rattle.afdx_legal.specs.Streams.{AreOwnStreams};
ghost use Rattle.afdx_tx.specs.Run.{accepted_in};
ghost use Rattle.afdx_tx.specs.Emitter.{queues_in};
ghost use Rattle.afdx_tx.specs.Phases.{KeepsMessages};
ghost use Rattle.afdx_tx.specs.Ports.{AreOpenedWith, HasEveryPlace};
ghost use Rattle.afdx_tx.specs.Gathering.{IsGatheredTx};
ghost use Rattle.storm.specs.Threads.{cells_of, IsShown};

use crate::fault::StormStop;
use crate::gate::Gate;
use crate::run::{StormDraining, StormTx};
use afdx_tx::{Emitter, Phase, TxPort};
use redundant_mux::MemNetwork;
use std::sync::Wait;
use std::sync::atomic::{AtomicU64, Ordering};
use std::thread;

/// The time between two polls in microseconds: the greatest gap of a link, so each poll finds every link
/// due.
pub(crate) const STEP: u64 = 128_000;

/// Polls and publishes. Returns the number of released frames, or `None` if no network is up.
fn poll_once<G: Gate, P: Phase, R: Wait>(
    rt: &R,
    tx: &mut Emitter<MemNetwork, MemNetwork, P>,
    gate: &G,
    now: u64,
) -> Option<usize>
    requires moment { tx.old.moment ≤ now }
    requires shown { IsShown tx.old }
    ensures plan { tx.new.plan ≡ tx.old.plan }
    ensures messages { KeepsMessages P.gathered tx.old tx.new }
    ensures moment { tx.new.moment ≤ now }
    ensures shown { IsShown tx.new }
    ensures cells { cells_of tx.new.board ≡ cells_of tx.old.board }
{
    let report = tx.poll(now).ok()?;
    tx.publish(rt);
    let released = report.released.len();
    gate.polled(released);
    (report.standing.a | report.standing.b).then_some(released)
}

/// Polls and publishes while workers run, at most `turns` times. Returns how often it polled; `Memory` if no
/// network is up any more.
pub(crate) fn poll_while<G: Gate, R: Wait>(
    rt: &R,
    tx: &mut StormTx,
    gate: &G,
    running: &AtomicU64,
    turns: u64,
) -> Result<u64, StormStop>
    requires first { tx.old.moment ≡ 0 }
    requires shown { IsShown tx.old }
    requires turns { turns ≤ 1000000000 }
    ensures plan { tx.new.plan ≡ tx.old.plan }
    ensures queues { queues_in tx.new.links ≡ queues_in tx.old.links }
    ensures most { IfOk result (λ polls. polls ≤ turns) }
    ensures moment { IfOk result (λ polls. tx.new.moment ≤ polls * STEP) }
    ensures shown { IsShown tx.new }
    ensures cells { cells_of tx.new.board ≡ cells_of tx.old.board }
{
    for poll in 0..turns {
        if running.load(Ordering::SeqCst) == 0 {
            return Ok(poll);
        }
        match poll_once(rt, tx, gate, poll * STEP) {
            None => return Err(StormStop::Memory),
            Some(0) => thread::yield_now(),
            Some(_) => {}
        }
    }
    Ok(turns)
}

/// Takes back all ports and starts draining.
pub(crate) fn gather_all(tx: StormTx, ports: Vec<TxPort>) -> StormDraining
    requires opened { AreOpenedWith tx ports.items }
    requires every { HasEveryPlace (length tx.plan.ports) ports.items }
    ensures { IsGatheredTx tx ports.items result }
{
    match tx.gather(ports) {
        Ok(draining) => draining,
        Err(_) => unreachable!(),
    }
}

/// Polls from poll number `first` on, at most `turns` times, until all that was accepted is transmitted.
pub(crate) fn drain<G: Gate, R: Wait>(
    rt: &R,
    draining: &mut StormDraining,
    gate: &G,
    first: u64,
    turns: u64,
) -> Result<(), StormStop>
    requires moment { draining.old.moment ≤ first * STEP }
    requires first { first ≤ 1000000000 }
    requires turns { turns ≤ 1000000000 }
    requires shown { IsShown draining.old }
    ensures plan { draining.new.plan ≡ draining.old.plan }
    ensures accepted { accepted_in draining.new.links ≡ accepted_in draining.old.links }
    ensures done { OnOk result (IsAllDone draining.new.plan (accepted_in draining.new.links) (log draining.new.lines)) }
    ensures streams { OnOk result (AreOwnStreams draining.new.plan
        (log draining.new.lines) draining.new.lines.a draining.new.lines.b) }
    ensures shown { IsShown draining.new }
    ensures cells { cells_of draining.new.board ≡ cells_of draining.old.board }
{
    for turn in 0..turns {
        if draining.is_done() {
            return Ok(());
        }
        if poll_once(rt, draining, gate, (first + turn) * STEP).is_none() {
            return Err(StormStop::Memory);
        }
    }
    if draining.is_done() {
        Ok(())
    } else {
        Err(StormStop::Turns)
    }
}
