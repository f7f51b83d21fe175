//! The threads of a storm, from the first start to the last join.
ghost use Rattle.std.specs.Prelude.{◌≤◌, IfOk};
ghost use Rattle.storm.specs.Threads.{IsReady, IsRunOf};

use crate::fault::StormStop;
use crate::gate::Gate;
use crate::polling::poll_while;
use crate::start::{join_workers, start_workers};
use crate::watcher::start_watcher;
use crate::worker::Load;
use afdx_tx::{Draining, Emitter, TxPort};
use redundant_mux::MemNetwork;
use status_board::Monitor;
use std::alloc::Global;
use std::sync::Wait;
use std::sync::atomic::AtomicU64;
use std::thread;
use std::thread::{Scope, Threads};

/// The emitter of a storm, over two networks in memory.
pub(crate) type StormTx = Emitter<MemNetwork, MemNetwork>;

/// The emitter of a storm while it drains.
pub(crate) type StormDraining = Draining<MemNetwork, MemNetwork>;

/// An emitter, its ports and its monitor.
#[derive(Drop)]
pub(crate) struct Opened {
    pub tx: StormTx,
    pub ports: Vec<TxPort>,
    pub monitor: Monitor,
}

/// An emitter, its ports and its monitor once all threads are joined, with the number of polls and whether a count
/// fell.
#[derive(Drop)]
pub(crate) struct Joined {
    pub tx: StormTx,
    pub ports: Vec<TxPort>,
    pub monitor: Monitor,
    pub polls: u64,
    pub back: bool,
}

/// Starts the watcher and the workers, polls while these run, and joins all.
fn run_in_scope<'s, E: 's, G: Gate + Sync, R: Threads + Wait + Sync>(
    scope: &'s Scope<'s, E>,
    rt: &'s R,
    alloc: Global,
    opened: Opened,
    load: Load,
    gate: &'s G,
    running: &'s AtomicU64,
) -> Result<Joined, StormStop>
    requires ready { IsReady opened.tx opened.ports.items opened.monitor }
    requires turns { load.turns ≤ 1000000000 }
    ensures { IfOk result (IsRunOf opened load) }
{
    let Opened {
        mut tx,
        ports,
        monitor,
    } = opened;
    let links = tx.config().links().len();
    let watching = start_watcher(scope, rt, gate, monitor, links, load.messages)?;
    let started = start_workers(scope, alloc, ports, load, gate, running);
    // If not all workers were started, polling lets the started ones come to their end.
    let polls = poll_while(rt, &mut tx, gate, running, load.turns);
    let (monitor, back) = watching.join(rt);
    match join_workers(rt, alloc, started, polls) {
        Ok((polls, ports)) => Ok(Joined {
            tx,
            ports,
            monitor,
            polls,
            back,
        }),
        Err(stop) => Err(stop),
    }
}

/// Sends from all ports at once, each in a thread of its own, while this thread polls and another one
/// reads the board.
pub(crate) fn run_threads<G: Gate + Sync, R: Threads + Wait + Sync>(
    rt: &R,
    alloc: Global,
    opened: Opened,
    load: Load,
    gate: &G,
) -> Result<Joined, StormStop>
    requires ready { IsReady opened.tx opened.ports.items opened.monitor }
    requires turns { load.turns ≤ 1000000000 }
    ensures { IfOk result (IsRunOf opened load) }
{
    let counter = AtomicU64::new(0);
    let running = &counter;
    thread::scope(
        thread::scope_env(),
        rt,
        move |scope| -> Result<Joined, StormStop>
            requires ready { IsReady opened.tx opened.ports.items opened.monitor }
            requires turns { load.turns ≤ 1000000000 }
            ensures { IfOk result (IsRunOf opened load) }
        { run_in_scope(scope, rt, alloc, opened, load, gate, running) },
    )
}
