//! Workers in threads of their own, each started with the promise of its port's own list.
ghost use Rattle.std.specs.Prelude.{◌≡◌, ◌↔◌, ◌⊎◌, ◌≤◌, OnOk, IfOk, IsOkAnd, map};
ghost use Rattle.storm.specs.Workers.{named, sent_all, asked_by, asked_after, AreAtMost};

use crate::fault::StormStop;
use crate::gate::Gate;
use crate::worker::{Load, work};
use afdx_tx::TxPort;
use std::alloc::Global;
use std::snapshot::Snapshot;
use std::sync::atomic::{AtomicU64, Ordering};
use std::thread::{Promise, PromisedHandle, Scope, Threads};

/// The promise of a worker: it returns its port, which requested at most one slot for each turn. If it succeeded, the
/// port sent all its messages, and is otherwise unchanged.
#[derive(Drop)]
pub(crate) struct SendsAll {
    pub before: Snapshot<TxPort>,
    pub load: Load,
}

impl Promise<(TxPort, Result<(), StormStop>)> for SendsAll {
    ghost kept_by = { λ p r. OnOk r.1 (named r.0 ≡ sent_all p.load.messages p.before.value)
        × (asked_by r.0 ≤ asked_after p.load.turns p.before.value) };
}

pub(crate) type Worker = PromisedHandle<(TxPort, Result<(), StormStop>), SendsAll>;

/// Starts a worker, which is counted in before it runs, and counts itself out.
fn start_worker<'s, E: 's, G: Gate + Sync>(
    scope: &'s Scope<'s, E>,
    port: TxPort,
    worker: usize,
    load: Load,
    gate: &'s G,
    running: &'s AtomicU64,
) -> Result<Worker, StormStop>
    ensures port { IfOk result (λ started. started.promise.before.value ≡ port) }
    ensures load { IfOk result (λ started. started.promise.load ≡ load) }
{
    let promise = SendsAll {
        before: Snapshot::of(&port),
        load,
    };
    running.fetch_add(1, Ordering::SeqCst);
    let body = move || -> (TxPort, Result<(), StormStop>)
        ensures sent { OnOk result.1 (named result.0 ≡ sent_all load.messages port) }
        ensures asks { asked_by result.0 ≤ asked_after load.turns port }
    {
        let mut port = port;
        let ended = work(&mut port, worker, load, gate);
        running.fetch_sub(1, Ordering::SeqCst);
        (port, ended)
    };
    match scope.spawn_with(promise, body) {
        Ok(started) => Ok(started),
        Err(_) => {
            running.fetch_sub(1, Ordering::SeqCst);
            Err(StormStop::Memory)
        }
    }
}

/// Starts a worker for each port, in their order, until one can't be started.
pub(crate) fn start_workers<'s, E: 's, G: Gate + Sync>(
    scope: &'s Scope<'s, E>,
    alloc: Global,
    ports: Vec<TxPort>,
    load: Load,
    gate: &'s G,
    running: &'s AtomicU64,
) -> Result<Vec<Worker>, StormStop>
    ensures sent { IfOk result (λ workers.
        map (λ w. sent_all w.promise.load.messages w.promise.before.value) workers.items
        ≡ map (sent_all load.messages) ports.items) }
    ensures asks { IfOk result (λ workers.
        map (λ w. asked_after w.promise.load.turns w.promise.before.value) workers.items
        ≡ map (asked_after load.turns) ports.items) }
{
    let mut workers = Vec::new(alloc);
    for port in ports {
        let worker = workers.len();
        let started = start_worker(scope, port, worker, load, gate, running)?;
        workers.push(started)?;
    }
    Ok(workers)
}

/// Joins the workers, if all were started. Returns the number of polls and the workers' ports, in order, if
/// a network is up and all workers succeeded.
pub(crate) fn join_workers<R: Threads>(
    rt: &R,
    alloc: Global,
    started: Result<Vec<Worker>, StormStop>,
    polls: Result<u64, StormStop>,
) -> Result<(u64, Vec<TxPort>), StormStop>
    ensures polls { IfOk result (λ joined. polls ≡ Ok joined.0) }
    ensures sent { IfOk result (λ joined. IsOkAnd started (λ workers. map named joined.1.items
        ≡ map (λ w. sent_all w.promise.load.messages w.promise.before.value) workers.items)) }
    ensures asks { IfOk result (λ joined. IsOkAnd started (λ workers. AreAtMost (map asked_by joined.1.items)
        (map (λ w. asked_after w.promise.load.turns w.promise.before.value) workers.items))) }
{
    let workers = started?;
    let mut ports = Vec::new(alloc);
    let mut worst = polls;
    for worker in workers {
        let (port, ended) = worker.join(rt);
        worst = worse(worst, ended);
        ports.push(port)?;
    }
    match worst {
        Ok(polls) => Ok((polls, ports)),
        Err(stop) => Err(stop),
    }
}

/// Returns the worse of two ends, the end of the polls and a worker's: out of memory, then turns.
fn worse(worst: Result<u64, StormStop>, ended: Result<(), StormStop>) -> Result<u64, StormStop>
    ensures ok { IfOk result (λ polls. (worst ≡ Ok polls) × (ended ≡ Ok tt)) }
    ensures memory { result ≡ Err StormStop.Memory ↔ ((worst ≡ Err StormStop.Memory) ⊎ (ended ≡ Err StormStop.Memory)) }
{
    match (worst, ended) {
        (worst, Ok(())) => worst,
        (Ok(_), Err(stop)) => Err(stop),
        (Err(_), Err(StormStop::Memory)) => Err(StormStop::Memory),
        (Err(worst), Err(StormStop::Turns)) => Err(worst),
    }
}
