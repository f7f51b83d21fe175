//! The storm, and its report.
ghost use Rattle.std.specs.Prelude.{◌≡◌, ◌↔◌, ◌≤◌, ◌<◌, ◌^◌, [], length, IsTrue, IfOk};
ghost use Rattle.std.specs.List.{sum_by};
ghost use Rattle.storm.specs.Storms.{HasShortPort, IsShort, IsReportOf};
ghost use Rattle.storm.specs.Threads.{cells_of, cells_read, IsShown, all_counts, IsReady, IsJoined};

use crate::both::{KeptLinks, are_equal};
use crate::fault::{StormFault, StormStop};
use crate::gate::Gate;
use crate::polling::{drain, gather_all};
use crate::run::{Joined, Opened, StormDraining, run_threads};
use crate::worker::{Load, MESSAGE_BYTES};
use afdx_plan::Config;
use afdx_tx::{TxPort, open_tx};
use redundant_mux::MemNetwork;
use status_board::{Counts, Monitor};
use std::alloc::{AllocError, Global};
use std::sync::Wait;
use std::thread::Threads;

/// The report of a storm.
#[derive(Drop)]
pub struct StormReport {
    /// The number of accepted messages of all ports.
    pub accepted: u64,
    /// The counts of each link, in the order of the plan, once all was sent: the counts of the longer of its two
    /// streams.
    pub links: Vec<Counts>,
    /// True if over the links on both networks A and B have the same frames, each its twins, at the same times.
    pub equal: bool,
    /// True if a count of a link was seen to fall.
    pub back: bool,
    /// The networks, with their frames.
    pub a: MemNetwork,
    pub b: MemNetwork,
}

/// Returns true if some port's maximum is below a storm's message.
fn has_short_port(config: &Config) -> bool
    ensures { IsTrue result ↔ HasShortPort config.now }
{
    config.ports().iter().any(|port| port.max < MESSAGE_BYTES)
}

fn count_accepted(ports: &[TxPort]) -> u64
    requires { sum_by (λ port. length port.sender.own) ports.now < 2 ^ 64 }
    ensures { result ≡ sum_by (λ port. length port.sender.own) ports.now }
{
    let mut accepted = 0;
    for port in ports {
        accepted += port.accepted();
    }
    accepted
}

/// Returns the last published counts of each link, in the order of the plan.
fn read_links<R: Wait>(
    rt: &R,
    alloc: Global,
    draining: &mut StormDraining,
    monitor: &mut Monitor,
) -> Result<Vec<Counts>, AllocError>
    requires shown { IsShown draining.old }
    requires cells { cells_of draining.old.board ≡ cells_read monitor.old }
    ensures draining { draining.new ≡ draining.old }
    ensures counts { IfOk result (λ counts. counts.items ≡ all_counts draining.old.plan.links
        draining.old.lines.a draining.old.lines.b) }
{
    let mut counts = Vec::new(alloc);
    for link in 0..draining.config().links().len() {
        counts.push(draining.read_last(rt, monitor, link))?;
    }
    Ok(counts)
}

/// Takes back the ports, sends the messages that are left, and reports.
fn finish<G: Gate, R: Wait>(
    rt: &R,
    alloc: Global,
    joined: Joined,
    load: Load,
    gate: &G,
) -> Result<StormReport, StormStop>
    requires joined { IsJoined load.messages load.turns
        joined.tx joined.ports.items joined.monitor joined.polls joined.back }
    requires messages { load.messages < 65536 }
    requires turns { load.turns ≤ 1000000000 }
    ensures { IfOk result (IsReportOf joined.tx.plan load.messages) }
{
    let Joined {
        tx,
        ports,
        mut monitor,
        polls,
        back,
    } = joined;
    let kept = KeptLinks::of(tx.config().links());
    let accepted = count_accepted(ports.as_slice());
    let mut draining = gather_all(tx, ports);
    drain(rt, &mut draining, gate, polls, load.turns)?;
    let links = read_links(rt, alloc, &mut draining, &mut monitor)?;
    let (a, b) = draining.into_networks();
    let equal = are_equal(kept.as_slice(), &a, &b);
    Ok(StormReport {
        accepted,
        links,
        equal,
        back,
        a,
        b,
    })
}

fn open(alloc: Global, config: Config, a: MemNetwork, b: MemNetwork) -> Result<Opened, StormStop>
    requires a_empty { a.handed ≡ [] }
    requires b_empty { b.handed ≡ [] }
    requires a_new { a.failures ≡ 0 }
    requires b_new { b.failures ≡ 0 }
    ensures plan { IfOk result (λ opened. opened.tx.plan ≡ config) }
    ensures ready { IfOk result (λ opened. IsReady opened.tx opened.ports.items opened.monitor) }
{
    match open_tx(alloc, config, a, b) {
        Ok((tx, ports, monitor)) => Ok(Opened { tx, ports, monitor }),
        Err(_) => Err(StormStop::Memory),
    }
}

/// Runs `storm` over two new networks in memory.
pub fn storm_over<G: Gate + Sync, R: Threads + Wait + Sync>(
    rt: &R,
    alloc: Global,
    config: Config,
    a: MemNetwork,
    b: MemNetwork,
    messages: u32,
    turns: u64,
    gate: &G,
) -> Result<StormReport, StormFault>
    requires a_empty { a.handed ≡ [] }
    requires b_empty { b.handed ≡ [] }
    requires a_new { a.failures ≡ 0 }
    requires b_new { b.failures ≡ 0 }
    requires messages { (1 ≤ messages) × (messages ≤ 65535) }
    requires turns { (1 ≤ turns) × (turns ≤ 1000000000) }
    ensures short { IsShort result ↔ HasShortPort config }
    ensures report { IfOk result (IsReportOf config messages) }
{
    if has_short_port(&config) {
        return Err(StormFault::Short);
    }
    let load = Load { messages, turns };
    let opened = open(alloc, config, a, b)?;
    let joined = run_threads(rt, alloc, opened, load, gate)?;
    Ok(finish(rt, alloc, joined, load, gate)?)
}

/// Runs a whole end system of a plan over two networks in memory: each of its ports sends its
/// messages 1 to `messages` from a thread of its own, while this thread polls and publishes, and another
/// one reads each link `messages` times. Then it joins the threads, takes back the ports, and sends what is
/// left. A worker may send `turns` times, including repeats of a refused message. This thread may poll
/// `turns` times while they run, and `turns` times after them.
///
/// If it returns a report, exactly what the ports sent was transmitted, legally and every fragment of it.
/// What is left of a link that one network alone carries is never sent once that network failed: while the
/// other one is up, the turns are used up.
pub fn storm<G: Gate + Sync, R: Threads + Wait + Sync>(
    rt: &R,
    alloc: Global,
    config: Config,
    messages: u32,
    turns: u64,
    gate: &G,
) -> Result<StormReport, StormFault>
    requires messages { (1 ≤ messages) × (messages ≤ 65535) }
    requires turns { (1 ≤ turns) × (turns ≤ 1000000000) }
    ensures short { IsShort result ↔ HasShortPort config }
    ensures report { IfOk result (IsReportOf config messages) }
{
    let (a, b) = (MemNetwork::new(alloc), MemNetwork::new(alloc));
    storm_over(rt, alloc, config, a, b, messages, turns, gate)
}
