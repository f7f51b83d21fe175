//! Scripts in which ports send at their periods.
ghost use Rattle.std.specs.Prelude.{◌≡◌, ◌≤◌, ◌<◌, ◌-◌, ◌^◌, ℕ, length, slice_index, All, AllPairs, IfOk, IfSome, IsNone};
ghost use Rattle.interface_file.specs.Schedule.{AreApart, AreInOrder, AreWhole, IsWithin, firsts_of, periods_of};

use afdx_plan::Config;
use rand_core::Rng;
use rand_pcg::Pcg32;
use std::alloc::{AllocError, Global};

/// The most lines of a script.
pub(crate) const LINES_LIMIT: usize = 1_000_000;

/// The traffic of a port of a plan: its name, and the time between two of its messages, in microseconds.
#[derive(Clone, Copy)]
pub struct PortTraffic<'a> {
    pub name: &'a str,
    pub period: Option<u64>,
}

/// The messages of a port: it sends one at a first time, and one more after each period, in microseconds.
#[derive(Clone, Copy, Debug)]
pub struct Flow {
    // the place of the port in its plan
    pub port: usize,
    pub first: u64,
    pub period: u64,
}

/// A message of a script: the place of its flow, and its time, in microseconds.
#[derive(Clone, Copy, Debug)]
pub struct Sending {
    pub flow: usize,
    pub at: u64,
}

/// Returns when a port sends first: at 0 if the seed is 0, or else at a time before the end of its first period that
/// the seed and the identifier of the port give.
fn first_time(seed: u64, id: u16, period: u64) -> u64
    requires { 0 < period }
    ensures early { result < period }
{
    if seed == 0 {
        return 0;
    }
    Pcg32::new(seed, u64::from(id)).next_u64() % period
}

/// Returns the flows of the ports that have a period, in the order of the plan.
pub fn flows_of(
    alloc: Global,
    config: &Config,
    traffic: &[PortTraffic<'_>],
    seed: u64,
) -> Result<Vec<Flow>, AllocError> {
    let mut flows = Vec::new(alloc);
    for (place, port) in config.ports().iter().enumerate() {
        let period = traffic.get(place).and_then(|traffic| traffic.period);
        match period {
            Some(period) if 0 < period => flows.push(Flow {
                port: place,
                first: first_time(seed, port.id.0, period),
                period,
            })?,
            _ => {}
        }
    }
    Ok(flows)
}

/// Returns the messages of flows up to a time, in the order of their times; messages of one time are in the order of
/// the flows. `None` if they are more than a script has lines.
pub fn sendings_until(
    alloc: Global,
    flows: &[Flow],
    end: u64,
) -> Result<Option<Vec<Sending>>, AllocError>
    requires { end < 2 ^ 64 - 1 }
    ensures ordered { IfOk result (λ sent. IfSome sent (λ s. AllPairs AreInOrder s.items)) }
    ensures spaced { IfOk result (λ sent. IfSome sent (λ s. AllPairs (AreApart (periods_of flows.now)) s.items)) }
    ensures within { IfOk result (λ sent. IfSome sent (λ s. All (IsWithin (length flows.now) end) s.items)) }
    ensures whole { IfOk result (λ sent. IfSome sent (λ s.
        AreWhole (firsts_of flows.now) (periods_of flows.now) end s.items)) }
{
    let firsts = firsts_of(alloc, flows)?;
    let periods = periods_of(alloc, flows)?;
    take_turns(alloc, firsts, periods.as_slice(), end)
}

/// Returns the times of the first messages of flows.
fn firsts_of(alloc: Global, flows: &[Flow]) -> Result<Vec<u64>, AllocError>
    ensures { IfOk result (λ firsts. firsts.items ≡ firsts_of flows.now) }
{
    flows.iter().map(|flow| flow.first).collect(alloc)
}

/// Returns the periods of flows.
fn periods_of(alloc: Global, flows: &[Flow]) -> Result<Vec<u64>, AllocError>
    ensures { IfOk result (λ periods. periods.items ≡ periods_of flows.now) }
{
    flows.iter().map(|flow| flow.period).collect(alloc)
}

/// Lets the flow whose next message is the earliest send it, and so on up to the end. At the start `next` has the times
/// of the first messages.
fn take_turns(
    alloc: Global,
    next: Vec<u64>,
    periods: &[u64],
    end: u64,
) -> Result<Option<Vec<Sending>>, AllocError>
    requires same { length next.items ≡ length periods.now }
    requires end { end < 2 ^ 64 - 1 }
    ensures ordered { IfOk result (λ sent. IfSome sent (λ s. AllPairs AreInOrder s.items)) }
    ensures spaced { IfOk result (λ sent. IfSome sent (λ s. AllPairs (AreApart periods.now) s.items)) }
    ensures within { IfOk result (λ sent. IfSome sent (λ s. All (IsWithin (length periods.now) end) s.items)) }
    ensures whole { IfOk result (λ sent. IfSome sent (λ s. AreWhole next.items periods.now end s.items)) }
{
    let mut next = next;
    let mut sent = Vec::new(alloc);
    for _turn in 0..LINES_LIMIT {
        let Some(flow) = earliest(next.as_slice(), end) else {
            return Ok(Some(sent));
        };
        let at = next[flow];
        sent.push(Sending { flow, at })?;
        next[flow] = at.saturating_add(periods[flow]);
    }
    Ok(None)
}

/// Returns the place of the least of these times, the first of them, if it isn't after the end.
fn earliest(times: &[u64], end: u64) -> Option<usize>
    ensures found { IfSome result (λ k. (k < length times.now) × (slice_index times.now k ≤ end)) }
    ensures least { IfSome result (λ k. (j : ℕ) → j < length times.now →
        slice_index times.now k ≤ slice_index times.now j) }
    ensures none { IsNone result → (j : ℕ) → j < length times.now → end < slice_index times.now j }
{
    if times.is_empty() {
        return None;
    }
    let mut found = 0;
    for k in 0..times.len() {
        if times[k] < times[found] {
            found = k;
        }
    }
    if times[found] <= end {
        Some(found)
    } else {
        None
    }
}
