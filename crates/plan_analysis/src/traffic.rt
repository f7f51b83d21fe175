//! The longest wait of a message, and the places that its queue needs, if each port of its sub-VL keeps a period.
ghost use Rattle.std.specs.Prelude.{◌≡◌, ◌+◌, ◌&&◌, ◌≤◌, ◌<◌, ℕ, true, All, IfOk, IfSome, length, get_or, min, unwrap_or};
ghost use Rattle.afdx_plan.specs.Plan.{IsLink};
ghost use Rattle.plan_analysis.specs.declared.traffic.Bound.TheVariants.{NoPeriod};
ghost use Rattle.plan_analysis.specs.Traffic.{IsFlow, IsBoundOf, IsSubBound, AreSendersOf, AreBoundsOf, HasGoodPeriod, have_periods, flows_of, least_of, messages, sender_at, wait_of};

use crate::analysis::{LATENESS_LIMIT, link_of};
use crate::busy_time::{Flow, messages_by};
use crate::groups::{flows_in, flows_on, group_of, round_of};
use afdx_plan::{Config, LinkPlan, PortPlan};
use std::alloc::{AllocError, Global};

/// A port, and the least time between the planned times of two of its messages, if it keeps one. Each message is
/// accepted at most the jitter after its planned time. Both are in microseconds.
#[derive(Clone, Copy, Debug, PartialEq, Eq)]
pub struct Sender {
    pub port: PortPlan,
    pub period: Option<u64>,
    pub jitter: u64,
}

/// The worst of a sub-VL whose ports keep their periods.
#[derive(Clone, Copy, Debug, PartialEq, Eq)]
pub struct Worst {
    // the longest time from the acceptance of a message to the release of its last fragment, in microseconds
    pub wait: u64,
    // the places that its queue needs, so that it never refuses a message as full
    pub need: u64,
}

/// The bound of a sub-VL by the traffic of its link.
#[derive(Clone, Copy, Debug, PartialEq, Eq)]
pub enum Bound {
    // a port of the sub-VL has no period
    NoPeriod,
    Found(Worst),
    // each group of sub-VLs with this one hands over more than its turns carry
    Overloaded,
    // no group has a longest busy time and a wait of at most 65,536 rounds
    TooLong,
}

impl Bound {
    /// Returns the longest wait by traffic of a message, in microseconds, if it is known.
    pub fn wait(&self) -> Option<u64>
        ensures { result ≡ wait_of self.now }
    {
        match *self {
            Bound::Found(worst) => Some(worst.wait),
            Bound::NoPeriod | Bound::Overloaded | Bound::TooLong => None,
        }
    }
}

/// Returns the bound of each sender's sub-VL, in order, for polls that come at most `lateness` microseconds late. Fails
/// only if an allocation fails.
pub fn traffic_bounds(
    alloc: Global,
    config: &Config,
    lateness: u64,
    senders: &[Sender],
) -> Result<Vec<Bound>, AllocError>
    requires late { lateness ≤ LATENESS_LIMIT }
    requires senders { AreSendersOf config.now senders.now }
    ensures { IfOk result (λ bounds. AreBoundsOf lateness config.now senders.now bounds.items) }
{
    let mut bounds = Vec::with_capacity(alloc, config.ports().len())?;
    for sender in senders {
        let earlier = bounds.as_slice();
        let bound = bound_of(alloc, config, lateness, senders, earlier, sender)?;
        bounds.push(bound)?;
    }
    Ok(bounds)
}

/// Returns the bound of a sender's sub-VL, from an earlier sender of it if there is one.
fn bound_of(
    alloc: Global,
    config: &Config,
    lateness: u64,
    senders: &[Sender],
    earlier: &[Bound],
    sender: &Sender,
) -> Result<Bound, AllocError>
    requires late { lateness ≤ LATENESS_LIMIT }
    requires good { All HasGoodPeriod senders.now }
    requires few { length senders.now ≤ 256 }
    requires before { length earlier.now ≤ length senders.now }
    requires known { (i : ℕ) → i < length earlier.now
        → IsBoundOf lateness config.now senders.now (sender_at senders.now i) (get_or earlier.now i NoPeriod) }
    ensures { IfOk result (IsBoundOf lateness config.now senders.now sender.now) }
{
    match known_bound(senders, earlier, &sender.port) {
        Some(bound) => Ok(bound),
        None => new_bound(alloc, config, lateness, senders, sender),
    }
}

/// Returns the bound of the first of these senders that is on the sub-VL of a port.
fn known_bound(senders: &[Sender], bounds: &[Bound], port: &PortPlan) -> Option<Bound>
    requires { length bounds.now ≤ length senders.now }
    ensures { IfSome result (λ bound. (i : ℕ) × (i < length bounds.now) × (bound ≡ get_or bounds.now i NoPeriod)
        × ((sender_at senders.now i).port.vl.0 ≡ port.now.vl.0) × ((sender_at senders.now i).port.sub ≡ port.now.sub)) }
{
    for i in 0..bounds.len() {
        let other = &senders[i].port;
        if other.vl.0 == port.vl.0 && other.sub == port.sub {
            return Some(bounds[i]);
        }
    }
    None
}

/// Computes the bound of a sender's sub-VL.
fn new_bound(
    alloc: Global,
    config: &Config,
    lateness: u64,
    senders: &[Sender],
    sender: &Sender,
) -> Result<Bound, AllocError>
    requires late { lateness ≤ LATENESS_LIMIT }
    requires good { All HasGoodPeriod senders.now }
    requires few { length senders.now ≤ 256 }
    ensures { IfOk result (IsBoundOf lateness config.now senders.now sender.now) }
{
    let link = link_of(config, &sender.port);
    let sub = sender.port.sub;
    match flows_on(alloc, link, sub, senders)? {
        Some(own) => bound_by(alloc, config, lateness, link, sub, senders, own.as_slice()),
        None => Ok(Bound::NoPeriod),
    }
}

/// Returns the bound of sub-VL `sub` of a link, whose flows are `own`.
fn bound_by(
    alloc: Global,
    config: &Config,
    lateness: u64,
    link: &LinkPlan,
    sub: u8,
    senders: &[Sender],
    own: &[Flow],
) -> Result<Bound, AllocError>
    requires late { lateness ≤ LATENESS_LIMIT }
    requires link { IsLink link.now }
    requires good { All HasGoodPeriod senders.now }
    requires few { (length senders.now ≤ 256) × (length own.now ≤ 256) }
    requires periods { have_periods link.now sub senders.now ≡ true }
    requires own { own.now ≡ flows_of link.now sub senders.now }
    requires flows { All IsFlow own.now }
    ensures { IfOk result (IsSubBound lateness config.now link.now sub senders.now) }
{
    if own.is_empty() {
        return Ok(Bound::TooLong);
    }
    let alone = group_of(round_of(lateness, config, link, sub, 0), own, own.len());
    let mut over = alone.over;
    let mut wait = alone.wait();
    for mates in 1..16 {
        let flows = flows_in(alloc, config, link, sub, senders, mates, own)?;
        if let Some(flows) = flows {
            let group = group_of(
                round_of(lateness, config, link, sub, mates),
                flows.as_slice(),
                own.len(),
            );
            over = both(over, group.over);
            wait = least(wait, group.wait());
        }
    }
    match wait {
        Some(wait) => Ok(Bound::Found(Worst {
            wait,
            need: need_of(own, wait, alone.places()),
        })),
        None if over => Ok(Bound::Overloaded),
        None => Ok(Bound::TooLong),
    }
}

/// Returns whether both are true.
fn both(one: bool, other: bool) -> bool
    ensures { result ≡ (one && other) }
{
    one && other
}

/// Returns the lesser of two waits, or the one that is known.
fn least(one: Option<u64>, other: Option<u64>) -> Option<u64>
    ensures { result ≡ least_of one other }
{
    match (one, other) {
        (Some(one), Some(other)) => Some(one.min(other)),
        (Some(one), None) => Some(one),
        (None, other) => other,
    }
}

/// Returns the places that a queue needs, by the wait of its messages and by the backlog, if that is known.
fn need_of(own: &[Flow], wait: u64, backlog: Option<u64>) -> u64
    requires flows { All IsFlow own.now }
    requires few { length own.now ≤ 512 }
    requires wait { wait ≤ 369623040000 }
    ensures { result ≡ min (unwrap_or backlog (messages own.now wait)) (messages own.now wait) }
{
    let held = messages_by(own, wait);
    backlog.unwrap_or(held).min(held)
}
