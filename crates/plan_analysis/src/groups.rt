//! The groups of sub-VLs of a link: their flows, their rounds, and the wait of a message in one of them.
ghost use Rattle.std.specs.Prelude.{◌≡◌, ◌+◌, ◌≤◌, ◌<◌, ◌++◌, ℕ, List, [], true, false, All, IfOk, IfSome, IfNone, Some, length, take, drop, option_map};
ghost use Rattle.afdx_plan.specs.Plan.{IsLink};
ghost use Rattle.plan_analysis.specs.Traffic.{IsFlow, HasGoodPeriod, AreFlowsOf, AreFlowsIn, AreFlowsWith, IsBacklog, IsOver, IsWaitInGroup, has_sub as is_sub_of, is_mate as is_mate_of, are_mates as are_mates_of, is_outside as is_outside_of, is_with as is_with_mates, flow_of as flow_of_sender, round_of as round_of_group, link_share, whole_share};

use crate::analysis::LATENESS_LIMIT;
use crate::busy_time::{Flow, Peak, busy_rounds, is_overloaded, worst_of};
use crate::fragments::{has_port, is_on, port_pieces};
use crate::traffic::Sender;
use afdx_plan::{Config, LinkPlan, PortPlan};
use std::alloc::{AllocError, Global};

/// A sub-VL in a group, whose sub-VLs send a fragment each round.
#[derive(Clone, Copy)]
pub(crate) struct InGroup {
    // true if the ports of the group hand over more than a fragment each round
    pub over: bool,
    // the worst of the sub-VL, if its longest wait is within the limit
    pub peak: Option<Peak>,
}

impl InGroup {
    /// Returns the longest wait.
    pub(crate) fn wait(self) -> Option<u64>
        ensures { result ≡ option_map (λ peak. peak.wait) self.peak }
    {
        self.peak.map(|peak| peak.wait)
    }

    /// Returns the most messages queued.
    pub(crate) fn places(self) -> Option<u64>
        ensures { result ≡ option_map (λ peak. peak.places) self.peak }
    {
        self.peak.map(|peak| peak.places)
    }
}

/// Returns a sub-VL in a group. Its flows are the first `count` of the group's.
#[tactic(auto, using(crate::proofs::Mates::wait_most, crate::proofs::Mates::never_waits))]
pub(crate) fn group_of(round: u64, flows: &[Flow], count: usize) -> InGroup
    requires round { (1 ≤ round) × (round ≤ 5640000) }
    requires flows { All IsFlow flows.now }
    requires few { length flows.now ≤ 512 }
    requires own { (1 ≤ count) × (count ≤ length flows.now) }
    ensures over { result.over ≡ true → IsOver round flows.now }
    ensures within { result.over ≡ false → link_share round flows.now ≤ whole_share }
    ensures wait { IfSome result.peak (λ peak.
        IsWaitInGroup round (take count flows.now) (drop count flows.now) peak.wait) }
    ensures short { IfSome result.peak (λ peak. peak.wait ≤ 369623040000) }
    ensures places { IfSome result.peak (λ peak. drop count flows.now ≡ []
        → IsBacklog round (take count flows.now) peak.places) }
    ensures none { IfNone result.peak ((wait : ℕ)
        → IsWaitInGroup round (take count flows.now) (drop count flows.now) wait → ⊥) }
{
    if is_overloaded(round, flows) {
        return InGroup {
            over: true,
            peak: None,
        };
    }
    InGroup {
        over: false,
        peak: peak_of(round, flows, count),
    }
}

/// Returns the worst of a sub-VL whose flows are the first `count` of its group's.
fn peak_of(round: u64, flows: &[Flow], count: usize) -> Option<Peak>
    requires round { (1 ≤ round) × (round ≤ 5640000) }
    requires flows { All IsFlow flows.now }
    requires few { length flows.now ≤ 512 }
    requires own { (1 ≤ count) × (count ≤ length flows.now) }
    ensures wait { IfSome result (λ peak.
        IsWaitInGroup round (take count flows.now) (drop count flows.now) peak.wait) }
    ensures places { IfSome result (λ peak. drop count flows.now ≡ []
        → IsBacklog round (take count flows.now) peak.places) }
    ensures none { IfNone result ((wait : ℕ)
        → IsWaitInGroup round (take count flows.now) (drop count flows.now) wait → ⊥) }
{
    let rounds = busy_rounds(round, flows)?;
    let (own, rest) = flows.split_at(count);
    worst_of(round, own, rest, rounds)
}

/// Returns the round of a group, in microseconds: a BAG and the lateness for it, and for each sub-VL with a port
/// outside it.
pub(crate) fn round_of(late: u64, config: &Config, link: &LinkPlan, sub: u8, mates: u8) -> u64
    requires late { late ≤ LATENESS_LIMIT }
    requires link { IsLink link.now }
    ensures value { result ≡ round_of_group late config.now link.now sub mates }
    ensures least { 1 ≤ result }
    ensures most { result ≤ 5640000 }
{
    let mut turns = 1;
    for other in 0..link.sub_vls {
        if is_outside(link, config.ports(), sub, mates, other) {
            turns += 1;
        }
    }
    turns * (link.bag.micros() + late)
}

/// Returns whether a sub-VL has a port and is outside a group.
fn is_outside(link: &LinkPlan, ports: &[PortPlan], sub: u8, mates: u8, other: u8) -> bool
    requires { other < 4 }
    ensures { result ≡ is_outside_of link.now ports.now sub mates other }
{
    has_port(link, other, ports) && other != sub && !has_sub(mates, other)
}

/// Returns the flows `own` of a sub-VL, and after them its mates' flows, if these make a group with it.
pub(crate) fn flows_in(
    alloc: Global,
    config: &Config,
    link: &LinkPlan,
    sub: u8,
    senders: &[Sender],
    mates: u8,
    own: &[Flow],
) -> Result<Option<Vec<Flow>>, AllocError>
    requires senders { All HasGoodPeriod senders.now }
    requires mates { mates < 16 }
    requires own { All IsFlow own.now }
    ensures are { IfOk result (λ o.
        AreFlowsIn config.now link.now sub senders.now mates own.now (option_map (λ flows. flows.items) o)) }
    ensures good { IfOk result (λ o. IfSome o (λ flows. All IsFlow flows.items)) }
    ensures few { IfOk result (λ o. IfSome o (λ flows. length flows.items ≤ length own.now + length senders.now)) }
{
    if !are_mates(link, config.ports(), sub, mates) {
        return Ok(None);
    }
    match flows_with(alloc, link, mates, senders)? {
        Some(rest) => {
            let mut flows = Vec::new(alloc);
            flows.extend_from_slice(own)?;
            flows.extend_from_slice(rest.as_slice())?;
            Ok(Some(flows))
        }
        None => Ok(None),
    }
}

/// Returns the flows of the senders on mates, if each has a period.
fn flows_with(
    alloc: Global,
    link: &LinkPlan,
    mates: u8,
    senders: &[Sender],
) -> Result<Option<Vec<Flow>>, AllocError>
    requires { All HasGoodPeriod senders.now }
    ensures are { IfOk result (λ o. AreFlowsWith link.now mates senders.now (option_map (λ flows. flows.items) o)) }
    ensures good { IfOk result (λ o. IfSome o (λ flows. All IsFlow flows.items)) }
    ensures few { IfOk result (λ o. IfSome o (λ flows. length flows.items ≤ length senders.now)) }
{
    let mut flows = Vec::new(alloc);
    for sender in senders {
        if is_with(link, mates, &sender.port) {
            match sender.period {
                Some(period) => flows.push(flow_of(link, sender, period))?,
                None => return Ok(None),
            }
        }
    }
    Ok(Some(flows))
}

/// Returns the flows of the senders on sub-VL `sub` of a link, if each has a period.
pub(crate) fn flows_on(
    alloc: Global,
    link: &LinkPlan,
    sub: u8,
    senders: &[Sender],
) -> Result<Option<Vec<Flow>>, AllocError>
    requires { All HasGoodPeriod senders.now }
    ensures are { IfOk result (λ o. AreFlowsOf link.now sub senders.now (option_map (λ flows. flows.items) o)) }
    ensures good { IfOk result (λ o. IfSome o (λ flows. All IsFlow flows.items)) }
    ensures few { IfOk result (λ o. IfSome o (λ flows. length flows.items ≤ length senders.now)) }
{
    let mut flows = Vec::new(alloc);
    for sender in senders {
        if is_on(link, sub, &sender.port) {
            match sender.period {
                Some(period) => flows.push(flow_of(link, sender, period))?,
                None => return Ok(None),
            }
        }
    }
    Ok(Some(flows))
}

/// Returns the flow of a sender with a period.
fn flow_of(link: &LinkPlan, sender: &Sender, period: u64) -> Flow
    requires good { HasGoodPeriod sender.now }
    requires period { sender.now.period ≡ Some period }
    ensures value { result ≡ flow_of_sender link.now sender.now }
    ensures good { IsFlow result }
{
    Flow {
        fragments: port_pieces(link, &sender.port),
        period,
        jitter: sender.jitter,
    }
}

/// Returns whether a port sends on a mate.
#[tactic(auto, unfolding(crate::specs::Traffic::is_with))]
fn is_with(link: &LinkPlan, mates: u8, port: &PortPlan) -> bool
    requires { port.now.sub < 4 }
    ensures { result ≡ is_with_mates link.now mates port.now }
{
    port.vl.0 == link.id.0 && has_sub(mates, port.sub)
}

/// Returns whether each mate is another sub-VL that has a port.
fn are_mates(link: &LinkPlan, ports: &[PortPlan], sub: u8, mates: u8) -> bool
    ensures { result ≡ are_mates_of link.now ports.now sub mates }
{
    is_mate(link, ports, sub, mates, 0)
        && is_mate(link, ports, sub, mates, 1)
        && is_mate(link, ports, sub, mates, 2)
        && is_mate(link, ports, sub, mates, 3)
}

/// Returns whether a sub-VL is no mate, or is another one that has a port.
fn is_mate(link: &LinkPlan, ports: &[PortPlan], sub: u8, mates: u8, other: u8) -> bool
    requires { other < 4 }
    ensures { result ≡ is_mate_of link.now ports.now sub mates other }
{
    !has_sub(mates, other) || other != sub && has_port(link, other, ports)
}

/// Returns whether the bit of a sub-VL is set.
fn has_sub(mates: u8, sub: u8) -> bool
    requires { sub < 4 }
    ensures { result ≡ is_sub_of mates sub }
{
    (mates >> sub) % 2 == 1
}
