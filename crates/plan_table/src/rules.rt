//! The rules of a plan, tested one after the other over its links and ports, without memory.
ghost use Rattle.std.specs.Prelude.{◌≡◌, ◌-◌, ◌&&◌, ◌||◌, count_by, find, length, nat_eq, nat_lt, option_copied};
ghost use Rattle.std.specs.List.{list_any};
ghost use Rattle.afdx_plan.specs.Config.{plan_of_parts};
ghost use Rattle.afdx_plan.specs.PlanFaults.{any_row, has_pair, is_no_count, is_sampling, plan_rules, whole};
ghost use Rattle.plan_table.specs.Rules.{are_one_link, clash, first_broken, is_past, misfit_in, names, shares_sub};

use afdx_plan::{
    ConfigFault, Kind, LINKS_LIMIT, LinkPlan, Misfit, PORTS_LIMIT, PortPlan, SUB_PORTS_LIMIT, VlId,
};

/// The ways in which two ports clash: they have one identifier; one flow, which is link, partition, both UDP ports and
/// destination; or, on different links, one partition and unicast address.
#[derive(Clone, Copy)]
pub enum Clash {
    Identifier,
    Flow,
    Address,
}

/// Returns true if two ports clash.
fn two_clash(how: Clash, a: &PortPlan, b: &PortPlan) -> bool
    ensures { result ≡ clash how a.now b.now }
{
    match how {
        Clash::Identifier => a.id.0 == b.id.0,
        Clash::Flow => {
            a.vl.0 == b.vl.0
                && a.partition == b.partition
                && a.source == b.source
                && a.destination == b.destination
                && a.unicast == b.unicast
        }
        Clash::Address => {
            a.vl.0 != b.vl.0
                && a.partition == b.partition
                && a.unicast.is_some()
                && a.unicast == b.unicast
        }
    }
}

/// Returns true if a port clashes with one of others.
fn clashes_with(how: Clash, port: &PortPlan, others: &[PortPlan]) -> bool
    ensures { result ≡ list_any (clash how port.now) others.now }
{
    others.iter().any(|other| two_clash(how, port, other))
}

/// Returns true if two of the ports clash.
fn some_clash(how: Clash, ports: &[PortPlan]) -> bool
    ensures { result ≡ has_pair (clash how) ports.now }
{
    let mut left = ports;
    'ports: while let [port, rest @ ..] = left {
        if clashes_with(how, port, rest) {
            return true;
        }
        left = rest;
    }
    false
}

/// Returns true if one of the links has an identifier.
fn has_link(links: &[LinkPlan], id: VlId) -> bool
    ensures { result ≡ list_any (λ link. nat_eq id.0 link.id.0) links.now }
{
    links.iter().any(|link| id.0 == link.id.0)
}

/// Returns true if two links have one identifier.
fn links_clash(links: &[LinkPlan]) -> bool
    ensures { result ≡ has_pair are_one_link links.now }
{
    let mut left = links;
    'links: while let [link, rest @ ..] = left {
        if has_link(rest, link.id) {
            return true;
        }
        left = rest;
    }
    false
}

/// Returns the first link with the identifier that a port names.
fn link_of<'a>(links: &'a [LinkPlan], port: &PortPlan) -> Option<&'a LinkPlan>
    ensures { option_copied result ≡ find (names port.now) links.now }
{
    links.iter().find(|link| link.id.0 == port.vl.0)
}

/// Returns true if a port is a sampling port whose greatest message doesn't fit into a frame.
fn is_too_long(link: &LinkPlan, port: &PortPlan) -> bool
    ensures { result ≡ is_sampling port.now.kind && nat_lt (link.now.lmax - 47) port.now.max }
{
    let room = usize::from(link.lmax.bytes()).saturating_sub(47);
    matches!(port.kind, Kind::Sampling) && room < port.max
}

/// Returns true if a port doesn't fit its link in this way.
fn is_misfit(misfit: Misfit, links: &[LinkPlan], port: &PortPlan) -> bool
    ensures { result ≡ misfit_in links.now misfit port.now }
{
    let Some(link) = link_of(links, port) else {
        return matches!(misfit, Misfit::NoLink);
    };
    match misfit {
        Misfit::NoLink => false,
        Misfit::NoSub => link.sub_vls <= port.sub,
        Misfit::TooLong => is_too_long(link, port),
    }
}

/// Returns true if some port doesn't fit its link in this way.
fn some_misfits(misfit: Misfit, links: &[LinkPlan], ports: &[PortPlan]) -> bool
    ensures { result ≡ list_any (misfit_in links.now misfit) ports.now }
{
    ports.iter().any(|port| is_misfit(misfit, links, port))
}

/// Returns the number of ports on the sub-VL of a port.
fn count_on_sub(ports: &[PortPlan], port: &PortPlan) -> usize
    ensures { result ≡ count_by (shares_sub port.now) ports.now }
{
    ports
        .iter()
        .filter(|other| other.vl.0 == port.vl.0 && other.sub == port.sub)
        .count()
}

/// Returns true if a sub-VL has more ports than it may.
fn is_packed(ports: &[PortPlan]) -> bool
    ensures { result ≡ any_row (is_past ports.now) 1 ports.now }
{
    for k in 0..ports.len() {
        if SUB_PORTS_LIMIT <= count_on_sub(&ports[..k], &ports[k]) {
            return true;
        }
    }
    false
}

/// Returns true if there are none or more of something than there may be.
fn is_no_count(most: usize, count: usize) -> bool
    ensures { result ≡ is_no_count most count }
{
    count == 0 || most < count
}

/// Returns true if the links, the ports or the ports of a sub-VL are too many, or if there is no link or no port.
fn exceeds_a_limit(links: &[LinkPlan], ports: &[PortPlan]) -> bool
    ensures { result ≡ is_no_count 64 (length links.now) || (is_no_count 256 (length ports.now)
        || any_row (is_past ports.now) 1 ports.now) }
{
    is_no_count(LINKS_LIMIT, links.len())
        || is_no_count(PORTS_LIMIT, ports.len())
        || is_packed(ports)
}

/// Returns the fault of the least number, 7 to 14, that links and ports have together.
#[tactic(auto, using(crate::proofs::RuleLemmas::first_by_tests))]
pub fn first_fault(links: &[LinkPlan], ports: &[PortPlan]) -> Option<ConfigFault>
    ensures { result ≡ first_broken (whole (plan_of_parts 0 links.now ports.now)) plan_rules }
{
    if links_clash(links) {
        Some(ConfigFault::DuplicateVl)
    } else if some_clash(Clash::Identifier, ports) {
        Some(ConfigFault::DuplicatePort)
    } else if some_misfits(Misfit::NoLink, links, ports) {
        Some(ConfigFault::NoSuchVl)
    } else if some_misfits(Misfit::NoSub, links, ports) {
        Some(ConfigFault::NoSuchSub)
    } else if some_misfits(Misfit::TooLong, links, ports) {
        Some(ConfigFault::SamplingTooLong)
    } else if some_clash(Clash::Flow, ports) {
        Some(ConfigFault::SameFlow)
    } else if some_clash(Clash::Address, ports) {
        Some(ConfigFault::SharedUnicast)
    } else if exceeds_a_limit(links, ports) {
        Some(ConfigFault::Limit)
    } else {
        None
    }
}
