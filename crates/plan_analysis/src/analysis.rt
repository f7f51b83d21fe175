//! The analysis of a plan: its links, networks and ports.
ghost use Rattle.std.specs.Prelude.{◌≡◌, ◌≤◌, IfOk, map, length};
ghost use Rattle.plan_analysis.specs.Analysis.{IsAnalysisOf, link_row as row_of_link, port_row as row_of_port, network_row as row_of_network};
ghost use Rattle.afdx_plan.specs.Plan.{IsLink, IsPort};
ghost use Rattle.plan_analysis.specs.Wait.{link_of as link_of_port};

use crate::fragments::{message_wait, most_pieces, port_pieces, sustained, used_sub_vls};
use crate::load::{
    bit_rate, is_over, link_jitter, network_bits, network_jitter, share, window_bits,
};
use crate::memory::{Memory, memory_of};
use afdx_frame::Net;
use afdx_plan::{Config, LinkPlan, PortId, PortPlan, VlId, jitter_ns};
use std::alloc::{AllocError, Global};

/// The analysis of a plan, with rows in the order of the plan.
#[derive(Debug, Drop)]
pub struct Analysis {
    pub end_system: u16,
    // the greatest lateness of a poll, in microseconds
    pub lateness: u64,
    pub links: Vec<LinkAnalysis>,
    pub network_a: NetworkRow,
    pub network_b: NetworkRow,
    // in nanoseconds
    pub jitter: u64,
    pub ports: Vec<PortAnalysis>,
    pub memory: Memory,
}

/// Analyzes a plan whose polls come at most `lateness` microseconds late. Fails only if an allocation
/// fails.
pub fn analyze(alloc: Global, config: &Config, lateness: u64) -> Result<Analysis, AllocError>
    requires { lateness ≤ LATENESS_LIMIT }
    ensures { IfOk result (IsAnalysisOf config.now lateness) }
{
    let links = link_rows(alloc, config.links())?;
    let ports = port_rows(alloc, config, lateness)?;
    Ok(Analysis {
        end_system: config.end_system(),
        lateness,
        links,
        network_a: network_row(Net::A, config.links()),
        network_b: network_row(Net::B, config.links()),
        jitter: jitter_ns(config),
        ports,
        memory: memory_of(alloc, config)?,
    })
}

/// Returns the rows of the links.
fn link_rows(alloc: Global, links: &[LinkPlan]) -> Result<Vec<LinkAnalysis>, AllocError>
    ensures { IfOk result (λ rows. rows.items ≡ map row_of_link links.now) }
{
    links.iter().map(link_row).collect(alloc)
}

/// Returns the rows of the ports.
fn port_rows(alloc: Global, config: &Config, late: u64) -> Result<Vec<PortAnalysis>, AllocError>
    requires { late ≤ LATENESS_LIMIT }
    ensures { IfOk result (λ rows. rows.items ≡ map (row_of_port late config.now) config.now.ports) }
{
    let ports = config.ports();
    ports
        .iter()
        .map(|port| port_row(late, config, port))
        .collect(alloc)
}

/// The analysis of a virtual link.
#[derive(Clone, Copy, Debug, PartialEq, Eq)]
pub struct LinkAnalysis {
    pub plan: LinkPlan,
    // the greatest load in bits per second on the wire, rounded up
    pub load: u64,
    // the greatest load in hundredths of a percent of 100 Mbit/s, rounded up
    pub share: u64,
    // the link's part of the jitter, in nanoseconds
    pub jitter: u64,
}

/// Analyzes a link.
pub(crate) fn link_row(plan: &LinkPlan) -> LinkAnalysis
    ensures { result ≡ row_of_link plan.now }
{
    let bits = window_bits(plan);
    LinkAnalysis {
        plan: *plan,
        load: bit_rate(bits),
        share: share(bits),
        jitter: link_jitter(plan),
    }
}

/// The analysis of a network, from the links that it carries.
#[derive(Clone, Copy, Debug, PartialEq, Eq)]
pub struct NetworkRow {
    pub net: Net,
    // the greatest load of its links, in bits per second on the wire, rounded up
    pub load: u64,
    // the greatest load in hundredths of a percent of 100 Mbit/s, rounded up
    pub share: u64,
    // true if the load is more than 100 Mbit/s
    pub exceeded: bool,
    // the jitter of its links, in nanoseconds
    pub jitter: u64,
}

/// Analyzes network `net` with the links among `links` that it carries.
pub(crate) fn network_row(net: Net, links: &[LinkPlan]) -> NetworkRow
    requires { length links.now ≤ 64 }
    ensures { result ≡ row_of_network net links.now }
{
    let bits = network_bits(net, links);
    NetworkRow {
        net,
        load: bit_rate(bits),
        share: share(bits),
        exceeded: is_over(bits),
        jitter: network_jitter(net, links),
    }
}

/// The analysis of a port.
#[derive(Clone, Copy, Debug, PartialEq, Eq)]
pub struct PortAnalysis {
    pub id: PortId,
    pub vl: VlId,
    // the index of the sub-VL in its link
    pub sub: u8,
    // the number of fragments of its greatest message
    pub fragments: u64,
    // the longest time from the acceptance of a message to the release of its last fragment, in microseconds
    pub wait: u64,
    // the number of greatest messages that the BAG allows in 1,000 seconds
    pub sustained: u64,
}

/// Analyzes a port of a plan whose polls come at most `late` microseconds late.
pub(crate) fn port_row(late: u64, config: &Config, port: &PortPlan) -> PortAnalysis
    requires late { late ≤ LATENESS_LIMIT }
    requires port { IsPort port.now }
    ensures { result ≡ row_of_port late config.now port.now }
{
    let link = link_of(config, port);
    let fragments = port_pieces(link, port);
    let used = used_sub_vls(link, config.ports());
    let most = most_pieces(link, port.sub, config.ports());
    PortAnalysis {
        id: port.id,
        vl: port.vl,
        sub: port.sub,
        fragments,
        wait: message_wait(late, link, used, most, fragments),
        sustained: sustained(link, port),
    }
}

/// Returns the link of a port.
pub(crate) fn link_of<'a>(config: &'a Config, port: &PortPlan) -> &'a LinkPlan
    ensures link { result.now ≡ link_of_port config.now port.now }
    ensures valid { IsLink result.now }
{
    let place = config.link_index(port.vl).unwrap_or(0);
    &config.links()[place]
}

/// The greatest lateness of a poll that `analyze` accepts, in microseconds.
pub const LATENESS_LIMIT: u64 = 1_000_000;

/// The jitter limit, in nanoseconds. The report marks a greater jitter as exceeded.
pub const JITTER_LIMIT: u64 = 500_000;
