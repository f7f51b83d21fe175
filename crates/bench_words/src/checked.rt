//! The document that `check` prints for a plan.
use crate::document::{LAYOUT, json_of};
use afdx_plan::{Config, Kind, LinkPlan, Networks, PortPlan, UdpSum, jitter_ns};
use plan_analysis::JITTER_LIMIT;
use serde::Serialize;
use std::alloc::{AllocError, Global};
use std::net::Ipv4Addr;

/// The plans of a network.
#[derive(Drop, Serialize)]
struct Checked<'a> {
    version: u32,
    plans: Vec<CheckedPlan<'a>>,
}

/// A plan, with its links and ports in their order.
#[derive(Drop, Serialize)]
struct CheckedPlan<'a> {
    file: &'a str,
    end_system: u16,
    links: Vec<LinkRow>,
    ports: Vec<PortRow>,
    jitter_ns: u64,
    jitter_limit_ns: u64,
    jitter_exceeded: bool,
}

#[derive(Drop, Serialize)]
struct LinkRow {
    link: u16,
    bag_ms: u64,
    lmax: u16,
    sub_vls: u8,
    capacity: usize,
    networks: &'static str,
}

#[derive(Drop, Serialize)]
struct PortRow {
    port: u16,
    link: u16,
    sub: u8,
    partition: u8,
    kind: &'static str,
    source: u16,
    destination: u16,
    max: usize,
    // none stands for the link's multicast address
    address: Option<String>,
    checksum: Option<&'static str>,
}

/// Returns the document of the plans of a network, which are in these files. Fails only if an allocation fails.
pub fn check_document(
    alloc: Global,
    files: &[&str],
    configs: &[Config],
) -> Result<Vec<u8>, AllocError> {
    let mut plans = Vec::with_capacity(alloc, configs.len())?;
    for (file, config) in files.iter().zip(configs.iter()) {
        plans.push(checked_plan(alloc, file, config)?)?;
    }
    let document = Checked {
        version: LAYOUT,
        plans,
    };
    json_of(alloc, &document)
}

/// Returns what `check` tells of a plan in a file.
fn checked_plan<'a>(
    alloc: Global,
    file: &'a str,
    config: &Config,
) -> Result<CheckedPlan<'a>, AllocError> {
    let mut links = Vec::with_capacity(alloc, config.links().len())?;
    for link in config.links() {
        links.push(link_row(link))?;
    }
    let mut ports = Vec::with_capacity(alloc, config.ports().len())?;
    for port in config.ports() {
        ports.push(port_row(alloc, port)?)?;
    }
    let jitter_ns = jitter_ns(config);
    Ok(CheckedPlan {
        file,
        end_system: config.end_system(),
        links,
        ports,
        jitter_ns,
        jitter_limit_ns: JITTER_LIMIT,
        jitter_exceeded: jitter_ns > JITTER_LIMIT,
    })
}

fn link_row(link: &LinkPlan) -> LinkRow {
    LinkRow {
        link: link.id.0,
        bag_ms: link.bag.ms(),
        lmax: link.lmax.bytes(),
        sub_vls: link.sub_vls,
        capacity: link.capacity,
        networks: networks_name(link.networks),
    }
}

/// Returns the networks that carry a link, as the text of a report names them.
pub(crate) fn networks_name(networks: Networks) -> &'static str {
    match networks {
        Networks::Both => "A+B",
        Networks::OnlyA => "A",
        Networks::OnlyB => "B",
    }
}

fn port_row(alloc: Global, port: &PortPlan) -> Result<PortRow, AllocError> {
    Ok(PortRow {
        port: port.id.0,
        link: port.vl.0,
        sub: port.sub,
        partition: port.partition,
        kind: match port.kind {
            Kind::Sampling => "sampling",
            Kind::Queuing => "queuing",
        },
        source: port.source,
        destination: port.destination,
        max: port.max,
        address: match port.unicast {
            Some(address) => Some(format!(in alloc; "{}", Ipv4Addr::from(address))?),
            None => None,
        },
        checksum: match port.checksum {
            UdpSum::Omitted => None,
            UdpSum::Generated => Some("udp"),
        },
    })
}
