//! The memory of an end system, which opening it takes.
ghost use Rattle.std.specs.Prelude.{◌≡◌, ◌<◌, ◌≤◌, None, All, IfOk, length, sum_by};
ghost use Rattle.afdx_plan.specs.Plan.{IsLink, IsPort};
ghost use Rattle.plan_analysis.specs.Memory.{IsHeaviest, IsMemoryOf, base_bytes as base_of, greatest_on as greatest_of_sub, has_partition as has_partition_on, max_on as max_of_port, partitions_on as partitions_of_sub, sub_bytes as bytes_of_sub, sub_row as row_of_sub, sub_rows as rows_of_subs, table_bytes};

use crate::fragments::is_on;
use afdx_plan::{Config, LinkPlan, PortPlan, VlId};
use std::alloc::{AllocError, Global};

/// The memory of an end system.
#[derive(Debug, Drop)]
pub struct Memory {
    // the sub-VLs, in the order of the plan
    pub subs: Vec<SubRow>,
    // the bytes of the whole end system
    pub bytes: u64,
    // a sub-VL that holds the most, if the whole end system holds `LARGE_MEMORY` or more
    pub large: Option<SubRow>,
}

/// The memory of a sub-VL.
#[derive(Clone, Copy, Debug, PartialEq, Eq)]
pub struct SubRow {
    pub vl: VlId,
    // the index of the sub-VL in its link
    pub sub: u8,
    // the messages that its queue can hold
    pub capacity: u64,
    pub ports: u64,
    // the partitions that have a port on it
    pub partitions: u64,
    // the greatest message of its ports, in bytes; 0 if it has none
    pub greatest: u64,
    pub bytes: u64,
}

/// The memory from which on a report names the sub-VL that holds the most: 64 MiB.
pub const LARGE_MEMORY: u64 = 67_108_864;

/// Computes the memory of the end system of a plan. Fails only if an allocation fails.
pub(crate) fn memory_of(alloc: Global, config: &Config) -> Result<Memory, AllocError>
    ensures { IfOk result (IsMemoryOf config.now) }
{
    let subs = sub_rows(alloc, config)?;
    let rows = subs.as_slice();
    let links = config.links().len() as u64;
    let ports = config.ports().len() as u64;
    let bytes = base_bytes(config, links.max(4), ports.max(4)) + total(rows);
    let large = large(bytes, rows);
    Ok(Memory { subs, bytes, large })
}

/// Computes the bytes that an end system of a plan takes when it is opened from the plan's table. Fails only if an
/// allocation fails.
pub fn table_memory(alloc: Global, config: &Config) -> Result<u64, AllocError>
    ensures { IfOk result (λ bytes. bytes ≡ table_bytes config.now) }
{
    let subs = sub_rows(alloc, config)?;
    let links = config.links().len() as u64;
    let ports = config.ports().len() as u64;
    Ok(base_bytes(config, links, ports) + total(subs.as_slice()))
}

/// Sums the bytes of all rows.
fn total(rows: &[SubRow]) -> u64
    requires few { length rows.now ≤ 256 }
    requires small { All (λ row. row.bytes ≤ 4300000) rows.now }
    ensures bytes { result ≡ sum_by (λ row. row.bytes) rows.now }
    ensures few { result ≤ 1100800000 }
{
    let mut bytes = 0;
    for row in rows {
        bytes += row.bytes;
    }
    bytes
}

/// Returns the row with the most bytes if the end system holds `LARGE_MEMORY` or more.
fn large(bytes: u64, rows: &[SubRow]) -> Option<SubRow>
    ensures small { bytes < 67108864 → result ≡ None }
    ensures large { 67108864 ≤ bytes → IsHeaviest rows.now result }
{
    if bytes < LARGE_MEMORY {
        None
    } else {
        heaviest(rows)
    }
}

/// Returns the row with the most bytes.
fn heaviest(rows: &[SubRow]) -> Option<SubRow>
    ensures { IsHeaviest rows.now result }
{
    rows.iter().copied().max_by_key(|row| row.bytes)
}

/// Returns the bytes that an end system holds outside its sub-VLs. Its lists have room for `link_room` links
/// and `port_room` ports.
fn base_bytes(config: &Config, link_room: u64, port_room: u64) -> u64
    requires links { link_room ≤ 64 }
    requires ports { port_room ≤ 256 }
    ensures bytes { result ≡ base_of (length config.now.links) (length config.now.ports) link_room port_room }
    ensures few { result ≤ 400000 }
{
    let links = config.links().len() as u64;
    let ports = config.ports().len() as u64;
    207_953 + 280 * links + 24 * link_room + 392 * ports + 32 * port_room
}

/// Lists the rows of the sub-VLs of all links.
fn sub_rows(alloc: Global, config: &Config) -> Result<Vec<SubRow>, AllocError>
    ensures rows { IfOk result (λ rows. rows.items ≡ rows_of_subs config.now) }
    ensures few { IfOk result (λ rows. length rows.items ≤ 256) }
    ensures small { IfOk result (λ rows. All (λ row. row.bytes ≤ 4300000) rows.items) }
{
    let mut rows = Vec::new(alloc);
    for link in config.links() {
        for sub in 0..link.sub_vls {
            rows.push(sub_row(config.ports(), link, sub))?;
        }
    }
    Ok(rows)
}

/// Computes the row of a sub-VL of a link.
#[tactic(auto, using(crate::proofs::Rooms::ports_few))]
fn sub_row(ports: &[PortPlan], link: &LinkPlan, sub: u8) -> SubRow
    requires link { IsLink link.now }
    requires ports { All IsPort ports.now }
    requires few { length ports.now ≤ 256 }
    ensures row { result ≡ row_of_sub ports.now link.now sub }
    ensures small { result.bytes ≤ 4300000 }
{
    let capacity = link.capacity as u64;
    let greatest = greatest_on(ports, link, sub);
    let own = ports.iter().filter(|port| is_on(link, sub, port)).count() as u64;
    SubRow {
        vl: link.id,
        sub,
        capacity,
        ports: own,
        partitions: partitions_on(ports, link, sub),
        greatest,
        bytes: sub_bytes(capacity, own, greatest),
    }
}

/// Returns whether a partition has a port on a sub-VL of a link.
fn has_partition(ports: &[PortPlan], link: &LinkPlan, sub: u8, partition: u8) -> bool
    ensures { result ≡ has_partition_on link.now sub ports.now partition }
{
    let mut ports = ports.iter();
    ports.any(|port| is_on(link, sub, port) && port.partition == partition)
}

/// Counts the partitions that have a port on a sub-VL of a link.
#[tactic(auto, unfolding(crate::specs::Memory::partitions_on))]
fn partitions_on(ports: &[PortPlan], link: &LinkPlan, sub: u8) -> u64
    ensures { result ≡ partitions_of_sub link.now sub ports.now }
{
    let partitions = (0..32u8).filter(|partition| has_partition(ports, link, sub, *partition));
    partitions.count() as u64
}

/// Returns the bytes of a sub-VL with this capacity and number of ports, whose greatest message has `greatest` bytes.
#[tactic(auto, using(crate::proofs::Rooms::rooms_few))]
fn sub_bytes(capacity: u64, ports: u64, greatest: u64) -> u64
    requires capacity { capacity ≤ 256 }
    requires ports { ports ≤ 256 }
    requires greatest { greatest ≤ 8192 }
    ensures bytes { result ≡ bytes_of_sub capacity ports greatest }
    ensures small { result ≤ 4300000 }
{
    312 + 40 * capacity + (capacity + 1 + ports) * greatest
}

/// Returns the greatest message of a port if it sends on sub-VL `sub` of the link, else 0.
fn max_on(port: &PortPlan, link: &LinkPlan, sub: u8) -> u64
    requires { IsPort port.now }
    ensures value { result ≡ max_of_port link.now sub port.now }
    ensures most { result ≤ 8192 }
{
    if is_on(link, sub, port) {
        port.max as u64
    } else {
        0
    }
}

/// Returns the greatest message of the ports on a sub-VL of a link, in bytes; 0 without ports.
fn greatest_on(ports: &[PortPlan], link: &LinkPlan, sub: u8) -> u64
    requires { All IsPort ports.now }
    ensures value { result ≡ greatest_of_sub link.now sub ports.now }
    ensures most { result ≤ 8192 }
{
    let mut greatest = 0;
    for port in ports {
        greatest = greatest.max(max_on(port, link, sub));
    }
    greatest
}
