//! Tables that clash with an earlier one, found in the time of sorting them.
ghost use Rattle.std.specs.Prelude.{◌+◌, ◌<◌, ◌^◌, ◌≡◌};
ghost use Rattle.afdx_config.specs.Names.{IfOk, List, OnOk, get, map, option_and_then, option_copied, position_from, share_unicast, slice_get, ℕ};
ghost use Rattle.afdx_config.specs.Sharing.{is_key, first_row, flow_of, address_of, address_cmp, first_at, off_link, sharing_place};
ghost use Rattle.afdx_config.specs.Findings.{each_row, pair_finding, row_like, pair_findings};
ghost use Rattle.afdx_config.specs.Seen.{Adds};
ghost use Rattle.afdx_config.specs.declared.findings.Place.TheVariants.{Port};

use crate::findings::{Added, Found, Place, add, row_like};
use afdx_plan::{ConfigFault, LinkRow, PortRow};
use std::alloc::{AllocError, Global};
use std::collections::BTreeMap;

/// Returns the index of the first row with each key. A row may lack a key.
pub(crate) fn first_rows<K: Ord + Copy>(
    alloc: Global,
    keys: &[Option<K>],
) -> Result<BTreeMap<K, usize>, AllocError>
    ensures { IfOk result (λ rows. (q : K) → get K.cmp rows q ≡ position_from (is_key K.cmp q) 0 keys.now) }
{
    let mut rows = BTreeMap::new(alloc);
    for i in (0..keys.len()).rev() {
        if let Some(key) = keys[i] {
            rows.insert(key, i)?;
        }
    }
    Ok(rows)
}

/// Returns the index of the first row with this key.
pub(crate) fn row_with<K: Ord + Copy>(rows: &BTreeMap<K, usize>, key: &Option<K>) -> Option<usize>
    ensures { result ≡ option_and_then (get K.cmp rows.now) key.now }
{
    rows.get(key.as_ref()?).copied()
}

/// Returns the row at an index.
pub(crate) fn nth_row<R: Copy>(rows: &[R], place: Option<usize>) -> Option<&R>
    ensures { option_copied result ≡ option_and_then (slice_get rows.now) place }
{
    rows.get(place?)
}

/// Link, partition, both UDP ports and destination.
type Flow = (u16, u16, u16, u16, Option<[u8; 4]>);

/// Adds the table at index `i` of an array if the first one that it clashes with is earlier.
fn add_pair(
    found: &mut Found,
    fault: ConfigFault,
    key: &str,
    array: Place,
    i: usize,
    first: Option<usize>,
) -> Added
    requires { i < 2 ^ 63 }
    ensures { OnOk result (Adds found.old found.new (pair_finding fault key.now (row_like array) (i + 1) first)) }
{
    match first {
        Some(earlier) if earlier < i => {
            let place = row_like(array, i + 1);
            add(found, fault, place, key, Some(earlier + 1))
        }
        _ => Ok(()),
    }
}

/// Adds the tables of an array that have the key of an earlier one.
pub(crate) fn add_keyed<K: Ord + Copy>(
    found: &mut Found,
    fault: ConfigFault,
    key: &str,
    array: Place,
    keys: &[Option<K>],
) -> Added
    ensures { OnOk result (Adds found.old found.new
        (each_row (λ k own. pair_finding fault key.now (row_like array) k (first_row K.cmp keys.now own)) 1 keys.now)) }
{
    let rows = first_rows(found.alloc(), keys)?;
    for (i, own) in keys.iter().enumerate() {
        add_pair(found, fault, key, array, i, row_with(&rows, own))?;
    }
    Ok(())
}

/// Returns the identifiers of links.
pub(crate) fn link_ids(alloc: Global, links: &[LinkRow]) -> Result<Vec<Option<u16>>, AllocError>
    ensures { IfOk result (λ ids. ids.items ≡ map (λ l. l.id) links.now) }
{
    links.iter().map(|link| link.id).collect(alloc)
}

/// Returns the identifiers of ports.
pub(crate) fn port_ids(alloc: Global, ports: &[PortRow]) -> Result<Vec<Option<u16>>, AllocError>
    ensures { IfOk result (λ ids. ids.items ≡ map (λ p. p.id) ports.now) }
{
    ports.iter().map(|port| port.id).collect(alloc)
}

/// Returns the flow of a port, if its values have no fault.
fn flow_of(port: &PortRow) -> Option<Flow>
    ensures { result ≡ flow_of port.now }
{
    Some((
        port.vl?,
        port.partition?,
        port.source?,
        port.destination?,
        port.unicast?,
    ))
}

/// Returns the flows of ports.
pub(crate) fn flows_of(alloc: Global, ports: &[PortRow]) -> Result<Vec<Option<Flow>>, AllocError>
    ensures { IfOk result (λ flows. flows.items ≡ map flow_of ports.now) }
{
    ports.iter().map(|port| flow_of(port)).collect(alloc)
}

/// Partition and unicast address.
type Address = (u16, [u8; 4]);

/// The first port with an address, its link, and the first such port on another link.
type First = (usize, u16, Option<usize>);

/// Returns the partition and unicast address of a port, and its link.
fn address_of(port: &PortRow) -> Option<(Address, u16)>
    ensures { result ≡ address_of port.now }
{
    let vl = port.vl?;
    Some(((port.partition?, port.unicast??), vl))
}

/// Returns the first of the ports with an address that is on another link than this one.
fn off_link(vl: u16, first: Option<First>) -> Option<usize>
    ensures { result ≡ off_link vl first }
{
    let (i, other, next) = first?;
    if other == vl { next } else { Some(i) }
}

/// Returns the first port with each address.
fn first_ports(alloc: Global, ports: &[PortRow]) -> Result<BTreeMap<Address, First>, AllocError>
    ensures { IfOk result (λ firsts. (q : ℕ × List ℕ) → get address_cmp firsts q ≡ first_at q 0 ports.now) }
{
    let mut firsts = BTreeMap::new(alloc);
    for i in (0..ports.len()).rev() {
        if let Some((address, vl)) = address_of(&ports[i]) {
            let next = off_link(vl, firsts.get(&address).copied());
            firsts.insert(address, (i, vl, next))?;
        }
    }
    Ok(firsts)
}

/// Returns the first port on another link with the partition and unicast address of a port.
fn sharing_place(firsts: &BTreeMap<Address, First>, port: &PortRow) -> Option<usize>
    ensures { result ≡ sharing_place (get address_cmp firsts.now) port.now }
{
    let (address, vl) = address_of(port)?;
    off_link(vl, firsts.get(&address).copied())
}

/// Adds the ports that are on another link than an earlier one with their partition and unicast address.
pub(crate) fn add_sharing(
    found: &mut Found,
    fault: ConfigFault,
    key: &str,
    ports: &[PortRow],
) -> Added
    ensures { OnOk result (Adds found.old found.new (pair_findings fault key.now Port share_unicast ports.now)) }
{
    let firsts = first_ports(found.alloc(), ports)?;
    for (i, port) in ports.iter().enumerate() {
        let first = sharing_place(&firsts, port);
        add_pair(found, fault, key, Place::Port(0), i, first)?;
    }
    Ok(())
}
