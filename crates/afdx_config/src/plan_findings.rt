//! The faults of 7 to 14 with their places, in the values that have no fault, and all faults of a document.
ghost use Rattle.std.specs.Prelude.{if◌then◌else◌, ◌&&◌, ◌++◌, ◌+◌, ◌<◌, ◌^◌, ◌≡◌};
ghost use Rattle.afdx_config.specs.Names.{ConfigFault, IfOk, IfSome, None, OnOk, all_named, codes, get, is_no_count, is_none, is_row_of, length, list_any, map, misfits, nat_cmp, option_copied, option_map, option_map_or, position, position_from, unwrap_or, ℕ};
ghost use Rattle.afdx_config.specs.Cells.{cells_of, plan_of};
ghost use Rattle.afdx_config.specs.Findings.{crowd_finding, each_row, found as finding_at, misfit_finding, one_if, plan_findings, value_findings};
ghost use Rattle.afdx_config.specs.Seen.{Adds, AreInRange, IsDocument, cells_in, data_of, plan_in};
ghost use Rattle.afdx_config.specs.Sharing.{sub_in, sub_cmp, is_on_sub, is_key};
ghost use Rattle.afdx_config.specs.declared.findings.Place.TheVariants.{Top};

use crate::document::Document;
use crate::findings::{Added, Found, Place, add_if};
use crate::pairs::{
    add_keyed, add_sharing, first_rows, flows_of, link_ids, nth_row, port_ids, row_with,
};
use crate::rows::{Rows, add_values};
use afdx_plan::{
    ConfigFault, Kind, LINKS_LIMIT, LinkRow, Misfit, PORTS_LIMIT, PortRow, SUB_PORTS_LIMIT,
};
use std::alloc::AllocError;
use std::collections::BTreeMap;

/// The number of ports on each sub-VL of each link.
type Counts = BTreeMap<(u16, u16), usize>;

/// Counts a port. Returns the number of ports before it on its sub-VL.
fn count_port(counts: &mut Counts, port: &PortRow) -> Result<usize, AllocError>
    requires { (q : ℕ × ℕ) → unwrap_or (get sub_cmp counts.old q) 0 < 2 ^ 63 }
    ensures before { IfOk result (λ n. n
        ≡ option_map_or (λ q. unwrap_or (get sub_cmp counts.old q) 0) (sub_in port.now.vl port.now.sub) 0) }
    ensures after { OnOk result ((q : ℕ × ℕ) → unwrap_or (get sub_cmp counts.new q) 0
        ≡ unwrap_or (get sub_cmp counts.old q) 0 + (if is_on_sub q port.now then 1 else 0)) }
{
    match (port.vl, port.sub) {
        (Some(vl), Some(sub)) => {
            let before = counts.get(&(vl, sub)).copied().unwrap_or(0);
            counts.insert((vl, sub), before + 1)?;
            Ok(before)
        }
        _ => Ok(0),
    }
}

/// Adds the ports that are past the limit on their sub-VL.
fn add_crowded(found: &mut Found, ports: &[PortRow]) -> Added
    ensures { OnOk result (Adds found.old found.new
        (each_row (crowd_finding ConfigFault.Limit (codes "sub") ports.now) 1 ports.now)) }
{
    let mut counts = BTreeMap::new(found.alloc());
    for (i, port) in ports.iter().enumerate() {
        let before = count_port(&mut counts, port)?;
        let is_past = SUB_PORTS_LIMIT <= before;
        let place = Place::Port(i + 1);
        add_if(is_past, found, ConfigFault::Limit, place, "sub", None)?;
    }
    Ok(())
}

fn some_is_nameless(links: &[LinkRow]) -> bool
    ensures { result ≡ list_any (λ l. is_none l.id) links.now }
{
    links.iter().any(|link| link.id.is_none())
}

/// Returns whether the array of links and their identifiers have no fault.
fn all_named(rows: &Rows) -> bool
    ensures { result ≡ all_named (cells_in rows.now) }
{
    rows.has_links && !some_is_nameless(rows.links.as_slice())
}

/// Returns whether a port does not fit its link in this way.
fn is_misfit(misfit: Misfit, is_named: bool, port: &PortRow, link: Option<&LinkRow>) -> bool
    ensures { result ≡ misfits is_named (option_copied link.entry) misfit port.now }
{
    match (misfit, link) {
        (Misfit::NoLink, _) => is_named && port.vl.is_some() && link.is_none(),
        (Misfit::NoSub, Some(link)) => match (link.sub_vls, port.sub) {
            (Some(count), Some(sub)) => count <= sub,
            _ => false,
        },
        (Misfit::TooLong, Some(link)) => match (port.kind, link.lmax, port.max) {
            (Some(Kind::Sampling), Some(lmax), Some(most)) => lmax.saturating_sub(47) < most,
            _ => false,
        },
        (_, None) => false,
    }
}

/// The first link with each identifier.
type ById = BTreeMap<u16, usize>;

/// Returns the index of the link of a port, which is found by its identifier.
fn link_place(links: &[LinkRow], by_id: &ById, port: &PortRow) -> Option<usize>
    requires { (q : ℕ) → get nat_cmp by_id.now q ≡ position_from (is_key nat_cmp q) 0 (map (λ l. l.id) links.now) }
    ensures first { result ≡ position (is_row_of port.now) links.now }
    ensures room { IfSome result (λ l. l < length links.now) }
{
    row_with(by_id, &port.vl)
}

/// Adds the ports that do not fit their link in this way.
fn add_misfits(
    found: &mut Found,
    fault: ConfigFault,
    key: &str,
    misfit: Misfit,
    rows: &Rows,
    by_id: &ById,
) -> Added
    requires { (q : ℕ) → get nat_cmp by_id.now q
        ≡ position_from (is_key nat_cmp q) 0 (map (λ l. l.id) rows.now.links.items) }
    ensures { OnOk result (Adds found.old found.new
        (each_row (misfit_finding fault key.now misfit (cells_in rows.now)) 1 rows.now.ports.items)) }
{
    let links = rows.links.as_slice();
    let is_named = all_named(rows);
    let ports = rows.ports.as_slice();
    for (i, port) in ports.iter().enumerate() {
        let place = link_place(links, by_id, port);
        let is_misfit = is_misfit(misfit, is_named, port, nth_row(links, place));
        let at = Place::Port(i + 1);
        let other = place.map(|i| i + 1);
        add_if(is_misfit, found, fault, at, key, other)?;
    }
    Ok(())
}

/// Adds a finding for a wrong number of tables under a key.
fn add_count(found: &mut Found, key: &str, has_array: bool, most: usize, count: usize) -> Added
    ensures { OnOk result (Adds found.old found.new
        (one_if (has_array && is_no_count most count) (finding_at ConfigFault.Limit Top key.now None))) }
{
    let is_wrong = has_array && (count == 0 || most < count);
    add_if(is_wrong, found, ConfigFault::Limit, Place::Top, key, None)
}

/// Adds the findings of links and ports, rule by rule.
#[tactic(auto, unfolding(crate::specs::Findings::plan_findings))]
pub(crate) fn add_plan(found: &mut Found, rows: &Rows) -> Added
    ensures { OnOk result (Adds found.old found.new (plan_findings (cells_in rows.now))) }
{
    let alloc = found.alloc();
    let links = rows.links.as_slice();
    let ports = rows.ports.as_slice();
    let link_ids = link_ids(alloc, links)?;
    let link_ids = link_ids.as_slice();
    let by_id = first_rows(alloc, link_ids)?;
    let fault = ConfigFault::DuplicateVl;
    add_keyed(found, fault, "id", Place::Link(0), link_ids)?;
    let port_ids = port_ids(alloc, ports)?;
    let fault = ConfigFault::DuplicatePort;
    add_keyed(found, fault, "id", Place::Port(0), port_ids.as_slice())?;
    let fault = ConfigFault::NoSuchVl;
    add_misfits(found, fault, "vl", Misfit::NoLink, rows, &by_id)?;
    let fault = ConfigFault::NoSuchSub;
    add_misfits(found, fault, "sub", Misfit::NoSub, rows, &by_id)?;
    let fault = ConfigFault::SamplingTooLong;
    add_misfits(found, fault, "max", Misfit::TooLong, rows, &by_id)?;
    let flows = flows_of(alloc, ports)?;
    let fault = ConfigFault::SameFlow;
    add_keyed(
        found,
        fault,
        "destination",
        Place::Port(0),
        flows.as_slice(),
    )?;
    add_sharing(found, ConfigFault::SharedUnicast, "dest_ip", ports)?;
    add_count(found, "vl", rows.has_links, LINKS_LIMIT, links.len())?;
    add_count(found, "port", rows.has_ports, PORTS_LIMIT, ports.len())?;
    add_crowded(found, ports)
}

/// Reads a document, and adds all its findings.
pub(crate) fn add_all(found: &mut Found, document: &Document<'_>) -> Result<Rows, AllocError>
    requires { IsDocument document.now }
    ensures findings { OnOk result (Adds found.old found.new
        (value_findings (data_of document.now) ++ plan_findings (cells_of (data_of document.now)))) }
    ensures plan { IfOk result (λ rows. plan_in rows ≡ plan_of (data_of document.now)) }
    ensures fits { IfOk result AreInRange }
{
    let rows = add_values(found, document)?;
    add_plan(found, &rows)?;
    Ok(rows)
}
