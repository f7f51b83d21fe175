//! Reading a table.
ghost use Rattle.std.specs.Prelude.{◌≡◌, ◌*◌, ◌+◌, ◌≤◌, ◌<◌, All, length, drop, IfOk, IfErr, IfSome, IsNone, true};
ghost use Rattle.plan_table.specs.Table.{IsTableOf};
ghost use Rattle.afdx_plan.specs.Plan.{IsLink, IsPort};
ghost use Rattle.plan_table.specs.Reading.{cells_of, ends, HasLength, IsFaultOf, links_from, parts_from, ports_from};

use crate::fault::TableFault;
use crate::part::{Part, cell};
use crate::rules::first_fault;
use crate::sum::crc_32;
use crate::write::{FRONT, TABLE_LAYOUT, write_parts};
use afdx_plan::{Config, ConfigFault, LinkPlan, PortPlan};
use std::alloc::{AllocError, Global};

// The fault of a request for memory that was refused.
const MEMORY: TableFault = TableFault::Plan(ConfigFault::Memory);

/// Reads `many` parts of a table, from the number with index `at` on.
fn parts_in<P: Part>(
    alloc: Global,
    bytes: &[u8],
    at: usize,
    many: usize,
) -> Result<Vec<P>, AllocError>
    requires { 2 * (at + P.width * many) ≤ length bytes.now }
    ensures value { IfOk result (λ parts. parts.items ≡ parts_from P.from P.width many (drop at (cells_of bytes.now))) }
    ensures parts { IfOk result (λ parts. All P.IsPart parts.items) }
    ensures many { IfOk result (λ parts. length parts.items ≡ many) }
{
    let mut parts = Vec::with_capacity(alloc, many)?;
    for k in 0..many {
        parts.push(P::read(bytes, at + P::width() * k))?;
    }
    Ok(parts)
}

/// Returns the fault of bytes that don't begin or end as a table does.
fn front_fault(bytes: &[u8]) -> Option<TableFault>
    ensures fault { IfSome result (IsFaultOf bytes.now) }
    ensures length { IsNone result → HasLength bytes.now }
    ensures sum { IsNone result → ends bytes.now ≡ true }
{
    if bytes.len() < 20 || bytes.split_at(8).0 != FRONT.as_slice() {
        return Some(TableFault::NoTable);
    }
    if cell(bytes, 4) != TABLE_LAYOUT {
        return Some(TableFault::OtherLayout);
    }
    let links = usize::from(cell(bytes, 6));
    let ports = usize::from(cell(bytes, 7));
    if bytes.len() != 20 + 12 * links + 22 * ports {
        return Some(TableFault::WrongLength);
    }
    if !has_sum(bytes) {
        return Some(TableFault::WrongSum);
    }
    None
}

/// Returns whether bytes end with their check.
fn has_sum(bytes: &[u8]) -> bool
    requires { 20 ≤ length bytes.now }
    ensures { result ≡ ends bytes.now }
{
    let (front, sum) = bytes.split_at(bytes.len() - 4);
    sum == crc_32(front).to_be_bytes().as_slice()
}

/// Reads the parts of a table that begins and ends as one.
fn read_parts(alloc: Global, bytes: &[u8]) -> Result<(Vec<LinkPlan>, Vec<PortPlan>), AllocError>
    requires { HasLength bytes.now }
    ensures value { IfOk result (λ parts.
        (parts.0.items ≡ links_from bytes.now) × (parts.1.items ≡ ports_from bytes.now)) }
    ensures links { IfOk result (λ parts. All IsLink parts.0.items × (length parts.0.items < 65536)) }
    ensures ports { IfOk result (λ parts. All IsPort parts.1.items × (length parts.1.items < 65536)) }
{
    let links = usize::from(cell(bytes, 6));
    let ports = usize::from(cell(bytes, 7));
    Ok((
        parts_in(alloc, bytes, 8, links)?,
        parts_in(alloc, bytes, 8 + 6 * links, ports)?,
    ))
}

/// Reads a table. Returns its plan, or a fault of the bytes, or the fault that the plan's text would have, of the least
/// number. May return `Plan(Memory)` instead of any result.
pub fn read_table(alloc: Global, bytes: &[u8]) -> Result<Config, TableFault>
    ensures plan { IfOk result (IsTableOf bytes.now) }
    ensures fault { IfErr result (IsFaultOf bytes.now) }
{
    if let Some(fault) = front_fault(bytes) {
        return Err(fault);
    }
    let end_system = cell(bytes, 5);
    let Ok((links, ports)) = read_parts(alloc, bytes) else {
        return Err(MEMORY);
    };
    let Ok(table) = write_parts(alloc, end_system, links.as_slice(), ports.as_slice()) else {
        return Err(MEMORY);
    };
    if table.as_slice() != bytes {
        return Err(TableFault::WrongValue);
    }
    match first_fault(links.as_slice(), ports.as_slice()) {
        None => Ok(Config::new(end_system, links, ports)),
        Some(fault) => Err(TableFault::Plan(fault)),
    }
}
