//! Writing a plan as a table.
ghost use Rattle.std.specs.Prelude.{◌≡◌, ◌++◌, All, length, ◌<◌, IfOk, OnOk};
ghost use Rattle.std.specs.List.{flat_map};
ghost use Rattle.afdx_plan.specs.Config.{plan_of_parts};
ghost use Rattle.afdx_plan.specs.Plan.{IsLink, IsPort};
ghost use Rattle.plan_table.specs.Table.{half, IsTableOf};

use crate::part::{Part, put};
use crate::sum::crc_32;
use afdx_plan::{Config, LinkPlan, PortPlan};
use std::alloc::{AllocError, Global};

/// The version of the layout.
pub const TABLE_LAYOUT: u16 = 1;

// The bytes with which a table begins.
pub const FRONT: [u8; 8] = *b"AFDXPLAN";

/// Adds parts to a table.
fn put_parts<P: Part>(table: &mut Vec<u8>, parts: &[P]) -> Result<(), AllocError>
    requires { All P.IsPart parts.now }
    ensures { OnOk result (table.new.items ≡ table.old.items ++ flat_map half (flat_map P.cells parts.now)) }
{
    for part in parts {
        part.write(table)?;
    }
    Ok(())
}

/// Writes the table of the plan of these parts.
#[tactic(auto, unfolding(crate::specs::Table::plan_cells))]
pub fn write_parts(
    alloc: Global,
    end_system: u16,
    links: &[LinkPlan],
    ports: &[PortPlan],
) -> Result<Vec<u8>, AllocError>
    requires links { All IsLink links.now }
    requires ports { All IsPort ports.now }
    requires few_links { length links.now < 65536 }
    requires few_ports { length ports.now < 65536 }
    ensures { IfOk result (λ table. IsTableOf table.items (plan_of_parts end_system links.now ports.now)) }
{
    let mut table = Vec::new(alloc);
    table.extend_from_slice(&FRONT)?;
    let counts = [links.len() as u16, ports.len() as u16];
    put(
        &mut table,
        &[TABLE_LAYOUT, end_system, counts[0], counts[1]],
    )?;
    put_parts(&mut table, links)?;
    put_parts(&mut table, ports)?;
    let sum = crc_32(table.as_slice());
    table.extend_from_slice(&sum.to_be_bytes())?;
    Ok(table)
}

/// Writes the table of a plan: "AFDXPLAN", the version of the layout, the end system, the numbers of links and of
/// ports, the links, the ports, and the CRC-32 of all that (IEEE 802.3). Each number has 16 bits, the high byte first;
/// the check has 32.
pub fn write_table(alloc: Global, config: &Config) -> Result<Vec<u8>, AllocError>
    ensures { IfOk result (λ table. IsTableOf table.items config.now) }
{
    write_parts(alloc, config.end_system(), config.links(), config.ports())
}
