//! Reading a plan.
ghost use Rattle.std.specs.Prelude.{◌≡◌, ◌≢◌};
ghost use Rattle.afdx_config.specs.Names.{All, ConfigFault, IfErr, IfOk, IsPlan, List, Some, [], map};
ghost use Rattle.afdx_config.specs.Cells.{plan_of};
ghost use Rattle.afdx_config.specs.Faults.{IsPlanOf, IsLeastFault};
ghost use Rattle.afdx_config.specs.Findings.{PlanFinding, by_fault, findings, told_once};
ghost use Rattle.afdx_config.specs.Seen.{AreInRange, Holds, fault_of, IsDocument, data_of, plan_in};

use crate::document::Document;
use crate::findings::Found;
use crate::plan_findings::add_all;
use crate::rows::{Row, Rows};
use afdx_plan::{Config, ConfigFault};
use std::alloc::{AllocError, Global};

/// Returns the fault of the first finding.
#[tactic(auto, using(crate::proofs::FirstLemmas::first_kept))]
fn least_fault(found: &Found) -> Option<ConfigFault>
    ensures { (all : List PlanFinding) → Holds found.now all → result ≡ fault_of (by_fault (told_once all)) }
{
    match found.first.as_slice() {
        [] => None,
        [first, ..] => Some(first.fault),
    }
}

/// Converts rows to the parts of a plan.
fn plans<R: Row>(alloc: Global, rows: &[R]) -> Result<Vec<R::Plan>, AllocError>
    requires { All R.Fits rows.now }
    ensures { IfOk result (λ plans. plans.items ≡ map R.plan_of rows.now) }
{
    // (room for four at least, as a list that grows has: memory is known by that)
    let mut plans = Vec::with_capacity(alloc, rows.len().max(4))?;
    for row in rows {
        plans.push(row.plan())?;
    }
    Ok(plans)
}

/// Makes the plan of a document without faults.
fn plan_of(alloc: Global, rows: &Rows) -> Result<Config, AllocError>
    requires fits { AreInRange rows.now }
    requires valid { IsPlan (plan_in rows.now) }
    ensures { IfOk result (λ config. config ≡ plan_in rows.now) }
{
    let links = plans(alloc, rows.links.as_slice())?;
    let ports = plans(alloc, rows.ports.as_slice())?;
    Ok(Config::new(rows.end_system, links, ports))
}

/// Converts a document.
fn read_document(alloc: Global, document: &Document<'_>) -> Result<Config, ConfigFault>
    requires { IsDocument document.now }
    ensures no_fault { IfOk result (λ _. findings (data_of document.now) ≡ []) }
    ensures plan { IfOk result (λ config. config ≡ plan_of (data_of document.now)) }
    ensures fault { IfErr result (λ fault. fault ≢ ConfigFault.Memory →
        fault_of (findings (data_of document.now)) ≡ Some fault) }
{
    let mut found = Found::new(alloc);
    let Ok(rows) = add_all(&mut found, document) else {
        return Err(ConfigFault::Memory);
    };
    if let Some(fault) = least_fault(&found) {
        return Err(fault);
    }
    plan_of(alloc, &rows).map_err(|_| ConfigFault::Memory)
}

/// Reads a plan from a TOML text. Returns it, or the fault of the least number that the
/// text has. May return `Memory` instead of any result.
pub fn read_config(alloc: Global, text: &[u8]) -> Result<Config, ConfigFault>
    ensures plan { IfOk result (IsPlanOf text.now) }
    ensures fault { IfErr result (λ least. least ≢ ConfigFault.Memory → IsLeastFault text.now least) }
{
    match toml::table_from_slice(alloc, text) {
        Ok(table) => match Document::of(alloc, &table) {
            Ok(document) => read_document(alloc, &document),
            Err(_) => Err(ConfigFault::Memory),
        },
        Err(error) if error.is_memory() => Err(ConfigFault::Memory),
        Err(_) => Err(ConfigFault::Toml),
    }
}
