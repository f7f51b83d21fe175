//! The plan of an interface document.
ghost use Rattle.std.specs.Prelude.{◌≡◌, ◌<◌, IfOk, IfSome, IsNone, IsSome, string_bytes};
ghost use Rattle.interface_file.specs.Import.{IsAccepted};

use crate::columns::{Column, END_SYSTEM, LMAX, SUB_VLS, Subject, VL, column_at, column_with};
use crate::faults::{DocumentFault, Faults, Wrong};
use crate::plan_text::{is_identifier, links_of, plan_text};
use crate::reading::{Document, PortCells, read_document};
use afdx_config::{Explanation, Place, PlanFinding, explain, read_config};
use afdx_plan::{ConfigFault, LINKS_LIMIT};
use plan_report::sheet::{Others, quoted, seen};
use std::alloc::{AllocError, Global};

/// The result of importing an interface document.
#[derive(Drop)]
pub struct Imported {
    /// The text of the document's plan, with the names as comments, if the document has no fault.
    pub plan: Option<String>,
    /// The first 1,000 faults, ordered by row and column.
    pub faults: Vec<DocumentFault>,
    /// The number of all faults.
    pub count: usize,
    /// The columns that an interface document doesn't have: they are left alone.
    pub others: Others,
}

/// Makes the plan of an interface document. Fails only if an allocation fails.
pub fn import(alloc: Global, text: &[u8]) -> Result<Imported, AllocError>
    ensures accepted { IfOk result (λ made. IfSome made.plan (λ plan. IsAccepted (string_bytes plan))) }
    ensures told { IfOk result (λ made. IsNone made.plan → 0 < made.count) }
    ensures faultless { IfOk result (λ made. IsSome made.plan → made.count ≡ 0) }
{
    let Document {
        rows,
        others,
        mut faults,
        width,
        ..
    } = read_document(alloc, text)?;
    let plan = match width {
        Some(_) => plan_of(alloc, &mut faults, rows.as_slice())?,
        None => None,
    };
    faults.sort();
    Ok(Imported {
        plan,
        faults: faults.first,
        count: faults.count,
        others,
    })
}

/// Returns the text of the plan of these rows, if it and the document have no fault. Adds the faults.
fn plan_of(
    alloc: Global,
    faults: &mut Faults,
    rows: &[PortCells],
) -> Result<Option<String>, AllocError>
    ensures accepted { IfOk result (λ plan. IfSome plan (λ text. IsAccepted (string_bytes text))) }
    ensures told { IfOk result (λ plan. IsNone plan → 0 < faults.new.count) }
    ensures faultless { IfOk result (λ plan. IsSome plan → faults.new.count ≡ 0) }
{
    let links = links_of(alloc, rows)?;
    let links = links.as_slice();
    add_differences(alloc, faults, rows)?;
    let text = plan_text(alloc, rows, links)?;
    if rows.is_empty() {
        if faults.count == 0 {
            faults.add(1, None, Wrong::NoRow)?;
        }
        return Ok(None);
    }
    let explained = explain(alloc, text.as_str().as_bytes())?;
    add_findings(alloc, faults, rows, links, &explained)?;
    accepted(alloc, faults, text)
}

/// Returns the text of a plan, if it and its document have no fault.
fn accepted(alloc: Global, faults: &mut Faults, text: String) -> Result<Option<String>, AllocError>
    ensures accepted { IfOk result (λ plan. IfSome plan (λ text. IsAccepted (string_bytes text))) }
    ensures told { IfOk result (λ plan. IsNone plan → 0 < faults.new.count) }
    ensures faultless { IfOk result (λ plan. IsSome plan → faults.new.count ≡ 0) }
{
    if faults.count > 0 {
        return Ok(None);
    }
    match read_config(alloc, text.as_str().as_bytes()) {
        Ok(_plan) => Ok(Some(text)),
        Err(ConfigFault::Memory) => Err(AllocError),
        Err(fault) => {
            faults.add(1, None, Wrong::Plan(fault))?;
            Ok(None)
        }
    }
}

/// Adds a fault for each cell that differs from the first row of the same link, or of the document.
fn add_differences(
    alloc: Global,
    faults: &mut Faults,
    rows: &[PortCells],
) -> Result<(), AllocError> {
    for row in rows {
        let of_link = rows.iter().find(|other| other.cell(VL) == row.cell(VL));
        for place in 0..21usize {
            let Column(subject, _, _, _, _) = column_at(place);
            let (first, whole) = match subject {
                Subject::Link => (of_link, "the same link"),
                Subject::EndSystem => (rows.first(), "the same end system"),
                _ => continue,
            };
            if let Some(first) = first {
                add_difference(alloc, faults, row, first, place, whole)?;
            }
        }
    }
    Ok(())
}

/// Adds a fault if a cell differs from an earlier row's.
fn add_difference(
    alloc: Global,
    faults: &mut Faults,
    row: &PortCells,
    first: &PortCells,
    place: usize,
    whole: &'static str,
) -> Result<(), AllocError> {
    if row.cell(place) == first.cell(place) {
        return Ok(());
    }
    let wrong = Wrong::Differs {
        seen: seen(alloc, row.cell(place).as_bytes())?,
        first: first.row,
        whole,
        other: quoted(alloc, first.cell(place).as_bytes())?,
    };
    faults.add(row.row, Some(place), wrong)
}

/// Adds the faults of the plan, and counts the faults that it doesn't keep. The faults of links' identifiers aren't
/// counted: they are faults of the rows of their ports.
fn add_findings(
    alloc: Global,
    faults: &mut Faults,
    rows: &[PortCells],
    links: &[usize],
    explained: &Explanation,
) -> Result<(), AllocError> {
    let mut told = 0usize;
    for finding in explained.findings.iter() {
        if let Some((row, place)) = cell_of(rows, links, finding) {
            let wrong = wrong_of(alloc, rows, links, finding, row, place)?;
            faults.add(row.row, Some(place), wrong)?;
            told = told.saturating_add(1);
        }
    }
    let nameless = |first: &&usize| rows
        .get(**first)
        .is_some_and(|row| !is_identifier(row.cell(VL)));
    let nameless = links.iter().filter(nameless).count();
    let others = explained
        .count
        .saturating_sub(told)
        .saturating_sub(nameless);
    faults.count = faults.count.saturating_add(others);
    Ok(())
}

/// Returns the row and the column of a finding.
fn cell_of<'a>(
    rows: &'a [PortCells],
    links: &[usize],
    finding: &PlanFinding,
) -> Option<(&'a PortCells, usize)> {
    let key = finding.key.as_str();
    match finding.place {
        Place::Port(k) => Some((
            rows.get(k.checked_sub(1)?)?,
            column_with(Subject::Port, key)?,
        )),
        Place::Link(k) => {
            let first = links.get(k.checked_sub(1)?)?;
            Some((rows.get(*first)?, column_with(Subject::Link, key)?))
        }
        Place::EndSystem => Some((rows.first()?, END_SYSTEM)),
        _ => Some((rows.get(*links.get(LINKS_LIMIT)?)?, VL)),
    }
}

/// Returns the fault of a cell, from a finding of the plan.
fn wrong_of(
    alloc: Global,
    rows: &[PortCells],
    links: &[usize],
    finding: &PlanFinding,
    row: &PortCells,
    place: usize,
) -> Result<Wrong, AllocError> {
    let seen = seen(alloc, row.cell(place).as_bytes())?;
    let other = finding.other.unwrap_or(0).saturating_sub(1);
    let first = rows.get(other).map_or(0, |row| row.row);
    let link = links.get(other).and_then(|first| rows.get(*first));
    Ok(match finding.fault {
        ConfigFault::DuplicatePort => same(seen, first, "the same port"),
        ConfigFault::SameFlow => {
            same(
                seen,
                first,
                "the same vl, partition, source, destination and dest_ip",
            )
        }
        ConfigFault::SharedUnicast => {
            same(
                seen,
                first,
                "the same partition and dest_ip, but another vl",
            )
        }
        ConfigFault::NoSuchSub => Wrong::NoSuchSub {
            sub_vls: cell_in(alloc, link, SUB_VLS)?,
            seen,
        },
        ConfigFault::SamplingTooLong => Wrong::TooLong {
            lmax: cell_in(alloc, link, LMAX)?,
            seen,
        },
        ConfigFault::Limit if place == VL => Wrong::ManyLinks {
            vl: quoted(alloc, row.cell(place).as_bytes())?,
        },
        ConfigFault::Limit => Wrong::ManyPorts {
            sub: quoted(alloc, row.cell(place).as_bytes())?,
        },
        _ => value(place, seen),
    })
}

fn same(seen: String, first: u64, what: &'static str) -> Wrong {
    Wrong::Same { seen, first, what }
}

/// Returns that a cell has another value than one that is wanted in its column.
fn value(place: usize, seen: String) -> Wrong {
    let wanted = if place < 21 { column_at(place).4 } else { "" };
    Wrong::Value { wanted, seen }
}

/// Returns the cell of a row, which may be missing.
fn cell_in(alloc: Global, row: Option<&PortCells>, place: usize) -> Result<String, AllocError> {
    String::from_str(alloc, row.map_or("", |row| row.cell(place)))
}
