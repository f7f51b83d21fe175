//! Faults of a plan with their places.
ghost use Rattle.std.specs.Prelude.{◌∷◌, ◌≡◌, ◌≤◌};
ghost use Rattle.afdx_config.specs.Names.{None, OnOk, [], fault_number, length, nat_le, prefix_len};
ghost use Rattle.afdx_config.specs.Findings.{found as finding_at, is_newer as is_newer_finding, one_if, row_like};
ghost use Rattle.afdx_config.specs.Seen.{Adds, Holds, KeepsOne};

use afdx_plan::ConfigFault;
use std::alloc::{AllocError, Global};

/// The place of a fault. Tables are counted from 1, in the order of the text.
#[derive(Clone, Copy, Debug, PartialEq, Eq)]
pub enum Place {
    /// The line and the column, from 1, at which a text stops being TOML.
    Text(usize, usize),
    /// The top level of the text.
    Top,
    /// The table of the end system.
    EndSystem,
    /// The table of a link.
    Link(usize),
    /// The table of a port.
    Port(usize),
}

/// A fault and its place.
#[derive(Debug, Drop)]
pub struct PlanFinding {
    pub fault: ConfigFault,
    pub place: Place,
    /// The key that is missing or unknown, or whose value has the fault. For `Toml`, the message of the
    /// TOML parser.
    pub key: String,
    /// For a fault of two tables, the number of the first one that the table clashes with, which is
    /// earlier. For a port that does not fit its link, the number of the link.
    pub other: Option<usize>,
}

/// Returns the place of row `k` in the array of `place`.
pub(crate) fn row_like(place: Place, k: usize) -> Place
    ensures { result ≡ row_like place k }
{
    match place {
        Place::Link(_) => Place::Link(k),
        _ => Place::Port(k),
    }
}

/// The most findings that are kept, and have a line each.
pub(crate) const LINES_LIMIT: usize = 1_000;

/// The findings so far: the first `LINES_LIMIT` by the numbers of their faults, and the number of all.
#[derive(Drop)]
pub(crate) struct Found {
    pub first: Vec<PlanFinding>,
    pub count: usize,
    // a key that only version 2 has was told as unknown
    pub has_newer: bool,
}

impl Found {
    pub(crate) fn new(alloc: Global) -> Found
        ensures { Holds result [] }
    {
        Found {
            first: Vec::new(alloc),
            count: 0,
            has_newer: false,
        }
    }

    pub(crate) fn alloc(&self) -> Global {
        *self.first.allocator()
    }
}

/// The result of an addition.
pub(crate) type Added = Result<(), AllocError>;

/// Returns the number of the first findings whose faults have no greater number than `fault`.
fn index_of(first: &[PlanFinding], fault: ConfigFault) -> usize
    ensures index { result ≡ prefix_len (λ f. nat_le (fault_number f.fault) (fault_number fault)) first.now }
    ensures within { result ≤ length first.now }
{
    let number = fault.number();
    first
        .iter()
        .take_while(|other| other.fault.number() <= number)
        .count()
}

/// Returns whether a key that only version 2 has is unknown, as the text isn't one of version 2.
fn is_newer(fault: ConfigFault, place: Place, key: &str) -> bool
    ensures { result ≡ is_newer_finding (finding_at fault place key.now None) }
{
    fault.number() == ConfigFault::UnknownKey.number()
        && match place {
            Place::Link(_) => key == "networks",
            Place::Port(_) => key == "checksum",
            _ => false,
        }
}

/// Adds a finding that has a cause of its own: of the keys that only version 2 has, the first is told.
pub(crate) fn add(
    found: &mut Found,
    fault: ConfigFault,
    place: Place,
    key: &str,
    other: Option<usize>,
) -> Added
    ensures { OnOk result (Adds found.old found.new (finding_at fault place key.now other ∷ [])) }
{
    let is_newer = is_newer(fault, place, key);
    if found.has_newer & is_newer {
        return Ok(());
    }
    add_one(found, fault, place, key, other)?;
    found.has_newer |= is_newer;
    Ok(())
}

/// Adds a finding.
fn add_one(
    found: &mut Found,
    fault: ConfigFault,
    place: Place,
    key: &str,
    other: Option<usize>,
) -> Added
    ensures kept { OnOk result (KeepsOne found.old found.new (finding_at fault place key.now other)) }
    ensures newer { found.new.has_newer ≡ found.old.has_newer }
{
    let Some(count) = found.count.checked_add(1) else {
        return Err(AllocError);
    };
    let index = index_of(found.first.as_slice(), fault);
    if LINES_LIMIT <= index {
        found.count = count;
        return Ok(());
    }
    let key = String::from_str(found.alloc(), key)?;
    let finding = PlanFinding {
        fault,
        place,
        key,
        other,
    };
    found.first.insert(index, finding)?;
    found.first.truncate(LINES_LIMIT);
    found.count = count;
    Ok(())
}

/// Adds a finding if the test holds.
pub(crate) fn add_if(
    holds: bool,
    found: &mut Found,
    fault: ConfigFault,
    place: Place,
    key: &str,
    other: Option<usize>,
) -> Added
    ensures { OnOk result (Adds found.old found.new (one_if holds (finding_at fault place key.now other))) }
{
    if holds {
        add(found, fault, place, key, other)
    } else {
        Ok(())
    }
}
