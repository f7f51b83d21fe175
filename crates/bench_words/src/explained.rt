//! The document that `explain` prints for a plan.
use crate::document::{LAYOUT, json_of};
use afdx_config::Explanation;
use serde::Serialize;
use std::alloc::{AllocError, Global};

/// The faults of a plan in a file: how many there are, and the first 1,000.
#[derive(Drop, Serialize)]
struct Explained<'a> {
    version: u32,
    file: &'a str,
    count: usize,
    faults: Vec<Fault<'a>>,
}

/// A fault: the line of the file, if it is known, number and name, and what is seen and allowed.
#[derive(Drop, Serialize)]
struct Fault<'a> {
    line: Option<u64>,
    number: u8,
    name: &'a str,
    told: &'a str,
}

/// Returns the document of an explanation of the plan in a file. Fails only if an allocation fails.
pub fn explain_document(
    alloc: Global,
    file: &str,
    explained: &Explanation,
) -> Result<Vec<u8>, AllocError> {
    let text = std::str::from_utf8(explained.text.as_slice()).unwrap_or("");
    let mut faults = Vec::with_capacity(alloc, explained.findings.len())?;
    for (finding, line) in explained.findings.iter().zip(text.lines().skip(1)) {
        let (place, told) = parts_of(line, file);
        let (name, told) = told.split_once(": ").unwrap_or((told, ""));
        faults.push(Fault {
            line: place.parse::<u64>().ok(),
            number: finding.fault.number(),
            name: name.split_once(' ').map(|(_, name)| name).unwrap_or(name),
            told,
        })?;
    }
    let document = Explained {
        version: LAYOUT,
        file,
        count: explained.count,
        faults,
    };
    json_of(alloc, &document)
}

/// Cuts a line after the name of its file: the number of the line, and what is after that.
fn parts_of<'t>(line: &'t str, file: &str) -> (&'t str, &'t str) {
    let rest = line.strip_prefix(file).unwrap_or(line);
    let (place, told) = rest.split_once(": ").unwrap_or(("", rest));
    (place.strip_prefix(':').unwrap_or(""), told)
}
