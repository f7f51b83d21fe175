//! All faults of a plan, each with its place.
ghost use Rattle.std.specs.Prelude.{◌∷◌, ◌≡◌};
ghost use Rattle.afdx_config.specs.Names.{IfOk, IsWithin, List, [], map, table_view};
ghost use Rattle.afdx_config.specs.Explained.{column_after, line_of, Explains, HasLines, TellsToml, stop_finding};
ghost use Rattle.afdx_config.specs.Findings.{PlanFinding as Finding, Tells, findings};
ghost use Rattle.afdx_config.specs.Seen.{finding_of};

use crate::document::Document;
use crate::findings::{Found, Place, PlanFinding, add};
use crate::plan_findings::add_all;
use crate::told::text_of;
use afdx_plan::ConfigFault;
use std::alloc::{AllocError, Global};
use toml::Table;
use toml::de::Error;

/// The quotes of word processors, which TOML doesn't have.
const CURLED_QUOTES: [&str; 5] = ["\u{201c}", "\u{201d}", "\u{201e}", "\u{2018}", "\u{2019}"];

/// The message on a word processor's quote.
const CURLED: &str = "this quote is a word processor's, and a plain one is wanted";

/// All faults of a text.
#[derive(Debug, Drop)]
pub struct Explanation {
    /// The first 1,000, ordered by the number of the fault, then by the order of the tables in the text.
    pub findings: Vec<PlanFinding>,
    /// The number of all findings.
    pub count: usize,
    /// A line with the number of findings, a line for each of the first 1,000, and if there are more a line
    /// with the number of the others.
    pub text: Vec<u8>,
}

/// Returns the explanation of findings. The lines of its text name the text's file if it has a name.
fn explanation_of(
    alloc: Global,
    document: Option<&Document<'_>>,
    found: Found,
    text: &[u8],
    name: Option<&str>,
) -> Result<Explanation, AllocError>
    ensures findings { (all : List Finding) → Tells all (map finding_of found.first.items) found.count
        → IfOk result (λ e. Tells all (map finding_of e.findings.items) e.count) }
    ensures text { IfOk result (λ e. HasLines e.count e.text.items) }
{
    let text = text_of(alloc, document, &found, text, name).map_err(|_| AllocError)?;
    Ok(Explanation {
        findings: found.first,
        count: found.count,
        text,
    })
}

/// Explains the document of a text.
fn explain_document(
    alloc: Global,
    table: &Table,
    text: &[u8],
    name: Option<&str>,
) -> Result<Explanation, AllocError>
    ensures findings { IfOk result (λ e.
        Tells (findings (table_view table.now)) (map finding_of e.findings.items) e.count) }
    ensures text { IfOk result (λ e. HasLines e.count e.text.items) }
{
    let document = Document::of(alloc, table)?;
    let mut found = Found::new(alloc);
    add_all(&mut found, &document)?;
    explanation_of(alloc, Some(&document), found, text, name)
}

/// Returns the line after these bytes, counted from 1.
fn line_of(before: &[u8]) -> usize
    ensures { result ≡ line_of before.now }
{
    1 + before.iter().filter(|byte| **byte == b'\n').count()
}

/// Returns the column after these bytes in characters, counted from 1.
fn column_of(before: &[u8]) -> usize
    ensures { result ≡ column_after 0 before.now }
{
    let mut characters = 0usize;
    for byte in before {
        if *byte == b'\n' {
            characters = 0;
        } else if !(128 <= *byte && *byte < 192) {
            characters += 1;
        }
    }
    1 + characters
}

/// Explains a text that is not TOML.
fn explain_toml(
    alloc: Global,
    text: &[u8],
    error: &Error,
    name: Option<&str>,
) -> Result<Explanation, AllocError>
    requires { IsWithin text.now error.now }
    ensures findings { IfOk result (λ e. TellsToml text.now (map finding_of e.findings.items) e.count) }
    ensures text { IfOk result (λ e. HasLines e.count e.text.items) }
{
    let start = error.span().map_or(0, |span| span.start);
    let (before, rest) = text.split_at(start);
    let message = if has_curled_quote(rest) {
        CURLED
    } else {
        error.message()
    };
    tell_toml(alloc, before, message, name)
}

/// Returns whether a text begins, after blanks, with a quote as word processors write it.
fn has_curled_quote(text: &[u8]) -> bool {
    let text = text.trim_ascii_start();
    CURLED_QUOTES
        .iter()
        .any(|quote| text.starts_with(quote.as_bytes()))
}

/// Explains a text that stops being TOML after the bytes `before`.
fn tell_toml(
    alloc: Global,
    before: &[u8],
    message: &str,
    name: Option<&str>,
) -> Result<Explanation, AllocError>
    ensures findings { IfOk result (λ e.
        Tells (stop_finding before.now message.now ∷ []) (map finding_of e.findings.items) e.count) }
    ensures text { IfOk result (λ e. HasLines e.count e.text.items) }
{
    let mut found = Found::new(alloc);
    let place = Place::Text(line_of(before), column_of(before));
    add(&mut found, ConfigFault::Toml, place, message, None)?;
    explanation_of(alloc, None, found, before, name)
}

/// Finds all faults of a plan, and keeps the first 1,000, each with its place. A text that is not TOML
/// has this one fault.
/// `read_config` returns the fault of the first finding, or the plan if there is no finding.
pub fn explain(alloc: Global, text: &[u8]) -> Result<Explanation, AllocError>
    ensures { IfOk result (λ e. Explains text.now (map finding_of e.findings.items) e.count e.text.items) }
{
    explain_named(alloc, text, None)
}

/// Explains a plan as `explain` does. Each line of a finding begins with the name of the file of the text, and
/// with the number of the finding's line, if the text has the usual form up to that line.
pub fn explain_file(alloc: Global, text: &[u8], name: &str) -> Result<Explanation, AllocError>
    ensures { IfOk result (λ e. Explains text.now (map finding_of e.findings.items) e.count e.text.items) }
{
    explain_named(alloc, text, Some(name))
}

fn explain_named(alloc: Global, text: &[u8], name: Option<&str>) -> Result<Explanation, AllocError>
    ensures { IfOk result (λ e. Explains text.now (map finding_of e.findings.items) e.count e.text.items) }
{
    match toml::table_from_slice(alloc, text) {
        Ok(table) => explain_document(alloc, &table, text, name),
        Err(error) if error.is_memory() => Err(AllocError),
        Err(error) => explain_toml(alloc, text, &error, name),
    }
}
