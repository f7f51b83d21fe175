//! The text of findings. The words of their lines are tested alone, in `tests/explain`.
ghost use Rattle.std.specs.Prelude.{◌++◌, ◌-◌, ◌≡◌};
ghost use Rattle.afdx_config.specs.Names.{IfOk, OnOk};
ghost use Rattle.afdx_config.specs.Explained.{HasLines, count_line, rest_line};
ghost use Rattle.afdx_config.specs.Findings.{lines_limit};

use crate::document::Document;
use crate::findings::{Found, LINES_LIMIT, Place, PlanFinding, row_like};
use crate::format::{Content, DOCUMENT, END, Field, field_named, key_fault};
use crate::layout::{line_of, lines_of};
use crate::reading::value_at;
use crate::rows::Row;
use afdx_plan::{ConfigFault, LinkRow, PortRow};
use std::alloc::Global;
use std::io::{Result, Write};
use strsim::levenshtein;
use toml::{Table, Value};

/// The text of an explanation.
pub(crate) type Text = Vec<u8>;

/// The most bytes of a key or a string that a finding prints.
const TOLD_LIMIT: usize = 40;

/// The distance in letters at which no key is taken to be meant; for a short word, half of the word.
const NEAR_LIMIT: usize = 3;

/// Returns true if a byte is printable ASCII, but neither a quote nor a backslash.
fn is_plain(byte: u8) -> bool {
    b' ' <= byte && byte <= b'~' && byte != b'"' && byte != b'\\'
}

/// Writes a string, cut after `TOLD_LIMIT` bytes.
fn write_cut(out: &mut Text, text: &str) -> Result<()> {
    for byte in text.as_bytes().iter().take(TOLD_LIMIT) {
        if is_plain(*byte) {
            out.write_all(&[*byte])?;
        } else {
            write!(out, "\\x{:02x}", *byte)?;
        }
    }
    if TOLD_LIMIT < text.len() {
        out.write_all(b"...")
    } else {
        Ok(())
    }
}

/// Writes a value: a string in quotes, a whole number, else the kind.
fn write_value(out: &mut Text, value: Option<&Value>) -> Result<()> {
    match value {
        None => out.write_all(b"missing"),
        Some(Value::String(text)) => {
            out.write_all(b"\"")?;
            write_cut(out, text.as_str())?;
            out.write_all(b"\"")
        }
        Some(Value::Integer(number)) => write!(out, "{number}"),
        Some(Value::Array(items)) => write!(out, "an array of {}", items.len()),
        Some(value) => write!(out, "a {}", value.type_str()),
    }
}

/// Returns the table at a place. Tables are counted from 1.
fn table_at<'a>(document: &Document<'a>, place: Place) -> Option<&'a Table> {
    match place {
        Place::Text(_, _) => None,
        Place::Top => Some(document.top),
        Place::EndSystem => document.end,
        Place::Link(k) => document.links.get(k.saturating_sub(1)).copied(),
        Place::Port(k) => document.ports.get(k.saturating_sub(1)).copied(),
    }
}

/// Writes the name and number of the table of a link or a port, and its identifier if that is a whole number.
fn write_row(out: &mut Text, document: &Document<'_>, place: Place) -> Result<()> {
    match place {
        Place::Link(k) => write!(out, "vl {k}")?,
        Place::Port(k) => write!(out, "port {k}")?,
        _ => return Ok(()),
    }
    let table = table_at(document, place);
    match table.and_then(|table| value_at(table, "id")) {
        Some(Value::Integer(id)) => write!(out, " (id {id})"),
        _ => Ok(()),
    }
}

/// Writes a key of a place and its value.
fn write_subject(out: &mut Text, document: &Document<'_>, place: Place, key: &str) -> Result<()> {
    match place {
        Place::Text(_, _) | Place::Top => {}
        Place::EndSystem => out.write_all(b"end_system.")?,
        Place::Link(_) | Place::Port(_) => {
            write_row(out, document, place)?;
            out.write_all(b", ")?;
        }
    }
    write_cut(out, key)?;
    out.write_all(b" is ")?;
    let table = table_at(document, place);
    write_value(out, table.and_then(|table| value_at(table, key)))
}

/// Returns the keys of the table at a place in a version of the format.
fn fields_at(is_2: bool, place: Place) -> &'static [Field] {
    match place {
        Place::Text(_, _) => &[],
        Place::Top => &DOCUMENT,
        Place::EndSystem => &END,
        Place::Link(_) => LinkRow::fields(is_2),
        Place::Port(_) => PortRow::fields(is_2),
    }
}

/// Writes the values that a content allows.
fn write_content(out: &mut Text, content: Content) -> Result<()> {
    let text = match content {
        Content::Whole((least, most)) => return write!(out, "{least} to {most}"),
        Content::Version => "1 to 2",
        Content::Gap => "1, 2, 4, 8, 16, 32, 64 or 128",
        Content::Networks => "both, a or b",
        Content::PortKind => "sampling or queuing",
        Content::Address => "an address in 10.0.0.0/8, without leading zeros",
        Content::Checksum => "none or udp",
        Content::Section => "a table",
        Content::Rows => "an array of tables",
    };
    out.write_all(text.as_bytes())
}

/// Returns the kind of value that a content requires.
fn kind_text(content: Content) -> &'static str {
    match content {
        Content::Whole(_) | Content::Version | Content::Gap => "a whole number",
        Content::Section => "a table",
        Content::Rows => "an array of tables",
        _ => "a text",
    }
}

/// Writes why a key is unknown: it is one of version 2 alone, which is told once, or the format lacks it.
fn write_known(out: &mut Text, document: &Document<'_>, finding: &PlanFinding) -> Result<()> {
    let latest = fields_at(true, finding.place);
    if key_fault(latest, finding.key.as_str()).is_none() {
        out.write_all(b"only if version = 2")?;
        return match value_at(document.top, "version") {
            None => out.write_all(b", and version is missing"),
            Some(_) => Ok(()),
        };
    }
    out.write_all(b"the keys are")?;
    let fields = fields_at(document.is_2, finding.place);
    for field in fields {
        write!(out, " {}", field.0)?;
    }
    match nearest(*out.allocator(), fields, finding.key.as_str())? {
        Some(key) => write!(out, "; did you mean {key}?"),
        None => Ok(()),
    }
}

/// Returns the first key that differs from a word in the least number of letters, if these are few.
fn nearest(alloc: Global, fields: &'static [Field], word: &str) -> Result<Option<&'static str>> {
    if TOLD_LIMIT < word.len() {
        return Ok(None);
    }
    let mut found = None;
    let mut least = NEAR_LIMIT.min(word.len().div_ceil(2));
    for field in fields {
        let edits = levenshtein(alloc, field.0, word)?;
        if edits < least {
            least = edits;
            found = Some(field.0);
        }
    }
    Ok(found)
}

/// Returns the allowed number of tables under a key, or of a sub-VL's ports.
fn limit_text(key: &str) -> &'static str {
    match key {
        "vl" => "1 to 64 tables",
        "port" => "1 to 256 tables",
        _ => "at most 64 ports of one sub-VL",
    }
}

/// Writes a bound that a port's link sets, and the value of the link.
fn write_bound(
    out: &mut Text,
    document: &Document<'_>,
    link: Option<usize>,
    bound: &str,
    key: &str,
) -> Result<()> {
    out.write_all(bound.as_bytes())?;
    let Some(k) = link else {
        return Ok(());
    };
    out.write_all(b"; ")?;
    write_subject(out, document, Place::Link(k), key)
}

/// Writes the values that are allowed at the key of a finding. If a single table stands in the place of an array of
/// tables, writes the header to use.
fn write_allowed(out: &mut Text, document: &Document<'_>, finding: &PlanFinding) -> Result<()> {
    let key = finding.key.as_str();
    let content = field_named(fields_at(document.is_2, finding.place), key).map(|field| field.1);
    let link = finding.other;
    match (finding.fault, content) {
        (ConfigFault::UnknownKey, _) => write_known(out, document, finding),
        (ConfigFault::WrongKind, Some(content)) => {
            write!(out, "{} is wanted", kind_text(content))?;
            match (content, value_at(document.top, key)) {
                (Content::Rows, Some(Value::Table(_))) => write!(out, ": write [[{key}]]"),
                _ => Ok(()),
            }
        }
        (ConfigFault::NoSuchVl, _) => out.write_all(b"no vl has this id"),
        (ConfigFault::NoSuchSub, _) => {
            write_bound(out, document, link, "below sub_vls of its vl", "sub_vls")
        }
        (ConfigFault::SamplingTooLong, _) => {
            write_bound(out, document, link, "at most lmax - 47 of its vl", "lmax")
        }
        (ConfigFault::Limit, _) => out.write_all(limit_text(key).as_bytes()),
        (_, Some(content)) => write_content(out, content),
        (_, None) => Ok(()),
    }
}

/// Returns the values that the two tables of a fault share, or `None` for a fault of one key.
fn same_text(fault: ConfigFault) -> Option<&'static str> {
    match fault {
        ConfigFault::DuplicateVl | ConfigFault::DuplicatePort => Some("the same id"),
        ConfigFault::SameFlow => Some("the same vl, partition, source, destination and dest_ip"),
        ConfigFault::SharedUnicast => Some("the same partition and dest_ip, but another vl"),
        _ => None,
    }
}

/// Writes a finding of two tables and the values that they share, or of one table, its value and the allowed ones.
fn write_faulty(out: &mut Text, document: &Document<'_>, finding: &PlanFinding) -> Result<()> {
    let Some(same) = same_text(finding.fault) else {
        write_subject(out, document, finding.place, finding.key.as_str())?;
        out.write_all(b": ")?;
        return write_allowed(out, document, finding);
    };
    write_row(out, document, finding.place)?;
    if let Some(k) = finding.other {
        out.write_all(b" and ")?;
        write_row(out, document, row_like(finding.place, k))?;
    }
    write!(out, ": {same}")
}

/// Writes the line of a finding of a document, or of a text that stops being TOML.
fn write_finding(
    out: &mut Text,
    document: Option<&Document<'_>>,
    finding: &PlanFinding,
) -> Result<()> {
    let number = finding.fault.number();
    write!(out, "{number} {}: ", finding.fault)?;
    match (finding.place, document) {
        (Place::Text(line, column), _) => {
            write!(out, "line {line}, column {column}: {}", finding.key)?
        }
        (_, Some(document)) => write_faulty(out, document, finding)?,
        (_, None) => {}
    }
    out.write_all(b"\n")
}

/// Returns the lines of findings in a text.
fn told_lines(
    alloc: Global,
    document: Option<&Document<'_>>,
    findings: &[PlanFinding],
    text: &[u8],
    name: Option<&str>,
) -> Result<Text> {
    let mut out = Vec::new(alloc);
    let lines = lines_of(alloc, if name.is_some() { text } else { b"" })?;
    for finding in findings {
        match (name, line_of(&lines, finding)) {
            (Some(name), Some(line)) => write!(out, "{name}:{line}: ")?,
            (Some(name), None) => write!(out, "{name}: ")?,
            (None, _) => {}
        }
        write_finding(&mut out, document, finding)?;
    }
    Ok(out)
}

/// Writes the number of findings.
#[tactic(auto, unfolding(crate::specs::Explained::count_line))]
fn write_count(out: &mut Text, count: usize) -> Result<()>
    ensures { OnOk result (out.new.items ≡ out.old.items ++ count_line count) }
{
    match count {
        0 => out.write_all(b"no faults\n"),
        1 => out.write_all(b"1 fault\n"),
        _ => writeln!(out, "{count} faults"),
    }
}

/// Writes the number of findings that have no line.
#[tactic(auto, unfolding(crate::specs::Explained::rest_line))]
fn write_rest(out: &mut Text, count: usize) -> Result<()>
    ensures { OnOk result (out.new.items ≡ out.old.items ++ rest_line (count - lines_limit)) }
{
    if count <= LINES_LIMIT {
        return Ok(());
    }
    let others = count - LINES_LIMIT;
    writeln!(out, "and {others} more")
}

/// Returns the text of findings: their number, a line for each kept one, and the number of the others. Each line begins
/// with the name of the text's file, if it has one, and the line of the finding there, if that is known.
pub(crate) fn text_of(
    alloc: Global,
    document: Option<&Document<'_>>,
    found: &Found,
    text: &[u8],
    name: Option<&str>,
) -> Result<Text>
    ensures { IfOk result (λ out. HasLines found.now.count out.items) }
{
    let mut out = Vec::new(alloc);
    write_count(&mut out, found.count)?;
    let lines = told_lines(alloc, document, found.first.as_slice(), text, name)?;
    out.write_all(lines.as_slice())?;
    write_rest(&mut out, found.count)?;
    Ok(out)
}
