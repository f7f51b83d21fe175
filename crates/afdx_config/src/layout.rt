//! The lines at which the tables and keys of a text begin. They are known of a text in the usual form: each header and
//! each key begins a line, and each value ends on its line. From the first line of another form on, none is known.
use crate::findings::{Place, PlanFinding};
use std::alloc::{AllocError, Global};
use std::collections::BTreeMap;
use std::str;

/// The kind of a table, and its number among the tables of that kind, from 1; 0 for a kind that has one table.
type TableName = (u8, usize);

const TOP: TableName = (0, 0);

const END_SYSTEM: TableName = (1, 0);

const LINK: u8 = 2;

const PORT: u8 = 3;
// A table that the format lacks.
const OTHER: TableName = (4, 0);

/// A table and a key in it. The header of the table has no key.
type Spot<'a> = (TableName, &'a str);

/// The first line of each spot, from 1.
pub(crate) type Lines<'a> = BTreeMap<Spot<'a>, usize>;

/// The beginning of a line.
#[derive(Clone, Copy)]
enum Start<'a> {
    /// A comment, or nothing.
    Nothing,
    /// `[name]`, or with two brackets one more table of an array.
    Header(&'a str, bool),
    /// A key, and whether its value ends on the line.
    Key(&'a str, bool),
    /// A line of another form.
    Unusual,
}

fn is_bare(c: char) -> bool {
    c.is_ascii_alphanumeric() || c == '-' || c == '_'
}

/// Returns the bare key that a text begins with, and the rest of the text.
fn bare_key(text: &str) -> Option<(&str, &str)> {
    let end = text.find(|c| !is_bare(c)).unwrap_or(text.len());
    let (key, rest) = text.split_at_checked(end)?;
    (!key.is_empty()).then_some((key, rest))
}

/// Returns the key that a text begins with, bare or in quotes, and the rest of the text.
fn key_of(text: &str) -> Option<(&str, &str)> {
    for quote in ["\"", "'"] {
        if let Some(quoted) = text.strip_prefix(quote) {
            let (key, rest) = bare_key(quoted)?;
            return Some((key, rest.strip_prefix(quote)?));
        }
    }
    bare_key(text)
}

/// Reads a header, whose first bracket is left out.
fn header_of(text: &str) -> Option<Start<'_>> {
    let row = text.strip_prefix("[");
    let (name, rest) = bare_key(row.unwrap_or(text))?;
    rest.strip_prefix(if row.is_some() { "]]" } else { "]" })?;
    Some(Start::Header(name, row.is_some()))
}

/// Reads a key and the beginning of its value.
fn pair_of(line: &str) -> Option<Start<'_>> {
    let (key, rest) = key_of(line)?;
    let value = rest.trim_ascii_start().strip_prefix("=")?;
    let value = value.trim_ascii_start();
    let is_open = ["[", "{", "\"\"\"", "'''"]
        .iter()
        .any(|open| value.starts_with(*open));
    Some(Start::Key(key, !is_open))
}

/// Returns the beginning of a line.
fn start_of(line: &str) -> Start<'_> {
    let line = line.trim_ascii_start();
    if line.is_empty() || line.starts_with("#") {
        return Start::Nothing;
    }
    let start = match line.strip_prefix("[") {
        Some(header) => header_of(header),
        None => pair_of(line),
    };
    start.unwrap_or(Start::Unusual)
}

/// The numbers of tables of links and of ports that have begun.
#[derive(Clone, Copy)]
struct Begun {
    links: usize,
    ports: usize,
}

/// Returns the table of a header.
fn table_of(begun: &mut Begun, name: &str, is_row: bool) -> TableName {
    match (name, is_row) {
        ("end_system", false) => END_SYSTEM,
        ("vl", true) => {
            begun.links = begun.links.saturating_add(1);
            (LINK, begun.links)
        }
        ("port", true) => {
            begun.ports = begun.ports.saturating_add(1);
            (PORT, begun.ports)
        }
        _ => OTHER,
    }
}

/// Returns the lines of the spots of a text, up to its first line of another form.
pub(crate) fn lines_of(alloc: Global, text: &[u8]) -> Result<Lines<'_>, AllocError> {
    let mut lines = BTreeMap::new(alloc);
    let mut begun = Begun { links: 0, ports: 0 };
    let mut table = TOP;
    let text = str::from_utf8(text).unwrap_or("");
    let text = text.strip_prefix("\u{feff}").unwrap_or(text);
    for (k, line) in text.split('\n').enumerate() {
        let line_number = k.saturating_add(1);
        match start_of(line) {
            Start::Nothing => {}
            Start::Header(name, is_row) => {
                lines.entry((TOP, name))?.or_insert(line_number);
                table = table_of(&mut begun, name, is_row);
                lines.entry((table, ""))?.or_insert(line_number);
            }
            Start::Key(key, is_whole) => {
                lines.entry((table, key))?.or_insert(line_number);
                if !is_whole {
                    break;
                }
            }
            Start::Unusual => break,
        }
    }
    Ok(lines)
}

/// Returns the table of a place.
fn table_at(place: Place) -> TableName {
    match place {
        Place::Text(_, _) | Place::Top => TOP,
        Place::EndSystem => END_SYSTEM,
        Place::Link(k) => (LINK, k),
        Place::Port(k) => (PORT, k),
    }
}

/// Returns the line of a finding: of its place if the text stops being TOML there, of its key, or else of its table's
/// header.
pub(crate) fn line_of<'a>(lines: &Lines<'a>, finding: &'a PlanFinding) -> Option<usize> {
    if let Place::Text(line, _) = finding.place {
        return Some(line);
    }
    line_at(lines, table_at(finding.place), finding.key.as_str())
}

/// Returns the line of a key of a table, or else of the table's header.
fn line_at<'a>(lines: &Lines<'a>, table: TableName, key: &'a str) -> Option<usize> {
    let of_key = lines.get(&(table, key)).copied();
    of_key.or(lines.get(&(table, "")).copied())
}

/// Returns the line of the `id` of the table at a place in a text, or else of its header, from 1; `None` if it isn't
/// known. Fails only if an allocation fails.
pub fn id_line(alloc: Global, text: &[u8], place: Place) -> Result<Option<usize>, AllocError> {
    let lines = lines_of(alloc, text)?;
    Ok(line_at(&lines, table_at(place), "id"))
}
