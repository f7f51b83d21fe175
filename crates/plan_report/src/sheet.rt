//! Tables of a spreadsheet as CSV texts: columns by name, rows without empty ones, cells without the characters that a
//! spreadsheet puts around a value.
ghost use Rattle.std.specs.Prelude.{◌<◌, IfSome, length};

use csv::{ByteRecord, Position, ReaderBuilder};
use std::alloc::{AllocError, Global};
use std::fmt::{self, Write};

/// The columns of an interface document, by their names in its header. Each row belongs to a port; the cells on its
/// link are in each row of the link.
pub const COLUMNS: [&str; 21] = [
    "vl",
    "vl_name",
    "bag_ms",
    "lmax",
    "sub_vls",
    "capacity",
    "networks",
    "port",
    "name",
    "sub",
    "partition",
    "kind",
    "source",
    "destination",
    "max",
    "dest_ip",
    "checksum",
    "end_system",
    "period_us",
    "jitter_us",
    "deadline_us",
];

/// Returns the place, among the names of columns, of the one that a cell of a header has, in capitals or not.
pub fn column_of(names: &[&str], cell: &[u8]) -> Option<usize>
    ensures within { IfSome result (λ place. place < length names.now) }
{
    let cell = bare(cell);
    names
        .iter()
        .position(|name| name.as_bytes().eq_ignore_ascii_case(cell))
}

/// The most bytes of a cell that are shown.
const SHOWN_LIMIT: usize = 40;

/// Returns a cell without blanks at either side. A cell that begins with blanks may have quotes after them, which the
/// reader of CSV leaves there: it loses these too.
pub fn bare(cell: &[u8]) -> &[u8] {
    let trimmed = cell.trim_ascii();
    match trimmed {
        [b'"', inner @ .., b'"'] if trimmed.len() < cell.len() => inner.trim_ascii(),
        _ => trimmed,
    }
}

/// Returns a cell as `bare` does, and without a point and zeros at its end, as in `100000.0`.
pub fn whole(cell: &[u8]) -> &[u8] {
    let cell = bare(cell);
    let digits = without_zeros(cell);
    match digits {
        [before @ .., b'.'] if !before.is_empty() && digits.len() < cell.len() => before,
        _ => cell,
    }
}

/// Returns a text without the zeros at its end.
fn without_zeros(text: &[u8]) -> &[u8] {
    match text.iter().rposition(|byte| *byte != b'0') {
        Some(last) => &text[..=last],
        None => &[],
    }
}

/// Returns a cell in quotes: its first 40 bytes. Quotes, backslashes and bytes that aren't printable ASCII become `\x`
/// and two digits.
pub fn quoted(alloc: Global, cell: &[u8]) -> Result<String, AllocError> {
    let mut text = String::from_str(alloc, "\"")?;
    for byte in cell.iter().take(SHOWN_LIMIT) {
        push_shown(&mut text, *byte)?;
    }
    text.push_str(if SHOWN_LIMIT < cell.len() {
        "...\""
    } else {
        "\""
    })?;
    Ok(text)
}

/// Returns that a cell has a value, or that it is empty.
pub fn seen(alloc: Global, cell: &[u8]) -> Result<String, AllocError> {
    if cell.is_empty() {
        return String::from_str(alloc, "the cell is empty");
    }
    let cell = quoted(alloc, cell)?;
    format!(in alloc; "{cell} is seen")
}

/// Adds a byte of a cell that is shown.
fn push_shown(text: &mut String, byte: u8) -> Result<(), AllocError> {
    match byte {
        b'"' | b'\\' => write!(text, "\\x{byte:02x}"),
        b' '..=b'~' => Ok(text.push(char::from(byte))?),
        _ => write!(text, "\\x{byte:02x}"),
    }
}

/// The bytes that may separate cells.
const SEPARATORS: [u8; 3] = [b',', b';', b'\t'];

/// Returns whether a row has no cell but empty ones.
pub fn is_empty(row: &ByteRecord) -> bool {
    for place in 0..row.len() {
        if !bare(row.get(place).unwrap_or(b"")).is_empty() {
            return false;
        }
    }
    true
}

/// Returns which of comma, semicolon and tab separates the cells of a text: the first of them by which its header has
/// the most of these columns. The header is the first row that isn't empty.
pub fn separator_of(alloc: Global, text: &[u8], names: &[&str]) -> Result<u8, AllocError> {
    let mut best = (0, SEPARATORS[0]);
    for separator in SEPARATORS {
        let known = known_columns(alloc, text, names, separator)?;
        if best.0 < known {
            best = (known, separator);
        }
    }
    Ok(best.1)
}

/// Returns how many cells of the header name a column, if this byte separates them.
fn known_columns(
    alloc: Global,
    text: &[u8],
    names: &[&str],
    separator: u8,
) -> Result<usize, AllocError> {
    let rows = ReaderBuilder::new()
        .has_headers(false)
        .flexible(true)
        .delimiter(separator)
        .from_reader(alloc, text);
    for row in rows.into_byte_records() {
        let Ok(row) = row else {
            return Err(AllocError);
        };
        if !is_empty(&row) {
            return Ok(known_in(&row, names));
        }
    }
    Ok(0)
}

/// Returns how many cells of a row name a column.
fn known_in(row: &ByteRecord, names: &[&str]) -> usize {
    let mut known = 0usize;
    for place in 0..row.len() {
        if column_of(names, row.get(place).unwrap_or(b"")).is_some() {
            known = known.saturating_add(1);
        }
    }
    known
}

/// Returns the line of a text, from 1, at which a row of it begins. The reader of CSV places a row before the empty
/// lines that it skips.
pub fn line_of(text: &[u8], at: Option<Position>) -> u64 {
    let Some(at) = at else {
        return 0;
    };
    let skipped = text.get(at.byte() as usize..).unwrap_or(&[]).iter();
    let ends = skipped.take_while(|byte| matches!(**byte, b'\r' | b'\n'));
    at.line()
        .saturating_add(ends.filter(|byte| **byte == b'\n').count() as u64)
}

/// The most names that are kept.
const NAMES_LIMIT: usize = 100;

/// The columns that are left alone: the names of the first 100, and the number of all. `Display` prints them in one
/// line.
#[derive(Drop)]
pub struct Others {
    pub names: Vec<String>,
    pub count: usize,
}

impl Others {
    /// Creates an empty list of columns.
    pub fn new(alloc: Global) -> Others {
        Others {
            names: Vec::new(alloc),
            count: 0,
        }
    }

    /// Adds a column by its cell in the header. A cell without a name isn't one.
    pub fn add(&mut self, cell: &[u8]) -> Result<(), AllocError> {
        let cell = bare(cell);
        if cell.is_empty() {
            return Ok(());
        }
        self.count = self.count.saturating_add(1);
        if self.names.len() < NAMES_LIMIT {
            let name = quoted(*self.names.allocator(), cell)?;
            self.names.push(name)?;
        }
        Ok(())
    }
}

impl fmt::Display for Others {
    fn fmt<W: fmt::Write>(&self, f: &mut fmt::Formatter<W>) -> fmt::Result {
        for (place, name) in self.names.iter().enumerate() {
            let before = if place == 0 { "" } else { ", " };
            write!(f, "{before}{name}")?;
        }
        let more = self.count.saturating_sub(self.names.len());
        if more > 0 {
            write!(f, " and {more} more")?;
        }
        Ok(())
    }
}
