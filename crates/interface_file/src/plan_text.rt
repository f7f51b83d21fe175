//! The text of the plan of an interface document.
ghost use Rattle.std.specs.Prelude.{◌<◌};

use crate::columns::{Column, Content, NAME, PORT, Subject, VL, VL_NAME, column_at};
use crate::reading::PortCells;
use std::alloc::{AllocError, Global};
use std::fmt;
use std::fmt::Write;
use toml_writer::write_string;

/// Returns the first row of each link, by its place among the rows.
pub(crate) fn links_of(alloc: Global, rows: &[PortCells]) -> Result<Vec<usize>, AllocError> {
    let mut links = Vec::new(alloc);
    for (place, row) in rows.iter().enumerate() {
        let first = rows.iter().position(|other| other.cell(VL) == row.cell(VL));
        if first == Some(place) {
            links.push(place)?;
        }
    }
    Ok(links)
}

/// Returns whether a text is a number in decimal digits that a plan can have.
fn is_number(text: &str) -> bool {
    text.as_bytes().iter().all(|byte| byte.is_ascii_digit()) && text.parse::<i64>().is_ok()
}

/// Returns whether a text is an identifier.
pub(crate) fn is_identifier(text: &str) -> bool {
    is_number(text) && text.parse::<u16>().is_ok()
}

/// A cell as a value of TOML: a whole number, or else a text.
#[derive(Drop)]
struct Value<'a>(&'a str, Content);

impl fmt::Display for Value<'_> {
    fn fmt<W: fmt::Write>(&self, f: &mut fmt::Formatter<W>) -> fmt::Result {
        let Value(text, content) = self;
        if *content == Content::Number && is_number(text) {
            f.write_str(text)
        } else {
            write_string(f, text)
        }
    }
}

/// Writes a key and the value of a cell, but nothing of an empty cell.
fn write_key(text: &mut String, key: &str, row: &PortCells, place: usize) -> Result<(), AllocError>
    requires { place < 21 }
{
    let cell = row.cell(place);
    if cell.is_empty() {
        return Ok(());
    }
    let value = Value(cell, column_at(place).2);
    writeln!(text, "{key} = {value}")
}

/// Writes the keys of a table that its columns give, but for the identifier of a link or a port.
fn write_keys(text: &mut String, row: &PortCells, subject: Subject) -> Result<(), AllocError> {
    for place in 0..21usize {
        let Column(about, key, content, _, _) = column_at(place);
        if *about == subject && *content != Content::Name && place != PORT {
            write_key(text, key, row, place)?;
        }
    }
    Ok(())
}

/// Writes the header of a table, after its name, as a comment, if it has one.
fn write_head(text: &mut String, name: &str, table: &str) -> Result<(), AllocError> {
    text.push_str("\n")?;
    if !name.is_empty() {
        writeln!(text, "# {name}")?;
    }
    writeln!(text, "[[{table}]]")
}

/// Returns the text of the plan: the links in the order of their first rows, and the ports in the order of the rows.
pub(crate) fn plan_text(
    alloc: Global,
    rows: &[PortCells],
    links: &[usize],
) -> Result<String, AllocError> {
    let mut text = String::from_str(alloc, "version = 2\n\n[end_system]\n")?;
    if let Some(row) = rows.first() {
        write_keys(&mut text, row, Subject::EndSystem)?;
    }
    for first in links {
        if let Some(row) = rows.get(*first) {
            write_head(&mut text, row.cell(VL_NAME), "vl")?;
            write_key(&mut text, "id", row, VL)?;
            write_keys(&mut text, row, Subject::Link)?;
        }
    }
    for row in rows {
        write_head(&mut text, row.cell(NAME), "port")?;
        write_key(&mut text, "id", row, PORT)?;
        write_keys(&mut text, row, Subject::Port)?;
    }
    Ok(text)
}
