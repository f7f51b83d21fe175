//! Reading the rows of an interface document.
ghost use Rattle.std.specs.Prelude.{◌<◌, IfOk, IsNone, OnOk};

use crate::columns::{Column, Content, Subject, column_at};
use crate::faults::{Faults, Wrong};
use afdx_plan::PORTS_LIMIT;
use csv::{ByteRecord, ReaderBuilder};
use plan_report::sheet::{
    COLUMNS, Others, bare, column_of, is_empty, line_of, seen, separator_of, whole,
};
use std::alloc::{AllocError, Global};

/// The most bytes of a name.
const NAME_LIMIT: usize = 64;

/// A row of a port: its number in the document, from 1, and its cells in the order of `COLUMNS`, with the values that a
/// plan has. A cell is empty if the document lacks its column.
#[derive(Drop)]
pub(crate) struct PortCells {
    pub row: u64,
    pub cells: Vec<String>,
}

impl PortCells {
    /// Returns the cell of a column.
    pub(crate) fn cell(&self, place: usize) -> &str {
        match self.cells.get(place) {
            Some(cell) => cell.as_str(),
            None => "",
        }
    }
}

/// An interface document: the rows of its ports, the other columns, and its faults.
#[derive(Drop)]
pub(crate) struct Document {
    pub rows: Vec<PortCells>,
    pub others: Others,
    pub faults: Faults,
    // the number of cells in a row, once a header without a fault is read, and the places of the columns
    pub width: Option<usize>,
    places: [Option<usize>; 21],
    // the number of the row that is read, and the number of line feeds in the cells before it
    row: u64,
    breaks: u64,
    // a row of a port was left out, since there are too many
    is_full: bool,
}

/// Reads an interface document. Fails only if an allocation fails.
pub(crate) fn read_document(alloc: Global, text: &[u8]) -> Result<Document, AllocError>
    ensures { IfOk result (λ document. IsNone document.width → 0 < document.faults.count) }
{
    let mut document = Document {
        rows: Vec::new(alloc),
        others: Others::new(alloc),
        faults: Faults::new(alloc),
        places: [None; 21],
        width: None,
        row: 0,
        breaks: 0,
        is_full: false,
    };
    document.read(alloc, text)?;
    Ok(document)
}

impl Document {
    /// Reads the rows of a text. A faulty header is the last row that is read.
    fn read(&mut self, alloc: Global, text: &[u8]) -> Result<(), AllocError>
        ensures { OnOk result (IsNone self.new.width → 0 < self.new.faults.count) }
    {
        let separator = separator_of(alloc, text, &COLUMNS)?;
        let rows = ReaderBuilder::new()
            .has_headers(false)
            .flexible(true)
            .delimiter(separator)
            .from_reader(alloc, text);
        for row in rows.into_byte_records() {
            let Ok(row) = row else {
                return Err(AllocError);
            };
            self.count_row(text, &row);
            if is_empty(&row) {
                continue;
            }
            match self.width {
                Some(wanted) => self.port(alloc, wanted, &row)?,
                None => {
                    self.head(&row)?;
                    if self.width.is_none() {
                        return Ok(());
                    }
                }
            }
        }
        if self.width.is_none() {
            self.faults.add(1, None, Wrong::NoHeader)?;
        }
        Ok(())
    }

    /// Goes to the number of a row, as a spreadsheet has it: a cell of several lines is in one row.
    fn count_row(&mut self, text: &[u8], row: &ByteRecord) {
        let next = self.row.saturating_add(1);
        let line = line_of(text, row.position());
        self.row = next.max(line.saturating_sub(self.breaks));
        let breaks = row.as_slice().iter().filter(|byte| **byte == b'\n').count();
        self.breaks = self.breaks.saturating_add(breaks as u64);
    }

    /// Reads the header.
    fn head(&mut self, row: &ByteRecord) -> Result<(), AllocError>
        ensures { OnOk result (IsNone self.new.width → 0 < self.new.faults.count) }
    {
        for place in 0..row.len() {
            self.name(place, row.get(place).unwrap_or(b""))?;
        }
        for place in 0..21usize {
            let Column(_, _, _, is_needed, _) = column_at(place);
            if *is_needed && self.places[place].is_none() {
                self.faults.add(self.row, Some(place), Wrong::NoColumn)?;
            }
        }
        if self.faults.count == 0 {
            self.width = Some(row.len());
        }
        Ok(())
    }

    /// Reads the name of a column.
    fn name(&mut self, place: usize, cell: &[u8]) -> Result<(), AllocError> {
        match column_of(&COLUMNS, cell) {
            Some(column) if column < 21 => {
                if self.places[column].is_some() {
                    return self.faults.add(self.row, Some(column), Wrong::SecondColumn);
                }
                self.places[column] = Some(place);
                Ok(())
            }
            _ => self.others.add(cell),
        }
    }

    /// Reads the row of a port. The rows after the greatest number of ports are one fault.
    fn port(&mut self, alloc: Global, wanted: usize, row: &ByteRecord) -> Result<(), AllocError> {
        let found = row.len();
        if found != wanted {
            return self
                .faults
                .add(self.row, None, Wrong::Cells { found, wanted });
        }
        if self.rows.len() >= PORTS_LIMIT {
            if self.is_full {
                return Ok(());
            }
            self.is_full = true;
            return self.faults.add(self.row, None, Wrong::ManyRows);
        }
        let mut cells = Vec::with_capacity(alloc, 21)?;
        for place in 0..21usize {
            let cell = row.get(self.places[place].unwrap_or(usize::MAX));
            let cell = self.cell(alloc, place, cell.unwrap_or(b""))?;
            cells.push(cell)?;
        }
        self.rows.push(PortCells {
            row: self.row,
            cells,
        })?;
        Ok(())
    }

    /// Reads a cell of a column. A name with a fault is read as none.
    fn cell(&mut self, alloc: Global, place: usize, cell: &[u8]) -> Result<String, AllocError>
        requires { place < 21 }
    {
        let Column(subject, _, content, _, wanted) = column_at(place);
        match content {
            _ if *subject == Subject::Traffic => Ok(String::new(alloc)),
            Content::Number => {
                let text = String::from_utf8_lossy(alloc, whole(cell))?;
                String::from_str(alloc, without_zeros(text.as_str()))
            }
            Content::Name if !is_name(bare(cell)) => {
                let seen = seen(alloc, bare(cell))?;
                let wrong = Wrong::Value { wanted, seen };
                self.faults.add(self.row, Some(place), wrong)?;
                Ok(String::new(alloc))
            }
            _ => String::from_utf8_lossy(alloc, bare(cell)),
        }
    }
}

/// Returns whether a cell is a text for people: short and without control characters.
fn is_name(cell: &[u8]) -> bool {
    match std::str::from_utf8(cell) {
        Ok(name) => name.len() <= NAME_LIMIT && !name.chars().any(|c| c.is_control()),
        Err(_) => false,
    }
}

/// Returns a number in decimal digits without zeros before it, or another text as it is.
fn without_zeros(text: &str) -> &str {
    let is_number = text.as_bytes().iter().all(|byte| byte.is_ascii_digit());
    match text.trim_start_matches('0') {
        "" if !text.is_empty() => "0",
        digits if is_number => digits,
        _ => text,
    }
}
