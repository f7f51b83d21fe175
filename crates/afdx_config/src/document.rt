//! The document of a plan and its tables.
ghost use Rattle.std.specs.Prelude.{◌≡◌};
ghost use Rattle.afdx_config.specs.Names.{IfOk, items_view, map, option_map, table_view};
ghost use Rattle.afdx_config.specs.Tables.{tables_among, rows_at, section_at};
ghost use Rattle.afdx_config.specs.Seen.{IsDocument, data_of};

use crate::reading::{value_at, version_in};
use std::alloc::{AllocError, Global};
use toml::{Table, Value};

/// A document with its tables of the end system, links and ports, in the order of the text, and whether its format
/// has version 2.
#[derive(Drop)]
pub(crate) struct Document<'a> {
    pub top: &'a Table,
    pub end: Option<&'a Table>,
    pub links: Vec<&'a Table>,
    pub ports: Vec<&'a Table>,
    pub is_2: bool,
}

/// Returns the tables of an array.
fn tables_of<'a>(alloc: Global, values: &'a [Value]) -> Result<Vec<&'a Table>, AllocError>
    ensures { IfOk result (λ rows. map (λ r. table_view r.now) rows.items ≡ tables_among (items_view values.now)) }
{
    let mut rows = Vec::new(alloc);
    for value in values {
        if let Some(table) = value.as_table() {
            rows.push(table)?;
        }
    }
    Ok(rows)
}

/// Returns the tables of the array under a key.
fn rows<'a>(alloc: Global, document: &'a Table, key: &str) -> Result<Vec<&'a Table>, AllocError>
    ensures { IfOk result (λ rows. map (λ r. table_view r.now) rows.items ≡ rows_at key.now (table_view document.now)) }
{
    match value_at(document, key).and_then(|value| value.as_array()) {
        Some(values) => tables_of(alloc, values.as_slice()),
        None => Ok(Vec::new(alloc)),
    }
}

/// Returns the table under a key.
fn section<'a>(document: &'a Table, key: &str) -> Option<&'a Table>
    ensures { option_map (λ t. table_view t.now) result ≡ section_at key.now (table_view document.now) }
{
    value_at(document, key)?.as_table()
}

impl<'a> Document<'a> {
    /// Finds the tables.
    pub(crate) fn of(alloc: Global, table: &'a Table) -> Result<Document<'a>, AllocError>
        ensures whole { IfOk result IsDocument }
        ensures same { IfOk result (λ document. data_of document ≡ table_view table.now) }
    {
        Ok(Document {
            top: table,
            end: section(table, "end_system"),
            links: rows(alloc, table, "vl")?,
            ports: rows(alloc, table, "port")?,
            is_2: version_in(table) == Ok(2),
        })
    }
}
