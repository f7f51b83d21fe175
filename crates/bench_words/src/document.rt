//! A JSON document, as each command prints it for other programs.
use serde::Serialize;
use std::alloc::{AllocError, Global};

/// The version of the layout of the documents, which each document names. It changes if a key changes its meaning or
/// goes.
pub const LAYOUT: u32 = 1;

/// Returns the text of a document, which ends with a line feed. Fails only if an allocation fails.
pub(crate) fn json_of<T: Serialize>(alloc: Global, document: &T) -> Result<Vec<u8>, AllocError> {
    let written = serde_json::to_vec_pretty(alloc, document);
    let mut text = written.map_err(|_| AllocError)?;
    text.push(b'\n')?;
    Ok(text)
}
