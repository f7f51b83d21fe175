//! The words that give the addresses of a maker's frames.
ghost use Rattle.std.specs.Prelude.{IfOk};
ghost use Rattle.bench_words.specs.Status.{AreApart};

use crate::words::refusal;
use clap::{ArgMatches, Error};
use hex::FromHex;
use std::alloc::Global;

/// Returns the byte that two hexadecimal digits make.
fn byte_of(digits: &str) -> Option<u8> {
    let bytes = <[u8; 1] as FromHex>::from_hex(digits).ok()?;
    Some(bytes[0])
}

/// Reads bytes from a word: two hexadecimal digits for each, with the mark between them. Returns whether the word is
/// that.
fn read_bytes(word: &str, mark: char, bytes: &mut [u8]) -> bool {
    let mut parts = word.split(mark);
    for byte in bytes.iter_mut() {
        let Some(read) = parts.next().and_then(byte_of) else {
            return false;
        };
        *byte = read;
    }
    parts.next().is_none()
}

/// Returns the constant field that the words give, if they give one.
pub(crate) fn constant(alloc: Global, matches: &ArgMatches<'_>) -> Result<Option<[u8; 4]>, Error> {
    let Some(word) = matches.get_str("constant") else {
        return Ok(None);
    };
    if let Ok(bytes) = <[u8; 4] as FromHex>::from_hex(word) {
        return Ok(Some(bytes));
    }
    let mut bytes = [0; 4];
    if read_bytes(word, ':', &mut bytes) {
        return Ok(Some(bytes));
    }
    let told = format!(in alloc;
        "--constant: four bytes are wanted, as 03000000 or 03:00:00:00, and \"{word}\" is seen"
    )?;
    Err(refusal(alloc, told.as_str())?)
}

/// Returns the interface bytes of both networks that the words give, if they give some.
pub(crate) fn interfaces(alloc: Global, matches: &ArgMatches<'_>) -> Result<Option<[u8; 2]>, Error>
    ensures { IfOk result AreApart }
{
    let Some(word) = matches.get_str("interfaces") else {
        return Ok(None);
    };
    let mut bytes = [0; 2];
    if read_bytes(word, ',', &mut bytes) && bytes[0] != bytes[1] {
        return Ok(Some(bytes));
    }
    let told = format!(in alloc;
        "--interfaces: two different bytes are wanted, as 20,40, and \"{word}\" is seen"
    )?;
    Err(refusal(alloc, told.as_str())?)
}
