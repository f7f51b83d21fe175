//! The text of the lines of a reader.
ghost use Rattle.std.specs.Prelude.{◌≡◌, ◌≢◌, ◌<◌, ◌≤◌, IfOk};
ghost use Rattle.std.specs.Io.KnownBytes.{IsAtEnd};
ghost use Rattle.script_text.specs.Lines.{TakesLine, BeginsLong, without_return};
ghost use Rattle.script_text.specs.declared.line_text.Next.TheVariants as Next;
ghost use Rattle.script_text.specs.declared.line_text.ReadFault.TheVariants.{Memory as OutOfMemory};

use crate::bytes::Bytes;
use std::alloc::{AllocError, AllocFailed};
use std::io::Read;
use thiserror::Error;

/// The greatest length of a line, in bytes without its end.
pub const LINE_LIMIT: usize = 20_000;

/// The next thing that a reader has: a line, a line over the limit, or the end of the text.
#[derive(Clone, Copy, Debug, PartialEq, Eq)]
pub enum Next {
    Line,
    Long,
    End,
}

impl Next {
    // Returns `Line` or `Long` for a line, by its length in bytes.
    fn of_len(len: usize) -> Next
        ensures line { result ≡ Next.Line → len ≤ LINE_LIMIT }
        ensures long { result ≡ Next.Long → LINE_LIMIT < len }
        ensures some { result ≢ Next.End }
    {
        if len > LINE_LIMIT {
            Next::Long
        } else {
            Next::Line
        }
    }
}

/// The reasons for which no line was read.
#[derive(Clone, Copy, Debug, PartialEq, Eq, Error)]
pub enum ReadFault {
    #[error("read failed")]
    Read,
    #[error("out of memory")]
    Memory,
}

impl From<AllocFailed<u8>> for ReadFault {
    ghost from_gives = { λ _ fault. fault ≡ OutOfMemory };

    fn from(_: AllocFailed<u8>) -> ReadFault {
        ReadFault::Memory
    }
}

impl From<AllocError> for ReadFault {
    ghost from_gives = { λ _ fault. fault ≡ OutOfMemory };

    fn from(_: AllocError) -> ReadFault {
        ReadFault::Memory
    }
}

// Drops a carriage return at the end.
fn drop_return(line: &mut Vec<u8>)
    ensures { line.new.items ≡ without_return line.old.items }
{
    if line.len() > 0 && line[line.len() - 1] == b'\r' {
        line.truncate(line.len() - 1);
    }
}

/// Reads the next line into a buffer, without its end. `Long` if the line has more than 20,000 bytes, and
/// `End` if the reader has no byte left. After `Long` and after an error the reader is somewhere in the
/// line.
pub fn next_line<R: Read + Drop>(
    bytes: &mut Bytes<R>,
    line: &mut Vec<u8>,
) -> Result<Next, ReadFault>
    ensures taken { IfOk result (λ n. n ≡ Next.Line → TakesLine bytes.old bytes.new line.new.items) }
    ensures long { IfOk result (λ n. n ≡ Next.Long → BeginsLong bytes.old) }
    ensures ended { IfOk result (λ n. n ≡ Next.End → IsAtEnd bytes.old) }
{
    line.clear();
    loop {
        bytes.take_plain(line)?;
        match bytes.next() {
            Err(_) => return Err(ReadFault::Read),
            Ok(None) if line.is_empty() => return Ok(Next::End),
            Ok(None) => return Ok(Next::of_len(line.len())),
            Ok(Some(b'\n')) => {
                drop_return(line);
                return Ok(Next::of_len(line.len()));
            }
            Ok(Some(_)) if line.len() > LINE_LIMIT => return Ok(Next::Long),
            Ok(Some(byte)) => line.push(byte)?,
        }
    }
}
