//! Obeying the lines of a script.
ghost use Rattle.std.specs.Prelude.{◌≡◌, IfSome};
ghost use Rattle.script_text.specs.Lines.{after_mark};
ghost use Rattle.tx_script.specs.AtBench.{IsFreshBench};
ghost use Rattle.tx_script.specs.Running.{ReadsLine, Stops, run_fault_of};

use crate::bench::{Bench, obey};
use script_text::{
    Bytes, Line, LineFault, Next, ReadFault, RunFault, Summary, next_line, read_line, skip_mark,
    write_note,
};
use std::alloc::Global;
use std::io::{Read, Write};

/// The number of lines that a script may have.
pub const LINES_LIMIT: u64 = 1_000_000;

/// Converts a fault of a line to a fault of the run.
fn at_line(line: u64, fault: LineFault) -> RunFault
    ensures { result ≡ run_fault_of line fault }
{
    match fault {
        LineFault::Memory => RunFault::Memory,
        _ => RunFault::Line { line, fault },
    }
}

/// Reads line number `line` and returns its meaning, or `None` at the end.
fn next_said<R: Read + Drop>(
    alloc: Global,
    bytes: &mut Bytes<R>,
    text: &mut Vec<u8>,
    line: u64,
) -> Result<Option<Line>, RunFault>
    ensures { IfSome bytes.old (λ known. ReadsLine known bytes.new line result) }
{
    match next_line(bytes, text) {
        Ok(Next::Line) => {}
        Ok(Next::Long) => return Err(at_line(line, LineFault::Long)),
        Ok(Next::End) => return Ok(None),
        Err(ReadFault::Read) => return Err(RunFault::Read),
        Err(ReadFault::Memory) => return Err(RunFault::Memory),
    }
    match read_line(alloc, text) {
        Ok(said) => Ok(Some(said)),
        Err(fault) => Err(at_line(line, fault)),
    }
}

/// Obeys the lines of a script at a fresh bench, and writes their notes. The script may begin with a byte order mark.
#[tactic(auto, using(crate::proofs::RunLemmas::stops_unread))]
pub fn obey_script<R: Read + Drop, W: Write>(
    alloc: Global,
    mut reader: R,
    bench: &mut Bench,
    writer: &mut W,
) -> Result<Summary, RunFault>
    requires { IsFreshBench bench.old.tx.plan bench.old }
    ensures { IfSome (R.remaining reader) (λ text. Stops bench.old.tx.plan (after_mark text)
        (W.contents writer.old) (W.contents writer.new) bench.new result) }
{
    let Ok(front) = skip_mark(&mut reader) else {
        return Err(RunFault::Read);
    };
    let mut bytes = Bytes::new(front.as_slice().chain(reader));
    obey_lines(alloc, &mut bytes, bench, writer)
}

/// Obeys the lines of a reader at a fresh bench, and writes their notes.
#[tactic(auto, using(crate::proofs::RunLemmas::running_none))]
fn obey_lines<R: Read + Drop, W: Write>(
    alloc: Global,
    bytes: &mut Bytes<R>,
    bench: &mut Bench,
    writer: &mut W,
) -> Result<Summary, RunFault>
    requires { IsFreshBench bench.old.tx.plan bench.old }
    ensures { IfSome bytes.old (λ text. Stops bench.old.tx.plan text
        (W.contents writer.old) (W.contents writer.new) bench.new result) }
{
    let mut text = Vec::new(alloc);
    let mut sums = Summary {
        accepted: 0,
        refused: 0,
        frames: 0,
    };
    for count in 0..LINES_LIMIT {
        let Some(said) = next_said(alloc, bytes, &mut text, count + 1)? else {
            return Ok(sums);
        };
        let outcome = obey(bench, said)?;
        write_note(writer, count + 1, outcome)?;
        sums = sums.count(outcome);
    }
    match bytes.next() {
        Ok(None) => Ok(sums),
        Ok(Some(_)) => Err(RunFault::Lines),
        Err(_) => Err(RunFault::Read),
    }
}
