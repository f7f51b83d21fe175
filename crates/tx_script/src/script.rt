//! Running a script.
ghost use Rattle.std.specs.Prelude.{IfSome};
ghost use Rattle.script_text.specs.Lines.{after_mark};
ghost use Rattle.tx_script.specs.Run.{Leaves, Plays};
ghost use Rattle.tx_script.specs.Running.{Finishes, EndsEarly};

use crate::bench::Bench;
use crate::obey_lines::obey_script;
use afdx_plan::Config;
use redundant_mux::FrameLog;
use script_text::{RunFault, Summary, write_streams};
use std::alloc::Global;
use std::io::{Read, Write};

/// The end of a run of a script, and the networks with their frames.
#[derive(Drop)]
pub enum Played {
    /// The transcript is written whole: the script was run to its end, or up to a line's fault, `Lines`
    /// or `Read`. Its streams are the frames of these two networks.
    Whole {
        ended: Result<Summary, RunFault>,
        a: FrameLog,
        b: FrameLog,
    },
    /// `Write` or `Memory` ended the run and the writing.
    Broken(RunFault),
}

/// Writes the streams of a bench, at the end of a run.
fn write_handed<W: Write>(writer: &mut W, bench: Bench, ended: Result<Summary, RunFault>) -> Played
    ensures { Finishes ended bench (W.contents writer.old) (W.contents writer.new) result }
{
    let (a, b) = bench.into_networks();
    match write_streams(writer, &a, &b) {
        Ok(()) => Played::Whole { ended, a, b },
        Err(fault) => Played::Broken(fault),
    }
}

/// Writes the streams after a fault, if the fault doesn't end the writing. The ports are taken back in both cases: only
/// then are the noted totals known.
#[tactic(auto, using(std::proofs::Common::arith))]
fn end_early<W: Write>(writer: &mut W, bench: Bench, fault: RunFault) -> Played
    ensures { EndsEarly fault bench (W.contents writer.old) (W.contents writer.new) result }
{
    if fault.ends_writing() {
        let _networks = bench.into_networks();
        return Played::Broken(fault);
    }
    write_handed(writer, bench, Err(fault))
}

/// Runs a script as `run_script` does, and also returns the two networks if the transcript is written
/// whole.
#[tactic(auto, using(crate::proofs::RunLemmas::finished, crate::proofs::RunLemmas::early, crate::proofs::RunLemmas::plays_by))]
pub fn play_script<R: Read + Drop, W: Write>(
    alloc: Global,
    config: Config,
    reader: R,
    writer: &mut W,
) -> Played
    ensures { IfSome (R.remaining reader) (λ text. Plays config (after_mark text)
        (W.contents writer.old) (W.contents writer.new) result) }
{
    let Ok(mut bench) = Bench::open(alloc, config) else {
        return Played::Broken(RunFault::Memory);
    };
    match obey_script(alloc, reader, &mut bench, writer) {
        Ok(summary) => write_handed(writer, bench, Ok(summary)),
        Err(fault) => end_early(writer, bench, fault),
    }
}

/// Runs a script over a plan and two networks in memory, and writes its transcript: the notes on lines that were
/// refused or closed a sub-VL, in their order, the frames of network A, and the frames of B. A script has at most
/// 1,000,000 lines of at most 20,000 bytes each. A byte order mark before the first line is no part of it.
///
/// A line's fault, `Lines` and `Read` end the run there: the lines before it were run, and their notes and frames are
/// written. `Write`, when the writer failed, and `Memory` end the writing; what was written before `Memory` begins the
/// transcript of lines that were run.
pub fn run_script<R: Read + Drop, W: Write>(
    alloc: Global,
    config: Config,
    reader: R,
    writer: &mut W,
) -> Result<Summary, RunFault>
    ensures { IfSome (R.remaining reader) (λ text. Leaves config (after_mark text)
        (W.contents writer.old) (W.contents writer.new) result) }
{
    match play_script(alloc, config, reader, writer) {
        Played::Whole { ended, .. } => ended,
        Played::Broken(fault) => Err(fault),
    }
}
