//! The bench of a transmitting end system: runs scripts over two networks in memory and prints their
//! transcripts, reports on plans, and throws storms of messages at an end system.
#![tactic(auto)]

ghost use Rattle.std.specs.Prelude.{◌≤◌};
ghost use Rattle.bench_words.specs.Status.{IsInRange};

mod addresses;
mod checking;
mod compiling;
mod files;
mod findings;
mod foreign;
mod hearing;
mod interface;
mod judging;
mod link_row;
mod network;
mod page;
mod recorded;
mod report;
mod source;
mod stop;

use afdx_plan::{Config, demo_config};
use bench_words::{End, Failure, Halting, Words, read_words, status_of, tell_words};
use capture::write_capture;
use checking::{check_plans, explain_plan};
use compiling::compile;
use files::{buffered, create, open, open_plan, stand_in, written};
use interface::{import_file, schedule};
use judging::judge_files;
use report::report;
use std::alloc::{AllocError, Global};
use std::fs::File;
use std::io::{self, BufWriter, IsTerminal, Write};
use std::process::ExitCode;
use std::sync::Wait;
use std::thread::Threads;
use stop::{Cause, Stop, of_file};
use storm::{OpenGate, Progress, StormFault, ThrowFault, throw_storm};
use tx_script::{Played, RunFault, Summary, play_script, run_script};

/// Returns the end of the command after a script, by its path.
fn end_of<'a>(ran: Result<Summary, RunFault>, path: &'a str) -> Result<End, Stop<'a>> {
    of_file(ran.map(End::Ran).map_err(Failure::Run), path, Cause::Unread)
}

/// Runs a script over a plan, each by the path of its file. The plan is read before the script is
/// opened, and the file of a capture is made after that. It gets the frames of both networks after the run, and stays
/// empty if the transcript can't be written or an allocation fails.
fn run_files<'a, W: Write>(
    rt: &HostRuntime,
    config: &'a str,
    path: &'a str,
    capture: &'a Option<String>,
    writer: &mut W,
) -> Result<End, Stop<'a>> {
    let alloc = rt.alloc();
    let (text, config) = open_plan(rt, config)?;
    let script = open(rt, path)?;
    let (Some(name), Some(file)) = (capture, create(rt, capture, &[&text, &script])?) else {
        return end_of(run_script(alloc, config, script, writer), path);
    };
    let mut output = buffered(alloc, file)?;
    match play_script(alloc, config, script, writer) {
        Played::Whole { ended, a, b } => {
            writer.flush()?;
            written(write_capture(&mut output, &a, &b), name.as_str())?;
            written(output.flush(), name.as_str())?;
            end_of(ended, path)
        }
        Played::Broken(fault) => end_of(Err(fault), path),
    }
}

/// Runs a storm over a plan, by the path of its file. Shows its progress on standard error, if that is a
/// terminal.
fn run_storm<'a, W: Write, T: Threads + Wait + Sync>(
    rt: &HostRuntime,
    threads: &T,
    path: &'a str,
    messages: u32,
    turns: u64,
    writer: &mut W,
) -> Result<End, Stop<'a>>
    requires messages { (1 ≤ messages) × (messages ≤ 65535) }
    requires turns { (1 ≤ turns) × (turns ≤ 1000000000) }
{
    let alloc = rt.alloc();
    let (_text, plan) = open_plan(rt, path)?;
    let progress = if rt.stderr().is_terminal() {
        Progress::begin(rt, messages).ok()
    } else {
        None
    };
    let thrown = match progress {
        Some(gate) => {
            let thrown = throw_storm(threads, alloc, plan, writer, messages, turns, &gate);
            gate.end();
            thrown
        }
        None => throw_storm(threads, alloc, plan, writer, messages, turns, &OpenGate),
    };
    thrown.map_err(failure_of)?;
    Ok(End::Told)
}

fn failure_of(fault: ThrowFault) -> Failure {
    match fault {
        ThrowFault::Storm(StormFault::Short) => Failure::Short,
        ThrowFault::Storm(StormFault::Turns) => Failure::Turns,
        ThrowFault::Storm(StormFault::Memory) => Failure::Run(RunFault::Memory),
        ThrowFault::Write => Failure::Run(RunFault::Write),
    }
}

/// Runs the command of the words. The runtime is passed a second time for threads, since only a bound
/// lets a function start them.
fn obey<'a, W: Write, T: Threads + Wait + Sync>(
    rt: &HostRuntime,
    threads: &T,
    words: &'a Words,
    writer: &mut W,
) -> Result<End, Stop<'a>>
    requires { IsInRange words.now }
{
    let alloc = rt.alloc();
    match words {
        Words::Script => {
            let config = demo_config(alloc).map_err(Failure::Config)?;
            let ran = run_script(alloc, config, rt.stdin(), writer);
            end_of(ran, "standard input")
        }
        Words::Run {
            config,
            script,
            capture,
        } => run_files(rt, config.as_str(), script.as_str(), capture, writer),
        Words::Check { configs, json } => check_plans(rt, configs.as_slice(), *json, writer),
        Words::Explain { config, json } => explain_plan(rt, config.as_str(), *json, writer),
        Words::Compile { config, source } => compile(rt, config.as_str(), source, writer),
        Words::Import(path) => import_file(rt, path.as_str(), writer),
        Words::Report(asked) => report(rt, asked, writer),
        Words::Schedule {
            config,
            traffic,
            seconds,
            seed,
        } => schedule(
            rt,
            config.as_str(),
            traffic.as_str(),
            *seconds,
            *seed,
            writer,
        ),
        Words::Judge(case) => judge_files(rt, case, writer),
        Words::Storm {
            config,
            messages,
            turns,
        } => run_storm(rt, threads, config.as_str(), *messages, *turns, writer),
    }
}

/// Runs the command of the words, and flushes the output. A failed write is the last one.
fn run<'a, T: Threads + Wait + Sync>(
    rt: &HostRuntime,
    threads: &T,
    words: &'a Words,
) -> Result<End, Stop<'a>>
    requires { IsInRange words.now }
{
    let writer = BufWriter::new(rt.alloc(), Halting::new(io::writer(rt)));
    let mut writer = writer.map_err(|_| Stop::from(AllocError))?;
    let end = obey(rt, threads, words, &mut writer);
    writer.flush()?;
    end
}

fn main(rt: HostRuntime) -> ExitCode {
    let _stand_ins = [stand_in(&rt), stand_in(&rt), stand_in(&rt)];
    let end = match read_words(&rt) {
        Ok(words) => match run(&rt, &rt, &words) {
            Ok(end) => end,
            Err(stop) => {
                let failure = stop.failure;
                let _told = eprintln!(rt; "{failure}");
                stop.tell_more(&rt, &words);
                End::Failed(failure)
            }
        },
        Err(error) => {
            let end = tell_words(&rt, &error);
            if let End::Failed(failure) = &end {
                let _told = eprintln!(rt; "{failure}");
            }
            end
        }
    };
    ExitCode::from(status_of(&end))
}
