//! The end of a command that stopped, and the second line on standard error, after the message of the failure.
use afdx_config::{ConfigFault, explain_file};
use bench_words::{Failure, TEXT_LIMIT, Words, read_text};
use std::alloc::AllocError;
use std::fs::{self, File};
use std::io::{self, IsTerminal};
use tx_script::{LineFault, RunFault};

/// The reasons for which a file stops a command.
#[derive(Drop)]
pub enum Cause {
    /// The system doesn't open or make it.
    System(io::Error),
    /// The file is to be written, and is one of the files that are read.
    Same,
    /// The file is to be written, and another word names it for that too.
    Twice,
    /// The file is open, and can't be read.
    Unread,
    /// The file is open, and can't be read, or is too long for a plan.
    UnreadPlan,
}

/// The end of a command that failed, and the path of the file that made it fail, if one is known.
#[derive(Drop)]
pub struct Stop<'a> {
    pub failure: Failure,
    file: Option<(&'a str, Cause)>,
    // the plan that was refused
    plan: Option<&'a str>,
}

impl From<Failure> for Stop<'_> {
    fn from(failure: Failure) -> Self {
        Stop {
            failure,
            file: None,
            plan: None,
        }
    }
}

impl From<AllocError> for Stop<'_> {
    fn from(_error: AllocError) -> Self {
        Stop::from(Failure::Run(RunFault::Memory))
    }
}

/// An error of a writer.
impl From<io::Error> for Stop<'_> {
    fn from(_error: io::Error) -> Self {
        Stop::from(Failure::Run(RunFault::Write))
    }
}

impl<'a> Stop<'a> {
    /// Returns the end of a command that a file made fail.
    pub fn by_file(fault: RunFault, path: &'a str, cause: Cause) -> Stop<'a> {
        Stop {
            failure: Failure::Run(fault),
            file: Some((path, cause)),
            plan: None,
        }
    }

    /// Returns whether the second line doesn't need a terminal: it is on a plan that was refused, a file that can't be
    /// written, or a text that is too long.
    fn is_told_always(&self) -> bool {
        matches!(self.failure, Failure::Config(_))
            || self.file.is_some() && matches!(self.failure, Failure::Run(RunFault::Write))
            || matches!(self.file, Some((_, Cause::UnreadPlan)))
    }

    /// Writes the file, the reason or what to do next to standard error: on a terminal, for all commands but `run`,
    /// `check` and `storm`, and for a plan that is refused and a file that can't be written.
    pub fn tell_more(&self, rt: &HostRuntime, words: &Words) {
        let is_quiet = matches!(
            words,
            Words::Script | Words::Run { .. } | Words::Check { .. } | Words::Storm { .. }
        );
        if !is_quiet || self.is_told_always() || rt.stderr().is_terminal() {
            let _told = match &self.file {
                Some((path, Cause::System(error))) => eprintln!(rt; "{path}: {error}"),
                Some((path, Cause::Same)) => {
                    eprintln!(rt; "{path}: the command reads this file, so name another")
                }
                Some((path, Cause::Twice)) => {
                    eprintln!(rt; "{path}: the command already writes this file, so name another")
                }
                Some((path, Cause::Unread)) => eprintln!(rt; "{path}: it can't be read"),
                Some((path, Cause::UnreadPlan)) => match is_too_long(rt, path) {
                    Some(true) => eprintln!(rt;
                        "{path}: it has more than 16 MiB, the most that is read"
                    ),
                    Some(false) => eprintln!(rt; "{path}: it can't be read"),
                    None => eprintln!(rt; "{path}: it can't be read, or has more than 16 MiB"),
                },
                None => tell_next(rt, words, self.plan, &self.failure),
            };
        }
    }
}

/// Returns whether a file has more bytes than a text may have; `None` if it isn't a regular file.
fn is_too_long(rt: &HostRuntime, path: &str) -> Option<bool> {
    match fs::metadata(rt, path) {
        Ok(found) if found.is_file() => Some(TEXT_LIMIT < found.len()),
        _ => None,
    }
}

/// Returns the result of reading a file. A fault `Read` is blamed on the file.
pub fn of_file<'a, T>(
    read: Result<T, Failure>,
    path: &'a str,
    cause: Cause,
) -> Result<T, Stop<'a>> {
    match read {
        Ok(value) => Ok(value),
        Err(Failure::Run(RunFault::Read)) => Err(Stop::by_file(RunFault::Read, path, cause)),
        Err(failure) => Err(Stop {
            failure,
            file: None,
            plan: Some(path),
        }),
    }
}

/// Writes the first line that `explain` prints for a plan with this fault, and the command that prints the other
/// faults.
fn tell_fault(rt: &HostRuntime, plan: &str, fault: ConfigFault) -> io::Result<()> {
    if let Some((line, count)) = first_of(rt, plan, fault) {
        eprintln!(rt; "{line}")?;
        if count == 1 {
            return Ok(());
        }
    }
    eprintln!(rt; "{plan}: for all faults and their places, run `afdx_bench explain {plan}`")
}

/// Returns the first line of the faults of a plan, which is read again, and their number. `None` if it can't be read
/// again, as from a pipe, or is another by now.
fn first_of(rt: &HostRuntime, plan: &str, fault: ConfigFault) -> Option<(String, usize)> {
    let alloc = rt.alloc();
    let _is_regular = is_too_long(rt, plan)?;
    let text = read_text(alloc, File::open(rt, plan).ok()?).ok()?;
    let told = explain_file(alloc, text.as_slice(), plan).ok()?;
    if told.findings.first()?.fault != fault {
        return None;
    }
    let text = std::str::from_utf8(told.text.as_slice()).ok()?;
    let line = text.lines().nth(1)?;
    Some((String::from_str(alloc, line).ok()?, told.count))
}

/// Writes what to do next after a failure that no file made.
fn tell_next<'x>(
    rt: &HostRuntime,
    words: &'x Words,
    plan: Option<&'x str>,
    failure: &Failure,
) -> io::Result<()> {
    let plan = match words {
        Words::Storm { config, .. } => config.as_str(),
        _ => plan.unwrap_or("standard input"),
    };
    let script = match words {
        Words::Run { script, .. } => script.as_str(),
        _ => plan,
    };
    match failure {
        Failure::Config(fault) if fault.number() < 15 => tell_fault(rt, plan, *fault),
        Failure::Run(RunFault::Line { line, fault }) => {
            eprintln!(rt; "{script}:{line}: {}", wanted(*fault))
        }
        Failure::Run(RunFault::Lines) => {
            eprintln!(rt; "{script}: a script has at most 1000000 lines")
        }
        Failure::Short => {
            eprintln!(rt;
                "{plan}: a storm's messages have 6 bytes, so give each port a max of 6 or more"
            )
        }
        Failure::Turns => eprintln!(rt; "{plan}: give more --turns, or fewer --messages"),
        _ => Ok(()),
    }
}

/// Returns the form that a line must have.
fn wanted(fault: LineFault) -> &'static str {
    match fault {
        LineFault::Word => "a line is `send PORT HEX`, `at MICROS` or `close VL SUB`",
        LineFault::Number => {
            "decimal digits are wanted: up to 65535 for a port or a link, 255 for a sub-VL, 2^64 - 1 for a time"
        }
        LineFault::Hex => "bytes are an even number of hexadecimal digits, or `-`",
        LineFault::Extra => {
            "nothing may follow `send PORT HEX`, `at MICROS` or `close VL SUB` on a line"
        }
        LineFault::Long => "a line has at most 20000 bytes",
        LineFault::Memory => "memory ran out",
    }
}
