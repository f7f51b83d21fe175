//! The ends of commands: failures and exit statuses.
ghost use Rattle.std.specs.Prelude.{◌≡◌};
ghost use Rattle.bench_words.specs.Status.{exit_status, failure_status as status_of_failure};

use afdx_plan::ConfigFault;
use script_text::{RunFault, Summary};
use std::fmt;
use thiserror::Error;

/// The end of a run of the program.
#[derive(Clone, Copy, Debug, PartialEq, Eq)]
pub enum End {
    /// The program wrote its help, or a report on a plan.
    Told,
    /// The script was run to its end.
    Ran(Summary),
    /// The faults of a plan or the findings of a recording were written.
    FaultsTold,
    /// A strict report was written, whose verdict has a warning.
    Missed,
    /// The faults of a file were written: a traffic text, an interface document, or a capture that wasn't read to its
    /// end.
    FileWrong,
    /// The command line was refused, and its message is already written.
    WordsRefused,
    /// The command ended early.
    Failed(Failure),
}

/// Returns the exit status of an end.
pub fn status_of(end: &End) -> u8
    ensures { result ≡ exit_status end.now }
{
    match end {
        End::Told => 0,
        End::Ran(summary) if summary.refused == 0 => 0,
        End::Ran(_) => 3,
        End::FaultsTold | End::Missed => 1,
        End::FileWrong | End::WordsRefused => 2,
        End::Failed(failure) => failure_status(failure),
    }
}

fn failure_status(failure: &Failure) -> u8
    ensures { result ≡ status_of_failure failure.now }
{
    match failure {
        Failure::Config(ConfigFault::Memory) => 4,
        Failure::Run(RunFault::Read | RunFault::Write | RunFault::Memory) => 4,
        Failure::Config(_) | Failure::Run(_) | Failure::Short => 2,
        Failure::Turns => 5,
    }
}

/// A failure that ends a command early. `Display` prints the message for standard error.
#[derive(Clone, Copy, Debug, PartialEq, Eq, Error)]
pub enum Failure {
    /// The plan was refused.
    #[error(fmt = tell_refused)]
    Config(ConfigFault),
    /// The script has a fault; or, in any command, an allocation, a read or a write failed.
    #[error(transparent)]
    Run(RunFault),
    /// The greatest message of a port is too short for the messages of a storm.
    #[error("storm refused: a port's max is below 6")]
    Short,
    /// A storm exhausted its turns.
    #[error("turns used up")]
    Turns,
}

/// Writes the message of a refused plan. Memory that ran out says nothing of the plan.
fn tell_refused<W: fmt::Write>(fault: &ConfigFault, f: &mut fmt::Formatter<W>) -> fmt::Result {
    match fault {
        ConfigFault::Memory => fmt::Display::fmt(&RunFault::Memory, f),
        fault => write!(f, "configuration refused: {} {fault}", fault.number()),
    }
}
