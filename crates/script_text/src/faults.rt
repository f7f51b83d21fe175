//! The faults of a line and of a run, and the refusals of a line.
ghost use Rattle.std.specs.Prelude.{◌≡◌};
ghost use Rattle.script_text.specs.Faults.{line_fault_number};
ghost use Rattle.script_text.specs.Transcript.{refusal_name, ends_writing};

use thiserror::Error;

/// The reasons for which a line has no meaning. `Display` prints the variant's name.
#[derive(Clone, Copy, Debug, PartialEq, Eq, Error)]
pub enum LineFault {
    /// The first word is unknown, or a word is missing.
    #[error("Word")]
    Word = 1,
    /// A number has other bytes than decimal digits, or is over its range.
    #[error("Number")]
    Number,
    /// A message has other bytes than hexadecimal digits, or an odd number of them.
    #[error("Hex")]
    Hex,
    /// There are more words than the line's form has.
    #[error("Extra")]
    Extra,
    /// The line has more than 20,000 bytes without its end.
    #[error("Long")]
    Long,
    /// An allocation failed.
    #[error("Memory")]
    Memory,
}

impl LineFault {
    /// Returns the number of the fault: 1 for `Word` to 6 for `Memory`.
    pub fn number(self) -> u8
        ensures { result ≡ line_fault_number self }
    {
        self as u8
    }
}

/// The reasons for which a line was refused at run time.
#[derive(Clone, Copy, Debug, PartialEq, Eq)]
pub enum Refusal {
    /// The message has no bytes.
    Empty,
    /// The message is longer than the port's maximum.
    TooLong,
    /// The port's queue is closed.
    Closed,
    /// The port has requested as many slots as it may.
    Exhausted,
    /// The port's queue is full.
    Full,
    /// No port has this identifier.
    NoPort,
    /// No virtual link has this identifier, or the link has no sub-VL of this index.
    NoSub,
    /// The time is before the last one.
    TimeBack,
}

impl Refusal {
    /// Returns the refusal's name in a transcript.
    pub fn name(self) -> &'static str
        ensures { result.now ≡ refusal_name self }
    {
        match self {
            Refusal::Empty => "Empty",
            Refusal::TooLong => "TooLong",
            Refusal::Closed => "Closed",
            Refusal::Exhausted => "Exhausted",
            Refusal::Full => "Full",
            Refusal::NoPort => "NoPort",
            Refusal::NoSub => "NoSub",
            Refusal::TimeBack => "TimeBack",
        }
    }
}

/// The reasons for which a run ended before the end of its script. `Display` prints the message of the program.
#[derive(Clone, Copy, Debug, PartialEq, Eq, Error)]
pub enum RunFault {
    /// A line, counted from 1, has a fault.
    #[error("script line {line}: {} {fault}", .fault.number())]
    Line { line: u64, fault: LineFault },
    /// The script has more than 1,000,000 lines.
    #[error("script refused: too many lines")]
    Lines,
    /// The reader failed.
    #[error("read failed")]
    Read,
    /// The writer failed.
    #[error("write failed")]
    Write,
    /// An allocation failed.
    #[error("out of memory")]
    Memory,
}

impl RunFault {
    /// Returns true if the run stops writing after this fault.
    pub fn ends_writing(self) -> bool
        ensures { result ≡ ends_writing self }
    {
        matches!(self, RunFault::Write | RunFault::Memory)
    }
}
