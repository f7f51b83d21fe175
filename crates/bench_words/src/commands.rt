//! The commands of the program, and the words of each.
use crate::words::{MESSAGES_LIMIT, MICROS_LIMIT, SECONDS_LIMIT, TURNS_LIMIT};
use clap::builder::ValueParser;
use clap::{Arg, ArgAction, Command};
use plan_report::VERSION;
use std::alloc::{AllocError, Global};

const ABOUT: &str =
    "A transmitting AFDX end system. Without words it runs a script from standard input.";

/// The names of the commands, and a sentence on each.
const COMMANDS: [(&str, &str); 9] = [
    (
        "run",
        "Runs a script over a plan and prints the frames of both networks",
    ),
    (
        "check",
        "Prints a plan and its jitter; `explain` locates its faults",
    ),
    (
        "explain",
        "Prints the faults of a plan, each with its place and what is allowed there",
    ),
    (
        "import",
        "Prints the plan of an interface document, a CSV file with a row for each port",
    ),
    (
        "compile",
        "Prints the table of a plan, which an end system opens without its text",
    ),
    (
        "report",
        "Prints the loads, the jitter and the longest waits of a plan",
    ),
    (
        "schedule",
        "Prints a script in which the ports of a plan send at their periods",
    ),
    (
        "judge",
        "Prints what is wrong with a recording of an end system",
    ),
    (
        "storm",
        "Sends through all ports of a plan at once, and prints the counts",
    ),
];

/// The flag that asks for a document, and its meaning.
const JSON: &str = "json";

const JSON_HELP: &str = "Prints a JSON document instead of text";

/// The profiles that frames may be judged by.
const PROFILES: [&str; 2] = ["own", "arinc"];

/// The kind of a word, with the name of its value.
enum WordKind {
    /// A path, which may be left out.
    Path,
    /// A path.
    Needed,
    Flag,
    /// A flag, and a text with this name.
    Text(&'static str),
    /// A flag that may be given several times, each with a text with this name.
    Texts(&'static str),
    /// A flag that must be given, and a text with this name.
    Given(&'static str),
    Profile,
    /// A flag, and a number with this name, at most this one.
    Upto(&'static str, u64),
    /// A flag, and a number with this name, from 1 to this one.
    Within(&'static str, u64),
    /// A flag that must be given, and a number from 1 to this one.
    Count(u64),
}

/// A word: the name of its command, its own name, its kind, and its meaning.
struct Word(&'static str, &'static str, WordKind, &'static str);

/// The words after that of the plan, in the order of the help. (A constant with texts inside its kinds would be built,
/// and proved, anew in each function that reads it.)
static WORDS: [Word; 33] = [
    Word("run", "script", WordKind::Needed, "The file of the script"),
    Word(
        "run",
        "capture",
        WordKind::Text("file"),
        "Also writes the frames of both networks to a file in the pcapng format",
    ),
    Word("check", JSON, WordKind::Flag, JSON_HELP),
    Word("explain", JSON, WordKind::Flag, JSON_HELP),
    Word(
        "compile",
        "c",
        WordKind::Text("file"),
        "Writes a file of C with the table instead",
    ),
    Word(
        "report",
        "lateness",
        WordKind::Upto("micros", MICROS_LIMIT),
        "The worst delay of polls that come a BAG after one another, in microseconds: 0 if left out",
    ),
    Word(
        "report",
        "html",
        WordKind::Text("file"),
        "Also writes the report as a page to a file",
    ),
    Word(
        "report",
        "traffic",
        WordKind::Text("file"),
        "Reads the periods and deadlines of the ports from a CSV file: two messages of a port are at least its period apart",
    ),
    Word(
        "report",
        "csv",
        WordKind::Text("file"),
        "Also writes a row for each port and each sub-VL to a CSV file",
    ),
    Word(
        "report",
        "date",
        WordKind::Text("text"),
        "Names this date on the page",
    ),
    Word(
        "report",
        "strict",
        WordKind::Flag,
        "Ends with status 1 if the verdict has a warning",
    ),
    Word("report", JSON, WordKind::Flag, JSON_HELP),
    Word(
        "schedule",
        "traffic",
        WordKind::Given("file"),
        "Reads the periods of the ports from a CSV file; a port without one sends nothing",
    ),
    Word(
        "schedule",
        "seconds",
        WordKind::Count(SECONDS_LIMIT),
        "The length of the script in seconds, with a poll each millisecond",
    ),
    Word(
        "schedule",
        "seed",
        WordKind::Upto("seed", u64::MAX),
        "Chooses the times at which the ports begin to send: 0, all at once, if left out",
    ),
    Word(
        "judge",
        "capture",
        WordKind::Needed,
        "The recording of both networks, or of network A",
    ),
    Word(
        "judge",
        "capture_b",
        WordKind::Path,
        "The recording of network B",
    ),
    Word(
        "judge",
        "with",
        WordKind::Texts("plan"),
        "The plan of one more recorded end system; may be given several times",
    ),
    Word(
        "judge",
        "jitter",
        WordKind::Upto("micros", MICROS_LIMIT),
        "How much the time from a frame's release to its recording may vary, in microseconds: 0 if left out",
    ),
    Word(
        "judge",
        "skew",
        WordKind::Upto("micros", MICROS_LIMIT),
        "The longest time between a frame and its twin, in microseconds: 10000 if left out",
    ),
    Word(
        "judge",
        "late",
        WordKind::Flag,
        "The recording began after the end system",
    ),
    Word(
        "judge",
        "fcs",
        WordKind::Flag,
        "Frames were recorded with their check sequence",
    ),
    Word(
        "judge",
        "profile",
        WordKind::Profile,
        "Chooses the rules for frames: arinc for other makers' equipment; own, if left out, for frames of this library",
    ),
    Word(
        "judge",
        "constant",
        WordKind::Text("hex"),
        "The constant field of destination MAC addresses, with --profile arinc: 03000000 if left out",
    ),
    Word(
        "judge",
        "interfaces",
        WordKind::Text("a,b"),
        "The interface bytes of networks A and B, with --profile arinc: 20,40 if left out",
    ),
    Word(
        "judge",
        "html",
        WordKind::Text("file"),
        "Also writes the summary as a page to a file",
    ),
    Word("judge", JSON, WordKind::Flag, JSON_HELP),
    Word(
        "judge",
        "all-links",
        WordKind::Flag,
        "Reports a link without a frame on a network that carries it as a finding",
    ),
    Word(
        "judge",
        "foreign",
        WordKind::Flag,
        "Counts frames whose source is the end system of no plan, and doesn't judge them",
    ),
    Word(
        "judge",
        "by-byte",
        WordKind::Flag,
        "Takes the network of a frame from its byte 11, not from its interface",
    ),
    Word(
        "judge",
        "every",
        WordKind::Within("seconds", SECONDS_LIMIT),
        "Prints the rows so far after each such number of recorded seconds",
    ),
    Word(
        "storm",
        "messages",
        WordKind::Count(MESSAGES_LIMIT),
        "The number of messages that each port sends, each about 3 KB of memory",
    ),
    Word(
        "storm",
        "turns",
        WordKind::Count(TURNS_LIMIT),
        "The number of times that each thread may try",
    ),
];

/// Returns all command lines of the program.
pub(crate) fn command<'a>(alloc: Global) -> Result<Command<'a>, AllocError> {
    let mut program = Command::new(alloc, "afdx_bench")
        .version(VERSION)
        .about(ABOUT)
        .disable_help_subcommand(true);
    for &(name, about) in COMMANDS.iter() {
        program = program.subcommand(over_file(alloc, name, about)?)?;
    }
    Ok(program)
}

/// Returns the command line of a command over the file of a plan, or of an interface document.
fn over_file<'a>(alloc: Global, name: &'a str, about: &'a str) -> Result<Command<'a>, AllocError> {
    let (id, help) = match name {
        "import" => ("document", "The file of the interface document"),
        "check" | "report" => (
            "config",
            "The file of the plan, or of each plan of a network",
        ),
        _ => ("config", "The file of the plan"),
    };
    let file = Arg::new(alloc, id).help(help).required(true);
    let file = match name {
        "check" | "report" => file.num_args(1..),
        _ => file,
    };
    let mut command = Command::new(alloc, name).about(about).arg(file)?;
    for word in WORDS.iter() {
        if word.0 == name {
            command = command.arg(arg_of(alloc, word))?;
        }
    }
    Ok(command)
}

fn arg_of<'a>(alloc: Global, word: &Word) -> Arg<'a> {
    let Word(_, id, kind, help) = word;
    let arg = Arg::new(alloc, id).help(help);
    match kind {
        WordKind::Path => arg,
        WordKind::Needed => arg.required(true),
        WordKind::Flag => arg.long(id).action(ArgAction::SetTrue),
        WordKind::Text(name) => arg.long(id).value_name(name),
        WordKind::Texts(name) => arg.long(id).value_name(name).action(ArgAction::Append),
        WordKind::Given(name) => arg.long(id).value_name(name).required(true),
        WordKind::Profile => arg.long(id).value_parser(PROFILES.as_slice()),
        WordKind::Upto(name, most) => {
            let number = ValueParser::unsigned(0, *most);
            arg.long(id).value_name(name).value_parser(number)
        }
        WordKind::Within(name, most) => {
            let number = ValueParser::unsigned(1, *most);
            arg.long(id).value_name(name).value_parser(number)
        }
        WordKind::Count(most) => {
            let count = ValueParser::unsigned(1, *most);
            arg.long(id).required(true).value_parser(count)
        }
    }
}
