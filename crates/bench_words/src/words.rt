//! The words of the command line.
ghost use Rattle.std.specs.Prelude.{◌≤◌, IfOk};
ghost use Rattle.bench_words.specs.Status.{IsInRange, EndsWords};
ghost use Rattle.clap.specs.Values.{kind_of};

use crate::addresses::{constant, interfaces};
use crate::commands::command;
use crate::status::{End, Failure};
use clap::error::ErrorKind;
use clap::{ArgMatches, Error};
use script_text::{RunFault, number};
use std::alloc::{AllocError, Global};
use std::io;
use std::rt::Env;

/// The greatest lateness, jitter and skew, in microseconds.
pub(crate) const MICROS_LIMIT: u64 = 1_000_000;

/// The greatest number of messages of a port.
pub(crate) const MESSAGES_LIMIT: u64 = 65_535;

/// The greatest number of seconds of a script, which has a poll each millisecond and at most 1,000,000 lines.
pub(crate) const SECONDS_LIMIT: u64 = 999;

/// The greatest number of turns of a thread.
pub(crate) const TURNS_LIMIT: u64 = 1_000_000_000;

/// A parsed command line. Plans and scripts are named by the paths of their files.
#[derive(Drop)]
pub enum Words {
    /// No word: a script from standard input, over the demonstration plan.
    Script,
    /// `run <config> <script>`, and `--capture <file>` for a capture
    Run {
        config: String,
        script: String,
        capture: Option<String>,
    },
    /// `check <config>..`, and `--json`
    Check {
        configs: Vec<String>,
        json: bool,
    },
    /// `explain <config>`, and `--json`
    Explain {
        config: String,
        json: bool,
    },
    /// `import <document>`
    Import(String),
    /// `compile <config>`
    Compile {
        config: String,
        source: Option<String>,
    },
    /// `report <config>..`
    Report(Asked),
    /// `schedule <config> --traffic <file> --seconds <n>`, and `--seed <s>`
    Schedule {
        config: String,
        traffic: String,
        seconds: u64,
        seed: u64,
    },
    /// `judge <config> <capture> [<capture_b>]`
    Judge(Case),
    /// `storm <config> --messages <n> --turns <t>`
    Storm {
        config: String,
        messages: u32,
        turns: u64,
    },
}

/// The choices for a report, with the paths of its files.
#[derive(Drop)]
pub struct Asked {
    /// One plan, or the plans of a network.
    pub configs: Vec<String>,
    /// The greatest lateness of a poll, in microseconds.
    pub lateness: u64,
    /// A page, and the date on it.
    pub html: Option<String>,
    pub date: Option<String>,
    /// The traffic of the ports.
    pub traffic: Option<String>,
    /// Rows for a spreadsheet.
    pub csv: Option<String>,
    /// A missed limit or deadline is a failure.
    pub strict: bool,
    /// A document is wanted.
    pub json: bool,
}

/// A recording that is to be judged, by the paths of its files.
#[derive(Drop)]
pub struct Case {
    pub config: String,
    /// The plans of other end systems that were recorded too.
    pub with: Vec<String>,
    /// The recording of both networks, or that of network A.
    pub capture: String,
    /// The recording of network B.
    pub other: Option<String>,
    /// The time in microseconds by which a gap may be less than the BAG.
    pub jitter: u64,
    /// The greatest time in microseconds between a frame and its twin.
    pub skew: u64,
    /// The recording began after the end system.
    pub late: bool,
    /// Frames were recorded with their check sequence.
    pub fcs: bool,
    /// Frames are judged by ARINC 664 Part 7 alone.
    pub arinc: bool,
    /// The constant field of destination MAC addresses, if it isn't the profile's.
    pub constant: Option<[u8; 4]>,
    /// The interface bytes of networks A and B, if they aren't the profile's.
    pub interfaces: Option<[u8; 2]>,
    /// The file of a page.
    pub html: Option<String>,
    /// A document is wanted.
    pub json: bool,
    /// A link without a frame is a finding.
    pub all_links: bool,
    /// Frames of other sources are counted, and not judged.
    pub foreign: bool,
    /// The network of a frame is what its byte 11 says.
    pub by_byte: bool,
    /// The seconds of the recording after which the rows are printed each time, if they are.
    pub every: Option<u64>,
}

/// Parses the words that the program was started with. The error is a request for help or the version,
/// wrong words, or a failed allocation.
pub fn read_words<R: Env + AllocGlobal>(rt: &R) -> Result<Words, Error>
    ensures { IfOk result IsInRange }
{
    let alloc = rt.alloc();
    match std::env::args(rt) {
        Ok(words) => {
            let words: Vec<String> = words.collect(alloc)?;
            parse(alloc, words.as_slice())
        }
        Err(error) if error.kind() == io::ErrorKind::OutOfMemory => Err(Error::from(AllocError)),
        Err(_) => Err(refusal(alloc, "a word is not UTF-8")?),
    }
}

/// Returns the error of a word that clap doesn't read.
pub(crate) fn refusal(alloc: Global, text: &str) -> Result<Error, AllocError> {
    let mut program = command(alloc)?;
    program.error(ErrorKind::InvalidValue, text)
}

/// Parses a command line. Its first word is the program's name.
pub fn parse<'a>(alloc: Global, words: &'a [String]) -> Result<Words, Error>
    ensures { IfOk result IsInRange }
{
    let matches = command(alloc)?.try_get_matches_from(words)?;
    match matches.subcommand() {
        Some((name, inner)) => words_of(alloc, name, inner),
        None => Ok(Words::Script),
    }
}

/// Returns the words of a command, by its name.
fn words_of(alloc: Global, name: &str, matches: &ArgMatches<'_>) -> Result<Words, Error>
    ensures { IfOk result IsInRange }
{
    if name == "import" {
        return Ok(Words::Import(path(alloc, matches, "document")?));
    }
    let config = path(alloc, matches, "config")?;
    match name {
        "run" => Ok(Words::Run {
            config,
            script: path(alloc, matches, "script")?,
            capture: given(alloc, matches, "capture")?,
        }),
        "check" => Ok(Words::Check {
            configs: paths(alloc, matches, "config")?,
            json: matches.get_flag("json"),
        }),
        "explain" => Ok(Words::Explain {
            config,
            json: matches.get_flag("json"),
        }),
        "compile" => Ok(Words::Compile {
            config,
            source: given(alloc, matches, "c")?,
        }),
        "report" => report_words(alloc, matches),
        "schedule" => Ok(Words::Schedule {
            config,
            traffic: path(alloc, matches, "traffic")?,
            seconds: count(alloc, matches, "seconds", "", 1, SECONDS_LIMIT)?,
            seed: count(alloc, matches, "seed", "0", 0, u64::MAX)?,
        }),
        "judge" => judge_words(alloc, matches, config),
        _ => Ok(Words::Storm {
            config,
            messages: count(alloc, matches, "messages", "", 1, MESSAGES_LIMIT)? as u32,
            turns: count(alloc, matches, "turns", "", 1, TURNS_LIMIT)?,
        }),
    }
}

fn report_words(alloc: Global, matches: &ArgMatches<'_>) -> Result<Words, Error>
    ensures { IfOk result IsInRange }
{
    let html = given(alloc, matches, "html")?;
    if html.is_some() && matches.get_str("html") == matches.get_str("csv") {
        return Err(refusal(alloc, "--html and --csv name one file")?);
    }
    let configs = paths(alloc, matches, "config")?;
    let is_of_one = html.is_some() || matches.get_str("traffic").is_some();
    if configs.len() > 1 && (is_of_one || matches.get_str("csv").is_some()) {
        return Err(refusal(alloc, "--html, --traffic and --csv take one plan")?);
    }
    Ok(Words::Report(Asked {
        configs,
        lateness: count(alloc, matches, "lateness", "0", 0, MICROS_LIMIT)?,
        html,
        date: given(alloc, matches, "date")?,
        traffic: given(alloc, matches, "traffic")?,
        csv: given(alloc, matches, "csv")?,
        strict: matches.get_flag("strict"),
        json: matches.get_flag("json"),
    }))
}

fn judge_words(alloc: Global, matches: &ArgMatches<'_>, config: String) -> Result<Words, Error>
    ensures { IfOk result IsInRange }
{
    let every = match matches.get_str("every") {
        Some(_) => Some(count(alloc, matches, "every", "", 1, SECONDS_LIMIT)?),
        None => None,
    };
    let (constant, interfaces) = (constant(alloc, matches)?, interfaces(alloc, matches)?);
    let arinc = matches.get_str("profile") == Some("arinc");
    if !arinc && (constant.is_some() || interfaces.is_some()) {
        return Err(refusal(alloc, "--constant and --interfaces need --profile arinc")?);
    }
    Ok(Words::Judge(Case {
        config,
        with: paths(alloc, matches, "with")?,
        capture: path(alloc, matches, "capture")?,
        other: given(alloc, matches, "capture_b")?,
        jitter: count(alloc, matches, "jitter", "0", 0, MICROS_LIMIT)?,
        skew: count(alloc, matches, "skew", "10000", 0, MICROS_LIMIT)?,
        late: matches.get_flag("late"),
        fcs: matches.get_flag("fcs"),
        arinc,
        constant,
        interfaces,
        html: given(alloc, matches, "html")?,
        json: matches.get_flag("json"),
        all_links: matches.get_flag("all-links"),
        foreign: matches.get_flag("foreign"),
        by_byte: matches.get_flag("by-byte"),
        every,
    }))
}

/// Returns the number of a flag, or `otherwise` without the flag: decimal digits alone, from `least` to `most`.
fn count(
    alloc: Global,
    matches: &ArgMatches<'_>,
    id: &str,
    otherwise: &str,
    least: u64,
    most: u64,
) -> Result<u64, Error>
    ensures { IfOk result (λ n. (least ≤ n) × (n ≤ most)) }
{
    // clap has checked the range, but it accepts a plus sign.
    let word = matches.get_str(id).unwrap_or(otherwise);
    match number(word.as_bytes(), most) {
        Some(n) if n >= least => Ok(n),
        _ => {
            let told = format!(in alloc;
                "--{id}: decimal digits alone are wanted, and \"{word}\" is seen"
            )?;
            Err(refusal(alloc, told.as_str())?)
        }
    }
}

/// Returns the path that a word gives.
fn path(alloc: Global, matches: &ArgMatches<'_>, id: &str) -> Result<String, AllocError> {
    String::from_str(alloc, matches.get_str(id).unwrap_or(""))
}

/// Returns the paths that a word gives, in their order.
fn paths(alloc: Global, matches: &ArgMatches<'_>, id: &str) -> Result<Vec<String>, AllocError> {
    let words = matches.get_strs(id).unwrap_or(&[]);
    let mut paths = Vec::with_capacity(alloc, words.len())?;
    for word in words {
        paths.push(String::from_str(alloc, word)?)?;
    }
    Ok(paths)
}

/// Returns the text that a word gives, if there is one.
fn given(alloc: Global, matches: &ArgMatches<'_>, id: &str) -> Result<Option<String>, AllocError> {
    match matches.get_str(id) {
        Some(word) => Ok(Some(String::from_str(alloc, word)?)),
        None => Ok(None),
    }
}

/// Prints the message of an error: help and the version to standard output, and faults of the words to standard error.
pub fn tell_words<R: Print + Eprint>(rt: &R, error: &Error) -> End
    ensures { EndsWords (kind_of error.now) result }
{
    match error.kind() {
        ErrorKind::OutOfMemory => End::Failed(Failure::Run(RunFault::Memory)),
        ErrorKind::DisplayHelp | ErrorKind::DisplayVersion => match error.print(rt) {
            Ok(()) => End::Told,
            Err(_) => End::Failed(Failure::Run(RunFault::Write)),
        },
        _ => {
            let _told = error.print(rt);
            End::WordsRefused
        }
    }
}
