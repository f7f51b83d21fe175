//! The command `judge`.
use crate::addresses::addressing_of;
use crate::files::{buffered, create, open, open_given, written};
use crate::findings::NoCapture;
use crate::hearing::{Hearing, Ways};
use crate::network::{Network, open_network, paths_of};
use crate::page::{Origin, write_page};
use crate::recorded::{capture_row, recorded};
use crate::source::{Part, Source};
use crate::stop::Stop;
use afdx_frame::Net;
use bench_words::{CaptureRow, Case, End, judge_document};
use judge::Options;
use std::alloc::{AllocError, Global};
use std::fs::File;
use std::io::{self, Write};

// The nanoseconds of a second.
const SECOND: u128 = 1_000_000_000;

/// Writes what is wrong with a recording of some plans' end systems: findings, how many there are, what was read, and a
/// row for each link and network; or a document of that. After that writes the page to its file. With a second capture,
/// the first belongs to network A and the second to network B.
pub fn judge_files<'a, W: Write>(
    rt: &HostRuntime,
    case: &'a Case,
    writer: &mut W,
) -> Result<End, Stop<'a>> {
    let alloc = rt.alloc();
    let paths = paths_of(alloc, Some(&case.config), case.with.as_slice())?;
    let Some(network) = open_network(rt, paths.as_slice())? else {
        return Ok(End::FileWrong);
    };
    let Network {
        files,
        plans,
        digests,
    } = network;
    let first = open(rt, path_of(case.capture.as_str()))?;
    let second = open_given(rt, &case.other)?;
    let page = {
        let read = files_of(alloc, files.as_slice(), &first, &second)?;
        create(rt, &case.html, read.as_slice())?
    };
    let mut hearing = Hearing::new(alloc, plans, options_of(case), ways_of(case))?;
    let heard = hear(rt, case, first, second, &mut hearing, writer)?;
    if let (Some(page), Some(path)) = (page, &case.html) {
        let ends = ends_of(alloc, heard.captures.as_slice())?;
        let origin = Origin {
            case,
            digests: digests.as_slice(),
            ends: ends.as_slice(),
            is_whole: heard.is_whole,
        };
        written(save_page(alloc, page, &hearing, &origin), path.as_str())?;
    }
    let is_whole = heard.is_whole;
    if case.json {
        let told = recorded(alloc, case, &hearing, heard.captures, is_whole)?;
        writer.write_all(judge_document(alloc, told)?.as_slice())?;
    }
    if !is_whole {
        Ok(End::FileWrong)
    } else if hearing.tally.total() > 0 {
        Ok(End::FaultsTold)
    } else {
        Ok(End::Told)
    }
}

/// Returns the path of a capture: `-` is standard input.
fn path_of(path: &str) -> &str {
    if path == "-" { "/dev/stdin" } else { path }
}

fn options_of(case: &Case) -> Options {
    Options {
        jitter: case.jitter,
        skew: case.skew,
        late: case.late,
        fcs: case.fcs,
        arinc: case.arinc,
    }
}

fn ways_of(case: &Case) -> Ways {
    Ways {
        foreign: case.foreign,
        by_byte: case.by_byte,
        addressing: addressing_of(case),
        every: case
            .every
            .map(|seconds| SECOND.saturating_mul(seconds as u128)),
        is_quiet: case.json,
    }
}

/// Returns the files that are read: the plans, then the captures.
fn files_of<'f>(
    alloc: Global,
    plans: &'f [File],
    first: &'f File,
    second: &'f Option<File>,
) -> Result<Vec<&'f File>, AllocError> {
    let mut files = Vec::new(alloc);
    for file in plans {
        files.push(file)?;
    }
    files.push(first)?;
    if let Some(second) = second {
        files.push(second)?;
    }
    Ok(files)
}

/// Returns the words that tell each capture's packets and its end.
fn ends_of(alloc: Global, captures: &[CaptureRow<'_>]) -> Result<Vec<String>, AllocError> {
    let mut ends = Vec::new(alloc);
    for capture in captures {
        ends.push(String::from_str(alloc, capture.told.as_str())?)?;
    }
    Ok(ends)
}

/// Writes the page to its file.
fn save_page(alloc: Global, page: File, hearing: &Hearing, origin: &Origin<'_>) -> io::Result<()> {
    let mut output = buffered(alloc, page)?;
    write_page(&mut output, hearing, origin)?;
    output.flush()
}

/// The captures that were heard, and whether each was read to its end and lacks no packet.
#[derive(Drop)]
struct Heard<'a> {
    captures: Vec<CaptureRow<'a>>,
    is_whole: bool,
}

/// Has the captures heard, and writes what was found and read. If one is no capture, writes which and why, and none is
/// heard.
fn hear<'a, W: Write>(
    rt: &HostRuntime,
    case: &'a Case,
    first: File,
    second: Option<File>,
    hearing: &mut Hearing,
    writer: &mut W,
) -> Result<Heard<'a>, Stop<'a>> {
    let alloc = rt.alloc();
    let (mut a, mut b) = sources(rt, case, first, second)?;
    a.read_until(None, hearing, writer)?;
    if let Some(b) = &mut b {
        b.read_until(None, hearing, writer)?;
    }
    hearing.tally.no_capture = no_capture(&a, &b);
    if hearing.tally.no_capture.is_none() {
        match &mut b {
            Some(b) => read_merged(&mut a, b, hearing, writer)?,
            None => a.read_until(Some(u128::MAX), hearing, writer)?,
        }
        hearing.write_findings(case.all_links, writer)?;
    } else if !case.json {
        let tally = &hearing.tally;
        writeln!(writer, "{tally}")?;
    }
    let captures = captures_of(alloc, case, &a, &b)?;
    if !case.json {
        write_captures(writer, hearing, captures.as_slice())?;
    }
    let is_whole = a.is_complete() && second_is_complete(case, &b);
    Ok(Heard { captures, is_whole })
}

/// Returns whether the second capture, if there is one, was read to its end and lacks no packet.
fn second_is_complete(case: &Case, b: &Option<Source<'_>>) -> bool {
    match (b, &case.other) {
        (Some(b), Some(_)) => b.is_complete(),
        _ => true,
    }
}

/// Writes what was read of each capture, and the summary. If one is none, writes that one's line alone.
fn write_captures<'a, W: Write>(
    writer: &mut W,
    hearing: &Hearing,
    captures: &[CaptureRow<'a>],
) -> Result<(), Stop<'a>> {
    for row in captures.iter() {
        let (number, told) = (row.capture, row.told.as_str());
        match &hearing.tally.no_capture {
            Some(NoCapture(file, _)) if *file != number => {}
            _ => writeln!(writer, "capture {number}: {told}")?,
        }
    }
    if hearing.tally.no_capture.is_none() {
        hearing.write_summary(writer)?;
    }
    Ok(())
}

/// Returns the rows of the captures.
fn captures_of<'a>(
    alloc: Global,
    case: &'a Case,
    a: &Source<'a>,
    b: &Option<Source<'a>>,
) -> Result<Vec<CaptureRow<'a>>, AllocError> {
    let mut captures = Vec::new(alloc);
    captures.push(capture_row(alloc, 1, case.capture.as_str(), a)?)?;
    if let (Some(b), Some(path)) = (b, &case.other) {
        captures.push(capture_row(alloc, 2, path.as_str(), b)?)?;
    }
    Ok(captures)
}

/// Returns the first file that is no capture of Ethernet frames, if there is one.
fn no_capture(a: &Source<'_>, b: &Option<Source<'_>>) -> Option<NoCapture> {
    if let Some(why) = a.no_frames() {
        return Some(NoCapture(1, why));
    }
    match b {
        Some(b) => b.no_frames().map(|why| NoCapture(2, why)),
        None => None,
    }
}

/// Returns the sources of the packets. A capture of both networks is read twice, once for each network: an interface's
/// packets are in the order of their times, but dumpcap writes the packets of two interfaces as they come to it, up to
/// seconds apart. A pipe is read once.
fn sources<'a>(
    rt: &HostRuntime,
    case: &'a Case,
    first: File,
    second: Option<File>,
) -> Result<(Source<'a>, Option<Source<'a>>), Stop<'a>> {
    let (alloc, path) = (rt.alloc(), path_of(case.capture.as_str()));
    let (part, second, other) = match second {
        Some(second) => (Part::File(Net::A), second, Part::File(Net::B)),
        None if matches!(first.metadata(), Ok(found) if found.is_file()) => {
            let again = open(rt, path)?;
            (Part::Interface(Net::A), again, Part::Interface(Net::B))
        }
        None => return Ok((Source::new(alloc, first, path, 1, Part::Both)?, None)),
    };
    let a = Source::new(alloc, first, path, 1, part)?;
    let b = match &case.other {
        Some(path) => Source::new(alloc, second, path.as_str(), 2, other)?,
        None => Source::new(alloc, second, path, 1, other)?,
    };
    Ok((a, Some(b)))
}

/// Passes the packets of two sources to the judge in order of time; at equal times A's is first.
fn read_merged<'a, W: Write>(
    a: &mut Source<'a>,
    b: &mut Source<'a>,
    hearing: &mut Hearing,
    writer: &mut W,
) -> Result<(), Stop<'a>> {
    for _ in 0..u64::MAX {
        a.read_until(Some(b.next().unwrap_or(u128::MAX)), hearing, writer)?;
        let until = match a.next() {
            Some(at) => at.saturating_sub(1),
            None => u128::MAX,
        };
        b.read_until(Some(until), hearing, writer)?;
        if a.next().is_none() && b.next().is_none() {
            return Ok(());
        }
    }
    Ok(())
}
