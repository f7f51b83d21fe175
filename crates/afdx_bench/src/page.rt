//! The page of a recording: one HTML file, which loads nothing.
use crate::addresses::{Addresses, addressing_of};
use crate::findings::{FindingLine, network_name};
use crate::hearing::Hearing;
use crate::link_row::LinkRow;
use afdx_frame::Net;
use bench_words::Case;
use judge::Judge;
use plan_report::{Escaped, Parts, write_head};
use std::fmt;
use std::io::{self, Write};

// The nanoseconds of a second, and of a microsecond.
const SECOND: u128 = 1_000_000_000;

const MICRO: u128 = 1_000;

/// The origin of a page: the words of the command, the digests of the plans, in their order, each capture's end, and
/// whether all were read to their end and lack no packet.
#[derive(Clone, Copy)]
pub struct Origin<'a> {
    pub case: &'a Case,
    pub digests: &'a [[u8; 32]],
    pub ends: &'a [String],
    pub is_whole: bool,
}

/// A time in nanoseconds, printed in microseconds, or a dash.
#[derive(Clone, Copy)]
struct Micros(Option<u128>);

impl fmt::Display for Micros {
    fn fmt<W: fmt::Write>(&self, f: &mut fmt::Formatter<W>) -> fmt::Result {
        match self.0 {
            Some(nanos) => {
                let (whole, rest) = (nanos / MICRO, nanos % MICRO);
                write!(f, "{whole}.{rest:03}\u{a0}µs")
            }
            None => f.write_str("–"),
        }
    }
}

/// Writes what came of a recording as a page: the number of findings, where they come from, the first findings of each
/// kind, and a table of the links.
pub fn write_page<W: Write>(
    writer: &mut W,
    hearing: &Hearing,
    origin: &Origin<'_>,
) -> io::Result<()> {
    let tally = &hearing.tally;
    let id = hearing.tap.end_systems().first().copied().unwrap_or(0);
    write_head(writer, "Recording of end system", id, "", "")?;
    let whole = if origin.is_whole || tally.no_capture.is_some() {
        ""
    } else {
        "; the recording isn't whole"
    };
    writeln!(writer, "<p id=\"verdict\">{tally}{whole}</p>")?;
    write_origin(writer, hearing, origin)?;
    write_findings(writer, hearing)?;
    if tally.no_capture.is_none() {
        for id in hearing.tap.end_systems() {
            let Some(judge) = hearing.tap.judge_of(*id) else {
                continue;
            };
            write_links(writer, judge, origin.case)?;
        }
    }
    writer.write_all(b"</body>\n</html>\n")
}

/// Writes the files, the digests of the plans, the options and the times.
fn write_origin<W: Write>(
    writer: &mut W,
    hearing: &Hearing,
    origin: &Origin<'_>,
) -> io::Result<()> {
    let case = origin.case;
    writer.write_all(b"<dl>\n")?;
    let plans = Some(&case.config).into_iter().chain(case.with.iter());
    for (path, digest) in plans.zip(origin.digests.iter()) {
        let path = Escaped(path.as_str());
        write!(writer, "<dt>plan<dd>{path}\n<dt>SHA-256<dd>")?;
        for byte in digest {
            write!(writer, "{byte:02x}")?;
        }
        writer.write_all(b"\n")?;
    }
    let paths = Some(&case.capture).into_iter().chain(case.other.iter());
    for (path, end) in paths.zip(origin.ends.iter()) {
        let (path, end) = (Escaped(path.as_str()), Escaped(end.as_str()));
        writeln!(writer, "<dt>recording<dd>{path}: {end}")?;
    }
    write_options(writer, case)?;
    if let Some((first, latest)) = hearing.times {
        for (name, at) in [("first", first), ("last", latest)] {
            let (seconds, nanos) = (at / SECOND, at % SECOND);
            writeln!(
                writer,
                "<dt>{name} packet<dd id=\"{name}\">{seconds}.{nanos:09}\u{a0}s"
            )?;
        }
    }
    writer.write_all(b"</dl>\n")
}

/// Writes the options.
fn write_options<W: Write>(writer: &mut W, case: &Case) -> io::Result<()> {
    let (jitter, skew) = (case.jitter, case.skew);
    let profile = if case.arinc { "arinc" } else { "own" };
    write!(
        writer,
        "<dt>options<dd id=\"options\">jitter {jitter} µs, skew {skew} µs, profile {profile}"
    )?;
    let flags = [
        (case.late, "late"),
        (case.fcs, "fcs"),
        (case.foreign, "foreign"),
        (case.by_byte, "by-byte"),
        (case.all_links, "all-links"),
    ];
    for (is_given, name) in flags {
        if is_given {
            write!(writer, ", {name}")?;
        }
    }
    if let Some(own) = addressing_of(case) {
        let own = Addresses(own);
        write!(writer, ", {own}")?;
    }
    writer.write_all(b"\n")
}

/// Writes the first findings of each kind, and the links without a frame.
fn write_findings<W: Write>(writer: &mut W, hearing: &Hearing) -> io::Result<()> {
    if hearing.kept.is_empty() {
        return Ok(());
    }
    writer.write_all(
        b"<h2>Findings</h2>\n<p>The first hundred of each kind: packet, network, time in seconds, link, and what was \
        seen and wanted.</p>\n<pre id=\"findings\">\n",
    )?;
    for finding in hearing.kept.iter() {
        let line = FindingLine(finding);
        writeln!(writer, "{line}")?;
    }
    writer.write_all(b"</pre>\n")
}

/// Writes the table of a plan's links.
fn write_links<W: Write>(writer: &mut W, judge: &Judge, case: &Case) -> io::Result<()> {
    let id = judge.config().end_system();
    write!(
        writer,
        "<h2>Links of end system {id}</h2>\n<p>The least gap of each link, whose mark is its BAG, and the greatest time \
        between a frame and its twin, whose mark is the skew.</p>\n<table id=\"links-{id}\" class=\"judged\">\n<thead><tr><th>link\
        <th>network<th>frames<th>BAG<th>least gap<th>lead<th class=\"bar\">gap<th class=\"bar\">lead<th>greatest gap<th>mean gap\
        <th>mean lead<th>used\n<tbody>\n"
    )?;
    for (place, link) in judge.config().links().iter().enumerate() {
        for net in [Net::A, Net::B] {
            if let Some(row) = LinkRow::of(judge, place, link, net) {
                write_link(writer, &row, case)?;
            }
        }
    }
    writer.write_all(b"</table>\n")
}

/// Writes the row of a link on a network. A gap that is less than the BAG by more than the jitter has a class.
fn write_link<W: Write>(writer: &mut W, row: &LinkRow, case: &Case) -> io::Result<()> {
    let (id, network, bag, frames) = (
        row.link.id.0,
        network_name(row.net),
        row.link.bag.ms(),
        row.figures.frames,
    );
    let least = row.link.bag.micros().saturating_sub(case.jitter);
    let gap = row.figures.least_gap;
    let is_short = match gap {
        Some(gap) => gap < MICRO.saturating_mul(least as u128),
        None => false,
    };
    let over = if is_short { " class=\"over\"" } else { "" };
    let silent = if frames == 0 { " class=\"over\"" } else { "" };
    let (least, lead) = (Micros(gap), Micros(row.lead));
    write!(
        writer,
        "<tr><td>{id}<td>{network}<td{silent}>{frames}<td>{bag}\u{a0}ms<td{over}>{least}<td>{lead}<td class=\"bar\">"
    )?;
    write_bar(writer, row.bag.saturating_mul(2), row.bag, gap)?;
    writer.write_all(b"<td class=\"bar\">")?;
    let skew = case.skew.saturating_mul(1_000);
    write_bar(writer, skew, skew, row.lead)?;
    write_means(writer, row)
}

/// Writes the last cells of a link's row.
fn write_means<W: Write>(writer: &mut W, row: &LinkRow) -> io::Result<()> {
    let (greatest, mean) = (Micros(row.figures.greatest_gap), Micros(row.mean_gap));
    let lead = Micros(row.mean_lead);
    write!(writer, "<td>{greatest}<td>{mean}<td>{lead}<td>")?;
    match row.used {
        Some(used) => writeln!(writer, "{used}\u{a0}%"),
        None => writeln!(writer, "–"),
    }
}

/// Writes the bar of a time in nanoseconds. It is at most the whole scale, and empty if there is no time.
fn write_bar<W: Write>(
    writer: &mut W,
    scale: u64,
    limit: u64,
    nanos: Option<u128>,
) -> io::Result<()> {
    let mut bar = Parts::begin(writer, scale, limit)?;
    bar.fill(writer, nanos.unwrap_or(0).min(scale as u128) as u64)?;
    bar.end(writer)
}
