//! The tables of the networks, the links and the sub-VLs of a page. The first two have bars of loads and jitter.
use crate::analysis_text::{network_name, networks_cell};
use crate::html::{DRAWING, Parts, Rect, Time, WIDTH, place};
use crate::numbers::{Decimal, Grouped, HUNDREDTHS, THOUSANDTHS};
use afdx_frame::Net;
use plan_analysis::{
    Analysis, JITTER_LIMIT, LinkAnalysis, Memory, NetworkRow, OWN_JITTER, carries,
};
use std::io::{self, Write};

/// The rate of a network in bits a second.
const LINE_RATE: u64 = 100_000_000;

/// The bits a second of a link with a BAG of a millisecond and the longest frames that there are.
const GREATEST_RATE: u64 = 12_304_000;

/// Writes the table of the networks, each with its load and its jitter by link.
pub(crate) fn write_networks<W: Write>(writer: &mut W, analysis: &Analysis) -> io::Result<()> {
    writer.write_all(
        b"<h2>Networks</h2>\n<p>Load and jitter by link, in the order of their table. The marks are \
        100&nbsp;Mbit/s and 500&nbsp;&micro;s. The first part of a jitter is the end system's own. \
        The verdict is on the jitter of all links, as if one network carried them.</p>\n\
        <table id=\"networks\">\n<thead><tr><th>network<th>load kbit/s<th>share %<th class=\"bar\">\
        <th>jitter<th class=\"bar\">\n<tbody>\n",
    )?;
    write_network(writer, analysis, &analysis.network_a)?;
    write_network(writer, analysis, &analysis.network_b)?;
    let jitter = Time(analysis.jitter);
    let over = over(analysis.jitter > JITTER_LIMIT);
    write!(
        writer,
        "<tr><td>all links<td>–<td>–<td class=\"bar\"><td{over}>{jitter}<td class=\"bar\">"
    )?;
    write_jitter_bar(writer, analysis, None)?;
    writer.write_all(b"\n</table>\n")
}

/// Returns the class of a cell whose value exceeds a limit.
pub(crate) fn over(is_over: bool) -> &'static str {
    if is_over { " class=\"over\"" } else { "" }
}

fn write_network<W: Write>(
    writer: &mut W,
    analysis: &Analysis,
    row: &NetworkRow,
) -> io::Result<()> {
    let name = network_name(row.net).trim();
    let (load, share) = (
        Decimal(row.load, THOUSANDTHS, None),
        Decimal(row.share, HUNDREDTHS, None),
    );
    let over = over(row.exceeded);
    write!(
        writer,
        "<tr><td>{name}<td{over}>{load}<td>{share}<td class=\"bar\">"
    )?;
    let most = analysis.network_a.load.max(analysis.network_b.load);
    let mut bar = Parts::begin(writer, most.max(LINE_RATE), LINE_RATE)?;
    for link in analysis.links.as_slice() {
        if carries(row.net, link.plan.networks) {
            bar.fill(writer, link.load)?;
        }
    }
    bar.end(writer)?;
    let jitter = Time(row.jitter);
    write!(writer, "<td>{jitter}<td class=\"bar\">")?;
    write_jitter_bar(writer, analysis, Some(row.net))?;
    writer.write_all(b"\n")
}

/// Writes the jitter of a network, or of all links, by link.
fn write_jitter_bar<W: Write>(
    writer: &mut W,
    analysis: &Analysis,
    net: Option<Net>,
) -> io::Result<()> {
    let mut bar = Parts::begin(writer, analysis.jitter.max(JITTER_LIMIT), JITTER_LIMIT)?;
    bar.fill(writer, OWN_JITTER)?;
    for link in analysis.links.as_slice() {
        match net {
            Some(net) if !carries(net, link.plan.networks) => {}
            _ => bar.fill(writer, link.jitter)?,
        }
    }
    bar.end(writer)
}

/// Writes the table of the links.
pub(crate) fn write_links<W: Write>(writer: &mut W, links: &[LinkAnalysis]) -> io::Result<()> {
    writer.write_all(
        b"<h2>Links</h2>\n<p>A bar is the load of a link beside what its BAG allows: a whole one is a \
        frame of 1,518 bytes each BAG. Shares are of 100&nbsp;Mbit/s.</p>\n\
        <table id=\"links\">\n<thead><tr><th>link<th>BAG<th>Lmax bytes<th>sub-VLs<th>on\
        <th>load kbit/s<th>share %<th>jitter<th class=\"bar\">\n<tbody>\n",
    )?;
    for row in links {
        write_link(writer, row)?;
    }
    writer.write_all(b"</table>\n")
}

fn write_link<W: Write>(writer: &mut W, row: &LinkAnalysis) -> io::Result<()> {
    let plan = &row.plan;
    let (id, subs) = (plan.id.0, plan.sub_vls);
    let gap = Time::of_micros(plan.bag.micros());
    let lmax = Grouped(plan.lmax.bytes() as u64);
    let networks = networks_cell(plan.networks).trim();
    let (load, share) = (
        Decimal(row.load, THOUSANDTHS, None),
        Decimal(row.share, HUNDREDTHS, None),
    );
    let jitter = Time(row.jitter);
    let track = Rect("track", 0, WIDTH);
    let bar = Rect(
        "one",
        0,
        place(GREATEST_RATE / plan.bag.ms().max(1), row.load),
    );
    writeln!(
        writer,
        "<tr><td>{id}<td>{gap}<td>{lmax}<td>{subs}<td>{networks}<td>{load}<td>{share}<td>{jitter}\
        <td class=\"bar\">{DRAWING}{track}{bar}</svg>"
    )
}

/// Writes the table of the sub-VLs, with the memory of the whole end system.
pub(crate) fn write_memory<W: Write>(writer: &mut W, memory: &Memory) -> io::Result<()> {
    writer.write_all(
        b"<h2>Memory</h2>\n<p>The bytes that the end system holds. Each place of a queue has room for the greatest \
        message of its sub-VL, as have the message in transmission and each port. The ports of a sub-VL share its \
        queue: those of one partition may keep those of another from sending.",
    )?;
    if let Some(row) = &memory.large {
        let (link, sub) = (row.vl.0, row.sub);
        write!(
            writer,
            " The end system holds 64&nbsp;MiB or more: <b id=\"heaviest\">link {link} sub-VL {sub}</b> holds the most."
        )?;
    }
    writer.write_all(
        b"</p>\n<table id=\"memory\">\n<thead><tr><th>link<th>sub-VL<th>capacity<th>ports<th>partitions\
        <th>greatest<th>bytes\n\
        <tbody>\n",
    )?;
    for row in memory.subs.iter() {
        let (link, sub, capacity, ports) = (row.vl.0, row.sub, row.capacity, row.ports);
        let (over, partitions) = (over(row.partitions > 1), row.partitions);
        let (greatest, bytes) = (Grouped(row.greatest), Grouped(row.bytes));
        writeln!(
            writer,
            "<tr><td>{link}<td>{sub}<td>{capacity}<td>{ports}<td{over}>{partitions}<td>{greatest}<td>{bytes}"
        )?;
    }
    let bytes = Grouped(memory.bytes);
    writeln!(
        writer,
        "<tr><td>end system<td>–<td>–<td>–<td>–<td>–<td>{bytes}\n</table>"
    )
}
