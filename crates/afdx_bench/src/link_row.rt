//! The row of a link on a network: what was counted of its frames, and what follows of that.
use crate::findings::network_name;
use crate::hearing::figures_of;
use afdx_frame::Net;
use afdx_plan::LinkPlan;
use judge::{Figures, Judge};
use plan_report::Cell;
use std::fmt;
use std::io::{self, Write};

// The bytes on the wire beside a frame that was recorded without its check sequence: that, and as for the loads of
// `report` the preamble, the start delimiter and the gap.
const BESIDE: u128 = 4 + AROUND;

const AROUND: u128 = 20;

/// A share in hundredths of a percent. `Display` prints it in percent.
#[derive(Clone, Copy)]
pub struct Share(pub u64);

impl fmt::Display for Share {
    fn fmt<W: fmt::Write>(&self, f: &mut fmt::Formatter<W>) -> fmt::Result {
        let (whole, rest) = (self.0 / 100, self.0 % 100);
        write!(f, "{whole}.{rest:02}")
    }
}

/// A link's row on a network. All times are in nanoseconds.
#[derive(Clone, Copy)]
pub struct LinkRow {
    pub link: LinkPlan,
    pub net: Net,
    pub figures: Figures,
    pub bag: u64,
    /// The greatest time between a frame and its twin.
    pub lead: Option<u128>,
    pub mean_gap: Option<u128>,
    pub mean_lead: Option<u128>,
    /// The share of its bandwidth that the link used, if the network was recorded.
    pub used: Option<Share>,
}

impl LinkRow {
    /// Returns the row of the link at a place on a network, if that carries it.
    pub fn of(judge: &Judge, place: usize, link: &LinkPlan, net: Net) -> Option<LinkRow> {
        let figures = figures_of(judge, place, link, net)?;
        let recorded = judge.recorded_for(net);
        Some(LinkRow {
            link: *link,
            net,
            figures,
            bag: link.bag.ms().saturating_mul(1_000_000),
            lead: judge.lead(place),
            mean_gap: figures.gaps.mean(),
            mean_lead: judge.leads(place)?.mean(),
            used: recorded.map(|time| used(link, &figures, time)),
        })
    }
}

/// Returns the share of its bandwidth that a link used while its network was recorded, rounded up: the bytes that its
/// frames took on the wire, by the bytes that frames of Lmax take if one is sent at the start and one after each BAG.
fn used(link: &LinkPlan, figures: &Figures, recorded: u128) -> Share {
    let around = BESIDE.saturating_mul(figures.frames as u128);
    let sent = around.saturating_add(figures.bytes as u128);
    let bag = link.bag.ms().saturating_mul(1_000_000).max(1) as u128;
    let places = (recorded / bag).saturating_add(1);
    let most = places.saturating_mul(AROUND + link.lmax.bytes() as u128);
    let parts = sent.saturating_mul(10_000).div_ceil(most.max(1));
    Share(parts.min(u64::MAX as u128) as u64)
}

/// Writes the rows of a plan, with a header.
pub fn write_table<W: Write>(writer: &mut W, judge: &Judge) -> io::Result<()> {
    writer.write_all(
        b" link net      frames         bytes    messages      bag-ns   least-gap-ns     lead-ns\
        \x20 greatest-gap-ns    mean-gap-ns  mean-lead-ns    used-%\n",
    )?;
    for (place, link) in judge.config().links().iter().enumerate() {
        for net in [Net::A, Net::B] {
            if let Some(row) = LinkRow::of(judge, place, link, net) {
                write_row(writer, &row)?;
            }
        }
    }
    Ok(())
}

fn write_row<W: Write>(writer: &mut W, row: &LinkRow) -> io::Result<()> {
    let (id, network, bag) = (row.link.id.0, network_name(row.net), row.bag);
    let figures = &row.figures;
    let (frames, bytes, messages) = (figures.frames, figures.bytes, figures.messages);
    let (least, lead) = (Cell(figures.least_gap, "-"), Cell(row.lead, "-"));
    let (greatest, mean) = (Cell(figures.greatest_gap, "-"), Cell(row.mean_gap, "-"));
    let mean_lead = Cell(row.mean_lead, "-");
    write!(
        writer,
        "{id:>5}{network:>4}{frames:>12}{bytes:>14}{messages:>12}{bag:>12}{least:>15}{lead:>12}\
        {greatest:>17}{mean:>15}{mean_lead:>14}"
    )?;
    match row.used {
        Some(Share(parts)) => writeln!(writer, "{:>7}.{:02}", parts / 100, parts % 100),
        None => writeln!(writer, "{:>10}", "-"),
    }
}
