//! An analysis beside the traffic of its ports: the bounds that hold, the deadlines that are kept, the queues that
//! suffice, and a verdict; as text and as CSV.
ghost use Rattle.std.specs.Prelude.{◌≡◌, ◌≤◌, Option, Some, None, nat_lt, IfOk, IfSome, false};
ghost use Rattle.plan_report.specs.AnalysisText.{longest_wait, is_missed as is_missed_by};
ghost use Rattle.plan_analysis.specs.Traffic.{AreSendersOf, IsGoodPeriod};

use crate::html::Cell;
use crate::queues::{Judged, Queue, queues_of};
use crate::traffic::{Demand, Traffic};
use afdx_plan::{Config, PortPlan};
use csv::{Error, Writer};
use plan_analysis::{Analysis, Bound, JITTER_LIMIT, PortAnalysis, Sender};
use std::alloc::{AllocError, Global};
use std::fmt::{self, InlineText};
use std::io::{self, Write};

/// An analysis, and the traffic of its ports, in the order of the plan.
#[derive(Drop)]
pub struct Assessment<'a> {
    pub analysis: &'a Analysis,
    pub(crate) rows: Vec<Row<'a>>,
    // the sub-VLs, in the order of the plan
    pub(crate) queues: Vec<Queue<'a>>,
}

impl<'a> Assessment<'a> {
    /// Assesses the traffic of the ports, by the bounds of their sub-VLs.
    pub fn new(
        alloc: Global,
        analysis: &'a Analysis,
        traffic: &'a Traffic,
        bounds: &[Bound],
    ) -> Result<Assessment<'a>, AllocError> {
        let mut rows = Vec::with_capacity(alloc, bounds.len())?;
        let ports = analysis.ports.iter().zip(traffic.demands.iter());
        for ((port, demand), bound) in ports.zip(bounds.iter()) {
            rows.push(Row {
                port,
                demand,
                by_traffic: bound.wait(),
            })?;
        }
        Ok(Assessment {
            analysis,
            rows,
            queues: queues_of(alloc, analysis, bounds)?,
        })
    }

    /// Returns the rows of the ports, in the order of the plan.
    pub fn rows(&self) -> &[Row<'a>] {
        self.rows.as_slice()
    }

    /// Returns the queues of the sub-VLs, in the order of the plan.
    pub fn queues(&self) -> &[Queue<'a>] {
        self.queues.as_slice()
    }

    /// Returns whether a traffic text has a row.
    pub(crate) fn has_traffic(&self) -> bool {
        self.rows.iter().any(|row| row.demand.line.is_some())
    }

    /// Returns whether a port has a jitter.
    pub(crate) fn has_jitter(&self) -> bool {
        self.rows.iter().any(|row| row.demand.jitter > 0)
    }

    /// Returns the number of ports with a deadline, and the number of them that miss it.
    pub(crate) fn deadlines(&self) -> (usize, usize) {
        let given = self.rows.iter().filter(|row| row.demand.deadline.is_some());
        let missed = self.rows.iter().filter(|row| row.is_missed());
        (given.count(), missed.count())
    }

    /// Returns how many sub-VLs have ports of several partitions.
    fn shared(&self) -> usize {
        let subs = self.analysis.memory.subs.iter();
        subs.filter(|sub| sub.partitions > 1).count()
    }

    /// Returns the verdict on loads, jitter, deadlines, queues and partitions.
    pub fn verdict(&self) -> [Sentence; 5] {
        let is_over = self.analysis.network_a.exceeded || self.analysis.network_b.exceeded;
        let (given, missed) = self.deadlines();
        [
            Sentence::Limit("loads", is_over),
            Sentence::Limit("jitter", self.analysis.jitter > JITTER_LIMIT),
            Sentence::Deadlines(given, missed),
            Sentence::Queues(Judged::of(self.queues.as_slice())),
            Sentence::Partitions(self.shared()),
        ]
    }

    /// Returns whether loads, jitter and all deadlines are kept, all queues that are judged suffice, and no sub-VL has
    /// ports of several partitions.
    pub fn all_kept(&self) -> bool {
        let verdict = self.verdict();
        !verdict
            .iter()
            .any(|sentence| sentence.is_kept() == Some(false))
    }
}

/// A sentence of a verdict: whether the limit of something is exceeded, how many ports have a deadline and how many of
/// them miss it, which queues suffice, or how many sub-VLs have ports of several partitions.
#[derive(Clone, Copy)]
pub enum Sentence {
    Limit(&'static str, bool),
    Deadlines(usize, usize),
    Queues(Judged),
    Partitions(usize),
}

impl Sentence {
    /// Returns true if the sentence's limit is kept, or `None` if there is nothing to keep.
    pub(crate) fn is_kept(&self) -> Option<bool> {
        match *self {
            Sentence::Limit(_, exceeded) => Some(!exceeded),
            Sentence::Deadlines(0, _) => None,
            Sentence::Deadlines(_, missed) => Some(missed == 0),
            Sentence::Queues(judged) => judged.suffice(),
            Sentence::Partitions(shared) => Some(shared == 0),
        }
    }
}

impl fmt::Display for Sentence {
    fn fmt<W: fmt::Write>(&self, f: &mut fmt::Formatter<W>) -> fmt::Result {
        match *self {
            Sentence::Limit(what, true) => write!(f, "{what} exceeded"),
            Sentence::Limit(what, false) => write!(f, "{what} within limits"),
            Sentence::Deadlines(0, _) => f.write_str("deadlines not given"),
            Sentence::Deadlines(_, 0) => f.write_str("deadlines kept of accepted messages"),
            Sentence::Deadlines(of, missed) => write!(f, "deadlines missed: {missed} of {of}"),
            Sentence::Queues(judged) => write!(f, "{judged}"),
            Sentence::Partitions(0) => f.write_str("partitions apart"),
            Sentence::Partitions(shared) => write!(f, "sub-VLs of several partitions: {shared}"),
        }
    }
}

/// A port's waits by both bounds beside its row of the traffic text.
#[derive(Clone, Copy)]
pub struct Row<'a> {
    pub port: &'a PortAnalysis,
    pub demand: &'a Demand,
    pub by_traffic: Option<u64>,
}

impl Row<'_> {
    /// Returns the longest wait: the lesser of the two bounds.
    pub(crate) fn wait(&self) -> u64
        ensures { result ≡ longest_wait self.now.port.now.wait self.now.by_traffic }
    {
        match self.by_traffic {
            Some(wait) => wait.min(self.port.wait),
            None => self.port.wait,
        }
    }

    /// Returns the name of the bound that gives the longest wait.
    pub fn bound(&self) -> &'static str {
        match self.by_traffic {
            Some(wait) if wait < self.port.wait => "traffic",
            _ => "queue",
        }
    }

    /// Returns whether the longest wait is over the deadline.
    pub fn is_missed(&self) -> bool
        ensures { result ≡ is_missed_by self.now.port.now.wait self.now.by_traffic self.now.demand.now.deadline }
    {
        match self.demand.deadline {
            Some(deadline) => self.wait() > deadline,
            None => false,
        }
    }

    /// Returns the jitter of the port, in microseconds, if it has a period.
    pub fn jitter(&self) -> Option<u64> {
        match self.demand.period {
            Some(_) => Some(self.demand.jitter),
            None => None,
        }
    }

    /// Returns the time from the end of the longest wait to the deadline: negative if it is missed.
    pub fn slack(&self) -> Option<i128> {
        Some(self.demand.deadline? as i128 - self.wait() as i128)
    }
}

/// Returns the ports of a plan with the periods and the jitters of their traffic.
pub fn senders_of(
    alloc: Global,
    config: &Config,
    traffic: &Traffic,
) -> Result<Vec<Sender>, AllocError>
    ensures { IfOk result (λ senders. AreSendersOf config.now senders.items) }
{
    let mut senders = Vec::with_capacity(alloc, config.ports().len())?;
    let mut place = 0usize;
    for port in config.ports() {
        senders.push(sender_of(port, traffic.demands.get(place)))?;
        place = place.saturating_add(1);
    }
    Ok(senders)
}

/// Returns a port with the period and the jitter of its demand, if that has a period.
fn sender_of(port: &PortPlan, demand: Option<&Demand>) -> Sender
    ensures port { result.port ≡ port.now }
    ensures period { IsGoodPeriod result }
{
    let (period, jitter) = match demand {
        Some(
            Demand {
                period: Some(period),
                jitter,
                ..
            },
        ) if *period > 0 => (Some(*period), (*jitter).min(*period)),
        _ => (None, 0),
    };
    Sender {
        port: *port,
        period,
        jitter,
    }
}

/// Writes the verdict on a plan, one line: whether its loads and its jitter are within their limits, whether its ports
/// keep their deadlines, whether its queues suffice, and whether its sub-VLs have ports of one partition each.
pub fn write_verdict<W: Write>(writer: &mut W, assessment: &Assessment<'_>) -> io::Result<()> {
    let [loads, jitter, deadlines, queues, partitions] = assessment.verdict();
    writeln!(
        writer,
        "{loads}, {jitter}, {deadlines}, {queues}, {partitions}"
    )
}

/// Writes a table of the ports: period, deadline, the wait by the queue, the wait by traffic, which of the
/// two holds, slack, whether the deadline is missed, and the name.
pub fn write_traffic<W: Write>(writer: &mut W, assessment: &Assessment<'_>) -> io::Result<()> {
    writer.write_all(
        b" port      period-us    deadline-us  wait-queue-us wait-traffic-us   holds       slack-us missed  name\n",
    )?;
    for row in assessment.rows.iter() {
        write_row(writer, row)?;
    }
    Ok(())
}

fn write_row<W: Write>(writer: &mut W, row: &Row<'_>) -> io::Result<()> {
    let port = row.port.id.0;
    let period = Cell(row.demand.period, "-");
    let deadline = Cell(row.demand.deadline, "-");
    let by_queue = row.port.wait;
    let by_traffic = Cell(row.by_traffic, "-");
    let bound = row.bound();
    let slack = Cell(row.slack(), "-");
    let missed = missed(row, "-");
    let name = row.demand.name.as_str();
    let gap = if name.is_empty() { "" } else { "  " };
    writeln!(
        writer,
        "{port:>5}{period:>15}{deadline:>15}{by_queue:>15} {by_traffic:>15} {bound:>7}{slack:>15} {missed:>6}{gap}{name}"
    )
}

/// Returns the word `yes` if the deadline of a port is missed, otherwise `no`, or `without` if it has no deadline.
fn missed(row: &Row<'_>, without: &'static str) -> &'static str {
    match row.demand.deadline {
        Some(_) => if row.is_missed() { "yes" } else { "no" },
        None => without,
    }
}

/// The header of the rows for a spreadsheet.
const HEADER: &str =
    "port,name,link,sub_vl,fragments,period_us,deadline_us,wait_queue_us,wait_traffic_us,holds,\
    slack_us,missed,capacity,ports,greatest,bytes,need,suffices,partitions,jitter_us";

/// Writes the rows for a spreadsheet, with a header: a row for each port, a row for each sub-VL, and the memory of the
/// whole end system. A field that a row lacks is empty.
pub fn write_rows<W: Write + Drop>(
    out: &mut Writer<W>,
    assessment: &Assessment<'_>,
) -> Result<(), Error> {
    for name in HEADER.split(',') {
        put(out, name)?;
    }
    out.end_record()?;
    for row in assessment.rows.iter() {
        write_fields(out, row)?;
        skip(out, 7)?;
        put(out, Cell(row.jitter(), ""))?;
        out.end_record()?;
    }
    for queue in assessment.queues.iter() {
        write_sub(out, queue)?;
        skip(out, 1)?;
        out.end_record()?;
    }
    skip(out, 15)?;
    put(out, assessment.analysis.memory.bytes)?;
    skip(out, 4)?;
    out.end_record()?;
    out.flush()
}

fn write_fields<W: Write + Drop>(out: &mut Writer<W>, row: &Row<'_>) -> Result<(), Error> {
    put(out, row.port.id.0)?;
    out.write_field(row.demand.name.as_bytes())?;
    put(out, row.port.vl.0)?;
    put(out, row.port.sub)?;
    put(out, row.port.fragments)?;
    put(out, Cell(row.demand.period, ""))?;
    put(out, Cell(row.demand.deadline, ""))?;
    put(out, row.port.wait)?;
    put(out, Cell(row.by_traffic, ""))?;
    put(out, row.bound())?;
    put(out, Cell(row.slack(), ""))?;
    put(out, missed(row, ""))
}

/// Writes the fields of a sub-VL.
fn write_sub<W: Write + Drop>(out: &mut Writer<W>, queue: &Queue<'_>) -> Result<(), Error> {
    let row = queue.sub;
    skip(out, 2)?;
    put(out, row.vl.0)?;
    put(out, row.sub)?;
    skip(out, 8)?;
    put(out, row.capacity)?;
    put(out, row.ports)?;
    put(out, row.greatest)?;
    put(out, row.bytes)?;
    put(out, queue.need(""))?;
    put(out, queue.word(""))?;
    put(out, row.partitions)
}

/// Writes empty fields.
fn skip<W: Write + Drop>(out: &mut Writer<W>, fields: usize) -> Result<(), Error> {
    for _field in 0..fields {
        put(out, "")?;
    }
    Ok(())
}

/// Writes a field, of at most 24 bytes.
fn put<W: Write + Drop, T: fmt::Display + Drop>(
    out: &mut Writer<W>,
    field: T,
) -> Result<(), Error> {
    out.write_field(InlineText::<24>::of(field).as_str().as_bytes())
}
