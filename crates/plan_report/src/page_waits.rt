//! The table of the ports of a page, with bars of their waits on a logarithmic scale.
use crate::assessment::{Assessment, Row};
use crate::html::{DRAWING, Escaped, Rect, Time, WIDTH, mark, micros};
use crate::numbers::{Decimal, THOUSANDTHS, percent};
use crate::page_loads::over;
use std::fmt;
use std::io::{self, Write};

/// The bits after the binary point of a logarithm.
const PRECISION: u32 = 16;

/// The most labels of an axis.
const LABELS: u64 = 4;

/// The premise of the waits by traffic, and the messages without a wait.
const PREMISE: &str =
    " The wait by traffic holds if two messages of a port are at least its period apart. A message \
    that a full queue refuses has no wait.";

/// The premise if a port has a jitter.
const WITH_JITTER: &str =
    " The wait by traffic holds if a port's messages are planned at least its period apart, and each one \
    is accepted at most the port's jitter after its planned time. A message that a full queue refuses has no wait.";

/// Writes the table of the ports: the columns of a traffic text only if there is one.
pub(crate) fn write_waits<W: Write>(writer: &mut W, assessment: &Assessment<'_>) -> io::Result<()> {
    let scale = Scale::of(assessment);
    let decades = scale.decades;
    let (premise, class, name, columns) = if assessment.has_traffic() {
        let premise = if assessment.has_jitter() {
            WITH_JITTER
        } else {
            PREMISE
        };
        (
            premise,
            "with",
            "<th class=\"name\">name",
            "<th>period<th>deadline<th>wait by queue<th>by traffic<th>slack",
        )
    } else {
        ("", "without", "", "<th>wait")
    };
    writeln!(
        writer,
        "<h2>Waits</h2>\n<p>The longest time from the acceptance of a message to the release of its last \
        fragment, whatever the other ports send, while polls come and no sender is stopped in the middle of \
        a send.{premise} The scale is logarithmic. The light end of a bar is what traffic takes off the wait by the \
        queue; the mark is the deadline.</p>\n\
        <table id=\"ports\" class=\"{class}\" style=\"--decades:{decades}\">\n\
        <thead><tr><th>port{name}<th>link<th>sub-VL<th>fragments<th>messages/<wbr>s{columns}\
        <th class=\"bar\">{scale}\n<tbody>"
    )?;
    for row in assessment.rows.iter() {
        write_port(writer, row, scale, assessment.has_traffic())?;
    }
    writer.write_all(b"</table>\n")
}

/// Writes the cells of a port's traffic: its period and deadline, both waits, and the slack.
fn write_times<W: Write>(writer: &mut W, row: &Row<'_>) -> io::Result<()> {
    let period = micros(row.demand.period);
    let deadline = micros(row.demand.deadline);
    let queue = Time::of_micros(row.port.wait);
    let traffic = micros(row.by_traffic);
    let over = over(row.is_missed());
    let minus = if row.is_missed() { "−" } else { "" };
    let deadline_of = row.demand.deadline;
    let slack = micros(deadline_of.map(|deadline| deadline.abs_diff(row.wait())));
    write!(
        writer,
        "<td>{period}<td>{deadline}<td>{queue}<td>{traffic}<td{over}>{minus}{slack}"
    )
}

/// Writes the row of a port. Its bar has the wait by the queue, the less of the waits over that, and the deadline.
fn write_port<W: Write>(
    writer: &mut W,
    row: &Row<'_>,
    scale: Scale,
    has_traffic: bool,
) -> io::Result<()> {
    let port = row.port;
    let id = port.id.0;
    write!(writer, "<tr><td>{id}")?;
    if has_traffic {
        let name = Escaped(row.demand.name.as_str());
        write!(writer, "<td class=\"name\">{name}")?;
    }
    let (link, sub, fragments) = (port.vl.0, port.sub, port.fragments);
    let rate = Decimal(port.sustained, THOUSANDTHS, None);
    write!(writer, "<td>{link}<td>{sub}<td>{fragments}<td>{rate}")?;
    if has_traffic {
        write_times(writer, row)?;
    } else {
        let queue = Time::of_micros(port.wait);
        write!(writer, "<td>{queue}")?;
    }
    let by_queue = Rect("two", 0, scale.place(port.wait));
    let wait = Rect("one", 0, scale.place(row.wait()));
    write!(writer, "<td class=\"bar\">{DRAWING}{by_queue}{wait}")?;
    if let Some(deadline) = row.demand.deadline {
        let mark = mark(scale.place(deadline));
        write!(writer, "{mark}")?;
    }
    writer.write_all(b"</svg>\n")
}

/// Returns the logarithm of a number to base 2, with `PRECISION` bits after the point: each squaring of the number over
/// its power of two gives a bit.
fn log2(value: u64) -> u64 {
    let value = value.max(1);
    let whole = value.ilog2();
    let mut scaled = value.wrapping_shl(63u32.saturating_sub(whole)) / 4_294_967_296;
    let mut log = whole as u64;
    for _bit in 0..PRECISION {
        scaled = scaled.wrapping_mul(scaled) / 2_147_483_648;
        log = log.saturating_mul(2);
        if scaled >= 4_294_967_296 {
            scaled /= 2;
            log = log.saturating_add(1);
        }
    }
    log
}

/// A scale of times, from a power of ten below each of them to one that none is above. `Display` prints its axis:
/// labels of decades.
#[derive(Clone, Copy)]
struct Scale {
    // the time at its start, in nanoseconds
    low: u64,
    decades: u64,
}

impl Scale {
    /// Returns the scale of all waits and deadlines.
    fn of(assessment: &Assessment<'_>) -> Scale {
        let (mut least, mut most) = (u64::MAX, 0);
        for row in assessment.rows.iter() {
            let deadline = row.demand.deadline.unwrap_or(row.wait());
            least = least.min(row.wait()).min(deadline);
            most = row.port.wait.max(deadline).max(most);
        }
        let (least, most) = (least.saturating_mul(1_000), most.saturating_mul(1_000));
        let mut low = 1u64;
        for _power in 0..19 {
            let next = low.saturating_mul(10);
            if next < least {
                low = next;
            }
        }
        let mut high = low;
        let mut decades = 0u64;
        for _power in 0..19 {
            if high < most {
                high = high.saturating_mul(10);
                decades = decades.saturating_add(1);
            }
        }
        Scale { low, decades }
    }

    /// Returns the position of a time in microseconds.
    fn place(&self, micros: u64) -> u64 {
        let log = log2(micros.saturating_mul(1_000)).saturating_sub(log2(self.low));
        let ten = log2(1_000_000_000_000_000_000);
        let whole = self.decades.max(1).saturating_mul(ten);
        log.saturating_mul(18).saturating_mul(WIDTH) / whole.max(1)
    }
}

impl fmt::Display for Scale {
    fn fmt<W: fmt::Write>(&self, f: &mut fmt::Formatter<W>) -> fmt::Result {
        let whole = self.decades;
        let step = whole.saturating_add(LABELS - 1) / LABELS;
        let mut value = self.low;
        f.write_str("<svg class=\"axis\">")?;
        for part in 0..whole {
            if part % step.max(1) == 0 && part.saturating_add(step) <= whole {
                let x = percent(part, whole);
                let time = Time(value);
                write!(f, "<text x=\"{x}%\" y=\"11\">{time}</text>")?;
            }
            value = value.saturating_mul(10);
        }
        f.write_str("</svg>")
    }
}
