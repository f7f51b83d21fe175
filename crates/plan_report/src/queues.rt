//! The places that the traffic of each sub-VL needs, beside the capacity of its queue: a verdict, and tables.
ghost use Rattle.std.specs.Prelude.{◌≡◌};
ghost use Rattle.plan_report.specs.Queues.{suffices as suffices_for};

use crate::assessment::Assessment;
use crate::html::Cell;
use crate::page_loads::over;
use plan_analysis::{Analysis, Bound, SubRow};
use std::alloc::{AllocError, Global};
use std::fmt;
use std::io::{self, Write};

/// A sub-VL, and its bound by its traffic: nothing if it has no port.
#[derive(Clone, Copy)]
pub struct Queue<'a> {
    pub sub: &'a SubRow,
    pub bound: Option<Bound>,
}

impl Queue<'_> {
    /// Returns whether it never refuses a message as full. `None` if that isn't judged: a port has no period, or there
    /// is none.
    pub fn suffices(&self) -> Option<bool>
        ensures { result ≡ suffices_for self.now.sub.now.capacity self.now.bound }
    {
        match self.bound {
            None | Some(Bound::NoPeriod) => None,
            Some(Bound::Found(worst)) => Some(worst.need <= self.sub.capacity),
            Some(Bound::Overloaded) | Some(Bound::TooLong) => Some(false),
        }
    }

    /// Returns the places that it needs, a word if no number is known, and `without` if it isn't judged.
    pub(crate) fn need(&self, without: &'static str) -> Cell<u64> {
        match self.bound {
            None | Some(Bound::NoPeriod) => Cell(None, without),
            Some(Bound::Found(worst)) => Cell(Some(worst.need), without),
            Some(Bound::Overloaded) => Cell(None, "overloaded"),
            Some(Bound::TooLong) => Cell(None, "unknown"),
        }
    }

    /// Returns whether it suffices, in a word.
    pub(crate) fn word(&self, without: &'static str) -> &'static str {
        match self.suffices() {
            Some(true) => "yes",
            Some(false) => "no",
            None => without,
        }
    }
}

/// Lists the sub-VLs of an analysis, with the bounds of its ports in their order. Fails only if an allocation fails.
pub(crate) fn queues_of<'a>(
    alloc: Global,
    analysis: &'a Analysis,
    bounds: &[Bound],
) -> Result<Vec<Queue<'a>>, AllocError> {
    let mut queues = Vec::with_capacity(alloc, analysis.memory.subs.len())?;
    for sub in analysis.memory.subs.iter() {
        queues.push(Queue {
            sub,
            bound: bound_on(analysis, bounds, sub),
        })?;
    }
    Ok(queues)
}

/// Returns the bound of the first port of a sub-VL.
fn bound_on(analysis: &Analysis, bounds: &[Bound], sub: &SubRow) -> Option<Bound> {
    let mut ports = analysis.ports.iter();
    let place = ports.position(|port| port.vl.0 == sub.vl.0 && port.sub == sub.sub)?;
    bounds.get(place).copied()
}

/// The numbers of sub-VLs with a port, of judged ones among them, of queues that may get full, and of overloaded ones.
/// `Display` prints the sentence of a verdict.
#[derive(Clone, Copy)]
pub struct Judged {
    used: usize,
    judged: usize,
    full: usize,
    overloaded: usize,
}

impl Judged {
    /// Counts the queues of an assessment.
    pub(crate) fn of(queues: &[Queue<'_>]) -> Judged {
        let judged = queues.iter().filter(|queue| queue.suffices().is_some());
        let full = queues
            .iter()
            .filter(|queue| queue.suffices() == Some(false));
        let overloaded = queues
            .iter()
            .filter(|queue| queue.bound == Some(Bound::Overloaded));
        Judged {
            used: queues.iter().filter(|queue| queue.bound.is_some()).count(),
            judged: judged.count(),
            full: full.count(),
            overloaded: overloaded.count(),
        }
    }

    /// Returns true if all judged queues suffice, or `None` if none is judged.
    pub(crate) fn suffice(&self) -> Option<bool> {
        match self.judged {
            0 => None,
            _ => Some(self.full == 0),
        }
    }
}

impl fmt::Display for Judged {
    fn fmt<W: fmt::Write>(&self, f: &mut fmt::Formatter<W>) -> fmt::Result {
        let Judged {
            used,
            judged,
            full,
            overloaded,
        } = *self;
        match self.suffice() {
            None => return f.write_str("queues not judged"),
            Some(true) => f.write_str("queues suffice")?,
            Some(false) => write!(f, "queues may get full: {full} of {used}")?,
        }
        if overloaded > 0 {
            write!(f, "; overloaded: {overloaded}")?;
        }
        if judged < used {
            let others = used.saturating_sub(judged);
            write!(f, "; not judged: {others}")?;
        }
        Ok(())
    }
}

/// Writes a table of the sub-VLs: the capacity of the queue, the places that its traffic needs, and whether it
/// suffices.
pub fn write_queues<W: Write>(writer: &mut W, assessment: &Assessment<'_>) -> io::Result<()> {
    writer.write_all(b" link sub capacity       need suffices\n")?;
    for queue in assessment.queues.iter() {
        let (link, sub, capacity) = (queue.sub.vl.0, queue.sub.sub, queue.sub.capacity);
        let need = queue.need("-");
        let word = queue.word("-");
        writeln!(writer, "{link:>5}{sub:>4}{capacity:>9}{need:>11} {word:>8}")?;
    }
    Ok(())
}

/// Writes the table of the sub-VLs' queues for a page.
pub(crate) fn write_queue_table<W: Write>(
    writer: &mut W,
    assessment: &Assessment<'_>,
) -> io::Result<()> {
    let kept = if assessment.has_jitter() {
        "the messages of a port are planned at least its period apart, each one is accepted at most the port's jitter \
        after its planned time"
    } else {
        "two messages of a port are at least its period apart"
    };
    write!(
        writer,
        "<h2>Queues</h2>\n<p>The places that a queue needs, so that it never refuses a message as full, if \
        {kept}, each port sends in one thread, and polls come. The ports \
        of a sub-VL that is overloaded send more than its link carries.</p>\n\
        <table id=\"queues\">\n<thead><tr><th>link<th>sub-VL<th>capacity<th>need<th>suffices\n<tbody>\n"
    )?;
    for queue in assessment.queues.iter() {
        let (link, sub, capacity) = (queue.sub.vl.0, queue.sub.sub, queue.sub.capacity);
        let over = over(queue.suffices() == Some(false));
        let need = queue.need("–");
        let word = queue.word("–");
        writeln!(
            writer,
            "<tr><td>{link}<td>{sub}<td>{capacity}<td{over}>{need}<td>{word}"
        )?;
    }
    writer.write_all(b"</table>\n")
}
