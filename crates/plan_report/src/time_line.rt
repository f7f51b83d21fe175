//! The picture of a longest wait: the turns of a link, from the acceptance of a message to its last fragment.
use crate::assessment::{Assessment, Row};
use crate::html::{DRAWING, Escaped, Rect, Time, WIDTH};
use crate::numbers::{Grouped, percent};
use crate::traffic::PERIOD_LIMIT;
use afdx_plan::Config;
use plan_analysis::used_sub_vls;
use std::io::{self, Write};

/// The most turns that are drawn at the begin of a wait, and at its end.
const FIRST: u64 = 12;

const LAST: u64 = 36;

/// The turns of a wait. Times are in microseconds.
#[derive(Clone, Copy)]
struct Turns {
    wait: u64,
    // the time of a turn, and the number of turns
    turn: u64,
    count: u64,
    // the turns of a round: the sub-VLs of the link that have a port
    round: u64,
    // the fragments of the message itself
    own: u64,
}

impl Turns {
    /// Returns the turns of the wait of a port.
    fn of(config: &Config, lateness: u64, row: &Row<'_>) -> Option<Turns> {
        let place = config.link_index(row.port.vl)?;
        let link = config.links().get(place)?;
        let turn = link.bag.micros().saturating_add(lateness).max(1);
        Some(Turns {
            wait: row.wait(),
            turn,
            count: row.wait().div_ceil(turn),
            round: used_sub_vls(link, config.ports()).max(1),
            own: row.port.fragments,
        })
    }

    /// Returns the number of places that are drawn. One of them stands for the turns that are left out, if any are.
    fn places(&self) -> u64 {
        self.count.min(FIRST + 1 + LAST)
    }

    /// Returns the number of turns that are left out.
    fn left_out(&self) -> u64 {
        match self.count.saturating_sub(self.places()) {
            0 => 0,
            more => more.saturating_add(1),
        }
    }

    /// Returns the number of turns after the turn at a place, or `None` if the place stands for the turns left out.
    fn after(&self, place: u64) -> Option<u64> {
        if self.left_out() > 0 && place == FIRST {
            return None;
        }
        let last = if place < FIRST {
            self.count
        } else {
            self.places()
        };
        Some(last.saturating_sub(1).saturating_sub(place))
    }

    /// Returns the class of a turn with `after` turns after it: it sends a fragment of the message, of its sub-VL
    /// before it, or of another sub-VL.
    fn class(&self, after: u64) -> &'static str {
        let round = self.round.max(1);
        if after % round != 0 {
            "track"
        } else if after / round < self.own {
            "one"
        } else {
            "two"
        }
    }
}

/// Returns the row of the port with the least slack; without deadlines, the row of the port that waits longest.
fn worst<'a>(assessment: &'a Assessment<'_>, given: usize) -> Option<Row<'a>> {
    let mut worst = None;
    let mut most = 0;
    for row in assessment.rows.iter() {
        let over = match row.demand.deadline {
            Some(deadline) => (row.wait().saturating_add(PERIOD_LIMIT)).saturating_sub(deadline),
            None if given == 0 => row.wait(),
            None => 0,
        };
        if over > most {
            most = over;
            worst = Some(*row);
        }
    }
    worst
}

/// Writes the longest wait of one port, turn by turn.
pub(crate) fn write_time_line<W: Write>(
    writer: &mut W,
    config: &Config,
    assessment: &Assessment<'_>,
) -> io::Result<()> {
    let (given, _) = assessment.deadlines();
    let Some(row) = worst(assessment, given) else {
        return Ok(());
    };
    let Some(turns) = Turns::of(config, assessment.analysis.lateness, &row) else {
        return Ok(());
    };
    let id = row.port.id.0;
    let name = Escaped(row.demand.name.as_str());
    let why = if given == 0 {
        "waits longest"
    } else {
        "has the least slack"
    };
    let turn = Time::of_micros(turns.turn);
    let round = turns.round;
    write!(
        writer,
        "<h2>The longest wait of port <span id=\"port\">{id}</span> {name}</h2>\n\
        <p>It {why}. A turn takes <span id=\"turn\">{turn}</span>, and a round <span id=\"round\">{round}</span> of \
        them: one for each sub-VL of the link that has a port. The message is accepted in the first turn, and \
        released at the end of the last.</p>\n<figure>{DRAWING}"
    )?;
    write_turns(writer, &turns)?;
    writer.write_all(b"</svg><svg class=\"axis\">")?;
    write_times(writer, &turns)?;
    writer.write_all(b"</svg>\n")?;
    write_legend(writer, &turns)
}

/// Writes a rectangle for each turn.
fn write_turns<W: Write>(writer: &mut W, turns: &Turns) -> io::Result<()> {
    let places = turns.places().max(1);
    for place in 0..places {
        if let Some(after) = turns.after(place) {
            let (start, width) = (place.saturating_mul(WIDTH), WIDTH * 86 / 100);
            let rect = Rect(turns.class(after), start / places, width / places);
            write!(writer, "{rect}")?;
        }
    }
    Ok(())
}

/// Writes the ends of a few turns.
fn write_times<W: Write>(writer: &mut W, turns: &Turns) -> io::Result<()> {
    let whole = turns.places();
    let step = (whole / 5).saturating_add(1);
    for part in 1..whole {
        if let Some(after) = turns.after(part - 1)
            && part % step == 0
        {
            let x = percent(part, whole);
            let left = after.saturating_mul(turns.turn);
            let end = Time::of_micros(turns.wait.saturating_sub(left));
            write!(writer, "<text x=\"{x}%\" y=\"11\">{end}</text>")?;
        }
    }
    Ok(())
}

/// Writes the meaning of the turns' colors, and the number of turns that aren't drawn.
fn write_legend<W: Write>(writer: &mut W, turns: &Turns) -> io::Result<()> {
    let [own, before, other] = ["one", "two", "track"].map(|class| Rect(class, 0, WIDTH));
    // (the fragments that the sub-VL sends before the message)
    let earlier = Grouped(
        turns
            .count
            .div_ceil(turns.round.max(1))
            .saturating_sub(turns.own),
    );
    write!(
        writer,
        "<figcaption><span>{DRAWING}{own}</svg>its fragments</span>\
        <span>{DRAWING}{before}</svg>fragments of its sub-VL before it: <b id=\"before\">{earlier}</b></span>"
    )?;
    if turns.round > 1 {
        write!(
            writer,
            "<span>{DRAWING}{other}</svg>turns of other sub-VLs</span>"
        )?;
    }
    if turns.left_out() > 0 {
        let left_out = Grouped(turns.left_out());
        write!(
            writer,
            "<span>turns that aren't drawn: <b id=\"left-out\">{left_out}</b></span>"
        )?;
    }
    writer.write_all(b"</figcaption></figure>\n")
}
