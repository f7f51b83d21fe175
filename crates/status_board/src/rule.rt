//! The rule of a link's cell: it holds the value of one history. The writer knows the whole history, the monitor the
//! entries published before its last load.
ghost use Rattle.status_board.specs.Rule.{KeepsHistory, opener, Adds, FindsEntry, Agrees, without_reading, as_monitor, as_told, hearing, nobody};

use crate::counts::Counts;
use atomic_table::{Join, Split};
use crossbeam_utils::atomic::seq_cell::{Pass, RuledSeqCell};
use crossbeam_utils::rule::{Outcome, Protocol};
use std::collections::LinkedList;

/// The cell of a link.
pub type Cell = RuledSeqCell<Counts, View, History, 4>;

/// The knowledge of one end of the cell.
pub type Knowing = Pass<Counts, View>;

/// An entry of the history, with the number of loads that the monitor made before it. Exists only in contracts.
pub struct Stamped {
    pub counts: Counts,
    pub loads: u64,
}

/// The knowledge of a pass. Exists only in contracts.
// `history` is the part of the history that the pass knows, `loads` the number of its loads, and `heard` the part that
// another pass knew when the two were joined.
pub struct View {
    pub writes: bool,
    pub reads: bool,
    pub history: LinkedList<Stamped>,
    pub loads: u64,
    pub heard: LinkedList<Stamped>,
}

/// The rule.
pub struct History;

impl Protocol<Counts, View> for History {
    ghost holds = { KeepsHistory };

    ghost first = { opener };
}

/// The writer publishes an entry.
pub struct Publishes;

impl Outcome<Counts, View> for Publishes {
    ghost then = { Adds };
}

/// The monitor loads.
pub struct Loads;

impl Outcome<Counts, View> for Loads {
    ghost then = { FindsEntry };
}

/// The writer compares the history that it has heard with the one that it published.
pub struct Compares;

impl Outcome<Counts, View> for Compares {
    ghost then = { Agrees };
}

/// The writer makes the monitor.
pub struct Makes;

impl Split<View> for Makes {
    ghost left = { without_reading };

    ghost right = { as_monitor };
}

/// One end reports its known history, and the other hears it.
pub struct Tells;

impl Split<View> for Tells {
    ghost left = { λ v. v };

    ghost right = { as_told };
}

impl Join<View> for Tells {
    ghost both = { hearing };

    ghost spent = { nobody };
}
