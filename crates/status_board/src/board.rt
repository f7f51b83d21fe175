//! The publishing end of the board, and of one link's cell.
ghost use Rattle.std.specs.Prelude.{◌≡◌, ◌<◌, length, slice_set, List, true, false};
ghost use Rattle.status_board.specs.Views.{NoFieldFalls, value_of, StartsWith, published, last_of, with_entry, IsReading, Published};
ghost use Rattle.status_board.specs.Rule.{hearing, counts_of};
ghost use Rattle.crossbeam_utils.specs.Seq.{cell_view, IsSamePass};
ghost use Rattle.std.specs.Box.{boxed_slice_items};
ghost use Rattle.std.specs.Arc.{arc_value};

use crate::counts::Counts;
use crate::monitor::Reader;
use crate::rule::{Cell, Compares, Knowing, Loads, Publishes, Tells};
use std::boxed::BoxedSlice;
use std::marker::Model;
use std::sync::{Arc, Wait};

/// The publishing end of the board. Contracts see the cell of each link, and its history.
#[derive(Drop)]
pub struct Board {
    pub(crate) links: BoxedSlice<Writer>,
}

impl Model for Board {
    ghost Value = { List Published };

    ghost view = { λ b. boxed_slice_items b.links };
}

impl Board {
    /// Adds an entry to the history of a link. No field may be below the same field of the link's last entry. May wait
    /// for a monitor that is reading this link. Does not allocate.
    #[inline(always)]
    pub fn publish<R: Wait>(&mut self, rt: &R, link: usize, counts: Counts)
        requires link { link < length self.old }
        requires rising { NoFieldFalls (last_of self.old link) counts }
        ensures adds { self.new ≡ slice_set self.old link (with_entry (published self.old link) counts) }
        ensures value { last_of self.new link ≡ counts }
        ensures links { length self.new ≡ length self.old }
    {
        self.links[link].publish(rt, counts);
    }
}

/// The publishing end of one link's cell. Contracts see the cell and the whole history.
#[derive(Drop)]
pub struct Writer {
    pub(crate) cell: Arc<Cell>,
    pub(crate) pass: Knowing,
}

impl Model for Writer {
    ghost Value = { Published };

    ghost view = { λ w. record { cell = w.pass.table_id; history = counts_of (cell_view w.pass).history } };

    ghost invariant = { λ w. (w.pass.table_id ≡ (arc_value w.cell).table.shared.table_id)
        × ((cell_view w.pass).writes ≡ true) × ((cell_view w.pass).reads ≡ false) };
}

// Tells one end of a cell the history that the other knows.
#[tactic(auto, using(crate::proofs::Steps::tells, crate::proofs::Steps::hears))]
fn tell(cell: &Cell, teller: &mut Knowing, hearer: &mut Knowing)
    requires teller { teller.old.table_id ≡ cell.now.table.shared.table_id }
    requires hearer { hearer.old.table_id ≡ cell.now.table.shared.table_id }
    ensures teller { IsSamePass teller.old teller.new × (cell_view teller.new ≡ cell_view teller.old) }
    ensures hearer { IsSamePass hearer.old hearer.new
        × (cell_view hearer.new ≡ hearing (cell_view hearer.old) (cell_view teller.old)) }
{
    let told = cell.split_pass::<Tells>(teller);
    cell.join_pass::<Tells>(hearer, told);
}

impl Writer {
    /// Adds an entry to the history.
    #[tactic(auto, using(crate::proofs::Steps::publishes))]
    #[inline(always)]
    pub fn publish<R: Wait>(&mut self, rt: &R, counts: Counts)
        requires rising { NoFieldFalls (value_of self.old.history) counts }
        ensures adds { self.new ≡ with_entry self.old counts }
        ensures value { value_of self.new.history ≡ counts }
    {
        self.cell
            .swap_as::<Publishes, R>(rt, &mut self.pass, counts);
    }

    /// Proves that the entries that a reader of the cell has seen are a prefix of the history.
    pub fn compare<R: Wait>(&mut self, rt: &R, reader: &mut Reader)
        requires same { self.old.cell ≡ reader.old.cell }
        ensures writer { self.new ≡ self.old }
        ensures reader { reader.new ≡ reader.old }
        ensures begins { StartsWith self.old.history reader.old.history }
    {
        tell(&self.cell, &mut reader.pass, &mut self.pass);
        self.cell.load_as::<Compares, R>(rt, &mut self.pass);
    }

    /// Gives a reader of the cell the whole history, and loads once, which returns the last entry.
    #[tactic(auto, using(crate::proofs::Steps::reads))]
    pub fn read_last<R: Wait>(&mut self, rt: &R, reader: &mut Reader) -> Counts
        requires same { self.old.cell ≡ reader.old.cell }
        ensures writer { self.new ≡ self.old }
        ensures reading { IsReading reader.old result reader.new }
        ensures whole { reader.new.history ≡ self.old.history }
    {
        tell(&self.cell, &mut self.pass, &mut reader.pass);
        let found = self.cell.load_as::<Loads, R>(rt, &mut reader.pass);
        self.compare(rt, reader);
        found
    }
}
