//! The reading end of the board, and of one link's cell.
ghost use Rattle.std.specs.Prelude.{◌≡◌, ◌<◌, slice_set, List, true};
ghost use Rattle.status_board.specs.Views.{seen, links_of, IsReading, Watched};
ghost use Rattle.std.specs.Box.{boxed_slice_items};
ghost use Rattle.std.specs.Arc.{arc_value};
ghost use Rattle.crossbeam_utils.specs.Seq.{cell_view};
ghost use Rattle.status_board.specs.Rule.{counts_of};

use crate::counts::Counts;
use crate::rule::{Cell, Knowing, Loads};
use std::boxed::BoxedSlice;
use std::marker::Model;
use std::sync::{Arc, Wait};

/// The reading end of the board, for any thread. Contracts see the cell of each link, the seen part of its history, and
/// the number of loads.
#[derive(Drop)]
pub struct Monitor {
    pub(crate) links: BoxedSlice<Reader>,
}

impl Model for Monitor {
    ghost Value = { List Watched };

    ghost view = { λ m. boxed_slice_items m.links };
}

impl Monitor {
    /// Reads a link by one load: the last entry of its history as published so far, which begins with all that this
    /// monitor has seen before. All zeros before the first entry. May wait for a `publish` on this link. Does not
    /// allocate.
    #[inline(always)]
    pub fn read<R: Wait>(&mut self, rt: &R, link: usize) -> Counts
        requires { link < links_of self.old }
        ensures reading { IsReading (seen self.old link) result (seen self.new link) }
        ensures others { self.new ≡ slice_set self.old link (seen self.new link) }
        ensures links { links_of self.new ≡ links_of self.old }
    {
        self.links[link].read(rt)
    }
}

/// The reading end of one link's cell. Contracts see the cell, the seen part of the history, and the number of loads.
#[derive(Drop)]
pub struct Reader {
    pub(crate) cell: Arc<Cell>,
    pub(crate) pass: Knowing,
}

impl Model for Reader {
    ghost Value = { Watched };

    ghost view = { λ r. record {
      cell = r.pass.table_id;
      history = counts_of (cell_view r.pass).history;
      loads = (cell_view r.pass).loads;
    } };

    ghost invariant = { λ r. (r.pass.table_id ≡ (arc_value r.cell).table.shared.table_id)
        × ((cell_view r.pass).reads ≡ true) };
}

impl Reader {
    /// Loads once.
    #[tactic(auto, using(crate::proofs::Steps::reads))]
    #[inline(always)]
    pub fn read<R: Wait>(&mut self, rt: &R) -> Counts
        ensures { IsReading self.old result self.new }
    {
        self.cell.load_as::<Loads, R>(rt, &mut self.pass)
    }
}
