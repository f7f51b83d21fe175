//! Opens a board.
ghost use Rattle.std.specs.Prelude.{◌≡◌, length, IfOk};
ghost use Rattle.status_board.specs.Views.{links_of, AreNew, IsNew};

use crate::board::{Board, Writer};
use crate::counts::Counts;
use crate::monitor::{Monitor, Reader};
use crate::rule::{Cell, Makes};
use std::alloc::{AllocError, Global};
use std::sync::Arc;

/// Opens a board of `links` links on which nothing was published, and its monitor. Makes all allocations that the two
/// need.
#[tactic(auto, using(std::proofs::lemmas::Grind::common_steps))]
pub fn open_board(alloc: Global, links: usize) -> Result<(Board, Monitor), AllocError>
    ensures board { IfOk result (λ r. length r.0 ≡ links) }
    ensures monitor { IfOk result (λ r. links_of r.1 ≡ links) }
    ensures new { IfOk result (λ r. AreNew r.0 r.1) }
{
    let mut writers = Vec::with_capacity(alloc, links)?;
    let mut readers = Vec::with_capacity(alloc, links)?;
    for _ in 0..links {
        let (writer, reader) = open_link(alloc)?;
        writers.push(writer)?;
        readers.push(reader)?;
    }
    let board = Board {
        links: writers.into_boxed_slice(),
    };
    let monitor = Monitor {
        links: readers.into_boxed_slice(),
    };
    Ok((board, monitor))
}

// Returns the two ends of one link's cell.
#[tactic(auto, using(crate::proofs::Steps::parts))]
fn open_link(alloc: Global) -> Result<(Writer, Reader), AllocError>
    ensures { IfOk result (λ r. IsNew r.0 r.1) }
{
    let (cell, mut pass) = Cell::ruled(alloc, Counts::ZERO)?;
    let reading = cell.split_pass::<Makes>(&mut pass);
    let cell = Arc::new(alloc, cell)?;
    let other = Arc::try_clone(&cell)?;
    let reader = Reader {
        cell: other,
        pass: reading,
    };
    Ok((Writer { cell, pass }, reader))
}
