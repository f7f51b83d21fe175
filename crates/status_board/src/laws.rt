//! Calls that need a board and its monitor together.
ghost use Rattle.std.specs.Prelude.{◌≡◌, ◌<◌, length, slice_set};
ghost use Rattle.status_board.specs.Views.{StartsWith, published, last_of, seen, links_of, IsReading};

use crate::board::Board;
use crate::counts::Counts;
use crate::monitor::Monitor;
use std::sync::Wait;

/// The entries of a link that the monitor has seen are a prefix of the link's history.
///
/// `Monitor::read` cannot state this, as the publishing thread owns the history. Here the caller has both ends.
pub fn seen_begins<R: Wait>(rt: &R, board: &mut Board, monitor: &mut Monitor, link: usize)
    requires published { link < length board.old }
    requires read { link < links_of monitor.old }
    requires same { (published board.old link).cell ≡ (seen monitor.old link).cell }
    ensures board { board.new ≡ board.old }
    ensures monitor { monitor.new ≡ monitor.old }
    ensures begins { StartsWith (published board.old link).history (seen monitor.old link).history }
{
    board.links[link].compare(rt, &mut monitor.links[link]);
}

/// Reads a link as `Monitor::read` does, for a caller that has both ends: one load returns the entry that was published
/// last, all zeros before the first.
///
/// Between two threads no call can state this, as neither thread knows which of them came first.
pub fn read_last<R: Wait>(rt: &R, board: &mut Board, monitor: &mut Monitor, link: usize) -> Counts
    requires published { link < length board.old }
    requires read { link < links_of monitor.old }
    requires same { (published board.old link).cell ≡ (seen monitor.old link).cell }
    ensures board { board.new ≡ board.old }
    ensures reading { IsReading (seen monitor.old link) result (seen monitor.new link) }
    ensures others { monitor.new ≡ slice_set monitor.old link (seen monitor.new link) }
    ensures links { links_of monitor.new ≡ links_of monitor.old }
    ensures whole { (seen monitor.new link).history ≡ (published board.old link).history }
    ensures last { result ≡ last_of board.old link }
{
    board.links[link].read_last(rt, &mut monitor.links[link])
}
