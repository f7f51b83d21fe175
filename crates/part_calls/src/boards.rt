//! Boards.
ghost use Rattle.std.specs.Prelude.{◌≡◌, ◌<◌, length};
ghost use Rattle.status_board.specs.Views.{NoFieldFalls, last_of, links_of};

use crate::Tried;
use status_board::{Board, Counts, Monitor, open_board};
use std::alloc::Global;
use std::sync::Wait;

/// Returns counts that are all `many`.
fn all(many: u64) -> Counts
    ensures { result ≡ record { frames = many; bytes = many; messages = many; last = many } }
{
    Counts {
        frames: many,
        bytes: many,
        messages: many,
        last: many,
    }
}

/// Publishes counts of the first link, and returns whether they are read.
fn is_read<R: Wait>(rt: &R, board: &mut Board, monitor: &mut Monitor, counts: Counts) -> bool
    requires link { 0 < length board.old }
    requires read { 0 < links_of monitor.old }
    requires rising { NoFieldFalls (last_of board.old 0) counts }
    ensures last { last_of board.new 0 ≡ counts }
    ensures links { length board.new ≡ length board.old }
    ensures monitor { links_of monitor.new ≡ links_of monitor.old }
{
    board.publish(rt, 0, counts);
    monitor.read(rt, 0) == counts
}

/// Opens the least board and the greatest, and publishes counts there, up to the greatest.
pub fn try_boards<R: Wait>(rt: &R, alloc: Global) -> Tried {
    let least = open_board(alloc, 1)?;
    let (mut board, mut monitor) = open_board(alloc, 64)?;
    drop(least);
    Ok(
        monitor.read(rt, 0) == Counts::ZERO
            && is_read(rt, &mut board, &mut monitor, all(1))
            && is_read(rt, &mut board, &mut monitor, all(1 << 32))
            && is_read(rt, &mut board, &mut monitor, all(1 << 40))
            && is_read(rt, &mut board, &mut monitor, all((1 << 40) + 1))
            && is_read(rt, &mut board, &mut monitor, all(u64::MAX - 1))
            && is_read(rt, &mut board, &mut monitor, all(u64::MAX)),
    )
}
