//! A test of a monitor that reads in a thread of its own while the emitter polls and publishes.
ghost use Rattle.std.specs.Prelude.{◌≤◌};
ghost use Rattle.status_board.specs.Views.{links_of};

use crate::rig::*;
use crate::testing::*;
use afdx_tx::{Emitter, TxPort};
use redundant_mux::MemNetwork;
use status_board::{Counts, Monitor};
use std::sync::Wait;
use std::thread;

// The place of the last link of the greatest plan.
const LAST: usize = 63;

// The number of messages that the ports of the first and the last link send each.
const MESSAGES: u64 = 10_000;

// Returns the text of 64 links. The first and the last have a port each.
fn greatest_text(rt: &impl Host) -> String {
    let mut text = text_of(rt, (&[], &[]));
    for vl in 0..64 {
        push_link(rt, &mut text, &(vl, "both", 1, 64, 1, 2));
    }
    for &vl in &[0, 63] {
        push_port(rt, &mut text, &(vl, vl, 0, 1, 8_192));
    }
    text
}

// Returns true if the counts belong to one entry: each frame of 60 bytes has a message of its own, a gap after the
// frame before.
fn is_whole(found: Counts) -> bool {
    let frames = found.frames;
    frames <= MESSAGES
        && (found.bytes, found.messages, found.last) == (60 * frames, frames, GAP * frames)
}

// Reads the last link and then the first one, which has as many frames at each poll and is published before it, until
// all frames of the last are counted. Returns whether each reading was whole, none was older than the one before, and
// the first link never had fewer frames.
fn watch<R: Wait>(rt: &R, mut monitor: Monitor) -> bool
    requires { 64 ≤ links_of monitor }
{
    let mut frames = 0;
    for _ in rt.forever() {
        let last = monitor.read(rt, LAST);
        let first = monitor.read(rt, 0);
        let are_whole = is_whole(last) && is_whole(first);
        if !are_whole || last.frames < frames || first.frames < last.frames {
            return false;
        }
        if last.frames == MESSAGES {
            return true;
        }
        frames = last.frames;
        thread::yield_now();
    }
    unreachable!()
}

// Sends a message of each port, which a poll releases a gap after the last one, and publishes the counts.
fn send_and_publish(
    rt: &impl Host,
    tx: &mut Emitter<MemNetwork, MemNetwork>,
    ports: &mut [TxPort],
) {
    for port in ports.iter_mut() {
        assert!(rt; port.send_slice(&[7]).is_ok());
    }
    let now = tx.now().saturating_add(GAP);
    let report = tx.poll(now).expect(rt, "both networks are up");
    assert_same(rt, report.released.len(), 2);
    tx.publish(rt);
}

#[test]
fn a_watcher_reads_whole_counts_in_the_order_in_which_they_are_published(rt: HostRuntime) {
    let (a, b) = (MemNetwork::new(rt.alloc()), MemNetwork::new(rt.alloc()));
    let rig = open_over(&rt, greatest_text(&rt), a, b);
    let (mut tx, mut ports, monitor) = (rig.tx, rig.ports, rig.monitor);
    assert!(rt; LAST < tx.config().links().len());
    let watcher = thread::spawn(&rt, move || watch(&rt, monitor)).expect(&rt, "a thread");
    for _message in 0..MESSAGES {
        send_and_publish(&rt, &mut tx, ports.as_mut_slice());
    }
    assert_same(&rt, watcher.join(&rt), true);
    drop((tx, ports));
}
