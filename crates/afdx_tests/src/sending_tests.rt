//! A test of a port that sends lists from a thread of its own while the emitter is polled.
use crate::rig::*;
use crate::testing::*;
use afdx_tx::{Refusal, TxPort};
use redundant_mux::MemNetwork;
use std::thread;

// The number of messages. Each has one byte, its number.
const MESSAGES: u8 = 100;

// The greatest number of times that a thread tries.
const TRIES: u64 = 100_000_000;

// Sends a message. If it is refused, sends the list that came back. Returns whether it was accepted in the end.
fn send_on(rt: &impl Host, port: &mut TxPort, message: Vec<u8>) -> bool {
    let mut message = message;
    for _try in 0..TRIES {
        let Err(fault) = port.send(message) else {
            return true;
        };
        assert_same(rt, fault.why, Refusal::Full);
        message = fault.bytes;
        thread::yield_now();
    }
    false
}

fn send_all(rt: &impl Host, port: &mut TxPort) -> bool {
    for number in 0..MESSAGES {
        let message = vec![in rt.alloc(); number].expect(rt, "memory");
        if !send_on(rt, port, message) {
            return false;
        }
    }
    true
}

// Polls, a gap apart, until all messages are released. Returns whether they are.
fn poll_all(rt: &impl Host, rig: &mut Rig<MemNetwork>) -> bool {
    let mut left = usize::from(MESSAGES);
    for _try in 0..TRIES {
        let now = rig.tx.now().saturating_add(GAP);
        let report = rig.poll(rt, now).expect(rt, "both networks are up");
        left = left.saturating_sub(report.released.len());
        if left == 0 {
            return true;
        }
        thread::yield_now();
    }
    false
}

#[test]
fn lists_that_a_full_queue_returns_are_sent_in_order_by_another_thread(rt: HostRuntime) {
    let mut rig = open(&rt, DEMO, (NEVER, NEVER));
    let mut port = rig.take_first(&rt);
    let done = thread::join(&rt, || send_all(&rt, &mut port), || poll_all(&rt, &mut rig));
    assert_same(&rt, done, (true, true));
    assert_same(&rt, port.accepted(), u64::from(MESSAGES));
    let handed = rig.tx.network_b().handed();
    assert_same(&rt, handed.len(), usize::from(MESSAGES));
    for (number, entry) in (0..MESSAGES).zip(handed) {
        assert_same(&rt, entry.frame.get(42).copied(), Some(number));
    }
    drop((rig, port));
}
