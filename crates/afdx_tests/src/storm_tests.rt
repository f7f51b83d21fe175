//! Storms whose threads are held by a gate, and storms over networks that fail. A run of the program tests the open
//! gate.
use crate::gates::{Holding, Until};
use crate::testing::*;
use redundant_mux::MemNetwork;
use storm::{OpenGate, StormFault, StormReport, storm, storm_over};

// Two ports on each of the two sub-VLs of a link.
const SMALL: Plan = (
    &[(1, "both", 1, 1_518, 2, 256)],
    &[
        (1, 1, 0, 1, 64),
        (2, 1, 0, 2, 64),
        (3, 1, 1, 3, 64),
        (4, 1, 1, 4, 64),
    ],
);

// A link with the greatest gap, and a port or two.
const ONE_PORT: Plan = (&[(1, "both", 128, 64, 1, 256)], &[(1, 1, 0, 1, 6)]);

const TWO_PORTS: Plan = (
    &[(1, "both", 128, 64, 1, 256)],
    &[(1, 1, 0, 1, 6), (2, 1, 0, 2, 6)],
);

// Link 5 with the greatest gap and a port, and after it link 2 with the least gap and two ports.
const TWO_LINKS: Plan = (
    &[(5, "both", 128, 64, 1, 256), (2, "both", 1, 64, 1, 256)],
    &[(1, 5, 0, 1, 6), (2, 2, 0, 2, 6), (3, 2, 0, 3, 6)],
);

// Link 1 on both networks and link 2 on network A alone, with a port each.
const WITH_LINK_ON_A: Plan = (
    &[(1, "both", 1, 64, 1, 16), (2, "a", 1, 64, 1, 16)],
    &[(1, 1, 0, 1, 6), (2, 2, 0, 2, 6)],
);

/// The result of a storm.
type Ended = Result<StormReport, StormFault>;

/// The numbers of A's and of B's frames, and whether the two are equal.
type Networks = (usize, usize, bool);

// Asserts the end of a storm in which each port sends `messages` messages of a frame. If it ended well, all were
// accepted, and are counted by link.
fn assert_ended(
    rt: &impl Abort,
    ended: &Ended,
    (links, ports): Plan,
    messages: u64,
    wanted: Result<Networks, StormFault>,
) {
    let report = match ended {
        Ok(report) => report,
        Err(fault) => return assert_same(rt, Err(*fault), wanted),
    };
    let (a, b) = (report.a.handed().len(), report.b.handed().len());
    assert_same(rt, Ok((a, b, report.equal)), wanted);
    let accepted = messages.saturating_mul(ports.len() as u64);
    assert_same(rt, (report.accepted, report.back), (accepted, false));
    assert_same(rt, report.links.len(), links.len());
    for (counts, link) in report.links.iter().zip(links) {
        let mut sent = 0u64;
        for port in ports {
            sent = sent.saturating_add(if port.1 == link.0 { messages } else { 0 });
        }
        let told = (counts.frames, counts.bytes, counts.messages);
        assert_same(rt, told, (sent, sent.saturating_mul(60), sent));
    }
}

/// A plan, the event that its workers wait for, the number of messages of each port, and the number of times that each
/// thread may try; true if that is enough; the number of accepted messages, and, if the workers wait for all polls of
/// the main thread, the number of its polls.
type Held = (Plan, Until, (u16, u64), bool, u64, Option<u64>);

static HELD: [Held; 9] = [
    // all workers run at once
    (SMALL, Until::Entered(4), (100, 1_000), true, 400, None),
    // a gate that refuses ends its worker and no other
    (
        SMALL,
        Until::Never { worker: 2, call: 3 },
        (10, 1_000),
        false,
        32,
        None,
    ),
    // Each frame is left for the drain, which polls once for each.
    (TWO_PORTS, Until::Polled(6), (3, 6), true, 6, Some(12)),
    (TWO_PORTS, Until::Polled(5), (3, 5), false, 6, Some(10)),
    (
        ONE_PORT,
        Until::Polled(150_000),
        (1, 150_000),
        true,
        1,
        Some(150_001),
    ),
    // The drain may poll for all that is left, so the turns that end are the worker's.
    (ONE_PORT, Until::Released(4), (4, 4), true, 4, None),
    (ONE_PORT, Until::Released(5), (5, 4), false, 4, None),
    // a gate is asked before each send, and called after it
    (ONE_PORT, Until::Followed, (10, 100_000_000), true, 10, None),
    // the watcher reads each link while the emitter is polled
    (
        TWO_LINKS,
        Until::Read(50),
        (50, 100_000_000),
        true,
        150,
        None,
    ),
];

// Asserts the numbers of a gate's calls in a storm: the watcher reads each link as often as a port sends.
fn assert_calls(rt: &impl Abort, gate: &Holding, held: &Held) {
    let &((links, _), until, (messages, _), _, accepted, polls) = held;
    let messages = u64::from(messages);
    let others = messages.saturating_mul((links.len() as u64).saturating_sub(1));
    let calls = (gate.accepted.get(), gate.first.get(), gate.others.get());
    assert_same(rt, calls, (accepted, messages, others));
    let followed = if until == Until::Followed {
        2 * messages
    } else {
        0
    };
    assert_same(rt, (gate.followed.get(), gate.wrong.get()), (followed, 0));
    assert_same(rt, polls.unwrap_or(gate.polls.get()), gate.polls.get());
}

// Asserts that polls are 128,000 us apart, if all frames are left for the drain, and all polls before it are used up.
fn assert_times(rt: &impl Abort, report: &StormReport, &(.., (_, turns), _, _, polls): &Held) {
    if polls.is_none() {
        return;
    }
    let mut poll = turns;
    for entry in report.a.handed() {
        assert_same(rt, entry.at, poll.saturating_mul(128_000));
        poll = poll.saturating_add(1);
    }
}

#[test]
fn threads_that_a_gate_holds_try_as_often_as_they_may_and_polls_go_on(rt: HostRuntime) {
    for held in &HELD {
        let &(plan, until, (messages, turns), is_enough, accepted, _) = held;
        let gate = Holding::until(until);
        let config = config_of(&rt, text_of(&rt, plan));
        assert!(rt; 1 <= messages && 1 <= turns && turns <= 1_000_000_000);
        let ended = storm(&rt, rt.alloc(), config, u32::from(messages), turns, &gate);
        let all = accepted as usize;
        let wanted = if is_enough {
            Ok((all, all, true))
        } else {
            Err(StormFault::Turns)
        };
        assert_ended(&rt, &ended, plan, u64::from(messages), wanted);
        assert_calls(&rt, &gate, held);
        if let Ok(report) = &ended {
            assert_times(&rt, report, held);
        }
        drop((ended, gate));
    }
}

/// A plan, the number of messages of each port, the hands at which A and B fail, and the end of the storm.
type Failing = (Plan, u16, (u64, u64), Result<Networks, StormFault>);

static FAILING: [Failing; 9] = [
    // a network that fails in the middle is abandoned
    (SMALL, 100, (200, NEVER), Ok((199, 400, false))),
    (SMALL, 100, (NEVER, 400), Ok((400, 399, false))),
    // no storm ends well if both networks fail
    (SMALL, 100, (1, 1), Err(StormFault::Memory)),
    (SMALL, 100, (200, 200), Err(StormFault::Memory)),
    (SMALL, 100, (1, 400), Err(StormFault::Memory)),
    (SMALL, 100, (400, 1), Err(StormFault::Memory)),
    // networks are compared over the links on both
    (WITH_LINK_ON_A, 10, (NEVER, NEVER), Ok((20, 10, true))),
    (WITH_LINK_ON_A, 10, (NEVER, 1), Ok((20, 0, false))),
    // a link whose one network failed uses up the turns
    (WITH_LINK_ON_A, 10, (1, NEVER), Err(StormFault::Turns)),
];

#[test]
fn a_storm_over_networks_that_fail_goes_on_with_the_other(rt: HostRuntime) {
    let alloc = rt.alloc();
    for &(plan, messages, fails, wanted) in &FAILING {
        let config = config_of(&rt, text_of(&rt, plan));
        let a = MemNetwork::failing_at(alloc, fails.0);
        let b = MemNetwork::failing_at(alloc, fails.1);
        assert!(rt; 1 <= messages);
        let many = u32::from(messages);
        let ended = storm_over(&rt, alloc, config, a, b, many, 1_000, &OpenGate);
        assert_ended(&rt, &ended, plan, u64::from(messages), wanted);
        drop(ended);
    }
}
