//! Networks that fail at any of their hands: each keeps its frames before that, whatever the other does.
use crate::rig::*;
use crate::testing::*;
use afdx_frame::{sn_of, vl_of};
use afdx_plan::VlId;
use afdx_tx::{PollFault, Report};
use redundant_mux::{MemNetwork, Standing};

/// A plan of links with a port each; the number, the bytes and the fragments of each port's messages; and for networks
/// A and B the links that get a frame in each poll, in their order.
type Sending = (Plan, usize, &'static [u8], usize, [&'static [u16]; 2]);

// A link on A, one on B, and one on both.
const THREE: Plan = (
    &[
        (1, "a", 1, 1_518, 1, 6),
        (2, "b", 1, 1_518, 1, 6),
        (3, "both", 1, 1_518, 1, 6),
    ],
    &[
        (10, 1, 0, 1, 8_192),
        (20, 2, 0, 1, 8_192),
        (30, 3, 0, 1, 8_192),
    ],
);

static SENDINGS: [Sending; 3] = [
    (SIX, 6, &[7], 1, [&[1], &[1]]),
    (SIX, 2, &[7; 1_472], 2, [&[1], &[1]]),
    (THREE, 3, &[7], 1, [&[1, 3], &[2, 3]]),
];

// The number of polls, a gap apart.
const POLLS: usize = 6;

// A network: the links of the frames that it gets in each poll, the number of polls, and the hand at which it fails.
#[derive(Clone, Copy)]
struct Side {
    links: &'static [u16],
    polls: usize,
    fails: usize,
}

impl Side {
    // Returns the number of frames that the network gets before it fails.
    fn takes(&self) -> usize {
        let all = self.polls.saturating_mul(self.links.len());
        all.min(self.fails.saturating_sub(1))
    }

    // Returns true if the network is up after this many polls.
    fn is_up(&self, polls: usize) -> bool {
        let hands = self.polls.min(polls).saturating_mul(self.links.len());
        hands < self.fails
    }

    // Returns true if the network takes the frame of a link in a poll, counted from 0.
    fn has(&self, poll: usize, link: u16) -> bool {
        let before = poll.saturating_mul(self.links.len());
        let at = self.links.iter().position(|it| *it == link);
        at.is_some_and(|at| before.saturating_add(at) < self.takes())
    }

    // Asserts that a network in memory holds its frames, and failed if it does.
    fn assert_held(&self, rt: &impl Abort, network: &MemNetwork) {
        assert_same(rt, network.handed().len(), self.takes());
        let mut all = network.handed().iter();
        for poll in 0..self.polls {
            for &link in self.links {
                if let Some(entry) = all.next() {
                    let frame = entry.frame.as_slice();
                    assert_same(rt, entry.at, GAP.saturating_mul(poll as u64));
                    assert_same(rt, vl_of(frame), Some(VlId(link)));
                    assert_same(rt, sn_of(frame).map(usize::from), Some(poll));
                }
            }
        }
        assert_same(rt, network.failures(), u64::from(!self.is_up(POLLS)));
    }
}

// Returns the number of frames that a poll releases: of links with a frame that some network takes.
fn count_released(a: &Side, b: &Side, poll: usize) -> usize {
    let mut count = 0usize;
    for link in 1..=3 {
        count = count.saturating_add(usize::from(a.has(poll, link) || b.has(poll, link)));
    }
    count
}

// Asserts the answer of a poll, counted from 0.
fn assert_answer(
    rt: &impl Abort,
    answer: Result<Report, PollFault>,
    a: &Side,
    b: &Side,
    poll: usize,
) {
    if !a.is_up(poll) && !b.is_up(poll) {
        return assert_same(rt, answer.err(), Some(PollFault::BothDown));
    }
    let report = answer.expect(rt, "some network is up");
    let after = poll.saturating_add(1);
    let standing = Standing {
        a: a.is_up(after),
        b: b.is_up(after),
    };
    let told = (report.released.len(), report.standing);
    assert_same(rt, told, (count_released(a, b, poll), standing));
}

// Returns true if some network takes each frame.
fn are_all_taken(a: &Side, b: &Side, links: usize) -> bool {
    let mut count = 0usize;
    for poll in 0..a.polls {
        count = count.saturating_add(count_released(a, b, poll));
    }
    count == a.polls.saturating_mul(links)
}

// Runs an emitter whose networks fail at these hands, and whose drain begins after `before` polls.
fn run(rt: &impl Host, sending: &Sending, fails: (usize, usize), before: usize) {
    let &(plan, messages, bytes, pieces, [on_a, on_b]) = sending;
    let polls = messages.saturating_mul(pieces);
    let side = |links, fails| Side {
        links,
        polls,
        fails,
    };
    let (a, b) = (side(on_a, fails.0), side(on_b, fails.1));
    let mut rig = open(rt, plan, (fails.0 as u64, fails.1 as u64));
    for place in 0..rig.ports.len() {
        for _message in 0..messages {
            rig.send(rt, place, bytes);
        }
    }
    for poll in 0..before {
        let answer = rig.poll(rt, GAP.saturating_mul(poll as u64));
        assert_answer(rt, answer, &a, &b, poll);
    }
    let mut draining = rig.gather(rt);
    for poll in before..POLLS {
        let answer = drain(rt, &mut draining, GAP.saturating_mul(poll as u64));
        assert_answer(rt, answer, &a, &b, poll);
    }
    assert_same(rt, draining.is_done(), are_all_taken(&a, &b, plan.0.len()));
    a.assert_held(rt, draining.network_a());
    b.assert_held(rt, draining.network_b());
    drop(draining);
}

#[test]
fn each_network_keeps_its_frames_before_its_failure_whenever_both_fail(rt: HostRuntime) {
    for sending in &SENDINGS {
        for a in 1..=7 {
            for b in 1..=7 {
                for &before in &[0, 1, 3, POLLS] {
                    run(&rt, sending, (a, b), before);
                }
            }
        }
    }
}
