//! Tests on one thread, each a list of steps, and the names of the reasons for which calls refuse.
use crate::rig::Step::*;
use crate::rig::*;
use crate::testing::*;
use afdx_plan::ConfigFault;
use afdx_tx::{NoSuchSub, PollFault, Refusal};
use plan_table::TableFault;
use std::fmt::{Display, InlineText};

/// A plan, the hands, counted from 1, at which its networks fail, and steps; then polls in the drain, with the time of
/// the last one that found a network up, and whether each accepted message was sent.
type Play<'a> = (Plan, (u64, u64), &'a [Step<'a>], &'a [Drained<'a>]);

type Drained<'a> = (u64, Polled<'a>, u64, bool);

// Link 1 on network A alone and link 2 on both.
const ON_A_AND_ON_BOTH: Plan = (
    &[(1, "a", 1, 1_518, 1, 2), (2, "both", 1, 1_518, 1, 2)],
    &[(10, 1, 0, 1, 8_192), (11, 2, 0, 1, 8_192)],
);

static PLAYS: [Play; 5] = [
    // A message is counted once its one frame is sent.
    (
        DEMO,
        (NEVER, NEVER),
        &[
            Sends(0, &[1]),
            Reads(&[(0, 0, 0, 0)]),
            Polls(0, Some((&[(1, 0, 0)], BOTH))),
            Reads(&[(1, 60, 1, 0)]),
        ],
        &[(0, Some((&[], BOTH)), 0, true)],
    ),
    // 1,472 bytes are sent in two frames: of 14 + 20 + 1,472 + 1 bytes, and of 60, the least.
    (
        DEMO,
        (NEVER, NEVER),
        &[
            Sends(0, &[0xaa; 1_472]),
            Reads(&[(0, 0, 0, 0)]),
            Polls(0, Some((&[(1, 0, 0)], BOTH))),
            Reads(&[(1, 1_507, 0, 0)]),
            Polls(999, Some((&[], BOTH))),
            Reads(&[(1, 1_507, 0, 0)]),
            Polls(1_000, Some((&[(1, 0, 1)], BOTH))),
            Reads(&[(2, 1_567, 1, 1_000)]),
        ],
        &[(1_000, Some((&[], BOTH)), 1_000, true)],
    ),
    // A fails at its third hand. B, the last that is up, fails at its sixth. That frame is lost and isn't counted.
    (
        SIX,
        (3, 6),
        &[
            Sends(0, &[1]),
            Sends(0, &[2]),
            Sends(0, &[3]),
            Sends(0, &[4]),
            Sends(0, &[5]),
            Sends(0, &[6]),
            Polls(0, Some((&[(1, 0, 0)], BOTH))),
            Polls(1_000, Some((&[(1, 0, 1)], BOTH))),
            Reads(&[(2, 120, 2, 1_000)]),
            Polls(2_000, Some((&[(1, 0, 2)], ONLY_B))),
            Reads(&[(3, 180, 3, 2_000)]),
            Polls(3_000, Some((&[(1, 0, 3)], ONLY_B))),
            Polls(4_000, Some((&[(1, 0, 4)], ONLY_B))),
            Polls(5_000, Some((&[], NEITHER))),
            Polls(6_000, None),
            Reads(&[(5, 300, 5, 4_000)]),
        ],
        &[(7_000, None, 5_000, false)],
    ),
    // The message that is left is released after the port came back.
    (
        DEMO,
        (NEVER, NEVER),
        &[Sends(0, &[1]), Sends(0, &[2])],
        &[
            (0, Some((&[(1, 0, 0)], BOTH)), 0, false),
            (1_000, Some((&[(1, 0, 1)], BOTH)), 1_000, true),
            (2_000, Some((&[], BOTH)), 2_000, true),
        ],
    ),
    // Network A fails at its first hand, which is for link 1. Link 2 is sent on B all the same, and the lost frame
    // isn't counted.
    (
        ON_A_AND_ON_BOTH,
        (1, NEVER),
        &[
            Sends(0, &[1]),
            Sends(1, &[2]),
            Polls(0, Some((&[(2, 0, 0)], ONLY_B))),
            Polls(1_000, Some((&[], ONLY_B))),
            Reads(&[(0, 0, 0, 0), (1, 60, 1, 0)]),
        ],
        &[(2_000, Some((&[], ONLY_B)), 2_000, false)],
    ),
];

// Opens a plan, takes its steps, and drains it.
fn play(rt: &impl Host, &(plan, fails, steps, polls): &Play) {
    let mut rig = open(rt, plan, fails);
    rig.act_all(rt, steps);
    let mut draining = rig.gather(rt);
    for &(now, wanted, last, is_done) in polls {
        let answer = drain(rt, &mut draining, now);
        assert_polled(rt, answer, wanted);
        assert_same(rt, (draining.now(), draining.is_done()), (last, is_done));
    }
    drop(draining);
}

#[test]
fn frames_are_counted_once_a_network_took_them_and_a_lost_one_is_never_done(rt: HostRuntime) {
    for one in &PLAYS {
        play(&rt, one);
    }
}

// The reasons for which a port refuses a message, with their numbers and names.
const REFUSALS: [(Refusal, u8, &str); 5] = [
    (Refusal::Empty, 1, "Empty"),
    (Refusal::TooLong, 2, "TooLong"),
    (Refusal::Closed, 3, "Closed"),
    (Refusal::Exhausted, 4, "Exhausted"),
    (Refusal::Full, 5, "Full"),
];

// The reasons for which a table is refused.
const TABLE_FAULTS: [(TableFault, u8, &str); 6] = [
    (TableFault::Plan(ConfigFault::Limit), 14, "Limit"),
    (TableFault::NoTable, 16, "NoTable"),
    (TableFault::OtherLayout, 17, "OtherLayout"),
    (TableFault::WrongLength, 18, "WrongLength"),
    (TableFault::WrongSum, 19, "WrongSum"),
    (TableFault::WrongValue, 20, "WrongValue"),
];

// Asserts the text that is printed for a value.
fn assert_text(rt: &impl Abort, told: impl Display + Drop, wanted: &str) {
    assert_same(rt, InlineText::<16>::of(told).as_str(), wanted);
}

#[test]
fn each_fault_of_a_call_has_its_number_and_its_name(rt: HostRuntime) {
    for &(refusal, number, name) in &REFUSALS {
        assert_same(&rt, refusal as u8, number);
        assert_text(&rt, refusal, name);
    }
    for &(fault, number, name) in &TABLE_FAULTS {
        assert_same(&rt, fault.number(), number);
        assert_text(&rt, fault, name);
    }
    assert_same(&rt, PollFault::BothDown as u8, 1);
    assert_text(&rt, PollFault::BothDown, "BothDown");
    assert_text(&rt, NoSuchSub, "NoSuchSub");
}
