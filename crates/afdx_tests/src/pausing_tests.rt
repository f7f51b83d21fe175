//! Tests of a port that pauses in a send while others send.
use crate::rig::Step::*;
use crate::rig::*;
use crate::testing::*;
use afdx_tx::{Refusal, TxPort};
use redundant_mux::MemNetwork;
use std::sync::atomic::{AtomicU64, Ordering};
use std::thread;

// One link of two sub-VLs with a port on each.
static TWO_SUB_VLS: Plan = (
    &[(1, "both", 1, 64, 2, 2)],
    &[(20, 1, 0, 1, 8_192), (21, 1, 1, 1, 8_192)],
);

// The bytes of a port's message, the steps in its pause, and the reason if it is refused.
type Paused = (usize, &'static [Step<'static>], Option<Refusal>);

// The messages that the port of sub-VL 0 sends, and the steps after that. The steps have the port of sub-VL 1 alone.
static PAUSES: [(&[Paused], &[Step]); 4] = [
    // Another sub-VL releases in the pause of a port.
    (
        &[(
            1,
            &[Sends(0, &[2]), Polls(0, Some((&[(1, 1, 0)], BOTH)))],
            None,
        )],
        &[Polls(1_000, Some((&[(1, 0, 1)], BOTH)))],
    ),
    // The close in the pause counts the message. It is sent, and so is one of the other sub-VL, which is open.
    (
        &[
            (1, &[Closes(1, 0, 1)], None),
            (1, &[], Some(Refusal::Closed)),
        ],
        &[
            Closes(1, 0, 1),
            Sends(0, &[2]),
            Polls(0, Some((&[(1, 0, 0)], BOTH))),
            Polls(1_000, Some((&[(1, 1, 1)], BOTH))),
            Closes(1, 1, 1),
        ],
    ),
    // A pause runs if a port accepts alone.
    (
        &[
            (0, &[], Some(Refusal::Empty)),
            (8_193, &[], Some(Refusal::TooLong)),
            (8_192, &[], None),
            (1, &[], None),
            (1, &[], Some(Refusal::Full)),
        ],
        &[Closes(1, 0, 2)],
    ),
    // A message is transmitted after the pause of its port.
    (
        &[(1, &[Polls(0, Some((&[], BOTH)))], None)],
        &[Polls(0, Some((&[(1, 0, 0)], BOTH)))],
    ),
];

// Sends a message with a pause. The steps of the pause are taken only if the message is accepted.
fn send_paused(
    rt: &impl Host,
    rig: &mut Rig<MemNetwork>,
    port: &mut TxPort,
    &(size, steps, why): &Paused,
) {
    let bytes = Vec::from_elem(rt.alloc(), 1u8, size).expect(rt, "memory");
    let mut ran = false;
    let sent = port.send_with(bytes, || {
        rig.act_all(rt, steps);
        ran = true;
    });
    let refused = sent.err().map(|fault| fault.why);
    assert_same(rt, (refused, ran), (why, why.is_none()));
}

#[test]
fn a_port_pauses_only_where_it_accepts_and_its_message_goes_out_after_that(rt: HostRuntime) {
    for &(sends, after) in &PAUSES {
        let mut rig = open(&rt, TWO_SUB_VLS, (NEVER, NEVER));
        let mut port = rig.take_first(&rt);
        for paused in sends {
            send_paused(&rt, &mut rig, &mut port, paused);
        }
        rig.act_all(&rt, after);
        drop((rig, port));
    }
}

// The greatest number of loads of the stage by a waiting thread.
const LOOKS: u64 = 100_000_000;

// Waits until the stage is `least` or more, for at most `LOOKS` loads. Returns true if it is.
fn reaches(stage: &AtomicU64, least: u64) -> bool {
    for _look in 0..LOOKS {
        if stage.load(Ordering::SeqCst) >= least {
            return true;
        }
        thread::yield_now();
    }
    false
}

// Sends a message. In its pause, the port enters stage 1, and goes on in stage 2. Returns whether it went on and the
// message was accepted.
fn send_held(rt: &impl Host, port: &mut TxPort, stage: &AtomicU64) -> bool {
    let message = vec![in rt.alloc(); 1u8].expect(rt, "memory");
    let mut may_go = false;
    let sent = port.send_with(message, || {
        stage.store(1, Ordering::SeqCst);
        may_go = reaches(stage, 2);
    });
    // (a pause that didn't run holds nobody up)
    stage.store(3, Ordering::SeqCst);
    sent.is_ok() && may_go
}

// The rig's steps while the port is held.
static MEANWHILE: [Step; 3] = [
    Sends(0, &[2]),
    Polls(0, Some((&[(1, 1, 0)], BOTH))),
    Polls(1_000, Some((&[], BOTH))),
];

// The other sub-VL releases meanwhile, and the first once its port may go on.
#[test]
fn a_port_held_in_its_pause_holds_back_its_own_sub_vl_alone(rt: HostRuntime) {
    let mut rig = open(&rt, TWO_SUB_VLS, (NEVER, NEVER));
    let mut port = rig.take_first(&rt);
    let stage = AtomicU64::new(0);
    let (is_sent, is_held) = thread::join(
        &rt,
        || send_held(&rt, &mut port, &stage),
        || {
            let is_held = reaches(&stage, 1);
            rig.act_all(&rt, &MEANWHILE);
            stage.store(2, Ordering::SeqCst);
            is_held
        },
    );
    assert_same(&rt, (is_held, is_sent), (true, true));
    assert_same(&rt, port.accepted(), 1);
    rig.act_all(&rt, &[Polls(1_000, Some((&[(1, 0, 1)], BOTH)))]);
    drop((rig, port));
}
