//! The order of the networks: at one time each frame goes to A, and then to B.
ghost use Rattle.std.specs.Prelude.{◌≡◌, []};
ghost use Rattle.redundant_mux.specs.Lines.{entries_of};

use crate::rig::*;
use crate::testing::*;
use afdx_frame::{Frame, vl_of};
use afdx_plan::{Networks, VlId};
use redundant_mux::{HandFault, Mux, Network, Trail};
use std::sync::Arc;
use std::sync::atomic::{AtomicU64, Ordering};

/// A network that keeps each frame's place in the order of both networks, in a number that the two share, and its time
/// in microseconds and link.
#[derive(Drop)]
struct Counting {
    places: Arc<AtomicU64, Global>,
    taken: Vec<(u64, u64, Option<VlId>)>,
    failures: u64,
    trail: Trail,
}

impl Network for Counting {
    ghost handed = { λ c. entries_of c.trail.logged };

    ghost failures = { λ c. c.failures };

    fn hand(&mut self, at: u64, frame: &[u8]) -> Result<(), HandFault> {
        let place = self.places.fetch_add(1, Ordering::SeqCst);
        if self.taken.push((place, at, vl_of(frame))).is_err() {
            self.failures += 1;
            return Err(HandFault);
        }
        // The contract ignores this value, so any `Networks` will do.
        self.trail = Trail::with(&self.trail, &Networks::Both, &at, frame);
        Ok(())
    }
}

fn make_network(rt: &impl Host, places: &Arc<AtomicU64, Global>) -> Counting
    ensures empty { entries_of result.trail.logged ≡ [] }
    ensures new { result.failures ≡ 0 }
{
    Counting {
        places: Arc::try_clone(places).expect(rt, "memory"),
        taken: Vec::new(rt.alloc()),
        failures: 0,
        trail: Trail::new(),
    }
}

// A link on both networks, one on A, one on both and one on B, with a port on each.
static FOUR: Plan = (
    &[
        (1, "both", 1, 1_518, 1, 4),
        (2, "a", 1, 1_518, 1, 4),
        (3, "both", 1, 1_518, 1, 4),
        (4, "b", 1, 1_518, 1, 4),
    ],
    &[
        (10, 1, 0, 1, 8_192),
        (20, 2, 0, 1, 8_192),
        (30, 3, 0, 1, 8_192),
        (40, 4, 0, 1, 8_192),
    ],
);

// The places of one poll's frames that A takes, and of the frames that B takes, with their links.
const FOR_A: [(u64, u16); 3] = [(0, 1), (2, 2), (3, 3)];

const FOR_B: [(u64, u16); 3] = [(1, 1), (4, 3), (5, 4)];

// Asserts that a network took these frames in each of four polls.
fn assert_row(rt: &impl Abort, network: &Counting, row: &[(u64, u16)]) {
    let mut all = network.taken.iter();
    for turn in 0..4u64 {
        for &(place, vl) in row {
            let wanted = (place.saturating_add(6 * turn), GAP * turn, Some(VlId(vl)));
            assert_same(rt, all.next().copied(), Some(wanted));
        }
    }
    assert!(rt; all.next().is_none());
}

// Two polls of the emitter, and two in the drain.
#[test]
fn at_one_time_each_frame_goes_to_a_and_then_to_b(rt: HostRuntime) {
    let places = Arc::new(rt.alloc(), AtomicU64::new(0)).expect(&rt, "memory");
    let (a, b) = (make_network(&rt, &places), make_network(&rt, &places));
    let mut rig = open_over(&rt, text_of(&rt, FOUR), a, b);
    for at in 0..4 {
        for byte in 0..4u8 {
            rig.send(&rt, at, &[byte]);
        }
    }
    for now in [0, GAP] {
        assert!(rt; rig.poll(&rt, now).is_ok());
    }
    let mut draining = rig.gather(&rt);
    for now in [2 * GAP, 3 * GAP] {
        assert!(rt; drain(&rt, &mut draining, now).is_ok());
    }
    assert_row(&rt, draining.network_a(), &FOR_A);
    assert_row(&rt, draining.network_b(), &FOR_B);
    drop((draining, places));
}

#[test]
fn a_frame_without_its_buffer_goes_to_a_and_then_to_b(rt: HostRuntime) {
    let places = Arc::new(rt.alloc(), AtomicU64::new(0)).expect(&rt, "memory");
    let mut mux = Mux::new(make_network(&rt, &places), make_network(&rt, &places));
    assert!(rt; mux.hand(0, &Frame::new(), Networks::Both).is_ok());
    let (a, b) = mux.into_networks();
    assert_same(&rt, a.taken.first().copied(), Some((0, 0, None)));
    assert_same(&rt, b.taken.first().copied(), Some((1, 0, None)));
    drop(places);
}
