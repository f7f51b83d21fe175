//! An end system under test, over two networks, and a test of it as a list of steps.
ghost use Rattle.std.specs.Prelude.{◌≡◌, [], length};
ghost use Rattle.afdx_tx.specs.Emitter.{Tx};
ghost use Rattle.afdx_tx.specs.Ports.{AreOpenedWith};
ghost use Rattle.status_board.specs.Views.{links_of};

use crate::testing::*;
use afdx_plan::VlId;
use afdx_tx::{Draining, Emitter, PollFault, Release, Report, TxPort, open_tx};
use arrayvec::ArrayVec;
use redundant_mux::{MemNetwork, Network, Standing};
use status_board::{Counts, Monitor};
use std::marker::Model;

/// An emitter, its ports in the order of the plan, and its monitor.
#[derive(Drop)]
pub struct Rig<N: Network + Drop> {
    pub tx: Emitter<N, N>,
    pub ports: Vec<TxPort>,
    pub monitor: Monitor,
}

impl<N: Network + Drop> Model for Rig<N> {
    ghost Value = { Tx };

    ghost view = { λ r. r.tx };

    ghost invariant = { λ r. AreOpenedWith r.tx r.ports.items
        × (links_of r.monitor ≡ length r.tx.plan.links) };
}

/// A frame that a poll releases: its link, its sub-VL and its sequence number.
pub type Frame = (u16, u8, u8);

/// The answer of a poll: the frames that it releases and the networks that are up after it, or none if both were down.
pub type Polled<'a> = Option<(&'a [Frame], Standing)>;

/// The counts of a link: frames, bytes, messages, and the time of the last frame in microseconds.
pub type Counted = (u64, u64, u64, u64);

/// The steps of a test before the drain, with the expected answers.
#[derive(Clone, Copy)]
pub enum Step<'a> {
    /// The port at this place sends a message, which is accepted.
    Sends(usize, &'a [u8]),
    /// A sub-VL of a link is closed, and has accepted this many messages.
    Closes(u16, u8, u64),
    /// A poll at this time.
    Polls(u64, Polled<'a>),
    /// The counts of each link are published, and the monitor reads them each time.
    Reads(&'a [Counted]),
}

/// Opens a plan over networks in memory that fail at these hands, counted from 1.
pub fn open(rt: &impl Host, plan: Plan, fails: (u64, u64)) -> Rig<MemNetwork> {
    let a = MemNetwork::failing_at(rt.alloc(), fails.0);
    let b = MemNetwork::failing_at(rt.alloc(), fails.1);
    open_over(rt, text_of(rt, plan), a, b)
}

/// Opens the text of a plan over these networks.
pub fn open_over<N: Network + Drop>(rt: &impl Host, text: String, a: N, b: N) -> Rig<N>
    requires a { N.handed a ≡ [] }
    requires b { N.handed b ≡ [] }
    requires new_a { N.failures a ≡ 0 }
    requires new_b { N.failures b ≡ 0 }
{
    let config = config_of(rt, text);
    match open_tx(rt.alloc(), config, a, b) {
        Ok((tx, ports, monitor)) => Rig { tx, ports, monitor },
        Err(_) => panic!(rt; "no memory"),
    }
}

/// Asserts the answer of a poll.
pub fn assert_polled(rt: &impl Abort, answer: Result<Report, PollFault>, wanted: Polled) {
    let Some((frames, standing)) = wanted else {
        return assert_same(rt, answer.err(), Some(PollFault::BothDown));
    };
    let report = answer.expect(rt, "some network is up");
    let released: &ArrayVec<Release, 64> = &report.released;
    assert!(rt; released.len() == frames.len());
    for (release, frame) in released.iter().zip(frames) {
        let vl: VlId = release.vl;
        assert_same(rt, (vl.0, release.sub, release.number), *frame);
    }
    assert_same(rt, report.standing, standing);
}

impl<N: Network + Drop> Rig<N> {
    /// Sends a message of the port at a place, and asserts that it is accepted.
    pub fn send(&mut self, rt: &impl Host, at: usize, bytes: &[u8]) {
        assert!(rt; at < self.ports.len());
        assert!(rt; self.ports[at].send_slice(bytes).is_ok());
    }

    /// Polls, at a time that isn't before the last one.
    pub fn poll(&mut self, rt: &impl Host, now: u64) -> Result<Report, PollFault> {
        assert!(rt; self.tx.now() <= now);
        self.tx.poll(now)
    }

    // Asserts that the monitor reads these counts of the link at a place, twice, once they are published.
    fn read(&mut self, rt: &impl Host, place: usize, (frames, bytes, messages, last): Counted) {
        let counts = Counts {
            frames,
            bytes,
            messages,
            last,
        };
        self.tx.publish(rt);
        assert!(rt; place < self.tx.config().links().len());
        assert_same(rt, self.monitor.read(rt, place), counts);
        assert_same(rt, self.monitor.read(rt, place), counts);
    }

    fn act(&mut self, rt: &impl Host, step: Step) {
        match step {
            Step::Sends(place, bytes) => self.send(rt, place, bytes),
            Step::Closes(vl, sub, total) => {
                assert_same(rt, self.tx.close(VlId(vl), sub), Ok(total));
            }
            Step::Polls(now, wanted) => {
                let answer = self.poll(rt, now);
                assert_polled(rt, answer, wanted);
            }
            Step::Reads(links) => {
                for (place, counts) in links.iter().enumerate() {
                    self.read(rt, place, *counts);
                }
            }
        }
    }

    /// Takes steps.
    pub fn act_all(&mut self, rt: &impl Host, steps: &[Step]) {
        for step in steps {
            self.act(rt, *step);
        }
    }

    /// Takes the first port out.
    pub fn take_first(&mut self, rt: &impl Host) -> TxPort {
        assert!(rt; !self.ports.is_empty());
        self.ports.remove(0)
    }

    // Moves the last port to the front.
    fn turn_ports(&mut self, rt: &impl Abort) {
        assert!(rt; !self.ports.is_empty());
        self.ports.rotate_right(1);
    }

    /// Calls `gather` without ports, which is refused, and then with all of them, the last one moved to the front.
    pub fn gather(mut self, rt: &impl Host) -> Draining<N, N> {
        self.turn_ports(rt);
        let Err((tx, none)) = self.tx.gather(Vec::new(rt.alloc())) else {
            panic!(rt; "gathered without ports");
        };
        assert_same(rt, none.len(), 0);
        drop((none, self.monitor));
        match tx.gather(self.ports) {
            Ok(draining) => draining,
            Err(_) => panic!(rt; "each port is there"),
        }
    }
}

/// Polls in the drain, at a time that isn't before the last poll.
pub fn drain<N: Network + Drop>(
    rt: &impl Host,
    draining: &mut Draining<N, N>,
    now: u64,
) -> Result<Report, PollFault> {
    assert!(rt; draining.now() <= now);
    draining.poll(now)
}
