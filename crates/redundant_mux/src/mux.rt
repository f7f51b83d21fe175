//! One frame for two networks, and the log of the accepted frames, for proofs alone.
ghost use Rattle.std.specs.Prelude.{List, ◌≡◌, ℕ, ◌≤◌, ◌↔◌, [], ◌∷◌, ◌++◌, true, false, length, IsErr, OnErr, IfOk};
ghost use Rattle.std.specs.Borrow.{ftrue};
ghost use Rattle.afdx_plan.specs.Plan.{carries_a, carries_b};
ghost use Rattle.afdx_frame.specs.Header.{twin_of};
ghost use Rattle.afdx_frame.specs.declared.net.Net.TheVariants.{A as ForA, B as ForB};
ghost use Rattle.redundant_mux.specs.Lines.{entry, Logged, logged_for, Handing, BothEndure, StaysFailing, some_of, any_up, IsMirrored, Lines, AreInStep, lines_of, with_failing};

use crate::network::{Failable, Network};
use afdx_frame::{Frame, FrameBuffer, GREATEST_FRAME, Net};
use afdx_plan::Networks;
use std::marker::Model;
use thiserror::Error;

/// Both networks have failed before.
#[derive(Clone, Copy, Debug, PartialEq, Eq, Error)]
#[error("both networks have failed")]
pub struct BothDown;

/// The networks that are up.
#[derive(Clone, Copy, Debug, PartialEq, Eq)]
pub struct Standing {
    pub a: bool,
    pub b: bool,
}

impl Standing {
    /// Returns true if a network in `networks` is up.
    fn has_one_of(&self, networks: Networks) -> bool
        ensures { result ≡ some_of networks self.now.a self.now.b }
    {
        networks.carries_a() && self.a || networks.carries_b() && self.b
    }
}

/// Two networks. Each is abandoned at its first failure. Contracts see the frames that each accepted, the failures,
/// which networks are up, which were made to fail, and in order the frames that at least one accepted.
#[derive(Drop)]
pub struct Mux<A: Network + Drop, B: Network + Drop> {
    a: A,
    b: B,
    standing: Standing,
    // The frames that at least one network accepted, for proofs alone.
    trail: Trail,
}

impl<A: Network + Drop, B: Network + Drop> Model for Mux<A, B> {
    ghost Value = { Lines };

    ghost view = { λ m. lines_of (A.handed m.a) (B.handed m.b) (A.failures m.a) (B.failures m.b)
        m.standing.a m.standing.b (A.failing m.a) (B.failing m.b) m.trail.logged };

    ghost invariant = { λ m. AreInStep (lines_of (A.handed m.a) (B.handed m.b) (A.failures m.a)
        (B.failures m.b) m.standing.a m.standing.b (A.failing m.a) (B.failing m.b) m.trail.logged) };
}

/// Sends a frame once to the network if it is named and up. A failure takes the network down.
fn hand_to<N: Network + Drop>(
    network: &mut N,
    stands: &mut bool,
    named: bool,
    at: u64,
    frame: &[u8],
)
    requires short { length frame.now ≤ GREATEST_FRAME }
    requires unfailed { stands.old ≡ true → N.failures network.old ≡ 0 }
    ensures handing { Handing named (entry at frame.now) stands.old stands.new
        (N.handed network.old) (N.handed network.new) (N.failures network.old) (N.failures network.new) }
    ensures unfailed { stands.new ≡ true → N.failures network.new ≡ 0 }
    ensures failing { StaysFailing (N.failing network.old) (N.failing network.new)
        (N.handed network.old) (N.handed network.new) }
{
    if named && *stands && network.hand(at, frame).is_err() {
        *stands = false;
    }
}

/// Sends a frame as `hand_to` does, from a buffer, whose contents afterwards are unspecified.
fn hand_with<N: Network + Drop>(
    network: &mut N,
    stands: &mut bool,
    named: bool,
    at: u64,
    frame: &mut Box<FrameBuffer>,
)
    requires unfailed { stands.old ≡ true → N.failures network.old ≡ 0 }
    ensures handing { Handing named (entry at frame.old.value.items) stands.old stands.new
        (N.handed network.old) (N.handed network.new) (N.failures network.old) (N.failures network.new) }
    ensures unfailed { stands.new ≡ true → N.failures network.new ≡ 0 }
    ensures failing { StaysFailing (N.failing network.old) (N.failing network.new)
        (N.handed network.old) (N.handed network.new) }
{
    if named && *stands && network.hand_with(at, frame).is_err() {
        *stands = false;
    }
}

/// Keeps the longer log if a network accepted the frame.
fn note(trail: &mut Trail, taken: bool, longer: Trail)
    ensures taken { taken ≡ true → trail.new.logged ≡ longer.logged }
    ensures lost { taken ≡ false → trail.new.logged ≡ trail.old.logged }
{
    if taken {
        *trail = longer;
    }
}

impl<A: Network + Drop, B: Network + Drop> Mux<A, B> {
    /// Joins two networks without frames or failures. Both are up.
    pub fn new(a: A, b: B) -> Mux<A, B>
        requires a { A.failures a ≡ 0 }
        requires b { B.failures b ≡ 0 }
        requires a_empty { A.handed a ≡ [] }
        requires b_empty { B.handed b ≡ [] }
        ensures { result ≡ record {
          a = [];
          b = [];
          a_failures = 0;
          b_failures = 0;
          a_stands = true;
          b_stands = true;
          a_failing = A.failing a;
          b_failing = B.failing b;
          logged = [];
        } }
    {
        Mux {
            a,
            b,
            standing: Standing { a: true, b: true },
            trail: Trail::new(),
        }
    }

    /// Returns which networks are up.
    pub fn standing(&self) -> Standing
        ensures a { result.a ≡ self.now.a_stands }
        ensures b { result.b ≡ self.now.b_stands }
        ensures mirrored { IsMirrored self.now }
    {
        self.standing
    }

    /// Returns true if one of the named networks is up.
    pub fn any_up(&self, networks: Networks) -> bool
        ensures { result ≡ any_up networks self.now }
    {
        self.standing.has_one_of(networks)
    }

    /// Returns network A.
    pub fn network_a(&self) -> &A
        ensures handed { A.handed result.now ≡ self.now.a }
        ensures failures { A.failures result.now ≡ self.now.a_failures }
    {
        &self.a
    }

    /// Returns network B.
    pub fn network_b(&self) -> &B
        ensures handed { B.handed result.now ≡ self.now.b }
        ensures failures { B.failures result.now ≡ self.now.b_failures }
    {
        &self.b
    }

    /// Returns the two networks.
    pub fn into_networks(self) -> (A, B)
        ensures a { A.handed result.0 ≡ self.a }
        ensures b { B.handed result.1 ≡ self.b }
        ensures a_failures { A.failures result.0 ≡ self.a_failures }
        ensures b_failures { B.failures result.1 ≡ self.b_failures }
        ensures mirrored { IsMirrored self }
    {
        let Mux {
            a,
            b,
            standing: _,
            trail: _,
        } = self;
        (a, b)
    }

    /// Sends each named network that is up its twin of `frame`, a frame for A, once, at `at` in
    /// microseconds. A network that fails stays down. Returns which networks are up afterwards, or
    /// `BothDown` if neither was up before. If no named network was up, nothing changes.
    #[tactic(auto, using(std::proofs::Common::arith))]
    pub fn hand(&mut self, at: u64, frame: &Frame, networks: Networks) -> Result<Standing, BothDown>
        requires { twin_of ForA frame.now.items ≡ frame.now.items }
        ensures down { IsErr result ↔ ((self.old.a_stands ≡ false) × (self.old.b_stands ≡ false)) }
        ensures err { OnErr result (self.new ≡ self.old) }
        ensures a { Handing (carries_a networks) (entry at (twin_of ForA frame.now.items))
            self.old.a_stands self.new.a_stands self.old.a self.new.a self.old.a_failures self.new.a_failures }
        ensures b { Handing (carries_b networks) (entry at (twin_of ForB frame.now.items))
            self.old.b_stands self.new.b_stands self.old.b self.new.b self.old.b_failures self.new.b_failures }
        ensures enters { any_up networks self.new ≡ true →
            self.new.logged ≡ self.old.logged ++ logged_for networks (entry at frame.now.items) ∷ [] }
        ensures lost { any_up networks self.new ≡ false → self.new.logged ≡ self.old.logged }
        ensures stays_down { BothEndure self.old self.new }
        ensures mirrored { IsMirrored self.new }
        ensures a_stands { IfOk result (λ standing. standing.a ≡ self.new.a_stands) }
        ensures b_stands { IfOk result (λ standing. standing.b ≡ self.new.b_stands) }
    {
        if !self.standing.a && !self.standing.b {
            return Err(BothDown);
        }
        let (named_a, named_b) = (networks.carries_a(), networks.carries_b());
        let longer = Trail::with(&self.trail, &networks, &at, frame);
        hand_to(&mut self.a, &mut self.standing.a, named_a, at, frame);
        let mut twin = FrameBuffer::new();
        twin.fill(frame);
        twin.turn(Net::B);
        hand_to(
            &mut self.b,
            &mut self.standing.b,
            named_b,
            at,
            twin.as_slice(),
        );
        let taken = self.standing.has_one_of(networks);
        note(&mut self.trail, taken, longer);
        Ok(self.standing)
    }

    /// Sends a frame as `hand` does, from a buffer, which a network may exchange for another. The contents of the
    /// buffer afterwards are unspecified. B's twin is made in place.
    #[tactic(auto, using(std::proofs::Common::arith))]
    pub fn hand_with(
        &mut self,
        at: u64,
        frame: &mut Box<FrameBuffer>,
        networks: Networks,
    ) -> Result<Standing, BothDown>
        requires { twin_of ForA frame.old.value.items ≡ frame.old.value.items }
        ensures down { IsErr result ↔ ((self.old.a_stands ≡ false) × (self.old.b_stands ≡ false)) }
        ensures err { OnErr result (self.new ≡ self.old) }
        ensures a { Handing (carries_a networks) (entry at (twin_of ForA frame.old.value.items))
            self.old.a_stands self.new.a_stands self.old.a self.new.a self.old.a_failures self.new.a_failures }
        ensures b { Handing (carries_b networks) (entry at (twin_of ForB frame.old.value.items))
            self.old.b_stands self.new.b_stands self.old.b self.new.b self.old.b_failures self.new.b_failures }
        ensures enters { any_up networks self.new ≡ true → self.new.logged
            ≡ self.old.logged ++ logged_for networks (entry at frame.old.value.items) ∷ [] }
        ensures lost { any_up networks self.new ≡ false → self.new.logged ≡ self.old.logged }
        ensures stays_down { BothEndure self.old self.new }
        ensures mirrored { IsMirrored self.new }
        ensures a_stands { IfOk result (λ standing. standing.a ≡ self.new.a_stands) }
        ensures b_stands { IfOk result (λ standing. standing.b ≡ self.new.b_stands) }
    {
        if !self.standing.a && !self.standing.b {
            return Err(BothDown);
        }
        let (named_a, named_b) = (networks.carries_a(), networks.carries_b());
        let bytes = frame.as_slice();
        let longer = Trail::with(&self.trail, &networks, &at, bytes);
        hand_to(&mut self.a, &mut self.standing.a, named_a, at, bytes);
        frame.turn(Net::B);
        hand_with(&mut self.b, &mut self.standing.b, named_b, at, frame);
        let taken = self.standing.has_one_of(networks);
        note(&mut self.trail, taken, longer);
        Ok(self.standing)
    }
}

impl<A: Failable + Drop, B: Failable + Drop> Mux<A, B> {
    /// Makes a network fail at each later frame. It stays up until then.
    pub fn fail(&mut self, net: Net)
        ensures { self.new ≡ with_failing net self.old }
    {
        match net {
            Net::A => self.a.fail(),
            Net::B => self.b.fail(),
        }
    }
}

/// The accepted frames with their times and the networks that they were for, as contracts see them.
/// A trail takes no bytes, and its calls do nothing at run time. So a network that keeps none of
/// its frames can still promise what a `Network` promises.
#[derive(Drop)]
pub struct Trail {
    pub ghost logged: { List Logged },
}

impl Model for Trail {
    ghost also_owns = { λ _. ftrue };
}

// SAFETY: it owns nothing (proofs/mux/Trail/TheSendSync).
unsafe impl Send for Trail {}

/// The list of a trail, as a ghost function of a value.
trait Shows<X> {
    ghost logged: { X → List Logged };
}

struct Nothing;

impl Shows<()> for Nothing {
    ghost logged = { λ _. [] };
}

struct Longer;

impl<'a> Shows<(&'a Trail, &'a Networks, &'a u64, &'a [u8])> for Longer {
    ghost logged = { λ x. x.0.now.logged ++ logged_for x.1.now (entry x.2.now x.3.now) ∷ [] };
}

impl Trail {
    fn of<X, S: Shows<X>>(_x: &X) -> Trail
        ensures { result.logged ≡ S.logged _x.now }
    {
        Trail {}
    }

    /// Creates the trail of no frame.
    pub fn new() -> Trail
        ensures { result.logged ≡ [] }
    {
        Trail::of::<(), Nothing>(&())
    }

    /// Returns the trail `before` with one frame appended.
    pub fn with(before: &Trail, networks: &Networks, at: &u64, frame: &[u8]) -> Trail
        ensures { result.logged ≡ before.now.logged ++ logged_for networks.now (entry at.now frame.now) ∷ [] }
    {
        Trail::of::<(&Trail, &Networks, &u64, &[u8]), Longer>(&(before, networks, at, frame))
    }
}
