//! The emitter, while its ports send and after they were taken back.
ghost use Rattle.std.specs.Prelude.{Bool, false, true, length, ◌≡◌, ◌≤◌, ◌↔◌, List, [], IsErr, OnErr, OnOk, IfOk, ℕ, IfErr, ◌<◌, slice_set, IsTrue};
ghost use Rattle.std.specs.Box.{boxed_slice_items};
ghost use Rattle.afdx_tx.specs.Emitter.{AllWaitUntil, Tx, IsSound, IsFreshTx, AreFreshLinks, queues_in};
ghost use Rattle.afdx_tx.specs.Calls.{Reaches, Publishes, ShowsCounts, TellsNextDue, LacksSub, ClosesTx};
ghost use Rattle.afdx_tx.specs.Phases.{IsInPhase, Conforms, AreOfPorts, Runs, StaysLawful};
ghost use Rattle.redundant_mux.specs.Lines.{is_alive, with_failing, log};
ghost use Rattle.afdx_tx.specs.declared.turns.Release.{Release};
ghost use Rattle.afdx_tx.specs.Report.{IsTold, Polls, PollsUnreported};
ghost use Rattle.status_board.specs.Views.{published, seen, last_of, links_of, IsReading};
ghost use Rattle.afdx_plan.specs.Config.{IsPlan};
ghost use Rattle.afdx_legal.specs.Accepted.{AreAllowed, IsAllDone};
ghost use Rattle.afdx_tx.specs.Run.{accepted_in};
ghost use Rattle.afdx_tx.specs.Ports.{AreOpenedWith, IsPortOfTx, LacksPlace};
ghost use Rattle.afdx_tx.specs.Gathering.{IsGatheredTx};
ghost use Rattle.afdx_tx.specs.Hearing.{HearsTx};

use crate::fault::{NoSuchSub, PollFault};
use crate::gather::{gather_links, has_every_place};
use crate::open::{link_of, link_of_sub, port_at};
use crate::port::TxPort;
use crate::turns::{Notes, Report, Unreported, all_done, first_due, publish_all, serve_all};
use afdx_frame::{FrameBuffer, Net};
use afdx_plan::{Config, Networks, VlId};
use arrayvec::ArrayVec;
use redundant_mux::{Failable, Mux, Network, Standing};
use status_board::{Board, Counts, Monitor, laws};
use std::boxed::BoxedSlice;
use std::marker::{Model, PhantomData};
use std::sync::Wait;
use vl_link::Link;

/// A phase of an emitter.
pub trait Phase {
    /// True if the ports were taken back.
    ghost gathered: { Bool };
}

/// The ports send.
pub struct Sending;

impl Phase for Sending {
    ghost gathered = { false };
}

/// The ports were taken back: all accepted messages are known.
pub struct Drain;

impl Phase for Drain {
    ghost gathered = { true };
}

/// An emitter, which transmits the messages of its ports on two networks. Contracts see its plan, its links, the frames
/// that the networks accepted, the time of the last poll, and the published counts.
#[derive(Drop)]
pub struct Emitter<A: Network + Drop, B: Network + Drop, P: Phase = Sending> {
    config: Config,
    pub(crate) links: BoxedSlice<Link>,
    // No link is due before this time.
    earliest: u64,
    mux: Mux<A, B>,
    // The buffer of the next frame.
    frame: Box<FrameBuffer>,
    moment: u64,
    pub(crate) board: Board,
    // The list of the ports that were gathered, which is empty then: it is freed at the end.
    emptied: Option<Vec<TxPort>>,
    phase: PhantomData<P>,
}

impl<A: Network + Drop, B: Network + Drop, P: Phase> Model for Emitter<A, B, P> {
    ghost Value = { Tx };

    ghost view = { λ e. record {
      plan = e.config;
      links = boxed_slice_items e.links;
      lines = e.mux;
      moment = e.moment;
      board = e.board;
    } };

    ghost invariant = { λ e. IsSound e.config (boxed_slice_items e.links) e.mux e.moment
        × Reaches (boxed_slice_items e.links) e.board
        × AllWaitUntil e.earliest (boxed_slice_items e.links) (length (boxed_slice_items e.links))
        × IsInPhase P.gathered e.config (boxed_slice_items e.links) };
}

impl<A: Network + Drop, B: Network + Drop, P: Phase> Emitter<A, B, P> {
    /// Returns the plan with which the emitter was opened.
    pub fn config(&self) -> &Config
        ensures { result.now ≡ self.now.plan }
    {
        &self.config
    }

    /// Returns the time of the last poll that didn't return `BothDown`, in microseconds, and 0 at first.
    pub fn now(&self) -> u64
        ensures { result ≡ self.now.moment }
    {
        self.moment
    }

    /// Returns network A.
    pub fn network_a(&self) -> &A
        ensures handed { A.handed result.now ≡ self.now.lines.a }
        ensures failures { A.failures result.now ≡ self.now.lines.a_failures }
    {
        self.mux.network_a()
    }

    /// Returns network B.
    pub fn network_b(&self) -> &B
        ensures handed { B.handed result.now ≡ self.now.lines.b }
        ensures failures { B.failures result.now ≡ self.now.lines.b_failures }
    {
        self.mux.network_b()
    }

    /// Returns the counts of a link, by its identifier, as `publish` would publish them now: the frames of the longer
    /// of the link's two streams, the sum of their lengths in bytes, the messages whose last frame is among them, and
    /// the time of the last frame in microseconds, or 0 if there is none. Returns `None` exactly if the plan has no
    /// such link. Reads no board, never waits, and allocates nothing.
    pub fn counts(&self, vl: VlId) -> Option<Counts>
        ensures { ShowsCounts self.now vl.0 result }
    {
        let place = self.config.link_index(vl)?;
        Some(self.links[place].counts())
    }

    /// Returns the first time after the last poll, in microseconds, at which a link that wasn't due then becomes due,
    /// if a network that is up carries it; `None` if there is none, or it has more than 64 bits. An earlier poll
    /// releases frames only of links that were due at the last poll and had nothing to send then. So a poller may sleep
    /// until this time, or until a message is sent.
    pub fn next_due(&self) -> Option<u64>
        ensures { TellsNextDue self.now result }
    {
        first_due(&self.links, &self.mux, self.moment)
    }

    /// Returns the two networks.
    pub fn into_networks(self) -> (A, B)
        ensures a { A.handed result.0 ≡ self.lines.a }
        ensures b { B.handed result.1 ≡ self.lines.b }
        ensures a_failures { A.failures result.0 ≡ self.lines.a_failures }
        ensures b_failures { B.failures result.1 ≡ self.lines.b_failures }
        ensures conforms { Conforms self }
        ensures allowed { AreOfPorts P.gathered self }
    {
        let Emitter { mux, .. } = self;
        mux.into_networks()
    }

    // Gives each link its turn. The caller asks afterwards which networks are up: returned from here, the answer would
    // pass through memory.
    fn turn<N: Notes>(&mut self, now: u64, notes: &mut N) -> Result<(), PollFault>
        requires later { self.old.moment ≤ now }
        requires none { N.noted notes.old [] }
        ensures both_down { IsErr result ↔ (is_alive self.old.lines ≡ false) }
        ensures unchanged { OnErr result (self.new ≡ self.old) }
        ensures lawful { StaysLawful P.gathered self.old self.new }
        ensures moment { OnOk result (self.new.moment ≡ now) }
        ensures told { OnOk result ((released : List Release) × N.noted notes.new released
            × (length released ≤ 64) × IsTold now released self.old.lines self.new.lines) }
        ensures run { OnOk result (Runs P.gathered now self.old self.new) }
    {
        if !self.mux.any_up(Networks::Both) {
            return Err(PollFault::BothDown);
        }
        self.moment = now;
        if now < self.earliest {
            return Ok(());
        }
        self.earliest = serve_all(&mut self.links, &mut self.frame, &mut self.mux, now, notes);
        // For its contract, which the invariant needs: the frames of both networks still mirror the log.
        let _standing = self.mux.standing();
        Ok(())
    }

    /// Gives each link its turn at `now`, in microseconds, in the order of the plan. A due link with something to send
    /// releases exactly one frame (ARINC 664 Part 7, bandwidth allocation gap). That frame is lost if the last network
    /// that carries the link fails with it. A link whose networks are all down is skipped. After `BothDown` nothing has
    /// changed. Apart from the calls of the networks, it never waits and allocates nothing.
    #[inline(always)]
    pub fn poll(&mut self, now: u64) -> Result<Report, PollFault>
        requires { self.old.moment ≤ now }
        ensures both_down { IsErr result ↔ (is_alive self.old.lines ≡ false) }
        ensures unchanged { OnErr result (self.new ≡ self.old) }
        ensures lawful { StaysLawful P.gathered self.old self.new }
        ensures told { IfOk result (λ report. Polls now self.old report self.new) }
        ensures run { OnOk result (Runs P.gathered now self.old self.new) }
    {
        let mut released = ArrayVec::new();
        self.turn(now, &mut released)?;
        Ok(Report {
            released,
            standing: self.mux.standing(),
        })
    }

    /// Polls as `poll` does, without a report: for a caller that asks the networks for the frames.
    #[inline(always)]
    pub fn poll_unreported(&mut self, now: u64) -> Result<Standing, PollFault>
        requires { self.old.moment ≤ now }
        ensures both_down { IsErr result ↔ (is_alive self.old.lines ≡ false) }
        ensures unchanged { OnErr result (self.new ≡ self.old) }
        ensures lawful { StaysLawful P.gathered self.old self.new }
        ensures told { IfOk result (λ standing. PollsUnreported now self.old standing self.new) }
        ensures run { OnOk result (Runs P.gathered now self.old self.new) }
    {
        self.turn(now, &mut Unreported)?;
        Ok(self.mux.standing())
    }

    /// Publishes the counts of each link, once, in the order of the plan: the counts of the longer of its two streams.
    /// May wait for a monitor that is in the middle of a reading. Allocates nothing.
    pub fn publish<R: Wait>(&mut self, rt: &R)
        ensures { Publishes self.old self.new }
    {
        publish_all(rt, &self.links, &mut self.board);
    }
}

impl<A: Failable + Drop, B: Failable + Drop, P: Phase> Emitter<A, B, P> {
    /// Makes a network fail at each later frame. It stays up until then.
    pub fn fail(&mut self, net: Net)
        ensures { self.new ≡ record self.old { lines = with_failing net self.old.lines } }
    {
        self.mux.fail(net);
    }
}

impl<A: Network + Drop, B: Network + Drop> Emitter<A, B> {
    // Makes an emitter of new links of a plan, a buffer, networks that have accepted no frame, and an empty board.
    pub(crate) fn over(
        config: Config,
        links: Vec<Link>,
        frame: Box<FrameBuffer>,
        a: A,
        b: B,
        board: Board,
    ) -> Emitter<A, B>
        requires valid { IsPlan config }
        requires fresh { AreFreshLinks config links.items }
        requires a_empty { A.handed a ≡ [] }
        requires b_empty { B.handed b ≡ [] }
        requires a_new { A.failures a ≡ 0 }
        requires b_new { B.failures b ≡ 0 }
        requires board { length board ≡ length config.links }
        requires unpublished { (link : ℕ) → (published board link).history ≡ [] }
        ensures fresh { IsFreshTx config result }
        ensures links { result.links ≡ links.items }
        ensures board { result.board ≡ board }
    {
        Emitter {
            config,
            links: links.into_boxed_slice(),
            earliest: 0,
            mux: Mux::new(a, b),
            frame,
            moment: 0,
            board,
            emptied: None,
            phase: PhantomData,
        }
    }

    /// Closes a sub-VL, by its link and its index there, and returns the number of accepted
    /// messages. None is accepted from then on: each later close returns the same number, and
    /// after `gather` exactly that many are known. Accepted messages are still transmitted. Fails,
    /// and changes nothing, exactly if the plan has no such sub-VL. Never waits, and
    /// allocates nothing.
    pub fn close(&mut self, vl: VlId, sub: u8) -> Result<u64, NoSuchSub>
        ensures missing { IsErr result ↔ LacksSub self.old.plan vl.0 sub }
        ensures unchanged { OnErr result (self.new ≡ self.old) }
        ensures closed { IfOk result (λ total. ClosesTx self.old vl.0 sub total self.new) }
        ensures plan { self.new.plan ≡ self.old.plan }
        ensures lines { self.new.lines ≡ self.old.lines }
        ensures moment { self.new.moment ≡ self.old.moment }
        ensures queues { queues_in self.new.links ≡ queues_in self.old.links }
    {
        match link_of_sub(&self.config, vl, sub) {
            None => Err(NoSuchSub),
            Some(place) => Ok(self.links[place].close(sub)),
        }
    }

    /// Tells the emitter of the messages that a port has sent. A poll that comes to the port's sub-VL then finds each
    /// of them once it is the next, and not only one that happens to be ready. No message needs this call: it is for a
    /// caller who has both ends at hand, and states in a contract what a poll releases. Never waits, and allocates
    /// nothing.
    pub fn hear(&mut self, port: &mut TxPort)
        requires opened { IsPortOfTx self.old port.old }
        ensures emitter { HearsTx self.old port.old self.new }
        ensures port { port.new ≡ port.old }
        ensures counts { length port.old.sender.places ≡ length port.old.sender.own }
        ensures queues { queues_in self.new.links ≡ queues_in self.old.links }
    {
        let plan = port_at(&self.config, port.place());
        let place = link_of(&self.config, &plan);
        port.tell(&mut self.links[place]);
    }

    /// Takes back all ports, in any order, and starts draining: all accepted messages are then
    /// known, and can be transmitted. Fails exactly if the list lacks a port of the plan,
    /// and then returns both unchanged. Never waits, and allocates nothing.
    pub fn gather(
        self,
        mut ports: Vec<TxPort>,
    ) -> Result<Draining<A, B>, (Emitter<A, B>, Vec<TxPort>)>
        requires opened { AreOpenedWith self ports.items }
        ensures gathered { IfOk result (λ draining. IsGatheredTx self ports.items draining) }
        ensures conforms { IfOk result Conforms }
        ensures allowed { IfOk result (λ draining. AreAllowed draining.plan (accepted_in draining.links)) }
        ensures emitter_back { IfErr result (λ back. back.0 ≡ self) }
        ensures ports_back { IfErr result (λ back. back.1 ≡ ports) }
        ensures missing { IfErr result (λ _. LacksPlace (length self.plan.ports) ports.items) }
    {
        if !has_every_place(ports.as_slice(), self.config.ports().len()) {
            return Err((self, ports));
        }
        let Emitter {
            config,
            mut links,
            earliest,
            mux,
            frame,
            moment,
            board,
            ..
        } = self;
        gather_links(&config, &mut links, &mut ports);
        Ok(Emitter {
            config,
            links,
            earliest,
            mux,
            frame,
            moment,
            board,
            emptied: Some(ports),
            phase: PhantomData,
        })
    }
}

/// An emitter after its ports were taken back, which transmits the messages left in the queues. No more messages are
/// accepted. A due link has something to send exactly if one of its accepted messages isn't wholly released.
pub type Draining<A, B> = Emitter<A, B, Drain>;

impl<A: Network + Drop, B: Network + Drop> Emitter<A, B, Drain> {
    /// Returns true if at least one network accepted each fragment of each accepted message. After a frame was lost
    /// with the last network that carries its link, this stays false.
    pub fn is_done(&self) -> bool
        ensures done { IsTrue result ↔ IsAllDone self.now.plan (accepted_in self.now.links) (log self.now.lines) }
        ensures conforms { Conforms self.now }
    {
        all_done(&self.links)
    }

    /// Reads the link at a place of the plan by the emitter's monitor, as `Monitor::read`
    /// does, with one load. Since both ends of the board are here, it returns the last published
    /// counts of the link, or zeros before the first. Allocates nothing.
    pub fn read_last<R: Wait>(&mut self, rt: &R, monitor: &mut Monitor, link: usize) -> Counts
        requires published { link < length self.old.board }
        requires read { link < links_of monitor.old }
        requires same { (published self.old.board link).cell ≡ (seen monitor.old link).cell }
        ensures draining { self.new ≡ self.old }
        ensures reading { IsReading (seen monitor.old link) result (seen monitor.new link) }
        ensures others { monitor.new ≡ slice_set monitor.old link (seen monitor.new link) }
        ensures links { links_of monitor.new ≡ links_of monitor.old }
        ensures last { result ≡ last_of self.old.board link }
    {
        laws::read_last(rt, &mut self.board, monitor, link)
    }
}
