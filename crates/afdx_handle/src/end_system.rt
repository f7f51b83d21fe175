//! An end system, as a handle owns it, with its emitter before and after its ports are gathered.
ghost use Rattle.std.specs.Prelude.{◌≡◌, ℕ, length, vec_capacity, ◌≢◌, ◌<◌, ◌≤◌, ◌+◌, ◌⊎◌, ◌↔◌, false, true, IsErr, OnErr, OnOk, IfOk, IsNone, IfSome, map};
ghost use Rattle.afdx_handle.specs.EndSystem.{tx_of, is_gathered, EndView, IsEndSystem, end_view, PollsEnd, ClosesEnd, FailsEnd, before_of, made_for, made_at, IsAllSent};
ghost use Rattle.redundant_mux.specs.Lines.{is_alive, with_failing};
ghost use Rattle.afdx_tx.specs.Calls.{LacksSub, TellsNextDue};
ghost use Rattle.afdx_handle.specs.Numbers.{line_of, standing_bits};
ghost use Rattle.afdx_handle.specs.Listing.{with_front, all_made, bytes_of, lengths_of, port_id, link_id};
ghost use Rattle.std.specs.List.{concat};
ghost use Rattle.afdx_tx.specs.Emitter.{LacksLink};
ghost use Rattle.afdx_legal.specs.Counting.{counts_in};
ghost use Rattle.afdx_legal.specs.Streams.{own_stream};
ghost use Rattle.afdx_tx.specs.Phases.{Runs, StaysLawful};
ghost use Rattle.afdx_tx.specs.Report.{PollsUnreported};

use crate::answer::{
    BOTH_DOWN, DONE, GATHERED, NO_SUB, NOT_GATHERED, SMALL_BUFFER, TIME_BACK, put_at, standing_bits,
};
use crate::handle::Block;
use afdx_frame::Net;
use afdx_plan::{Config, LinkPlan, PortPlan, VlId};
use afdx_tx::{Draining, Emitter, PollFault, TxPort};
use redundant_mux::{LastTime, Outbox, Standing};
use status_board::Counts;
use std::marker::Model;

/// An emitter over two outboxes, which keep the frames of one poll, before or after its ports are gathered.
#[derive(Drop)]
pub enum Stage {
    Sending(Emitter<Outbox<LastTime>, Outbox<LastTime>>),
    Draining(Draining<Outbox<LastTime>, Outbox<LastTime>>),
}

// The answer of `$answer` over the emitter of a stage, which both phases have.
macro_rules! in_phase {
    ($stage:expr, $it:ident => $answer:expr) => {
        match $stage {
            Stage::Sending($it) => $answer,
            Stage::Draining($it) => $answer,
        }
    };
}

impl Stage {
    /// Returns the time of the last poll, in microseconds.
    pub fn now(&self) -> u64
        ensures { result ≡ (tx_of self.now).moment }
    {
        in_phase!(self, it => it.now())
    }

    /// Returns a network.
    pub fn network(&self, net: Net) -> &Outbox<LastTime>
        ensures { result.now.handed ≡ line_of net (tx_of self.now).lines }
    {
        match net {
            Net::A => in_phase!(self, it => it.network_a()),
            Net::B => in_phase!(self, it => it.network_b()),
        }
    }

    /// Makes a network fail at each later frame.
    pub fn fail(&mut self, net: Net)
        ensures tx { tx_of self.new ≡ record (tx_of self.old) { lines = with_failing net (tx_of self.old).lines } }
        ensures stage { is_gathered self.new ≡ is_gathered self.old }
    {
        in_phase!(self, it => it.fail(net))
    }

    /// Returns the plan.
    pub fn config(&self) -> &Config
        ensures { result.now ≡ (tx_of self.now).plan }
    {
        in_phase!(self, it => it.config())
    }

    /// Returns the first time after the last poll at which a link that wasn't due then becomes due.
    pub fn next_due(&self) -> Option<u64>
        ensures { TellsNextDue (tx_of self.now) result }
    {
        in_phase!(self, it => it.next_due())
    }

    /// Returns the counts of a link, by its identifier.
    pub fn counts(&self, vl: VlId) -> Option<Counts>
        ensures missing { IsNone result ↔ LacksLink (tx_of self.now).plan vl.0 }
        ensures counts { IfSome result (λ counts.
            counts ≡ counts_in (own_stream vl.0 (tx_of self.now).lines.a (tx_of self.now).lines.b)) }
    {
        in_phase!(self, it => it.counts(vl))
    }

    /// Gives each link its turn at `now`, in microseconds, and returns which networks are up. An error changes
    /// nothing.
    pub fn poll(&mut self, now: u64) -> Result<Standing, PollFault>
        requires { (tx_of self.old).moment ≤ now }
        ensures both_down { IsErr result ↔ (is_alive (tx_of self.old).lines ≡ false) }
        ensures unchanged { OnErr result (self.new ≡ self.old) }
        ensures stage { is_gathered self.new ≡ is_gathered self.old }
        ensures lawful { StaysLawful (is_gathered self.old) (tx_of self.old) (tx_of self.new) }
        ensures told { IfOk result (λ standing. PollsUnreported now (tx_of self.old) standing (tx_of self.new)) }
        ensures run { OnOk result (Runs (is_gathered self.old) now (tx_of self.old) (tx_of self.new)) }
    {
        in_phase!(self, it => Ok(it.poll_unreported(now)?))
    }
}

/// An end system: its emitter, the ports in it, the number of frames that each network had accepted before the last
/// poll, and the block whose address is its mark. Each port that is out owns that block too. So no other end system has
/// the same mark while this one or one of its ports exists.
#[derive(Drop)]
pub struct EndSystem {
    pub stage: Stage,
    pub ports: Vec<TxPort>,
    pub a_before: u64,
    pub b_before: u64,
    pub block: Block,
}

impl Model for EndSystem {
    ghost Value = { EndView };

    ghost view = { λ e. end_view (is_gathered e.stage) (tx_of e.stage) e.ports.items (vec_capacity e.ports)
        e.a_before e.b_before e.block };

    ghost invariant = { λ e. IsEndSystem (end_view (is_gathered e.stage) (tx_of e.stage) e.ports.items
        (vec_capacity e.ports) e.a_before e.b_before e.block) };
}

impl EndSystem {
    /// Gives each link its turn at `now`, in microseconds, and writes the networks that are up
    /// afterwards, as bits. `TIME_BACK` if `now` is before an earlier poll; `BOTH_DOWN`, with no
    /// bits, if both networks have failed before. Both leave it unchanged.
    pub fn poll(&mut self, now: u64, standing: &mut u8) -> u8
        ensures answers { (result ≡ DONE) ⊎ ((result ≡ TIME_BACK) ⊎ (result ≡ BOTH_DOWN)) }
        ensures time_back { (result ≡ TIME_BACK) ↔ (now < self.old.tx.moment) }
        ensures both_down { (result ≡ BOTH_DOWN) ↔ ((self.old.tx.moment ≤ now) × (is_alive self.old.tx.lines ≡ false)) }
        ensures polled { result ≡ DONE → PollsEnd now self.old self.new }
        ensures stand { result ≡ DONE → standing.new ≡
            standing_bits self.new.tx.lines.a_stands self.new.tx.lines.b_stands }
        ensures refused { result ≢ DONE → self.new ≡ self.old }
        ensures none_stands { result ≡ BOTH_DOWN → standing.new ≡ 0 }
        ensures unwritten { result ≡ TIME_BACK → standing.new ≡ standing.old }
    {
        if now < self.stage.now() {
            return TIME_BACK;
        }
        let a_before = self.stage.network(Net::A).count();
        let b_before = self.stage.network(Net::B).count();
        let Ok(up) = self.stage.poll(now) else {
            *standing = 0;
            return BOTH_DOWN;
        };
        self.a_before = a_before;
        self.b_before = b_before;
        *standing = standing_bits(up);
        DONE
    }

    /// Returns the number of the first frame that the last poll made for a network, and the number after its last.
    fn numbers(&self, net: Net) -> (u64, u64)
        ensures first { result.0 ≡ before_of net self.now }
        ensures end { result.1 ≡ length (line_of net self.now.tx.lines) }
        ensures few { result.1 ≤ result.0 + 64 }
    {
        match net {
            Net::A => (self.a_before, self.stage.network(Net::A).count()),
            Net::B => (self.b_before, self.stage.network(Net::B).count()),
        }
    }

    /// Returns the number of frames that the last poll made for a network.
    pub fn frames(&self, net: Net) -> usize
        ensures count { result ≡ made_for net self.now }
        ensures few { result ≤ 64 }
    {
        let (first, end) = self.numbers(net);
        end.saturating_sub(first) as usize
    }

    /// Returns frame `k`, from 0, that the last poll made for a network.
    pub fn made(&self, net: Net, k: usize) -> &[u8]
        requires { k < made_for net self.now }
        ensures frame { result.now ≡ made_at net k self.now }
        ensures most { length result.now ≤ 1514 }
    {
        let (first, _end) = self.numbers(net);
        let Some(kept) = self.stage.network(net).frame(first + k as u64) else {
            unreachable!();
        };
        kept.frame.as_slice()
    }

    /// Returns the total length of the frames that the last poll made for a network.
    #[tactic(auto, using(crate::proofs::MadeFrames::bytes_more))]
    fn made_bytes(&self, net: Net) -> usize
        ensures { result ≡ bytes_of (all_made net self.now) }
    {
        let mut total = 0;
        for k in 0..self.frames(net) {
            total += self.made(net, k).len();
        }
        total
    }

    /// Copies all frames that the last poll made for a network into a buffer, one after the other, and writes their
    /// lengths and their number. On `SMALL_BUFFER`, if the buffer is too small for their bytes or the list for their
    /// lengths, writes only the number.
    pub fn all_frames(
        &self,
        net: Net,
        buffer: &mut [u8],
        lengths: &mut [usize],
        count: &mut usize,
    ) -> u8
        ensures answers { (result ≡ DONE) ⊎ (result ≡ SMALL_BUFFER) }
        ensures small { (result ≡ SMALL_BUFFER) ↔ ((length buffer.old < bytes_of (all_made net self.now))
            ⊎ (length lengths.old < made_for net self.now)) }
        ensures copied { result ≡ DONE → buffer.new ≡ with_front (concat (all_made net self.now)) buffer.old }
        ensures lengths { result ≡ DONE → lengths.new ≡ with_front (lengths_of (all_made net self.now)) lengths.old }
        ensures count { count.new ≡ made_for net self.now }
        ensures unwritten { result ≢ DONE → (buffer.new ≡ buffer.old) × (lengths.new ≡ lengths.old) }
    {
        let many = self.frames(net);
        *count = many;
        if lengths.len() < many || buffer.len() < self.made_bytes(net) {
            return SMALL_BUFFER;
        }
        let mut at = 0;
        for k in 0..many {
            let bytes = self.made(net, k);
            put_at(buffer, at, bytes);
            lengths[k] = bytes.len();
            at += bytes.len();
        }
        DONE
    }

    /// Makes a network fail at each later frame. It stays up until then.
    pub fn fail(&mut self, net: Net)
        ensures { FailsEnd net self.old self.new }
    {
        self.stage.fail(net);
    }

    /// Closes a sub-VL, by its link and its index there, and writes the number of accepted messages. `GATHERED` if the
    /// ports were gathered, `NO_SUB` if there is no such sub-VL; then nothing changes.
    pub fn close(&mut self, vl: u16, sub: u8, total: &mut u64) -> u8
        ensures answers { (result ≡ DONE) ⊎ ((result ≡ GATHERED) ⊎ (result ≡ NO_SUB)) }
        ensures gathered { (result ≡ GATHERED) ↔ (self.old.gathered ≡ true) }
        ensures no_sub { (result ≡ NO_SUB) ↔ ((self.old.gathered ≡ false) × LacksSub self.old.tx.plan vl sub) }
        ensures closed { result ≡ DONE → ClosesEnd self.old vl sub total.new self.new }
        ensures refused { result ≢ DONE → (self.new ≡ self.old) × (total.new ≡ total.old) }
    {
        let Stage::Sending(emitter) = &mut self.stage else {
            return GATHERED;
        };
        match emitter.close(VlId(vl), sub) {
            Ok(count) => {
                *total = count;
                DONE
            }
            Err(_) => NO_SUB,
        }
    }

    /// Writes 1 if at least one network accepted each fragment of each accepted message, otherwise
    /// 0. `NOT_GATHERED`, with nothing written, if the ports weren't gathered yet.
    pub fn is_done(&self, done: &mut u8) -> u8
        ensures answers { (result ≡ DONE) ⊎ (result ≡ NOT_GATHERED) }
        ensures not_gathered { (result ≡ NOT_GATHERED) ↔ (self.now.gathered ≡ false) }
        ensures done { result ≡ DONE → ((done.new ≡ 1) ↔ IsAllSent self.now) }
        ensures flag { result ≡ DONE → done.new ≤ 1 }
        ensures unwritten { result ≢ DONE → done.new ≡ done.old }
    {
        let Stage::Draining(draining) = &self.stage else {
            return NOT_GATHERED;
        };
        *done = if draining.is_done() { 1 } else { 0 };
        DONE
    }
}

/// Writes the identifiers of ports.
pub fn write_port_ids(ports: &[PortPlan], ids: &mut [u16])
    requires { length ports.now ≤ length ids.old }
    ensures { ids.new ≡ with_front (map port_id ports.now) ids.old }
{
    for k in 0..ports.len() {
        ids[k] = ports[k].id.0;
    }
}

/// Writes the identifiers of links.
pub fn write_link_ids(links: &[LinkPlan], ids: &mut [u16])
    requires { length links.now ≤ length ids.old }
    ensures { ids.new ≡ with_front (map link_id links.now) ids.old }
{
    for k in 0..links.len() {
        ids[k] = links[k].id.0;
    }
}
