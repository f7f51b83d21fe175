//! An emitter with its ports, and obeying a line.
ghost use Rattle.std.specs.Prelude.{◌≡◌, ◌≤◌, IfOk, IfErr};
ghost use Rattle.tx_script.specs.declared.obey_lines.TheConstants.{LINES_LIMIT};
ghost use Rattle.subvl_queue.specs.Messages.{most_calls};
ghost use Rattle.tx_script.specs.AtBench.{HaveAsked, Sends, Obeys, OnlyTakes, AtBench, IsAtHand, IsFreshBench, IsGathered};
ghost use Rattle.tx_script.specs.Play.{script_refusal};
ghost use Rattle.script_text.specs.declared.line_meaning.Line.TheVariants as Said;
ghost use Rattle.script_text.specs.declared.faults.RunFault.TheVariants as RunFault;

use afdx_plan::{Config, PortId, VlId};
use afdx_tx::{Emitter, TxPort, open_tx};
use redundant_mux::FrameLog;
use script_text::{Line, Message, Outcome, Refusal, RunFault};
use std::alloc::Global;
use std::marker::Model;

/// The emitter of a script, over two networks in memory, and its ports in the order of the
/// plan.
#[derive(Drop)]
pub struct Bench {
    emitter: Emitter<FrameLog, FrameLog>,
    ports: Vec<TxPort>,
}

impl Model for Bench {
    ghost Value = { AtBench };

    ghost view = { λ b. record { tx = b.emitter; ports = b.ports.items } };

    ghost invariant = { λ b. IsAtHand b.emitter b.ports.items };
}

impl Bench {
    ghost use Rattle.script_text.specs.declared.faults.RunFault.TheVariants as RunFault;

    /// Opens a bench. The only fault is `Memory`.
    #[tactic(auto, using(std::proofs::Common::arith))]
    pub fn open(alloc: Global, config: Config) -> Result<Bench, RunFault>
        ensures fresh { IfOk result (λ bench. IsFreshBench config bench) }
        ensures err { IfErr result (λ fault. fault ≡ RunFault.Memory) }
    {
        let a = FrameLog::new(alloc);
        let b = FrameLog::new(alloc);
        match open_tx(alloc, config, a, b) {
            Ok((emitter, ports, _monitor)) => Ok(Bench { emitter, ports }),
            Err(_) => Err(RunFault::Memory),
        }
    }

    /// Returns the two networks, with the frames sent to them. All ports are taken back first, so all that was accepted
    /// is known.
    #[tactic(auto, using(crate::proofs::Finding::none_missing))]
    pub fn into_networks(self) -> (FrameLog, FrameLog)
        ensures a { result.0.handed ≡ self.tx.lines.a }
        ensures b { result.1.handed ≡ self.tx.lines.b }
        ensures gathered { IsGathered self }
    {
        let Bench { emitter, ports } = self;
        match emitter.gather(ports) {
            Ok(draining) => draining.into_networks(),
            Err(_) => unreachable!(),
        }
    }
}

fn refused_for(why: afdx_tx::Refusal) -> Refusal
    ensures { result ≡ script_refusal why }
{
    match why {
        afdx_tx::Refusal::Empty => Refusal::Empty,
        afdx_tx::Refusal::TooLong => Refusal::TooLong,
        afdx_tx::Refusal::Closed => Refusal::Closed,
        afdx_tx::Refusal::Exhausted => Refusal::Exhausted,
        afdx_tx::Refusal::Full => Refusal::Full,
    }
}

/// Sends a message by a port. A script has fewer lines than a port may request slots, so none is
/// exhausted.
#[tactic(auto, using(crate::proofs::Sending::sends_refused))]
fn send_message(port: &mut TxPort, message: Message) -> Outcome
    requires calls { port.old.sender.calls ≡ most_calls }
    requires asks { port.old.sender.asks ≤ LINES_LIMIT }
    ensures { Sends port.old message port.new result }
{
    match port.send_slice(message.as_slice()) {
        Ok(()) => Outcome::Accepted,
        Err(why) => Outcome::Refused(refused_for(why)),
    }
}

/// Sends a message of a port, by its identifier.
fn obey_send(bench: &mut Bench, port: u16, bytes: Message) -> Outcome
    requires { HaveAsked LINES_LIMIT bench.old.ports }
    ensures { Obeys (Said.Send port bytes) bench.old bench.new result }
{
    match bench.emitter.config().port_index(PortId(port)) {
        Some(place) => send_message(&mut bench.ports[place], bytes),
        None => Outcome::Refused(Refusal::NoPort),
    }
}

/// Polls the emitter. A network in memory fails only if an allocation fails.
fn obey_at(bench: &mut Bench, moment: u64) -> Result<Outcome, RunFault>
    ensures ok { IfOk result (Obeys (Said.At moment) bench.old bench.new) }
    ensures err { IfErr result (λ fault. fault ≡ RunFault.Memory) }
    ensures takes { OnlyTakes bench.old bench.new }
{
    if moment < bench.emitter.now() {
        return Ok(Outcome::Refused(Refusal::TimeBack));
    }
    match bench.emitter.poll(moment) {
        Ok(report) => {
            if report.standing.a && report.standing.b {
                Ok(Outcome::Released(report.released.len() as u64))
            } else {
                Err(RunFault::Memory)
            }
        }
        Err(_) => Err(RunFault::Memory),
    }
}

/// Closes a sub-VL, by the identifier of its link and its index.
fn obey_close(bench: &mut Bench, vl: u16, sub: u8) -> Outcome
    ensures { Obeys (Said.Close vl sub) bench.old bench.new result }
{
    match bench.emitter.close(VlId(vl), sub) {
        Ok(total) => Outcome::Closed(total),
        Err(_) => Outcome::Refused(Refusal::NoSub),
    }
}

/// Obeys a line. The only fault is Memory; then the line sent no message and closed no sub-VL.
#[tactic(auto, using(crate::proofs::Sending::obeys_still))]
pub fn obey(bench: &mut Bench, line: Line) -> Result<Outcome, RunFault>
    requires { HaveAsked LINES_LIMIT bench.old.ports }
    ensures ok { IfOk result (Obeys line bench.old bench.new) }
    ensures err { IfErr result (λ fault. fault ≡ RunFault.Memory) }
    ensures halted { IfErr result (λ _. OnlyTakes bench.old bench.new) }
{
    match line {
        Line::Send { port, bytes } => Ok(obey_send(bench, port, bytes)),
        Line::At(moment) => obey_at(bench, moment),
        Line::Close { vl, sub } => Ok(obey_close(bench, vl, sub)),
        Line::Nothing => Ok(Outcome::Quiet),
    }
}
