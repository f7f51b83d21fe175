//! The sends of one worker.
ghost use Rattle.std.specs.Prelude.{◌≡◌, ◌≤◌, [], ◌∷◌, OnOk};
ghost use Rattle.storm.specs.Workers.{message, named, with_more, sent_all, asked_by, asked_after};

use crate::fault::StormStop;
use crate::gate::Gate;
use afdx_plan::PortId;
use afdx_tx::TxPort;
use std::thread;

/// The load of a storm: the number of messages that each port sends, and the number of turns in which a worker may send
/// and the main thread may poll, while the workers run and again after them.
#[derive(Clone, Copy)]
pub(crate) struct Load {
    pub messages: u32,
    pub turns: u64,
}

/// The length of a message in bytes.
pub(crate) const MESSAGE_BYTES: usize = 6;

/// Returns message `call` of a port: the port's identifier in two bytes and `call` in four, high byte first.
fn make_message(port: PortId, call: u32) -> [u8; MESSAGE_BYTES]
    ensures { result ≡ message port.0 call }
{
    let [p0, p1] = port.0.to_be_bytes();
    let [c0, c1, c2, c3] = call.to_be_bytes();
    [p0, p1, c0, c1, c2, c3]
}

/// Sends a message, again and again if it is refused, as by a full queue. Each send is a turn.
#[tactic(auto, using(std::proofs::Common::arith))]
fn send_on(port: &mut TxPort, bytes: &[u8], turns: &mut u64) -> Result<(), StormStop>
    ensures sent { OnOk result (named port.new ≡ with_more port.old (bytes.now ∷ [])) }
    ensures asks { asked_after turns.new port.new ≤ asked_after turns.old port.old }
{
    while *turns > 0 {
        *turns -= 1;
        if port.send_slice(bytes).is_ok() {
            return Ok(());
        }
        thread::yield_now();
    }
    Err(StormStop::Turns)
}

/// Sends a port's messages from 1 on, each once the gate lets it in.
#[tactic(auto, using(std::proofs::lemmas::Grind::common_steps))]
pub(crate) fn work<G: Gate>(
    port: &mut TxPort,
    worker: usize,
    load: Load,
    gate: &G,
) -> Result<(), StormStop>
    ensures sent { OnOk result (named port.new ≡ sent_all load.messages port.old) }
    ensures asks { asked_by port.new ≤ asked_after load.turns port.old }
{
    let mut turns = load.turns;
    for sent in 0..load.messages {
        let call = sent + 1;
        if !gate.enter(worker, call) {
            return Err(StormStop::Turns);
        }
        send_on(port, &make_message(port.id(), call), &mut turns)?;
        gate.answered(worker, call);
    }
    Ok(())
}
