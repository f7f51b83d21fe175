//! Polls as steps of a run.
ghost use Rattle.std.specs.Prelude.{◌≡◌, ◌≤◌, ◌↔◌, false, length, IsErr, OnErr, OnOk, IfOk, IfErr};
ghost use Rattle.redundant_mux.specs.Lines.{is_alive};
ghost use Rattle.afdx_tx.specs.Report.{Polls};
ghost use Rattle.afdx_laws.specs.Runs.{IsReady, EmitterPolls, DrainPolls};
ghost use Rattle.afdx_laws.specs.HeardInRun.{FindsSent};
ghost use Rattle.afdx_plan.specs.Config.{IsPlan};
ghost use Rattle.afdx_tx.specs.Ports.{Accepts, IsPortOfTx, Refuses};

use afdx_tx::{Draining, Emitter, PollFault, Refusal, Report, TxPort};
use redundant_mux::Network;

/// Polls a ready emitter and leaves it ready: a step of a run, by the contract of `Emitter::poll` alone.
pub fn poll_emitter<A: Network + Drop, B: Network + Drop>(
    emitter: &mut Emitter<A, B>,
    now: u64,
) -> Result<Report, PollFault>
    requires later { emitter.old.moment ≤ now }
    requires ready { IsReady emitter.old }
    ensures both_down { IsErr result ↔ (is_alive emitter.old.lines ≡ false) }
    ensures unchanged { OnErr result (emitter.new ≡ emitter.old) }
    ensures told { IfOk result (λ report. Polls now emitter.old report emitter.new) }
    ensures step { OnOk result (EmitterPolls emitter.old.plan now emitter.old.lines emitter.new.lines) }
    ensures ready { OnOk result (IsReady emitter.new) }
{
    emitter.poll(now)
}

/// Polls a drain: a step of a run, by the contract of `Draining::poll` alone.
pub fn poll_drain<A: Network + Drop, B: Network + Drop>(
    draining: &mut Draining<A, B>,
    now: u64,
) -> Result<Report, PollFault>
    requires later { draining.old.moment ≤ now }
    ensures both_down { IsErr result ↔ (is_alive draining.old.lines ≡ false) }
    ensures unchanged { OnErr result (draining.new ≡ draining.old) }
    ensures told { IfOk result (λ report. Polls now draining.old report draining.new) }
    ensures step { OnOk result (DrainPolls draining.old.plan now draining.old.lines draining.new.lines) }
{
    draining.poll(now)
}

/// Sends a message and polls. If the port accepts the message, and it is the next of its sub-VL, the poll finds it:
/// it releases the first fragment, if it is the sub-VL's turn (`FindsSent`).
pub fn finds_sent<A: Network + Drop, B: Network + Drop>(
    emitter: &mut Emitter<A, B>,
    port: &mut TxPort,
    bytes: &[u8],
    now: u64,
) -> Result<Result<Report, PollFault>, Refusal>
    requires valid { IsPlan emitter.old.plan }
    requires ready { IsReady emitter.old }
    requires opened { IsPortOfTx emitter.old port.old }
    requires later { emitter.old.moment ≤ now }
    ensures accepted { IfOk result (λ _. Accepts port.old bytes.now port.new) }
    ensures found { IfOk result (λ _. FindsSent now emitter.old port.old bytes.now port.new emitter.new) }
    ensures refused { IfErr result (λ why. Refuses port.old (length bytes.now) why port.new) }
    ensures unchanged { IfErr result (λ _. emitter.new ≡ emitter.old) }
{
    port.send_slice(bytes)?;
    emitter.hear(port);
    Ok(emitter.poll(now))
}
