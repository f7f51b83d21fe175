//! The calls that send and poll, that close a sub-VL and that make a network fail.
ghost use Rattle.std.specs.Prelude.{◌≡◌, ◌≢◌, ◌⊎◌, ◌↔◌, ◌<◌, ◌≤◌, [], ◌∷◌, None, Some, IsSome, IsNone, true, false, length};
ghost use Rattle.redundant_mux.specs.Lines.{is_alive};
ghost use Rattle.afdx_tx.specs.declared.fault.Refusal.{Refusal};
ghost use Rattle.afdx_tx.specs.Ports.{Accepts, Refuses};
ghost use Rattle.afdx_tx.specs.Calls.{LacksSub};
ghost use Rattle.afdx_handle.specs.Numbers.{IsOneOf, net_of, refusal_number, standing_bits};
ghost use Rattle.afdx_handle.specs.Calls.{ChangesEnd};
ghost use Rattle.afdx_handle.specs.EndSystem.{PollsEnd, ClosesEnd, FailsEnd};
ghost use Rattle.afdx_frame.specs.declared.net.Net.{Net};
ghost use Rattle.afdx_handle.specs.Held.{end_of, HoldsNothing, HoldsEnd, HoldsPort, HoldsSame, EndDoes, PortDoes};

use crate::content::{at_end, with_end, with_port};
use afdx_handle::answer::{
    BOTH_DOWN, DONE, GATHERED, NO_NETWORK, NO_SUB, NOT_HELD, TIME_BACK, WRONG_HANDLE, net_of,
    refusal_number,
};
use afdx_handle::{Handle, Home};

/// Copies a message to the end of the queue of the port's sub-VL.
#[unsafe(no_mangle)]
pub extern "C" fn afdx_send(port: &mut Handle, message: &[u8]) -> u8
    ensures answers { (result ≤ 5) ⊎ IsOneOf result (NOT_HELD ∷ WRONG_HANDLE ∷ []) }
    ensures not_held { (result ≡ NOT_HELD) ↔ HoldsNothing port.old.kept.home }
    ensures wrong_handle { (result ≡ WRONG_HANDLE) ↔ IsSome (end_of port.old.kept.home) }
    ensures accepted { result ≡ DONE → PortDoes port.old.kept.home port.new.kept.home
        (λ old new. Accepts old message.now new) }
    ensures refused { (why : Refusal) → result ≡ refusal_number why
        → PortDoes port.old.kept.home port.new.kept.home (λ old new. Refuses old (length message.now) why new) }
    ensures misused { 32 ≤ result → HoldsSame port.old.kept.home port.new.kept.home }
{
    with_port!(port, own => match own.send_slice(message) {
        Ok(()) => DONE,
        Err(why) => refusal_number(why),
    })
}

/// Writes the number of a port's accepted messages.
#[unsafe(no_mangle)]
pub extern "C" fn afdx_accepted(port: &mut Handle, count: &mut u64) -> u8
    ensures answers { IsOneOf result (DONE ∷ NOT_HELD ∷ WRONG_HANDLE ∷ []) }
    ensures not_held { (result ≡ NOT_HELD) ↔ HoldsNothing port.old.kept.home }
    ensures wrong_handle { (result ≡ WRONG_HANDLE) ↔ IsSome (end_of port.old.kept.home) }
    ensures counted { result ≡ DONE → HoldsPort port.old.kept.home (λ own. count.new ≡ length own.sender.own) }
    ensures same { HoldsSame port.old.kept.home port.new.kept.home }
    ensures unwritten { result ≢ DONE → count.new ≡ count.old }
{
    with_port!(port, own => {
        *count = own.accepted();
        DONE
    })
}

/// Gives each virtual link its turn at `now`, in microseconds, and writes which networks are up.
#[unsafe(no_mangle)]
pub extern "C" fn afdx_poll(it: &mut Handle, now: u64, standing: &mut u8) -> u8
    ensures changes { ChangesEnd it.old.kept.home it.new.kept.home (TIME_BACK ∷ BOTH_DOWN ∷ []) result }
    ensures time_back { (result ≡ TIME_BACK) ↔ HoldsEnd it.old.kept.home (λ end. now < end.tx.moment) }
    ensures both_down { (result ≡ BOTH_DOWN) ↔ HoldsEnd it.old.kept.home (λ end.
        (end.tx.moment ≤ now) × (is_alive end.tx.lines ≡ false)) }
    ensures polled { result ≡ DONE → EndDoes it.old.kept.home it.new.kept.home (PollsEnd now) }
    ensures stand { result ≡ DONE → HoldsEnd it.new.kept.home (λ end.
        standing.new ≡ standing_bits end.tx.lines.a_stands end.tx.lines.b_stands) }
    ensures none_stands { result ≡ BOTH_DOWN → standing.new ≡ 0 }
    ensures unwritten { result ≢ DONE → result ≢ BOTH_DOWN → standing.new ≡ standing.old }
{
    with_end!(it, end_system => end_system.poll(now, standing))
}

/// Makes a network fail at each later frame. It stays up until then.
#[unsafe(no_mangle)]
pub extern "C" fn afdx_fail(it: &mut Handle, network: u8) -> u8
    ensures changes { ChangesEnd it.old.kept.home it.new.kept.home (NO_NETWORK ∷ []) result }
    ensures no_network { (result ≡ NO_NETWORK) ↔ (IsSome (end_of it.old.kept.home) × IsNone (net_of network)) }
    ensures failed { (net : Net) → net_of network ≡ Some net → result ≡ DONE
        → EndDoes it.old.kept.home it.new.kept.home (FailsEnd net) }
{
    with_end!(it, end => match net_of(network) {
        Some(net) => {
            end.fail(net);
            DONE
        }
        None => NO_NETWORK,
    })
}

/// Closes a sub-VL, and writes the number of accepted messages.
#[unsafe(no_mangle)]
pub extern "C" fn afdx_close(it: &mut Handle, vl: u16, sub: u8, total: &mut u64) -> u8
    ensures changes { ChangesEnd it.old.kept.home it.new.kept.home (GATHERED ∷ NO_SUB ∷ []) result }
    ensures gathered { (result ≡ GATHERED) ↔ HoldsEnd it.old.kept.home (λ end. end.gathered ≡ true) }
    ensures no_sub { (result ≡ NO_SUB) ↔ HoldsEnd it.old.kept.home (λ end.
        (end.gathered ≡ false) × LacksSub end.tx.plan vl sub) }
    ensures closed { result ≡ DONE → EndDoes it.old.kept.home it.new.kept.home
        (λ old new. ClosesEnd old vl sub total.new new) }
    ensures unwritten { result ≢ DONE → total.new ≡ total.old }
{
    with_end!(it, end_system => end_system.close(vl, sub, total))
}
