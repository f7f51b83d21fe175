//! The ports of an end system: taking them out, giving them back and gathering them.
ghost use Rattle.std.specs.Prelude.{◌≡◌, ◌≢◌, ◌<◌, ◌⊎◌, ◌↔◌, [], ◌∷◌, Option, Some, None, true, false, length, position, IfOk, IfErr, OnOk, OnErr, IsSome, MatchBool};
ghost use Rattle.afdx_tx.specs.Ports.{PortView, IsPortOfTx, LacksPlace};
ghost use Rattle.afdx_handle.specs.EndSystem.{has_id, TakesPort, GivesBack, GathersEnd};
ghost use Rattle.afdx_handle.specs.Held.{end_of, port_of, port_block, HoldsNothing, HoldsOne, HoldsPort, HoldsSame};
ghost use Rattle.afdx_handle.specs.Numbers.{IsOneOf};

use crate::answer::{DONE, GATHERED, MEMORY, NO_PORT, NOT_HELD, PORT_MISSING, WRONG_HANDLE};
use crate::end_system::{EndSystem, Stage};
use crate::handle::{Home, OwnPort};
use afdx_tx::TxPort;
use std::alloc::Global;
use std::mem;

/// Returns the index of the port with this identifier, if it is in the list.
fn position_of(ports: &[TxPort], id: u16) -> Option<usize>
    ensures { result ≡ position (has_id id) ports.now }
{
    ports.iter().position(|port| port.id().0 == id)
}

/// Takes out the port at an index.
fn take_at(it: &mut EndSystem, id: u16, at: usize) -> TxPort
    requires { position (has_id id) it.old.ports ≡ Some at }
    ensures { TakesPort it.old id result it.new }
{
    it.ports.swap_remove(at)
}

/// Puts a port back. Allocates nothing.
fn give_back(it: &mut EndSystem, port: TxPort)
    requires room { it.old.room ≢ length it.old.ports }
    requires own { it.old.gathered ≡ false → IsPortOfTx it.old.tx port }
    ensures { GivesBack it.old port it.new }
{
    it.ports.push_reserved(port);
}

/// Starts draining. `GATHERED` if the ports were gathered before, `PORT_MISSING` if a port of the
/// plan is out; then nothing changes.
pub fn gather(alloc: Global, it: EndSystem) -> (EndSystem, u8)
    ensures answers { (result.1 ≡ DONE) ⊎ ((result.1 ≡ GATHERED) ⊎ (result.1 ≡ PORT_MISSING)) }
    ensures gathered { (result.1 ≡ GATHERED) ↔ (it.gathered ≡ true) }
    ensures missing { (result.1 ≡ PORT_MISSING) ↔
        ((it.gathered ≡ false) × LacksPlace (length it.tx.plan.ports) it.ports) }
    ensures gathers { result.1 ≡ DONE → GathersEnd it result.0 }
    ensures refused { result.1 ≢ DONE → result.0 ≡ it }
{
    let EndSystem {
        stage,
        ports,
        a_before,
        b_before,
        block,
    } = it;
    let (stage, ports, answer) = match stage {
        Stage::Draining(draining) => (Stage::Draining(draining), ports, GATHERED),
        Stage::Sending(emitter) => match emitter.gather(ports) {
            Ok(draining) => (Stage::Draining(draining), Vec::new(alloc), DONE),
            Err((emitter, ports)) => (Stage::Sending(emitter), ports, PORT_MISSING),
        },
    };
    let it = EndSystem {
        stage,
        ports,
        a_before,
        b_before,
        block,
    };
    (it, answer)
}

/// Takes out the port with this identifier, in one of the empty boxes. `GATHERED` if the ports were gathered, `NO_PORT`
/// if no such port is in the end system, `MEMORY` if there is no box or no more owner; then nothing changes. Allocates
/// nothing.
pub fn take_port(it: &mut EndSystem, boxes: &mut Vec<Box<Home>>, id: u16) -> Result<Box<Home>, u8>
    ensures numbers { IfErr result (λ number. (number ≡ GATHERED) ⊎ ((number ≡ NO_PORT) ⊎ (number ≡ MEMORY))) }
    ensures gathered { IfErr result (λ number. (number ≡ GATHERED) ↔ (it.old.gathered ≡ true)) }
    ensures no_port { IfErr result (λ number. (number ≡ NO_PORT) ↔
        ((it.old.gathered ≡ false) × (position (has_id id) it.old.ports ≡ None))) }
    ensures sending { OnOk result (it.old.gathered ≡ false) }
    ensures here { OnOk result (IsSome (position (has_id id) it.old.ports)) }
    ensures taken { IfOk result (λ home. HoldsPort (Some home.value) (λ port. TakesPort it.old id port it.new)) }
    ensures block { IfOk result (λ home. port_block (Some home.value) ≡ Some it.old.block) }
    ensures refused { OnErr result (it.new ≡ it.old) }
{
    if let Stage::Draining(_) = &it.stage {
        return Err(GATHERED);
    }
    let Some(at) = position_of(&it.ports, id) else {
        return Err(NO_PORT);
    };
    let Ok(block) = it.block.another_owner() else {
        return Err(MEMORY);
    };
    let Some(mut home) = boxes.pop() else {
        return Err(MEMORY);
    };
    let port = take_at(it, id, at);
    // `drop` frees the old content in one step; an assignment takes it apart field by field.
    drop(mem::replace(&mut *home, Home::Port(OwnPort { port, block })));
    Ok(home)
}

/// Keeps an empty box beside an end system, for a port that is taken out later.
pub fn keep_box(it: &mut Home, empty: Box<Home>)
    ensures { HoldsSame (Some it.old) (Some it.new) }
{
    if let Home::EndSystem(_inside, boxes) = it {
        if boxes.len() < boxes.capacity() {
            boxes.push_reserved(empty);
        }
    }
}

/// Returns true if the home is empty.
pub fn is_nothing(home: &Home) -> bool
    ensures { MatchBool result (HoldsNothing (Some home.now)) (HoldsOne (Some home.now)) }
{
    match home {
        Home::EndSystem(inside, _boxes) => inside.is_none(),
        Home::Port(_) => false,
        Home::Nothing => true,
    }
}

/// Puts the port in `theirs` back into the end system, and leaves `theirs` empty. `NOT_HELD` if `theirs` is empty,
/// `WRONG_HANDLE` if it is an end system, `GATHERED` if the ports were gathered, and `NO_PORT` if its mark is another
/// end system's, or if every port is already back; then nothing changes. Allocates nothing.
pub fn give_to(it: &mut EndSystem, theirs: &mut Home, own: bool) -> u8
    requires own { (port : PortView) → port_of (Some theirs.old) ≡ Some port → own ≡ true
        → it.old.gathered ≡ false → IsPortOfTx it.old.tx port }
    ensures not_held { (result ≡ NOT_HELD) ↔ HoldsNothing (Some theirs.old) }
    ensures wrong_handle { (result ≡ WRONG_HANDLE) ↔ IsSome (end_of (Some theirs.old)) }
    ensures no_port { (result ≡ NO_PORT) ↔ (IsSome (port_of (Some theirs.old))
        × (it.old.gathered ≡ false) × ((own ≡ false) ⊎ (it.old.room ≡ length it.old.ports))) }
    ensures answers { IsOneOf result (DONE ∷ NOT_HELD ∷ WRONG_HANDLE ∷ GATHERED ∷ NO_PORT ∷ []) }
    ensures gathered { (result ≡ GATHERED) ↔ (IsSome (port_of (Some theirs.old)) × (it.old.gathered ≡ true)) }
    ensures given { result ≡ DONE → HoldsPort (Some theirs.old) (λ port. GivesBack it.old port it.new) }
    ensures refused { result ≢ DONE → (it.new ≡ it.old) × (theirs.new ≡ theirs.old) }
{
    if is_nothing(theirs) {
        return NOT_HELD;
    }
    let Home::Port(_) = theirs else {
        return WRONG_HANDLE;
    };
    if let Stage::Draining(_) = &it.stage {
        return GATHERED;
    }
    if !own || it.ports.len() == it.ports.capacity() {
        return NO_PORT;
    }
    let Home::Port(taken) = mem::replace(theirs, Home::Nothing) else {
        unreachable!();
    };
    let OwnPort { port, block } = taken;
    drop(block);
    give_back(it, port);
    DONE
}
