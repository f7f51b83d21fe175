//! The calls that open, gather and free an end system, and that pass its ports.
ghost use Rattle.std.specs.Prelude.{◌≡◌, ◌≢◌, ◌⊎◌, ◌↔◌, ◌<◌, ◌≤◌, [], ◌∷◌, None, Some, IsSome, IsNone, true, false, length, drop, position};
ghost use Rattle.afdx_tx.specs.Ports.{PortView, IsPortOfTx, LacksPlace};
ghost use Rattle.afdx_handle.specs.Calls.{ChangesEnd, IsFaultNumber, IsTableFaultNumber};
ghost use Rattle.afdx_config.specs.Faults.{IsPlanOf};
ghost use Rattle.afdx_plan.specs.Config.{Plan};
ghost use Rattle.plan_analysis.specs.Memory.{table_bytes};
ghost use Rattle.plan_table.specs.Table.{IsTableOf};
ghost use Rattle.afdx_handle.specs.Numbers.{IsOneOf};
ghost use Rattle.afdx_handle.specs.EndSystem.{EndView, has_id, GathersEnd, GivesBack, TakesPort, IsOpened};
ghost use Rattle.afdx_handle.specs.Listing.{IsExplainedIn};
ghost use Rattle.afdx_handle.specs.Held.{end_of, port_of, port_block, HoldsNothing, HoldsOne, HoldsEnd, HoldsPort, HoldsSame, EndDoes};

use crate::content::{at_end, with_end, with_port};
use afdx_config::{Config, explain, read_config};
use afdx_handle::answer::{
    DONE, GATHERED, HELD, MEMORY, NO_PORT, NOT_HELD, PORT_MISSING, SMALL_BUFFER, WRONG_HANDLE,
};
use afdx_handle::{
    Handle, Home, Marked, Opening, gather, give_to, is_nothing, keep_box, open_home, take_port,
    write_front,
};
use plan_analysis::table_memory;
use plan_table::read_table;
use std::alloc::Global;
use std::mem;

/// Opens an end system from the text of a plan.
#[unsafe(no_mangle)]
pub extern "C" fn afdx_open(alloc: Global, out: &mut Opening, text: &[u8]) -> u8
    ensures held { (result ≡ HELD) ↔ IsSome out.old.handle.kept.home }
    ensures opened { result ≡ DONE → HoldsEnd out.new.handle.kept.home (IsOpened (IsPlanOf text.now)) }
    ensures marked { result ≡ DONE → HoldsEnd out.new.handle.kept.home (λ end. out.new.mark ≡ end.block) }
    ensures fault { result ≢ DONE → result ≢ HELD → IsFaultNumber text.now result }
    ensures refused { result ≢ DONE → (out.new.handle.kept.home ≡ out.old.handle.kept.home)
        × (out.new.mark ≡ out.old.mark) }
{
    if !out.handle.is_empty() {
        return HELD;
    }
    match read_config(alloc, text) {
        Ok(config) => put_end(alloc, out, config),
        Err(fault) => fault.number(),
    }
}

/// Opens an end system from the table of a plan.
#[unsafe(no_mangle)]
pub extern "C" fn afdx_open_table(alloc: Global, out: &mut Opening, table: &[u8]) -> u8
    ensures held { (result ≡ HELD) ↔ IsSome out.old.handle.kept.home }
    ensures opened { result ≡ DONE → HoldsEnd out.new.handle.kept.home (IsOpened (IsTableOf table.now)) }
    ensures marked { result ≡ DONE → HoldsEnd out.new.handle.kept.home (λ end. out.new.mark ≡ end.block) }
    ensures fault { result ≢ DONE → result ≢ HELD → IsTableFaultNumber table.now result }
    ensures refused { result ≢ DONE → (out.new.handle.kept.home ≡ out.old.handle.kept.home)
        × (out.new.mark ≡ out.old.mark) }
{
    if !out.handle.is_empty() {
        return HELD;
    }
    match read_table(alloc, table) {
        Ok(config) => put_end(alloc, out, config),
        Err(fault) => fault.number(),
    }
}

/// Writes the bytes that opening an end system from the table of a plan takes.
#[unsafe(no_mangle)]
pub extern "C" fn afdx_memory(alloc: Global, table: &[u8], bytes: &mut usize) -> u8
    ensures bytes { result ≡ DONE → (plan : Plan) × IsTableOf table.now plan × (bytes.new ≡ table_bytes plan) }
    ensures fault { result ≢ DONE → IsTableFaultNumber table.now result }
    ensures unwritten { result ≢ DONE → bytes.new ≡ bytes.old }
{
    match read_table(alloc, table) {
        Ok(config) => match table_memory(alloc, &config) {
            Ok(taken) => {
                *bytes = taken as usize;
                DONE
            }
            Err(_) => MEMORY,
        },
        Err(fault) => fault.number(),
    }
}

/// Opens an end system of a plan in an empty handle. Returns `DONE` or `MEMORY`.
fn put_end(alloc: Global, out: &mut Opening, config: Config) -> u8
    requires { IsNone out.old.handle.kept.home }
    ensures opened { result ≡ DONE → HoldsEnd out.new.handle.kept.home (IsOpened (λ plan. plan ≡ config)) }
    ensures marked { result ≡ DONE → HoldsEnd out.new.handle.kept.home (λ end. out.new.mark ≡ end.block) }
    ensures memory { result ≢ DONE → result ≡ MEMORY }
    ensures refused { result ≢ DONE → (out.new.handle.kept.home ≡ out.old.handle.kept.home)
        × (out.new.mark ≡ out.old.mark) }
{
    match open_home(alloc, config) {
        Ok((home, mark)) => {
            out.handle.put(home);
            out.mark = mark;
            DONE
        }
        Err(_) => MEMORY,
    }
}

/// Explains the faults of a plan's text: writes as much of the explanation as fits, and its length.
#[unsafe(no_mangle)]
pub extern "C" fn afdx_explain(
    alloc: Global,
    text: &[u8],
    buffer: &mut [u8],
    size: &mut usize,
) -> u8
    ensures answers { IsOneOf result (DONE ∷ MEMORY ∷ SMALL_BUFFER ∷ []) }
    ensures explained { result ≢ MEMORY → IsExplainedIn text.now buffer.old buffer.new size.new }
    ensures whole { result ≡ DONE → size.new ≤ length buffer.old }
    ensures small { result ≡ SMALL_BUFFER → length buffer.old < size.new }
    ensures unwritten { result ≡ MEMORY → (buffer.new ≡ buffer.old) × (size.new ≡ size.old) }
{
    match explain(alloc, text) {
        Ok(told) => {
            *size = told.text.len();
            write_front(buffer, told.text.as_slice())
        }
        Err(_) => MEMORY,
    }
}

/// Takes the port with an identifier, once.
#[unsafe(no_mangle)]
pub extern "C" fn afdx_port_of(it: &mut Marked, id: u16, out: &mut Marked) -> u8
    ensures answers { IsOneOf result (DONE ∷ HELD ∷ NOT_HELD ∷ WRONG_HANDLE ∷ GATHERED ∷ NO_PORT ∷ MEMORY ∷ []) }
    ensures held { (result ≡ HELD) ↔ IsSome out.old.handle.kept.home }
    ensures not_held { (result ≡ NOT_HELD) ↔ (IsNone out.old.handle.kept.home × HoldsNothing it.old.handle.kept.home) }
    ensures wrong_handle { (result ≡ WRONG_HANDLE) ↔
        (IsNone out.old.handle.kept.home × IsSome (port_of it.old.handle.kept.home)) }
    ensures gathered { (result ≡ GATHERED) ↔ (IsNone out.old.handle.kept.home
        × HoldsEnd it.old.handle.kept.home (λ end. end.gathered ≡ true)) }
    ensures no_port { (result ≡ NO_PORT) ↔ (IsNone out.old.handle.kept.home × HoldsEnd it.old.handle.kept.home (λ end.
        (end.gathered ≡ false) × (position (has_id id) end.ports ≡ None))) }
    ensures taken { result ≡ DONE → HoldsPort out.new.handle.kept.home (λ port.
        EndDoes it.old.handle.kept.home it.new.handle.kept.home (λ old new. TakesPort old id port new)) }
    ensures block { result ≡ DONE → HoldsEnd it.old.handle.kept.home (λ end.
        port_block out.new.handle.kept.home ≡ Some end.block) }
    ensures marked { result ≡ DONE → out.new.mark ≡ it.old.mark }
    ensures same { it.new.mark ≡ it.old.mark }
    ensures refused { result ≢ DONE → HoldsSame it.old.handle.kept.home it.new.handle.kept.home }
    ensures left { result ≢ DONE → (out.new.handle.kept.home ≡ out.old.handle.kept.home)
        × (out.new.mark ≡ out.old.mark) }
{
    if !out.handle.is_empty() {
        return HELD;
    }
    at_end!(it.handle, inside, boxes => {
        let Some(end_system) = &mut **inside else {
            return NOT_HELD;
        };
        match take_port(end_system, boxes, id) {
            Ok(port) => {
                out.handle.put(port);
                out.mark = it.mark;
                DONE
            }
            Err(number) => number,
        }
    })
}

/// Returns a port to the end system that it was taken from. Its handle is empty then.
#[unsafe(no_mangle)]
pub extern "C" fn afdx_give_back(it: &mut Marked, port: &mut Marked) -> u8
    // Two handles with the same mark belong to the same end system: a mark is the address of a block that the end
    // system and each of its ports own, as `afdx_open` and `afdx_port_of` ensure.
    requires own { (end : EndView) → (own : PortView) → end_of it.old.handle.kept.home ≡ Some end
        → port_of port.old.handle.kept.home ≡ Some own → it.old.mark ≡ port.old.mark
        → end.gathered ≡ false → IsPortOfTx end.tx own }
    ensures answers { IsOneOf result (DONE ∷ NOT_HELD ∷ WRONG_HANDLE ∷ GATHERED ∷ NO_PORT ∷ []) }
    ensures not_held { (result ≡ NOT_HELD) ↔
        (HoldsNothing it.old.handle.kept.home ⊎ HoldsNothing port.old.handle.kept.home) }
    ensures wrong_handle { (result ≡ WRONG_HANDLE) ↔
        ((IsSome (port_of it.old.handle.kept.home) × HoldsOne port.old.handle.kept.home)
        ⊎ (IsSome (end_of it.old.handle.kept.home) × IsSome (end_of port.old.handle.kept.home))) }
    ensures no_port { (result ≡ NO_PORT) ↔ (IsSome (port_of port.old.handle.kept.home)
        × HoldsEnd it.old.handle.kept.home (λ end. (end.gathered ≡ false)
        × ((it.old.mark ≢ port.old.mark) ⊎ (end.room ≡ length end.ports)))) }
    ensures gathered { (result ≡ GATHERED) ↔ (IsSome (port_of port.old.handle.kept.home)
        × HoldsEnd it.old.handle.kept.home (λ end. end.gathered ≡ true)) }
    ensures given { result ≡ DONE → HoldsPort port.old.handle.kept.home (λ own.
        EndDoes it.old.handle.kept.home it.new.handle.kept.home (λ old new. GivesBack old own new)) }
    ensures none { result ≡ DONE → port.new.handle.kept.home ≡ None }
    ensures refused { result ≢ DONE → HoldsSame it.old.handle.kept.home it.new.handle.kept.home }
    ensures kept { result ≢ DONE → HoldsSame port.old.handle.kept.home port.new.handle.kept.home }
    ensures marks { (it.new.mark ≡ it.old.mark) × (port.new.mark ≡ port.old.mark) }
{
    let own = it.mark == port.mark;
    if it.handle.is_empty() || port.handle.is_empty() {
        return NOT_HELD;
    }
    let theirs = port.handle.kept.get_mut();
    let answer = match it.handle.kept.get_mut() {
        Home::EndSystem(inside, _boxes) => match &mut **inside {
            Some(end_system) => give_to(end_system, theirs, own),
            None => NOT_HELD,
        },
        Home::Port(_) if !is_nothing(theirs) => WRONG_HANDLE,
        _ => NOT_HELD,
    };
    if answer != DONE {
        return answer;
    }
    if let Some(home) = port.handle.take() {
        keep_box(it.handle.kept.get_mut(), home);
    }
    DONE
}

/// Starts draining. All ports are in the end system.
#[unsafe(no_mangle)]
pub extern "C" fn afdx_gather(alloc: Global, it: &mut Handle) -> u8
    ensures changes { ChangesEnd it.old.kept.home it.new.kept.home (GATHERED ∷ PORT_MISSING ∷ []) result }
    ensures gathered { (result ≡ GATHERED) ↔ HoldsEnd it.old.kept.home (λ end. end.gathered ≡ true) }
    ensures missing { (result ≡ PORT_MISSING) ↔ HoldsEnd it.old.kept.home (λ end.
        (end.gathered ≡ false) × LacksPlace (length end.tx.plan.ports) end.ports) }
    ensures gathers { result ≡ DONE → EndDoes it.old.kept.home it.new.kept.home GathersEnd }
{
    at_end!(it, inside, _boxes => {
        let Some(end_system) = mem::replace(&mut **inside, None) else {
            return NOT_HELD;
        };
        let (gathered, answer) = gather(alloc, end_system);
        drop(mem::replace(&mut **inside, Some(gathered)));
        answer
    })
}

/// Frees an end system.
#[unsafe(no_mangle)]
pub extern "C" fn afdx_free(it: &mut Handle) -> u8
    ensures changes { ChangesEnd it.old.kept.home it.new.kept.home [] result }
    ensures freed { result ≡ DONE → IsNone it.new.kept.home }
{
    let answer = with_end!(it, _end => DONE);
    if answer == DONE {
        drop(it.take());
    }
    answer
}

/// Frees a port.
#[unsafe(no_mangle)]
pub extern "C" fn afdx_free_port(port: &mut Handle) -> u8
    ensures answers { IsOneOf result (DONE ∷ NOT_HELD ∷ WRONG_HANDLE ∷ []) }
    ensures not_held { (result ≡ NOT_HELD) ↔ HoldsNothing port.old.kept.home }
    ensures wrong_handle { (result ≡ WRONG_HANDLE) ↔ IsSome (end_of port.old.kept.home) }
    ensures freed { result ≡ DONE → IsNone port.new.kept.home }
    ensures refused { result ≢ DONE → HoldsSame port.old.kept.home port.new.kept.home }
{
    let answer = with_port!(port, _own => DONE);
    if answer == DONE {
        drop(port.take());
    }
    answer
}
