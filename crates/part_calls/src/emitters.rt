//! Emitters, and the parts that they are made of, over networks that take no memory once they are made.
ghost use Rattle.std.specs.Prelude.{◌≡◌, ◌<◌, IfOk};
ghost use Rattle.afdx_plan.specs.Plan.{IsPort, SendsOver};
ghost use Rattle.status_board.specs.Views.{links_of};

use crate::Tried;
use afdx_frame::{Cut, Net, sn_of, twin, vl_of};
use afdx_plan::{LinkPlan, Networks, PortPlan, demo_config};
use afdx_tx::{Emitter, Refusal, TxPort, open_tx};
use redundant_mux::{Mux, Outbox};
use status_board::Monitor;
use std::alloc::{AllocError, Global};
use std::sync::Wait;

/// An open emitter, its ports and its monitor.
type Opened = (Emitter<Outbox, Outbox>, Vec<TxPort>, Monitor);

/// Opens the demonstration's emitter. Out of memory, opens what came back once more.
fn open<R: Print>(rt: &R, alloc: Global) -> Result<Opened, AllocError>
    ensures monitor { IfOk result (λ opened. 0 < links_of opened.2) }
    ensures new { IfOk result (λ opened. opened.0.moment ≡ 0) }
{
    let (a, b) = (Outbox::new(alloc)?, Outbox::new(alloc)?);
    let config = demo_config(alloc).map_err(|_| AllocError)?;
    match open_tx(alloc, config, a, b) {
        Ok(opened) => Ok(opened),
        Err(back) => {
            let _printed = println!(rt; "open_tx: out of memory");
            open_tx(alloc, back.config, back.a, back.b).map_err(|_| AllocError)
        }
    }
}

/// Fills a port's queue by both calls that take a list, and returns the third message, which is refused.
fn fill(port: &mut TxPort, messages: [Vec<u8>; 3]) -> Option<Vec<u8>> {
    let [first, second, third] = messages;
    if port.send(first).is_err() || port.send_with(second, || {}).is_err() {
        return None;
    }
    let fault = port.send(third).err()?;
    if fault.why == Refusal::Full {
        Some(fault.bytes)
    } else {
        None
    }
}

/// Sends three messages, the last one of the list that was refused, and returns whether all are transmitted and
/// counted.
pub fn try_emitter<R: Wait + Print>(rt: &R, alloc: Global) -> Tried {
    let first = Vec::from_elem(alloc, 1u8, 1)?;
    let second = Vec::from_elem(alloc, 2u8, 1)?;
    let third = Vec::from_elem(alloc, 3u8, 1)?;
    let (mut tx, mut ports, mut monitor) = open(rt, alloc)?;
    let Some(mut port) = ports.pop() else {
        return Ok(false);
    };
    let Some(back) = fill(&mut port, [first, second, third]) else {
        return Ok(false);
    };
    let is_polled = tx.poll(0).is_ok();
    let is_sent = port.send(back).is_ok();
    let are_polled = tx.poll(1_000).is_ok() && tx.poll(2_000).is_ok();
    tx.publish(rt);
    let count = monitor.read(rt, 0).messages;
    Ok(is_polled && is_sent && are_polled && count == 3 && port.accepted() == 3)
}

/// Returns the demonstration's port and its link.
fn demo_flow(alloc: Global) -> Result<(PortPlan, LinkPlan), AllocError>
    ensures port { IfOk result (λ flow. IsPort flow.0) }
    ensures over { IfOk result (λ flow. SendsOver flow.0 flow.1) }
{
    let config = demo_config(alloc).map_err(|_| AllocError)?;
    Ok((config.ports()[0], config.links()[0]))
}

/// Sends the next frame of a message to two networks, and returns whether there was one, and both took it.
#[tactic(auto, using(afdx_frame::proofs::Twins::twin_twice))]
fn is_handed(cut: &mut Cut, link: &LinkPlan, number: u8, mux: &mut Mux<Outbox, Outbox>) -> bool
    requires { SendsOver cut.old.cut.port link.now }
    ensures { cut.new.cut.port ≡ cut.old.cut.port }
{
    let Some(frame) = cut.next_frame(link, 1, number, Net::A) else {
        return false;
    };
    let is_read = vl_of(&frame) == Some(link.id) && sn_of(&frame) == Some(number);
    let answer = mux.hand(0, &twin(&frame, Net::A), Networks::Both);
    is_read && answer.is_ok_and(|standing| standing.a && standing.b)
}

/// Cuts a message into two frames, and sends both.
pub fn try_cut(alloc: Global) -> Tried {
    let (port, link) = demo_flow(alloc)?;
    let message = Vec::from_elem(alloc, 7u8, 1_472)?;
    let mut mux = Mux::new(Outbox::new(alloc)?, Outbox::new(alloc)?);
    let mut cut = Cut::new(message, 0, &port);
    let are_handed = is_handed(&mut cut, &link, 0, &mut mux)
        && is_handed(&mut cut, &link, 1, &mut mux);
    let (a, b) = mux.into_networks();
    Ok(are_handed && cut.is_done() && (a.count(), b.count()) == (2, 2))
}
