//! Opening an emitter.
ghost use Rattle.std.specs.Prelude.{◌≡◌, ◌<◌, ◌≤◌, ◌&&◌, [], length, nat_eq, All, IfOk, IfErr, IfSome, IfNone};
ghost use Rattle.afdx_plan.specs.Config.{IsPlan, HasLink, link_plan_at, port_plan_at, link_place};
ghost use Rattle.afdx_plan.specs.Plan.{IsLink, IsPort, SendsOver};
ghost use Rattle.afdx_tx.specs.Emitter.{IsOpenedSub, IsOpenedLink, AreOpenedLinks, AreFreshLinks, IsFreshTx, greatest_of, ports_of_sub, queues_in};
ghost use Rattle.afdx_tx.specs.Ports.{ArePortsOf, AreFreshPorts, AreOpenedWith};
ghost use Rattle.vl_link.specs.Kept.{AreOfEndSystem, plans_of};
ghost use Rattle.status_board.specs.Views.{links_of, AreNew};
ghost use Rattle.afdx_tx.specs.Calls.{IsSubAt, LacksSub};

use crate::emitter::Emitter;
use crate::fault::OpenFault;
use crate::port::TxPort;
use afdx_frame::{FrameBuffer, Template};
use afdx_plan::{Config, LinkPlan, PortPlan, VlId};
use redundant_mux::Network;
use status_board::{Board, Monitor, open_board};
use std::alloc::{AllocError, Global};
use subvl_queue::{Room, open_queue};
use vl_link::{Link, Sub, SubVl};

/// The number of slot requests of a port: 2^40.
const CALLS: u64 = 1_099_511_627_776;

/// Returns true if a port belongs to a sub-VL.
fn is_port_of(port: &PortPlan, of: &SubVl) -> bool
    ensures { result ≡ (nat_eq port.now.vl.0 of.now.link.id.0 && nat_eq port.now.sub of.now.sub) }
{
    port.vl == of.link.id && port.sub == of.sub
}

/// Returns the templates of a sub-VL's ports: the bytes that all frames of a port share, in the order of the plan.
fn templates_of(alloc: Global, ports: &[PortPlan], of: &SubVl) -> Result<Vec<Template>, AllocError>
    requires { All IsPort ports.now }
    ensures ports { IfOk result (λ own. plans_of own.items ≡ ports_of_sub ports.now of.now.link.id.0 of.now.sub) }
    ensures end_system { IfOk result (λ own. AreOfEndSystem of.now.end_system own.items) }
{
    let count = ports.iter().filter(|port| is_port_of(port, of)).count();
    let mut own = Vec::with_capacity(alloc, count)?;
    for port in ports {
        if is_port_of(port, of) {
            own.push(Template::new(of.end_system, port))?;
        }
    }
    Ok(own)
}

/// Returns the greatest length of a message of a sub-VL's ports, or 0 if it has no port.
#[tactic(auto, using(crate::proofs::OpenedPorts::greatest_few))]
fn greatest_message(ports: &[PortPlan], of: &SubVl) -> usize
    requires { All IsPort ports.now }
    ensures value { result ≡ greatest_of (ports_of_sub ports.now of.now.link.id.0 of.now.sub) }
    ensures few { result ≤ 8192 }
{
    let own = ports.iter().filter(|port| is_port_of(port, of));
    own.map(|port| port.max).max().unwrap_or(0)
}

/// Makes a sub-VL of a plan, without senders.
#[tactic(auto, using(crate::proofs::PortLink::own_ports))]
fn open_sub(alloc: Global, config: &Config, of: SubVl) -> Result<Sub, AllocError>
    requires link { IsLink of.link }
    requires sub { of.sub < of.link.sub_vls }
    ensures { IfOk result (λ sub. IsOpenedSub of (ports_of_sub config.now.ports of.link.id.0 of.sub) 0 sub) }
{
    let ports = templates_of(alloc, config.ports(), &of)?;
    let most = greatest_message(config.ports(), &of);
    let receiver = open_queue(alloc, of.link.capacity, most, ports.len())?;
    let room = Room::new(alloc, most)?;
    Ok(Sub::new(of, ports, receiver, room))
}

/// Makes a link of a plan, without senders.
fn open_link(alloc: Global, config: &Config, plan: &LinkPlan) -> Result<Link, AllocError>
    requires { IsLink plan.now }
    ensures { IfOk result (λ link. IsOpenedLink config.now.end_system config.now.ports [] plan.now link) }
{
    let mut subs = Vec::with_capacity(alloc, plan.sub_vls as usize)?;
    for sub in 0..plan.sub_vls {
        let of = SubVl {
            end_system: config.end_system(),
            link: *plan,
            sub,
        };
        subs.push(open_sub(alloc, config, of)?)?;
    }
    Ok(Link::new(config.end_system(), *plan, subs))
}

/// Makes the links of a plan, without senders.
fn open_links(alloc: Global, config: &Config) -> Result<Vec<Link>, AllocError>
    ensures opened { IfOk result (λ links. AreOpenedLinks config.now [] links.items (length config.now.links)) }
    ensures valid { IsPlan config.now }
{
    let plans = config.links();
    let mut links = Vec::with_capacity(alloc, plans.len())?;
    for plan in plans {
        links.push(open_link(alloc, config, plan)?)?;
    }
    Ok(links)
}

/// Makes the ports of a plan, in its order, each with a sender of the queue of its sub-VL.
fn open_ports(alloc: Global, config: &Config, links: &mut [Link]) -> Result<Vec<TxPort>, AllocError>
    requires opened { AreOpenedLinks config.now [] links.old (length config.now.links) }
    ensures links { IfOk result (λ _. AreFreshLinks config.now links.new) }
    ensures ports { IfOk result (λ ports. ArePortsOf config.now (queues_in links.new) ports.items) }
{
    let mut ports = Vec::with_capacity(alloc, config.ports().len())?;
    for place in 0..config.ports().len() {
        let plan = port_at(config, place);
        let link = link_of(config, &plan);
        let sender = links[link].new_sender(alloc, plan.sub, CALLS)?;
        ports.push(TxPort::new(plan, place, sender))?;
    }
    Ok(ports)
}

/// Makes the links of an emitter, its ports, and the two ends of its board.
fn open_parts(
    alloc: Global,
    config: &Config,
) -> Result<(Vec<Link>, Vec<TxPort>, Board, Monitor), AllocError>
    ensures links { IfOk result (λ parts. AreFreshLinks config.now parts.0.items) }
    ensures ports { IfOk result (λ parts. ArePortsOf config.now (queues_in parts.0.items) parts.1.items) }
    ensures board { IfOk result (λ parts. length parts.2 ≡ length config.now.links) }
    ensures monitor { IfOk result (λ parts. links_of parts.3 ≡ length config.now.links) }
    ensures new { IfOk result (λ parts. AreNew parts.2 parts.3) }
    ensures valid { IsPlan config.now }
{
    let mut links = open_links(alloc, config)?;
    let ports = open_ports(alloc, config, &mut links)?;
    let (board, monitor) = open_board(alloc, config.links().len())?;
    Ok((links, ports, board, monitor))
}

/// Opens an emitter for a plan over two networks that have accepted no frame and have not
/// failed. Returns it with its ports, in the order of the plan, and the monitor that reads
/// the counts of each link by its place there. Allocates all memory that sending, polling,
/// publishing and gathering need. Nothing is accepted or published yet, both networks are up, and
/// each port has 2^40 slot requests. If an allocation fails, returns all arguments unchanged.
pub fn open_tx<A: Network + Drop, B: Network + Drop>(
    alloc: Global,
    config: Config,
    a: A,
    b: B,
) -> Result<(Emitter<A, B>, Vec<TxPort>, Monitor), OpenFault<A, B>>
    requires a_empty { A.handed a ≡ [] }
    requires b_empty { B.handed b ≡ [] }
    requires a_new { A.failures a ≡ 0 }
    requires b_new { B.failures b ≡ 0 }
    ensures fresh { IfOk result (λ opened. IsFreshTx config opened.0) }
    ensures ports { IfOk result (λ opened. AreFreshPorts opened.0 opened.1.items) }
    ensures opened { IfOk result (λ opened. AreOpenedWith opened.0 opened.1.items) }
    ensures board { IfOk result (λ opened. length opened.0.board ≡ length config.links) }
    ensures monitor { IfOk result (λ opened. links_of opened.2 ≡ length config.links) }
    ensures new { IfOk result (λ opened. AreNew opened.0.board opened.2) }
    ensures config { IfErr result (λ fault. fault.config ≡ config) }
    ensures a { IfErr result (λ fault. fault.a ≡ a) }
    ensures b { IfErr result (λ fault. fault.b ≡ b) }
{
    let parts = open_parts(alloc, &config);
    match (parts, Box::new(alloc, FrameBuffer::new())) {
        (Ok((links, ports, board, monitor)), Ok(frame)) => {
            let emitter = Emitter::over(config, links, frame, a, b, board);
            Ok((emitter, ports, monitor))
        }
        _ => Err(OpenFault { config, a, b }),
    }
}

/// Returns the port at a place of the plan.
pub fn port_at(config: &Config, place: usize) -> PortPlan
    requires { place < length config.now.ports }
    ensures value { result ≡ port_plan_at config.now.ports place }
    ensures port { IsPort result }
    ensures linked { HasLink config.now.links result }
    ensures valid { IsPlan config.now }
{
    config.ports()[place]
}

/// Returns the place of a port's link in the plan.
pub fn link_of(config: &Config, port: &PortPlan) -> usize
    requires valid { IsPlan config.now }
    requires linked { HasLink config.now.links port.now }
    ensures value { result ≡ link_place config.now port.now }
    ensures within { result < length config.now.links }
    ensures over { SendsOver port.now (link_plan_at config.now.links result) }
{
    match config.link_index(port.vl) {
        Some(place) => place,
        None => unreachable!(),
    }
}

/// Returns the place in the plan of the link with this identifier and a sub-VL of this index, if there is one.
pub fn link_of_sub(config: &Config, vl: VlId, sub: u8) -> Option<usize>
    ensures none { IfNone result (LacksSub config.now vl.0 sub) }
    ensures some { IfSome result (IsSubAt config.now vl.0 sub) }
{
    let place = config.link_index(vl)?;
    if sub < config.links()[place].sub_vls {
        Some(place)
    } else {
        None
    }
}
