//! The number of fragments of a message, and its longest wait.
ghost use Rattle.std.specs.Prelude.{◌≡◌, ◌+◌, ◌*◌, ◌≤◌, All};
ghost use Rattle.afdx_plan.specs.Plan.{IsLink, IsPort};
ghost use Rattle.plan_analysis.specs.Wait.{port_pieces as pieces_of_port, most_pieces as most_pieces_of, pieces_on as pieces_of_sub, is_on as is_on_sub, has_port as has_port_on, used_sub_vls as used_by_ports, message_wait as wait_of_message, sustained as sustained_by};

use afdx_plan::{LinkPlan, PortPlan};

/// The bytes of a UDP header.
const UDP_HEADER: u64 = 8;

/// Returns the number of fragments of the greatest message of a port on a link.
pub(crate) fn port_pieces(link: &LinkPlan, port: &PortPlan) -> u64
    requires { IsPort port.now }
    ensures value { result ≡ pieces_of_port link.now port.now }
    ensures least { 1 ≤ result }
    ensures most { result ≤ 342 }
{
    let room = link.lmax.room() as u64;
    let step = 8 * (room / 8);
    let datagram = UDP_HEADER + port.max as u64;
    1 + datagram.saturating_sub(room).div_ceil(step)
}

/// Returns true if this port sends on sub-VL `sub` of a link.
pub(crate) fn is_on(link: &LinkPlan, sub: u8, port: &PortPlan) -> bool
    ensures { result ≡ is_on_sub link.now sub port.now }
{
    port.vl.0 == link.id.0 && port.sub == sub
}

/// Returns true if some port sends on sub-VL `sub` of a link.
pub(crate) fn has_port(link: &LinkPlan, sub: u8, ports: &[PortPlan]) -> bool
    ensures { result ≡ has_port_on link.now ports.now sub }
{
    ports.iter().any(|port| is_on(link, sub, port))
}

/// Returns the number of sub-VLs of a link that have a port.
pub fn used_sub_vls(link: &LinkPlan, ports: &[PortPlan]) -> u64
    ensures value { result ≡ used_by_ports link.now ports.now }
    ensures most { result ≤ link.now.sub_vls }
{
    let mut used = 0;
    for sub in 0..link.sub_vls {
        if has_port(link, sub, ports) {
            used += 1;
        }
    }
    used
}

/// Returns the number of fragments of the greatest message of a port if it sends on sub-VL `sub` of the link, else 0.
fn pieces_on(link: &LinkPlan, sub: u8, port: &PortPlan) -> u64
    requires { IsPort port.now }
    ensures value { result ≡ pieces_of_sub link.now sub port.now }
    ensures most { result ≤ 342 }
{
    if is_on(link, sub, port) {
        port_pieces(link, port)
    } else {
        0
    }
}

/// Returns the greatest number of fragments of a message on a sub-VL of a link.
pub(crate) fn most_pieces(link: &LinkPlan, sub: u8, ports: &[PortPlan]) -> u64
    requires { All IsPort ports.now }
    ensures value { result ≡ most_pieces_of link.now sub ports.now }
    ensures most { result ≤ 342 }
{
    let mut most = 0;
    for port in ports {
        most = most.max(pieces_on(link, sub, port));
    }
    most
}

/// Returns the longest wait, in microseconds, of a message of `own` fragments on a sub-VL whose messages have at most
/// `most`, if `used` sub-VLs of the link have turns.
pub(crate) fn message_wait(late: u64, link: &LinkPlan, used: u64, most: u64, own: u64) -> u64
    requires late { late ≤ 1000000 }
    requires link { IsLink link.now }
    requires used { used ≤ 4 }
    requires most { most ≤ 342 }
    requires own { own ≤ 342 }
    ensures { result ≡ wait_of_message late link.now used most own }
{
    let queued = (link.capacity as u64 - 1) * most + most.saturating_sub(1);
    used * (queued + own) * (link.bag.micros() + late)
}

/// Returns the number of greatest messages of a port that the BAG of a link allows in 1,000 seconds.
pub(crate) fn sustained(link: &LinkPlan, port: &PortPlan) -> u64
    requires { IsPort port.now }
    ensures { result ≡ sustained_by link.now port.now }
{
    1_000_000 / (link.bag.ms() * port_pieces(link, port))
}
