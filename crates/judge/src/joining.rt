//! The message of a sub-VL on a network, as its pieces come.
ghost use Rattle.std.specs.Prelude.{◌≡◌, ◌+◌, ◌%◌, ◌≤◌, length, option_copied};
ghost use Rattle.judge.specs.Fields.{AreSmall};
ghost use Rattle.judge.specs.Joining.{address_number, is_towards, is_of_port, port_of, misfit, misfit_if, addresses_deviation, length_deviation, fragment_deviation, goes_on, head_now, right_sum, is_summed, ending, message_deviation, end_deviation, joined};
ghost use Rattle.judge.specs.Lines.{port_deviation, joining_after, message_after};
ghost use Rattle.afdx_plan.specs.Address.{destination_address};

use crate::fields::{Fields, Flow, PieceIn};
use crate::finding::{Deviation, Ending, FindingKind, FragmentMisfit};
use afdx_plan::{PortPlan, UdpSum, VlId};

/// The knowledge of a sub-VL's message.
#[derive(Clone, Copy)]
pub(crate) enum Joining {
    /// Nothing: any piece may come.
    Any,
    /// The next message begins, with this identification.
    Between(u16),
    /// The next message begins, with another identification than the one before it.
    After(Option<u16>),
    /// More pieces of a message are to come.
    Within(Open),
}

/// A message with more pieces to come.
#[derive(Clone, Copy)]
pub(crate) struct Open {
    pub(crate) ident: u16,
    /// The byte at which the next piece begins.
    pub(crate) next: u32,
    /// The head from the first piece. None if that wasn't seen, or belongs to no port.
    pub(crate) head: Option<Head>,
}

/// The head of a message, from its first piece, and the sum of the words so far.
#[derive(Clone, Copy)]
pub(crate) struct Head {
    pub(crate) port: PortPlan,
    pub(crate) udp_len: u16,
    pub(crate) udp_sum: u16,
    /// The sum of the words of the addresses and of the pieces, the checksum taken as zero, modulo 65,535.
    pub(crate) sum: u16,
}

/// Returns the destination address of a port: 224.224 and its link's identifier, if it has no unicast address.
fn address_of(port: &PortPlan) -> u32
    ensures { result ≡ address_number (destination_address port.now) }
{
    match port.unicast {
        Some(a) => 0x1_0000 * (256 * a[0] as u32 + a[1] as u32) + (256 * a[2] as u32 + a[3] as u32),
        None => 0xe0e0_0000 + port.vl.0 as u32,
    }
}

/// Returns true if a piece has the partition and the destination of a port.
fn is_towards(flow: &Flow, port: &PortPlan) -> bool
    ensures { result ≡ is_towards flow.now port.now }
{
    flow.partition == port.partition && flow.address == address_of(port)
}

/// Returns true if a first piece of a link belongs to a port, with this sub-VL if the identification gives the sub-VL.
fn is_of_port(arinc: bool, vl: u16, sub: u8, flow: &Flow, port: &PortPlan) -> bool
    ensures { result ≡ is_of_port arinc vl sub flow.now port.now }
{
    port.vl.0 == vl
        && (arinc || port.sub == sub)
        && flow.source == port.source
        && flow.destination == port.destination
        && is_towards(flow, port)
}

/// Returns the port of a first piece.
pub(crate) fn port_of<'a>(
    arinc: bool,
    ports: &'a [PortPlan],
    vl: VlId,
    sub: u8,
    flow: &Flow,
) -> Option<&'a PortPlan>
    ensures { option_copied result ≡ port_of arinc ports.now vl.0 sub flow.now }
{
    ports
        .iter()
        .find(|port| is_of_port(arinc, vl.0, sub, flow, port))
}

/// Returns a misfit of a piece, with its two numbers.
fn misfit(how: FragmentMisfit, seen: u64, wanted: u64) -> Option<Deviation>
    ensures { result ≡ misfit how seen wanted }
{
    Some(Deviation::new(FindingKind::Fragment(how), seen, wanted))
}

/// Returns a misfit if two numbers differ.
fn misfit_if(how: FragmentMisfit, wanted: u32, seen: u32) -> Option<Deviation>
    ensures { result ≡ misfit_if how (Some wanted) seen }
{
    if seen == wanted {
        return None;
    }
    misfit(how, seen as u64, wanted as u64)
}

/// Returns a misfit if the message's addresses are known and the piece has others.
fn addresses_deviation(head: Option<Head>, flow: &Flow) -> Option<Deviation>
    ensures { result ≡ addresses_deviation head flow.now }
{
    match head {
        Some(head) if !is_towards(flow, &head.port) => misfit(FragmentMisfit::Addresses, 0, 0),
        _ => None,
    }
}

/// Returns a misfit if a piece has another length than the cutting gives it (RFC 791, the example procedure of
/// fragmentation). A frame that is too long is another finding.
#[tactic(auto, unfolding(crate::specs::Joining::length_deviation))]
fn length_deviation(room: u16, piece: &PieceIn) -> Option<Deviation>
    ensures { result ≡ length_deviation room piece.now }
{
    let (room, len) = (room as u32, piece.len);
    let step = 8 * (room / 8);
    let wanted = if piece.more { step } else { room - step + 1 };
    let is_kept = if piece.more {
        len > room || len == step
    } else {
        piece.start == 0 || len >= wanted
    };
    if is_kept {
        return None;
    }
    misfit(FragmentMisfit::Length, len as u64, wanted as u64)
}

impl Joining {
    /// Returns a misfit if a piece isn't the next one. By ARINC 664 alone a message may be cut anywhere.
    #[tactic(auto, unfolding(crate::specs::Joining::fragment_deviation))]
    pub(crate) fn fragment_deviation(
        &self,
        arinc: bool,
        room: u16,
        fields: &Fields,
    ) -> Option<Deviation>
        ensures { result ≡ fragment_deviation arinc room fields.now self.now }
    {
        let (start, ident) = (fields.piece.start, fields.piece.ident);
        let len = if arinc {
            None
        } else {
            length_deviation(room, &fields.piece)
        };
        match self {
            Joining::Any => len,
            Joining::Between(next) => {
                let other = misfit_if(FragmentMisfit::Identification, *next as u32, ident as u32);
                misfit_if(FragmentMisfit::Offset, 0, start).or(other.or(len))
            }
            Joining::After(Some(before)) if fields.piece.more && *before == ident => {
                let repeated = misfit(FragmentMisfit::Repeated, ident as u64, 0);
                misfit_if(FragmentMisfit::Offset, 0, start).or(repeated)
            }
            Joining::After(_) => misfit_if(FragmentMisfit::Offset, 0, start).or(len),
            Joining::Within(open) => {
                let offset = misfit_if(FragmentMisfit::Offset, open.next, start);
                let other = misfit_if(
                    FragmentMisfit::Identification,
                    open.ident as u32,
                    ident as u32,
                );
                let addresses = addresses_deviation(open.head, &fields.flow);
                offset.or(other.or(addresses.or(len)))
            }
        }
    }

    /// Returns true if a piece goes on with a message in progress.
    pub(crate) fn goes_on(&self, fields: &Fields) -> bool
        ensures { result ≡ goes_on fields.now self.now }
    {
        match self {
            Joining::Within(open) => {
                fields.piece.ident == open.ident
                    && addresses_deviation(open.head, &fields.flow).is_none()
            }
            _ => false,
        }
    }

    /// Returns the head of the message after its next piece. `port` is the port of a first piece.
    #[tactic(auto, unfolding(crate::specs::Joining::head_now))]
    pub(crate) fn head_now(&self, port: Option<PortPlan>, fields: &Fields) -> Option<Head>
        requires { AreSmall fields.now }
        ensures { result ≡ head_now port fields.now self.now }
    {
        if fields.piece.start == 0 {
            let sum = fields.ends + fields.sum as u32 + (0xffff - fields.udp_sum as u32);
            return Some(Head {
                port: port?,
                udp_len: fields.udp_len,
                udp_sum: fields.udp_sum,
                sum: (sum % 0xffff) as u16,
            });
        }
        match self {
            Joining::Within(open) => {
                let head = open.head?;
                let sum = head.sum as u32 + fields.sum as u32;
                Some(Head {
                    sum: (sum % 0xffff) as u16,
                    ..head
                })
            }
            _ => None,
        }
    }
}

/// Returns the right checksum of a datagram of this length.
#[tactic(auto, unfolding(afdx_frame::specs::Checksum::udp_checksum))]
fn right_sum(head: &Head, len: u32) -> u16
    requires { len ≤ 200_000 }
    ensures { result ≡ right_sum head.now len }
{
    match head.port.checksum {
        UdpSum::Omitted => 0,
        UdpSum::Generated => 0xffff - ((head.sum as u32 + 17 + len) % 0xffff) as u16,
    }
}

/// Returns whether a datagram of this length has the right checksum, whether or not the plan has one.
#[tactic(auto, unfolding(afdx_frame::specs::Checksum::udp_checksum))]
fn is_summed(head: &Head, len: u32) -> bool
    requires { len ≤ 200_000 }
    ensures { result ≡ is_summed head.now len }
{
    head.udp_sum == 0xffff - ((head.sum as u32 + 17 + len) % 0xffff) as u16
}

/// Returns a fault of a message, with its two numbers.
fn ending(how: Ending, seen: u64, wanted: u64) -> Option<Deviation>
    ensures { result ≡ ending how seen wanted }
{
    Some(Deviation::new(FindingKind::Message(how), seen, wanted))
}

/// Returns the fault of a whole message, if it has one. Its datagram has this length.
#[tactic(auto, unfolding(crate::specs::Joining::message_deviation))]
fn message_deviation(arinc: bool, head: &Head, len: u32) -> Option<Deviation>
    requires { len ≤ 200_000 }
    ensures { result ≡ message_deviation arinc len head.now }
{
    if head.udp_len as u32 != len {
        return ending(Ending::UdpLength, head.udp_len as u64, len as u64);
    }
    let size = len.saturating_sub(8);
    let least = if arinc { 8 } else { 9 };
    if len < least || size as usize > head.port.max {
        return ending(Ending::Size, size as u64, head.port.max as u64);
    }
    let wanted = right_sum(head, len);
    if head.udp_sum == wanted || arinc && is_summed(head, len) {
        return None;
    }
    ending(Ending::UdpChecksum, head.udp_sum as u64, wanted as u64)
}

/// Returns the fault of the message that a piece ends, if its head is known.
fn end_deviation(arinc: bool, piece: &PieceIn, head: Option<Head>) -> Option<Deviation>
    requires start { piece.now.start ≤ 65528 }
    requires len { piece.now.len ≤ 1500 }
    ensures { result ≡ end_deviation arinc piece.now head }
{
    match head {
        Some(head) if !piece.more => message_deviation(arinc, &head, piece.start + piece.len),
        _ => None,
    }
}

/// Returns the knowledge after a piece, with the head of its message.
fn joined(arinc: bool, piece: &PieceIn, head: Option<Head>) -> Joining
    requires start { piece.now.start ≤ 65528 }
    requires len { piece.now.len ≤ 1500 }
    ensures { result ≡ joined arinc piece.now head }
{
    if piece.more {
        Joining::Within(Open {
            ident: piece.ident,
            next: piece.start + piece.len,
            head,
        })
    } else if arinc {
        Joining::After((piece.start > 0).then_some(piece.ident))
    } else {
        Joining::Between(piece.ident.wrapping_add(4))
    }
}

/// Returns a finding if a first piece belongs to no port of the plan.
pub(crate) fn port_deviation(fields: &Fields, port: Option<PortPlan>) -> Option<Deviation>
    ensures { result ≡ port_deviation fields.now port }
{
    if fields.piece.start > 0 || port.is_some() {
        return None;
    }
    Some(Deviation::new(FindingKind::Port, fields.flow.source as u64, 0))
}

/// Returns the knowledge of a message after a frame with this misfit, if any, and the fault of the message that it
/// ends.
pub(crate) fn ended(
    arinc: bool,
    fragment: Option<Deviation>,
    fields: &Fields,
    port: Option<PortPlan>,
    joining: &Joining,
) -> (Joining, Option<Deviation>)
    requires { AreSmall fields.now }
    ensures after { result.0 ≡ joining_after arinc fragment fields.now port joining.now }
    ensures message { result.1 ≡ message_after arinc fragment fields.now port joining.now }
{
    if fragment.is_some() {
        return (Joining::Any, None);
    }
    let head = joining.head_now(port, fields);
    (
        joined(arinc, &fields.piece, head),
        end_deviation(arinc, &fields.piece, head),
    )
}
