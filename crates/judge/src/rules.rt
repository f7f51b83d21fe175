//! The rules by which a packet is admitted, all without a state.
ghost use Rattle.std.specs.Prelude.{◌≡◌, ◌<◌, ◌≤◌, length, IfOk, IfErr};
ghost use Rattle.afdx_plan.specs.Config.{link_plan_at};
ghost use Rattle.capture.specs.Recording.{recorded};
ghost use Rattle.afdx_frame.specs.Layout.{IsReadable};
ghost use Rattle.judge.specs.Rules.{refused, checked, has_four_more, unchecked, frame_in, interface_on, place_of, size_deviation};
ghost use Rattle.redundant_mux.specs.Lines.{names};
ghost use Rattle.afdx_frame.specs.Frame.{interface_byte};

use crate::check_sequence::check_sequence;
use crate::finding::{Deviation, FindingKind};
use crate::judge::Options;
use afdx_frame::layout::framed;
use afdx_frame::net::{INTERFACE_A, INTERFACE_B, SHORTEST_FRAME};
use afdx_frame::{Layout, Net, field, layout_broken, word_at};
use afdx_plan::{Config, LinkPlan, VlId};
use byteorder::{ByteOrder, LittleEndian};
use capture::Packet;

/// The reason for which a packet is judged no further.
#[derive(Clone, Copy)]
pub(crate) struct Refused {
    pub(crate) deviation: Deviation,
    /// The packet's link, if it is known.
    pub(crate) link: Option<VlId>,
}

/// Returns a refusal, with its two numbers.
fn refusal(link: Option<VlId>, kind: FindingKind, seen: u64, wanted: u64) -> Refused
    ensures { result ≡ refused link kind seen wanted }
{
    Refused {
        deviation: Deviation::new(kind, seen, wanted),
        link,
    }
}

/// Returns the bytes without their last four, if these are the right check sequence.
#[tactic(auto, unfolding(crate::specs::Rules::checked))]
pub(crate) fn checked(bytes: &[u8]) -> Result<&[u8], Refused>
    ensures ok { IfOk result (λ frame. checked bytes.now ≡ Ok frame.now) }
    ensures err { IfErr result (λ why. checked bytes.now ≡ Err why) }
{
    if bytes.len() < 4 {
        let bound = SHORTEST_FRAME as u64;
        return Err(refusal(
            None,
            FindingKind::Frame(Layout::Length),
            bytes.len() as u64,
            bound,
        ));
    }
    let end = bytes.len() - 4;
    let seen = LittleEndian::read_u32(&bytes[end..]);
    let wanted = check_sequence(&bytes[..end]);
    if seen == wanted {
        return Ok(&bytes[..end]);
    }
    let kind = FindingKind::Frame(Layout::CheckSequence);
    Err(refusal(None, kind, seen as u64, wanted as u64))
}

/// Returns true if a frame has four bytes more than its total length says, as one with its check sequence has.
fn has_four_more(frame: &[u8]) -> bool
    ensures { result ≡ has_four_more frame.now }
{
    let len = frame.len();
    len >= 64 && len <= 1518 && len == framed(word_at(frame, field::TOTAL_LENGTH) as usize) + 4
}

/// Returns the bytes, if they don't seem to have a check sequence.
#[tactic(auto, unfolding(crate::specs::Rules::unchecked))]
fn unchecked(bytes: &[u8]) -> Result<&[u8], Refused>
    ensures ok { IfOk result (λ frame. unchecked bytes.now ≡ Ok frame.now) }
    ensures err { IfErr result (λ why. unchecked bytes.now ≡ Err why) }
{
    if has_four_more(bytes) {
        let len = bytes.len() as u64;
        return Err(refusal(None, FindingKind::Frame(Layout::Recorded), len, len - 4));
    }
    Ok(bytes)
}

/// Returns the frame of a packet, if the packet is whole and the frame has the layout. A check sequence is tested, and
/// left out.
#[tactic(auto, unfolding(crate::specs::Rules::frame_in))]
pub(crate) fn frame_in<'a>(packet: &Packet<'a>, options: &Options) -> Result<&'a [u8], Refused>
    ensures ok { IfOk result (λ frame. frame_in options.now (recorded packet.now) ≡ Ok frame.now) }
    ensures err { IfErr result (λ why. frame_in options.now (recorded packet.now) ≡ Err why) }
    ensures readable { IfOk result (λ frame. IsReadable frame.now) }
{
    let bytes = packet.bytes;
    let (len, original) = (bytes.len() as u64, packet.original as u64);
    if len < original {
        return Err(refusal(None, FindingKind::Frame(Layout::Snapped), len, original));
    }
    let frame = match (options.fcs, packet.fcs) {
        (true, _) | (false, Some(true)) => checked(bytes)?,
        (false, Some(false)) => bytes,
        (false, None) => unchecked(bytes)?,
    };
    match layout_broken(options.arinc, frame) {
        Some(why) => Err(refusal(
            None,
            FindingKind::Frame(why.rule),
            why.seen as u64,
            why.wanted as u64,
        )),
        None => Ok(frame),
    }
}

/// Returns the interface identifier that a link's frame has on a network, 0 if the network doesn't carry it.
fn interface_on(link: &LinkPlan, net: Net) -> u8
    ensures { result ≡ interface_on link.now net }
{
    match net {
        Net::A if link.networks.carries_a() => INTERFACE_A,
        Net::B if link.networks.carries_b() => INTERFACE_B,
        _ => 0,
    }
}

/// Returns the place of a frame's link in the plan, if the plan has the frame's end system and link, and the link is on
/// this network.
#[tactic(auto, unfolding(crate::specs::Rules::place_of))]
pub(crate) fn place_of(config: &Config, net: Net, frame: &[u8]) -> Result<usize, Refused>
    requires { 60 ≤ length frame.now }
    ensures value { result ≡ place_of config.now net frame.now }
    ensures within { IfOk result (λ place. place < length config.now.links) }
{
    let (source, wanted) = (word_at(frame, field::END_SYSTEM), config.end_system());
    if source != wanted {
        return Err(refusal(None, FindingKind::Source, source as u64, wanted as u64));
    }
    let vl = VlId(word_at(frame, field::LINK));
    let Some(place) = config.link_index(vl) else {
        return Err(refusal(Some(vl), FindingKind::Link, vl.0 as u64, 0));
    };
    let (seen, wanted) = (
        frame[field::INTERFACE],
        interface_on(&config.links()[place], net),
    );
    if seen != wanted {
        return Err(refusal(Some(vl), FindingKind::Network, seen as u64, wanted as u64));
    }
    Ok(place)
}

/// Returns a finding if a frame is longer than its link's Lmax, with its check sequence.
pub(crate) fn size_deviation(link: &LinkPlan, len: u64) -> Option<Deviation>
    requires { len ≤ 1514 }
    ensures { result ≡ size_deviation link.now len }
{
    let (seen, wanted) = (len + 4, link.lmax.bytes() as u64);
    if seen <= wanted {
        return None;
    }
    Some(Deviation::new(FindingKind::Size, seen, wanted))
}
