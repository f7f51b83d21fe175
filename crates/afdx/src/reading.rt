//! The calls that read an end system. `afdx.h` declares its handle with `const`.
ghost use Rattle.std.specs.Prelude.{◌≡◌, ◌≢◌, ◌⊎◌, ◌↔◌, ◌<◌, ◌≤◌, ◌++◌, [], ◌∷◌, IsSome, IsNone, false, length, drop};
ghost use Rattle.afdx_tx.specs.Emitter.{LacksLink};
ghost use Rattle.afdx_handle.specs.Numbers.{AreCountsOf, net_of};
ghost use Rattle.afdx_handle.specs.Script.{IsReleaseOf};
ghost use Rattle.afdx_handle.specs.EndSystem.{IsNextDue, made_for, made_at, IsAllSent};
ghost use Rattle.afdx_legal.specs.Counting.{counts_in};
ghost use Rattle.afdx_legal.specs.Streams.{own_stream};
ghost use Rattle.afdx_handle.specs.Listing.{with_front, port_ids, link_ids, all_made, bytes_of, lengths_of};
ghost use Rattle.std.specs.List.{concat};
ghost use Rattle.afdx_handle.specs.Calls.{ReadsEnd, HoldsNet};
ghost use Rattle.afdx_handle.specs.Held.{end_of, HoldsEnd};

use crate::content::{at_end, with_end};
use afdx_handle::answer::{
    DONE, NO_FRAME, NO_LINK, NO_NETWORK, NOT_GATHERED, NOT_HELD, SMALL_BUFFER, WRONG_HANDLE, net_of,
};
use afdx_handle::{
    FrameRelease, Handle, Home, LinkCounts, release_of, write_link_ids, write_port_ids,
};
use afdx_plan::VlId;

/// Writes the identifiers of the ports, in the order of the plan, and their number. On
/// `SMALL_BUFFER`, if there is room for fewer, writes only the number.
#[unsafe(no_mangle)]
pub extern "C" fn afdx_ports(it: &mut Handle, ids: &mut [u16], count: &mut usize) -> u8
    ensures reads { ReadsEnd it.old.kept.home it.new.kept.home (SMALL_BUFFER ∷ []) result }
    ensures small { (result ≡ SMALL_BUFFER) ↔ HoldsEnd it.old.kept.home (λ end.
        length ids.old < length (port_ids end)) }
    ensures listed { result ≡ DONE → HoldsEnd it.old.kept.home (λ end. ids.new ≡ with_front (port_ids end) ids.old) }
    ensures count { ((result ≡ DONE) ⊎ (result ≡ SMALL_BUFFER)) →
        HoldsEnd it.old.kept.home (λ end. count.new ≡ length (port_ids end)) }
    ensures unwritten { result ≢ DONE → ids.new ≡ ids.old }
    ensures uncounted { 32 ≤ result → result ≢ SMALL_BUFFER → count.new ≡ count.old }
{
    with_end!(it, end => {
        let ports = end.stage.config().ports();
        *count = ports.len();
        if ids.len() < ports.len() {
            return SMALL_BUFFER;
        }
        write_port_ids(ports, ids);
        DONE
    })
}

/// Writes the identifiers of the links, in the order of the plan, and their number. On
/// `SMALL_BUFFER`, if there is room for fewer, writes only the number.
#[unsafe(no_mangle)]
pub extern "C" fn afdx_links(it: &mut Handle, ids: &mut [u16], count: &mut usize) -> u8
    ensures reads { ReadsEnd it.old.kept.home it.new.kept.home (SMALL_BUFFER ∷ []) result }
    ensures small { (result ≡ SMALL_BUFFER) ↔ HoldsEnd it.old.kept.home (λ end.
        length ids.old < length (link_ids end)) }
    ensures listed { result ≡ DONE → HoldsEnd it.old.kept.home (λ end. ids.new ≡ with_front (link_ids end) ids.old) }
    ensures count { ((result ≡ DONE) ⊎ (result ≡ SMALL_BUFFER)) →
        HoldsEnd it.old.kept.home (λ end. count.new ≡ length (link_ids end)) }
    ensures unwritten { result ≢ DONE → ids.new ≡ ids.old }
    ensures uncounted { 32 ≤ result → result ≢ SMALL_BUFFER → count.new ≡ count.old }
{
    with_end!(it, end => {
        let links = end.stage.config().links();
        *count = links.len();
        if ids.len() < links.len() {
            return SMALL_BUFFER;
        }
        write_link_ids(links, ids);
        DONE
    })
}

/// Writes the first time after the last poll, in microseconds, at which a link may release a frame and couldn't then,
/// or the greatest number if there is none.
#[unsafe(no_mangle)]
pub extern "C" fn afdx_next_due(it: &mut Handle, at: &mut u64) -> u8
    ensures reads { ReadsEnd it.old.kept.home it.new.kept.home [] result }
    ensures due { result ≡ DONE → HoldsEnd it.old.kept.home (λ end. IsNextDue end.tx at.new) }
    ensures unwritten { result ≢ DONE → at.new ≡ at.old }
{
    with_end!(it, end => {
        *at = end.stage.next_due().unwrap_or(u64::MAX);
        DONE
    })
}

/// Writes the number of frames that the last poll made for a network.
#[unsafe(no_mangle)]
pub extern "C" fn afdx_frames(it: &mut Handle, network: u8, count: &mut usize) -> u8
    ensures reads { ReadsEnd it.old.kept.home it.new.kept.home (NO_NETWORK ∷ []) result }
    ensures no_network { (result ≡ NO_NETWORK) ↔ (IsSome (end_of it.old.kept.home) × IsNone (net_of network)) }
    ensures counted { result ≡ DONE → HoldsNet it.old.kept.home network (λ net end. count.new ≡ made_for net end) }
    ensures unwritten { result ≢ DONE → count.new ≡ count.old }
{
    with_end!(it, end => match net_of(network) {
        Some(net) => {
            *count = end.frames(net);
            DONE
        }
        None => NO_NETWORK,
    })
}

/// Copies frame `k`, from 0, that the last poll made for a network into a buffer, and writes its length. Writes nothing
/// on `NO_FRAME`, if the poll made fewer frames, and on `SMALL_BUFFER`, if the frame is longer than the buffer.
#[unsafe(no_mangle)]
pub extern "C" fn afdx_frame(
    it: &mut Handle,
    network: u8,
    k: usize,
    buffer: &mut [u8],
    size: &mut usize,
) -> u8
    ensures reads { ReadsEnd it.old.kept.home it.new.kept.home (NO_NETWORK ∷ NO_FRAME ∷ SMALL_BUFFER ∷ []) result }
    ensures no_network { (result ≡ NO_NETWORK) ↔ (IsSome (end_of it.old.kept.home) × IsNone (net_of network)) }
    ensures no_frame { (result ≡ NO_FRAME) ↔ HoldsNet it.old.kept.home network (λ net end. made_for net end ≤ k) }
    ensures small { (result ≡ SMALL_BUFFER) ↔ HoldsNet it.old.kept.home network (λ net end.
        (k < made_for net end) × (length buffer.old < length (made_at net k end))) }
    ensures copied { result ≡ DONE → HoldsNet it.old.kept.home network (λ net end.
        buffer.new ≡ made_at net k end ++ drop (length (made_at net k end)) buffer.old) }
    ensures size { result ≡ DONE → HoldsNet it.old.kept.home network (λ net end.
        size.new ≡ length (made_at net k end)) }
    ensures unwritten { result ≢ DONE → (buffer.new ≡ buffer.old) × (size.new ≡ size.old) }
{
    with_end!(it, end => match net_of(network) {
        Some(net) if k < end.frames(net) => {
            let bytes = end.made(net, k);
            if buffer.len() < bytes.len() {
                return SMALL_BUFFER;
            }
            buffer[..bytes.len()].copy_from_slice(bytes);
            *size = bytes.len();
            DONE
        }
        Some(_) => NO_FRAME,
        None => NO_NETWORK,
    })
}

/// Copies all frames that the last poll made for a network into a buffer, one after the other, and
/// writes their lengths and their number.
#[unsafe(no_mangle)]
pub extern "C" fn afdx_all_frames(
    it: &mut Handle,
    network: u8,
    buffer: &mut [u8],
    lengths: &mut [usize],
    count: &mut usize,
) -> u8
    ensures reads { ReadsEnd it.old.kept.home it.new.kept.home (NO_NETWORK ∷ SMALL_BUFFER ∷ []) result }
    ensures no_network { (result ≡ NO_NETWORK) ↔ (IsSome (end_of it.old.kept.home) × IsNone (net_of network)) }
    ensures small { (result ≡ SMALL_BUFFER) ↔ HoldsNet it.old.kept.home network (λ net end.
        (length buffer.old < bytes_of (all_made net end)) ⊎ (length lengths.old < made_for net end)) }
    ensures copied { result ≡ DONE → HoldsNet it.old.kept.home network (λ net end.
        buffer.new ≡ with_front (concat (all_made net end)) buffer.old) }
    ensures lengths { result ≡ DONE → HoldsNet it.old.kept.home network (λ net end.
        lengths.new ≡ with_front (lengths_of (all_made net end)) lengths.old) }
    ensures count { ((result ≡ DONE) ⊎ (result ≡ SMALL_BUFFER)) → HoldsNet it.old.kept.home network (λ net end.
        count.new ≡ made_for net end) }
    ensures unwritten { result ≢ DONE → (buffer.new ≡ buffer.old) × (lengths.new ≡ lengths.old) }
    ensures uncounted { 32 ≤ result → result ≢ SMALL_BUFFER → count.new ≡ count.old }
{
    with_end!(it, end => match net_of(network) {
        Some(net) => end.all_frames(net, buffer, lengths, count),
        None => NO_NETWORK,
    })
}

/// Writes the link, the sub-VL and the number of frame `k`, from 0, that the last poll made for a network.
#[unsafe(no_mangle)]
pub extern "C" fn afdx_release(it: &mut Handle, network: u8, k: usize, out: &mut FrameRelease) -> u8
    ensures reads { ReadsEnd it.old.kept.home it.new.kept.home (NO_NETWORK ∷ NO_FRAME ∷ []) result }
    ensures no_network { (result ≡ NO_NETWORK) ↔ (IsSome (end_of it.old.kept.home) × IsNone (net_of network)) }
    ensures no_frame { (result ≡ NO_FRAME) ↔ HoldsNet it.old.kept.home network (λ net end. made_for net end ≤ k) }
    ensures released { result ≡ DONE → HoldsNet it.old.kept.home network (λ net end.
        IsReleaseOf (made_at net k end) out.new) }
    ensures unwritten { result ≢ DONE → out.new ≡ out.old }
{
    with_end!(it, end => match net_of(network) {
        Some(net) if k < end.frames(net) => {
            *out = release_of(end.made(net, k));
            DONE
        }
        Some(_) => NO_FRAME,
        None => NO_NETWORK,
    })
}

/// Writes the counts of a virtual link.
#[unsafe(no_mangle)]
pub extern "C" fn afdx_link_counts(it: &mut Handle, vl: u16, counts: &mut LinkCounts) -> u8
    ensures reads { ReadsEnd it.old.kept.home it.new.kept.home (NO_LINK ∷ []) result }
    ensures no_link { (result ≡ NO_LINK) ↔ HoldsEnd it.old.kept.home (λ end. LacksLink end.tx.plan vl) }
    ensures counted { result ≡ DONE → HoldsEnd it.old.kept.home (λ end.
        AreCountsOf (counts_in (own_stream vl end.tx.lines.a end.tx.lines.b)) counts.new) }
    ensures unwritten { result ≢ DONE → counts.new ≡ counts.old }
{
    with_end!(it, end => match end.stage.counts(VlId(vl)) {
        Some(sent) => {
            *counts = LinkCounts {
                frames: sent.frames,
                bytes: sent.bytes,
                messages: sent.messages,
                last: sent.last,
            };
            DONE
        }
        None => NO_LINK,
    })
}

/// Writes 1 if at least one network accepted each fragment of each accepted message, otherwise 0.
#[unsafe(no_mangle)]
pub extern "C" fn afdx_is_done(it: &mut Handle, done: &mut u8) -> u8
    ensures reads { ReadsEnd it.old.kept.home it.new.kept.home (NOT_GATHERED ∷ []) result }
    ensures not_gathered { (result ≡ NOT_GATHERED) ↔ HoldsEnd it.old.kept.home (λ end. end.gathered ≡ false) }
    ensures done { result ≡ DONE → HoldsEnd it.old.kept.home (λ end. (done.new ≡ 1) ↔ IsAllSent end) }
    ensures flag { result ≡ DONE → done.new ≤ 1 }
    ensures unwritten { result ≢ DONE → done.new ≡ done.old }
{
    with_end!(it, end => end.is_done(done))
}
