//! The load on the wire, and the jitter.
ghost use Rattle.std.specs.Prelude.{◌≡◌, ◌+◌, ◌*◌, ◌≤◌, All, length};
ghost use Rattle.afdx_plan.specs.Plan.{IsLink};
ghost use Rattle.plan_analysis.specs.Load.{window_bits as bits_of_window, line_bits, bit_rate as rate_of_bits, share as share_of_bits, is_over as is_over_line, carries as is_on};
ghost use Rattle.plan_analysis.specs.Analysis.{network_jitter as jitter_on};

use afdx_frame::Net;
use afdx_plan::{LinkPlan, Networks};

/// The bytes around each frame on the wire: preamble, start delimiter and gap.
const AROUND: u64 = 20;

/// The nanoseconds that a byte takes at 100 Mbit/s.
const BYTE_NS: u64 = 80;

/// The jitter of an end system without links, in nanoseconds.
pub const OWN_JITTER: u64 = 40_000;

/// The greatest BAG in milliseconds. Every BAG divides it.
const WINDOW_MS: u64 = 128;

/// The bits that a line of 100 Mbit/s carries in 128 milliseconds.
const WINDOW_BITS: u64 = 12_800_000;

/// Returns the most bits that a link puts on the wire in 128 milliseconds.
pub(crate) fn window_bits(link: &LinkPlan) -> u64
    ensures bits { result ≡ bits_of_window link.now }
    ensures most { result ≤ 1574912 }
{
    8 * (link.lmax.bytes() as u64 + AROUND) * (WINDOW_MS / link.bag.ms())
}

/// Returns true if a network carries a link.
pub fn carries(net: Net, networks: Networks) -> bool
    ensures { result ≡ is_on net networks }
{
    match net {
        Net::A => networks.carries_a(),
        Net::B => networks.carries_b(),
    }
}

/// Returns the most bits that the links put on a network in 128 milliseconds.
pub(crate) fn network_bits(net: Net, links: &[LinkPlan]) -> u64
    requires { length links.now ≤ 64 }
    ensures bits { result ≡ line_bits net links.now }
    ensures most { result ≤ 1574912 * 64 }
{
    let mut bits = 0;
    for link in links {
        if carries(net, link.networks) {
            bits += window_bits(link);
        }
    }
    bits
}

/// Converts bits in 128 milliseconds to bits per second, rounded up.
pub(crate) fn bit_rate(bits: u64) -> u64
    requires { bits ≤ 1574912 * 64 }
    ensures { result ≡ rate_of_bits bits }
{
    (bits * 1_000).div_ceil(WINDOW_MS)
}

/// Converts bits in 128 milliseconds to hundredths of a percent of 100 Mbit/s, rounded up.
pub(crate) fn share(bits: u64) -> u64
    requires { bits ≤ 1574912 * 64 }
    ensures { result ≡ share_of_bits bits }
{
    (bits * 10_000).div_ceil(WINDOW_BITS)
}

/// Returns the part of the jitter that a link adds, in nanoseconds.
pub(crate) fn link_jitter(link: &LinkPlan) -> u64
    ensures value { result ≡ 80 * (20 + link.now.lmax) }
    ensures most { result ≤ 123040 }
{
    BYTE_NS * (AROUND + link.lmax.bytes() as u64)
}

/// Returns the jitter of the links that a network carries, in nanoseconds.
pub(crate) fn network_jitter(net: Net, links: &[LinkPlan]) -> u64
    requires { length links.now ≤ 64 }
    ensures { result ≡ jitter_on net links.now }
{
    let mut jitter = OWN_JITTER;
    for link in links {
        if carries(net, link.networks) {
            jitter += link_jitter(link);
        }
    }
    jitter
}

/// Returns true if bits in 128 milliseconds exceed 100 Mbit/s.
pub(crate) fn is_over(bits: u64) -> bool
    ensures { result ≡ is_over_line bits }
{
    bits > WINDOW_BITS
}
