//! The packets of two networks, judged in the order of their times.
ghost use Rattle.std.specs.Prelude.{◌≡◌, ◌+◌, ◌<◌, ◌≤◌, map, length, drop, IfOk, IsSome};
ghost use Rattle.capture.specs.Recording.{recorded};
ghost use Rattle.judge.specs.Judging.{findings};
ghost use Rattle.judge.specs.Merging.{is_of, first_time, of_net, from_places, BeginsOn};

use crate::finding::Finding;
use crate::judge::{Judge, Options};
use afdx_frame::Net;
use afdx_plan::Config;
use capture::{Packet, next_net};
use std::alloc::{AllocError, Global};

/// Returns true if a packet belongs to a network: any in a capture of that network alone, otherwise the packets of its
/// interface.
fn is_of(alone: bool, net: Net, packet: &Packet<'_>) -> bool
    ensures { result ≡ is_of alone net (recorded packet.now) }
{
    match packet.network {
        Some(on) => alone || on == net,
        None => alone,
    }
}

/// Returns the time by which the first packet is merged: 0 if none was recorded.
fn first_time(packets: &[Packet<'_>]) -> Option<u128>
    ensures value { result ≡ first_time (map recorded packets.now) }
    ensures some { IsSome result → 0 < length packets.now }
{
    let first = packets.first()?;
    Some(first.at.unwrap_or(0))
}

/// Returns the place of the first packet of a network from a place on, or the number of all packets if there is none.
#[tactic(auto, using(crate::proofs::Places::at_place))]
fn place_from(packets: &[Packet<'_>], from: usize, alone: bool, net: Net) -> usize
    requires { from ≤ length packets.now }
    ensures after { from ≤ result }
    ensures within { result ≤ length packets.now }
    ensures same { of_net alone net (result + 1) (drop result (map recorded packets.now))
        ≡ of_net alone net (from + 1) (drop from (map recorded packets.now)) }
    ensures first { BeginsOn alone net (drop result (map recorded packets.now)) }
{
    let mut place = from;
    'others: while place < packets.len() && !is_of(alone, net, &packets[place]) {
        place += 1;
    }
    place
}

/// Judges the packets of two networks by the plan of their end system, and returns the findings. With `alone`, `a` is a
/// capture of network A alone and `b` one of B; otherwise both are the same capture of both networks. The packets of a
/// network stay in their order; of two networks' the earlier one comes first, and A's at one time. Fails only if memory
/// runs out.
#[tactic(auto, using(crate::proofs::Places::rest_is))]
pub fn judge_packets<'a>(
    alloc: Global,
    plan: Config,
    options: Options,
    alone: bool,
    a: &[Packet<'a>],
    b: &[Packet<'a>],
) -> Result<Vec<Finding>, AllocError>
    ensures { IfOk result (λ found. found.items
        ≡ findings plan options (from_places alone (map recorded a.now) 0 (map recorded b.now) 0)) }
{
    let mut judge = Judge::new(alloc, plan, options)?;
    let mut found = Vec::new(alloc);
    let mut on_a = place_from(a, 0, alone, Net::A);
    let mut on_b = place_from(b, 0, alone, Net::B);
    'packets: while let Some(net) = next_net(first_time(&a[on_a..]), first_time(&b[on_b..])) {
        match net {
            Net::A => {
                judge.take(Net::A, on_a as u64 + 1, &a[on_a], &mut found)?;
                on_a = place_from(a, on_a + 1, alone, Net::A);
            }
            Net::B => {
                judge.take(Net::B, on_b as u64 + 1, &b[on_b], &mut found)?;
                on_b = place_from(b, on_b + 1, alone, Net::B);
            }
        }
    }
    judge.end(&mut found)?;
    Ok(found)
}
