//! Taking back the ports of an emitter.
ghost use Rattle.std.specs.Prelude.{length, All, MatchBool};
ghost use Rattle.afdx_plan.specs.Config.{IsPlan};
ghost use Rattle.afdx_tx.specs.Emitter.{AreLinksOf, AreReceiving, queues_in};
ghost use Rattle.afdx_tx.specs.Ports.{HasPlace, HasEveryPlace, LacksPlace, BelongsTo};
ghost use Rattle.afdx_tx.specs.Gathering.{OnlyTakeBack, IsTakenBack, AreFull, GathersLinks, GathersPorts};

use crate::open::{link_of, port_at};
use crate::port::TxPort;
use afdx_plan::Config;
use vl_link::Link;

// Returns true if the list has the port at a place.
fn has_place(ports: &[TxPort], place: usize) -> bool
    ensures { MatchBool result (HasPlace ports.now place) (HasPlace ports.now place → ⊥) }
{
    for port in ports {
        if port.place() == place {
            return true;
        }
    }
    false
}

/// Returns true if the list has the port at each place of a plan.
pub fn has_every_place(ports: &[TxPort], many: usize) -> bool
    ensures { MatchBool result (HasEveryPlace many ports.now) (LacksPlace many ports.now) }
{
    for place in 0..many {
        if !has_place(ports, place) {
            return false;
        }
    }
    true
}

// Returns each port's sender to the queue of its sub-VL, and leaves the list empty.
fn take_back_all(config: &Config, links: &mut [Link], ports: &mut Vec<TxPort>)
    requires of_plan { AreLinksOf config.now links.old }
    requires opened { All (BelongsTo config.now (queues_in links.old)) ports.old.items }
    ensures same { OnlyTakeBack links.old links.new }
    ensures back { All (IsTakenBack config.now links.new) ports.old.items }
{
    for port in ports.drain(..) {
        let plan = port_at(config, port.place());
        let link = link_of(config, &plan);
        links[link].take_back(plan.sub, port.into_sender());
    }
}

// Brings the ends of each sub-VL's queue together, after all its senders were returned.
fn gather_all(links: &mut [Link])
    requires full { AreFull links.old }
    ensures { GathersLinks links.old links.new }
{
    for link in links.iter_mut() {
        link.gather();
    }
}

/// Takes back all ports of a plan out of the list, and brings the ends of each sub-VL's queue together.
pub fn gather_links(config: &Config, links: &mut [Link], ports: &mut Vec<TxPort>)
    requires valid { IsPlan config.now }
    requires of_plan { AreLinksOf config.now links.old }
    requires receiving { AreReceiving links.old }
    requires opened { All (BelongsTo config.now (queues_in links.old)) ports.old.items }
    requires every { HasEveryPlace (length config.now.ports) ports.old.items }
    ensures { GathersPorts config.now links.old ports.old.items links.new }
{
    take_back_all(config, links, ports);
    gather_all(links);
}
