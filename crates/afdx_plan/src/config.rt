//! A valid plan, the greatest numbers of one, and its jitter.
ghost use Rattle.std.specs.Prelude.{◌≡◌, ◌==◌, All, position};
ghost use Rattle.afdx_plan.specs.Config.{IsPlan, plan_of_parts};
ghost use Rattle.afdx_plan.specs.Plan.{IsLink, IsPort, jitter_of};

use crate::link_plan::LinkPlan;
use crate::port_plan::{PortId, PortPlan, VlId};
use std::marker::Model;

/// A valid plan of an end system: it has none of the faults of `ConfigFault`.
#[derive(Debug, Drop)]
pub struct Config {
    end_system: u16,
    links: Vec<LinkPlan>,
    ports: Vec<PortPlan>,
}

impl Model for Config {
    ghost use Rattle.afdx_plan.specs.Config.{Plan, IsPlan, plan_of_parts};

    ghost Value = { Plan };

    ghost view = { λ c. plan_of_parts c.end_system c.links.items c.ports.items };

    ghost invariant = { λ c. IsPlan (plan_of_parts c.end_system c.links.items c.ports.items) };
}

impl Config {
    /// Makes a plan of valid parts.
    pub fn new(end_system: u16, links: Vec<LinkPlan>, ports: Vec<PortPlan>) -> Config
        requires { IsPlan (plan_of_parts end_system links.items ports.items) }
        ensures plan { result ≡ plan_of_parts end_system links.items ports.items }
    {
        Config {
            end_system,
            links,
            ports,
        }
    }

    /// Returns the identifier of the end system.
    pub fn end_system(&self) -> u16
        ensures { result ≡ self.now.end_system }
    {
        self.end_system
    }

    /// Returns the virtual links, in the order of the plan.
    pub fn links(&self) -> &[LinkPlan]
        ensures plan { result.now ≡ self.now.links }
        ensures valid { IsPlan self.now }
        ensures each { All IsLink result.now }
    {
        &self.links
    }

    /// Returns the ports, in the order of the plan.
    pub fn ports(&self) -> &[PortPlan]
        ensures plan { result.now ≡ self.now.ports }
        ensures valid { IsPlan self.now }
        ensures each { All IsPort result.now }
    {
        &self.ports
    }

    /// Returns the index of the link with this identifier in `links`.
    pub fn link_index(&self, id: VlId) -> Option<usize>
        ensures { result ≡ position (λ link. link.id.0 == id.0) self.now.links }
    {
        self.links.iter().position(|link| link.id.0 == id.0)
    }

    /// Returns the index of the port with this identifier in `ports`.
    pub fn port_index(&self, id: PortId) -> Option<usize>
        ensures { result ≡ position (λ port. port.id.0 == id.0) self.now.ports }
    {
        self.ports.iter().position(|port| port.id.0 == id.0)
    }
}

/// The greatest message of a port, in bytes.
pub const MESSAGE_LIMIT: usize = 8192;

/// The greatest queue of a sub-VL, in messages.
pub const CAPACITY_LIMIT: usize = 256;

/// The most virtual links of an end system.
pub const LINKS_LIMIT: usize = 64;

/// The most ports of an end system.
pub const PORTS_LIMIT: usize = 256;

/// The most ports of a sub-VL.
pub const SUB_PORTS_LIMIT: usize = 64;

/// Returns the time in nanoseconds that a frame may wait for frames of other links: 40,000, plus for each link 80 for
/// each byte of its greatest frame and of the 20 bytes around it on the wire. This formula is only reported; no plan is
/// refused for its jitter.
pub fn jitter_ns(config: &Config) -> u64
    ensures { result ≡ jitter_of config.now.links }
{
    let links = config.links();
    let mut bytes = 0u64;
    for link in links {
        bytes += 20 + link.lmax.bytes() as u64;
    }
    40_000 + 80 * bytes
}
