//! The demonstration plan.
ghost use Rattle.std.specs.Prelude.{◌≡◌, IfOk, IfErr};
ghost use Rattle.afdx_plan.specs.Demo.{demo_link, demo_port, demo_plan};

use crate::config::Config;
use crate::fault::ConfigFault;
use crate::link_plan::{Bag, LinkPlan, Lmax, Networks};
use crate::port_plan::{Kind, PortId, PortPlan, UdpSum, VlId};
use std::alloc::Global;

/// Returns the demonstration plan: end system 1 with link 1 and port 10. Fails only if an allocation fails.
pub fn demo_config(alloc: Global) -> Result<Config, ConfigFault>
    ensures plan { IfOk result (λ config. config ≡ demo_plan) }
    ensures refused { IfErr result (λ fault. fault ≡ ConfigFault.Memory) }
{
    let links = Vec::from_array(alloc, [demo_link()]).map_err(|_| ConfigFault::Memory)?;
    let ports = Vec::from_array(alloc, [demo_port()]).map_err(|_| ConfigFault::Memory)?;
    Ok(Config::new(1, links, ports))
}

/// Returns the link of the demonstration plan.
fn demo_link() -> LinkPlan
    ensures { result ≡ demo_link }
{
    LinkPlan {
        id: VlId(1),
        bag: Bag::Ms1,
        lmax: Lmax::new(1518),
        sub_vls: 1,
        capacity: 2,
        networks: Networks::Both,
    }
}

/// Returns the port of the demonstration plan.
fn demo_port() -> PortPlan
    ensures { result ≡ demo_port }
{
    PortPlan {
        id: PortId(10),
        vl: VlId(1),
        sub: 0,
        partition: 1,
        kind: Kind::Queuing,
        source: 1000,
        destination: 2000,
        max: 8192,
        unicast: None,
        checksum: UdpSum::Omitted,
    }
}
