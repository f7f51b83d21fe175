//! The plan of an AFDX end system: its virtual links and its ports.
#![tactic(auto)]

mod config;
mod demo;
mod fault;
pub mod laws;
mod link_plan;
mod port_plan;
mod rows;

pub use config::{
    CAPACITY_LIMIT, Config, LINKS_LIMIT, MESSAGE_LIMIT, PORTS_LIMIT, SUB_PORTS_LIMIT, jitter_ns,
};
pub use demo::demo_config;
pub use fault::ConfigFault;
pub use link_plan::{Bag, LinkPlan, Lmax, Networks};
pub use port_plan::{Kind, PortId, PortPlan, UdpSum, VlId};
pub use rows::{LinkRow, Misfit, PortRow};
