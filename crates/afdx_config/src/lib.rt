//! Plans of end systems as TOML texts.
#![tactic(auto)]

mod document;
mod explaining;
mod findings;
mod format;
pub mod laws;
mod layout;
mod pairs;
mod plan_findings;
mod read;
mod reading;
mod rows;
mod told;

pub use afdx_plan::{
    Bag, CAPACITY_LIMIT, Config, ConfigFault, Kind, LINKS_LIMIT, LinkPlan, Lmax, MESSAGE_LIMIT,
    Networks, PORTS_LIMIT, PortId, PortPlan, SUB_PORTS_LIMIT, UdpSum, VlId, demo_config, jitter_ns,
};
pub use explaining::{Explanation, explain, explain_file};
pub use findings::{Place, PlanFinding};
pub use layout::id_line;
pub use read::read_config;
