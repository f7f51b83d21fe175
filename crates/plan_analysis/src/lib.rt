//! Analyzes the plan of an end system: load and jitter of its links, load of each network, the
//! longest wait of a message of each port, and the memory of each sub-VL; and by the periods of its
//! ports, shorter waits and the places that each queue needs.
#![tactic(auto)]

mod analysis;
mod busy_time;
mod fragments;
mod groups;
pub mod laws;
mod load;
mod memory;
mod traffic;

pub use analysis::{
    Analysis, JITTER_LIMIT, LATENESS_LIMIT, LinkAnalysis, NetworkRow, PortAnalysis, analyze,
};
pub use fragments::used_sub_vls;
pub use load::{OWN_JITTER, carries};
pub use memory::{LARGE_MEMORY, Memory, SubRow, table_memory};
pub use traffic::{Bound, Sender, Worst, traffic_bounds};
