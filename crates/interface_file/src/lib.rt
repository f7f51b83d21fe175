//! Interface documents: tables of the ports of an end system, as CSV texts. Their plans, and scripts of their traffic.
#![tactic(auto)]

mod columns;
mod faults;
mod importing;
mod plan_text;
mod reading;
mod schedule;
mod script;

pub use faults::{DocumentFault, Wrong};
pub use importing::{Imported, import};
pub use schedule::{Flow, PortTraffic, Sending, flows_of, sendings_until};
pub use script::write_script;
