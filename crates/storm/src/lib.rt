//! A storm over a whole end system: each of its ports sends from a thread of its own, while one thread polls
//! the emitter and another reads the counts of its links; and its totals.
#![tactic(auto)]

mod both;
mod fault;
mod gate;
mod polling;
mod progress;
mod run;
mod start;
mod storm_report;
mod totals;
mod watcher;
mod worker;

pub use fault::{StormFault, ThrowFault};
pub use gate::{Gate, OpenGate};
pub use progress::Progress;
pub use storm_report::{StormReport, storm, storm_over};
pub use totals::{throw_storm, write_totals};
