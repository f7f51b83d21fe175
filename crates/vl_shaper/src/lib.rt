//! The regulation of a virtual link: sequence numbers, bandwidth allocation gap, round robin.
#![tactic(auto)]

pub mod laws;
mod shaper;

pub use shaper::{Shaper, Stamp};
