//! Judges a recording of an end system's frames by its plan: each deviation is a finding. A recording of several end
//! systems on one tap is judged packet by packet, by the plan of its source.
#![tactic(auto)]

mod addressing;
pub mod check_sequence;
mod fields;
mod figures;
mod finding;
mod joining;
mod judge;
pub mod laws;
mod line;
mod link;
mod merging;
mod network;
mod rules;
mod source;
mod sub;
mod tap;
mod times;
mod twins;

pub use addressing::{Addressing, CONSTANT};
pub use afdx_frame::Layout;
pub use figures::{Figures, Total};
pub use finding::{Ending, Finding, FindingKind, FragmentMisfit};
pub use judge::{Judge, Options};
pub use merging::judge_packets;
pub use network::{Clash, Shared, clashes};
pub use source::source_of;
pub use tap::Tap;
