//! The content of the C library's handles: end systems and ports, and the calls on them. Each
//! number returned is one of `afdx.h`.
#![tactic(auto)]

pub mod answer;
mod end_system;
mod handle;
mod judging;
mod opening;
mod ports;
mod script;
mod seal;

pub use answer::{FrameRelease, LinkCounts, release_of};
pub use end_system::{EndSystem, Stage, write_link_ids, write_port_ids};
pub use handle::{Block, Handle, Home, Marked, Opening, OwnPort};
pub use judging::{FindingRow, JudgeOptions, Judged, judge_into, lost_into};
pub use opening::{open_home, write_front};
pub use ports::{gather, give_to, is_nothing, keep_box, take_port};
pub use script::{ScriptLine, VERSION, laid_out, write_message};
pub use seal::Sealed;
