//! One turn of a virtual link: its sub-VLs, their queues, and the released frame.
#![tactic(auto)]

mod link;
mod sub;

pub use link::{Link, Served};
pub use sub::{Sub, SubVl};
