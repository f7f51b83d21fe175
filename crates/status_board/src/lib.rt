//! Counts of each virtual link, published by one thread and read by another. A read is never torn.
#![tactic(auto)]

mod board;
mod counts;
pub mod laws;
mod monitor;
mod opening;
mod rule;

pub use board::Board;
pub use counts::Counts;
pub use monitor::Monitor;
pub use opening::open_board;
