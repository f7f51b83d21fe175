//! Plans as tables: bytes that are made of a plan on the ground, and loaded as data with a check.
#![tactic(auto)]

mod fault;
pub mod laws;
mod part;
mod read;
mod rules;
mod sum;
mod write;

pub use fault::TableFault;
pub use read::read_table;
pub use write::write_table;
