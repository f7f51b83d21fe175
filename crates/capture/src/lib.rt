//! Captures: pcapng and pcap are read, and the frames of two networks are written as one pcapng.
#![tactic(auto)]

mod in_order;
mod interface;
pub mod laws;
mod losses;
mod order;
mod packet;
mod reading;
mod stop;
mod unit;
mod write;

pub use in_order::next_net;
pub use interface::{Interface, MOST_INTERFACES};
pub use losses::Losses;
pub use order::Order;
pub use packet::Packet;
pub use reading::{Reading, Recording, Step, read_capture};
pub use stop::{CaptureEnd, Fault, NoStep};
pub use unit::{Clock, Format, GREATEST_UNIT};
pub use write::write_capture;
