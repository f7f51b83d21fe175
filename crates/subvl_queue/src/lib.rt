//! The queue of one sub-VL: one receiver, and senders that may each be on a thread of its own. The queue has no lock,
//! and no call waits.
#![tactic(auto)]

pub mod laws;
mod making;
mod receiver;
mod ring;
mod room;
mod rule;
mod sender;

pub use making::{make, open_queue};
pub use receiver::{Gathered, Receiver};
pub use room::Room;
pub use sender::{Sender, Why};
