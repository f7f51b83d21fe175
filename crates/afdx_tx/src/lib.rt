//! The emitter of an AFDX end system: messages of ports wait in the queues of their sub-VLs, and
//! are transmitted as numbered, spaced frames on two networks.
#![tactic(auto)]

mod emitter;
mod fault;
mod gather;
pub mod laws;
mod open;
mod port;
mod turns;

pub use emitter::{Drain, Draining, Emitter, Phase, Sending};
pub use fault::{NoSuchSub, OpenFault, PollFault, Refusal, SendFault};
pub use open::open_tx;
pub use port::TxPort;
pub use turns::{Release, Report};
