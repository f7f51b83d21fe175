//! Networks A and B of an end system. A `Mux` sends each frame to the networks that it names, and abandons a network at
//! its first failure. Three networks in memory implement `Network`: `MemNetwork` keeps every frame, `FrameLog` too with
//! all bytes in one buffer, and `Outbox` the last 64, or only those with the latest time.
#![tactic(auto)]

mod frame_log;
mod memory;
mod mux;
mod network;
mod outbox;

pub use frame_log::{FrameLog, LogFrames};
pub use memory::{Handed, MemNetwork};
pub use mux::{BothDown, Mux, Standing, Trail};
pub use network::{Failable, HandFault, Network};
pub use outbox::{Kept, LastFrames, LastTime, Outbox, ROOM, Span};
