//! The reasons for which calls are refused.
use afdx_plan::Config;
use redundant_mux::Network;
use std::fmt;
use thiserror::Error;

/// The reasons for which a port refuses a message. The length is checked first, then the queue of the port's sub-VL.
#[derive(Clone, Copy, Debug, PartialEq, Eq, Error)]
pub enum Refusal {
    /// The message has no bytes. The port is unchanged.
    #[error("Empty")]
    Empty = 1,
    /// The message is over the port's greatest message. The port is unchanged.
    #[error("TooLong")]
    TooLong = 2,
    /// The queue was closed by `Emitter::close`. If it was closed after the port's first check, a
    /// slot request was used. A port whose emitter is gone, and whose queue is open, still accepts
    /// until there is no room.
    #[error("Closed")]
    Closed = 3,
    /// The queue was open, and the port has used all its slot requests.
    #[error("Exhausted")]
    Exhausted = 4,
    /// The queue was open, and had no room: the held messages and slot requests under way filled
    /// its capacity. A slot request was used.
    #[error("Full")]
    Full = 5,
}

/// A refused message, and the reason. The accepted messages are unchanged.
#[derive(Debug, Drop, Error)]
#[error("message refused: {why}")]
pub struct SendFault {
    pub why: Refusal,
    pub bytes: Vec<u8>,
}

/// The reason for which a poll did nothing. The emitter is unchanged.
#[derive(Clone, Copy, Debug, PartialEq, Eq, Error)]
pub enum PollFault {
    /// Both networks have failed before.
    #[error("BothDown")]
    BothDown = 1,
}

/// The plan has no such sub-VL. The emitter is unchanged.
#[derive(Clone, Copy, Debug, PartialEq, Eq, Error)]
#[error("NoSuchSub")]
pub struct NoSuchSub;

/// An allocation failed. The arguments are returned unchanged.
#[derive(Drop, Error)]
#[error("out of memory")]
pub struct OpenFault<A: Network + Drop, B: Network + Drop> {
    pub config: Config,
    pub a: A,
    pub b: B,
}

/// Shows the plan alone, so that the networks need no `Debug`.
impl<A: Network + Drop, B: Network + Drop> fmt::Debug for OpenFault<A, B> {
    fn fmt<W: fmt::Write>(&self, f: &mut fmt::Formatter<W>) -> fmt::Result {
        let mut shown = f.debug_struct("OpenFault");
        shown.field("config", &self.config);
        shown.finish_non_exhaustive()
    }
}
