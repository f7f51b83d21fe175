//! The reasons for which a storm gives no report.
ghost use Rattle.std.specs.Prelude.{◌≡◌, ◌≢◌, ◌↔◌};
ghost use Rattle.storm.specs.declared.fault.StormStop.TheVariants.{Memory as OutOfMemory};
ghost use Rattle.storm.specs.declared.fault.StormFault.TheVariants.{Memory, Short};

use std::alloc::{AllocError, AllocFailed};
use thiserror::Error;

/// The reasons for which a storm gives no report. `Short` comes before `Memory`, and `Memory` before `Turns`. `Display`
/// prints the variant's name.
#[derive(Clone, Copy, Debug, PartialEq, Eq, Error)]
pub enum StormFault {
    /// A port's greatest message is below 6 bytes. No thread was started.
    #[error("Short")]
    Short = 1,
    /// A worker used up its sends or was ended by the gate, or the drain used up its polls.
    #[error("Turns")]
    Turns = 2,
    /// An allocation failed, a thread couldn't be started, or both networks failed.
    #[error("Memory")]
    Memory = 3,
}

/// The reasons for which the totals of a storm aren't written: it gives no report, or the writer fails.
#[derive(Clone, Copy, Debug, PartialEq, Eq, Error)]
pub enum ThrowFault {
    #[error(transparent)]
    Storm(StormFault),
    #[error("write failed")]
    Write,
}

/// The reasons for which a running storm stops early.
#[derive(Clone, Copy)]
pub(crate) enum StormStop {
    Memory,
    Turns,
}

impl From<AllocError> for StormStop {
    ghost from_gives = { λ _ stop. stop ≡ OutOfMemory };

    fn from(_error: AllocError) -> StormStop {
        StormStop::Memory
    }
}

impl<T: Drop> From<AllocFailed<T>> for StormStop {
    ghost from_gives = { λ _ stop. stop ≡ OutOfMemory };

    fn from(_error: AllocFailed<T>) -> StormStop {
        StormStop::Memory
    }
}

impl From<StormStop> for StormFault {
    ghost from_gives = { λ stop fault. (fault ≢ Short) × (fault ≡ Memory ↔ stop ≡ OutOfMemory) };

    fn from(stop: StormStop) -> StormFault {
        match stop {
            StormStop::Memory => StormFault::Memory,
            StormStop::Turns => StormFault::Turns,
        }
    }
}
