//! The faults of a plan.
ghost use Rattle.std.specs.Prelude.{◌≡◌};
ghost use Rattle.afdx_plan.specs.PlanFaults.{fault_number};

use thiserror::Error;

/// A fault of a plan. If a text has several, `read_config` returns the one of the least
/// number. It may return `Memory` instead of any result.
#[derive(Clone, Copy, Debug, PartialEq, Eq, Error)]
pub enum ConfigFault {
    #[error("Toml")]
    Toml = 1,
    #[error("MissingKey")]
    MissingKey,
    #[error("UnknownKey")]
    UnknownKey,
    #[error("WrongKind")]
    WrongKind,
    #[error("OutOfRange")]
    OutOfRange,
    #[error("BadBag")]
    BadBag,
    #[error("DuplicateVl")]
    DuplicateVl,
    #[error("DuplicatePort")]
    DuplicatePort,
    #[error("NoSuchVl")]
    NoSuchVl,
    #[error("NoSuchSub")]
    NoSuchSub,
    #[error("SamplingTooLong")]
    SamplingTooLong,
    #[error("SameFlow")]
    SameFlow,
    #[error("SharedUnicast")]
    SharedUnicast,
    #[error("Limit")]
    Limit,
    #[error("Memory")]
    Memory,
}

impl ConfigFault {
    /// Returns the number of the fault, 1 to 15 in the order of the variants.
    pub fn number(self) -> u8
        ensures { result ≡ fault_number self }
    {
        self as u8
    }
}
