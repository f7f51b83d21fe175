//! The faults of a table.
ghost use Rattle.std.specs.Prelude.{◌≡◌};
ghost use Rattle.plan_table.specs.Reading.{table_fault_number};

use afdx_plan::ConfigFault;
use thiserror::Error;

/// A fault of a table.
#[derive(Clone, Copy, Debug, PartialEq, Eq, Error)]
pub enum TableFault {
    /// The plan has a fault that its text would have, of 7 to 14, or memory ran out.
    #[error("{0}")]
    Plan(ConfigFault),
    /// The bytes don't begin as a table does.
    #[error("NoTable")]
    NoTable,
    /// The table has another version of the layout.
    #[error("OtherLayout")]
    OtherLayout,
    /// The bytes are more or fewer than the numbers of links and of ports want.
    #[error("WrongLength")]
    WrongLength,
    /// The check isn't the check of the bytes before it.
    #[error("WrongSum")]
    WrongSum,
    /// A number has a value that no table of a plan has there.
    #[error("WrongValue")]
    WrongValue,
}

impl TableFault {
    /// Returns the number of the fault: the number of the plan's fault, or 16 to 20 in the order of the variants.
    pub fn number(self) -> u8
        ensures { result ≡ table_fault_number self }
    {
        match self {
            TableFault::Plan(fault) => fault.number(),
            TableFault::NoTable => 16,
            TableFault::OtherLayout => 17,
            TableFault::WrongLength => 18,
            TableFault::WrongSum => 19,
            TableFault::WrongValue => 20,
        }
    }
}
