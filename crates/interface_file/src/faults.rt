//! The faults of interface documents.
ghost use Rattle.std.specs.Prelude.{◌≡◌, ◌<◌, OnOk};

use crate::columns::name_of;
use std::alloc::{AllocError, Global};
use thiserror::Error;

/// The most faults that are kept.
const FAULTS_LIMIT: usize = 1_000;

/// A fault of an interface document: its row, from 1, the place of its column in `COLUMNS`, if there is one, and the
/// kind of fault. `Display` prints its line.
#[derive(Debug, Drop, Error)]
#[error("row {row}{comma}{name}: {wrong}", comma = .column.map_or("", |_| ", "), name = .column.map_or("", name_of))]
pub struct DocumentFault {
    pub row: u64,
    pub column: Option<usize>,
    pub wrong: Wrong,
}

/// The kinds of faults of an interface document. Texts of cells are cut, and have no control characters.
#[derive(Debug, Drop, Error)]
pub enum Wrong {
    #[error("a header is missing")]
    NoHeader,
    #[error("the column is missing")]
    NoColumn,
    #[error("the column occurs twice")]
    SecondColumn,
    #[error("a row of a port is missing")]
    NoRow,
    #[error("the number of cells is {found}, and that of the header {wanted}")]
    Cells {
        found: usize,
        wanted: usize,
    },
    #[error("{wanted} is wanted, and {seen}")]
    Value {
        wanted: &'static str,
        seen: String,
    },
    #[error("{seen}, and row {first} has {other} for {whole}")]
    Differs {
        seen: String,
        first: u64,
        whole: &'static str,
        other: String,
    },
    #[error("{seen}, and row {first} has {what}")]
    Same {
        seen: String,
        first: u64,
        what: &'static str,
    },
    #[error("a number below sub_vls, which is {sub_vls}, is wanted, and {seen}")]
    NoSuchSub {
        sub_vls: String,
        seen: String,
    },
    #[error("at most lmax - 47 is wanted of a sampling port, where lmax is {lmax}, and {seen}")]
    TooLong {
        lmax: String,
        seen: String,
    },
    #[error("at most 256 rows of ports are wanted, and this is one more")]
    ManyRows,
    #[error("at most 64 links are wanted, and {vl} is one more")]
    ManyLinks {
        vl: String,
    },
    #[error("at most 64 ports of one sub-VL are wanted, and {sub} has one more")]
    ManyPorts {
        sub: String,
    },
    #[error("the plan would have the fault {0}")]
    Plan(afdx_plan::ConfigFault),
}

/// The faults of a document so far: the first 1,000, and the number of all.
#[derive(Drop)]
pub(crate) struct Faults {
    pub first: Vec<DocumentFault>,
    pub count: usize,
}

impl Faults {
    pub(crate) fn new(alloc: Global) -> Faults {
        Faults {
            first: Vec::new(alloc),
            count: 0,
        }
    }

    /// Counts a fault, and keeps it if it is one of the first.
    pub(crate) fn add(
        &mut self,
        row: u64,
        column: Option<usize>,
        wrong: Wrong,
    ) -> Result<(), AllocError>
        ensures { OnOk result (0 < self.new.count) }
    {
        self.count = self.count.saturating_add(1);
        if self.first.len() < FAULTS_LIMIT {
            self.first.push(DocumentFault { row, column, wrong })?;
        }
        Ok(())
    }

    /// Orders the faults that are kept by rows and columns.
    pub(crate) fn sort(&mut self)
        ensures { self.new.count ≡ self.old.count }
    {
        let first = self.first.as_mut_slice();
        first.sort_unstable_by_key(|fault| (fault.row, fault.column));
    }
}
