//! The loads of a network of several end systems.
use crate::numbers::{Decimal, HUNDREDTHS, THOUSANDTHS};
use afdx_frame::Net;
use plan_analysis::{Analysis, NetworkRow};
use std::io::{self, Write};

/// The rate of a network in bits a second.
const LINE_RATE: u64 = 100_000_000;

/// A ten-thousandth of that rate, in which shares are told.
const SHARE: u64 = 10_000;

/// The load of a network, in bits a second on the wire: the sum of its end systems' loads, each rounded up.
#[derive(Clone, Copy, Debug, PartialEq, Eq)]
pub struct Sum {
    pub net: Net,
    pub load: u64,
}

impl Sum {
    /// Returns the load in hundredths of a percent of 100 Mbit/s, rounded up.
    pub fn share(&self) -> u64 {
        self.load.div_ceil(SHARE)
    }

    /// Returns whether the load is more than 100 Mbit/s.
    pub fn is_exceeded(&self) -> bool {
        self.load > LINE_RATE
    }

    fn add(&mut self, row: &NetworkRow) {
        self.load = self.load.saturating_add(row.load);
    }
}

/// The loads of both networks.
#[derive(Clone, Copy, Debug, PartialEq, Eq)]
pub struct Sums {
    pub a: Sum,
    pub b: Sum,
}

impl Sums {
    /// Creates the loads of both networks without end systems.
    pub fn new() -> Sums {
        let (a, b) = (Net::A, Net::B);
        Sums {
            a: Sum { net: a, load: 0 },
            b: Sum { net: b, load: 0 },
        }
    }

    /// Adds the loads of an end system.
    pub fn add(&mut self, analysis: &Analysis) {
        self.a.add(&analysis.network_a);
        self.b.add(&analysis.network_b);
    }

    /// Returns whether a network's load is more than 100 Mbit/s.
    pub fn is_exceeded(&self) -> bool {
        self.a.is_exceeded() || self.b.is_exceeded()
    }
}

/// Writes the loads of a network of so many end systems.
pub fn write_sums<W: Write>(writer: &mut W, count: usize, sums: &Sums) -> io::Result<()> {
    writeln!(writer, "network of {count} end systems")?;
    writer.write_all(b"network    load-kbit/s  share-%  exceeded\n")?;
    for (name, sum) in [("A", &sums.a), ("B", &sums.b)] {
        let load = Decimal(sum.load, THOUSANDTHS, Some(11));
        let share = Decimal(sum.share(), HUNDREDTHS, Some(6));
        let exceeded = if sum.is_exceeded() { "yes" } else { "no" };
        writeln!(writer, "{name:>7}{load}{share}{exceeded:>10}")?;
    }
    Ok(())
}
