//! The traffic of a plan: names, periods, jitters and deadlines of its ports, read from a CSV text.
use crate::sheet::{self, Others, bare, column_of, is_empty, line_of, seen, separator_of, whole};
use afdx_plan::Config;
use csv::{ByteRecord, ReaderBuilder};
use script_text::number;
use std::alloc::{AllocError, Global};
use thiserror::Error;

/// The greatest period, the greatest jitter and the greatest deadline, in microseconds.
pub const PERIOD_LIMIT: u64 = 1_000_000_000_000;

/// The most bytes of a name.
const NAME_LIMIT: usize = 64;

/// The most faults that are kept.
const FAULTS_LIMIT: usize = 1_000;

/// The columns of a traffic text, by their names in its header.
const COLUMNS: [&str; 5] = ["port", "name", "period_us", "jitter_us", "deadline_us"];

/// The row of a traffic text for a port. Times are in microseconds.
#[derive(Drop)]
pub struct Demand {
    // the line that names the port, if one does
    pub line: Option<u64>,
    pub name: String,
    pub period: Option<u64>,
    // the longest time from a message's planned time to its acceptance: 0 without a period, and at most the period
    pub jitter: u64,
    pub deadline: Option<u64>,
}

/// A traffic text: a demand for each port of the plan, in order, and the faults of the text.
#[derive(Drop)]
pub struct Traffic {
    pub demands: Vec<Demand>,
    /// The first 1,000 faults.
    pub faults: Vec<TrafficFault>,
    /// The number of all faults.
    pub count: usize,
    /// The columns that neither a traffic text nor an interface document has: they are left alone.
    pub others: Others,
}

/// A fault of a traffic text: its line from 1, the name of its column, if there is a column with a name, and the kind
/// of fault. `Display` prints its line of the report.
#[derive(Debug, Drop, Error)]
#[error("line {0}{comma}{column}: {2}", comma = .1.map_or("", |_| ", "), column = .1.unwrap_or(""))]
pub struct TrafficFault(pub u64, pub Option<&'static str>, pub Wrong);

/// The kinds of faults of a traffic text. Texts of cells are cut, and have no control characters.
#[derive(Debug, Drop, Error)]
pub enum Wrong {
    #[error("a header is missing")]
    NoHeader,
    #[error("the column occurs twice")]
    SecondColumn,
    #[error("the column is missing")]
    NoColumn,
    #[error("the number of cells is {found}, and that of the header {wanted}")]
    Cells { found: usize, wanted: usize },
    #[error("0 to 65535 is wanted, and {seen}")]
    PortNumber { seen: String },
    #[error("the plan has no port {0}")]
    UnknownPort(u64),
    #[error("port {id} already has a row, line {first}")]
    SecondRow { id: u64, first: u64 },
    #[error("1 to {PERIOD_LIMIT} is wanted, and {seen}")]
    Time { seen: String },
    #[error("0 to {most} is wanted, and {seen}")]
    Jitter { most: u64, seen: String },
    #[error("0 is wanted without a period, and {seen}")]
    NoPeriod { seen: String },
    #[error("at most 64 bytes of text without control characters are wanted, and {seen}")]
    Name { seen: String },
}

/// Makes traffic without a text: no port has a name, a period or a deadline. Fails only if an allocation fails.
pub fn no_traffic(alloc: Global, config: &Config) -> Result<Traffic, AllocError> {
    let mut demands = Vec::with_capacity(alloc, config.ports().len())?;
    for _port in config.ports() {
        demands.push(Demand {
            line: None,
            name: String::new(alloc),
            period: None,
            jitter: 0,
            deadline: None,
        })?;
    }
    Ok(Traffic {
        demands,
        faults: Vec::new(alloc),
        count: 0,
        others: Others::new(alloc),
    })
}

/// Reads the traffic of a plan: a header, and a row for each port. A header has one fault at most, and a faulty one is
/// the last row that is read. Fails only if an allocation fails.
pub fn read_traffic(alloc: Global, config: &Config, text: &[u8]) -> Result<Traffic, AllocError> {
    let mut reading = Reading {
        config,
        traffic: no_traffic(alloc, config)?,
        line: 1,
        places: [None; 5],
        width: None,
    };
    reading.read(alloc, text)?;
    Ok(reading.traffic)
}

/// A traffic text that is read, at the line of a row.
#[derive(Drop)]
struct Reading<'a> {
    config: &'a Config,
    traffic: Traffic,
    line: u64,
    // the place of each column, and the number of fields in a row, once a header without a fault is read
    places: [Option<usize>; 5],
    width: Option<usize>,
}

impl Reading<'_> {
    /// Reads a text. A fault of the header ends it.
    fn read(&mut self, alloc: Global, text: &[u8]) -> Result<(), AllocError> {
        let rows = ReaderBuilder::new()
            .has_headers(false)
            .flexible(true)
            .delimiter(separator_of(alloc, text, &COLUMNS)?)
            .from_reader(alloc, text);
        for row in rows.into_byte_records() {
            let Ok(row) = row else {
                return Err(AllocError);
            };
            if is_empty(&row) {
                continue;
            }
            self.line = line_of(text, row.position());
            match self.width {
                Some(wanted) => self.row(alloc, wanted, &row)?,
                None => self.head(&row)?,
            }
            if self.width.is_none() {
                return Ok(());
            }
        }
        if self.width.is_none() {
            self.add(None, Wrong::NoHeader)?;
        }
        Ok(())
    }

    /// Counts a fault of the row, and keeps it if it is one of the first.
    fn add(&mut self, column: Option<&'static str>, wrong: Wrong) -> Result<(), AllocError> {
        let traffic = &mut self.traffic;
        traffic.count = traffic.count.saturating_add(1);
        if traffic.faults.len() < FAULTS_LIMIT {
            traffic.faults.push(TrafficFault(self.line, column, wrong))?;
        }
        Ok(())
    }

    /// Reads the header, up to its first fault.
    fn head(&mut self, row: &ByteRecord) -> Result<(), AllocError> {
        for place in 0..row.len() {
            let field = row.get(place).unwrap_or(b"");
            match column_of(&COLUMNS, field) {
                None if column_of(&sheet::COLUMNS, field).is_some() => {}
                None => self.traffic.others.add(field)?,
                Some(column) if self.places[column].is_some() => {
                    return self.add(Some(COLUMNS[column]), Wrong::SecondColumn);
                }
                Some(column) => self.places[column] = Some(place),
            }
        }
        if self.places[0].is_none() {
            return self.add(Some("port"), Wrong::NoColumn);
        }
        self.width = Some(row.len());
        Ok(())
    }

    /// Reads the row of a port.
    fn row(&mut self, alloc: Global, wanted: usize, row: &ByteRecord) -> Result<(), AllocError> {
        let found = row.len();
        if found != wanted {
            return self.add(None, Wrong::Cells { found, wanted });
        }
        let [port, name, period, jitter, deadline] = self.places.map(|place| field(row, place));
        let text = bare(name);
        let name = read_name(alloc, text)?;
        if name.is_none() {
            let seen = seen(alloc, text)?;
            self.add(Some("name"), Wrong::Name { seen })?;
        }
        let is_planned = !whole(period).is_empty();
        let period = self.time(alloc, period, "period_us")?;
        let jitter = self.jitter(alloc, jitter, period, is_planned)?;
        let deadline = self.time(alloc, deadline, "deadline_us")?;
        let Some(id) = number(whole(port), 65_535) else {
            let seen = seen(alloc, bare(port))?;
            return self.add(Some("port"), Wrong::PortNumber { seen });
        };
        let mut ports = self.config.ports().iter();
        let place = ports.position(|port| port.id.0 as u64 == id);
        let demands = &mut self.traffic.demands;
        let Some(demand) = demands.get_mut(place.unwrap_or(usize::MAX)) else {
            return self.add(Some("port"), Wrong::UnknownPort(id));
        };
        if let Some(first) = demand.line {
            return self.add(Some("port"), Wrong::SecondRow { id, first });
        }
        *demand = Demand {
            line: Some(self.line),
            name: name.unwrap_or(String::new(alloc)),
            period,
            jitter,
            deadline,
        };
        Ok(())
    }

    /// Reads a jitter: 0 if its field is empty, and at most the period. Without a period only 0 is allowed, and beside
    /// a fault of the period any time.
    fn jitter(
        &mut self,
        alloc: Global,
        cell: &[u8],
        period: Option<u64>,
        is_planned: bool,
    ) -> Result<u64, AllocError> {
        let text = whole(cell);
        if text.is_empty() {
            return Ok(0);
        }
        let most = period.unwrap_or(if is_planned { PERIOD_LIMIT } else { 0 });
        let jitter = number(text, most);
        if jitter.is_none() {
            let seen = seen(alloc, bare(cell))?;
            let wrong = if is_planned {
                Wrong::Jitter { most, seen }
            } else {
                Wrong::NoPeriod { seen }
            };
            self.add(Some("jitter_us"), wrong)?;
        }
        Ok(jitter.unwrap_or(0))
    }

    /// Reads a time, which an empty field leaves out.
    fn time(
        &mut self,
        alloc: Global,
        cell: &[u8],
        column: &'static str,
    ) -> Result<Option<u64>, AllocError> {
        let text = whole(cell);
        let time = match number(text, PERIOD_LIMIT) {
            Some(0) => None,
            time => time,
        };
        if time.is_none() && !text.is_empty() {
            let seen = seen(alloc, bare(cell))?;
            self.add(Some(column), Wrong::Time { seen })?;
        }
        Ok(time)
    }
}

/// Returns the field of a column; nothing if the text lacks the column.
fn field(row: &ByteRecord, place: Option<usize>) -> &[u8] {
    place.and_then(|place| row.get(place)).unwrap_or(b"")
}

/// Reads a name: text of at most `NAME_LIMIT` bytes without control characters.
fn read_name(alloc: Global, field: &[u8]) -> Result<Option<String>, AllocError> {
    match std::str::from_utf8(field) {
        Ok(name) if name.len() <= NAME_LIMIT && !name.chars().any(|c| c.is_control()) => {
            Ok(Some(String::from_str(alloc, name)?))
        }
        _ => Ok(None),
    }
}
