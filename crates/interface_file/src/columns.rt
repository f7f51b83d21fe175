//! The columns of an interface document, and the values that their cells may have.
ghost use Rattle.std.specs.Prelude.{◌<◌};

use plan_report::sheet::COLUMNS;

/// The subject of a column.
#[derive(Clone, Copy, PartialEq, Eq)]
pub(crate) enum Subject {
    EndSystem,
    Link,
    Port,
    /// The port's traffic. The plan leaves these cells out.
    Traffic,
}

/// The kinds of cells of a column.
#[derive(Clone, Copy, PartialEq, Eq)]
pub(crate) enum Content {
    Number,
    /// A word of the format of plans.
    Word,
    /// A text for people, which a plan has as a comment.
    Name,
}

/// A column: its subject, the key of a plan that has its value, the kind of its cells, whether a document needs it, and
/// the text of what is wanted in its cells.
pub(crate) struct Column(
    pub Subject,
    pub &'static str,
    pub Content,
    pub bool,
    pub &'static str,
);

pub(crate) const VL: usize = 0;

pub(crate) const VL_NAME: usize = 1;

pub(crate) const LMAX: usize = 3;

pub(crate) const SUB_VLS: usize = 4;

pub(crate) const PORT: usize = 7;

pub(crate) const NAME: usize = 8;

pub(crate) const SUB: usize = 9;

pub(crate) const END_SYSTEM: usize = 17;

const NAME_WANTED: &str = "text of at most 64 bytes without control characters";

const IDENTIFIER: &str = "0 to 65535";

const UDP_PORT: &str = "1 to 65535";

const BAG: &str = "1, 2, 4, 8, 16, 32, 64 or 128";

const ADDRESS: &str = "an address in 10.0.0.0/8, without leading zeros,";

/// The columns, in the order of `COLUMNS`.
const TABLE: [Column; 21] = [
    Column(Subject::Port, "vl", Content::Number, true, IDENTIFIER),
    Column(Subject::Link, "", Content::Name, false, NAME_WANTED),
    Column(Subject::Link, "bag_ms", Content::Number, true, BAG),
    Column(Subject::Link, "lmax", Content::Number, true, "64 to 1518"),
    Column(Subject::Link, "sub_vls", Content::Number, true, "1 to 4"),
    Column(Subject::Link, "capacity", Content::Number, true, "1 to 256"),
    Column(
        Subject::Link,
        "networks",
        Content::Word,
        false,
        "both, a or b",
    ),
    Column(Subject::Port, "id", Content::Number, true, IDENTIFIER),
    Column(Subject::Port, "", Content::Name, false, NAME_WANTED),
    Column(Subject::Port, "sub", Content::Number, true, "0 to 3"),
    Column(Subject::Port, "partition", Content::Number, true, "0 to 31"),
    Column(
        Subject::Port,
        "kind",
        Content::Word,
        true,
        "sampling or queuing",
    ),
    Column(Subject::Port, "source", Content::Number, true, UDP_PORT),
    Column(
        Subject::Port,
        "destination",
        Content::Number,
        true,
        UDP_PORT,
    ),
    Column(Subject::Port, "max", Content::Number, true, "1 to 8192"),
    Column(Subject::Port, "dest_ip", Content::Word, false, ADDRESS),
    Column(
        Subject::Port,
        "checksum",
        Content::Word,
        false,
        "none or udp",
    ),
    Column(Subject::EndSystem, "id", Content::Number, true, IDENTIFIER),
    Column(Subject::Traffic, "", Content::Word, false, ""),
    Column(Subject::Traffic, "", Content::Word, false, ""),
    Column(Subject::Traffic, "", Content::Word, false, ""),
];

/// Returns a column by its place in `COLUMNS`.
pub(crate) fn column_at(place: usize) -> &'static Column
    requires { place < 21 }
{
    &TABLE[place]
}

/// Returns the place of the column that gives a key of a plan's tables of ports, or of links.
pub(crate) fn column_with(subject: Subject, key: &str) -> Option<usize> {
    TABLE
        .iter()
        .position(|column| column.0 == subject && column.1 == key)
}

/// Returns the name of a column by its place in `COLUMNS`.
pub(crate) fn name_of(place: usize) -> &'static str {
    COLUMNS.get(place).copied().unwrap_or("")
}
