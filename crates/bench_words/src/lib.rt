//! The words of the program's command line, reading its files, its texts on a plan, the ends of its commands, and the
//! JSON documents of plans and recordings, which the commands print for other programs.
#![tactic(auto)]

mod addresses;
mod checked;
mod commands;
mod document;
mod explained;
mod halting;
mod judged;
mod reading;
mod reported;
mod status;
mod words;

pub use checked::check_document;
pub use document::LAYOUT;
pub use explained::explain_document;
pub use halting::Halting;
pub use judged::{
    AddressingRow, CaptureRow, FindingRow, ForeignRow, Judged, JudgedLink, JudgedPlan, KindRow,
    TakenRow, judge_document,
};
pub use reading::{TEXT_LIMIT, check, read_digested, read_plan, read_text, tell_faults};
pub use reported::{ReportedPlan, hundredths, report_document, reported_plan};
pub use status::{End, Failure, status_of};
pub use words::{Asked, Case, Words, parse, read_words, tell_words};
