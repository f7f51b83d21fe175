//! Reports on plans, their analyses and their traffic, as texts, pages and rows for a spreadsheet.
#![tactic(auto)]

mod analysis_text;
mod assessment;
mod check_report;
mod flow;
mod html;
mod numbers;
mod page;
mod page_loads;
mod page_waits;
mod queues;
pub mod sheet;
mod sums;
mod time_line;
mod traffic;

pub use analysis_text::write_analysis;
pub use assessment::{
    Assessment, Row, Sentence, senders_of, write_rows, write_traffic, write_verdict,
};
pub use check_report::write_report;
pub use html::{Cell, Escaped, Parts};
pub use page::{Digested, VERSION, write_head, write_page};
pub use queues::{Judged, Queue, write_queues};
pub use sums::{Sum, Sums, write_sums};
pub use traffic::{Demand, PERIOD_LIMIT, Traffic, TrafficFault, Wrong, no_traffic, read_traffic};
