//! The text of scripts: the meaning of lines, and the transcript of a run, which has the notes on its lines and the
//! lines of the frames of two networks.
#![tactic(auto)]

mod bytes;
mod faults;
mod line_meaning;
mod line_text;
mod mark;
mod transcript;
mod words;

pub use bytes::Bytes;
pub use faults::{LineFault, Refusal, RunFault};
pub use line_meaning::{Line, read_line};
pub use line_text::{LINE_LIMIT, Next, ReadFault, next_line};
pub use mark::skip_mark;
pub use transcript::{Outcome, Summary, write_note, write_streams};
pub use words::{Message, number};
