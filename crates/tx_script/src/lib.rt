//! Runs of a script over an end system.
//!
//! [`run_script`] takes a plan and the lines of a script, obeys them one after the other, and writes the
//! transcript: the notes on lines, which are counted from 1, then the frames of network A, in their order, and
//! the frames of B, each with its time and its bytes in hexadecimal. `docs/guide/program.md` has the lines, notes
//! and ends of a run.
//!
//! # An example
//!
//! Over the demonstration plan, whose port 10 sends on link 1, with room for two messages:
//!
//! ```text
//! send 10 01
//! send 10 02
//! send 10 03
//! at 0
//! at 999
//! close 1 0
//! send 10 04
//! send 11 05
//! at 998
//! ```
//!
//! The third message finds the queue full. The poll at 0 releases the first message. The poll at 999
//! releases nothing, since the gap of a millisecond isn't over. After the close nothing is accepted, no
//! port has the identifier 11, and time doesn't go back:
//!
//! ```text
//! line 3: refused Full
//! line 6: closed 2
//! line 7: refused Closed
//! line 8: refused NoPort
//! line 9: refused TimeBack
//! A 0 0300000000010200000001200800450000..
//! B 0 0300000000010200000001400800450000..
//! ```
//!
//! The summary is 2 accepted, 4 refused and 1 frame: a close is neither.
#![tactic(auto)]

mod bench;
mod obey_lines;
mod script;

pub use script::{Played, play_script, run_script};
pub use script_text::{
    Line, LineFault, Message, Outcome, Refusal, RunFault, Summary, read_line, write_note,
    write_streams,
};
