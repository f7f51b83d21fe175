//! Calls of the library that take memory, and after each the calls that then take none. A call that is out of memory is
//! made once more. `tests/refusals.py` refuses each request for memory in turn.
#![tactic(auto)]

mod boards;
mod emitters;
mod queues;

use std::alloc::{AllocError, Global};
use std::io;
use std::sync::Wait;

/// The result of a case: true if each call had the answer that is wanted.
pub type Tried = Result<bool, AllocError>;

const CASES: [&str; 4] = ["open_board", "make", "open_tx", "Cut"];

/// Tries a case by its name.
fn try_case<R: Wait + Print>(rt: &R, alloc: Global, name: &str) -> Tried {
    match name {
        "open_board" => boards::try_boards(rt, alloc),
        "make" => queues::try_queues(alloc),
        "open_tx" => emitters::try_emitter(rt, alloc),
        _ => emitters::try_cut(alloc),
    }
}

fn main(rt: HostRuntime) -> io::Result<()> {
    let alloc = rt.alloc();
    for name in CASES {
        let mut tried = try_case(&rt, alloc, name);
        if tried.is_err() {
            println!(rt; "{name}: out of memory")?;
            tried = try_case(&rt, alloc, name);
        }
        match tried {
            Ok(true) => println!(rt; "{name}: as wanted")?,
            Ok(false) => println!(rt; "{name}: another answer")?,
            Err(_) => println!(rt; "{name}: out of memory again")?,
        }
    }
    Ok(())
}
