//! The progress of a storm, shown on a terminal.
use crate::gate::Gate;
use std::io::{self, Eprint};
use std::sync::atomic::{AtomicU64, Ordering};
use std::time::{Clock, Instant};

/// A gate that is always open. At most ten times a second it prints to standard error the number of accepted messages,
/// the number of messages of all workers that have begun, and the number of released frames.
#[derive(Drop)]
pub struct Progress<'a, R: Clock + Eprint> {
    rt: &'a R,
    begun: Instant,
    messages: u64,
    // The messages of all workers that have begun.
    all: AtomicU64,
    accepted: AtomicU64,
    frames: AtomicU64,
    // The tenth of a second of the last print, counted from the beginning.
    told: AtomicU64,
}

impl<'a, R: Clock + Eprint> Progress<'a, R> {
    /// Returns the progress of a storm that begins now, in which each port sends `messages` messages.
    pub fn begin(rt: &'a R, messages: u32) -> io::Result<Progress<'a, R>> {
        Ok(Progress {
            rt,
            begun: Instant::now(rt)?,
            messages: u64::from(messages),
            all: AtomicU64::new(0),
            accepted: AtomicU64::new(0),
            frames: AtomicU64::new(0),
            told: AtomicU64::new(0),
        })
    }

    /// Ends the line, if anything was printed.
    pub fn end(&self) {
        if self.told.load(Ordering::SeqCst) > 0 {
            let _told = eprintln!(self.rt; "");
        }
    }

    /// Returns true if nothing was printed yet in this tenth of a second.
    fn is_due(&self) -> bool {
        let Ok(passed) = self.begun.elapsed(self.rt) else {
            return false;
        };
        let tenths = u64::from(passed.subsec_millis() / 100);
        let tenth = passed.as_secs().saturating_mul(10).saturating_add(tenths);
        self.told.fetch_max(tenth, Ordering::SeqCst) < tenth
    }
}

impl<R: Clock + Eprint> Gate for Progress<'_, R> {
    fn enter(&self, _worker: usize, call: u32) -> bool {
        if call == 1 {
            self.all.fetch_add(self.messages, Ordering::SeqCst);
        }
        true
    }

    fn answered(&self, _worker: usize, _call: u32) {
        self.accepted.fetch_add(1, Ordering::SeqCst);
    }

    fn polled(&self, frames: usize) {
        self.frames.fetch_add(frames as u64, Ordering::SeqCst);
        if self.is_due() {
            let all = self.all.load(Ordering::SeqCst);
            let accepted = self.accepted.load(Ordering::SeqCst);
            let frames = self.frames.load(Ordering::SeqCst);
            let _told = eprint!(self.rt; "\raccepted {accepted} of {all}, frames {frames}");
        }
    }
}
