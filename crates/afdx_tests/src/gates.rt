//! A gate that holds the threads of a storm.
use std::sync::atomic::{AtomicU64, Ordering};
use std::thread;
use storm::Gate;

// The greatest number of loads of a count by a waiting thread.
const LOOKS: u64 = 100_000_000;

/// A count that threads share.
#[derive(Drop)]
pub struct Count(AtomicU64);

impl Count {
    fn new() -> Count {
        Count(AtomicU64::new(0))
    }

    pub fn get(&self) -> u64 {
        self.0.load(Ordering::SeqCst)
    }

    // Adds to the count. Returns its value before.
    fn add(&self, more: u64) -> u64 {
        self.0.fetch_add(more, Ordering::SeqCst)
    }

    // Waits until the count is `least` or more, for at most `LOOKS` loads. Returns true if it is.
    fn reaches(&self, least: u64) -> bool {
        for _look in 0..LOOKS {
            if self.get() >= least {
                return true;
            }
            // (the threads that are still to count have the processor meanwhile)
            thread::yield_now();
        }
        false
    }
}

/// The condition that a gate waits for.
#[derive(Clone, Copy, PartialEq, Eq)]
pub enum Until {
    /// The first call of each worker waits until this many workers have entered.
    Entered(u64),
    /// The first call of each worker waits until the main thread has polled this often.
    Polled(u64),
    /// The first call of each worker waits until the watcher has read each of two links this often. The watcher
    /// waits after each reading until the main thread has polled.
    Read(u64),
    /// The main thread waits after a poll until a message was accepted, and a worker before its call of
    /// this number until a frame was released. So at least one frame isn't left for the drain.
    Released(u32),
    /// One worker is refused at one call.
    Never { worker: usize, call: u32 },
    /// Before and after each call of the only worker, it waits for some polls, after which exactly the frames
    /// of the messages that were accepted before are released.
    Followed,
}

/// A gate that counts its calls, and holds the workers until a condition is met.
#[derive(Drop)]
pub struct Holding {
    until: Until,
    entered: Count,
    frames: Count,
    pub accepted: Count,
    pub polls: Count,
    /// The watcher's readings of the first link, and of the others.
    pub first: Count,
    pub others: Count,
    /// The times that a followed worker came before or after a call.
    pub followed: Count,
    /// The times that a followed worker came too early or too late, or the watcher waited for a poll in vain.
    pub wrong: Count,
}

impl Holding {
    pub fn until(until: Until) -> Holding {
        Holding {
            until,
            entered: Count::new(),
            frames: Count::new(),
            accepted: Count::new(),
            polls: Count::new(),
            first: Count::new(),
            others: Count::new(),
            followed: Count::new(),
            wrong: Count::new(),
        }
    }

    // Follows the worker's call after `before` others, when `accepted` messages were accepted.
    fn follow(&self, before: u64, accepted: u64) {
        let calls = self.followed.add(1);
        // Of these polls the second at the latest began after the call.
        let is_polled = self.polls.reaches(self.polls.get().saturating_add(3));
        if !is_polled || calls != before || self.frames.get() != accepted {
            self.wrong.add(1);
        }
    }
}

impl Gate for Holding {
    fn enter(&self, worker: usize, call: u32) -> bool {
        let is_first = call == 1;
        if is_first {
            self.entered.add(1);
        }
        match self.until {
            Until::Entered(workers) => !is_first || self.entered.reaches(workers),
            Until::Polled(least) => !is_first || self.polls.reaches(least),
            Until::Read(least) => {
                !is_first || (self.first.reaches(least) && self.others.reaches(least))
            }
            Until::Released(at) => call != at || self.frames.reaches(1),
            Until::Never {
                worker: one,
                call: at,
            } => worker != one || call != at,
            Until::Followed => {
                let before = u64::from(call).saturating_sub(1);
                self.follow(2 * before, before);
                true
            }
        }
    }

    fn answered(&self, _worker: usize, call: u32) {
        self.accepted.add(1);
        if let Until::Followed = self.until {
            let accepted = u64::from(call);
            self.follow((2 * accepted).saturating_sub(1), accepted);
        }
    }

    fn polled(&self, frames: usize) {
        self.frames.add(frames as u64);
        self.polls.add(1);
        if let Until::Released(_call) = self.until {
            let _is_sent = self.accepted.reaches(1);
        }
    }

    fn watched(&self, link: usize) {
        let readings = if link == 0 { &self.first } else { &self.others };
        readings.add(1);
        if let Until::Read(_least) = self.until {
            // (a watcher that was once left without a poll doesn't wait again)
            if self.wrong.get() == 0 && !self.polls.reaches(1) {
                self.wrong.add(1);
            }
        }
    }
}
