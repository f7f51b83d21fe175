//! Hooks that may hold a worker back or end it, and that see the progress of a storm.

/// Hooks of the workers, of the main thread and of the watcher. Workers are counted from 0 in the order of
/// the plan's ports, and the messages of each from 1.
pub trait Gate {
    /// Lets a worker send its first message. May block; false ends the worker.
    fn enter(&self, worker: usize, call: u32) -> bool;

    /// Follows an accepted message of a worker.
    fn answered(&self, worker: usize, call: u32);

    /// Follows a poll of the main thread, which released this number of frames.
    fn polled(&self, _frames: usize) {}

    /// Follows a reading of the watcher, of the link at a place of the plan.
    fn watched(&self, _link: usize) {}
}

/// A gate that is always open.
#[derive(Clone, Copy, Debug, PartialEq, Eq)]
pub struct OpenGate;

impl Gate for OpenGate {
    fn enter(&self, _worker: usize, _call: u32) -> bool {
        true
    }

    fn answered(&self, _worker: usize, _call: u32) {}
}
