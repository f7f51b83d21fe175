//! A network that keeps its frames, and iterating over them.
ghost use Rattle.std.specs.Prelude.{◌≡◌, ◌+◌, ◌^◌, ◌<◌, ◌≤◌, [], ◌∷◌, ◌++◌, true, false, length, OnOk, OnErr, vec_capacity, List, map};
ghost use Rattle.redundant_mux.specs.Lines.{IsAnswer, entry, Entry};
ghost use Rattle.redundant_mux.specs.Memory.{AreInLog, spelled, TakesFrame, first_moment, FrameLog, LacksRoom};
ghost use Rattle.std.specs.Iterator.{item_count};

use crate::network::{HandFault, Network};
use afdx_frame::GREATEST_FRAME;
use std::alloc::Global;
use std::marker::Model;

/// The time of a frame in microseconds, and its length in bytes.
#[derive(Clone, Copy, Debug, PartialEq, Eq)]
pub struct Mark {
    pub at: u64,
    pub len: usize,
}

/// A network that keeps its frames, the bytes of all in one buffer. Contracts see the frames, the numbers of frames and
/// of bytes that fit into its memory, and its failures.
#[derive(Drop)]
pub struct FrameLog {
    marks: Vec<Mark>,
    bytes: Vec<u8>,
    failures: u64,
}

impl Model for FrameLog {
    ghost Value = { FrameLog };

    ghost view = { λ l. record {
      handed = spelled l.marks.items l.bytes.items;
      frames_capacity = vec_capacity l.marks;
      bytes_capacity = vec_capacity l.bytes;
      failures = l.failures;
    } };

    ghost invariant = { λ l. AreInLog l.marks.items l.bytes.items };
}

impl FrameLog {
    /// Creates a log without frames. A `hand` fails only if an allocation fails.
    pub fn new(alloc: Global) -> FrameLog
        ensures { result ≡ record {
          handed = [];
          frames_capacity = 0;
          bytes_capacity = 0;
          failures = 0;
        } }
    {
        FrameLog {
            marks: Vec::new(alloc),
            bytes: Vec::new(alloc),
            failures: 0,
        }
    }

    /// Returns the frames, in the order in which they were sent.
    pub fn frames(&self) -> LogFrames<'_>
        ensures { result ≡ self.now.handed }
    {
        LogFrames::new(&self.marks, &self.bytes)
    }
}

impl Network for FrameLog {
    ghost handed = { λ l. l.handed };

    ghost failures = { λ l. l.failures };

    /// Appends the frame and its time. It fails only if an allocation fails: then the frames are unchanged,
    /// the failure is counted, and the next hand may succeed.
    fn hand(&mut self, at: u64, frame: &[u8]) -> Result<(), HandFault>
        requires short { length frame.now ≤ GREATEST_FRAME }
        requires few { self.old.failures + 1 < 2 ^ 64 }
        ensures answer { IsAnswer result (entry at frame.now)
            self.old.handed self.new.handed self.old.failures self.new.failures }
        ensures only { OnErr result (LacksRoom self.old (length frame.now)) }
        ensures frames_capacity { self.old.frames_capacity ≤ self.new.frames_capacity }
        ensures bytes_capacity { self.old.bytes_capacity ≤ self.new.bytes_capacity }
    {
        if !keep(&mut self.marks, &mut self.bytes, at, frame) {
            self.failures += 1;
            return Err(HandFault);
        }
        Ok(())
    }
}

// Appends a frame. Returns whether memory sufficed.
#[tactic(auto, using(crate::proofs::LogLemmas::spelled_more))]
fn keep(marks: &mut Vec<Mark>, bytes: &mut Vec<u8>, at: u64, frame: &[u8]) -> bool
    requires short { length frame.now ≤ GREATEST_FRAME }
    requires before { AreInLog marks.old.items bytes.old.items }
    ensures kept { result ≡ true → spelled marks.new.items bytes.new.items
        ≡ spelled marks.old.items bytes.old.items ++ entry at frame.now ∷ [] }
    ensures same { result ≡ false → spelled marks.new.items bytes.new.items ≡ spelled marks.old.items bytes.old.items }
    ensures full { result ≡ false → length marks.old.items < vec_capacity marks.old →
        vec_capacity bytes.old < length bytes.old.items + length frame.now }
    ensures marks_capacity { vec_capacity marks.old ≤ vec_capacity marks.new }
    ensures bytes_capacity { vec_capacity bytes.old ≤ vec_capacity bytes.new }
    ensures after { AreInLog marks.new.items bytes.new.items }
{
    let end = bytes.len();
    if bytes.extend_from_slice(frame).is_err() {
        return false;
    }
    let len = frame.len();
    if marks.push(Mark { at, len }).is_err() {
        bytes.truncate(end);
        return false;
    }
    true
}

/// The frames of a log that are left, in the order in which they were sent. Each has its time in
/// microseconds, and its bytes from the destination MAC address to the sequence number. Contracts see the
/// frames that are left.
#[derive(Drop)]
pub struct LogFrames<'a> {
    marks: &'a [Mark],
    bytes: &'a [u8],
}

impl<'a> Model for LogFrames<'a> {
    ghost Value = { List Entry };

    ghost view = { λ f. spelled f.marks.now f.bytes.now };

    ghost invariant = { λ f. AreInLog f.marks.now f.bytes.now };
}

impl<'a> LogFrames<'a> {
    pub(crate) fn new(marks: &'a [Mark], bytes: &'a [u8]) -> LogFrames<'a>
        requires { AreInLog marks.now bytes.now }
        ensures { result ≡ spelled marks.now bytes.now }
    {
        LogFrames { marks, bytes }
    }

    /// Returns the time of the next frame, in microseconds; `None` if none is left.
    pub fn next_moment(&self) -> Option<u64>
        ensures { result ≡ first_moment self.now }
    {
        let mark = self.marks.first()?;
        Some(mark.at)
    }
}

impl<'a> Iterator for LogFrames<'a> {
    type Item = (u64, &'a [u8]);

    ghost next_gives = { TakesFrame };

    ghost remaining = { item_count (λ frames. frames) };

    fn next(&mut self) -> Option<(u64, &'a [u8])> {
        let (mark, marks) = self.marks.split_first()?;
        let (frame, bytes) = self.bytes.split_at(mark.len);
        self.marks = marks;
        self.bytes = bytes;
        Some((mark.at, frame))
    }
}
