//! A writer that stops calling its inner writer after a failure.
ghost use Rattle.std.specs.Prelude.{◌≡◌, length, false, ◌||◌, true, IsErr};
ghost use Rattle.bench_words.specs.Halting.{flush_fails, write_fails, HaltingView};
ghost use Rattle.std.specs.Io.{WritesAtMost};
ghost use Rattle.std.specs.Io.KnownBytes.{Keeps, WriteAppends};

use std::io::{self, ErrorKind, Write};
use std::marker::Model;

/// A writer around another one. After a write or a flush of the inner writer fails, every call fails and does not call
/// the inner writer. An interruption is not a failure; a write that accepts none of its bytes is. Contracts see the
/// inner writer and whether it has failed.
#[derive(Drop)]
pub struct Halting<W: Write + Drop> {
    writer: W,
    failed: bool,
}

impl<W: Write + Drop> Model for Halting<W> {
    ghost Value = { HaltingView W };

    ghost view = { λ h. record { writer = h.writer; failed = h.failed } };
}

impl<W: Write + Drop> Halting<W> {
    /// Wraps a writer that has not failed.
    pub fn new(writer: W) -> Halting<W>
        ensures { result ≡ record { writer = writer; failed = false } }
    {
        Halting {
            writer,
            failed: false,
        }
    }
}

impl<W: Write + Drop> Write for Halting<W> {
    ghost contents = { λ h. W.contents h.writer };

    /// Writes to the inner writer, if that hasn't failed.
    fn write(&mut self, buf: &[u8]) -> io::Result<usize>
        ensures bound { WritesAtMost result buf.now }
        ensures bytes { WriteAppends (W.contents self.old.writer) (W.contents self.new.writer) result buf.now }
        ensures halted { self.old.failed ≡ true → IsErr result × (self.new ≡ self.old) }
        ensures failed { self.new.failed ≡ (self.old.failed || write_fails (length buf.now) result) }
    {
        if self.failed {
            return Err(failed_before());
        }
        let written = self.writer.write(buf);
        self.failed = write_failed(buf.len(), &written);
        written
    }

    /// Flushes the inner writer, if that hasn't failed.
    fn flush(&mut self) -> io::Result<()>
        ensures bytes { Keeps (W.contents self.old.writer) (W.contents self.new.writer) }
        ensures halted { self.old.failed ≡ true → IsErr result × (self.new ≡ self.old) }
        ensures failed { self.new.failed ≡ (self.old.failed || flush_fails result) }
    {
        if self.failed {
            return Err(failed_before());
        }
        let flushed = self.writer.flush();
        self.failed = flush_failed(&flushed);
        flushed
    }
}

/// Returns the error of a call after the inner writer has failed.
fn failed_before() -> io::Error {
    io::Error::new(ErrorKind::Other, "a write failed before")
}

/// Returns true if a flush failed.
fn flush_failed(flushed: &io::Result<()>) -> bool
    ensures { result ≡ flush_fails flushed.now }
{
    match flushed {
        Ok(()) => false,
        Err(error) => !matches!(error.kind(), ErrorKind::Interrupted),
    }
}

/// Returns true if a write of `size` bytes failed.
fn write_failed(size: usize, written: &io::Result<usize>) -> bool
    ensures { result ≡ write_fails size written.now }
{
    match written {
        Ok(taken) => *taken == 0 && size > 0,
        Err(error) => !matches!(error.kind(), ErrorKind::Interrupted),
    }
}
