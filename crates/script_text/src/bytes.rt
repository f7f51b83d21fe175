//! The bytes of a reader.
ghost use Rattle.std.specs.Prelude.{◌≡◌, ◌≤◌, ◌<◌, IfOk, OnOk, OnErr, None, option_to_list, slice_range, ℕ, List, Option};
ghost use Rattle.std.specs.Io.KnownBytes.{Consumes, IsAtEnd, Keeps, prepend_known};
ghost use Rattle.script_text.specs.Lines.{TakesPlain, before_feed};
ghost use Rattle.script_text.specs.declared.bytes.TheConstants.{BUFFER_SIZE};

use memchr::memchr;
use std::alloc::AllocError;
use std::io;
use std::io::Read;
use std::marker::Model;

const BUFFER_SIZE: usize = 4096;

/// The bytes of a reader, read 4,096 at a time. Contracts see the bytes that are left, if they are known.
#[derive(Drop)]
pub struct Bytes<R: Read + Drop> {
    reader: R,
    buffer: [u8; BUFFER_SIZE],
    start: usize,
    end: usize,
}

impl<R: Read + Drop> Model for Bytes<R> {
    ghost Value = { Option (List ℕ) };

    ghost view = { λ b. prepend_known (slice_range b.buffer b.start b.end) (R.remaining b.reader) };

    ghost invariant = { λ b. (b.start ≤ b.end) × (b.end ≤ BUFFER_SIZE) };
}

impl<R: Read + Drop> Bytes<R> {
    pub fn new(reader: R) -> Self
        ensures { result ≡ R.remaining reader }
    {
        Bytes {
            reader,
            buffer: [0; BUFFER_SIZE],
            start: 0,
            end: 0,
        }
    }

    /// Takes the next byte; `None` at the end. Each failure of the reader is returned, an interruption too,
    /// and loses no byte.
    pub fn next(&mut self) -> io::Result<Option<u8>>
        ensures taken { IfOk result (λ byte. Consumes self.old self.new (option_to_list byte)) }
        ensures ended { IfOk result (λ byte. byte ≡ None → IsAtEnd self.new) }
        ensures failed { OnErr result (Keeps self.old self.new) }
    {
        if self.start < self.end {
            let byte = self.buffer[self.start];
            self.start += 1;
            return Ok(Some(byte));
        }
        self.start = 0;
        self.end = 0;
        let count = self.reader.read(&mut self.buffer)?;
        if count == 0 {
            return Ok(None);
        }
        self.start = 1;
        self.end = count;
        Ok(Some(self.buffer[0]))
    }

    /// Appends to a line the buffered bytes before a line feed, and takes them.
    #[tactic(auto, using(crate::proofs::FeedLemmas::before_within, crate::proofs::FeedLemmas::before_takes))]
    pub fn take_plain(&mut self, line: &mut Vec<u8>) -> Result<(), AllocError>
        ensures { OnOk result (TakesPlain self.old self.new line.old.items line.new.items) }
    {
        let plain = until_feed(&self.buffer[self.start..self.end]);
        line.extend_from_slice(plain)?;
        self.start += plain.len();
        Ok(())
    }
}

// Returns the bytes of a text before its first line feed.
#[tactic(auto, using(crate::proofs::FeedLemmas::before_at))]
fn until_feed(text: &[u8]) -> &[u8]
    ensures { result.now ≡ before_feed text.now }
{
    match memchr(b'\n', text) {
        Some(place) => &text[..place],
        None => text,
    }
}
