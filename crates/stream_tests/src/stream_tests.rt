//! Readers that fail at each byte and writers that fail at each call, of `run_script` and `check`.
use afdx_plan::demo_config;
use bench_words::{Failure, Halting, check};
use script_text::RunFault;
use std::alloc::Global;
use std::fmt::Debug;
use std::io::{self, BufWriter, ErrorKind, Read, Write};
use std::process::Abort;
use tx_script::{Summary, run_script};

/// The runtime of a test, which asserts and allocates.
trait Host: Abort + AllocGlobal {}

impl<R: Abort + AllocGlobal> Host for R {}

/// The text of the demonstration plan.
const DEMO: &str = "version = 2
[end_system]
id = 1
[[vl]]
id = 1
bag_ms = 1
lmax = 1518
sub_vls = 1
capacity = 2
[[port]]
id = 10
vl = 1
sub = 0
partition = 1
kind = 'queuing'
source = 1000
destination = 2000
max = 8192
";

/// Asserts that two values are the same.
fn assert_same<V: PartialEq + Debug + Copy>(rt: &impl Abort, told: V, wanted: V) {
    assert_eq!(rt; told, wanted);
}

/// A reader that gives at most `most` bytes a call, and `failure` once between two parts of its text.
#[derive(Drop)]
struct Failing<'a> {
    before: &'a [u8],
    failure: Option<ErrorKind>,
    after: &'a [u8],
    most: usize,
}

// Returns a reader of a text that fails once after `bytes` bytes of it, if there is a failure.
fn reader_of(text: &[u8], bytes: usize, failure: Option<ErrorKind>, most: usize) -> Failing<'_> {
    let (before, after) = text.split_at_checked(bytes).unwrap_or((text, &[]));
    Failing {
        before,
        failure,
        after,
        most,
    }
}

impl Read for Failing<'_> {
    fn read(&mut self, buf: &mut [u8]) -> io::Result<usize> {
        if self.before.is_empty() {
            if let Some(kind) = self.failure.take() {
                return Err(io::Error::from(kind));
            }
            (self.before, self.after) = (self.after, &[]);
        }
        let len = buf.len().min(self.most);
        self.before.read(&mut buf[..len])
    }
}

/// A writer that accepts each write but number `number`, counted from 1, which returns `failure`, or 0 if that is none.
/// It counts writes and flushes.
#[derive(Drop)]
struct Lapsing {
    number: usize,
    failure: Option<ErrorKind>,
    writes: usize,
    flushes: usize,
    text: Vec<u8>,
}

impl Lapsing {
    fn new(rt: &impl Host, number: usize, failure: Option<ErrorKind>) -> Lapsing {
        Lapsing {
            number,
            failure,
            writes: 0,
            flushes: 0,
            text: Vec::new(rt.alloc()),
        }
    }
}

impl Write for Lapsing {
    fn write(&mut self, buf: &[u8]) -> io::Result<usize> {
        self.writes = self.writes.saturating_add(1);
        if self.writes == self.number {
            return match self.failure {
                Some(kind) => Err(io::Error::from(kind)),
                None => Ok(0),
            };
        }
        self.text.extend_from_slice(buf)?;
        Ok(buf.len())
    }

    fn flush(&mut self) -> io::Result<()> {
        self.flushes = self.flushes.saturating_add(1);
        Ok(())
    }
}

/// The result of a run.
type Ran = Result<Summary, RunFault>;

/// A script over the demonstration plan, and its summary; the number of its bytes after which each of its notes is to
/// come, and the frame that it sends at the last time.
type Script = (
    &'static str,
    Summary,
    &'static [(usize, &'static str)],
    usize,
);

static SCRIPTS: [Script; 2] = [
    // two messages, the first alone released, and an earlier time
    (
        "send 10 01\nsend 10 02\nat 18446744073709551615\nat 18446744073709551615\nat 5\n",
        Summary {
            accepted: 2,
            refused: 1,
            frames: 1,
        },
        &[(75, "line 5: refused TimeBack\n")],
        46,
    ),
    // notes before the frame, and after it
    (
        "\nsend 99 01\nsend 10 01\nat 18446744073709551615\nclose 1 0\nat 0\n# end",
        Summary {
            accepted: 1,
            refused: 2,
            frames: 1,
        },
        &[
            (12, "line 2: refused NoPort\n"),
            (57, "line 5: closed 1\n"),
            (62, "line 6: refused TimeBack\n"),
        ],
        47,
    ),
];

const FRAMES: &str = "\
    A 18446744073709551615 03000000000102000000012008004500001d000000000111cdee0a000101e0e0000103e807d\
    000090000010000000000000000000000000000000000\n\
    B 18446744073709551615 03000000000102000000014008004500001d000000000111cdee0a000101e0e0000103e807d\
    000090000010000000000000000000000000000000000\n";

// Runs a script over the demonstration plan.
fn run(rt: &impl Host, script: impl Read + Drop, text: &mut impl Write) -> Ran {
    let config = demo_config(rt.alloc()).expect(rt, "memory");
    run_script(rt.alloc(), config, script, text)
}

// Asserts that a text begins with another. Returns the rest.
fn rest_after<'a>(rt: &impl Abort, text: &'a [u8], front: &str) -> &'a [u8] {
    let (told, rest) = text.split_at_checked(front.len()).unwrap_or((text, &[]));
    assert_same(rt, told, front.as_bytes());
    rest
}

// Asserts the result of a script that is read up to `bytes` bytes, and the notes and the frames of its lines.
fn assert_read(rt: &impl Host, script: &Script, reader: Failing<'_>, wanted: Ran, bytes: usize) {
    let &(_, _, notes, sent) = script;
    let mut text = Vec::new(rt.alloc());
    let told = run(rt, reader, &mut text);
    assert_same(rt, (told, bytes), (wanted, bytes));
    let mut rest = text.as_slice();
    for &(at, note) in notes {
        rest = rest_after(rt, rest, if at <= bytes { note } else { "" });
    }
    rest = rest_after(rt, rest, if sent <= bytes { FRAMES } else { "" });
    assert_same(rt, rest.len(), 0);
    drop(text);
}

// A reader that fails ends the run there, though it would go on. One that doesn't fail may give few bytes a call.
#[test]
fn a_reader_that_fails_at_any_byte_ends_the_run_there(rt: HostRuntime) {
    let kinds = [
        ErrorKind::Other,
        ErrorKind::Interrupted,
        ErrorKind::WouldBlock,
        ErrorKind::UnexpectedEof,
    ];
    for script in &SCRIPTS {
        let all = script.0.as_bytes();
        for &kind in &kinds {
            for bytes in 0..=all.len() {
                let reader = reader_of(all, bytes, Some(kind), usize::MAX);
                assert_read(&rt, script, reader, Err(RunFault::Read), bytes);
            }
        }
        for most in 1..=all.len() {
            let reader = reader_of(all, all.len(), None, most);
            assert_read(&rt, script, reader, Ok(script.1), all.len());
        }
    }
}

// Asserts that a writer which fails in this way after `before` writes of a script's run, which would write `whole`,
// ends it, and is not called again.
fn assert_ended(
    rt: &impl Host,
    script: &str,
    before: usize,
    failure: Option<ErrorKind>,
    whole: &[u8],
) {
    let number = before.saturating_add(1);
    let mut writer = Lapsing::new(rt, number, failure);
    let told = run(rt, script.as_bytes(), &mut writer);
    let begins = whole.starts_with(writer.text.as_slice());
    assert_same(
        rt,
        (told, writer.writes, begins),
        (Err(RunFault::Write), number, true),
    );
}

#[test]
fn a_writer_that_fails_at_any_write_ends_the_run(rt: HostRuntime) {
    for script in &SCRIPTS {
        let mut whole = Lapsing::new(&rt, 0, None);
        let told = run(&rt, script.0.as_bytes(), &mut whole);
        assert_same(&rt, (told, whole.writes > 2), (Ok(script.1), true));
        for before in 0..whole.writes {
            for &failure in &[Some(ErrorKind::Other), None] {
                assert_ended(&rt, script.0, before, failure, whole.text.as_slice());
            }
        }
    }
}

/// The result of `check`.
type Checked = Result<(), Failure>;

const UNREAD: Checked = Err(Failure::Run(RunFault::Read));

const UNWRITTEN: Checked = Err(Failure::Run(RunFault::Write));

// The text that `check` writes for the demonstration plan.
const REPORT: &str = "end system 1
link 1: bag 1 ms, lmax 1518, sub-VLs 1, capacity 2
port 10: link 1 sub 0, partition 1, queuing, 1000 to 2000, max 8192, multicast
jitter 163040 ns, limit 500000
";

// The errors of a reader, with the result and the text of `check` after each.
const READS: [(ErrorKind, Checked, &str); 3] = [
    (ErrorKind::InvalidData, UNREAD, ""),
    (
        ErrorKind::OutOfMemory,
        Err(Failure::Run(RunFault::Memory)),
        "",
    ),
    (ErrorKind::Interrupted, Ok(()), REPORT),
];

// Asserts the result of `check`, and the text that it writes.
fn assert_check(rt: &impl Host, text: impl Read + Drop, wanted: Checked, lines: &str) {
    let mut report = Vec::new(rt.alloc());
    let told = check(rt.alloc(), text, &mut report);
    assert_same(rt, (told, report.as_slice()), (wanted, lines.as_bytes()));
}

#[test]
fn a_text_is_read_whole_or_not_at_all(rt: HostRuntime) {
    for &(kind, wanted, report) in &READS {
        let reader = reader_of(DEMO.as_bytes(), DEMO.len(), Some(kind), 3);
        assert_check(&rt, reader, wanted, report);
    }
    assert_check(&rt, io::repeat(b'\n'), UNREAD, "");
}

// Calls `check`, which writes its report through a buffer, as the program does, and flushes it.
fn report(rt: &impl Host, lapsing: &mut Lapsing) -> Checked {
    let writer = BufWriter::with_capacity(rt.alloc(), 24, Halting::new(lapsing));
    let mut writer = writer.ok().expect(rt, "memory");
    let told = check(rt.alloc(), DEMO.as_bytes(), &mut writer);
    match writer.flush() {
        Ok(()) => told,
        Err(_) => UNWRITTEN,
    }
}

// An interruption is no failure.
#[test]
fn nothing_is_written_after_a_failure(rt: HostRuntime) {
    for &failure in &[
        Some(ErrorKind::StorageFull),
        Some(ErrorKind::BrokenPipe),
        Some(ErrorKind::Interrupted),
        None,
    ] {
        for number in 1..6 {
            let mut lapsing = Lapsing::new(&rt, number, failure);
            let told = report(&rt, &mut lapsing);
            if failure == Some(ErrorKind::Interrupted) {
                let ended = (told, lapsing.text.as_slice(), lapsing.flushes);
                assert_same(&rt, ended, (Ok(()), REPORT.as_bytes(), 1));
            } else {
                let ended = (told, lapsing.writes, lapsing.flushes);
                assert_same(&rt, ended, (UNWRITTEN, number, 0));
            }
        }
    }
}
