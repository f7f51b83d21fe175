//! The findings of recordings, written for C.
ghost use Rattle.std.specs.Prelude.{◌≡◌, ◌≢◌, length, map, take};
ghost use Rattle.capture.specs.Recording.{recording_of};
ghost use Rattle.afdx_handle.specs.Calls.{IsFaultNumber};
ghost use Rattle.afdx_handle.specs.Judged.{IsJudged, Judges, IsRefused, answer_of, lost_answer, lost_in};
ghost use Rattle.afdx_handle.specs.Listing.{with_front};
ghost use Rattle.afdx_handle.specs.Rows.{rule_number, row_of, captured_of, options_of};

use crate::answer::{BAD_CAPTURE, DONE, MEMORY, SMALL_BUFFER};
use afdx_config::read_config;
use afdx_frame::Net;
use afdx_plan::Config;
use capture::{CaptureEnd, Recording, read_capture};
use judge::{Finding, FindingKind, Options, judge_packets};
use std::alloc::Global;

/// No link.
const NO_VL: u32 = 0x1_0000;

/// The tolerances of a judge, in microseconds, and the way the recording was made: flags, 0 for no.
#[repr(C)]
#[derive(Clone, Copy)]
pub struct JudgeOptions {
    pub jitter: u64,
    pub skew: u64,
    pub late: u8,
    pub fcs: u8,
    pub arinc: u8,
}

/// A finding: the number of its packet, its time in nanoseconds, or the greatest number if that is less, the numbers
/// seen and wanted, its link, its network, and the numbers of its kind and of the rule, from 1; 0 for a kind without
/// rules.
#[repr(C)]
#[derive(Clone, Copy)]
pub struct FindingRow {
    pub packet: u64,
    pub at: u64,
    pub seen: u64,
    pub wanted: u64,
    pub vl: u32,
    pub network: u8,
    pub kind: u8,
    pub rule: u8,
}

/// The end of reading a capture: the number of its packets; `end` is 0 if it is whole, 1 if it is cut off, or from 2 on
/// the number of its fault; and the byte at which the block or record begins that ends it, 0 if it is whole.
#[repr(C)]
#[derive(Clone, Copy)]
pub struct Captured {
    pub packets: u64,
    pub at: u64,
    pub end: u8,
}

impl JudgeOptions {
    /// Returns the options in the judge's own type.
    pub fn options(&self) -> Options
        ensures { result ≡ options_of self.now }
    {
        Options {
            jitter: self.jitter,
            skew: self.skew,
            late: self.late != 0,
            fcs: self.fcs != 0,
            arinc: self.arinc != 0,
        }
    }
}

/// Returns the number of a kind's rule.
fn rule_number(kind: FindingKind) -> u8
    ensures { result ≡ rule_number kind }
{
    match kind {
        FindingKind::Frame(rule) => rule as u8 + 1,
        FindingKind::Fragment(rule) => rule as u8 + 1,
        FindingKind::Message(rule) => rule as u8 + 1,
        _ => 0,
    }
}

/// Returns a finding in the layout of C.
fn row_of(finding: Finding) -> FindingRow
    ensures { result ≡ row_of finding }
{
    FindingRow {
        packet: finding.packet,
        at: finding.at.min(u64::MAX as u128) as u64,
        seen: finding.seen,
        wanted: finding.wanted,
        vl: match finding.link {
            Some(vl) => vl.0 as u32,
            None => NO_VL,
        },
        network: match finding.net {
            Net::A => 0,
            Net::B => 1,
        },
        kind: finding.kind.number(),
        rule: rule_number(finding.kind),
    }
}

/// Writes as many findings as have room.
pub fn write_rows(found: &[Finding], rows: &mut [FindingRow])
    ensures { rows.new ≡ with_front (take (length rows.old) (map row_of found.now)) rows.old }
{
    for k in 0..rows.len().min(found.len()) {
        rows[k] = row_of(found[k]);
    }
}

/// Returns the end of reading a capture, in the layout of C.
pub fn captured_of(read: &Recording<'_>) -> Captured
    ensures { result ≡ captured_of (recording_of read.now) }
{
    let (end, at) = match read.end {
        CaptureEnd::Whole => (0, 0),
        CaptureEnd::CutOff(at) => (1, at),
        CaptureEnd::Broken(at, fault) => (fault as u8 + 2, at),
    };
    let packets = read.packets.len() as u64;
    Captured { packets, at, end }
}

/// The number of findings, and the ends of reading the captures of the two networks; twice the same for one capture of
/// both.
#[repr(C)]
#[derive(Clone, Copy)]
pub struct Judged {
    pub findings: usize,
    pub a: Captured,
    pub b: Captured,
}

/// Returns the answer to a caller with room for a number of findings.
fn answer_of(judged: &Judged, room: usize) -> u8
    ensures { result ≡ answer_of judged.now room }
{
    if judged.a.end != 0 || judged.b.end != 0 {
        BAD_CAPTURE
    } else if judged.findings > room {
        SMALL_BUFFER
    } else {
        DONE
    }
}

/// Judges two captures that were read, each of one network alone, or twice one of both: writes as many findings as have
/// room, their number, and the ends of reading. On `MEMORY`, if an allocation fails, writes nothing.
fn judge_read<'a>(
    alloc: Global,
    plan: Config,
    options: &JudgeOptions,
    alone: bool,
    a: &Recording<'a>,
    b: &Recording<'a>,
    rows: &mut [FindingRow],
    judged: &mut Judged,
) -> u8
    ensures judged { result ≢ MEMORY → Judges plan options.now alone (recording_of a.now) (recording_of b.now)
        rows.old rows.new judged.new }
    ensures answers { result ≢ MEMORY → result ≡ answer_of judged.new (length rows.old) }
    ensures refused { IsRefused result → result ≡ MEMORY }
    ensures unwritten { result ≡ MEMORY → (rows.new ≡ rows.old) × (judged.new ≡ judged.old) }
{
    let (on_a, on_b) = (a.packets.as_slice(), b.packets.as_slice());
    let Ok(found) = judge_packets(alloc, plan, options.options(), alone, on_a, on_b) else {
        return MEMORY;
    };
    *judged = Judged {
        findings: found.len(),
        a: captured_of(a),
        b: captured_of(b),
    };
    write_rows(found.as_slice(), rows);
    answer_of(judged, rows.len())
}

/// Reads a capture, and writes how many packets its recorder lost, as it told up to the end of the reading. Returns
/// `BAD_CAPTURE` if the capture isn't read to its end, or `MEMORY` if an allocation fails; then writes nothing.
pub fn lost_into(alloc: Global, capture: &[u8], lost: &mut u64) -> u8
    ensures lost { result ≢ MEMORY → lost.new ≡ lost_in capture.now }
    ensures answers { result ≢ MEMORY → result ≡ lost_answer capture.now }
    ensures unwritten { result ≡ MEMORY → lost.new ≡ lost.old }
{
    let Ok(read) = read_capture(alloc, capture) else {
        return MEMORY;
    };
    *lost = read.lost;
    match read.end {
        CaptureEnd::Whole => DONE,
        CaptureEnd::CutOff(_) | CaptureEnd::Broken(_, _) => BAD_CAPTURE,
    }
}

/// Judges the captures `a` and `b`, each of one network alone, or only `a`, of both, by the text of a plan. Returns the
/// number of the text's least fault, or `MEMORY` if an allocation fails; then writes nothing.
pub fn judge_into(
    alloc: Global,
    text: &[u8],
    options: &JudgeOptions,
    alone: bool,
    a: &[u8],
    b: &[u8],
    rows: &mut [FindingRow],
    judged: &mut Judged,
) -> u8
    ensures judged { ¬ IsRefused result → IsJudged text.now options.now alone a.now b.now rows.old rows.new judged.new }
    ensures answers { ¬ IsRefused result → result ≡ answer_of judged.new (length rows.old) }
    ensures fault { IsRefused result → IsFaultNumber text.now result }
    ensures unwritten { IsRefused result → (rows.new ≡ rows.old) × (judged.new ≡ judged.old) }
{
    let plan = match read_config(alloc, text) {
        Ok(plan) => plan,
        Err(fault) => return fault.number(),
    };
    let Ok(a) = read_capture(alloc, a) else {
        return MEMORY;
    };
    if !alone {
        return judge_read(alloc, plan, options, false, &a, &a, rows, judged);
    }
    match read_capture(alloc, b) {
        Ok(b) => judge_read(alloc, plan, options, true, &a, &b, rows, judged),
        Err(_) => MEMORY,
    }
}
