//! The calls that judge recordings.
ghost use Rattle.std.specs.Prelude.{◌≡◌, ◌≢◌, true, false, [], length};
ghost use Rattle.afdx_handle.specs.declared.answer.TheConstants.{MEMORY};
ghost use Rattle.afdx_handle.specs.Calls.{IsFaultNumber};
ghost use Rattle.afdx_handle.specs.Judged.{IsJudged, IsRefused, answer_of, lost_answer, lost_in};

use afdx_handle::{FindingRow, JudgeOptions, Judged, judge_into, lost_into};
use std::alloc::Global;

/// Judges a capture of both networks: writes as many findings as have room, their number, and the end of reading.
#[unsafe(no_mangle)]
pub extern "C" fn afdx_judge(
    alloc: Global,
    text: &[u8],
    options: &JudgeOptions,
    capture: &[u8],
    rows: &mut [FindingRow],
    judged: &mut Judged,
) -> u8
    ensures judged { ¬ IsRefused result →
        IsJudged text.now options.now false capture.now [] rows.old rows.new judged.new }
    ensures answers { ¬ IsRefused result → result ≡ answer_of judged.new (length rows.old) }
    ensures fault { IsRefused result → IsFaultNumber text.now result }
    ensures unwritten { IsRefused result → (rows.new ≡ rows.old) × (judged.new ≡ judged.old) }
{
    judge_into(alloc, text, options, false, capture, &[], rows, judged)
}

/// Writes how many packets the recorder of a capture lost, as it told.
#[unsafe(no_mangle)]
pub extern "C" fn afdx_capture_lost(alloc: Global, capture: &[u8], lost: &mut u64) -> u8
    ensures lost { result ≢ MEMORY → lost.new ≡ lost_in capture.now }
    ensures answers { result ≢ MEMORY → result ≡ lost_answer capture.now }
    ensures unwritten { result ≡ MEMORY → lost.new ≡ lost.old }
{
    lost_into(alloc, capture, lost)
}

/// Judges two captures, of network A and of network B, in the same way.
#[unsafe(no_mangle)]
pub extern "C" fn afdx_judge_pair(
    alloc: Global,
    text: &[u8],
    options: &JudgeOptions,
    a: &[u8],
    b: &[u8],
    rows: &mut [FindingRow],
    judged: &mut Judged,
) -> u8
    ensures judged { ¬ IsRefused result → IsJudged text.now options.now true a.now b.now rows.old rows.new judged.new }
    ensures answers { ¬ IsRefused result → result ≡ answer_of judged.new (length rows.old) }
    ensures fault { IsRefused result → IsFaultNumber text.now result }
    ensures unwritten { IsRefused result → (rows.new ≡ rows.old) × (judged.new ≡ judged.old) }
{
    judge_into(alloc, text, options, true, a, b, rows, judged)
}
