//! Writing a transcript: the notes on its lines, and the frames of two networks.
ghost use Rattle.std.specs.Prelude.{◌≡◌, ◌≤◌, length, IfErr, OnOk, ◌+◌, ◌^◌, ◌<◌};
ghost use Rattle.std.specs.Io.KnownBytes.{Appends};
ghost use Rattle.redundant_mux.specs.Lines.{entry};
ghost use Rattle.script_text.specs.Transcript.{net_name as name_of_net, frame_line, frame_lines, streams, note_of};
ghost use Rattle.script_text.specs.Meaning.{counted, HasFew};

use crate::faults::{Refusal, RunFault};
use afdx_frame::{GREATEST_FRAME, Net};
use redundant_mux::FrameLog;
use std::io;
use std::io::Write;

// Two digits for each byte of a frame.
const DIGITS: usize = 2 * GREATEST_FRAME;

/// Writes the frames of network A, and then the frames of B.
pub fn write_streams<W: Write>(writer: &mut W, a: &FrameLog, b: &FrameLog) -> Result<(), RunFault>
    ensures ok { OnOk result (Appends (W.contents writer.old) (W.contents writer.new)
        (streams a.now.handed b.now.handed)) }
    ensures err { IfErr result (λ fault. fault ≡ RunFault.Write) }
{
    write_lines(writer, Net::A, a).map_err(|_| RunFault::Write)?;
    write_lines(writer, Net::B, b).map_err(|_| RunFault::Write)
}

// Writes a line for each frame of a network, under its name.
#[tactic(auto, using(crate::proofs::Written::written_none, crate::proofs::Written::written_all), unfolding(crate::specs::Transcript::frame_lines))]
fn write_lines<W: Write>(writer: &mut W, net: Net, log: &FrameLog) -> io::Result<()>
    ensures { OnOk result (Appends (W.contents writer.old) (W.contents writer.new) (frame_lines net log.now.handed)) }
{
    let mut digits = [0; DIGITS];
    for (at, frame) in log.frames() {
        write_frame(writer, net, at, frame, &mut digits)?;
    }
    Ok(())
}

// Writes the line of a frame, whose digits are made in a buffer.
fn write_frame<W: Write>(
    writer: &mut W,
    net: Net,
    at: u64,
    frame: &[u8],
    buffer: &mut [u8; DIGITS],
) -> io::Result<()>
    requires { length frame.now ≤ GREATEST_FRAME }
    ensures { OnOk result (Appends (W.contents writer.old) (W.contents writer.new)
        (frame_line net (entry at frame.now))) }
{
    let digits = &mut buffer[..2 * frame.len()];
    hex::encode_to_slice(frame, digits).unwrap();
    let name = net_name(net);
    write!(writer, "{name} {at} ")?;
    writer.write_all(digits)?;
    writer.write_all(b"\n")
}

fn net_name(net: Net) -> &'static str
    ensures { result.now ≡ name_of_net net }
{
    match net {
        Net::A => "A",
        Net::B => "B",
    }
}

/// Writes the note on a line, counted from 1: a line of text if it was refused or closed a sub-VL, and
/// nothing otherwise.
#[inline(always)]
pub fn write_note<W: Write>(writer: &mut W, line: u64, outcome: Outcome) -> Result<(), RunFault>
    ensures ok { OnOk result (Appends (W.contents writer.old) (W.contents writer.new) (note_of line outcome)) }
    ensures err { IfErr result (λ fault. fault ≡ RunFault.Write) }
{
    write_text(writer, line, outcome).map_err(|_| RunFault::Write)
}

#[tactic(auto, unfolding(crate::specs::Transcript::note_of))]
fn write_text<W: Write>(writer: &mut W, line: u64, outcome: Outcome) -> io::Result<()>
    ensures { OnOk result (Appends (W.contents writer.old) (W.contents writer.new) (note_of line outcome)) }
{
    match outcome {
        Outcome::Refused(refusal) => {
            let name = refusal.name();
            writeln!(writer, "line {line}: refused {name}")
        }
        Outcome::Closed(total) => writeln!(writer, "line {line}: closed {total}"),
        _ => Ok(()),
    }
}

/// The outcome of a line: nothing for a line that says nothing, an accepted message, a refusal, a poll
/// with the number of frames that it released, or the close of a sub-VL with the number of messages that
/// it accepted.
#[derive(Clone, Copy, Debug, PartialEq, Eq)]
pub enum Outcome {
    Quiet,
    Accepted,
    Refused(Refusal),
    Released(u64),
    Closed(u64),
}

/// The number of accepted messages, of lines that were refused at run time, and of released frames.
#[derive(Clone, Copy, Debug, PartialEq, Eq)]
pub struct Summary {
    pub accepted: u64,
    pub refused: u64,
    pub frames: u64,
}

impl Summary {
    /// Returns the counts after one more line.
    #[tactic(auto, unfolding(crate::specs::Meaning::counted))]
    pub fn count(self, outcome: Outcome) -> Summary
        requires accepted { self.accepted < 2 ^ 63 }
        requires refused { self.refused < 2 ^ 63 }
        requires frames { self.frames < 2 ^ 63 }
        requires few { HasFew outcome }
        ensures { result ≡ counted outcome self }
    {
        let mut sums = self;
        match outcome {
            Outcome::Quiet | Outcome::Closed(_) => {}
            Outcome::Accepted => sums.accepted += 1,
            Outcome::Refused(_) => sums.refused += 1,
            Outcome::Released(frames) => sums.frames += frames,
        }
        sums
    }
}
