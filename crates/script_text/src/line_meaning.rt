//! Reading a line.
ghost use Rattle.std.specs.Prelude.{◌≡◌, ◌≢◌, ◌⊎◌, None, Some, IfOk, IfErr};
ghost use Rattle.script_text.specs.Command.{message_of, words_of};
ghost use Rattle.script_text.specs.Faults.{IsFirstFault, IsFaultless, send_fault, at_fault, close_fault};
ghost use Rattle.script_text.specs.Meaning.{meaning_of, IsSaidSend, IsSaidAt, IsSaidClose};

use crate::faults::LineFault;
use crate::line_text::LINE_LIMIT;
use crate::words::{Message, next_word, number};
use std::alloc::Global;

/// The meaning of a line: a port sends a message, one poll at a time in microseconds, the close of a sub-VL of a
/// virtual link, or nothing, as for a blank line and a comment.
#[derive(Debug, Drop)]
pub enum Line {
    Send { port: u16, bytes: Message },
    At(u64),
    Close { vl: u16, sub: u8 },
    Nothing,
}

/// Parses a line, given without its end. The error is its first fault in the order `Long`, `Word`, `Number`, `Hex`,
/// `Extra`; `Memory` may be returned in place of any answer.
#[tactic(auto, unfolding(crate::specs::Command::is_send, crate::specs::Command::is_at, crate::specs::Command::is_close))]
pub fn read_line(alloc: Global, line: &[u8]) -> Result<Line, LineFault>
    ensures ok { IfOk result (λ said. said ≡ meaning_of line.now) }
    ensures faultless { IfOk result (λ _. IsFaultless line.now) }
    ensures fault { IfErr result (λ fault. fault ≢ LineFault.Memory → IsFirstFault line.now fault) }
{
    if line.len() > LINE_LIMIT {
        return Err(LineFault::Long);
    }
    let Some((word, rest)) = next_word(line) else {
        return Ok(Line::Nothing);
    };
    if word.first() == Some(&b'#') {
        return Ok(Line::Nothing);
    }
    if word == b"send".as_slice() {
        return read_send(alloc, rest);
    }
    if word == b"at".as_slice() {
        return read_at(rest);
    }
    if word == b"close".as_slice() {
        read_close(rest)
    } else {
        Err(LineFault::Word)
    }
}

// Parses the words after `send`.
#[tactic(auto, using(crate::proofs::MeaningLemmas::send_rules))]
fn read_send(alloc: Global, rest: &[u8]) -> Result<Line, LineFault>
    ensures ok { IfOk result (IsSaidSend (words_of rest.now)) }
    ensures fault { IfErr result (λ fault. fault ≢ LineFault.Memory → send_fault (words_of rest.now) ≡ Some fault) }
{
    let Some((port, rest)) = next_word(rest) else {
        return Err(LineFault::Word);
    };
    let Some((digits, rest)) = next_word(rest) else {
        return Err(LineFault::Word);
    };
    let Some(port) = number(port, 65_535) else {
        return Err(LineFault::Number);
    };
    match message(alloc, digits) {
        Ok(bytes) => match next_word(rest) {
            None => Ok(Line::Send {
                port: port as u16,
                bytes,
            }),
            Some(_) => Err(LineFault::Extra),
        },
        Err(fault) => Err(fault),
    }
}

// Parses the message of a word.
#[tactic(auto, unfolding(crate::specs::Command::message_of))]
fn message(alloc: Global, word: &[u8]) -> Result<Message, LineFault>
    ensures ok { IfOk result (λ message. message_of word.now ≡ Some message) }
    ensures fault { IfErr result (λ fault.
        (fault ≡ LineFault.Memory) ⊎ ((fault ≡ LineFault.Hex) × (message_of word.now ≡ None))) }
{
    if word == b"-".as_slice() {
        return Ok(Message::new(Vec::new(alloc)));
    }
    match hex::decode(alloc, word) {
        Ok(bytes) => Ok(Message::new(bytes)),
        Err(hex::FromHexError::OutOfMemory) => Err(LineFault::Memory),
        Err(_) => Err(LineFault::Hex),
    }
}

// Parses the words after `at`.
#[tactic(auto, using(crate::proofs::MeaningLemmas::at_rules))]
fn read_at(rest: &[u8]) -> Result<Line, LineFault>
    ensures ok { IfOk result (IsSaidAt (words_of rest.now)) }
    ensures fault { IfErr result (λ fault. at_fault (words_of rest.now) ≡ Some fault) }
{
    let Some((moment, rest)) = next_word(rest) else {
        return Err(LineFault::Word);
    };
    let Some(moment) = number(moment, u64::MAX) else {
        return Err(LineFault::Number);
    };
    match next_word(rest) {
        None => Ok(Line::At(moment)),
        Some(_) => Err(LineFault::Extra),
    }
}

// Parses the words after `close`.
#[tactic(auto, using(crate::proofs::MeaningLemmas::close_rules))]
fn read_close(rest: &[u8]) -> Result<Line, LineFault>
    ensures ok { IfOk result (IsSaidClose (words_of rest.now)) }
    ensures fault { IfErr result (λ fault. close_fault (words_of rest.now) ≡ Some fault) }
{
    let Some((vl, rest)) = next_word(rest) else {
        return Err(LineFault::Word);
    };
    let Some((sub, rest)) = next_word(rest) else {
        return Err(LineFault::Word);
    };
    let Some(vl) = number(vl, 65_535) else {
        return Err(LineFault::Number);
    };
    let Some(sub) = number(sub, 255) else {
        return Err(LineFault::Number);
    };
    match next_word(rest) {
        None => Ok(Line::Close {
            vl: vl as u16,
            sub: sub as u8,
        }),
        Some(_) => Err(LineFault::Extra),
    }
}
