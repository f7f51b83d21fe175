//! The words of a line, numbers in decimal digits, and the message of a `send` line.
ghost use Rattle.std.specs.Prelude.{◌≡◌, ◌<◌, ◌≤◌, ℕ, [], ◌∷◌, not, length, slice_index, MatchOption, ◌+◌, ◌-◌, ◌*◌, ◌^◌, IfSome, List};
ghost use Rattle.script_text.specs.Command.{is_blank as is_blank_byte, words_of, number_of, is_numeral as is_numeral_text};
ghost use Rattle.std.specs.Char.{is_ascii_digit};
ghost use Rattle.std.specs.List.{list_all};

use std::marker::Model;

fn is_blank(byte: u8) -> bool
    ensures { result ≡ is_blank_byte byte }
{
    byte == b' ' || byte == b'\t'
}

// Returns the index of the first blank, or of the first byte that isn't a blank if `blank` is false; the length if
// there is none.
fn first_at(line: &[u8], blank: bool) -> usize
    ensures within { result ≤ length line.now }
    ensures before { (k : ℕ) → k < result → is_blank_byte (slice_index line.now k) ≡ not blank }
    ensures found { result < length line.now → is_blank_byte (slice_index line.now result) ≡ blank }
{
    for (place, byte) in line.iter().enumerate() {
        if is_blank(*byte) == blank {
            return place;
        }
    }
    line.len()
}

/// Returns the first word of a line and the rest after it, if there is a word.
#[tactic(auto, using(crate::proofs::WordLemmas::next_none))]
pub fn next_word(line: &[u8]) -> Option<(&[u8], &[u8])>
    ensures { MatchOption result (words_of line.now ≡ []) (λ p. words_of line.now ≡ p.0.now ∷ words_of p.1.now) }
{
    let (_blanks, text) = line.split_at(first_at(line, false));
    if text.is_empty() {
        return None;
    }
    Some(text.split_at(first_at(text, true)))
}

/// Parses a word of decimal digits alone; `None` if it is another word, or its number is over `most`.
#[tactic(auto, using(crate::proofs::WordLemmas::number_rules), unfolding(crate::specs::Command::number_of))]
pub fn number(word: &[u8], most: u64) -> Option<u64>
    ensures value { result ≡ number_of most word.now }
    ensures most { IfSome result (λ n. n ≤ most) }
{
    if !is_numeral(word) {
        return None;
    }
    let mut value = 0u64;
    for digit in word {
        match with_digit(value, *digit) {
            Some(next) => value = next,
            None => return None,
        }
    }
    if value <= most { Some(value) } else { None }
}

// Returns true if a word is one digit or more.
fn is_numeral(word: &[u8]) -> bool
    ensures { result ≡ is_numeral_text word.now }
{
    !word.is_empty() && has_digits_alone(word)
}

fn has_digits_alone(word: &[u8]) -> bool
    ensures { result ≡ list_all is_ascii_digit word.now }
{
    word.iter().all(|byte| byte.is_ascii_digit())
}

// Returns the number with one more digit at its end, if it fits.
fn with_digit(value: u64, digit: u8) -> Option<u64>
    ensures { let next = value * 10 + (digit - 48) in MatchOption result (2 ^ 64 ≤ next) (λ sum. sum ≡ next) }
{
    let tens = value.checked_mul(10)?;
    tens.checked_add(u64::from(digit.saturating_sub(b'0')))
}

/// The bytes of a message. Contracts see them as a list.
#[derive(Debug, Drop)]
pub struct Message {
    bytes: Vec<u8>,
}

impl Model for Message {
    ghost Value = { List ℕ };

    ghost view = { λ m. m.bytes.items };
}

impl Message {
    pub fn new(bytes: Vec<u8>) -> Message
        ensures { result ≡ bytes.items }
    {
        Message { bytes }
    }

    pub fn as_slice(&self) -> &[u8]
        ensures { result.now ≡ self.now }
    {
        &self.bytes
    }
}
