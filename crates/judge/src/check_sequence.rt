//! The frame check sequence of Ethernet (IEEE 802.3).
ghost use Rattle.std.specs.Prelude.{◌≡◌};
ghost use Rattle.judge.specs.CheckSequence.{divided, with_byte, check_sequence};

// The polynomial, with its highest power in the lowest bit.
const POLYNOMIAL: u32 = 0xedb8_8320;

/// Divides once: one step of the check sequence.
fn divided(remainder: u32) -> u32
    ensures { result ≡ divided remainder }
{
    if remainder % 2 == 1 {
        (remainder / 2) ^ POLYNOMIAL
    } else {
        remainder / 2
    }
}

/// Returns the remainder with one more byte.
#[tactic(auto, unfolding(crate::specs::CheckSequence::with_byte))]
fn with_byte(remainder: u32, byte: u8) -> u32
    ensures { result ≡ with_byte remainder byte }
{
    let half = divided(divided(divided(divided(remainder ^ byte as u32))));
    divided(divided(divided(divided(half))))
}

/// Returns the check sequence of these bytes.
#[tactic(auto, unfolding(crate::specs::CheckSequence::check_sequence))]
pub fn check_sequence(bytes: &[u8]) -> u32
    ensures { result ≡ check_sequence bytes.now }
{
    let mut remainder = 0xffff_ffffu32;
    for byte in bytes {
        remainder = with_byte(remainder, *byte);
    }
    remainder ^ 0xffff_ffff
}
