//! The CRC-32 of IEEE 802.3.
ghost use Rattle.std.specs.Prelude.{◌≡◌};
ghost use Rattle.plan_table.specs.Sum.{crc_32, shifted, shifted_8};

// The generator polynomial, its coefficient of x^31 in the lowest bit.
const POLYNOMIAL: u32 = 0xedb8_8320;

/// Returns a remainder times x.
fn shifted(remainder: u32) -> u32
    ensures { result ≡ shifted remainder }
{
    if remainder % 2 == 1 {
        remainder / 2 ^ POLYNOMIAL
    } else {
        remainder / 2
    }
}

/// Returns a remainder after eight bits more.
#[tactic(auto, unfolding(crate::specs::Sum::shifted_8))]
fn shifted_8(remainder: u32) -> u32
    ensures { result ≡ shifted_8 remainder }
{
    let four = shifted(shifted(shifted(shifted(remainder))));
    shifted(shifted(shifted(shifted(four))))
}

/// Returns the check of bytes.
pub fn crc_32(bytes: &[u8]) -> u32
    ensures { result ≡ crc_32 bytes.now }
{
    let mut remainder = u32::MAX;
    for byte in bytes {
        remainder = shifted_8(remainder ^ u32::from(*byte));
    }
    remainder ^ u32::MAX
}
