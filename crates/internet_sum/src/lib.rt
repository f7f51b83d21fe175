//! Adds bytes up as 16-bit words, for the checksums of the internet.
#![tactic(auto)]

ghost use Rattle.std.specs.Prelude.{◌≡◌, ◌*◌, ◌%◌, ◌≤◌, length};
ghost use Rattle.internet_sum.specs.Words.{word_sum};

/// Returns the sum of the 16-bit words; an odd last byte is the high half of its word.
pub fn word_sum(bytes: &[u8]) -> u32
    requires { length bytes.now ≤ 65536 }
    ensures value { result ≡ word_sum bytes.now }
    ensures bound { result ≤ 65535 * length bytes.now }
{
    let mut sum = 0u32;
    let mut rest = bytes;
    while let [high, low, after @ ..] = rest {
        sum += 256 * *high as u32 + *low as u32;
        rest = after;
    }
    if let [high] = rest {
        sum += 256 * *high as u32;
    }
    sum
}

/// Returns the sum of the 16-bit words modulo 65,535. Adds eight bytes at a time as one number, by turns to two sums,
/// which the processor can add side by side: 65,536 leaves 1, so a number leaves the sum of its words, and a factor of
/// 256 exchanges the bytes of each. Not inlined, so that a caller that needs no sum doesn't pay for its loop.
#[inline(never)]
pub fn word_sum_modulo(bytes: &[u8]) -> u16
    requires { length bytes.now ≤ 65536 }
    ensures { result ≡ word_sum bytes.now % 65535 }
{
    let (mut even, mut odd) = (0u128, 0u128);
    let mut rest = bytes;
    while let [a, b, c, d, e, f, g, h, i, j, k, l, m, n, o, p, after @ ..] = rest {
        even += u64::from_le_bytes([*a, *b, *c, *d, *e, *f, *g, *h]) as u128;
        odd += u64::from_le_bytes([*i, *j, *k, *l, *m, *n, *o, *p]) as u128;
        rest = after;
    }
    ((256 * (even + odd) + word_sum(rest) as u128) % 0xffff) as u16
}
