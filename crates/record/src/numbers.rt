// One field as a number.
ghost use Rattle.std.specs.Prelude.{◌≡◌, ◌%◌};
ghost use Rattle.record.specs.Numbers as Numbers;
ghost use Rattle.record.specs.Numbers.{number_of, whole_of};

use floats::from_bits;

// What a byte is worth as an upper-case digit, and 16 where it is none. The tests are such that only bytes that are no digits go another way: digits and letters
// alternate at random.
// Kept: with 16 for none, as in the definition, one comparison with the base tells a byte that is no digit and a digit that is too large.
fn digit(b: u8) -> u64
    ensures { result ≡ Numbers.digit b }
{
    if (b < 48) | (b > 70) {
        return 16;
    }
    if (b > 57) & (b < 65) {
        return 16;
    }
    let letter = (b > 64) as u8;
    (b - 48 - 7 * letter) as u64
}

// The float of a field: 16 upper-case hex digits of its bits.
pub fn number_of(s: &[u8]) -> Option<f64>
    ensures { result ≡ number_of s.now }
{
    if s.len() != 16 {
        return None;
    }
    let mut n: u64 = 0;
    for b in s {
        let d = digit(*b);
        if d >= 16 {
            return None;
        }
        n = 16 * n + d;
    }
    Some(from_bits(n))
}

// Whether s is one byte, or more of which the first is not 0.
fn led(s: &[u8]) -> bool
    ensures { result ≡ Numbers.led s.now }
{
    match s {
        [] => false,
        [_] => true,
        [first, ..] => *first != b'0',
    }
}

// The whole number of a field: a decimal with no leading zero, at most 4294967295.
pub fn whole_of(s: &[u8]) -> Option<u32>
    ensures { result ≡ whole_of s.now }
{
    if !led(s) {
        return None;
    }
    let mut n: u64 = 0;
    for b in s {
        let d = digit(*b);
        if d >= 10 {
            return None;
        }
        n = 10 * n + d;
        if n > 4294967295 {
            return None;
        }
    }
    Some(n as u32)
}

// The character of the low hex digit of d.
pub fn glyph(d: u8) -> u8
    ensures { result ≡ Numbers.glyph (d % 16) }
{
    let low = d % 16;
    let letter = (low > 9) as u8;
    48 + low + 7 * letter
}
