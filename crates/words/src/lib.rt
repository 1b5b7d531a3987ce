// Numbers in lent bytes, low byte first. A place outside the slice reads as 0 and is not written, so every function is total.
#![tactic(auto)]

ghost use Rattle.std.specs.Prelude.{◌≡◌, ◌+◌, ◌<◌, ◌≤◌, length, get_or, set};
ghost use Rattle.std.proofs.lemmas.List.Edits.{sets};
ghost use Rattle.std.specs.Float.{binary64};
ghost use Rattle.std.specs.Float.Ieee.{of_bits, to_bits};
ghost use Rattle.words.specs.Words.{words, pairs, set_pair};

use floats::{from_bits, to_bits};

// Sets the bytes from k on, which are there.
fn store<const N: usize>(t: &mut [u8], k: usize, bytes: [u8; N])
    requires { k + N ≤ length t.old }
    ensures { t.new ≡ sets t.old k bytes.entry }
{
    t[k..k + N].copy_from_slice(&bytes);
}

// Sets the bytes from k on, if all of them are there.
pub fn put_bytes<const N: usize>(t: &mut [u8], k: usize, bytes: [u8; N])
    ensures inside { k + N ≤ length t.old → t.new ≡ sets t.old k bytes.entry }
    ensures outside { length t.old < k + N → t.new ≡ t.old }
{
    if N <= t.len() && k <= t.len() - N {
        store(t, k, bytes);
    }
}

// Word i.
pub fn get(t: &[u8], i: usize) -> u32
    ensures { result ≡ get_or (words t.now) i 0 }
{
    let (whole, _rest) = t.as_chunks::<4>();
    whole.get(i).map_or(0, |bytes| u32::from_le_bytes(*bytes))
}

// Sets word i.
pub fn put(t: &mut [u8], i: usize, v: u32)
    ensures { words t.new ≡ set (words t.old) i v }
{
    if i < t.len() / 4 {
        store(t, 4 * i, v.to_le_bytes());
    }
}

// The float in the words 2i and 2i + 1.
pub fn get_float(t: &[u8], i: usize) -> f64
    ensures { result ≡ of_bits binary64 (get_or (pairs (words t.now)) i 0) }
{
    let (whole, _rest) = t.as_chunks::<8>();
    from_bits(whole.get(i).map_or(0, |bytes| u64::from_le_bytes(*bytes)))
}

// Sets the words 2i and 2i + 1 to a float.
pub fn put_float(t: &mut [u8], i: usize, x: f64)
    ensures { words t.new ≡ set_pair (words t.old) i (to_bits binary64 x) }
{
    if i < t.len() / 8 {
        store(t, 8 * i, to_bits(x).to_le_bytes());
    }
}
