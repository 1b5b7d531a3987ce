// The fields of a record: its word, and the numbers after it.
#![tactic(auto)]

ghost use Rattle.std.specs.Prelude.{◌≡◌, [], ℕ, ◌<◌, ◌≤◌, length, get_or, IfSome, IfNone};
ghost use Rattle.record.specs.Text.{split};
ghost use Rattle.record.specs.Numbers.{number_of};
ghost use Rattle.record.specs.Commands.{word_of, floats_after, whole_after, numbers_of};
ghost use Rattle.record.specs.Read.{rest, whole_among, Reads};

use record::Word;
use record::numbers::{number_of, whole_of};

// The index of the first byte c, if there is one.
// Not inlined: alone its loop takes five steps for a byte, and eight inside the loop over lines.
#[inline(never)]
pub fn find(s: &[u8], c: u8) -> Option<usize>
    ensures found { IfSome result (λ i. (i < length s.now) × (get_or s.now i 0 ≡ c)) }
    ensures first { IfSome result (λ i. (k : ℕ) → k < i → get_or s.now k 0 ≡ c → ⊥) }
    ensures nowhere { IfNone result ((k : ℕ) → k < length s.now → get_or s.now k 0 ≡ c → ⊥) }
{
    s.iter().position(|b| *b == c)
}

// The word that a first field is, if it is one; `made` is the one that makes a tree.
pub fn word_of(w: &[u8], made: &[u8]) -> Option<Word>
    ensures { result ≡ word_of made.now w.now }
{
    // Kept: in a `match` on the words the proof has more than forty ways to none of them.
    if w == b"insert".as_slice() {
        Some(Word::Insert)
    } else if w == b"delete".as_slice() {
        Some(Word::Delete)
    } else if w == b"contains".as_slice() {
        Some(Word::Contains)
    } else if w == b"range".as_slice() {
        Some(Word::Range)
    } else if w == b"knn".as_slice() {
        Some(Word::Knn)
    } else if w == b"box".as_slice() {
        Some(Word::Box)
    } else if w == b"len".as_slice() {
        Some(Word::Len)
    } else if w == b"clear".as_slice() {
        Some(Word::Clear)
    } else if w == made {
        Some(Word::Create)
    } else {
        None
    }
}

// How many floats stand after a word.
#[tactic(auto, unfolding(record::specs::Commands::floats_after))]
fn floats_after(word: Word, axes: u8) -> usize
    ensures { result ≡ floats_after axes word }
{
    let n = axes as usize;
    match word {
        Word::Create | Word::Box => 2 * n,
        Word::Insert | Word::Delete | Word::Contains | Word::Knn => n,
        Word::Range => n + 1,
        Word::Len | Word::Clear => 0,
    }
}

// Whether a whole number stands after the floats.
#[tactic(auto, unfolding(record::specs::Commands::whole_after))]
fn whole_after(word: Word) -> bool
    ensures { result ≡ whole_after word }
{
    match word {
        Word::Create | Word::Insert | Word::Delete | Word::Contains | Word::Knn => true,
        Word::Range | Word::Box | Word::Len | Word::Clear => false,
    }
}

// The float of the first field of t. A float has 16 bytes, so nothing looks for the comma.
fn first_float(t: &[u8]) -> Option<f64>
    ensures { result ≡ number_of (get_or (split 44 t.now) 0 []) }
{
    let (float, others) = t.split_at_checked(16)?;
    match others {
        [] => number_of(float),
        [c, ..] if *c != b',' => None,
        _ => number_of(float),
    }
}

// The whole number of what stands after the floats, where one is due, and 0 where nothing is. A comma is no digit, so nothing looks for another field.
fn last_whole(s: &[u8], due: bool) -> Option<u32>
    ensures { result ≡ whole_among (numbers_of 0 due (rest s.now)) }
{
    match s {
        [_, field @ ..] if due => whole_of(field),
        [] if !due => Some(0),
        _ => None,
    }
}

// Reads the numbers of a word: the floats to the front of `numbers`, up to the first field that is none, and the whole number or 0. What stands after the word
// is s: nothing, or a comma and the other fields. Where `numbers` is too short for the word's floats, nothing is read.
pub fn numbers_of(s: &[u8], word: Word, axes: u8, numbers: &mut [f64]) -> Option<u32>
    ensures { Reads (floats_after axes word) (whole_after word) (rest s.now) result numbers.old numbers.new }
{
    let count = floats_after(word, axes);
    if count > numbers.len() {
        return None;
    }
    let (floats, _) = numbers.split_at_mut(count);
    let mut left = s;
    for x in floats {
        let (_, fields) = left.split_first()?;
        *x = first_float(fields)?;
        left = &fields[16..];
    }
    last_whole(left, whole_after(word))
}
