// Places and nodes of trees in two lent slices of words: lists of places, free places, free groups of nodes.
// `ways` is how many children a node has, so that both trees use the same functions. Nothing here knows of coordinates.
// Every function is total: a place or a node that is not there reads as 0 and is not written. 0 is no place and no group, and who appends it or gives it
// back loses what is free; what is then written is defined too (`Writes`).
// Kept: 0 for none, here and in the crates above, and not an `Option`: it is what stands in the lent words, and the definitions (`Chain`, `Free`, `appended`, `parted`, `either`) speak of it.
#![tactic(auto)]

ghost use Rattle.std.specs.Prelude.{◌≡◌, ◌+◌, ◌*◌, ◌<◌, get_or, min, set};
ghost use Rattle.words.specs.Words.{words};
ghost use Rattle.pool.specs.Held.{word_of};
ghost use Rattle.pool.specs.Writes.{kid, counted, lowered};

use words::{get, put};

// Both slices, and how many children a node has.
#[derive(Drop)]
pub struct Pool<'a> {
    pub ways: u8,
    pub nodes: &'a mut [u8],
    pub links: &'a mut [u8],
}

// The four words of a node, in their order.
#[derive(Clone, Copy)]
pub enum Word {
    Group,
    First,
    Last,
    Count,
}

// Which word of a node it is.
fn number(f: Word) -> u8
    ensures { result ≡ word_of f }
{
    f as u8
}

// The number of word f of node i, and of one that no slice has where the number would wrap.
fn place_of(i: usize, f: u8) -> usize
    ensures { result ≡ min (4 * i + f) 18446744073709551615 }
{
    i.saturating_mul(4).saturating_add(usize::from(f))
}

// Word f of node i.
fn field(nodes: &[u8], i: usize, f: Word) -> u32
    ensures { result ≡ get_or (words nodes.now) (4 * i + word_of f) 0 }
{
    get(nodes, place_of(i, number(f)))
}

// Sets the word f places from the first of node i: one of its own below 4, and of a later node from there on.
pub fn set_field(nodes: &mut [u8], i: usize, f: u8, v: u32)
    ensures { words nodes.new ≡ set (words nodes.old) (4 * i + f) v }
{
    put(nodes, place_of(i, f), v);
}

// The group of node i's children, or 0 where it is undivided.
pub fn group(nodes: &[u8], i: usize) -> u32
    ensures { result ≡ get_or (words nodes.now) (4 * i) 0 }
{
    field(nodes, i, Word::Group)
}

// The first place of node i's list, or 0.
pub fn first(nodes: &[u8], i: usize) -> u32
    ensures { result ≡ get_or (words nodes.now) (4 * i + 1) 0 }
{
    field(nodes, i, Word::First)
}

// The last place of node i's list, or 0.
pub fn last(nodes: &[u8], i: usize) -> u32
    ensures { result ≡ get_or (words nodes.now) (4 * i + 2) 0 }
{
    field(nodes, i, Word::Last)
}

// How many points are in node i and below.
pub fn count(nodes: &[u8], i: usize) -> u32
    ensures { result ≡ get_or (words nodes.now) (4 * i + 3) 0 }
{
    field(nodes, i, Word::Count)
}

// The place after p in its list, or 0.
pub fn next(links: &[u8], p: u32) -> u32
    ensures { result ≡ get_or (words links.now) p 0 }
{
    get(links, p as usize)
}

// The node of child c of group k.
pub fn child(ways: u8, k: u32, c: u8) -> usize
    ensures value { result ≡ kid ways k c }
    ensures near { result < 1099511627776 }
{
    usize::from(ways) * k as usize + usize::from(c)
}

// Counts one point more in node i.
#[tactic(auto, unfolding(crate::specs::Writes::counted))]
pub fn count_up(nodes: &mut [u8], i: usize)
    ensures { words nodes.new ≡ counted (words nodes.old) i }
{
    let v = count(nodes, i);
    set_field(nodes, i, Word::Count as u8, v.wrapping_add(1));
}

// Counts one point less in node i.
#[tactic(auto, unfolding(crate::specs::Writes::lowered))]
pub fn count_down(nodes: &mut [u8], i: usize)
    ensures { words nodes.new ≡ lowered (words nodes.old) i }
{
    let v = count(nodes, i);
    set_field(nodes, i, Word::Count as u8, v.saturating_sub(1));
}
