// Groups of nodes as a whole: whether enough are free, the split of a node and the merge of its children.
// What is written and what it means is defined in `pool`, whose functions these put together. Total as those are; a walk
// over a list has no more steps than there are links.
#![tactic(auto)]

ghost use Rattle.std.specs.Prelude.{◌≡◌, ◌<◌, length, get_or};
ghost use Rattle.words.specs.Words.{words};
ghost use Rattle.pool.specs.Held.{held, SameSlices};
ghost use Rattle.pool.specs.Writes.{enough, cleared, cleared_from, turn_at, dealing, parted, hooked, either, laid, merged};
ghost use Rattle.pool.specs.Meanings.{Tells, Splits, Merges};

use free::{give_group, take_group};
use lists::append;
use pool::{Pool, Word, child, first, group, last, next, set_field};
use words::{get, put};

// Whether at least `need` groups are free.
pub fn has_groups(nodes: &[u8], ways: u8, need: u8) -> bool
    ensures value { result ≡ enough ways (words nodes.now) need (get_or (words nodes.now) 0 0) }
    ensures tree { Tells ways (words nodes.now) need result }
{
    let mut k = get(nodes, 0);
    for _ in 0..need {
        if k == 0 {
            return false;
        }
        k = group(nodes, child(ways, k, 0));
    }
    true
}

// Makes node i undivided and empty.
#[tactic(auto, unfolding(pool::specs::Writes::cleared))]
pub fn clear_node(nodes: &mut [u8], i: usize)
    ensures { words nodes.new ≡ cleared (words nodes.old) i }
{
    set_field(nodes, i, Word::Group as u8, 0);
    set_field(nodes, i, Word::First as u8, 0);
    set_field(nodes, i, Word::Last as u8, 0);
    set_field(nodes, i, Word::Count as u8, 0);
}

// Makes some nodes from i on empty.
fn clear_nodes(nodes: &mut [u8], i: usize, some: u8)
    requires { i < 1099511627776 }
    ensures { words nodes.new ≡ cleared_from some (words nodes.old) i }
{
    for j in i..i + usize::from(some) {
        clear_node(nodes, j);
    }
}

// The j-th turn.
#[tactic(auto, unfolding(pool::specs::Writes::turn_at))]
fn turn(turns: &[u8], j: usize, ways: u8) -> u8
    ensures { result ≡ turn_at ways turns.now j }
{
    match turns.get(j) {
        Some(t) if *t < ways => *t,
        _ => 0,
    }
}

// Puts each place of the list from `head` on at the end of the list of the child of group k that its turn says.
fn deal(pool: &mut Pool<'_>, k: u32, head: u32, turns: &[u8])
    ensures links_after { held pool.new ≡ dealing pool.old.ways k turns.now (length (words pool.old.links.now)) 0 (held pool.old) head }
    ensures same { SameSlices pool.old pool.new }
{
    let ways = pool.ways;
    let mut q = head;
    for j in 0..pool.links.len() / 4 {
        if q == 0 {
            return;
        }
        let links = &mut *pool.links;
        let after = next(links, q);
        let c = turn(turns, j, ways);
        append(pool, child(ways, k, c), q);
        q = after;
    }
}

// Divides node i: it gets the first free group, and its places are dealt out by their turns. Returns the group, or 0 where none is free.
pub fn split(pool: &mut Pool<'_>, i: usize, turns: &[u8]) -> u32
    ensures value { (result ≡ get_or (words pool.old.nodes.now) 0 0) × (held pool.new ≡ parted pool.old.ways turns.now (held pool.old) i) }
    ensures tree { Splits pool.old.ways turns.now (held pool.old) (held pool.new) i result }
    ensures same { SameSlices pool.old pool.new }
{
    let ways = pool.ways;
    let nodes = &mut *pool.nodes;
    if get(nodes, 0) == 0 {
        return 0;
    }
    let head = first(nodes, i);
    let k = take_group(nodes, ways);
    clear_nodes(nodes, child(ways, k, 0), ways);
    set_field(nodes, i, Word::Group as u8, k);
    deal(pool, k, head, turns);
    k
}

// The first of two that is not 0.
#[tactic(auto, unfolding(pool::specs::Writes::either))]
fn pick(a: u32, b: u32) -> u32
    ensures { result ≡ either a b }
{
    if a == 0 { b } else { a }
}

// Links the last place of one list to the first of another.
#[tactic(auto, unfolding(pool::specs::Writes::hooked))]
fn hook(links: &mut [u8], b: u32, f: u32)
    ensures { words links.new ≡ hooked (words links.old) b f }
{
    if b != 0 && f != 0 {
        put(links, b as usize, f);
    }
}

// Makes node i undivided, with the list from a to b.
#[tactic(auto, unfolding(pool::specs::Writes::laid))]
fn lay(nodes: &mut [u8], i: usize, a: u32, b: u32)
    ensures { words nodes.new ≡ laid (words nodes.old) i a b }
{
    set_field(nodes, i, Word::Group as u8, 0);
    set_field(nodes, i, Word::First as u8, a);
    set_field(nodes, i, Word::Last as u8, b);
}

// Makes node i undivided: it gets the lists of the children of its group k, joined in the order of their numbers that is given, and the group is free.
pub fn merge(pool: &mut Pool<'_>, i: usize, k: u32, order: &[u8])
    ensures links_after { held pool.new ≡ merged pool.old.ways order.now (held pool.old) i k }
    ensures tree { Merges pool.old.ways order.now (held pool.old) (held pool.new) i k }
    ensures same { SameSlices pool.old pool.new }
{
    let ways = pool.ways;
    let nodes = &mut *pool.nodes;
    let links = &mut *pool.links;
    let mut a: u32 = 0;
    let mut b: u32 = 0;
    for c in order {
        let q = child(ways, k, *c);
        let f = first(nodes, q);
        let t = last(nodes, q);
        hook(links, b, f);
        a = pick(a, f);
        b = pick(t, b);
    }
    lay(nodes, i, a, b);
    give_group(nodes, ways, k);
}
