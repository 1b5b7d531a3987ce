// A pool with nothing in it: every place and every group is free, and the root is empty.
#![tactic(auto)]

ghost use Rattle.std.specs.Prelude.{◌≡◌, ◌-◌, ◌/◌, length, set};
ghost use Rattle.words.specs.Words.{words};
ghost use Rattle.pool.specs.Held.{held, SameSlices};
ghost use Rattle.pool.specs.Writes.{pushed_down, given_down, named, emptied};
ghost use Rattle.pool.specs.Meanings.{Empties};

use free::{give_group, give_place};
use groups::clear_node;
use pool::Pool;
use words::put;

// The number n, or the largest that 32 bits can name.
fn nameable(n: usize) -> u32
    ensures { result ≡ named n }
{
    u32::try_from(n).unwrap_or(u32::MAX)
}

// Kept: this loop and that of `free_groups`, each by itself: one loop for both would take what gives a number back as a closure, and need a word for it in its contract.
// Makes every place free, 1 first.
fn free_places(links: &mut [u8])
    ensures { words links.new ≡ pushed_down (named (length (words links.old)) - 1) (set (words links.old) 0 0) }
{
    put(links, 0, 0);
    for p in (1..nameable(links.len() / 4)).rev() {
        give_place(links, p);
    }
}

// How many groups a slice of so many nodes has room for, and one more for the nodes before the first group.
fn rows(n: usize, ways: u8) -> u32
    ensures { result ≡ named (n / ways) }
{
    n.checked_div(usize::from(ways)).map_or(0, nameable)
}

// Makes every group free, 1 first.
fn free_groups(nodes: &mut [u8], ways: u8)
    ensures { words nodes.new ≡ given_down ways (named (length (words nodes.old) / 4 / ways) - 1) (set (words nodes.old) 0 0) }
{
    put(nodes, 0, 0);
    for k in (1..rows(nodes.len() / 16, ways)).rev() {
        give_group(nodes, ways, k);
    }
}

// Makes node i an empty tree, with every group and every place free.
pub fn clear(pool: &mut Pool<'_>, i: usize)
    ensures links_after { held pool.new ≡ emptied pool.old.ways (held pool.old) i }
    ensures tree { Empties pool.old.ways (held pool.old) (held pool.new) i }
    ensures same { SameSlices pool.old pool.new }
{
    free_groups(pool.nodes, pool.ways);
    clear_node(pool.nodes, i);
    free_places(pool.links);
}
