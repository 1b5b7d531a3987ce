// Free places and free groups of nodes, each a list from which the first is taken and to whose front one is given back.
#![tactic(auto)]

ghost use Rattle.std.specs.Prelude.{◌≡◌, get_or};
ghost use Rattle.words.specs.Words.{words};
ghost use Rattle.pool.specs.Writes.{popped, pushed, taken, given};
ghost use Rattle.pool.specs.Meanings.{TakesPlace, GivesPlace, TakesGroup, GivesGroup};

use pool::{Word, child, group, next, set_field};
use words::{get, put};

// Takes the first free place: 0 where there is none. Word 0 of the links is then 0, and is its own next.
pub fn take_place(links: &mut [u8]) -> u32
    ensures value { (result ≡ get_or (words links.old) 0 0) × (words links.new ≡ popped (words links.old)) }
    ensures tree { TakesPlace (words links.old) (words links.new) result }
{
    let p = next(links, 0);
    let q = next(links, p);
    put(links, 0, q);
    p
}

// Gives place p back.
pub fn give_place(links: &mut [u8], p: u32)
    ensures links_after { words links.new ≡ pushed (words links.old) p }
    ensures tree { GivesPlace (words links.old) (words links.new) p }
{
    let q = next(links, 0);
    put(links, p as usize, q);
    put(links, 0, p);
}

// Kept: the one slice that is read or written with `ways` beside it, here and for `has_groups`, and not a `Pool`: who only reads has shared slices, and a contract over one slice is shorter.
// Takes the first free group: 0 where there is none. The header is node 0, so that group 0 is then its own next.
pub fn take_group(nodes: &mut [u8], ways: u8) -> u32
    ensures value { (result ≡ get_or (words nodes.old) 0 0) × (words nodes.new ≡ taken ways (words nodes.old)) }
    ensures tree { TakesGroup ways (words nodes.old) (words nodes.new) result }
{
    let k = get(nodes, 0);
    let j = child(ways, k, 0);
    let v = group(nodes, j);
    put(nodes, 0, v);
    k
}

// Gives group k back.
pub fn give_group(nodes: &mut [u8], ways: u8, k: u32)
    ensures nodes_after { words nodes.new ≡ given ways (words nodes.old) k }
    ensures tree { GivesGroup ways (words nodes.old) (words nodes.new) k }
{
    let h = get(nodes, 0);
    let j = child(ways, k, 0);
    set_field(nodes, j, Word::Group as u8, h);
    put(nodes, 0, k);
}
