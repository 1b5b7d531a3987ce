// The lists of places: a place is put at the end of a node's list, or taken out of it.
#![tactic(auto)]

ghost use Rattle.std.specs.Prelude.{◌≡◌};
ghost use Rattle.words.specs.Words.{words};
ghost use Rattle.pool.specs.Held.{held, SameSlices};
ghost use Rattle.pool.specs.Writes.{ended, appended, relasted, cut_out};
ghost use Rattle.pool.specs.Meanings.{Appends, Cuts};

use pool::{Pool, Word, count_down, count_up, last, next, set_field};
use words::put;

// Makes p the last place of node i, which has one point more.
#[tactic(auto, unfolding(pool::specs::Writes::ended))]
fn end_with(nodes: &mut [u8], i: usize, p: u32)
    ensures { words nodes.new ≡ ended (words nodes.old) i p }
{
    set_field(nodes, i, Word::Last as u8, p);
    count_up(nodes, i);
}

// Puts place p at the end of the list of node i. The last place is kept, so that no list is walked.
pub fn append(pool: &mut Pool<'_>, i: usize, p: u32)
    ensures links_after { held pool.new ≡ appended (held pool.old) i p }
    ensures tree { Appends (held pool.old) (held pool.new) i p }
    ensures same { SameSlices pool.old pool.new }
{
    let nodes = &mut *pool.nodes;
    let links = &mut *pool.links;
    let b = last(nodes, i);
    put(links, p as usize, 0);
    if b == 0 {
        set_field(nodes, i, Word::First as u8, p);
        end_with(nodes, i, p);
        return;
    }
    put(links, b as usize, p);
    end_with(nodes, i, p);
}

// Where nothing comes after the place that leaves, b is the last.
#[tactic(auto, unfolding(pool::specs::Writes::relasted))]
fn relast(nodes: &mut [u8], i: usize, after: u32, b: u32)
    ensures { words nodes.new ≡ relasted (words nodes.old) i after b }
{
    if after == 0 {
        set_field(nodes, i, Word::Last as u8, b);
    }
}

// Takes place p out of the list of node i, where b stands before it, or 0.
pub fn cut(pool: &mut Pool<'_>, i: usize, p: u32, b: u32)
    ensures links_after { held pool.new ≡ cut_out (held pool.old) i p b }
    ensures tree { Cuts (held pool.old) (held pool.new) i p b }
    ensures same { SameSlices pool.old pool.new }
{
    let nodes = &mut *pool.nodes;
    let links = &mut *pool.links;
    let after = next(links, p);
    count_down(nodes, i);
    relast(nodes, i, after, b);
    if b == 0 {
        set_field(nodes, i, Word::First as u8, after);
        return;
    }
    put(links, b as usize, after);
}
