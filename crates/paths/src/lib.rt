// What both trees note on their way, and what they do along it. Nothing here knows of boxes: a way is a list of nodes that was noted when it was gone.
#![tactic(auto)]

ghost use Rattle.std.specs.Prelude.{◌≡◌, [], ◌∷◌, ℕ};
ghost use Rattle.words.specs.Words.{words};
ghost use Rattle.model.specs.Trees.{Point};
ghost use Rattle.pool.specs.Held.{held, SameSlices};
ghost use Rattle.trees.proofs.Deletes.{Along};
ghost use Rattle.trees.proofs.Walks.{Notes};
ghost use Rattle.trees.proofs.Ways.{counted_all};

use groups::merge;
use lists::cut;
use pool::{Pool, count, count_down, count_up, group};

// Notes x as number n, if there is room for it: how many are then noted.
pub fn note<T: Copy>(found: &mut [T], n: usize, x: T) -> usize
    ensures { Notes (x ∷ []) found.old n found.new result }
{
    if n < found.len() {
        found[n] = x;
        return n + 1;
    }
    n
}

// Counts one point more in each node of a path.
pub fn count_along(nodes: &mut [u8], path: &[usize])
    ensures { words nodes.new ≡ counted_all (words nodes.old) path.now }
{
    for i in path {
        count_up(nodes, *i);
    }
}

// Takes place p out of the list of the node `end`, where b stands before it, or 0, and counts one point less in each node of the path, which leads
// there: delete and try_merge of the Rust.
pub fn delete_along(
    pool: &mut Pool<'_>,
    path: &[usize],
    end: usize,
    order: &[u8],
    capacity: u32,
    p: u32,
    b: u32,
)
    ensures tree { (at : ℕ → Point) (q : Point) → Along pool.old.ways capacity order.now at q path.now (held pool.old) (held pool.new) end p b }
    ensures same { SameSlices pool.old pool.new }
{
    let Some((i, rest)) = path.split_first() else {
        cut(pool, end, p, b);
        return;
    };
    let nodes = &mut *pool.nodes;
    let k = group(nodes, *i);
    let v = count(nodes, *i);
    count_down(nodes, *i);
    delete_along(pool, rest, end, order, capacity, p, b);
    let most = u64::from(capacity) + 1;
    if most < u64::from(v) {
        return;
    }
    merge(pool, *i, k, order);
}
