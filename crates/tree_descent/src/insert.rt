// Insertion: insert_within and subdivide of the Rust, by nodes with the level falling.
ghost use Rattle.std.specs.Prelude.{◌≡◌, ◌≤◌, length};
ghost use Rattle.words.specs.Words.{words};
ghost use Rattle.model.specs.Boxes.{route};
ghost use Rattle.model.specs.Calls.{ways};
ghost use Rattle.pool.specs.Meanings.{Appends, Splits};
ghost use Rattle.pool.specs.Writes.{pool};
ghost use Rattle.trees.specs.Points.{point_at};
ghost use Rattle.trees.proofs.Walks.{Notes};
ghost use Rattle.trees.proofs.Turns.{turned, Parts};
ghost use Rattle.trees.proofs.Inserts.{Fills};

use geometry::region::{Place, Region};
use groups::split;
use lists::append;
use paths::note;
use pool::{Pool, count, count_up, first};
use tree::kind::Tree;
use tree::lists::list;
use tree::place::{Node, child_index, kid, point_at};

// The child that each point of a list goes to, in the order of the list.
fn turns_of<R: Tree>(links: &[u8], points: &[u8], head: u32, bounds: R, turns: &mut [u8]) -> usize
    ensures { Notes (turned (λ q. route (R.sides bounds) (point_at R.kind.axes (words points.now) q).at) (length (words links.now)) (words links.now) head) turns.old 0 turns.new result }
{
    let mut m = 0;
    for p in list(links, head) {
        let c = child_index(bounds, point_at::<R>(points, p));
        m = note(turns, m, c);
    }
    m
}

// Divides node i of a tree of this kind by turns.
fn split_in<R: Tree>(nodes: &mut [u8], links: &mut [u8], i: usize, turns: &[u8]) -> u32
    ensures { Splits (ways R.kind) turns.now (pool nodes.old links.old) (pool nodes.new links.new) i result }
{
    let mut pool = Pool {
        ways: R::ways(),
        nodes,
        links,
    };
    split(&mut pool, i, turns)
}

// Divides node i: its points move down in list order.
fn subdivide<R: Tree>(nodes: &mut [u8], links: &mut [u8], points: &[u8], i: usize, bounds: R) -> u32
    ensures { length (words links.old) ≤ 513 → Parts (ways R.kind) (point_at R.kind.axes (words points.now)) (R.sides bounds) (pool nodes.old links.old) (pool nodes.new links.new) i result }
{
    let head = first(nodes, i);
    let mut turns: [u8; 513] = [0; 513];
    turns_of(links, points, head, bounds, &mut turns);
    split_in::<R>(nodes, links, i, &turns)
}

// Puts place p into the list of node i.
fn put_in<R: Tree>(nodes: &mut [u8], links: &mut [u8], i: usize, p: u32)
    ensures { Appends (pool nodes.old links.old) (pool nodes.new links.new) i p }
{
    let mut pool = Pool {
        ways: R::ways(),
        nodes,
        links,
    };
    append(&mut pool, i, p);
}

// Puts place p, which holds a point that lies in its box, into an undivided node.
pub fn insert_within<R: Tree>(
    nodes: &mut [u8],
    links: &mut [u8],
    points: &[u8],
    node: Node<R, u8>,
    capacity: u32,
    p: u32,
)
    ensures { length (words links.old) ≤ 513 → Fills (ways R.kind) capacity (point_at R.kind.axes (words points.now)) node.levels (R.sides node.bounds) (pool nodes.old links.old) (pool nodes.new links.new) node.index p }
{
    let Node {
        index,
        bounds,
        levels,
    } = node;
    // At the depth cap the node becomes a bucket: near-coincident points can never be separated by another split.
    if levels == 0 {
        put_in::<R>(nodes, links, index, p);
        return;
    }
    if count(nodes, index) < capacity {
        put_in::<R>(nodes, links, index, p);
        return;
    }
    let c = child_index(bounds, point_at::<R>(points, p));
    let k = subdivide(nodes, links, points, index, bounds);
    count_up(nodes, index);
    let child = Node {
        index: kid::<R>(k, c),
        bounds: bounds.child(c as usize),
        levels: levels - 1,
    };
    insert_within(nodes, links, points, child, capacity, p);
}
