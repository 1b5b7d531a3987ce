// Insertion: insert of the Rust. What it needs is counted before anything is written.
ghost use Rattle.std.specs.Prelude.{◌≡◌, List};
ghost use Rattle.words.specs.Words.{words};
ghost use Rattle.model.specs.Boxes.{Side};
ghost use Rattle.model.specs.Calls.{Insert, ways};
ghost use Rattle.pieces.specs.Replies.{number_in};
ghost use Rattle.pool.specs.Writes.{pool};
ghost use Rattle.trees.specs.Pieces.{pieces, DoesHeld};
ghost use Rattle.trees.specs.Points.{point_at};
ghost use Rattle.trees.proofs.Changes.{Rooms, Stores};
ghost use Rattle.trees.proofs.Descents.{reach};
ghost use Rattle.trees.proofs.Ways.{way};

use free::take_place;
use geometry::region::{Place, Region};
use groups::has_groups;
use paths::count_along;
use pieces::{Pieces, Refusal};
use pool::count;
use tree::head::{boundary, capacity};
use tree::kind::Tree;
use tree::place::Node;
use tree_create::put::put_point;
use tree_descent::descent::{leaf_of, need};
use tree_descent::insert::insert_within;

// Whether enough groups are free for the splits that a point brings to the undivided node that it goes to.
fn has_room<R: Tree>(tree: &Pieces<'_>, node: Node<R, u8>, capacity: u32, at: R::Point) -> bool
    ensures { (b : List Side) → record { node = node.index; box = R.sides node.bounds; levels = node.levels } ≡ reach (ways R.kind) (words tree.now.nodes.now) (R.Point.place at) 32 b 1 → Rooms (ways R.kind) capacity (point_at R.kind.axes (words tree.now.points.now)) (R.Point.place at) (words tree.now.nodes.now) (words tree.now.links.now) 32 b 1 result }
{
    let k = need(tree, node, capacity, at);
    has_groups(tree.nodes, R::ways(), k)
}

// Puts a point in a free place and into the undivided node that it goes to, at the end of the path.
fn store<R: Tree>(
    nodes: &mut [u8],
    links: &mut [u8],
    points: &mut [u8],
    node: Node<R, u8>,
    path: &[usize],
    capacity: u32,
    at: R::Point,
    mark: u32,
)
    ensures { (b : List Side) → record { node = node.index; box = R.sides node.bounds; levels = node.levels } ≡ reach (ways R.kind) (words nodes.old) (R.Point.place at) 32 b 1 → path.now ≡ way (ways R.kind) (words nodes.old) (R.Point.place at) 32 b 1 → Stores R.kind.axes (ways R.kind) capacity 32 b 1 (record { at = R.Point.place at; payload = mark }) (pool nodes.old links.old) (pool nodes.new links.new) (words points.old) (words points.new) }
{
    let p = take_place(links);
    at.numbers();
    put_point::<R>(points, p, at, mark);
    count_along(nodes, path);
    insert_within(nodes, links, points, node, capacity, p);
}

// Kept: the four pieces one by one, as C lends them: which of them are written differs from call to call.
// Inserts a point: refused outside the boundary, where 512 points are held, and where there would be too many nodes.
pub fn insert<R: Tree>(
    head: &[u8],
    nodes: &mut [u8],
    links: &mut [u8],
    points: &mut [u8],
    at: R::Point,
    mark: u32,
) -> Result<(), Refusal>
    ensures { DoesHeld R.kind (Insert (record { at = R.Point.place at; payload = mark })) (pieces head.now nodes.old links.old points.old) (pieces head.now nodes.new links.new points.new) (number_in result) 0 }
{
    let bounds = boundary::<R>(head);
    if !bounds.contains(at) {
        return Err(Refusal::Outside);
    }
    let n = count(nodes, 1);
    if n >= 512 {
        return Err(Refusal::Full);
    }
    let most = capacity::<R>(head);
    let root = Node {
        index: 1,
        bounds,
        levels: 32,
    };
    let mut path: [usize; 32] = [0; 32];
    let leaf = leaf_of(nodes, root, at, &mut path);
    let node = leaf.node;
    let depth = leaf.depth;
    let lent = Pieces {
        head,
        nodes,
        links,
        points,
    };
    if !has_room(&lent, node, most, at) {
        return Err(Refusal::NoNodes);
    }
    at.numbers();
    store(nodes, links, points, node, &path[..depth], most, at, mark);
    Ok(())
}
