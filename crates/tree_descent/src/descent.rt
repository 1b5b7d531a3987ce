// The way down to the undivided node that a point goes to, and the search of its list.
ghost use Rattle.std.specs.Prelude.{◌≡◌, length};
ghost use Rattle.words.specs.Words.{words};
ghost use Rattle.trees.specs.Points.{point_at};
ghost use Rattle.model.specs.Boxes.{route};
ghost use Rattle.model.specs.Calls.{ways};
ghost use Rattle.model.specs.Trees.{same};
ghost use Rattle.pool.specs.Read.{chain};
ghost use Rattle.trees.proofs.Descents.{reach, together, Needs};
ghost use Rattle.trees.proofs.Finds.{seek};
ghost use Rattle.trees.proofs.Walks.{Notes};
ghost use Rattle.trees.proofs.Ways.{way};
ghost use Rattle.tree_descent.specs.Spots.{Spots};

use geometry::region::{Place, Region};
use paths::note;
use pieces::{Pieces, payload};
use pool::{count, first, group};
use tree::kind::Tree;
use tree::lists::list;
use tree::place::{Node, child_index, kid, point_at};

// An undivided node, and how many nodes were noted on the way to it.
#[derive(Clone, Copy)]
pub struct Leaf<R> {
    pub node: Node<R, u8>,
    pub depth: usize,
}

// The undivided node that a point goes to; the nodes on the way are noted. A point inside the boundary is inside every box on its way, so no box is asked.
pub fn leaf_of<R: Tree>(
    nodes: &[u8],
    from: Node<R, u8>,
    point: R::Point,
    path: &mut [usize],
) -> Leaf<R>
    ensures node { record { node = result.node.index; box = R.sides result.node.bounds; levels = result.node.levels } ≡ reach (ways R.kind) (words nodes.now) (R.Point.place point) from.levels (R.sides from.bounds) from.index }
    ensures notes { Notes (way (ways R.kind) (words nodes.now) (R.Point.place point) from.levels (R.sides from.bounds) from.index) path.old 0 path.new result.depth }
{
    let Node {
        mut index,
        mut bounds,
        levels,
    } = from;
    let mut depth = 0;
    for step in 0..levels {
        let k = group(nodes, index);
        if k == 0 {
            let node = Node {
                index,
                bounds,
                levels: levels - step,
            };
            return Leaf { node, depth };
        }
        depth = note(path, depth, index);
        let c = child_index(bounds, point);
        index = kid::<R>(k, c);
        bounds = bounds.child(c as usize);
    }
    let node = Node {
        index,
        bounds,
        levels: 0,
    };
    Leaf { node, depth }
}

// Where a point stands in its list: its place, and the place before it or 0.
#[derive(Clone, Copy)]
pub struct Spot {
    pub place: u32,
    pub before: u32,
}

// The payload is asked first: it is one word, and most points differ in it.
fn same_at<R: Tree>(points: &[u8], p: u32, point: R::Point, mark: u32) -> bool
    ensures { result ≡ same (record { at = R.Point.place point; payload = mark }) (point_at R.kind.axes (words points.now) p) }
{
    if payload(R::axes(), points, p) != mark {
        return false;
    }
    point.same(point_at::<R>(points, p))
}

// The first place of a list whose point is equal, or else the last place of the list, or 0.
pub fn find_in<R: Tree>(
    tree: &Pieces<'_>,
    head: u32,
    point: R::Point,
    mark: u32,
) -> Result<Spot, u32>
    ensures { Spots result (seek (λ p. same (record { at = R.Point.place point; payload = mark }) (point_at R.kind.axes (words tree.now.points.now) p)) (chain (length (words tree.now.links.now)) (words tree.now.links.now) head) 0) }
{
    let mut before: u32 = 0;
    for place in list(tree.links, head) {
        if same_at::<R>(tree.points, place, point, mark) {
            return Ok(Spot { place, before });
        }
        before = place;
    }
    Err(before)
}

// Whether all points of a list go to child c.
fn all_go<R: Tree>(tree: &Pieces<'_>, head: u32, bounds: R, c: u8) -> bool
    ensures { result ≡ together (λ p. route (R.sides bounds) (point_at R.kind.axes (words tree.now.points.now) p).at) c (length (words tree.now.links.now)) (words tree.now.links.now) head }
{
    for p in list(tree.links, head) {
        if child_index(bounds, point_at::<R>(tree.points, p)) != c {
            return false;
        }
    }
    true
}

// How many groups an undivided node takes when a point comes that goes to it.
pub fn need<R: Tree>(tree: &Pieces<'_>, node: Node<R, u8>, capacity: u32, point: R::Point) -> u8
    ensures { Needs capacity (point_at R.kind.axes (words tree.now.points.now)) (R.Point.place point) (words tree.now.nodes.now) (words tree.now.links.now) node.index node.levels (R.sides node.bounds) result }
{
    let Node {
        index,
        mut bounds,
        levels,
    } = node;
    if count(tree.nodes, index) < capacity {
        return 0;
    }
    let head = first(tree.nodes, index);
    for more in 0..levels {
        let c = child_index(bounds, point);
        if !all_go(tree, head, bounds, c) {
            return more + 1;
        }
        bounds = bounds.child(c as usize);
    }
    levels
}
