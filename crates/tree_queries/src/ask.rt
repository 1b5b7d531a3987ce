// Whether a point is held: contains of the Rust.
ghost use Rattle.model.specs.Calls.{Contains};
ghost use Rattle.pieces.specs.Replies.{figure};
ghost use Rattle.pieces.specs.Views.{seen};
ghost use Rattle.trees.specs.Pieces.{AsksHeld};

use geometry::region::{Place, Region};
use pieces::Pieces;
use pool::first;
use tree::head::boundary;
use tree::kind::Tree;
use tree::place::Node;
use tree_descent::descent::{find_in, leaf_of};

// A point inside the boundary is sought in the one list that it goes to.
pub fn contains<R: Tree>(tree: &Pieces<'_>, at: R::Point, mark: u32) -> bool
    ensures { AsksHeld R.kind (Contains (record { at = R.Point.place at; payload = mark })) (seen tree.now) 0 (figure result) }
{
    let bounds = boundary::<R>(tree.head);
    if !bounds.contains(at) {
        return false;
    }
    at.numbers();
    let root = Node {
        index: 1,
        bounds,
        levels: 32,
    };
    // Nothing is done along the way, so that no path is kept.
    let leaf = leaf_of(tree.nodes, root, at, &mut []);
    let start = first(tree.nodes, leaf.node.index);
    match find_in::<R>(tree, start, at, mark) {
        Ok(_) => true,
        Err(_) => false,
    }
}
