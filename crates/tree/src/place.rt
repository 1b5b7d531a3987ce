// The points in their places, and the nodes of children.
ghost use Rattle.std.specs.Prelude.{◌≡◌, ◌<◌};
ghost use Rattle.words.specs.Words.{words};
ghost use Rattle.model.specs.Boxes.{route};
ghost use Rattle.model.specs.Calls.{ways};
ghost use Rattle.pool.specs.Writes.{kid};
ghost use Rattle.trees.specs.Points.{point_at};

use crate::kind::Tree;
use geometry::region::{Place, Region};
use pieces::base;
use pool::child;

// The point in place p.
pub fn point_at<R: Tree>(points: &[u8], p: u32) -> R::Point
    ensures { R.Point.place result ≡ (point_at R.kind.axes (words points.now) p).at }
{
    R::read(points, base(R::axes(), p))
}

// The node of child c of group k.
pub fn kid<R: Tree>(k: u32, c: u8) -> usize
    ensures value { result ≡ kid (ways R.kind) k c }
    ensures near { result < 1099511627776 }
{
    child(R::ways(), k, c)
}

// The child that a point goes to.
pub fn child_index<R: Tree>(b: R, p: R::Point) -> u8
    ensures value { result ≡ route (R.sides b) (R.Point.place p) }
    ensures within { result < ways R.kind }
{
    (b.child_index(p) % (R::ways() as usize)) as u8
}

// A node with its box, and how many levels lie below it: a number of any size for a search, and of 8 bits for who counts a group for each level.
#[derive(Clone, Copy)]
pub struct Node<R, L> {
    pub index: usize,
    pub bounds: R,
    pub levels: L,
}
