// An undivided node: its list, with each point in the area of the node.
ghost use Rattle.words.specs.Words.{words};
ghost use Rattle.model.specs.Calls.{ways};
ghost use Rattle.trees.specs.Points.{point_at};
ghost use Rattle.trees.proofs.Checks.{LeafChecks, ListChecks};

use crate::area::Bounded;
use geometry::region::{Place, Region};
use pieces::Pieces;
use pool::{count, first, last, next};
use sound::claim;
use tree::kind::Tree;
use tree::place::point_at;

// Whether a list has so many places, none met before, each with a point in the area, and ends with the place that its node names.
fn check_list<R: Bounded>(
    tree: &Pieces<'_>,
    head: u32,
    tail: u32,
    n: u32,
    area: R::Area,
    homes: &mut [u8],
) -> bool
    ensures { ListChecks (point_at R.kind.axes (words tree.now.points.now)) (words tree.now.links.now) (R.bounds area) head tail n homes.old homes.new result }
{
    // Taken out once: for all that the compiler knows, a mark is written over a field of the struct.
    let links = tree.links;
    let points = tree.points;
    let mut p = head;
    let mut end: u32 = 0;
    // Kept: `list` ends after as many places as there are links. Where there are none, it would hide that the head names a place.
    for _ in 0..n {
        if p == 0 {
            return false;
        }
        if !claim(homes, p) {
            return false;
        }
        let at = point_at::<R>(points, p);
        if !R::lies(area, at) {
            return false;
        }
        end = p;
        p = next(links, p);
    }
    (p == 0) & (end == tail)
}

// Whether a node, where it is undivided, has a list in this area that is not too long. Its box is not asked for: most nodes are undivided, and a box costs time.
pub fn check_leaf<R: Bounded>(
    tree: &Pieces<'_>,
    index: usize,
    levels: u8,
    area: R::Area,
    capacity: u32,
    homes: &mut [u8],
) -> bool
    ensures { LeafChecks (ways R.kind) capacity (point_at R.kind.axes (words tree.now.points.now)) (words tree.now.nodes.now) (words tree.now.links.now) levels (R.bounds area) index homes.old homes.new result }
{
    let n = count(tree.nodes, index);
    if (levels > 0) & (n > capacity) {
        return false;
    }
    let head = first(tree.nodes, index);
    let tail = last(tree.nodes, index);
    check_list::<R>(tree, head, tail, n, area, homes)
}
