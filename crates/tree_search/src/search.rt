// Searches by a radius and by a box: collect_in_radius and collect_in_bbox of the Rust, as one walk for any question.
ghost use Rattle.std.specs.Prelude.{◌≡◌, true, length};
ghost use Rattle.words.specs.Words.{words};
ghost use Rattle.model.specs.Calls.{ways};
ghost use Rattle.trees.specs.Points.{point_at};
ghost use Rattle.trees.proofs.Walks.{Notes};
ghost use Rattle.trees.proofs.Collects.{Collects, passing};

use crate::question::Question;
use geometry::region::{Place, Region};
use paths::note;
use pieces::Pieces;
use pool::{first, group};
use tree::kind::Tree;
use tree::lists::list;
use tree::place::{Node, kid, point_at};

// Kept: how many places are noted beside their array, here and below, since `Notes` says by that number where each is written.
// Notes the places of a list whose points are asked for.
fn collect_list<R: Tree, Q: Question<R>>(
    tree: &Pieces<'_>,
    head: u32,
    q: Q,
    found: &mut [u32],
    n: usize,
) -> usize
    ensures { Notes (passing (λ p. Q.takes q (point_at R.kind.axes (words tree.now.points.now) p).at) (length (words tree.now.links.now)) (words tree.now.links.now) head) found.old n found.new result }
{
    let mut m = n;
    for p in list(tree.links, head) {
        if !q.asks(point_at::<R>(tree.points, p)) {
            continue;
        }
        m = note(found, m, p);
    }
    m
}

// Notes, from number n on, the places of the points that are asked for, in the tree at a node whose box can hold one. A child's box is asked before the call, so that
// a branch that is skipped costs none.
fn collect_within<R: Tree, Q: Question<R>>(
    tree: &Pieces<'_>,
    node: Node<R, usize>,
    q: Q,
    found: &mut [u32],
    n: usize,
) -> usize
    ensures { Q.meets q (R.sides node.bounds) ≡ true → Collects (Q.meets q) (λ p. Q.takes q (point_at R.kind.axes (words tree.now.points.now) p).at) (ways R.kind) (words tree.now.nodes.now) (words tree.now.links.now) node.levels (R.sides node.bounds) node.index found.old n found.new result }
{
    let Node {
        index,
        bounds,
        levels,
    } = node;
    let k = group(tree.nodes, index);
    if k == 0 {
        let head = first(tree.nodes, index);
        return collect_list::<R, Q>(tree, head, q, found, n);
    }
    if levels == 0 {
        return n;
    }
    let mut m = n;
    for c in 0..R::ways() {
        let part = bounds.child(c as usize);
        if !q.reaches(part) {
            continue;
        }
        let child = Node {
            index: kid::<R>(k, c),
            bounds: part,
            levels: levels - 1,
        };
        m = collect_within::<R, Q>(tree, child, q, found, m);
    }
    m
}

// The same for any box.
pub fn collect<R: Tree, Q: Question<R>>(
    tree: &Pieces<'_>,
    node: Node<R, usize>,
    q: Q,
    found: &mut [u32],
    n: usize,
) -> usize
    ensures { Collects (Q.meets q) (λ p. Q.takes q (point_at R.kind.axes (words tree.now.points.now) p).at) (ways R.kind) (words tree.now.nodes.now) (words tree.now.links.now) node.levels (R.sides node.bounds) node.index found.old n found.new result }
{
    if !q.reaches(node.bounds) {
        return n;
    }
    collect_within::<R, Q>(tree, node, q, found, n)
}
