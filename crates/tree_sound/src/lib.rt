// The soundness test: whether pieces of any bytes hold a sound tree. It marks every place and every group that it meets and stops at the first that
// comes twice or lies outside, so that it ends, and visits no more than there are.
#![tactic(auto)]

ghost use Rattle.words.specs.Words.{words};
ghost use Rattle.model.specs.Calls.{ways};
ghost use Rattle.pieces.specs.Views.{seen};
ghost use Rattle.trees.specs.Points.{point_at};
ghost use Rattle.trees.specs.Pieces.{Decides, Sane};
ghost use Rattle.trees.proofs.Checks.{Checks};

use geometry::region::Region;
use pieces::Pieces;
use pool::{count, group};
use sound::{children_count, claim, rest_is_free};
use tree::head::{boundary, capacity, fits};
use tree::kind::Tree;
use tree::place::{Node, kid};
use tree_sound_leaves::area::Bounded;
use tree_sound_leaves::leaf::check_leaf;

// Whether the words hold a tree at a node, which is there, with this box and this area and so many levels below it; what it meets is marked.
fn check_node<R: Bounded>(
    tree: &Pieces<'_>,
    node: Node<R, u8>,
    area: R::Area,
    capacity: u32,
    homes: &mut [u8],
    used: &mut [u8],
) -> bool
    ensures { Checks (ways R.kind) capacity (point_at R.kind.axes (words tree.now.points.now)) (words tree.now.nodes.now) (words tree.now.links.now) node.levels (R.sides node.bounds) (R.bounds area) node.index homes.old used.old homes.new used.new result }
{
    let bounds = node.bounds;
    let k = group(tree.nodes, node.index);
    if k == 0 {
        return check_leaf::<R>(tree, node.index, node.levels, area, capacity, homes);
    }
    let n = count(tree.nodes, node.index);
    if node.levels == 0 || n <= capacity || !claim(used, k) {
        return false;
    }
    let below = node.levels - 1;
    for c in 0..R::ways() {
        let i = kid::<R>(k, c);
        let part = bounds.narrowed(area, c);
        if group(tree.nodes, i) == 0 {
            if !check_leaf::<R>(tree, i, below, part, capacity, homes) {
                return false;
            }
            continue;
        }
        let child = Node {
            index: i,
            bounds: bounds.child(c as usize),
            levels: below,
        };
        if !check_node::<R>(tree, child, part, capacity, homes, used) {
            return false;
        }
    }
    children_count(tree.nodes, R::ways(), k) == n as u64
}

// Whether the pieces hold a sound tree.
pub fn sound<R: Bounded>(tree: &Pieces<'_>) -> bool
    ensures { Decides result (Sane R.kind (seen tree.now)) }
{
    if !fits::<R>(tree) {
        return false;
    }
    let bounds = boundary::<R>(tree.head);
    if !bounds.accepts() {
        return false;
    }
    let n = capacity::<R>(tree.head);
    if n == 0 {
        return false;
    }
    let root = Node {
        index: 1,
        bounds,
        levels: 32,
    };
    // A mark for each place, and for each group that this tree has room for.
    let mut homes = [0u8; 513];
    let mut used = [0u8; 86];
    let groups = &mut used[..R::rows() as usize + 1];
    if !check_node::<R>(tree, root, bounds.whole(), n, &mut homes, groups) {
        return false;
    }
    rest_is_free(tree.nodes, tree.links, R::ways(), &mut homes, groups)
}
