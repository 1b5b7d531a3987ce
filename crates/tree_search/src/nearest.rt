// k nearest: knn_search_helper of the Rust.
ghost use Rattle.std.specs.Prelude.{◌≡◌, [], length, take};
ghost use Rattle.words.specs.Words.{words};
ghost use Rattle.model.specs.Calls.{ways};
ghost use Rattle.model.specs.Searches.{place_each};
ghost use Rattle.knn.specs.Candidates.{dists, items, numbered, room};
ghost use Rattle.trees.specs.Points.{point_at};
ghost use Rattle.trees.proofs.Seeks.{candidate, nears};
ghost use Rattle.trees.proofs.Tables.{Tables, offering, Seeks};
ghost use Rattle.tree_search.specs.Tables.{SameTable};

use geometry::region::{Place, Region};
use knn::{Table, order_children};
use pieces::Pieces;
use pool::{first, group};
use tree::kind::Tree;
use tree::lists::list;
use tree::place::{Node, kid, point_at};

// Kept: two arrays and not one of pairs, since `order_children` is lent two, as the candidate table has them.
// Children by their node distances; where there are four, what stands behind them is not looked at.
#[derive(Clone, Copy)]
pub struct Order {
    pub dist: [f64; 8],
    pub item: [u32; 8],
}

fn by_distance<R: Tree>(bounds: R, target: R::Point) -> Order
    ensures { (take (ways R.kind) result.dist ≡ dists (place_each [] (numbered 0 (nears (R.sides bounds) (R.Point.place target) 0 (ways R.kind))))) × (take (ways R.kind) result.item ≡ items (place_each [] (numbered 0 (nears (R.sides bounds) (R.Point.place target) 0 (ways R.kind))))) }
{
    let most = R::ways() as usize;
    let mut dist = [0.0; 8];
    let mut item: [u32; 8] = [0; 8];
    for c in 0..most {
        dist[c] = bounds.child(c).min_distance_sq(target);
    }
    order_children(&mut dist[..most], &mut item[..most]);
    Order { dist, item }
}

// Offers the places of a list to the table.
fn offer_list<R: Tree>(tree: &Pieces<'_>, head: u32, target: R::Point, table: &mut Table<'_>)
    ensures tables { Tables (offering (room table.old.k table.old.dist.now table.old.item.now) (candidate (point_at R.kind.axes (words tree.now.points.now)) (R.Point.place target)) (length (words tree.now.links.now)) (words tree.now.links.now) head) table.old.dist.now table.old.item.now table.old.count table.new.dist.now table.new.item.now table.new.count }
    ensures same { SameTable table.old table.new }
{
    for p in list(tree.links, head) {
        let at = point_at::<R>(tree.points, p);
        table.offer(at.distance_sq(target), p);
    }
}

// Offers the places of the tree at a node, nearest children first.
pub fn knn_search_helper<R: Tree>(
    tree: &Pieces<'_>,
    node: Node<R, usize>,
    target: R::Point,
    table: &mut Table<'_>,
)
    ensures seeks { Seeks (point_at R.kind.axes (words tree.now.points.now)) (R.Point.place target) table.old.k (ways R.kind) (words tree.now.nodes.now) (words tree.now.links.now) node.levels (R.sides node.bounds) node.index table.old.dist.now table.old.item.now table.old.count table.new.dist.now table.new.item.now table.new.count }
    ensures same { SameTable table.old table.new }
{
    let Node {
        index,
        bounds,
        levels,
    } = node;
    let g = group(tree.nodes, index);
    if g == 0 {
        let head = first(tree.nodes, index);
        offer_list::<R>(tree, head, target, table);
        return;
    }
    if levels == 0 {
        return;
    }
    let order = by_distance(bounds, target);
    let near = order.dist;
    let which = order.item;
    for j in 0..R::ways() as usize {
        // Sorted by distance, so every child left is at least this far away, and `worst` only ever shrinks from here.
        let w = table.worst();
        let d = near[j];
        if d > w {
            return;
        }
        let c = (which[j] % 8) as u8;
        let child = Node {
            index: kid::<R>(g, c),
            bounds: bounds.child(c as usize),
            levels: levels - 1,
        };
        knn_search_helper(tree, child, target, table);
    }
}
