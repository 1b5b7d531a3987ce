// Deletion: delete of the Rust. The place is found before anything is written.
#![tactic(auto)]

ghost use Rattle.std.specs.Prelude.{ℕ};
ghost use Rattle.model.specs.Calls.{Delete, ways};
ghost use Rattle.model.specs.Trees.{Point};
ghost use Rattle.pieces.specs.Replies.{number_in};
ghost use Rattle.pool.specs.Writes.{pool};
ghost use Rattle.trees.proofs.Deletes.{Along};
ghost use Rattle.trees.specs.Pieces.{pieces, DoesHeld};

use free::give_place;
use geometry::region::{Place, Region};
use paths::delete_along;
use pieces::{Pieces, Refusal};
use pool::{Pool, first};
use tree::head::{boundary, capacity};
use tree::kind::Tree;
use tree::place::Node;
use tree_descent::descent::{find_in, leaf_of};

// Takes place p, which stands after place b, from the list of node end, and merges on the way up the path.
fn unlink<R: Tree>(
    nodes: &mut [u8],
    links: &mut [u8],
    path: &[usize],
    end: usize,
    capacity: u32,
    p: u32,
    b: u32,
)
    ensures { (at : ℕ → Point) (q : Point) → Along (ways R.kind) capacity R.kind.order at q path.now (pool nodes.old links.old) (pool nodes.new links.new) end p b }
{
    let mut pool = Pool {
        ways: R::ways(),
        nodes,
        links,
    };
    delete_along(&mut pool, path, end, R::order(), capacity, p, b);
}

// Deletes the first equal point of its node's list: refused outside the boundary, and where no equal point is held.
pub fn delete<R: Tree>(
    head: &[u8],
    nodes: &mut [u8],
    links: &mut [u8],
    points: &[u8],
    at: R::Point,
    mark: u32,
) -> Result<(), Refusal>
    ensures { DoesHeld R.kind (Delete (record { at = R.Point.place at; payload = mark })) (pieces head.now nodes.old links.old points.now) (pieces head.now nodes.new links.new points.now) (number_in result) 0 }
{
    at.numbers();
    let bounds = boundary::<R>(head);
    if !bounds.contains(at) {
        return Err(Refusal::Outside);
    }
    let root = Node {
        index: 1,
        bounds,
        levels: 32,
    };
    let mut path: [usize; 32] = [0; 32];
    let leaf = leaf_of(nodes, root, at, &mut path);
    let end = leaf.node.index;
    let depth = leaf.depth;
    let start = first(nodes, end);
    let lent = Pieces {
        head,
        nodes,
        links,
        points,
    };
    let Ok(spot) = find_in::<R>(&lent, start, at, mark) else {
        return Err(Refusal::Absent);
    };
    let most = capacity::<R>(head);
    let place = spot.place;
    unlink::<R>(nodes, links, &path[..depth], end, most, place, spot.before);
    give_place(links, place);
    Ok(())
}
