// Creation, and clear of the Rust.
ghost use Rattle.std.specs.Prelude.{List, ℕ};
ghost use Rattle.model.specs.Calls.{Clear, ways};
ghost use Rattle.pool.specs.Meanings.{Empties};
ghost use Rattle.pool.specs.Writes.{pool};
ghost use Rattle.pieces.specs.Replies.{number_in};
ghost use Rattle.trees.specs.Pieces.{pieces, Creates, DoesHeld};

use crate::put::put_head;
use geometry::region::Region;
use pieces::{Pieces, Refusal, decide};
use pool::Pool;
use tree::head::fits;
use tree::kind::Tree;

// Makes node 1 an empty tree, with every group and every place free.
fn empty<R: Tree>(nodes: &mut [u8], links: &mut [u8])
    ensures { Empties (ways R.kind) (pool nodes.old links.old) (pool nodes.new links.new) 1 }
{
    let mut pool = Pool {
        ways: R::ways(),
        nodes,
        links,
    };
    clearing::clear(&mut pool, 1);
}

// Makes an empty tree in any pieces, once the answer is known, so that a refusal leaves them as they were: 8 where a piece has a wrong length, 3 for capacity 0, 4 for a boundary that is not taken.
pub fn create<R: Tree>(
    head: &mut [u8],
    nodes: &mut [u8],
    links: &mut [u8],
    points: &[u8],
    bounds: R,
    capacity: u32,
) -> Result<(), Refusal>
    ensures { Creates R.kind (R.sides bounds) capacity (pieces head.old nodes.old links.old points.now) (pieces head.new nodes.new links.new points.now) (number_in result) }
{
    let lent = Pieces {
        head,
        nodes,
        links,
        points,
    };
    if !fits::<R>(&lent) {
        return Err(Refusal::Unsound);
    }
    let answer = decide(bounds.accepts(), capacity);
    let Ok(most) = answer else {
        return answer.and(Ok(()));
    };
    bounds.numbers();
    put_head(head, bounds, most);
    empty::<R>(nodes, links);
    Ok(())
}

// Leaves one empty root; boundary and capacity stay.
pub fn clear<R: Tree>(nodes: &mut [u8], links: &mut [u8])
    ensures { (h p : List ℕ) → DoesHeld R.kind Clear (pieces h nodes.old links.old p) (pieces h nodes.new links.new p) 0 0 }
{
    empty::<R>(nodes, links);
}
