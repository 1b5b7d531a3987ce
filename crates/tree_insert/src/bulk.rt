// Many points at once: insert_bulk of the Rust.
ghost use Rattle.std.specs.Prelude.{◌≡◌, ◌==◌};
ghost use Rattle.model.specs.Calls.{Bulk, number};
ghost use Rattle.pieces.specs.Replies.{number_in, reply_of};
ghost use Rattle.trees.specs.Pieces.{DoesHeld, lent, pieces, room_for};

use crate::insert::insert;
use answers::room;
use geometry::region::{Place, Region};
use pieces::Refusal;
use tree::kind::Tree;
use words::get;

// Why the storing stopped, if it did, and how many points were stored.
#[derive(Clone, Copy)]
pub struct Stored {
    pub done: Result<(), Refusal>,
    pub count: usize,
}

// Whether only this point is passed over.
#[tactic(auto, unfolding(model::specs::Calls::number))]
fn is_passed(refusal: Refusal) -> bool
    ensures { result ≡ (number (reply_of refusal) == 1) }
{
    matches!(refusal, Refusal::Outside)
}

// How many points are lent.
fn lent_count<R: Tree>(coords: &[u8], payloads: &[u8]) -> usize
    ensures { result ≡ room_for R.kind.axes coords.now payloads.now }
{
    room(R::axes(), coords.len(), payloads.len())
}

// Inserts the lent points in their order, past those outside, up to the first that there is no room for: what was stored before it stays.
pub fn insert_bulk<R: Tree>(
    head: &[u8],
    nodes: &mut [u8],
    links: &mut [u8],
    points: &mut [u8],
    coords: &[u8],
    payloads: &[u8],
) -> Stored
    ensures { DoesHeld R.kind (Bulk (lent R.kind.axes coords.now payloads.now)) (pieces head.now nodes.old links.old points.old) (pieces head.now nodes.new links.new points.new) (number_in result.done) result.count }
{
    let axes = R::axes() as usize;
    let mut count: usize = 0;
    for i in 0..lent_count::<R>(coords, payloads) {
        let at = R::read(coords, axes * i);
        let mark = get(payloads, i);
        let done = insert::<R>(head, nodes, links, points, at, mark);
        if let Err(refusal) = done {
            if is_passed(refusal) {
                continue;
            }
            return Stored { done, count };
        }
        count += 1;
    }
    Stored {
        done: Ok(()),
        count,
    }
}
