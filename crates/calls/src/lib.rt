// The calls of the gateway's host on either tree, on pieces of any bytes: `Rectangle` for the quadtree, `Cube` for the octree. Each tests first that the pieces
// hold a sound tree, and refuses where they do not; creation asks for their lengths only. `quadtree_c` and `octree_c` export them to C.
#![tactic(auto)]

ghost use Rattle.model.specs.Calls.{Create, Insert, Bulk, Delete, Clear, Contains, Len, IsEmpty, Radius, Box, Nearest};
ghost use Rattle.pieces.specs.Replies.{count_in, figure_in, number_in};
ghost use Rattle.pieces.specs.Views.{seen};
ghost use Rattle.trees.specs.Pieces.{pieces, Does, Asks, Searches, room_for, lent};

use geometry::region::{Place, Region};
use pieces::{Pieces, Refusal};
use tree::kind::Tree;
use tree_insert::bulk::Stored;
use tree_sound::sound;
use tree_sound_leaves::area::Bounded;

// An empty tree with this boundary and capacity.
pub fn create<R: Bounded>(
    head: &mut [u8],
    nodes: &mut [u8],
    links: &mut [u8],
    points: &[u8],
    bounds: R,
    capacity: u32,
) -> Result<(), Refusal>
    ensures { Does R.kind (Create (R.sides bounds) capacity) (pieces head.old nodes.old links.old points.now) (pieces head.new nodes.new links.new points.now) (number_in result) 0 }
{
    tree_create::create::create(head, nodes, links, points, bounds, capacity)
}

// Stores a point.
pub fn insert<R: Bounded>(
    head: &[u8],
    nodes: &mut [u8],
    links: &mut [u8],
    points: &mut [u8],
    at: R::Point,
    mark: u32,
) -> Result<(), Refusal>
    ensures { Does R.kind (Insert (record { at = R.Point.place at; payload = mark })) (pieces head.now nodes.old links.old points.old) (pieces head.now nodes.new links.new points.new) (number_in result) 0 }
{
    let lent = Pieces {
        head,
        nodes,
        links,
        points,
    };
    if !sound::<R>(&lent) {
        return Err(Refusal::Unsound);
    }
    tree_insert::insert::insert::<R>(head, nodes, links, points, at, mark)
}

// Stores many points: as many as both slices hold, and says how many were stored.
pub fn insert_bulk<R: Bounded>(
    head: &[u8],
    nodes: &mut [u8],
    links: &mut [u8],
    points: &mut [u8],
    coords: &[u8],
    payloads: &[u8],
) -> Stored
    ensures { Does R.kind (Bulk (lent R.kind.axes coords.now payloads.now)) (pieces head.now nodes.old links.old points.old) (pieces head.now nodes.new links.new points.new) (number_in result.done) result.count }
{
    let lent = Pieces {
        head,
        nodes,
        links,
        points,
    };
    if !sound::<R>(&lent) {
        return Stored {
            done: Err(Refusal::Unsound),
            count: 0,
        };
    }
    tree_insert::bulk::insert_bulk::<R>(head, nodes, links, points, coords, payloads)
}

// Takes the first equal point out.
pub fn delete<R: Bounded>(
    head: &[u8],
    nodes: &mut [u8],
    links: &mut [u8],
    points: &[u8],
    at: R::Point,
    mark: u32,
) -> Result<(), Refusal>
    ensures { Does R.kind (Delete (record { at = R.Point.place at; payload = mark })) (pieces head.now nodes.old links.old points.now) (pieces head.now nodes.new links.new points.now) (number_in result) 0 }
{
    let lent = Pieces {
        head,
        nodes,
        links,
        points,
    };
    if !sound::<R>(&lent) {
        return Err(Refusal::Unsound);
    }
    tree_delete::delete::<R>(head, nodes, links, points, at, mark)
}

// Leaves one empty root, with boundary and capacity as they were.
pub fn clear<R: Bounded>(
    head: &[u8],
    nodes: &mut [u8],
    links: &mut [u8],
    points: &[u8],
) -> Result<(), Refusal>
    ensures { Does R.kind Clear (pieces head.now nodes.old links.old points.now) (pieces head.now nodes.new links.new points.now) (number_in result) 0 }
{
    let lent = Pieces {
        head,
        nodes,
        links,
        points,
    };
    if !sound::<R>(&lent) {
        return Err(Refusal::Unsound);
    }
    tree_create::create::clear::<R>(nodes, links);
    Ok(())
}

// Whether an equal point is held.
pub fn contains<R: Bounded>(tree: &Pieces<'_>, at: R::Point, mark: u32) -> Result<bool, Refusal>
    ensures { Asks R.kind (Contains (record { at = R.Point.place at; payload = mark })) (seen tree.now) (number_in result) (figure_in result) }
{
    if !sound::<R>(tree) {
        return Err(Refusal::Unsound);
    }
    Ok(tree_queries::ask::contains::<R>(tree, at, mark))
}

// How many points are held.
pub fn len<R: Bounded>(tree: &Pieces<'_>) -> Result<u32, Refusal>
    ensures { Asks R.kind Len (seen tree.now) (number_in result) (count_in result) }
{
    if !sound::<R>(tree) {
        return Err(Refusal::Unsound);
    }
    Ok(pieces::len(tree.nodes))
}

// Whether no point is held.
pub fn is_empty<R: Bounded>(tree: &Pieces<'_>) -> Result<bool, Refusal>
    ensures { Asks R.kind IsEmpty (seen tree.now) (number_in result) (figure_in result) }
{
    if !sound::<R>(tree) {
        return Err(Refusal::Unsound);
    }
    Ok(pieces::is_empty(tree.nodes))
}

// The points within a radius, and how many they are.
pub fn range_search<R: Bounded>(
    tree: &Pieces<'_>,
    center: R::Point,
    radius: f64,
    coords: &mut [u8],
    payloads: &mut [u8],
) -> Result<u32, Refusal>
    ensures { Searches R.kind (Radius (R.Point.place center) radius (room_for R.kind.axes coords.old payloads.old)) (seen tree.now) coords.old payloads.old coords.new payloads.new (number_in result) (count_in result) }
{
    if !sound::<R>(tree) {
        return Err(Refusal::Unsound);
    }
    tree_queries::search::range_search::<R>(tree, center, radius, coords, payloads)
}

// The points in a box, and how many they are.
pub fn range_search_bbox<R: Bounded>(
    tree: &Pieces<'_>,
    query: R,
    coords: &mut [u8],
    payloads: &mut [u8],
) -> Result<u32, Refusal>
    ensures { Searches R.kind (Box (R.sides query) (room_for R.kind.axes coords.old payloads.old)) (seen tree.now) coords.old payloads.old coords.new payloads.new (number_in result) (count_in result) }
{
    if !sound::<R>(tree) {
        return Err(Refusal::Unsound);
    }
    tree_queries::search::range_search_bbox(tree, query, coords, payloads)
}

// The k nearest points, and how many they are.
pub fn knn_search<R: Bounded>(
    tree: &Pieces<'_>,
    target: R::Point,
    k: u32,
    coords: &mut [u8],
    payloads: &mut [u8],
) -> Result<u32, Refusal>
    ensures { Searches R.kind (Nearest (R.Point.place target) k (room_for R.kind.axes coords.old payloads.old)) (seen tree.now) coords.old payloads.old coords.new payloads.new (number_in result) (count_in result) }
{
    if !sound::<R>(tree) {
        return Err(Refusal::Unsound);
    }
    tree_queries::search::knn_search::<R>(tree, target, k, coords, payloads)
}
