// The calls of `calls` on a quadtree as C functions: what a host links.
// Kept: numbers, slices and a reply number for each call, and a file for each tree: this is the C interface.
#![tactic(auto)]

ghost use Rattle.std.specs.Prelude.{[], ◌∷◌};
ghost use Rattle.model.specs.Boxes.{side};
ghost use Rattle.model.specs.Calls.{quadtree, Create, Insert, Bulk, Delete, Clear, Contains, Len, IsEmpty, Radius, Box, Nearest};
ghost use Rattle.trees.specs.Pieces.{pieces, Does, Asks, Searches, room_for, lent};

use geometry::plane::{Point2D, Rectangle};
use pieces::{Pieces, reply, tell, tell_yes};

// An empty tree with this boundary and capacity.
#[unsafe(no_mangle)]
pub extern "C" fn quadtree_create(
    head: &mut [u8],
    nodes: &mut [u8],
    links: &mut [u8],
    points: &[u8],
    x: f64,
    y: f64,
    width: f64,
    height: f64,
    capacity: u32,
) -> u32
    ensures { Does quadtree (Create (side x width ∷ side y height ∷ []) capacity) (pieces head.old nodes.old links.old points.now) (pieces head.new nodes.new links.new points.now) result 0 }
{
    let bounds = Rectangle {
        x,
        y,
        width,
        height,
    };
    reply(calls::create(head, nodes, links, points, bounds, capacity))
}

// Stores a point.
#[unsafe(no_mangle)]
pub extern "C" fn quadtree_insert(
    head: &[u8],
    nodes: &mut [u8],
    links: &mut [u8],
    points: &mut [u8],
    x: f64,
    y: f64,
    mark: u32,
) -> u32
    ensures { Does quadtree (Insert (record { at = x ∷ y ∷ []; payload = mark })) (pieces head.now nodes.old links.old points.old) (pieces head.now nodes.new links.new points.new) result 0 }
{
    let at = Point2D { x, y };
    reply(calls::insert::<Rectangle>(head, nodes, links, points, at, mark))
}

// Stores many points: as many as both slices hold. How many were stored is handed over.
#[unsafe(no_mangle)]
pub extern "C" fn quadtree_insert_bulk(
    head: &[u8],
    nodes: &mut [u8],
    links: &mut [u8],
    points: &mut [u8],
    coords: &[u8],
    payloads: &[u8],
    stored: &mut usize,
) -> u32
    ensures { Does quadtree (Bulk (lent 2 coords.now payloads.now)) (pieces head.now nodes.old links.old points.old) (pieces head.now nodes.new links.new points.new) result stored.new }
{
    let bulk = calls::insert_bulk::<Rectangle>(head, nodes, links, points, coords, payloads);
    *stored = bulk.count;
    reply(bulk.done)
}

// Takes the first equal point out.
#[unsafe(no_mangle)]
pub extern "C" fn quadtree_delete(
    head: &[u8],
    nodes: &mut [u8],
    links: &mut [u8],
    points: &[u8],
    x: f64,
    y: f64,
    mark: u32,
) -> u32
    ensures { Does quadtree (Delete (record { at = x ∷ y ∷ []; payload = mark })) (pieces head.now nodes.old links.old points.now) (pieces head.now nodes.new links.new points.now) result 0 }
{
    let at = Point2D { x, y };
    reply(calls::delete::<Rectangle>(head, nodes, links, points, at, mark))
}

// Leaves one empty root, with boundary and capacity as they were.
#[unsafe(no_mangle)]
pub extern "C" fn quadtree_clear(
    head: &[u8],
    nodes: &mut [u8],
    links: &mut [u8],
    points: &[u8],
) -> u32
    ensures { Does quadtree Clear (pieces head.now nodes.old links.old points.now) (pieces head.now nodes.new links.new points.now) result 0 }
{
    reply(calls::clear::<Rectangle>(head, nodes, links, points))
}

// Whether an equal point is held: 1 or 0 is handed over.
#[unsafe(no_mangle)]
pub extern "C" fn quadtree_contains(
    head: &[u8],
    nodes: &[u8],
    links: &[u8],
    points: &[u8],
    x: f64,
    y: f64,
    mark: u32,
    yes: &mut u32,
) -> u32
    ensures { Asks quadtree (Contains (record { at = x ∷ y ∷ []; payload = mark })) (pieces head.now nodes.now links.now points.now) result yes.new }
{
    let tree = Pieces {
        head,
        nodes,
        links,
        points,
    };
    let at = Point2D { x, y };
    tell_yes(calls::contains::<Rectangle>(&tree, at, mark), yes)
}

// How many points are held.
#[unsafe(no_mangle)]
pub extern "C" fn quadtree_len(
    head: &[u8],
    nodes: &[u8],
    links: &[u8],
    points: &[u8],
    count: &mut u32,
) -> u32
    ensures { Asks quadtree Len (pieces head.now nodes.now links.now points.now) result count.new }
{
    let tree = Pieces {
        head,
        nodes,
        links,
        points,
    };
    tell(calls::len::<Rectangle>(&tree), count)
}

// Whether no point is held: 1 or 0 is handed over.
#[unsafe(no_mangle)]
pub extern "C" fn quadtree_is_empty(
    head: &[u8],
    nodes: &[u8],
    links: &[u8],
    points: &[u8],
    yes: &mut u32,
) -> u32
    ensures { Asks quadtree IsEmpty (pieces head.now nodes.now links.now points.now) result yes.new }
{
    let tree = Pieces {
        head,
        nodes,
        links,
        points,
    };
    tell_yes(calls::is_empty::<Rectangle>(&tree), yes)
}

// The points within a radius.
#[unsafe(no_mangle)]
pub extern "C" fn quadtree_range_search(
    head: &[u8],
    nodes: &[u8],
    links: &[u8],
    points: &[u8],
    x: f64,
    y: f64,
    radius: f64,
    coords: &mut [u8],
    payloads: &mut [u8],
    count: &mut u32,
) -> u32
    ensures { Searches quadtree (Radius (x ∷ y ∷ []) radius (room_for 2 coords.old payloads.old)) (pieces head.now nodes.now links.now points.now) coords.old payloads.old coords.new payloads.new result count.new }
{
    let tree = Pieces {
        head,
        nodes,
        links,
        points,
    };
    let center = Point2D { x, y };
    let found = calls::range_search::<Rectangle>(&tree, center, radius, coords, payloads);
    tell(found, count)
}

// The points in a box.
#[unsafe(no_mangle)]
pub extern "C" fn quadtree_range_search_bbox(
    head: &[u8],
    nodes: &[u8],
    links: &[u8],
    points: &[u8],
    x: f64,
    y: f64,
    width: f64,
    height: f64,
    coords: &mut [u8],
    payloads: &mut [u8],
    count: &mut u32,
) -> u32
    ensures { Searches quadtree (Box (side x width ∷ side y height ∷ []) (room_for 2 coords.old payloads.old)) (pieces head.now nodes.now links.now points.now) coords.old payloads.old coords.new payloads.new result count.new }
{
    let tree = Pieces {
        head,
        nodes,
        links,
        points,
    };
    let query = Rectangle {
        x,
        y,
        width,
        height,
    };
    let found = calls::range_search_bbox(&tree, query, coords, payloads);
    tell(found, count)
}

// The k nearest points.
#[unsafe(no_mangle)]
pub extern "C" fn quadtree_knn_search(
    head: &[u8],
    nodes: &[u8],
    links: &[u8],
    points: &[u8],
    x: f64,
    y: f64,
    k: u32,
    coords: &mut [u8],
    payloads: &mut [u8],
    count: &mut u32,
) -> u32
    ensures { Searches quadtree (Nearest (x ∷ y ∷ []) k (room_for 2 coords.old payloads.old)) (pieces head.now nodes.now links.now points.now) coords.old payloads.old coords.new payloads.new result count.new }
{
    let tree = Pieces {
        head,
        nodes,
        links,
        points,
    };
    let target = Point2D { x, y };
    let found = calls::knn_search::<Rectangle>(&tree, target, k, coords, payloads);
    tell(found, count)
}
