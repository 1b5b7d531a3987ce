// The calls of `calls` on an octree as C functions: what a host links.
// Kept: numbers, slices and a reply number for each call, and a file for each tree: this is the C interface.
#![tactic(auto)]

ghost use Rattle.std.specs.Prelude.{[], ◌∷◌};
ghost use Rattle.model.specs.Boxes.{side};
ghost use Rattle.model.specs.Calls.{octree, Create, Insert, Bulk, Delete, Clear, Contains, Len, IsEmpty, Radius, Box, Nearest};
ghost use Rattle.trees.specs.Pieces.{pieces, Does, Asks, Searches, room_for, lent};

use geometry::space::{Cube, Point3D};
use pieces::{Pieces, reply, tell, tell_yes};

// An empty tree with this boundary and capacity.
#[unsafe(no_mangle)]
pub extern "C" fn octree_create(
    head: &mut [u8],
    nodes: &mut [u8],
    links: &mut [u8],
    points: &[u8],
    x: f64,
    y: f64,
    z: f64,
    width: f64,
    height: f64,
    depth: f64,
    capacity: u32,
) -> u32
    ensures { Does octree (Create (side x width ∷ side y height ∷ side z depth ∷ []) capacity) (pieces head.old nodes.old links.old points.now) (pieces head.new nodes.new links.new points.now) result 0 }
{
    let bounds = Cube {
        x,
        y,
        z,
        width,
        height,
        depth,
    };
    reply(calls::create(head, nodes, links, points, bounds, capacity))
}

// Stores a point.
#[unsafe(no_mangle)]
pub extern "C" fn octree_insert(
    head: &[u8],
    nodes: &mut [u8],
    links: &mut [u8],
    points: &mut [u8],
    x: f64,
    y: f64,
    z: f64,
    mark: u32,
) -> u32
    ensures { Does octree (Insert (record { at = x ∷ y ∷ z ∷ []; payload = mark })) (pieces head.now nodes.old links.old points.old) (pieces head.now nodes.new links.new points.new) result 0 }
{
    let at = Point3D { x, y, z };
    reply(calls::insert::<Cube>(head, nodes, links, points, at, mark))
}

// Stores many points: as many as both slices hold. How many were stored is handed over.
#[unsafe(no_mangle)]
pub extern "C" fn octree_insert_bulk(
    head: &[u8],
    nodes: &mut [u8],
    links: &mut [u8],
    points: &mut [u8],
    coords: &[u8],
    payloads: &[u8],
    stored: &mut usize,
) -> u32
    ensures { Does octree (Bulk (lent 3 coords.now payloads.now)) (pieces head.now nodes.old links.old points.old) (pieces head.now nodes.new links.new points.new) result stored.new }
{
    let bulk = calls::insert_bulk::<Cube>(head, nodes, links, points, coords, payloads);
    *stored = bulk.count;
    reply(bulk.done)
}

// Takes the first equal point out.
#[unsafe(no_mangle)]
pub extern "C" fn octree_delete(
    head: &[u8],
    nodes: &mut [u8],
    links: &mut [u8],
    points: &[u8],
    x: f64,
    y: f64,
    z: f64,
    mark: u32,
) -> u32
    ensures { Does octree (Delete (record { at = x ∷ y ∷ z ∷ []; payload = mark })) (pieces head.now nodes.old links.old points.now) (pieces head.now nodes.new links.new points.now) result 0 }
{
    let at = Point3D { x, y, z };
    reply(calls::delete::<Cube>(head, nodes, links, points, at, mark))
}

// Leaves one empty root, with boundary and capacity as they were.
#[unsafe(no_mangle)]
pub extern "C" fn octree_clear(
    head: &[u8],
    nodes: &mut [u8],
    links: &mut [u8],
    points: &[u8],
) -> u32
    ensures { Does octree Clear (pieces head.now nodes.old links.old points.now) (pieces head.now nodes.new links.new points.now) result 0 }
{
    reply(calls::clear::<Cube>(head, nodes, links, points))
}

// Whether an equal point is held: 1 or 0 is handed over.
#[unsafe(no_mangle)]
pub extern "C" fn octree_contains(
    head: &[u8],
    nodes: &[u8],
    links: &[u8],
    points: &[u8],
    x: f64,
    y: f64,
    z: f64,
    mark: u32,
    yes: &mut u32,
) -> u32
    ensures { Asks octree (Contains (record { at = x ∷ y ∷ z ∷ []; payload = mark })) (pieces head.now nodes.now links.now points.now) result yes.new }
{
    let tree = Pieces {
        head,
        nodes,
        links,
        points,
    };
    let at = Point3D { x, y, z };
    tell_yes(calls::contains::<Cube>(&tree, at, mark), yes)
}

// How many points are held.
#[unsafe(no_mangle)]
pub extern "C" fn octree_len(
    head: &[u8],
    nodes: &[u8],
    links: &[u8],
    points: &[u8],
    count: &mut u32,
) -> u32
    ensures { Asks octree Len (pieces head.now nodes.now links.now points.now) result count.new }
{
    let tree = Pieces {
        head,
        nodes,
        links,
        points,
    };
    tell(calls::len::<Cube>(&tree), count)
}

// Whether no point is held: 1 or 0 is handed over.
#[unsafe(no_mangle)]
pub extern "C" fn octree_is_empty(
    head: &[u8],
    nodes: &[u8],
    links: &[u8],
    points: &[u8],
    yes: &mut u32,
) -> u32
    ensures { Asks octree IsEmpty (pieces head.now nodes.now links.now points.now) result yes.new }
{
    let tree = Pieces {
        head,
        nodes,
        links,
        points,
    };
    tell_yes(calls::is_empty::<Cube>(&tree), yes)
}

// The points within a radius.
#[unsafe(no_mangle)]
pub extern "C" fn octree_range_search(
    head: &[u8],
    nodes: &[u8],
    links: &[u8],
    points: &[u8],
    x: f64,
    y: f64,
    z: f64,
    radius: f64,
    coords: &mut [u8],
    payloads: &mut [u8],
    count: &mut u32,
) -> u32
    ensures { Searches octree (Radius (x ∷ y ∷ z ∷ []) radius (room_for 3 coords.old payloads.old)) (pieces head.now nodes.now links.now points.now) coords.old payloads.old coords.new payloads.new result count.new }
{
    let tree = Pieces {
        head,
        nodes,
        links,
        points,
    };
    let center = Point3D { x, y, z };
    let found = calls::range_search::<Cube>(&tree, center, radius, coords, payloads);
    tell(found, count)
}

// The points in a box.
#[unsafe(no_mangle)]
pub extern "C" fn octree_range_search_bbox(
    head: &[u8],
    nodes: &[u8],
    links: &[u8],
    points: &[u8],
    x: f64,
    y: f64,
    z: f64,
    width: f64,
    height: f64,
    depth: f64,
    coords: &mut [u8],
    payloads: &mut [u8],
    count: &mut u32,
) -> u32
    ensures { Searches octree (Box (side x width ∷ side y height ∷ side z depth ∷ []) (room_for 3 coords.old payloads.old)) (pieces head.now nodes.now links.now points.now) coords.old payloads.old coords.new payloads.new result count.new }
{
    let tree = Pieces {
        head,
        nodes,
        links,
        points,
    };
    let query = Cube {
        x,
        y,
        z,
        width,
        height,
        depth,
    };
    let found = calls::range_search_bbox(&tree, query, coords, payloads);
    tell(found, count)
}

// The k nearest points.
#[unsafe(no_mangle)]
pub extern "C" fn octree_knn_search(
    head: &[u8],
    nodes: &[u8],
    links: &[u8],
    points: &[u8],
    x: f64,
    y: f64,
    z: f64,
    k: u32,
    coords: &mut [u8],
    payloads: &mut [u8],
    count: &mut u32,
) -> u32
    ensures { Searches octree (Nearest (x ∷ y ∷ z ∷ []) k (room_for 3 coords.old payloads.old)) (pieces head.now nodes.now links.now points.now) coords.old payloads.old coords.new payloads.new result count.new }
{
    let tree = Pieces {
        head,
        nodes,
        links,
        points,
    };
    let target = Point3D { x, y, z };
    let found = calls::knn_search::<Cube>(&tree, target, k, coords, payloads);
    tell(found, count)
}
