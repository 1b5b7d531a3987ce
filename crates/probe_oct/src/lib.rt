// C entry points to the octree's calls without the test of soundness, and to the test alone, for the benchmarks.
// Kept: a file for each tree, since C knows no type parameter.
#![tactic(auto)]

ghost use Rattle.std.specs.Prelude.{[], ◌∷◌};
ghost use Rattle.model.specs.Boxes.{side};
ghost use Rattle.model.specs.Calls.{octree, Insert, Delete, Contains, Radius, Box, Nearest};
ghost use Rattle.trees.specs.Pieces.{pieces, Sane, Decides, DoesHeld, AsksHeld, SearchesHeld, room_for};

use geometry::space::{Cube, Point3D};
use pieces::{Pieces, reply, tell};
use tree_insert::insert;
use tree_queries::{ask, search};
use tree_sound::sound;

#[unsafe(no_mangle)]
pub extern "C" fn probe_octree_sound(head: &[u8], nodes: &[u8], links: &[u8], points: &[u8]) -> bool
    ensures { Decides result (Sane octree (pieces head.now nodes.now links.now points.now)) }
{
    let tree = Pieces {
        head,
        nodes,
        links,
        points,
    };
    sound::<Cube>(&tree)
}

#[unsafe(no_mangle)]
pub extern "C" fn probe_octree_insert(
    head: &[u8],
    nodes: &mut [u8],
    links: &mut [u8],
    points: &mut [u8],
    x: f64,
    y: f64,
    z: f64,
    mark: u32,
) -> u32
    ensures { DoesHeld octree (Insert (record { at = x ∷ y ∷ z ∷ []; payload = mark })) (pieces head.now nodes.old links.old points.old) (pieces head.now nodes.new links.new points.new) result 0 }
{
    let at = Point3D { x, y, z };
    reply(insert::insert::<Cube>(head, nodes, links, points, at, mark))
}

#[unsafe(no_mangle)]
pub extern "C" fn probe_octree_delete(
    head: &[u8],
    nodes: &mut [u8],
    links: &mut [u8],
    points: &[u8],
    x: f64,
    y: f64,
    z: f64,
    mark: u32,
) -> u32
    ensures { DoesHeld octree (Delete (record { at = x ∷ y ∷ z ∷ []; payload = mark })) (pieces head.now nodes.old links.old points.now) (pieces head.now nodes.new links.new points.now) result 0 }
{
    let at = Point3D { x, y, z };
    reply(tree_delete::delete::<Cube>(head, nodes, links, points, at, mark))
}

#[unsafe(no_mangle)]
pub extern "C" fn probe_octree_contains(
    head: &[u8],
    nodes: &[u8],
    links: &[u8],
    points: &[u8],
    x: f64,
    y: f64,
    z: f64,
    mark: u32,
    yes: &mut u32,
) -> u32
    ensures { AsksHeld octree (Contains (record { at = x ∷ y ∷ z ∷ []; payload = mark })) (pieces head.now nodes.now links.now points.now) result yes.new }
{
    let tree = Pieces {
        head,
        nodes,
        links,
        points,
    };
    let at = Point3D { x, y, z };
    *yes = u32::from(ask::contains::<Cube>(&tree, at, mark));
    0
}

#[unsafe(no_mangle)]
pub extern "C" fn probe_octree_range_search(
    head: &[u8],
    nodes: &[u8],
    links: &[u8],
    points: &[u8],
    x: f64,
    y: f64,
    z: f64,
    radius: f64,
    coords: &mut [u8],
    payloads: &mut [u8],
    count: &mut u32,
) -> u32
    ensures { SearchesHeld octree (Radius (x ∷ y ∷ z ∷ []) radius (room_for 3 coords.old payloads.old)) (pieces head.now nodes.now links.now points.now) coords.old payloads.old coords.new payloads.new result count.new }
{
    let tree = Pieces {
        head,
        nodes,
        links,
        points,
    };
    let center = Point3D { x, y, z };
    let found = search::range_search::<Cube>(&tree, center, radius, coords, payloads);
    tell(found, count)
}

#[unsafe(no_mangle)]
pub extern "C" fn probe_octree_range_search_bbox(
    head: &[u8],
    nodes: &[u8],
    links: &[u8],
    points: &[u8],
    x: f64,
    y: f64,
    z: f64,
    width: f64,
    height: f64,
    depth: f64,
    coords: &mut [u8],
    payloads: &mut [u8],
    count: &mut u32,
) -> u32
    ensures { SearchesHeld octree (Box (side x width ∷ side y height ∷ side z depth ∷ []) (room_for 3 coords.old payloads.old)) (pieces head.now nodes.now links.now points.now) coords.old payloads.old coords.new payloads.new result count.new }
{
    let tree = Pieces {
        head,
        nodes,
        links,
        points,
    };
    let query = Cube {
        x,
        y,
        z,
        width,
        height,
        depth,
    };
    let found = search::range_search_bbox(&tree, query, coords, payloads);
    tell(found, count)
}

#[unsafe(no_mangle)]
pub extern "C" fn probe_octree_knn_search(
    head: &[u8],
    nodes: &[u8],
    links: &[u8],
    points: &[u8],
    x: f64,
    y: f64,
    z: f64,
    k: u32,
    coords: &mut [u8],
    payloads: &mut [u8],
    count: &mut u32,
) -> u32
    ensures { SearchesHeld octree (Nearest (x ∷ y ∷ z ∷ []) k (room_for 3 coords.old payloads.old)) (pieces head.now nodes.now links.now points.now) coords.old payloads.old coords.new payloads.new result count.new }
{
    let tree = Pieces {
        head,
        nodes,
        links,
        points,
    };
    let target = Point3D { x, y, z };
    let found = search::knn_search::<Cube>(&tree, target, k, coords, payloads);
    tell(found, count)
}
