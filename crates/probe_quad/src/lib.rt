// C entry points to the quadtree's calls without the test of soundness, and to the test alone, for the benchmarks.
// Kept: a file for each tree, since C knows no type parameter.
#![tactic(auto)]

ghost use Rattle.std.specs.Prelude.{[], ◌∷◌};
ghost use Rattle.model.specs.Boxes.{side};
ghost use Rattle.model.specs.Calls.{quadtree, Insert, Delete, Contains, Radius, Box, Nearest};
ghost use Rattle.trees.specs.Pieces.{pieces, Sane, Decides, DoesHeld, AsksHeld, SearchesHeld, room_for};

use geometry::plane::{Point2D, Rectangle};
use pieces::{Pieces, reply, tell};
use tree_insert::insert;
use tree_queries::{ask, search};
use tree_sound::sound;

#[unsafe(no_mangle)]
pub extern "C" fn probe_quadtree_sound(
    head: &[u8],
    nodes: &[u8],
    links: &[u8],
    points: &[u8],
) -> bool
    ensures { Decides result (Sane quadtree (pieces head.now nodes.now links.now points.now)) }
{
    let tree = Pieces {
        head,
        nodes,
        links,
        points,
    };
    sound::<Rectangle>(&tree)
}

#[unsafe(no_mangle)]
pub extern "C" fn probe_quadtree_insert(
    head: &[u8],
    nodes: &mut [u8],
    links: &mut [u8],
    points: &mut [u8],
    x: f64,
    y: f64,
    mark: u32,
) -> u32
    ensures { DoesHeld quadtree (Insert (record { at = x ∷ y ∷ []; payload = mark })) (pieces head.now nodes.old links.old points.old) (pieces head.now nodes.new links.new points.new) result 0 }
{
    let at = Point2D { x, y };
    reply(insert::insert::<Rectangle>(head, nodes, links, points, at, mark))
}

#[unsafe(no_mangle)]
pub extern "C" fn probe_quadtree_delete(
    head: &[u8],
    nodes: &mut [u8],
    links: &mut [u8],
    points: &[u8],
    x: f64,
    y: f64,
    mark: u32,
) -> u32
    ensures { DoesHeld quadtree (Delete (record { at = x ∷ y ∷ []; payload = mark })) (pieces head.now nodes.old links.old points.now) (pieces head.now nodes.new links.new points.now) result 0 }
{
    let at = Point2D { x, y };
    reply(tree_delete::delete::<Rectangle>(head, nodes, links, points, at, mark))
}

#[unsafe(no_mangle)]
pub extern "C" fn probe_quadtree_contains(
    head: &[u8],
    nodes: &[u8],
    links: &[u8],
    points: &[u8],
    x: f64,
    y: f64,
    mark: u32,
    yes: &mut u32,
) -> u32
    ensures { AsksHeld quadtree (Contains (record { at = x ∷ y ∷ []; payload = mark })) (pieces head.now nodes.now links.now points.now) result yes.new }
{
    let tree = Pieces {
        head,
        nodes,
        links,
        points,
    };
    let at = Point2D { x, y };
    *yes = u32::from(ask::contains::<Rectangle>(&tree, at, mark));
    0
}

#[unsafe(no_mangle)]
pub extern "C" fn probe_quadtree_range_search(
    head: &[u8],
    nodes: &[u8],
    links: &[u8],
    points: &[u8],
    x: f64,
    y: f64,
    radius: f64,
    coords: &mut [u8],
    payloads: &mut [u8],
    count: &mut u32,
) -> u32
    ensures { SearchesHeld quadtree (Radius (x ∷ y ∷ []) radius (room_for 2 coords.old payloads.old)) (pieces head.now nodes.now links.now points.now) coords.old payloads.old coords.new payloads.new result count.new }
{
    let tree = Pieces {
        head,
        nodes,
        links,
        points,
    };
    let center = Point2D { x, y };
    let found = search::range_search::<Rectangle>(&tree, center, radius, coords, payloads);
    tell(found, count)
}

#[unsafe(no_mangle)]
pub extern "C" fn probe_quadtree_range_search_bbox(
    head: &[u8],
    nodes: &[u8],
    links: &[u8],
    points: &[u8],
    x: f64,
    y: f64,
    width: f64,
    height: f64,
    coords: &mut [u8],
    payloads: &mut [u8],
    count: &mut u32,
) -> u32
    ensures { SearchesHeld quadtree (Box (side x width ∷ side y height ∷ []) (room_for 2 coords.old payloads.old)) (pieces head.now nodes.now links.now points.now) coords.old payloads.old coords.new payloads.new result count.new }
{
    let tree = Pieces {
        head,
        nodes,
        links,
        points,
    };
    let query = Rectangle {
        x,
        y,
        width,
        height,
    };
    let found = search::range_search_bbox(&tree, query, coords, payloads);
    tell(found, count)
}

#[unsafe(no_mangle)]
pub extern "C" fn probe_quadtree_knn_search(
    head: &[u8],
    nodes: &[u8],
    links: &[u8],
    points: &[u8],
    x: f64,
    y: f64,
    k: u32,
    coords: &mut [u8],
    payloads: &mut [u8],
    count: &mut u32,
) -> u32
    ensures { SearchesHeld quadtree (Nearest (x ∷ y ∷ []) k (room_for 2 coords.old payloads.old)) (pieces head.now nodes.now links.now points.now) coords.old payloads.old coords.new payloads.new result count.new }
{
    let tree = Pieces {
        head,
        nodes,
        links,
        points,
    };
    let target = Point2D { x, y };
    let found = search::knn_search::<Rectangle>(&tree, target, k, coords, payloads);
    tell(found, count)
}
