// C entry points for the oracle's runs: each hands its numbers to the function that is compared with the Rust.
#![tactic(auto)]

ghost use Rattle.std.specs.Prelude.{◌≡◌, min, length, take};
ghost use Rattle.std.specs.Float.{binary64};
ghost use Rattle.std.specs.Float.Ieee.{of_bits, to_bits};
ghost use Rattle.floats.specs.Next.{next_up};
ghost use Rattle.floats.specs.Span.{span};
ghost use Rattle.model.specs.Boxes.{mid, axis_distance, inside, meets, same_place, route, part, squared, node_distance, side};
ghost use Rattle.geometry.specs.Sides.{sides2, sides3, place2, place3};
ghost use Rattle.model.specs.Searches.{less};
ghost use Rattle.knn.specs.Candidates.{Written, kept, ByModel, Offered, bar, ordered};

use axis::{Side, span};
use geometry::plane::{Point2D, Rectangle};
use geometry::region::{Place, Region};
use geometry::space::{Cube, Point3D};
use knn_table::Table;

#[unsafe(no_mangle)]
pub extern "C" fn probe_to_bits(x: f64) -> u64
    ensures { result ≡ to_bits binary64 x }
{
    floats::to_bits(x)
}

#[unsafe(no_mangle)]
pub extern "C" fn probe_from_bits(b: u64) -> f64
    ensures { result ≡ of_bits binary64 b }
{
    floats::from_bits(b)
}

#[unsafe(no_mangle)]
pub extern "C" fn probe_next_up(x: f64) -> f64
    ensures { result ≡ next_up binary64 x }
{
    floats::next_up(x)
}

#[unsafe(no_mangle)]
pub extern "C" fn probe_span(lo: f64, hi: f64) -> f64
    ensures { result ≡ span binary64 lo hi }
{
    span(lo, hi)
}

#[unsafe(no_mangle)]
pub extern "C" fn probe_midplane(corner: f64, extent: f64) -> f64
    ensures { result ≡ mid (side corner extent) }
{
    Side { corner, extent }.midplane()
}

#[unsafe(no_mangle)]
pub extern "C" fn probe_axis_distance(v: f64, lo: f64, len: f64) -> f64
    ensures { result ≡ axis_distance (side lo len) v }
{
    Side {
        corner: lo,
        extent: len,
    }
    .distance(v)
}

#[unsafe(no_mangle)]
pub extern "C" fn probe_contains_2d(r: Rectangle, p: Point2D) -> bool
    ensures { result ≡ inside (sides2 r) (place2 p) }
{
    r.contains(p)
}

#[unsafe(no_mangle)]
pub extern "C" fn probe_contains_3d(c: Cube, p: Point3D) -> bool
    ensures { result ≡ inside (sides3 c) (place3 p) }
{
    c.contains(p)
}

#[unsafe(no_mangle)]
pub extern "C" fn probe_intersects_2d(r: Rectangle, other: Rectangle) -> bool
    ensures { result ≡ meets (sides2 r) (sides2 other) }
{
    r.intersects(other)
}

#[unsafe(no_mangle)]
pub extern "C" fn probe_intersects_3d(c: Cube, other: Cube) -> bool
    ensures { result ≡ meets (sides3 c) (sides3 other) }
{
    c.intersects(other)
}

#[unsafe(no_mangle)]
pub extern "C" fn probe_child_index_2d(r: Rectangle, p: Point2D) -> usize
    ensures { result ≡ route (sides2 r) (place2 p) }
{
    r.child_index(p)
}

#[unsafe(no_mangle)]
pub extern "C" fn probe_child_index_3d(c: Cube, p: Point3D) -> usize
    ensures { result ≡ route (sides3 c) (place3 p) }
{
    c.child_index(p)
}

#[unsafe(no_mangle)]
pub extern "C" fn probe_child_2d(r: Rectangle, i: usize) -> Rectangle
    ensures { sides2 result ≡ part (sides2 r) i }
{
    r.child(i)
}

#[unsafe(no_mangle)]
pub extern "C" fn probe_child_3d(c: Cube, i: usize) -> Cube
    ensures { sides3 result ≡ part (sides3 c) i }
{
    c.child(i)
}

#[unsafe(no_mangle)]
pub extern "C" fn probe_min_distance_sq_2d(r: Rectangle, p: Point2D) -> f64
    ensures { result ≡ node_distance (sides2 r) (place2 p) }
{
    r.min_distance_sq(p)
}

#[unsafe(no_mangle)]
pub extern "C" fn probe_min_distance_sq_3d(c: Cube, p: Point3D) -> f64
    ensures { result ≡ node_distance (sides3 c) (place3 p) }
{
    c.min_distance_sq(p)
}

#[unsafe(no_mangle)]
pub extern "C" fn probe_distance_sq_2d(p: Point2D, other: Point2D) -> f64
    ensures { result ≡ squared (place2 p) (place2 other) }
{
    p.distance_sq(other)
}

#[unsafe(no_mangle)]
pub extern "C" fn probe_distance_sq_3d(p: Point3D, other: Point3D) -> f64
    ensures { result ≡ squared (place3 p) (place3 other) }
{
    p.distance_sq(other)
}

#[unsafe(no_mangle)]
pub extern "C" fn probe_same_2d(p: Point2D, other: Point2D) -> bool
    ensures { result ≡ same_place (place2 p) (place2 other) }
{
    p.same(other)
}

#[unsafe(no_mangle)]
pub extern "C" fn probe_same_3d(p: Point3D, other: Point3D) -> bool
    ensures { result ≡ same_place (place3 p) (place3 other) }
{
    p.same(other)
}

#[unsafe(no_mangle)]
pub extern "C" fn probe_less(x: f64, y: f64) -> bool
    ensures { result ≡ less x y }
{
    knn::less(x, y)
}

#[unsafe(no_mangle)]
pub extern "C" fn probe_worst(dist: &[f64], count: usize, k: usize) -> f64
    ensures { result ≡ bar (min (min k 512) (length dist.now)) (take count dist.now) }
{
    knn::worst(dist, count, k)
}

#[unsafe(no_mangle)]
pub extern "C" fn probe_offer(
    dist: &mut [f64],
    item: &mut [u32],
    count: usize,
    k: usize,
    distance: f64,
    place: u32,
) -> usize
    ensures value { result ≡ length (kept count k distance place dist.old item.old) }
    ensures table { Written (kept count k distance place dist.old item.old) dist.old item.old dist.new item.new }
    ensures model { ByModel count k distance place dist.old item.old dist.new item.new result }
{
    knn::offer(dist, item, count, k, distance, place)
}

#[unsafe(no_mangle)]
pub extern "C" fn probe_offer_to(table: &mut Table, distance: f64, place: u32)
    ensures { Offered table.old.count table.old.k distance place table.old.dist table.old.item table.new.dist table.new.item table.new.count table.new.k }
{
    knn_table::offer_to(table, distance, place);
}

#[unsafe(no_mangle)]
pub extern "C" fn probe_order_children(dist: &mut [f64], item: &mut [u32])
    ensures { Written (ordered dist.old item.old) dist.old item.old dist.new item.new }
{
    knn::order_children(dist, item);
}
