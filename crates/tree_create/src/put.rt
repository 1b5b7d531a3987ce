// What is written to a place, and to the head.
ghost use Rattle.std.specs.Prelude.{◌≡◌};
ghost use Rattle.words.specs.Words.{words};
ghost use Rattle.trees.proofs.Puts.{put_head, put_point};
ghost use Rattle.tree.specs.Sides.{corners, extents};

use geometry::region::{Place, Region};
use pieces::base;
use tree::kind::Tree;
use words::put;

// Writes a point and its payload to place p.
pub fn put_point<R: Tree>(points: &mut [u8], p: u32, at: R::Point, mark: u32)
    ensures { words points.new ≡ put_point R.kind.axes (words points.old) p (record { at = R.Point.place at; payload = mark }) }
{
    let axes = R::axes();
    let i = base(axes, p);
    R::write(at, points, i);
    put(points, 2 * i + 2 * (axes as usize), mark);
}

// Writes a boundary and a capacity to the head.
pub fn put_head<R: Tree>(head: &mut [u8], bounds: R, capacity: u32)
    ensures { words head.new ≡ put_head R.kind.axes (words head.old) (corners (R.sides bounds)) (extents (R.sides bounds)) capacity }
{
    let axes = R::axes() as usize;
    R::write(bounds.corner(), head, 0);
    R::write(bounds.extent(), head, axes);
    put(head, 4 * axes, capacity);
}
