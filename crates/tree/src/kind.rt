// What tells one tree from the other. A box stands for its tree: `Rectangle` for the quadtree, `Cube` for the octree.
ghost use Rattle.std.specs.Prelude.{◌≡◌, ◌≤◌, ℕ, [], ◌∷◌, length, take};
ghost use Rattle.model.specs.Boxes.{acceptable};
ghost use Rattle.model.specs.Calls.{Kind, ways};
ghost use Rattle.model.specs.Soundness.{All};
ghost use Rattle.model.proofs.Calls.{Regular};
ghost use Rattle.model.proofs.Inside.{F64Side};
ghost use Rattle.words.specs.Words.{pairs, words};
ghost use Rattle.trees.specs.Points.{floats};
ghost use Rattle.trees.proofs.Creates.{Named};
ghost use Rattle.trees.proofs.Puts.{put_floats};
ghost use Rattle.tree.specs.Sides.{boxed, corners, extents};

use geometry::region::{Place, Region};

pub trait Tree: Region {
    ghost kind: { Kind };

    // How many groups of children there are.
    ghost groups: { ℕ };

    fn axes() -> u8
        ensures { result ≡ kind.axes };

    fn ways() -> u8
        ensures { result ≡ ways kind };

    fn rows() -> u8
        ensures { result ≡ groups };

    // The order in which a merge joins the lists of children.
    fn order() -> &'static [u8]
        ensures { result.now ≡ kind.order };

    // The point of these numbers, of which it takes as many as it has axes.
    fn point(x: f64, y: f64, z: f64) -> Self::Point
        ensures { Self.Point.place result ≡ take kind.axes (x ∷ y ∷ z ∷ []) };

    // The box from a corner, with an extent on each axis.
    fn region(corner: Self::Point, extent: Self::Point) -> Self
        ensures { Self.sides result ≡ boxed (Self.Point.place corner) (Self.Point.place extent) };

    fn corner(self) -> Self::Point
        ensures { Self.Point.place result ≡ corners (Self.sides self) };

    fn extent(self) -> Self::Point
        ensures { Self.Point.place result ≡ extents (Self.sides self) };

    // Whether a box can be a boundary.
    fn accepts(self) -> bool
        ensures value { result ≡ acceptable (Self.sides self) }
        ensures numbers { All F64Side (Self.sides self) };

    // The point of the floats from number i on; a float that is not there is 0.
    fn read(t: &[u8], i: usize) -> Self::Point
        ensures { Self.Point.place result ≡ floats kind.axes (pairs (words t.now)) i };

    // Writes the numbers of a point from float number i on, as far as these are there.
    fn write(point: Self::Point, t: &mut [u8], i: usize)
        ensures { words t.new ≡ put_floats (Self.Point.place point) (words t.old) i };

    // What the laws of trees ask of a kind.
    ghost named: { Named kind groups };

    ghost regular: { Regular kind };

    ghost few_ways: { ways kind ≤ 8 };

    ghost few_groups: { groups ≤ 85 };

    ghost each_side: { (b : Self) → length (Self.sides b) ≡ kind.axes };

    ghost each_axis: { (p : Self.Point) → length (Self.Point.place p) ≡ kind.axes };
}
