// What the boxes of both trees have in common, and their points: a box with its point is all that tells the two trees apart.
ghost use Rattle.std.specs.Prelude.{◌≡◌, List, Float};
ghost use Rattle.floats.proofs.Theorems.{F64};
ghost use Rattle.model.specs.Soundness.{All};
ghost use Rattle.model.proofs.Inside.{F64Side};
ghost use Rattle.model.specs.Boxes.{Side, inside, meets, same_place, route, part, squared, node_distance};

// A point, as the model's list of its coordinates.
pub trait Place: Copy {
    ghost place: { Self → List Float };

    // Says no more than that the coordinates are numbers of f64: the code has no others.
    fn numbers(self)
        ensures { All F64 (place self) };

    // Kept: a method and no derived `==`, whose contract would not name `same_place` of the model.
    // Whether all coordinates are equal as floats.
    fn same(self, other: Self) -> bool
        ensures { result ≡ same_place (place self) (place other) };

    fn distance_sq(self, other: Self) -> f64
        ensures { result ≡ squared (place self) (place other) };
}

// A box, as the model's list of its sides.
pub trait Region: Copy {
    type Point: Place;

    ghost sides: { Self → List Side };

    // Says no more than that the corners and extents are numbers of f64.
    fn numbers(self)
        ensures { All F64Side (sides self) };

    fn contains(self, point: Self::Point) -> bool
        ensures { result ≡ inside (sides self) (Self.Point.place point) };

    fn intersects(self, other: Self) -> bool
        ensures { result ≡ meets (sides self) (sides other) };

    // The number of the child that a point goes to: bit 0 is the high side of x, bit 1 of y, bit 2 of z.
    fn child_index(self, point: Self::Point) -> usize
        ensures { result ≡ route (sides self) (Self.Point.place point) };

    // The child with the number i, of which only as many bits count as there are axes.
    fn child(self, i: usize) -> Self
        ensures { sides result ≡ part (sides self) i };

    // The axis distances, squared and added: no more than the squared distance of any finite point inside, for a centre without NaN.
    fn min_distance_sq(self, point: Self::Point) -> f64
        ensures { result ≡ node_distance (sides self) (Self.Point.place point) };
}
