// Two axes: the rectangle and the point of the quadtree.
ghost use Rattle.std.specs.Prelude.{◌≡◌};
ghost use Rattle.model.specs.Boxes.{side};
ghost use Rattle.geometry.specs.Sides.{sides2, place2};

use crate::region::{Place, Region};
use axis::Side;

// Kept: each axis by a field of its own, here and in the other box, as the Rust names them and as C lays them out.
#[repr(C)]
#[derive(Clone, Copy)]
pub struct Point2D {
    pub x: f64,
    pub y: f64,
}

#[repr(C)]
#[derive(Clone, Copy)]
pub struct Rectangle {
    pub x: f64,
    pub y: f64,
    pub width: f64,
    pub height: f64,
}

impl Rectangle {
    fn x_side(self) -> Side
        ensures { side result.corner result.extent ≡ side self.x self.width }
    {
        Side {
            corner: self.x,
            extent: self.width,
        }
    }

    fn y_side(self) -> Side
        ensures { side result.corner result.extent ≡ side self.y self.height }
    {
        Side {
            corner: self.y,
            extent: self.height,
        }
    }
}

impl Place for Point2D {
    ghost place = { place2 };

    fn numbers(self) {}

    // Whether all coordinates are equal as floats.
    fn same(self, other: Point2D) -> bool {
        (self.x == other.x) & (self.y == other.y)
    }

    fn distance_sq(self, other: Point2D) -> f64 {
        let dx = self.x - other.x;
        let dy = self.y - other.y;
        dx * dx + dy * dy
    }
}

impl Region for Rectangle {
    type Point = Point2D;

    ghost sides = { sides2 };

    fn numbers(self) {}

    fn contains(self, point: Point2D) -> bool {
        self.x_side().holds(point.x) & self.y_side().holds(point.y)
    }

    fn intersects(self, other: Rectangle) -> bool {
        self.x_side().touches(other.x_side()) & self.y_side().touches(other.y_side())
    }

    // The number of the quadrant that a point goes to: bit 0 is east, bit 1 is south.
    fn child_index(self, point: Point2D) -> usize {
        let east = self.x_side().turn(point.x);
        let south = self.y_side().turn(point.y);
        east + 2 * south
    }

    // The quadrant with the number i, of which only the two lowest bits count.
    #[inline(always)]
    fn child(self, i: usize) -> Rectangle {
        let east = self.x_side().half(i % 2 == 1);
        let south = self.y_side().half(i / 2 % 2 == 1);
        Rectangle {
            x: east.corner,
            y: south.corner,
            width: east.extent,
            height: south.extent,
        }
    }

    // The axis distances, squared and added: no more than the squared distance of any finite point inside, for a centre without NaN.
    fn min_distance_sq(self, point: Point2D) -> f64 {
        let dx = self.x_side().distance(point.x);
        let dy = self.y_side().distance(point.y);
        dx * dx + dy * dy
    }
}
