// Three axes: the cube and the point of the octree.
ghost use Rattle.std.specs.Prelude.{◌≡◌};
ghost use Rattle.model.specs.Boxes.{side};
ghost use Rattle.geometry.specs.Sides.{sides3, place3};

use crate::region::{Place, Region};
use axis::Side;

// Kept: each axis by a field of its own, here and in the other box, as the Rust names them and as C lays them out.
#[repr(C)]
#[derive(Clone, Copy)]
pub struct Point3D {
    pub x: f64,
    pub y: f64,
    pub z: f64,
}

#[repr(C)]
#[derive(Clone, Copy)]
pub struct Cube {
    pub x: f64,
    pub y: f64,
    pub z: f64,
    pub width: f64,
    pub height: f64,
    pub depth: f64,
}

impl Cube {
    fn x_side(self) -> Side
        ensures { side result.corner result.extent ≡ side self.x self.width }
    {
        Side {
            corner: self.x,
            extent: self.width,
        }
    }

    fn y_side(self) -> Side
        ensures { side result.corner result.extent ≡ side self.y self.height }
    {
        Side {
            corner: self.y,
            extent: self.height,
        }
    }

    fn z_side(self) -> Side
        ensures { side result.corner result.extent ≡ side self.z self.depth }
    {
        Side {
            corner: self.z,
            extent: self.depth,
        }
    }
}

impl Place for Point3D {
    ghost place = { place3 };

    fn numbers(self) {}

    // Whether all coordinates are equal as floats.
    fn same(self, other: Point3D) -> bool {
        (self.x == other.x) & ((self.y == other.y) & (self.z == other.z))
    }

    fn distance_sq(self, other: Point3D) -> f64 {
        let dx = self.x - other.x;
        let dy = self.y - other.y;
        let dz = self.z - other.z;
        dx * dx + dy * dy + dz * dz
    }
}

impl Region for Cube {
    type Point = Point3D;

    ghost sides = { sides3 };

    fn numbers(self) {}

    fn contains(self, point: Point3D) -> bool {
        self.x_side().holds(point.x) & (self.y_side().holds(point.y) & self.z_side().holds(point.z))
    }

    fn intersects(self, other: Cube) -> bool {
        self.x_side().touches(other.x_side())
            & (self.y_side().touches(other.y_side()) & self.z_side().touches(other.z_side()))
    }

    // The number of the octant that a point goes to: bit 0 is the high side of x, bit 1 of y, bit 2 of z.
    fn child_index(self, point: Point3D) -> usize {
        let x = self.x_side().turn(point.x);
        let y = self.y_side().turn(point.y);
        let z = self.z_side().turn(point.z);
        x + 2 * (y + 2 * z)
    }

    // The octant with the number i, of which only the three lowest bits count.
    #[inline(always)]
    fn child(self, i: usize) -> Cube {
        let x = self.x_side().half(i % 2 == 1);
        let y = self.y_side().half(i / 2 % 2 == 1);
        let z = self.z_side().half(i / 2 / 2 % 2 == 1);
        Cube {
            x: x.corner,
            y: y.corner,
            z: z.corner,
            width: x.extent,
            height: y.extent,
            depth: z.extent,
        }
    }

    // The axis distances, squared and added: no more than the squared distance of any finite point inside, for a centre without NaN.
    fn min_distance_sq(self, point: Point3D) -> f64 {
        let dx = self.x_side().distance(point.x);
        let dy = self.y_side().distance(point.y);
        let dz = self.z_side().distance(point.z);
        dx * dx + dy * dy + dz * dz
    }
}
