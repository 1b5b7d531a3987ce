// The octree's kind.
ghost use Rattle.model.specs.Calls.{octree};
ghost use Rattle.model.proofs.Calls.{octree_regular};
ghost use Rattle.std.specs.Prelude.{refl};
ghost use Rattle.std.proofs.Common.{arith};

use crate::kind::Tree;
use axis::Side;
use geometry::space::{Cube, Point3D};
use sound::accepts_side;
use words::{get_float, put_float};

// Kept: each axis spelt out, as in the other kind, since the fields of boxes and points have names of their own.
impl Tree for Cube {
    ghost kind = { octree };

    ghost groups = { 40 };

    fn axes() -> u8 {
        3
    }

    fn ways() -> u8 {
        8
    }

    fn rows() -> u8 {
        40
    }

    // Child order.
    fn order() -> &'static [u8] {
        &[0, 1, 2, 3, 4, 5, 6, 7]
    }

    fn point(x: f64, y: f64, z: f64) -> Point3D {
        Point3D { x, y, z }
    }

    fn region(corner: Point3D, extent: Point3D) -> Cube {
        Cube {
            x: corner.x,
            y: corner.y,
            z: corner.z,
            width: extent.x,
            height: extent.y,
            depth: extent.z,
        }
    }

    fn corner(self) -> Point3D {
        Point3D {
            x: self.x,
            y: self.y,
            z: self.z,
        }
    }

    fn extent(self) -> Point3D {
        Point3D {
            x: self.width,
            y: self.height,
            z: self.depth,
        }
    }

    fn accepts(self) -> bool {
        let x = accepts_side(Side {
            corner: self.x,
            extent: self.width,
        });
        let y = accepts_side(Side {
            corner: self.y,
            extent: self.height,
        });
        x & (y
            & accepts_side(Side {
                corner: self.z,
                extent: self.depth,
            }))
    }

    fn read(t: &[u8], i: usize) -> Point3D {
        let x = get_float(t, i);
        let y = get_float(t, i.saturating_add(1));
        let z = get_float(t, i.saturating_add(2));
        Point3D { x, y, z }
    }

    fn write(point: Point3D, t: &mut [u8], i: usize) {
        put_float(t, i, point.x);
        put_float(t, i.saturating_add(1), point.y);
        put_float(t, i.saturating_add(2), point.z);
    }

    ghost named = { record { roomy = refl; few = Prim.omega arith; low = Prim.omega arith } };

    ghost regular = { octree_regular };

    ghost few_ways = { Prim.omega arith };

    ghost few_groups = { Prim.omega arith };

    ghost each_side = { λ b. refl };

    ghost each_axis = { λ p. refl };
}
