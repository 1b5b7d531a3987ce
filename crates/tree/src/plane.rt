// The quadtree's kind.
ghost use Rattle.model.specs.Calls.{quadtree};
ghost use Rattle.model.proofs.Calls.{quadtree_regular};
ghost use Rattle.std.specs.Prelude.{refl};
ghost use Rattle.std.proofs.Common.{arith};

use crate::kind::Tree;
use axis::Side;
use geometry::plane::{Point2D, Rectangle};
use sound::accepts_side;
use words::{get_float, put_float};

// Kept: each axis spelt out, as in the other kind, since the fields of boxes and points have names of their own.
impl Tree for Rectangle {
    ghost kind = { quadtree };

    ghost groups = { 85 };

    fn axes() -> u8 {
        2
    }

    fn ways() -> u8 {
        4
    }

    fn rows() -> u8 {
        85
    }

    // NE, NW, SE, SW.
    fn order() -> &'static [u8] {
        &[1, 0, 3, 2]
    }

    fn point(x: f64, y: f64, _z: f64) -> Point2D {
        Point2D { x, y }
    }

    fn region(corner: Point2D, extent: Point2D) -> Rectangle {
        Rectangle {
            x: corner.x,
            y: corner.y,
            width: extent.x,
            height: extent.y,
        }
    }

    fn corner(self) -> Point2D {
        Point2D {
            x: self.x,
            y: self.y,
        }
    }

    fn extent(self) -> Point2D {
        Point2D {
            x: self.width,
            y: self.height,
        }
    }

    fn accepts(self) -> bool {
        let x = accepts_side(Side {
            corner: self.x,
            extent: self.width,
        });
        let y = accepts_side(Side {
            corner: self.y,
            extent: self.height,
        });
        x & y
    }

    fn read(t: &[u8], i: usize) -> Point2D {
        let x = get_float(t, i);
        let y = get_float(t, i.saturating_add(1));
        Point2D { x, y }
    }

    fn write(point: Point2D, t: &mut [u8], i: usize) {
        put_float(t, i, point.x);
        put_float(t, i.saturating_add(1), point.y);
    }

    ghost named = { record { roomy = refl; few = Prim.omega arith; low = Prim.omega arith } };

    ghost regular = { quadtree_regular };

    ghost few_ways = { Prim.omega arith };

    ghost few_groups = { Prim.omega arith };

    ghost each_side = { λ b. refl };

    ghost each_axis = { λ p. refl };
}
