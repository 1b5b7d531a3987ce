// Where the points of a node may lie: bounds on each axis, which are narrowed from those of the parent.
ghost use Rattle.std.specs.Prelude.{◌≡◌, List};
ghost use Rattle.std.specs.Float.{nan};
ghost use Rattle.model.specs.Boxes.{far, mid, side};
ghost use Rattle.trees.proofs.Areas as areas;
ghost use Rattle.trees.proofs.Areas.{halved, keeps, lies, narrowed, whole};
ghost use Rattle.tree_sound_leaves.specs.Areas.{area2, area3, bound_of};

use axis::Side;
use geometry::plane::{Point2D, Rectangle};
use geometry::region::{Place, Region};
use geometry::space::{Cube, Point3D};
use sound::{low_half, no_top, top_half};
use tree::kind::Tree;

// The bounds on one axis: at least low, at most the boundary's edge, and not at or above top.
#[derive(Clone, Copy)]
pub struct Bound {
    pub low: f64,
    pub top: f64,
    pub edge: f64,
}

impl Bound {
    // Those of a boundary's side: only the edge bounds it from above.
    #[tactic(auto, unfolding(model::specs::Boxes::far))]
    fn whole(corner: f64, extent: f64) -> Bound
        ensures { bound_of result ≡ record { low = corner; top = nan; edge = far (side corner extent) } }
    {
        Bound {
            low: corner,
            top: no_top(),
            edge: corner + extent,
        }
    }

    // Those of the high or the low half of a side.
    #[tactic(auto, unfolding(trees::proofs::Areas::halved))]
    fn half(self, high: bool, corner: f64, extent: f64) -> Bound
        ensures { bound_of result ≡ halved high (mid (side corner extent)) (bound_of self) }
    {
        let whole = Side { corner, extent };
        Bound {
            low: low_half(high, whole, self.low),
            top: top_half(high, whole, self.top),
            edge: self.edge,
        }
    }

    #[tactic(auto, unfolding(trees::proofs::Areas::keeps))]
    fn keeps(self, v: f64) -> bool
        ensures { result ≡ keeps (bound_of self) v }
    {
        (self.low <= v) & (v <= self.edge) & !(self.top <= v)
    }
}

#[derive(Clone, Copy)]
pub struct Area2D {
    pub x: Bound,
    pub y: Bound,
}

#[derive(Clone, Copy)]
pub struct Area3D {
    pub x: Bound,
    pub y: Bound,
    pub z: Bound,
}

pub trait Bounded: Tree {
    type Area: Copy;

    ghost bounds: { Self.Area → List areas.Bound };

    // The area of a boundary.
    fn whole(self) -> Self::Area
        ensures { bounds result ≡ whole (Self.sides self) };

    // The area of child c, from that of a node with this box.
    fn narrowed(self, area: Self::Area, c: u8) -> Self::Area
        ensures { bounds result ≡ narrowed (Self.sides self) (bounds area) c };

    // Whether a point lies in an area.
    fn lies(area: Self::Area, at: Self::Point) -> bool
        ensures { result ≡ lies (bounds area) (Self.Point.place at) };
}

impl Bounded for Rectangle {
    type Area = Area2D;

    ghost bounds = { area2 };

    #[tactic(auto, unfolding(trees::proofs::Areas::whole))]
    fn whole(self) -> Area2D {
        Area2D {
            x: Bound::whole(self.x, self.width),
            y: Bound::whole(self.y, self.height),
        }
    }

    #[tactic(auto, unfolding(trees::proofs::Areas::narrowed))]
    fn narrowed(self, area: Area2D, c: u8) -> Area2D {
        Area2D {
            x: area.x.half(c % 2 == 1, self.x, self.width),
            y: area.y.half(c / 2 % 2 == 1, self.y, self.height),
        }
    }

    #[tactic(auto, unfolding(trees::proofs::Areas::lies, model::specs::Boxes::on_each))]
    fn lies(area: Area2D, at: Point2D) -> bool {
        area.x.keeps(at.x) & area.y.keeps(at.y)
    }
}

impl Bounded for Cube {
    type Area = Area3D;

    ghost bounds = { area3 };

    #[tactic(auto, unfolding(trees::proofs::Areas::whole))]
    fn whole(self) -> Area3D {
        Area3D {
            x: Bound::whole(self.x, self.width),
            y: Bound::whole(self.y, self.height),
            z: Bound::whole(self.z, self.depth),
        }
    }

    #[tactic(auto, unfolding(trees::proofs::Areas::narrowed))]
    fn narrowed(self, area: Area3D, c: u8) -> Area3D {
        Area3D {
            x: area.x.half(c % 2 == 1, self.x, self.width),
            y: area.y.half(c / 2 % 2 == 1, self.y, self.height),
            z: area.z.half(c / 2 / 2 % 2 == 1, self.z, self.depth),
        }
    }

    #[tactic(auto, unfolding(trees::proofs::Areas::lies, model::specs::Boxes::on_each))]
    fn lies(area: Area3D, at: Point3D) -> bool {
        area.x.keeps(at.x) & (area.y.keeps(at.y) & area.z.keeps(at.z))
    }
}
