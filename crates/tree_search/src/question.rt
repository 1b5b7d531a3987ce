// What a search asks for, as one walk knows it: which boxes can hold such points, and which points are asked for.
ghost use Rattle.std.specs.Prelude.{◌≡◌, Bool, List, Float};
ghost use Rattle.model.specs.Boxes as boxes;
ghost use Rattle.model.specs.Boxes.{Side, inside};
ghost use Rattle.tree_search.specs.Questions.{near, within};

use geometry::region::{Place, Region};
use tree::kind::Tree;

pub trait Question<R: Tree>: Copy {
    ghost meets: { Self → List Side → Bool };

    ghost takes: { Self → List Float → Bool };

    // Whether a node with this box can hold a point that is asked for.
    fn reaches(self, bounds: R) -> bool
        ensures { result ≡ meets self (R.sides bounds) };

    // Whether a point is asked for.
    fn asks(self, point: R::Point) -> bool
        ensures { result ≡ takes self (R.Point.place point) };
}

// The points within a squared radius.
#[derive(Clone, Copy)]
pub struct Within<P> {
    pub center: P,
    pub limit: f64,
}

impl<R: Tree> Question<R> for Within<R::Point> {
    ghost meets = { λ q. near (R.Point.place q.center) q.limit };

    ghost takes = { λ q. within (R.Point.place q.center) q.limit };

    fn reaches(self, bounds: R) -> bool {
        !(bounds.min_distance_sq(self.center) > self.limit)
    }

    fn asks(self, point: R::Point) -> bool {
        point.distance_sq(self.center) <= self.limit
    }
}

// The points in a box.
#[derive(Clone, Copy)]
pub struct Inside<R> {
    pub query: R,
}

impl<R: Tree> Question<R> for Inside<R> {
    ghost meets = { λ q b. boxes.meets b (R.sides q.query) };

    ghost takes = { λ q. inside (R.sides q.query) };

    fn reaches(self, bounds: R) -> bool {
        bounds.intersects(self.query)
    }

    fn asks(self, point: R::Point) -> bool {
        self.query.contains(point)
    }
}
