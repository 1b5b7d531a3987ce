// What the head of a tree says, and whether pieces have the lengths of one.
ghost use Rattle.std.specs.Prelude.{◌≡◌};
ghost use Rattle.words.specs.Words.{words};
ghost use Rattle.pieces.specs.Views.{seen};
ghost use Rattle.trees.specs.Pieces.{Decides, Fits, boundary_of, capacity_of};

use crate::kind::Tree;
use geometry::region::Region;
use pieces::Pieces;

pub fn boundary<R: Tree>(head: &[u8]) -> R
    ensures { R.sides result ≡ boundary_of R.kind.axes (words head.now) }
{
    let corner = R::read(head, 0);
    let extent = R::read(head, R::axes() as usize);
    R::region(corner, extent)
}

pub fn capacity<R: Tree>(head: &[u8]) -> u32
    ensures { result ≡ capacity_of R.kind.axes (words head.now) }
{
    pieces::capacity(R::axes(), head)
}

// Whether pieces have the lengths of a tree.
pub fn fits<R: Tree>(tree: &Pieces<'_>) -> bool
    ensures { Decides result (Fits R.kind (seen tree.now)) }
{
    pieces::fits(R::axes(), R::ways(), R::rows(), tree)
}
