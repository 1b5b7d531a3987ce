// The searches: range_search, range_search_bbox and knn_search of the Rust. They find places first, and hand the points over if all of them fit.
ghost use Rattle.std.specs.Prelude.{map, min, take};
ghost use Rattle.words.specs.Words.{words};
ghost use Rattle.model.specs.Calls.{Box, Nearest, Radius};
ghost use Rattle.pieces.specs.Replies.{count_in, number_in};
ghost use Rattle.pieces.specs.Views.{seen};
ghost use Rattle.trees.specs.Handed.{Handed};
ghost use Rattle.trees.specs.Points.{point_at};
ghost use Rattle.trees.specs.Pieces.{SearchesHeld, room_for};

use answers::answer;
use geometry::region::{Place, Region};
use knn::Table;
use pieces::{Pieces, Refusal};
use tree::head::boundary;
use tree::kind::Tree;
use tree::place::Node;
use tree_search::nearest::knn_search_helper;
use tree_search::question::{Inside, Within};
use tree_search::search::collect;

// Hands over the points of the first n places found, if all of them fit.
fn hand_over<R: Tree>(
    points: &[u8],
    found: &[u32],
    n: usize,
    coords: &mut [u8],
    payloads: &mut [u8],
) -> Result<u32, Refusal>
    ensures { Handed (room_for R.kind.axes coords.old payloads.old) (map (point_at R.kind.axes (words points.now)) (take (min n 512) found.now)) coords.old payloads.old coords.new payloads.new (number_in result) (count_in result) }
{
    answer(R::axes(), points, found, n, coords, payloads)
}

pub fn range_search<R: Tree>(
    tree: &Pieces<'_>,
    center: R::Point,
    radius: f64,
    coords: &mut [u8],
    payloads: &mut [u8],
) -> Result<u32, Refusal>
    ensures { SearchesHeld R.kind (Radius (R.Point.place center) radius (room_for R.kind.axes coords.old payloads.old)) (seen tree.now) coords.old payloads.old coords.new payloads.new (number_in result) (count_in result) }
{
    if radius < 0.0 {
        return Ok(0);
    }
    let question = Within {
        center,
        limit: radius * radius,
    };
    center.numbers();
    let root = Node {
        index: 1,
        bounds: boundary::<R>(tree.head),
        levels: 32,
    };
    let mut found: [u32; 512] = [0; 512];
    let n = collect(tree, root, question, &mut found, 0);
    hand_over::<R>(tree.points, &found, n, coords, payloads)
}

pub fn range_search_bbox<R: Tree>(
    tree: &Pieces<'_>,
    query: R,
    coords: &mut [u8],
    payloads: &mut [u8],
) -> Result<u32, Refusal>
    ensures { SearchesHeld R.kind (Box (R.sides query) (room_for R.kind.axes coords.old payloads.old)) (seen tree.now) coords.old payloads.old coords.new payloads.new (number_in result) (count_in result) }
{
    query.numbers();
    let root = Node {
        index: 1,
        bounds: boundary::<R>(tree.head),
        levels: 32,
    };
    let mut found: [u32; 512] = [0; 512];
    let n = collect(tree, root, Inside { query }, &mut found, 0);
    hand_over::<R>(tree.points, &found, n, coords, payloads)
}

// The table needs room for one at least, so that nothing is asked of it for k = 0.
pub fn knn_search<R: Tree>(
    tree: &Pieces<'_>,
    target: R::Point,
    k: u32,
    coords: &mut [u8],
    payloads: &mut [u8],
) -> Result<u32, Refusal>
    ensures { SearchesHeld R.kind (Nearest (R.Point.place target) k (room_for R.kind.axes coords.old payloads.old)) (seen tree.now) coords.old payloads.old coords.new payloads.new (number_in result) (count_in result) }
{
    if k == 0 {
        return Ok(0);
    }
    target.numbers();
    let root = Node {
        index: 1,
        bounds: boundary::<R>(tree.head),
        levels: 32,
    };
    let mut dist: [f64; 512] = [0.0; 512];
    let mut item: [u32; 512] = [0; 512];
    let mut table = Table {
        dist: &mut dist,
        item: &mut item,
        count: 0,
        k: k as usize,
    };
    knn_search_helper(tree, root, target, &mut table);
    let n = table.count;
    let found = &mut *table.item;
    hand_over::<R>(tree.points, found, n, coords, payloads)
}
