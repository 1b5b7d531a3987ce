// What each command does, and its line.
#![tactic(auto)]

ghost use Rattle.std.specs.Prelude.{true, ◌≡◌, ◌+◌, ◌<◌, ◌≤◌, ℕ, get_or, length, option_map, Some};
ghost use Rattle.model.specs.Calls as calls;
ghost use Rattle.trees.specs.Pieces.{pieces};
ghost use Rattle.pieces.specs.Views.{seen};
ghost use Rattle.replies.specs.Lines.{makes};
ghost use Rattle.replies.specs.Programs.{Answers, IsSame, longest};
ghost use Rattle.commands.specs.Commands.{call_in};

use commands::{Command, Program};
use geometry::region::{Place, Region};
use pieces::{Pieces, Refusal};
use replies::Page;
use tree::kind::Tree;
use tree_create::create;
use tree_insert::insert;
use tree_queries::{ask, search};

// Makes a tree, also where one is held. Says whether one is held then.
// Kept: a flag beside the pieces, here and for `answer`, since the pieces are there also where no tree is held.
fn make<R: Program>(
    bounds: R,
    capacity: u32,
    held: bool,
    head: &mut [u8],
    nodes: &mut [u8],
    links: &mut [u8],
    points: &[u8],
    page: &mut Page<'_>,
) -> bool
    requires { page.old.at + longest R.kind.axes ≤ length page.old.out.now }
    ensures same { IsSame page.old.out page.new.out }
    ensures answers { Answers R.kind (Some (calls.Create (R.sides bounds) capacity)) held (pieces head.old nodes.old links.old points.now) result (pieces head.new nodes.new links.new points.now) page.old.out.now page.old.at page.new.out.now page.new.at }
    ensures within { page.new.at ≤ length page.old.out.now }
{
    let made = create::create(head, nodes, links, points, bounds, capacity);
    page.put_reply(made);
    held | made.is_ok()
}

fn insert<R: Program>(
    at: R::Point,
    payload: u32,
    head: &[u8],
    nodes: &mut [u8],
    links: &mut [u8],
    points: &mut [u8],
    page: &mut Page<'_>,
)
    requires { page.old.at + longest R.kind.axes ≤ length page.old.out.now }
    ensures same { IsSame page.old.out page.new.out }
    ensures answers { Answers R.kind (Some (calls.Insert (record { at = R.Point.place at; payload = payload }))) true (pieces head.now nodes.old links.old points.old) true (pieces head.now nodes.new links.new points.new) page.old.out.now page.old.at page.new.out.now page.new.at }
    ensures within { page.new.at ≤ length page.old.out.now }
{
    let done = insert::insert::<R>(head, nodes, links, points, at, payload);
    page.put_reply(done);
}

fn delete<R: Program>(
    at: R::Point,
    payload: u32,
    head: &[u8],
    nodes: &mut [u8],
    links: &mut [u8],
    points: &[u8],
    page: &mut Page<'_>,
)
    requires { page.old.at + longest R.kind.axes ≤ length page.old.out.now }
    ensures same { IsSame page.old.out page.new.out }
    ensures answers { Answers R.kind (Some (calls.Delete (record { at = R.Point.place at; payload = payload }))) true (pieces head.now nodes.old links.old points.now) true (pieces head.now nodes.new links.new points.now) page.old.out.now page.old.at page.new.out.now page.new.at }
    ensures within { page.new.at ≤ length page.old.out.now }
{
    let done = tree_delete::delete::<R>(head, nodes, links, points, at, payload);
    page.put_reply(done);
}

fn clear<R: Program>(
    head: &[u8],
    nodes: &mut [u8],
    links: &mut [u8],
    points: &[u8],
    page: &mut Page<'_>,
)
    requires { page.old.at + longest R.kind.axes ≤ length page.old.out.now }
    ensures same { IsSame page.old.out page.new.out }
    ensures answers { Answers R.kind (Some calls.Clear) true (pieces head.now nodes.old links.old points.now) true (pieces head.now nodes.new links.new points.now) page.old.out.now page.old.at page.new.out.now page.new.at }
    ensures within { page.new.at ≤ length page.old.out.now }
{
    create::clear::<R>(nodes, links);
    page.put_reply(Ok(()));
}

fn contains<R: Program>(at: R::Point, payload: u32, tree: &Pieces<'_>, page: &mut Page<'_>)
    requires { page.old.at + longest R.kind.axes ≤ length page.old.out.now }
    ensures same { IsSame page.old.out page.new.out }
    ensures answers { Answers R.kind (Some (calls.Ask (calls.Contains (record { at = R.Point.place at; payload = payload })))) true (seen tree.now) true (seen tree.now) page.old.out.now page.old.at page.new.out.now page.new.at }
    ensures within { page.new.at ≤ length page.old.out.now }
{
    let yes = ask::contains::<R>(tree, at, payload);
    page.put_figure(u32::from(yes));
}

fn len<R: Program>(tree: &Pieces<'_>, page: &mut Page<'_>)
    requires { page.old.at + longest R.kind.axes ≤ length page.old.out.now }
    ensures same { IsSame page.old.out page.new.out }
    ensures answers { Answers R.kind (Some (calls.Ask calls.Len)) true (seen tree.now) true (seen tree.now) page.old.out.now page.old.at page.new.out.now page.new.at }
    ensures within { page.new.at ≤ length page.old.out.now }
{
    page.put_figure(pieces::len(tree.nodes));
}

// The answer of a search has room for all points that a tree can hold.
fn range<R: Program>(center: R::Point, radius: f64, tree: &Pieces<'_>, page: &mut Page<'_>)
    requires room { page.old.at + longest R.kind.axes ≤ length page.old.out.now }
    requires bytes { (i : ℕ) → get_or tree.now.points.now i 0 < 256 }
    ensures same { IsSame page.old.out page.new.out }
    ensures answers { Answers R.kind (Some (calls.Ask (calls.Radius (R.Point.place center) radius 512))) true (seen tree.now) true (seen tree.now) page.old.out.now page.old.at page.new.out.now page.new.at }
    ensures within { page.new.at ≤ length page.old.out.now }
{
    let mut coords: [u8; 12288] = [0; 12288];
    let mut marks: [u8; 2048] = [0; 2048];
    let told = search::range_search::<R>(tree, center, radius, &mut coords, &mut marks);
    page.put_told(R::axes(), told, &coords, &marks);
}

fn knn<R: Program>(target: R::Point, k: u32, tree: &Pieces<'_>, page: &mut Page<'_>)
    requires room { page.old.at + longest R.kind.axes ≤ length page.old.out.now }
    requires bytes { (i : ℕ) → get_or tree.now.points.now i 0 < 256 }
    ensures same { IsSame page.old.out page.new.out }
    ensures answers { Answers R.kind (Some (calls.Ask (calls.Nearest (R.Point.place target) k 512))) true (seen tree.now) true (seen tree.now) page.old.out.now page.old.at page.new.out.now page.new.at }
    ensures within { page.new.at ≤ length page.old.out.now }
{
    let mut coords: [u8; 12288] = [0; 12288];
    let mut marks: [u8; 2048] = [0; 2048];
    let told = search::knn_search::<R>(tree, target, k, &mut coords, &mut marks);
    page.put_told(R::axes(), told, &coords, &marks);
}

fn area<R: Program>(query: R, tree: &Pieces<'_>, page: &mut Page<'_>)
    requires room { page.old.at + longest R.kind.axes ≤ length page.old.out.now }
    requires bytes { (i : ℕ) → get_or tree.now.points.now i 0 < 256 }
    ensures same { IsSame page.old.out page.new.out }
    ensures answers { Answers R.kind (Some (calls.Ask (calls.Box (R.sides query) 512))) true (seen tree.now) true (seen tree.now) page.old.out.now page.old.at page.new.out.now page.new.at }
    ensures within { page.new.at ≤ length page.old.out.now }
{
    let mut coords: [u8; 12288] = [0; 12288];
    let mut marks: [u8; 2048] = [0; 2048];
    let told = search::range_search_bbox::<R>(tree, query, &mut coords, &mut marks);
    page.put_told(R::axes(), told, &coords, &marks);
}

// Whether a command makes a tree, so that none need be held.
#[tactic(auto, unfolding(commands::specs::Commands::call_in, replies::specs::Lines::makes))]
fn makes<R: Program>(command: Command<R, R::Point>) -> bool
    ensures { result ≡ makes (call_in R.sides R.Point.place command) }
{
    matches!(command, Command::Create(..))
}

// Answers a command, or a record that is not understood, where there is room for the longest line. Says whether a tree is held then.
pub fn answer<R: Program>(
    command: Option<Command<R, R::Point>>,
    held: bool,
    head: &mut [u8],
    nodes: &mut [u8],
    links: &mut [u8],
    points: &mut [u8],
    page: &mut Page<'_>,
) -> bool
    ensures same { IsSame page.old.out page.new.out }
    ensures answers { page.old.at + longest R.kind.axes ≤ length page.old.out.now → Answers R.kind (option_map (call_in R.sides R.Point.place) command) held (pieces head.old nodes.old links.old points.old) result (pieces head.new nodes.new links.new points.new) page.old.out.now page.old.at page.new.out.now page.new.at }
    ensures full { length page.old.out.now < page.old.at + longest R.kind.axes → (result ≡ held) × (page.new.at ≡ page.old.at) × ((pieces head.new nodes.new links.new points.new) ≡ (pieces head.old nodes.old links.old points.old)) × (page.new.out.now ≡ page.old.out.now) }
    ensures within { page.old.at ≤ length page.old.out.now → page.new.at ≤ length page.old.out.now }
{
    if !page.has_room(R::axes()) {
        return held;
    }
    let Some(command) = command else {
        page.put_reply(Err(Refusal::NotUnderstood));
        return held;
    };
    if !(held | makes(command)) {
        page.put_reply(Err(Refusal::NoTree));
        return held;
    }
    let tree = Pieces {
        head,
        nodes,
        links,
        points,
    };
    match command {
        Command::Create(bounds, capacity) => {
            return make(bounds, capacity, held, head, nodes, links, points, page);
        }
        Command::Insert(at, payload) => insert::<R>(at, payload, head, nodes, links, points, page),
        Command::Delete(at, payload) => delete::<R>(at, payload, head, nodes, links, points, page),
        Command::Contains(at, payload) => contains::<R>(at, payload, &tree, page),
        Command::Range(center, radius) => range::<R>(center, radius, &tree, page),
        Command::Knn(target, k) => knn::<R>(target, k, &tree, page),
        Command::Box(query) => area(query, &tree, page),
        Command::Len => len::<R>(&tree, page),
        Command::Clear => clear::<R>(head, nodes, links, points, page),
    }
    held
}
