// What is read from the pieces of either tree without looking at a coordinate: their lengths, the capacity, how many points are held, a payload; and the answer of a creation.
// Each contract is over any kind of tree or any number of axes.
#![tactic(auto)]

ghost use Rattle.std.specs.Prelude.{◌≡◌, List, ℕ, ◌+◌, ◌*◌, ◌<◌};
ghost use Rattle.words.specs.Words.{words};
ghost use Rattle.model.specs.Calls.{IsEmpty, Kind, Len};
ghost use Rattle.trees.specs.Points.{point_at};
ghost use Rattle.trees.specs.Pieces.{AsksHeld, capacity_of, pieces};
ghost use Rattle.trees.proofs.Heads.{Measured};
ghost use Rattle.model.specs.Calls as Calls;
ghost use Rattle.pieces.specs.Creations.{creation_of};
ghost use Rattle.pieces.specs.Replies.{count_in, figure, figure_in, number_in, reply_of};
ghost use Rattle.pieces.specs.Views.{seen};

use pool::count;
use words::get;

// Why a call is refused.
#[derive(Clone, Copy, Debug, PartialEq, Eq)]
pub enum Refusal {
    Outside,
    Absent,
    NoCapacity,
    BadBoundary,
    Full,
    NoNodes,
    NoRoom,
    Unsound,
    NotUnderstood,
    NoTree,
}

impl From<Refusal> for u32 {
    ghost from_gives = { λ refusal number. number ≡ Calls.number (reply_of refusal) };

    #[tactic(auto, unfolding(model::specs::Calls::number))]
    fn from(refusal: Refusal) -> u32 {
        match refusal {
            Refusal::Outside => 1,
            Refusal::Absent => 2,
            Refusal::NoCapacity => 3,
            Refusal::BadBoundary => 4,
            Refusal::Full => 5,
            Refusal::NoNodes => 6,
            Refusal::NoRoom => 7,
            Refusal::Unsound => 8,
            Refusal::NotUnderstood => 9,
            Refusal::NoTree => 10,
        }
    }
}

// The four pieces of a tree, lent for reading.
#[derive(Clone, Copy)]
pub struct Pieces<'a> {
    pub head: &'a [u8],
    pub nodes: &'a [u8],
    pub links: &'a [u8],
    pub points: &'a [u8],
}

// Whether all pieces have the lengths of a tree with so many axes and room for so many groups of children.
pub fn fits(axes: u8, ways: u8, rows: u8, tree: &Pieces<'_>) -> bool
    ensures { Measured axes ways rows (seen tree.now) result }
{
    let a = axes as usize;
    let w = ways as usize;
    let n = rows as usize;
    (tree.head.len() == 16 * a + 8)
        & (tree.nodes.len() == 16 * (w * n + w))
        & (tree.links.len() == 2052)
        & (tree.points.len() == 4104 * (a + 1))
}

pub fn capacity(axes: u8, head: &[u8]) -> u32
    ensures { result ≡ capacity_of axes (words head.now) }
{
    get(head, 4 * (axes as usize))
}

pub fn len(nodes: &[u8]) -> u32
    ensures { (k : Kind) (h x p : List ℕ) → AsksHeld k Len (pieces h nodes.now x p) 0 result }
{
    count(nodes, 1)
}

pub fn is_empty(nodes: &[u8]) -> bool
    ensures { (k : Kind) (h x p : List ℕ) → AsksHeld k IsEmpty (pieces h nodes.now x p) 0 (figure result) }
{
    let held = count(nodes, 1);
    held == 0
}

// The number of the first float of place p.
pub fn base(axes: u8, p: u32) -> usize
    ensures value { result ≡ (axes + 1) * p }
    ensures near { result < 1103806595072 }
{
    (axes as usize) * (p as usize) + (p as usize)
}

pub fn payload(axes: u8, points: &[u8], p: u32) -> u32
    ensures { result ≡ (point_at axes (words points.now) p).payload }
{
    let from = base(axes, p);
    get(points, 2 * from + 2 * (axes as usize))
}

// Decides a creation before anything is written: the capacity of the tree that is to be made, or the refusal.
#[tactic(auto, unfolding(crate::specs::Creations::creation_of))]
pub fn decide(acceptable: bool, capacity: u32) -> Result<u32, Refusal>
    ensures { result ≡ creation_of acceptable capacity }
{
    if capacity == 0 {
        return Err(Refusal::NoCapacity);
    }
    if !acceptable {
        return Err(Refusal::BadBoundary);
    }
    Ok(capacity)
}

// The reply number of an answer.
#[tactic(auto, unfolding(model::specs::Calls::number))]
pub fn reply(answer: Result<(), Refusal>) -> u32
    ensures { result ≡ number_in answer }
{
    match answer {
        Ok(()) => 0,
        Err(refusal) => u32::from(refusal),
    }
}

// Hands over the count of an answer, and returns its reply number.
#[tactic(auto, unfolding(model::specs::Calls::number))]
pub fn tell(answer: Result<u32, Refusal>, count: &mut u32) -> u32
    ensures reply { result ≡ number_in answer }
    ensures figure { count.new ≡ count_in answer }
{
    match answer {
        Ok(n) => {
            *count = n;
            0
        }
        Err(refusal) => {
            *count = 0;
            u32::from(refusal)
        }
    }
}

// Hands over a yes as 1 and a no as 0, and returns the reply number.
#[tactic(auto, unfolding(model::specs::Calls::number))]
pub fn tell_yes(answer: Result<bool, Refusal>, yes: &mut u32) -> u32
    ensures reply { result ≡ number_in answer }
    ensures figure { yes.new ≡ figure_in answer }
{
    match answer {
        Ok(said) => {
            *yes = u32::from(said);
            0
        }
        Err(refusal) => {
            *yes = 0;
            u32::from(refusal)
        }
    }
}
