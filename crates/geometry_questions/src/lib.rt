// A line as a question: its word, its numbers, and what the geometry answers.
#![tactic(auto)]

ghost use Rattle.std.specs.Prelude.{◌≡◌, drop};
ghost use Rattle.geometry_answers.specs.Shown.{said_in};
ghost use Rattle.geometry_questions.specs.Asked as Asked;

use axis::{Side, span};
use fields::{find, numbers_of};
use geometry::plane::{Point2D, Rectangle};
use geometry::region::{Place, Region};
use geometry::space::{Cube, Point3D};
use geometry_answers::Answer;
use record::Word;

// Two points of three axes.
// Kept: here and below a test for each question; in a `match` on the count and the word the proof has a way to none of them for each byte.
fn pair3(word: &[u8], n: usize, v: [f64; 12]) -> Option<Answer>
    ensures { said_in result ≡ Asked.answer (drop 14 Asked.questions) n word.now v }
{
    let p = Point3D {
        x: v[0],
        y: v[1],
        z: v[2],
    };
    let q = Point3D {
        x: v[3],
        y: v[4],
        z: v[5],
    };
    if (n == 6) & (word == b"squared3".as_slice()) {
        return Some(Answer::Number(p.distance_sq(q)));
    }
    if (n == 6) & (word == b"same3".as_slice()) {
        return Some(Answer::Yes(p.same(q)));
    }
    None
}

// A cube and a point, or two cubes, and otherwise two points.
fn three(word: &[u8], n: usize, v: [f64; 12]) -> Option<Answer>
    ensures { said_in result ≡ Asked.answer (drop 10 Asked.questions) n word.now v }
{
    let a = Cube {
        x: v[0],
        y: v[1],
        z: v[2],
        width: v[3],
        height: v[4],
        depth: v[5],
    };
    let b = Cube {
        x: v[6],
        y: v[7],
        z: v[8],
        width: v[9],
        height: v[10],
        depth: v[11],
    };
    let p = Point3D {
        x: b.x,
        y: b.y,
        z: b.z,
    };
    if (n == 9) & (word == b"inside3".as_slice()) {
        return Some(Answer::Yes(a.contains(p)));
    }
    if (n == 9) & (word == b"route3".as_slice()) {
        return Some(Answer::Child(a.child_index(p)));
    }
    if (n == 9) & (word == b"node3".as_slice()) {
        return Some(Answer::Number(a.min_distance_sq(p)));
    }
    if (n == 12) & (word == b"meets3".as_slice()) {
        return Some(Answer::Yes(a.intersects(b)));
    }
    pair3(word, n, v)
}

// Two points of two axes, and otherwise three axes.
fn pair2(word: &[u8], n: usize, v: [f64; 12]) -> Option<Answer>
    ensures { said_in result ≡ Asked.answer (drop 8 Asked.questions) n word.now v }
{
    let p = Point2D { x: v[0], y: v[1] };
    let q = Point2D { x: v[2], y: v[3] };
    if (n == 4) & (word == b"squared2".as_slice()) {
        return Some(Answer::Number(p.distance_sq(q)));
    }
    if (n == 4) & (word == b"same2".as_slice()) {
        return Some(Answer::Yes(p.same(q)));
    }
    three(word, n, v)
}

// A rectangle and a point, or two rectangles, and otherwise two points.
fn two(word: &[u8], n: usize, v: [f64; 12]) -> Option<Answer>
    ensures { said_in result ≡ Asked.answer (drop 4 Asked.questions) n word.now v }
{
    let a = Rectangle {
        x: v[0],
        y: v[1],
        width: v[2],
        height: v[3],
    };
    let b = Rectangle {
        x: v[4],
        y: v[5],
        width: v[6],
        height: v[7],
    };
    let p = Point2D { x: b.x, y: b.y };
    if (n == 6) & (word == b"inside2".as_slice()) {
        return Some(Answer::Yes(a.contains(p)));
    }
    if (n == 6) & (word == b"route2".as_slice()) {
        return Some(Answer::Child(a.child_index(p)));
    }
    if (n == 6) & (word == b"node2".as_slice()) {
        return Some(Answer::Number(a.min_distance_sq(p)));
    }
    if (n == 8) & (word == b"meets2".as_slice()) {
        return Some(Answer::Yes(a.intersects(b)));
    }
    pair2(word, n, v)
}

// One axis, and otherwise more.
fn one(word: &[u8], n: usize, v: [f64; 12]) -> Option<Answer>
    ensures { said_in result ≡ Asked.answer Asked.questions n word.now v }
{
    if (n == 1) & (word == b"next".as_slice()) {
        return Some(Answer::Number(floats::next_up(v[0])));
    }
    if (n == 2) & (word == b"span".as_slice()) {
        return Some(Answer::Number(span(v[0], v[1])));
    }
    if (n == 2) & (word == b"mid".as_slice()) {
        return Some(Answer::Number(Side {
            corner: v[0],
            extent: v[1],
        }
        .midplane()));
    }
    if (n == 3) & (word == b"axis".as_slice()) {
        return Some(Answer::Number(Side {
            corner: v[1],
            extent: v[2],
        }
        .distance(v[0])));
    }
    two(word, n, v)
}

// A box and a child's number.
fn parts(word: &[u8], n: usize, v: [f64; 12], i: usize) -> Option<Answer>
    ensures { said_in result ≡ Asked.answer (Asked.parts i) n word.now v }
{
    let a = Rectangle {
        x: v[0],
        y: v[1],
        width: v[2],
        height: v[3],
    };
    let b = Cube {
        x: v[0],
        y: v[1],
        z: v[2],
        width: v[3],
        height: v[4],
        depth: v[5],
    };
    if (n == 4) & (word == b"part2".as_slice()) {
        return Some(Answer::Quadrant(a.child(i)));
    }
    if (n == 6) & (word == b"part3".as_slice()) {
        return Some(Answer::Octant(b.child(i)));
    }
    None
}

// The answer to a line, if it is understood. The numbers are read as those of a command: floats alone stand after `range`, floats and a whole number after `knn`.
pub fn ask(line: &[u8]) -> Option<Answer>
    ensures { said_in result ≡ Asked.asked line.now }
{
    let e = find(line, b',').unwrap_or(line.len());
    let n = (line.len() - e) / 17;
    let child = (line.len() - e) % 17 > 0;
    if n < 1 {
        return None;
    }
    if n > 12 {
        return None;
    }
    let mut v = [0.0f64; 12];
    if child {
        let i = numbers_of(&line[e..], Word::Knn, n as u8, &mut v)?;
        return parts(&line[..e], n, v, i as usize);
    }
    numbers_of(&line[e..], Word::Range, (n - 1) as u8, &mut v)?;
    one(&line[..e], n, v)
}
