// The commands of both programs, and the one that a record says.
#![tactic(auto)]

ghost use Rattle.std.specs.Prelude.{false, ◌≡◌, ◌+◌, ◌*◌, ◌≤◌, List, ℕ, length, option_map, refl, take};
ghost use Rattle.model.specs.Calls.{ways};
ghost use Rattle.record.specs.Commands.{understood, word_oct, word_quad};
ghost use Rattle.record.specs.Text.{has};
ghost use Rattle.commands.specs.Commands.{call_in, made_for};
ghost use Rattle.record.proofs.Quotes.{plain_oct, plain_quad};
ghost use Rattle.std.proofs.Common.{arith};

use fields::{find, numbers_of, word_of};
use geometry::plane::Rectangle;
use geometry::space::Cube;
use record::Word;
use tree::kind::Tree;

// What tells one program from the other, besides its tree.
pub trait Program: Tree {
    // The word of the record that makes a tree.
    ghost made: { List ℕ };

    fn word() -> &'static [u8]
        ensures { result.now ≡ made };

    // What the program says where its input cannot be read: one line, which begins with the word, so that one write can put it out whole.
    fn unread() -> &'static [u8]
        ensures { take (length made) result.now ≡ made };

    // The same, where its answers cannot be written.
    fn unwritten() -> &'static [u8]
        ensures { take (length made) result.now ≡ made };

    // The word is that of document 01 for this kind of tree.
    ghost right_word: { made ≡ made_for Self.kind };

    // What the reading of a record asks of the word and of the axes.
    ghost plain: { has 34 made ≡ false };

    ghost some_axes: { 1 ≤ Self.kind.axes };

    ghost few_axes: { Self.kind.axes ≤ 3 };

    // As many nodes as the arrays of a program have room for.
    ghost few_nodes: { ways Self.kind * Self.groups + ways Self.kind ≤ 344 };
}

impl Program for Rectangle {
    ghost made = { word_quad };

    fn word() -> &'static [u8] {
        b"quad"
    }

    fn unread() -> &'static [u8] {
        b"quad: the input could not be read\n"
    }

    fn unwritten() -> &'static [u8] {
        b"quad: answers could not be written\n"
    }

    ghost right_word = { refl };

    ghost plain = { plain_quad };

    ghost some_axes = { Prim.omega arith };

    ghost few_axes = { Prim.omega arith };

    ghost few_nodes = { Prim.omega arith };
}

impl Program for Cube {
    ghost made = { word_oct };

    fn word() -> &'static [u8] {
        b"oct"
    }

    fn unread() -> &'static [u8] {
        b"oct: the input could not be read\n"
    }

    fn unwritten() -> &'static [u8] {
        b"oct: answers could not be written\n"
    }

    ghost right_word = { refl };

    ghost plain = { plain_oct };

    ghost some_axes = { Prim.omega arith };

    ghost few_axes = { Prim.omega arith };

    ghost few_nodes = { Prim.omega arith };
}

// A record's command with its numbers, over the boxes R and the points P of a tree.
#[derive(Clone, Copy)]
pub enum Command<R, P> {
    Create(R, u32),
    Insert(P, u32),
    Delete(P, u32),
    Contains(P, u32),
    Range(P, f64),
    Knn(P, u32),
    Box(R),
    Len,
    Clear,
}

// The command of a record, which is given without its line end, if it is understood.
pub fn parse<R: Program>(s: &[u8]) -> Option<Command<R, R::Point>>
    ensures { option_map (call_in R.sides R.Point.place) result ≡ understood R.made R.kind.axes s.now }
{
    let end = find(s, b',').unwrap_or(s.len());
    let word = word_of(&s[..end], R::word())?;
    let mut numbers: [f64; 6] = [0.0; 6];
    let whole = numbers_of(&s[end..], word, R::axes(), &mut numbers)?;
    let axes = R::axes() as usize;
    let point = R::point(numbers[0], numbers[1], numbers[2]);
    // The extents, or a radius, stand after the coordinates.
    let extent = R::point(numbers[axes], numbers[axes + 1], numbers[axes + 2]);
    let command = match word {
        Word::Create => Command::Create(R::region(point, extent), whole),
        Word::Insert => Command::Insert(point, whole),
        Word::Delete => Command::Delete(point, whole),
        Word::Contains => Command::Contains(point, whole),
        Word::Range => Command::Range(point, numbers[axes]),
        Word::Knn => Command::Knn(point, whole),
        Word::Box => Command::Box(R::region(point, extent)),
        Word::Len => Command::Len,
        Word::Clear => Command::Clear,
    };
    Some(command)
}
