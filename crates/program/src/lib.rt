// A command program over either tree: reads records from standard input and prints their answers.
#![tactic(auto)]

ghost use Rattle.std.specs.Prelude.{false, ◌≡◌, ◌≤◌, ◌<◌, length};
ghost use Rattle.model.specs.Calls.{broken};
ghost use Rattle.trees.specs.Pieces.{pieces};
ghost use Rattle.record.specs.Commands.{understood};
ghost use Rattle.replies.specs.Programs.{Keeps, longest};
ghost use Rattle.turns.specs.Places.{Ran, Turned, first, does_go_on};
ghost use Rattle.turns.specs.declared.Next.TheVariants as next_is;

use commands::Program;
use std::io::{Read, Write};
use tree::kind::Tree;
use turns::{Next, Place, work};

// Says on standard error how a program failed. Where that fails too, nothing is left to tell.
// The whole line is one write, so that another program's line in the same log cannot cut it.
fn tell<E: Write>(errors: &mut E, line: &[u8]) {
    let _told = errors.write_all(line).is_ok();
}

// Reads, where that comes next, and says how many bytes came: none at the end of the input. There is room for one at least.
fn fetch<R: Program, I: Read, E: Write>(
    next: Next,
    input: &mut I,
    errors: &mut E,
    text: &mut [u8],
) -> usize
    requires { next ≡ next_is.Read → 0 < length text.old }
    ensures { result ≤ length text.old }
{
    match next {
        Next::Read => match input.read(text) {
            Ok(got) => got,
            Err(_) => {
                tell(errors, R::unread());
                0
            }
        },
        Next::Work | Next::Done => 0,
    }
}

// Writes answers, and says whether that could be done.
fn hand_on<R: Program, O: Write, E: Write>(output: &mut O, errors: &mut E, answers: &[u8]) -> bool {
    let written = output.write_all(answers).is_ok();
    if !written {
        tell(errors, R::unwritten());
    }
    written
}

#[tactic(auto, unfolding(turns::specs::Places::does_go_on))]
fn goes_on(next: Next) -> bool
    ensures { result ≡ does_go_on next }
{
    !matches!(next, Next::Done)
}

// Where a program begins.
fn begin() -> Place
    ensures { result ≡ first }
{
    Place {
        from: 0,
        end: 0,
        start: true,
        held: false,
        ready: 0,
        next: Next::Read,
    }
}

// Answers the records of standard input on standard output, from pieces that hold no tree, till the input ends or answers cannot be written. Returns the place that was reached.
fn take_turns<R: Program, I: Read, O: Write, E: Write>(
    input: &mut I,
    output: &mut O,
    errors: &mut E,
    head: &mut [u8],
    nodes: &mut [u8],
    links: &mut [u8],
    points: &mut [u8],
    text: &mut [u8],
    out: &mut [u8],
) -> Place
    requires { (133 < length text.old) × (longest R.kind.axes ≤ length out.old) × Keeps R.kind false (pieces head.old nodes.old links.old points.old) broken }
    ensures { Turned R.kind (understood R.made R.kind.axes) result (pieces head.new nodes.new links.new points.new) text.new }
{
    let mut place = begin();
    // Nothing says that the input ends, so turns are counted.
    for _turn in 0..u64::MAX {
        let end = place.end;
        let next = place.next;
        let got = fetch::<R, I, E>(next, input, errors, &mut text[end..]);
        place = work::<R>(place, got, head, nodes, links, points, text, out);
        let ready = place.ready;
        let after = place.next;
        if !hand_on::<R, O, E>(output, errors, &out[0..ready]) {
            return place;
        }
        if !goes_on(after) {
            return place;
        }
    }
    place
}

// The command program of a tree, over arrays of its own, which are as large as the larger tree's: of those for which the trees differ, this tree is lent its part.
// Returns the place that was reached.
pub fn run<R: Program, I: Read, O: Write, E: Write>(
    input: &mut I,
    output: &mut O,
    errors: &mut E,
) -> Place
    ensures { Ran R.kind (understood R.made R.kind.axes) result }
{
    let mut text: [u8; 65536] = [0; 65536];
    let mut out: [u8; 65536] = [0; 65536];
    let mut head: [u8; 56] = [0; 56];
    let mut nodes: [u8; 5504] = [0; 5504];
    let mut links: [u8; 2052] = [0; 2052];
    let mut points: [u8; 16416] = [0; 16416];
    let axes = R::axes() as usize;
    let ways = R::ways() as usize;
    let rows = R::rows() as usize;
    take_turns::<R, I, O, E>(
        input,
        output,
        errors,
        &mut head[..16 * axes + 8],
        &mut nodes[..16 * (ways * rows + ways)],
        &mut links,
        &mut points[..4104 * (axes + 1)],
        &mut text,
        &mut out,
    )
}
