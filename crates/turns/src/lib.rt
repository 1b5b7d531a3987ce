// One turn of a program: it answers what is there, and says what comes next. It reads and writes no file.
#![tactic(auto)]

ghost use Rattle.std.specs.Prelude.{not, true, ◌≡◌, ◌+◌, ◌≤◌, length};
ghost use Rattle.model.specs.Calls.{State};
ghost use Rattle.trees.specs.Pieces.{pieces};
ghost use Rattle.record.specs.Commands.{understood};
ghost use Rattle.replies.specs.Programs.{Keeps, longest};
ghost use Rattle.turns.specs.Places.{Digests, Sits, Works, at_end, bytes_of, does_go_on};

use commands::Program;
use lines::keep;
use replies::Page;
use stream::feed;
use tree::kind::Tree;

// What comes next: to read behind what is carried, to go on with what is there, or nothing.
#[derive(Clone, Copy, Debug, PartialEq, Eq)]
pub enum Next {
    Read,
    Work,
    Done,
}

// Where a program is: where the bytes of the text that are not answered begin and end, whether the very start is still ahead, whether a tree is held, how many bytes
// of answers are ready to be written, and what comes next.
// Kept: flags and no `Option`, since no value belongs to one case alone: the tree's pieces are there either way.
#[derive(Clone, Copy, Debug, PartialEq, Eq)]
pub struct Place {
    pub from: usize,
    pub end: usize,
    pub start: bool,
    pub held: bool,
    pub ready: usize,
    pub next: Next,
}

// Answers the lines of the text from a place up to `end`. Where no line feed is left, what is left is moved to the front; where no room is left, it stays, and comes next.
fn digest<R: Program>(
    place: Place,
    end: usize,
    head: &mut [u8],
    nodes: &mut [u8],
    links: &mut [u8],
    points: &mut [u8],
    text: &mut [u8],
    out: &mut [u8],
) -> Place
    requires { (place.from ≤ end) × (end ≤ length text.old) × (longest R.kind.axes ≤ length out.old) }
    ensures digests { (a : State) → Keeps R.kind place.held (pieces head.old nodes.old links.old points.old) a → Digests R.kind (understood R.made R.kind.axes) a place.start (bytes_of place.from end text.old) result (pieces head.old nodes.old links.old points.old) (pieces head.new nodes.new links.new points.new) text.new out.old out.new }
    ensures sits { Sits R.kind result text.new out.new }
    ensures more { does_go_on result.next ≡ true }
{
    let fed = feed::<R>(
        &text[place.from..end],
        place.start,
        place.held,
        head,
        nodes,
        links,
        points,
        out,
    );
    let from = place.from + fed.read;
    let left = Place {
        from,
        end,
        start: fed.start,
        held: fed.held,
        ready: fed.to,
        next: Next::Work,
    };
    if fed.full {
        return left;
    }
    let end = keep(text, from, end);
    Place {
        from: 0,
        end,
        next: Next::Read,
        ..left
    }
}

// Goes on from a place, with so many new bytes behind those that are carried. Where none came the input is at its end, and what is carried is answered.
pub fn work<R: Program>(
    place: Place,
    got: usize,
    head: &mut [u8],
    nodes: &mut [u8],
    links: &mut [u8],
    points: &mut [u8],
    text: &mut [u8],
    out: &mut [u8],
) -> Place
    requires sits_2 { Sits R.kind place text.old out.old }
    requires came { place.end + got ≤ length text.old }
    requires room { longest R.kind.axes ≤ length out.old }
    ensures works { (a : State) → Keeps R.kind place.held (pieces head.old nodes.old links.old points.old) a → Works R.kind (understood R.made R.kind.axes) a place got text.old result (pieces head.old nodes.old links.old points.old) (pieces head.new nodes.new links.new points.new) text.new out.old out.new }
    ensures sits { Sits R.kind result text.new out.new }
    ensures ends { does_go_on result.next ≡ not (at_end place.next got) }
{
    match place.next {
        Next::Work => digest::<R>(place, place.end, head, nodes, links, points, text, out),
        Next::Read => {
            if got > 0 {
                let end = place.end + got;
                return digest::<R>(place, end, head, nodes, links, points, text, out);
            }
            let mut page = Page { out, at: 0 };
            page.finish(&text[place.from..place.end], place.start);
            Place {
                from: place.end,
                ready: page.at,
                next: Next::Done,
                ..place
            }
        }
        Next::Done => Place {
            ready: 0,
            next: Next::Done,
            ..place
        },
    }
}
