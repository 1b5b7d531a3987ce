// The input, line by line.
#![tactic(auto)]

ghost use Rattle.std.specs.Prelude.{true, false, ◌≡◌, ◌+◌, ◌≤◌, ◌<◌, length, drop, option_map};
ghost use Rattle.model.specs.Calls.{State};
ghost use Rattle.trees.specs.Pieces.{pieces};
ghost use Rattle.record.specs.Commands.{understood};
ghost use Rattle.record.specs.Input.{Unended, begun, ended};
ghost use Rattle.replies.specs.Programs.{Feeds, IsSame, Keeps, longest};
ghost use Rattle.commands.specs.Commands.{call_in};
ghost use Rattle.stream.specs.Steps.{Steps};

use commands::{Command, Program, parse};
use execution::answer;
use fields::find;
use geometry::region::{Place, Region};
use lines::record_of;
use replies::Page;
use tree::kind::Tree;

// What became of a text's first line: it was answered, with the bytes read and whether a tree is held then; or it has not ended; or there is no room for an answer.
#[derive(Clone, Copy, Debug, PartialEq, Eq)]
pub enum Step {
    Line { read: usize, held: bool },
    Unended,
    Full,
}

// How far the reading came: bytes read, where the next line goes, whether the very start is still ahead, whether a tree is held, and whether it stopped for want of room.
// Kept: flags and no `Option`, here and in `Step`, since no value belongs to one case alone: where the reading came to stands either way.
#[derive(Clone, Copy, Debug, PartialEq, Eq)]
pub struct Progress {
    pub read: usize,
    pub to: usize,
    pub start: bool,
    pub held: bool,
    pub full: bool,
}

// The command of a line, which is given without its line feed, if it is understood.
fn said<R: Program>(line: &[u8], start: bool) -> Option<Command<R, R::Point>>
    ensures { option_map (call_in R.sides R.Point.place) result ≡ ended (understood R.made R.kind.axes) (begun start line.now) }
{
    parse(record_of(line, start)?)
}

// Answers the first line of the text.
fn read_line<R: Program>(
    text: &[u8],
    start: bool,
    held: bool,
    head: &mut [u8],
    nodes: &mut [u8],
    links: &mut [u8],
    points: &mut [u8],
    page: &mut Page<'_>,
) -> Step
    ensures same { IsSame page.old.out page.new.out }
    ensures steps { Steps R.kind (understood R.made R.kind.axes) start held text.now (pieces head.old nodes.old links.old points.old) (pieces head.new nodes.new links.new points.new) page.old.out.now page.old.at page.new.out.now page.new.at result }
{
    if !page.has_room(R::axes()) {
        return Step::Full;
    }
    let Some(end) = find(text, b'\n') else {
        return Step::Unended;
    };
    let command = said::<R>(&text[..end], start);
    let held = answer(command, held, head, nodes, links, points, page);
    Step::Line {
        read: end + 1,
        held,
    }
}

// Answers the lines of the text, till no line feed or no room is left.
pub fn feed<R: Program>(
    text: &[u8],
    start: bool,
    held: bool,
    head: &mut [u8],
    nodes: &mut [u8],
    links: &mut [u8],
    points: &mut [u8],
    out: &mut [u8],
) -> Progress
    ensures feeds { (a : State) → Keeps R.kind held (pieces head.old nodes.old links.old points.old) a → Feeds R.kind (understood R.made R.kind.axes) a start text.now (pieces head.old nodes.old links.old points.old) result.held (pieces head.new nodes.new links.new points.new) result.start (drop result.read text.now) out.old 0 out.new result.to }
    ensures bounds { (result.read ≤ length text.now) × (result.to ≤ length out.old) }
    ensures stopped { (result.full ≡ false → Unended (drop result.read text.now)) × (result.full ≡ true → length out.old < result.to + longest R.kind.axes) }
{
    let mut page = Page { out, at: 0 };
    let mut at = 0;
    let mut first = start;
    let mut has = held;
    // Kept: it goes from line to line, and these differ in length.
    while at < text.len() {
        let left = &text[at..];
        match read_line::<R>(left, first, has, head, nodes, links, points, &mut page) {
            Step::Line { read, held } => {
                at += read;
                first = false;
                has = held;
            }
            Step::Unended => {
                return Progress {
                    read: at,
                    to: page.at,
                    start: first,
                    held: has,
                    full: false,
                };
            }
            Step::Full => {
                return Progress {
                    read: at,
                    to: page.at,
                    start: first,
                    held: has,
                    full: true,
                };
            }
        }
    }
    Progress {
        read: at,
        to: page.at,
        start: first,
        held: has,
        full: false,
    }
}
