// Answers questions about boxes, one to a line: a word and its numbers, as `span,LO,HI`. Numbers are the 16 hex digits of their bits.
// A line that is not understood is answered with a question mark.
#![tactic(auto)]

ghost use Rattle.std.specs.Prelude.{◌+◌, ◌≤◌, ◌<◌, true, false, ◌≡◌, set, take, MatchOption};

use std::io::{Read, Write};

// What is read of a line, and whether more of it was read than there is room for. The longest question is `meets3` with its twelve numbers: 210 bytes.
// Kept: a buffer of fixed size with its length, since the programs take no memory, and a flag, since no value belongs to a line that is too long.
#[derive(Drop)]
struct Buffer {
    bytes: [u8; 256],
    len: usize,
    long: bool,
    ghost fits: { len ≤ 256 },
}

impl Buffer {
    fn new() -> Buffer
        ensures { (result.len ≡ 0) × (result.long ≡ false) }
    {
        Buffer {
            bytes: [0; 256],
            len: 0,
            long: false,
        }
    }

    // A byte joins the line where there is room, and otherwise the line is too long.
    fn push(&mut self, b: u8)
        ensures joined { self.old.len < 256 → (self.new.bytes ≡ set self.old.bytes self.old.len b) × (self.new.len ≡ self.old.len + 1) × (self.new.long ≡ self.old.long) }
        ensures full { 256 ≤ self.old.len → (self.new.bytes ≡ self.old.bytes) × (self.new.len ≡ self.old.len) × (self.new.long ≡ true) }
    {
        if self.len < self.bytes.len() {
            self.bytes[self.len] = b;
            self.len += 1;
        } else {
            self.long = true;
        }
    }

    // The line, if it is not too long for any question.
    fn line(&self) -> Option<&[u8]>
        ensures { MatchOption result (self.now.long ≡ true) (λ s. (self.now.long ≡ false) × (s.now ≡ take self.now.len self.now.bytes)) }
    {
        if self.long {
            None
        } else {
            Some(&self.bytes[..self.len])
        }
    }

    fn clear(&mut self)
        ensures { (self.new.len ≡ 0) × (self.new.long ≡ false) }
    {
        self.len = 0;
        self.long = false;
    }
}

// An answer that cannot be written is lost, and the next line is read.
fn reply<O: Write>(output: &mut O, line: &[u8]) {
    let mut out = [0u8; 128];
    let n = geometry_answers::show(geometry_questions::ask(line), &mut out);
    let _written = output.write_all(&out[..n]).is_ok();
}

// Reads one byte, where there is one more that can be read.
fn read_one<I: Read>(input: &mut I) -> Option<u8> {
    let mut byte = [0u8; 1];
    match input.read(&mut byte) {
        Ok(1) => Some(byte[0]),
        _ => None,
    }
}

fn main(rt: HostRuntime) {
    let mut input = rt.stdin();
    let mut output = rt.stdout();
    let mut buffer = Buffer::new();
    for _ in 0..u64::MAX {
        let Some(b) = read_one(&mut input) else {
            break;
        };
        if b == b'\n' {
            reply(&mut output, buffer.line().unwrap_or(b""));
            buffer.clear();
        } else {
            buffer.push(b);
        }
    }
}
