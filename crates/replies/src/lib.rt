// The lines of answers, for either program, written to a lent slice. Where there is no room nothing is written. An answer is printed from the bytes that a search hands over, so no float is made here.
#![tactic(auto)]

ghost use Rattle.std.specs.Prelude.{◌≡◌, [], ◌∷◌, ◌++◌, ◌+◌, ◌-◌, ◌*◌, ◌<◌, ◌≤◌, length, leb};
ghost use Rattle.model.specs.Calls.{Kind, State};
ghost use Rattle.trees.specs.Pieces.{room_for};
ghost use Rattle.pieces.specs.Replies.{count_in, number_in};
ghost use Rattle.record.specs.Numbers as Numbers;
ghost use Rattle.record.specs.Numbers.{spelt, decimal};
ghost use Rattle.record.specs.Input.{begun, unended};
ghost use Rattle.replies.specs.Lines.{crlf, field, lines};
ghost use Rattle.replies.specs.Printed.{hex_at, point_at, points_from, PutsTold};
ghost use Rattle.replies.specs.Programs.{IsSame, Puts, Wrote, longest};

use answers::room;
use lines::unmarked;
use pieces::{Refusal, reply, tell};
use record::numbers::glyph;
use words::get;

// What stands before each field but the first.
const SEPARATOR: u8 = b',';

// How many decimal digits n has.
fn places(n: u32) -> usize
    ensures value { result ≡ Numbers.places n }
    ensures few { result ≤ 10 }
{
    n.max(1).ilog10() as usize + 1
}

// Whether there is room for the longest line from index `at` on.
pub fn has_room(axes: u8, out: &[u8], at: usize) -> bool
    ensures { result ≡ leb (at + longest axes) (length out.now) }
{
    14 + (17 * (axes as usize) + 11) * 512 <= out.len().saturating_sub(at)
}

// Bytes that were lent for answers, and where the next one goes.
#[derive(Drop)]
pub struct Page<'a> {
    pub out: &'a mut [u8],
    pub at: usize,
}

impl<'a> Page<'a> {
    fn put_byte(&mut self, b: u8)
        requires { self.old.at + 1 ≤ length self.old.out.now }
        ensures same { IsSame self.old.out self.new.out }
        ensures wrote { Wrote self.old.out.now self.old.at (b ∷ []) self.new.out.now self.new.at }
        ensures end { self.new.at ≡ self.old.at + 1 }
    {
        self.out[self.at] = b;
        self.at += 1;
    }

    fn put_end(&mut self)
        requires { self.old.at + 2 ≤ length self.old.out.now }
        ensures same { IsSame self.old.out self.new.out }
        ensures wrote { Wrote self.old.out.now self.old.at crlf self.new.out.now self.new.at }
        ensures end { self.new.at ≡ self.old.at + 2 }
    {
        self.put_byte(b'\r');
        self.put_byte(b'\n');
    }

    // Writes the last k decimal digits of n, the last of them first.
    // Kept: digit by digit and no `Display`, whose text would go through the heap.
    fn spell(&mut self, k: usize, n: u32)
        requires { self.old.at + k ≤ length self.old.out.now }
        ensures same { IsSame self.old.out self.new.out }
        ensures wrote { Wrote self.old.out.now self.old.at (spelt 10 k n) self.new.out.now self.new.at }
        ensures end { self.new.at ≡ self.old.at + k }
    {
        let out = &mut *self.out;
        let at = self.at;
        let mut left = n;
        for i in (0..k).rev() {
            out[at + i] = glyph((left % 10) as u8);
            left /= 10;
        }
        self.at = at + k;
    }

    fn put_decimal(&mut self, n: u32)
        requires { self.old.at + 10 ≤ length self.old.out.now }
        ensures same { IsSame self.old.out self.new.out }
        ensures wrote { Wrote self.old.out.now self.old.at (decimal n) self.new.out.now self.new.at }
        ensures end { self.new.at ≤ self.old.at + 10 }
    {
        self.spell(places(n), n);
    }

    fn put_whole(&mut self, n: u32)
        requires { self.old.at + 11 ≤ length self.old.out.now }
        ensures same { IsSame self.old.out self.new.out }
        ensures wrote { Wrote self.old.out.now self.old.at (field (decimal n)) self.new.out.now self.new.at }
        ensures end { self.new.at ≤ self.old.at + 11 }
    {
        self.put_byte(SEPARATOR);
        self.put_decimal(n);
    }

    // Writes a comma and the 16 hex digits of float number i: two digits for each byte, the last byte first. The bytes are read before the first digit is
    // written: only then does the compiler make the digits of all of them at once.
    fn put_hex(&mut self, coords: &[u8], i: usize)
        requires at_in_bounds { self.old.at + 17 ≤ length self.old.out.now }
        requires lent { 8 * i + 8 ≤ length coords.now }
        ensures same { IsSame self.old.out self.new.out }
        ensures wrote { Wrote self.old.out.now self.old.at (field (hex_at coords.now i)) self.new.out.now self.new.at }
        ensures end { self.new.at ≡ self.old.at + 17 }
    {
        let j = 8 * i;
        // Kept: eight reads one by one; with `first_chunk` a line of many points takes a quarter longer.
        let s = [
            coords[j],
            coords[j + 1],
            coords[j + 2],
            coords[j + 3],
            coords[j + 4],
            coords[j + 5],
            coords[j + 6],
            coords[j + 7],
        ];
        self.put_byte(SEPARATOR);
        // Taken out once: for all that the compiler knows, a byte is written over a field of the page.
        let out = &mut *self.out;
        let mut at = self.at;
        for k in (0..8).rev() {
            let b = s[k];
            out[at] = glyph(b / 16);
            out[at + 1] = glyph(b % 16);
            at += 2;
        }
        self.at = at;
    }

    // Writes point number j: its coordinates and its payload.
    fn put_point(&mut self, axes: u8, coords: &[u8], payloads: &[u8], j: usize)
        requires axes_in_bounds { self.old.at + (17 * axes + 11) ≤ length self.old.out.now }
        requires lent { 8 * (axes * j + axes) ≤ length coords.now }
        ensures same { IsSame self.old.out self.new.out }
        ensures wrote { Wrote self.old.out.now self.old.at (point_at axes coords.now payloads.now j) self.new.out.now self.new.at }
        ensures end { self.new.at ≤ self.old.at + (17 * axes + 11) }
    {
        let many = axes as usize;
        let from = many * j;
        let m = get(payloads, j);
        for a in 0..many {
            self.put_hex(coords, from + a);
        }
        self.put_whole(m);
    }

    // Writes the first n points.
    fn put_points(&mut self, axes: u8, n: usize, coords: &[u8], payloads: &[u8])
        requires n_in_bounds { self.old.at + (17 * axes + 11) * n ≤ length self.old.out.now }
        requires lent { n ≤ room_for axes coords.now payloads.now }
        ensures same { IsSame self.old.out self.new.out }
        ensures wrote { Wrote self.old.out.now self.old.at (points_from axes n coords.now payloads.now 0) self.new.out.now self.new.at }
        ensures end { self.new.at ≤ self.old.at + (17 * axes + 11) * n }
    {
        for j in 0..n {
            self.put_point(axes, coords, payloads, j);
        }
    }

    // Writes the line of a search that is done.
    fn put_found(&mut self, axes: u8, count: u32, coords: &[u8], payloads: &[u8])
        requires count_in_bounds { self.old.at + (14 + (17 * axes + 11) * count) ≤ length self.old.out.now }
        requires lent { count ≤ room_for axes coords.now payloads.now }
        ensures same { IsSame self.old.out self.new.out }
        ensures wrote { Wrote self.old.out.now self.old.at (decimal 0 ++ (field (decimal count) ++ points_from axes count coords.now payloads.now 0) ++ crlf) self.new.out.now self.new.at }
        ensures end { self.new.at ≤ self.old.at + (14 + (17 * axes + 11) * count) }
    {
        self.put_byte(b'0');
        self.put_whole(count);
        self.put_points(axes, count as usize, coords, payloads);
        self.put_end();
    }

    // How many bytes are left.
    fn room(&self) -> usize
        ensures { result ≡ length self.now.out.now - self.now.at }
    {
        self.out.len().saturating_sub(self.at)
    }

    // Writes the line of a reply number alone, whatever number it is.
    pub fn put_number(&mut self, reply: u32)
        ensures same { IsSame self.old.out self.new.out }
        ensures puts { Puts 12 self.old.out.now self.old.at (decimal reply ++ crlf) self.new.out.now self.new.at }
        ensures within { self.old.at ≤ length self.old.out.now → self.new.at ≤ length self.old.out.now }
    {
        if self.room() < 12 {
            return;
        }
        // A page of its own, which the compiler keeps in registers.
        let mut page = Page {
            out: &mut *self.out,
            at: self.at,
        };
        page.put_decimal(reply);
        page.put_end();
        self.at = page.at;
    }

    // Writes the line of the reply number of an answer alone.
    pub fn put_reply(&mut self, answer: Result<(), Refusal>)
        ensures same { IsSame self.old.out self.new.out }
        ensures puts { Puts 12 self.old.out.now self.old.at (decimal (number_in answer) ++ crlf) self.new.out.now self.new.at }
        ensures within { self.old.at ≤ length self.old.out.now → self.new.at ≤ length self.old.out.now }
    {
        self.put_number(reply(answer));
    }

    // Writes the line of a yes or no, or of a count.
    pub fn put_figure(&mut self, figure: u32)
        ensures same { IsSame self.old.out self.new.out }
        ensures puts { Puts 14 self.old.out.now self.old.at (decimal 0 ++ field (decimal figure) ++ crlf) self.new.out.now self.new.at }
        ensures within { self.old.at ≤ length self.old.out.now → self.new.at ≤ length self.old.out.now }
    {
        if self.room() < 14 {
            return;
        }
        let mut page = Page {
            out: &mut *self.out,
            at: self.at,
        };
        page.put_byte(b'0');
        page.put_whole(figure);
        page.put_end();
        self.at = page.at;
    }

    // Writes the line of a search from the reply number and the count that it handed over.
    pub fn put_outcome(&mut self, axes: u8, reply: u32, count: u32, coords: &[u8], payloads: &[u8])
        ensures same { IsSame self.old.out self.new.out }
        ensures puts_told { PutsTold axes coords.now payloads.now reply count self.old.out.now self.old.at self.new.out.now self.new.at }
        ensures within { self.old.at ≤ length self.old.out.now → self.new.at ≤ length self.old.out.now }
    {
        let refused = reply != 0;
        if refused {
            self.put_number(reply);
            return;
        }
        let n = count as usize;
        if n > room(axes, coords.len(), payloads.len()) {
            return;
        }
        let need = 14 + (17 * (axes as usize) + 11) * n;
        if self.room() < need {
            return;
        }
        self.put_found(axes, count, coords, payloads);
    }

    // Writes the line of a search from its answer.
    pub fn put_told(&mut self, axes: u8, told: Result<u32, Refusal>, coords: &[u8], payloads: &[u8])
        ensures same { IsSame self.old.out self.new.out }
        ensures puts_told { PutsTold axes coords.now payloads.now (number_in told) (count_in told) self.old.out.now self.old.at self.new.out.now self.new.at }
        ensures within { self.old.at ≤ length self.old.out.now → self.new.at ≤ length self.old.out.now }
    {
        let mut count = 0;
        let number = tell(told, &mut count);
        self.put_outcome(axes, number, count, coords, payloads);
    }

    // Whether there is room for the longest line.
    pub fn has_room(&self, axes: u8) -> bool
        ensures { result ≡ leb (self.now.at + longest axes) (length self.now.out.now) }
    {
        has_room(axes, self.out, self.at)
    }

    // Answers what stands after the last line end: nothing, or a record that has none.
    pub fn finish(&mut self, text: &[u8], start: bool)
        ensures same { IsSame self.old.out self.new.out }
        ensures puts { (k : Kind) (a : State) → Puts 12 self.old.out.now self.old.at (lines k a (unended (begun start text.now))) self.new.out.now self.new.at }
        ensures within { self.old.at ≤ length self.old.out.now → self.new.at ≤ length self.old.out.now }
    {
        let left = unmarked(text, start).len();
        if left > 0 {
            self.put_reply(Err(Refusal::NotUnderstood));
        }
    }
}
