// What is answered, and how it is shown.
#![tactic(auto)]

ghost use Rattle.std.specs.Prelude.{◌≡◌, [], ◌∷◌, ◌++◌, ◌+◌, ◌*◌, ◌≤◌, length};
ghost use Rattle.std.proofs.lemmas.List.Edits.{sets};
ghost use Rattle.record.specs.Numbers.{hex};
ghost use Rattle.geometry_answers.specs.Shown.{Floats, shown, line, said_in};

use geometry::plane::Rectangle;
use geometry::space::Cube;
use record::numbers::glyph;

// What is answered to a question.
#[derive(Clone, Copy)]
pub enum Answer {
    Number(f64),
    Yes(bool),
    Child(usize),
    Quadrant(Rectangle),
    Octant(Cube),
}

// Writes the digits of a number and a byte after them.
fn put(out: &mut [u8], at: usize, x: f64, end: u8)
    requires { at + 17 ≤ length out.old }
    ensures { out.new ≡ sets out.old at (hex x ++ (end ∷ [])) }
{
    let mut left = floats::to_bits(x);
    for k in (0..16).rev() {
        out[at + k] = glyph((left % 16) as u8);
        left /= 16;
    }
    out[at + 16] = end;
}

// Writes the line of numbers, and returns its length.
fn put_numbers(out: &mut [u8], numbers: &[f64]) -> usize
    requires { 17 * length numbers.now ≤ length out.old }
    ensures out_after { out.new ≡ sets out.old 0 (shown (Floats numbers.now)) }
    ensures value { result ≡ length (shown (Floats numbers.now)) }
{
    for (i, x) in numbers.iter().enumerate() {
        let end = if i + 1 < numbers.len() { b',' } else { b'\n' };
        put(out, 17 * i, *x, end);
    }
    17 * numbers.len()
}

// Writes a line of one byte.
fn mark(out: &mut [u8], b: u8) -> usize
    requires { 2 ≤ length out.old }
    ensures out_after { out.new ≡ sets out.old 0 (b ∷ 10 ∷ []) }
    ensures value { result ≡ 2 }
{
    out[0] = b;
    out[1] = 10;
    2
}

// Writes the line of an answer to the front of out, where there is room for any line, and returns its length. Where there is no answer the line is a question
// mark.
pub fn show(a: Option<Answer>, out: &mut [u8]) -> usize
    ensures out_after { out.new ≡ sets out.old 0 (line out.old (said_in a)) }
    ensures value { result ≡ length (line out.old (said_in a)) }
{
    if out.len() < 128 {
        return 0;
    }
    let Some(answer) = a else {
        return mark(out, b'?');
    };
    match answer {
        Answer::Number(x) => put_numbers(out, &[x]),
        Answer::Yes(y) => mark(out, b'0' + y as u8),
        Answer::Child(i) => mark(out, b'0' + (i % 8) as u8),
        Answer::Quadrant(q) => put_numbers(out, &[q.x, q.y, q.width, q.height]),
        Answer::Octant(o) => put_numbers(out, &[o.x, o.y, o.z, o.width, o.height, o.depth]),
    }
}
