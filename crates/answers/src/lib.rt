// Answers in lent bytes, of points with any number of axes: coordinates of eight bytes each, x first, and payloads of four, low byte first.
#![tactic(auto)]

ghost use Rattle.std.specs.Prelude.{◌≡◌, [], ◌∷◌, map, ◌+◌, ◌*◌, ◌/◌, ◌<◌, ◌≤◌, min, length, take};
ghost use Rattle.std.proofs.lemmas.List.Edits.{sets};
ghost use Rattle.std.specs.Float.{binary64};
ghost use Rattle.std.specs.Float.Ieee.{to_bits};
ghost use Rattle.words.specs.Words.{words};
ghost use Rattle.trees.specs.Pieces.{bytes, coordinates, room_for};
ghost use Rattle.trees.specs.Pieces as pieces;
ghost use Rattle.trees.specs.Points.{point_at};
ghost use Rattle.trees.specs.Handed.{Handed};
ghost use Rattle.pieces.specs.Replies.{count_in, number_in};

use floats::to_bits;
use pieces::{Refusal, base, payload};
use words::get_float;

// Sets the bytes from k on, which are there.
fn store<const N: usize>(t: &mut [u8], k: usize, bytes: [u8; N])
    requires { k + N ≤ length t.old }
    ensures { t.new ≡ sets t.old k bytes.entry }
{
    t[k..k + N].copy_from_slice(&bytes);
}

// Writes float number i, which there is room for.
fn put_float(t: &mut [u8], i: usize, x: f64)
    requires { i < length t.old / 8 }
    ensures { t.new ≡ sets t.old (8 * i) (bytes 8 (to_bits binary64 x)) }
{
    store(t, 8 * i, to_bits(x).to_le_bytes());
}

// How many points both slices have room for.
pub fn room(axes: u8, coords: usize, payloads: usize) -> usize
    ensures { result ≡ min (coords / (8 * axes)) (payloads / 4) }
{
    if axes == 0 {
        return 0;
    }
    (coords / (8 * (axes as usize))).min(payloads / 4)
}

// Writes the coordinates of the point in place p as number j of the answer, which there is room for.
fn put_place(coords: &mut [u8], j: usize, axes: u8, points: &[u8], p: u32)
    requires { axes * j + axes ≤ length coords.old / 8 }
    ensures { coords.new ≡ sets coords.old (8 * (axes * j)) (coordinates (point_at axes (words points.now) p ∷ [])) }
{
    let many = axes as usize;
    let from = base(axes, p);
    let to = many * j;
    for a in 0..many {
        let x = get_float(points, from + a);
        put_float(coords, to + a, x);
    }
}

// Writes the points in the places found, which there is room for.
fn write(axes: u8, points: &[u8], found: &[u32], coords: &mut [u8], payloads: &mut [u8])
    requires { length found.now ≤ room_for axes coords.old payloads.old }
    ensures coords_after { coords.new ≡ sets coords.old 0 (coordinates (map (point_at axes (words points.now)) found.now)) }
    ensures marks { payloads.new ≡ sets payloads.old 0 (pieces.payloads (map (point_at axes (words points.now)) found.now)) }
{
    for (j, p) in found.iter().enumerate() {
        let m = payload(axes, points, *p);
        put_place(coords, j, axes, points, *p);
        store(payloads, 4 * j, m.to_le_bytes());
    }
}

// Kept: n beside the places, which may be fewer: the least of both and 512 counts.
// Hands over the points in the first n places found, 512 at most, and says how many, or refuses where there are more than both slices have room for.
pub fn answer(
    axes: u8,
    points: &[u8],
    found: &[u32],
    n: usize,
    coords: &mut [u8],
    payloads: &mut [u8],
) -> Result<u32, Refusal>
    ensures { Handed (room_for axes coords.old payloads.old) (map (point_at axes (words points.now)) (take (min n 512) found.now)) coords.old payloads.old coords.new payloads.new (number_in result) (count_in result) }
{
    let m = n.min(512).min(found.len());
    let most = room(axes, coords.len(), payloads.len());
    if m > most {
        return Err(Refusal::NoRoom);
    }
    write(axes, points, &found[..m], coords, payloads);
    Ok(m as u32)
}
