// What the soundness tests of both trees share: marks for places and groups that were met, lists of free ones, bounds of a node, the test of a boundary's side.
// All end on any bytes.
#![tactic(auto)]

ghost use Rattle.std.specs.Prelude.{◌≡◌, ◌&&◌, ℕ, cond, ◌^◌, ◌<◌, length};
ghost use Rattle.std.specs.Float.Ieee.{le};
ghost use Rattle.std.specs.Float.{nan};
ghost use Rattle.floats.specs.Values.{plus_zero};
ghost use Rattle.words.specs.Words.{words};
ghost use Rattle.model.specs.Boxes.{bounded, mid, side};
ghost use Rattle.trees.proofs.Areas.{higher, lower};
ghost use Rattle.trees.proofs.Checks.{counts};
ghost use Rattle.trees.proofs.Marks.{Claims, AllMet, Frees, Rest};

use axis::Side;
use pool::{child, count, group, next};

// 2^500, the largest magnitude in a boundary.
const LIMIT: f64 = f64::from_bits(0x5f30_0000_0000_0000);

// Whether number p is met for the first time; it is then marked.
// Kept: marks are numbers and no `bool`, since any mark but 0 counts as met, also one that a caller wrote.
pub fn claim(marks: &mut [u8], p: u32) -> bool
    ensures { Claims marks.old marks.new p result }
{
    let i = p as usize;
    if i >= marks.len() || marks[i] != 0 {
        return false;
    }
    marks[i] = 1;
    true
}

// Whether every number but 0 was met.
fn all_met(marks: &[u8]) -> bool
    ensures { AllMet marks.now result }
{
    marks.iter().skip(1).all(|mark| *mark != 0)
}

// Whether the free ones, from what follows 0 on, form a list of numbers that were not met before; they are marked.
fn walk_free<F: Fn(u32) -> u32>(after: F, marks: &mut [u8]) -> bool
    requires { F.IsAlwaysCallable after }
    ensures { (next : ℕ → ℕ) → ((p r : ℕ) → p < 2 ^ 32 → F.post after p r → r ≡ next p) → Frees next (λ p. p < length marks.old) marks.old (next 0) marks.new result }
{
    let mut p = after(0);
    for _ in 0..marks.len() {
        if p == 0 {
            return true;
        }
        if !claim(marks, p) {
            return false;
        }
        p = after(p);
    }
    p == 0
}

// Whether what was not met is free: every place and every group is met once with the lists of free ones.
pub fn rest_is_free(nodes: &[u8], links: &[u8], ways: u8, homes: &mut [u8], used: &mut [u8]) -> bool
    ensures { Rest ways (words nodes.now) (words links.now) homes.old used.old result }
{
    if !walk_free(|p| next(links, p), homes) {
        return false;
    }
    if !walk_free(|k| group(nodes, child(ways, k, 0)), used) {
        return false;
    }
    all_met(homes) & all_met(used)
}

// The counts of all children of group k together.
pub fn children_count(nodes: &[u8], ways: u8, k: u32) -> u64
    ensures { result ≡ counts ways (words nodes.now) k 0 ways }
{
    let mut sum = 0;
    for c in 0..ways {
        let i = child(ways, k, c);
        sum += u64::from(count(nodes, i));
    }
    sum
}

// What bounds nothing from above.
// Kept: a NaN and no Option, since each comparison with a NaN is false already, where an Option would be one test more for each point.
pub fn no_top() -> f64
    ensures { result ≡ nan }
{
    f64::NAN
}

// The low bound of a half: on the high side the midplane, where it is higher.
pub fn low_half(high: bool, whole: Side, low: f64) -> f64
    ensures { result ≡ cond high (higher low (mid (side whole.corner whole.extent))) low }
{
    if !high {
        return low;
    }
    let plane = whole.midplane();
    if (low <= plane) | plane.is_nan() {
        plane
    } else {
        low
    }
}

// The top bound of a half: on the low side the midplane, where it is lower. A top that is no number bounds nothing.
pub fn top_half(high: bool, whole: Side, top: f64) -> f64
    ensures { result ≡ cond high top (lower top (mid (side whole.corner whole.extent))) }
{
    if high {
        return top;
    }
    let plane = whole.midplane();
    if (plane < top) | top.is_nan() {
        plane
    } else {
        top
    }
}

// Whether a side can be one of a boundary.
pub fn accepts_side(tested: Side) -> bool
    ensures { result ≡ bounded tested.corner && (bounded tested.extent && le plus_zero tested.extent) }
{
    (-LIMIT <= tested.corner)
        & (tested.corner <= LIMIT)
        & ((-LIMIT <= tested.extent) & (tested.extent <= LIMIT) & (0.0 <= tested.extent))
}
