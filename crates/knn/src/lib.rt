// The candidate table of k nearest: knn.rs, with a table in place of the heap. Its distances and its items lie in two
// lent arrays, so that nothing is copied, and a count says how many entries it holds.
#![tactic(auto)]

ghost use Rattle.std.specs.Prelude.{◌≡◌, ◌<◌, min, length, take};
ghost use Rattle.model.specs.Searches.{less};
ghost use Rattle.knn.specs.Candidates.{Written, at, entries, settle, kept, ByModel, Offered, bar, ordered};

// "In the table's own order NaN equals NaN and exceeds all else."
// Kept: the library's `OrderedFloat(x) < OrderedFloat(y)` is this order; offers were slower with it, by 7 % at k 64 and by 28 % at k 512.
pub fn less(x: f64, y: f64) -> bool
    ensures { result ≡ less x y }
{
    (x == x) & !(y <= x)
}

// Stores a newcomer behind the first n entries and swaps it past its neighbours to its place.
// Kept: `swap` of both slices says the same; offers at k 64 took nearly three times as long with it.
fn insert(dist: &mut [f64], item: &mut [u32], n: usize, distance: f64, place: u32)
    requires n_in_bounds { n < length dist.old }
    requires items { n < length item.old }
    ensures { Written (settle (at distance place) (entries n dist.old item.old)) dist.old item.old dist.new item.new }
{
    dist[n] = distance;
    item[n] = place;
    for i in (0..n).rev() {
        let d = dist[i];
        if !less(distance, d) {
            return;
        }
        let p = item[i];
        dist[i + 1] = d;
        item[i + 1] = p;
        dist[i] = distance;
        item[i] = place;
    }
}

// The distance that a candidate must beat: +∞ while the table has room, −∞ where it keeps nothing. Both arrays of a table are as long as each other here.
pub fn worst(dist: &[f64], count: usize, k: usize) -> f64
    ensures { result ≡ bar (min (min k 512) (length dist.now)) (take count dist.now) }
{
    let room = k.min(512).min(dist.len());
    let n = count.min(dist.len());
    if n < room {
        return f64::INFINITY;
    }
    if n == 0 {
        return f64::NEG_INFINITY;
    }
    dist[n - 1]
}

// Keeps a candidate that is nearer than the worst, or any while there is room: how many the table then holds.
// Kept: two arrays and not one of pairs, as document 01 has them and as C lends them (`probe_offer`).
pub fn offer(
    dist: &mut [f64],
    item: &mut [u32],
    count: usize,
    k: usize,
    distance: f64,
    place: u32,
) -> usize
    ensures value { result ≡ length (kept count k distance place dist.old item.old) }
    ensures table { Written (kept count k distance place dist.old item.old) dist.old item.old dist.new item.new }
    ensures model { ByModel count k distance place dist.old item.old dist.new item.new result }
{
    let places = dist.len().min(item.len());
    let room = k.min(512).min(places);
    let n = count.min(places);
    if n < room {
        insert(dist, item, n, distance, place);
        return n + 1;
    }
    if n == 0 {
        return 0;
    }
    let last = dist[n - 1];
    if distance >= last {
        return n;
    }
    insert(dist, item, n - 1, distance, place);
    n
}

// A table with its lent arrays, its count and its k, so that they travel together.
#[derive(Drop)]
pub struct Table<'a> {
    pub dist: &'a mut [f64],
    pub item: &'a mut [u32],
    pub count: usize,
    pub k: usize,
}

impl Table<'_> {
    // The distance that a candidate must beat.
    pub fn worst(&self) -> f64
        ensures { result ≡ bar (min (min self.now.k 512) (length self.now.dist.now)) (take self.now.count self.now.dist.now) }
    {
        worst(self.dist, self.count, self.k)
    }

    // Keeps a candidate that is nearer than the worst, or any while there is room.
    pub fn offer(&mut self, distance: f64, place: u32)
        ensures offered { Offered self.old.count self.old.k distance place self.old.dist.now self.old.item.now self.new.dist.now self.new.item.now self.new.count self.new.k }
        ensures same_lengths { (length self.new.dist.now ≡ length self.old.dist.now) × (length self.new.item.now ≡ length self.old.item.now) }
        ensures same_dist { self.new.dist.ghost_name ≡ self.old.dist.ghost_name }
        ensures same_item { self.new.item.ghost_name ≡ self.old.item.ghost_name }
    {
        self.count = offer(self.dist, self.item, self.count, self.k, distance, place);
    }
}

// Orders up to eight children by their node distances: the distances in order, and beside each the child's number.
pub fn order_children(dist: &mut [f64], item: &mut [u32])
    ensures { Written (ordered dist.old item.old) dist.old item.old dist.new item.new }
{
    let n = dist.len().min(item.len()).min(8);
    for i in 0..n {
        let d = dist[i];
        insert(dist, item, i, d, i as u32);
    }
}
