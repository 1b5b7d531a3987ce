// The candidate table by value: "arrays of 512 filled at the start, for distances and point places".
#![tactic(auto)]

ghost use Rattle.std.specs.Prelude.{◌≡◌, length, replicate};
ghost use Rattle.floats.specs.Values.{plus_zero};
ghost use Rattle.knn.specs.Candidates.{Written, kept, ByModel, Offered};

// Kept: two arrays and a count beside them, as document 01 has the table and as C lays it out, so that the oracle can lend one.
#[repr(C)]
#[derive(Clone, Copy)]
pub struct Table {
    pub dist: [f64; 512],
    pub item: [u32; 512],
    pub count: usize,
    pub k: u32,
}

impl Table {
    // An empty table that will keep at most k, and at most 512.
    #[tactic(auto, using(floats::proofs::Patterns::zero_bits))]
    pub fn new(k: u32) -> Table
        ensures { (result.dist ≡ replicate 512 plus_zero) × (result.item ≡ replicate 512 0) × (result.count ≡ 0) × (result.k ≡ k) }
    {
        Table {
            dist: [0.0; 512],
            item: [0; 512],
            count: 0,
            k,
        }
    }

    // The table after an offer.
    pub fn offer(mut self, distance: f64, place: u32) -> Table
        ensures count_value { (result.count ≡ length (kept self.count self.k distance place self.dist self.item)) × (result.k ≡ self.k) }
        ensures table { Written (kept self.count self.k distance place self.dist self.item) self.dist self.item result.dist result.item }
        ensures model { ByModel self.count self.k distance place self.dist self.item result.dist result.item result.count }
    {
        self.count = knn::offer(
            &mut self.dist,
            &mut self.item,
            self.count,
            self.k as usize,
            distance,
            place,
        );
        self
    }
}

// `KnnHeap::offer`: "Offering a candidate alters the lent table where it stands."
pub fn offer_to(table: &mut Table, distance: f64, place: u32)
    ensures { Offered table.old.count table.old.k distance place table.old.dist table.old.item table.new.dist table.new.item table.new.count table.new.k }
{
    *table = table.offer(distance, place);
}
