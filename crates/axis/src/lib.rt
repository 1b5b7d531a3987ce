// One axis of a box: a corner and an extent. The boxes of `plane` and `space` are two and three of these.
#![tactic(auto, using(floats::proofs::Patterns::zero_bits, floats::proofs::Patterns::two_bits), unfolding(model::specs::Boxes::holds, model::specs::Boxes::touches, model::specs::Boxes::far, model::specs::Boxes::mid, model::specs::Boxes::turn, model::specs::Boxes::axis_distance))]

ghost use Rattle.std.specs.Prelude.{◌≡◌, ◌≤◌};
ghost use Rattle.std.specs.Float.{binary64};
ghost use Rattle.floats.specs.Span.{lengthened, span, short};
ghost use Rattle.model.specs.Boxes.{holds, touches, mid, far, turn, half, axis_distance, side};

// Whether a length is to grow: positive, finite, and not reaching hi from lo.
#[tactic(auto, unfolding(floats::specs::Span::short), using(floats::proofs::Patterns::zero_bits, floats::proofs::Patterns::finite_is))]
fn is_short(lo: f64, hi: f64, len: f64) -> bool
    ensures { result ≡ short binary64 lo hi len }
{
    (len > 0.0) & (len.is_finite() & (lo + len < hi))
}

// A length with at most four steps up, while it is short.
fn lengthen(lo: f64, hi: f64, start: f64) -> f64
    ensures { result ≡ lengthened binary64 4 lo hi start }
{
    let mut len = start;
    for _ in 0..4u8 {
        if !is_short(lo, hi, len) {
            return len;
        }
        len = floats::next_up(len);
    }
    len
}

// The extent from lo to hi. The difference can round down, and then lo + (hi − lo) can fall short of hi; the next number up reaches it.
// Nearly every difference reaches, so that this is asked alone first.
#[tactic(auto, unfolding(floats::specs::Span::span))]
pub fn span(lo: f64, hi: f64) -> f64
    ensures { result ≡ span binary64 lo hi }
{
    let len = hi - lo;
    let far = lo + len;
    if !(far < hi) {
        return len;
    }
    lengthen(lo, hi, len)
}

// What a box covers on one axis.
#[derive(Clone, Copy)]
pub struct Side {
    pub corner: f64,
    pub extent: f64,
}

impl Side {
    // Where the side ends.
    fn far(self) -> f64
        ensures { result ≡ far (side self.corner self.extent) }
    {
        self.corner + self.extent
    }

    // Whether v lies on the side.
    pub fn holds(self, v: f64) -> bool
        ensures { result ≡ holds (side self.corner self.extent) v }
    {
        (self.corner <= v) & (v <= self.far())
    }

    // Whether each side begins at or before the far edge of the other.
    pub fn touches(self, other: Side) -> bool
        ensures { result ≡ touches (side self.corner self.extent) (side other.corner other.extent) }
    {
        (self.corner <= other.far()) & (other.corner <= self.far())
    }

    pub fn midplane(self) -> f64
        ensures { result ≡ mid (side self.corner self.extent) }
    {
        self.corner + self.extent / 2.0
    }

    // 1 where v goes to the high half, 0 where it goes to the low one.
    pub fn turn(self, v: f64) -> usize
        ensures { (result ≡ turn (side self.corner self.extent) v) × (result ≤ 1) }
    {
        usize::from(v >= self.midplane())
    }

    // The high or the low half.
    pub fn half(self, high: bool) -> Side
        ensures { side result.corner result.extent ≡ half high (side self.corner self.extent) }
    {
        let middle = self.midplane();
        if high {
            Side {
                corner: middle,
                extent: span(middle, self.far()),
            }
        } else {
            Side {
                corner: self.corner,
                extent: span(self.corner, middle),
            }
        }
    }

    // How far v lies below the corner or above the far edge, and 0 between them.
    pub fn distance(self, v: f64) -> f64
        ensures { result ≡ axis_distance (side self.corner self.extent) v }
    {
        if v < self.corner {
            self.corner - v
        } else if v > self.far() {
            v - self.far()
        } else {
            0.0
        }
    }
}
