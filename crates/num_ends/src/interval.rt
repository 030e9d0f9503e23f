//! Intervals of decimals, which are never empty.

ghost use Rattle.std.specs.Prelude.{◌≡◌, ◌≤◌, MatchOption, IsTrue, IsFalse};
ghost use Rattle.num_ends.specs.Ends.{point_of, whole_line, is_inhabited, has, is_within, hull_of, may_less, may_less_equal, may_equal, lower_hull, upper_hull};
ghost use Rattle.num_ends.specs.Arithmetic.{interval_sum, interval_difference, interval_product, outward_of, mirrored, end_places, ProductPlaces};

use crate::dec::Dec;
use crate::ends::End;
use std::marker::Model;

/// The decimals, of any number of places, between a lower and an upper end. At least one lies there.
#[derive(Clone, Copy, Debug)]
pub struct Interval {
    lower: End,
    upper: End,
}

impl Model for Interval {
    ghost use Rattle.std.specs.Prelude.{IsTrue};
    ghost use Rattle.num_ends.specs.Ends.{Interval, is_inhabited};

    ghost Value = { Interval };

    ghost view = { λ it. (it.lower, it.upper) };

    ghost invariant = { λ it. IsTrue (is_inhabited it.lower it.upper) };

    ghost inverse = { λ ends. record { lower = ends.0; upper = ends.1 } };
}

impl Interval {
    /// The interval between two ends, or `None` where no decimal lies between them.
    pub fn of(lower: End, upper: End) -> Option<Interval>
        ensures { MatchOption result (IsFalse (is_inhabited lower upper)) (λ i. (IsTrue (is_inhabited lower upper)) × (i ≡ (lower, upper))) }
    {
        if lower.is_inhabited(&upper) {
            Some(Interval { lower, upper })
        } else {
            None
        }
    }

    /// The interval of one decimal.
    pub fn point(d: Dec) -> Interval
        ensures { result ≡ point_of d }
    {
        Interval {
            lower: End::Incl(d),
            upper: End::Incl(d),
        }
    }

    /// All decimals.
    pub fn whole() -> Interval
        ensures { result ≡ whole_line }
    {
        Interval {
            lower: End::NegInf,
            upper: End::PosInf,
        }
    }

    pub fn lower(&self) -> End
        ensures { result ≡ self.now.0 }
    {
        self.lower
    }

    pub fn upper(&self) -> End
        ensures { result ≡ self.now.1 }
    {
        self.upper
    }

    /// The least interval around both.
    #[tactic(auto, using(crate::proofs::Members::hull_inhabited))]
    pub fn hull(self, other: Interval) -> Interval
        ensures { result ≡ hull_of self other }
    {
        Interval {
            lower: self.lower.lower_hull(&other.lower),
            upper: self.upper.upper_hull(&other.upper),
        }
    }

    /// Whether some value of this interval is less than some value of the other.
    pub fn may_less(self, other: Interval) -> bool
        ensures { result ≡ may_less self other }
    {
        self.lower.is_end_below(&other.upper)
    }

    /// Whether some value of this interval is at most some value of the other.
    pub fn may_less_equal(self, other: Interval) -> bool
        ensures { result ≡ may_less_equal self other }
    {
        self.lower.is_inhabited(&other.upper)
    }

    /// Whether some value is in both.
    pub fn may_equal(self, other: Interval) -> bool
        ensures { result ≡ may_equal self other }
    {
        self.may_less_equal(other) && other.may_less_equal(self)
    }

    /// Whether a decimal is a member.
    pub fn has(self, d: Dec) -> bool
        ensures { result ≡ has self d }
    {
        self.lower.is_above(d) && self.upper.is_below(d)
    }

    /// Whether each member is a member of the other.
    pub fn within(self, other: Interval) -> bool
        ensures { result ≡ is_within self other }
    {
        other.lower.lower_covers(&self.lower) && other.upper.upper_covers(&self.upper)
    }

    /// The sum: each pair of ends is brought to the larger of their places, outward, and added. It has the sum of each
    /// two members.
    #[tactic(auto, using(crate::proofs::OutwardSteps::sum_inhabited))]
    pub fn add(self, other: Interval) -> Interval
        ensures { result ≡ interval_sum self other }
    {
        Interval {
            lower: self.lower.add_lower(&other.lower),
            upper: self.upper.add_upper(&other.upper),
        }
    }

    #[tactic(auto, using(crate::proofs::Mirrors::mirrored_inhabited))]
    fn mirrored(self) -> Interval
        ensures { result ≡ mirrored self }
    {
        Interval {
            lower: self.upper.mirrored(),
            upper: self.lower.mirrored(),
        }
    }

    /// The difference, which is the sum with the interval of the other's negatives.
    pub fn sub(self, other: Interval) -> Interval
        ensures { result ≡ interval_difference self other }
    {
        self.add(other.mirrored())
    }

    /// The product: the least and the greatest product of two ends, moved outward into the range. The finite ends of
    /// each interval have one count of places, and the two counts sum to at most 18. It has the product of each two
    /// members.
    #[tactic(auto, using(crate::proofs::IntervalProducts::product_inhabited))]
    pub fn mul(self, other: Interval) -> Interval
        requires { ProductPlaces self other }
        ensures { result ≡ interval_product self other }
    {
        let (lower, upper) = ends_of_product(&self.lower, &self.upper, &other.lower, &other.upper);
        Interval { lower, upper }
    }

    /// Each finite end at `p` places, moved outward into the range. `p` is at most 18, and no end has more places.
    #[tactic(auto, using(crate::proofs::OutwardSteps::outward_inhabited))]
    pub fn outward(self, p: u8) -> Interval
        requires lower { end_places self.0 ≤ p }
        requires upper { end_places self.1 ≤ p }
        requires few { p ≤ 18 }
        ensures { result ≡ outward_of p self }
    {
        Interval {
            lower: self.lower.lower_at(p),
            upper: self.upper.upper_at(p),
        }
    }
}

/// The further out of two lower ends, and of two upper ends.
fn hull_of_ends(first: &(End, End), second: &(End, End)) -> (End, End)
    ensures lower { result.0 ≡ lower_hull first.now.0 second.now.0 }
    ensures upper { result.1 ≡ upper_hull first.now.1 second.now.1 }
{
    (first.0.lower_hull(&second.0), first.1.upper_hull(&second.1))
}

/// The ends of the product of the interval from `a` to `b` and that from `c` to `d`.
#[tactic(auto, using(crate::proofs::Clips::few_products))]
fn ends_of_product(a: &End, b: &End, c: &End, d: &End) -> (End, End)
    requires { ProductPlaces (a.now, b.now) (c.now, d.now) }
    ensures lower { result.0 ≡ (interval_product (a.now, b.now) (c.now, d.now)).0 }
    ensures upper { result.1 ≡ (interval_product (a.now, b.now) (c.now, d.now)).1 }
{
    let lower = hull_of_ends(&a.product(c), &a.product(d));
    let upper = hull_of_ends(&b.product(c), &b.product(d));
    hull_of_ends(&lower, &upper)
}
