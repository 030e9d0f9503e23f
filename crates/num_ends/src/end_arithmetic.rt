//! Sums and products of ends, moved outward into the range.

ghost use Rattle.std.specs.Prelude.{◌≡◌, ◌+◌, ◌≤◌, Bool, pos, max};
ghost use Rattle.std.specs.Ordering.{int_eq};
ghost use Rattle.num_ends.specs.Arithmetic.{HasPlaces, end_places, lower_at, upper_at, outward_lower, outward_upper, lower_sum, upper_sum, outward_lower_sum, outward_upper_sum, mirrored_end, negative_of, is_closed_zero, is_open_zero, is_negative_end, infinite_product, exact_product, end_product};

use crate::dec::Dec;
use crate::ends::End;

impl Dec {
    fn negated(self) -> Dec
        ensures { result ≡ negative_of self }
    {
        Dec {
            n: -self.n,
            p: self.p,
        }
    }

    fn is_zero(self) -> bool
        ensures { result ≡ int_eq self.n (pos 0) }
    {
        self.n == 0
    }
}

impl End {
    /// A finite end's count of places.
    pub(crate) fn places(&self) -> u8
        ensures value { result ≡ end_places self.now }
        ensures few { result ≤ 18 }
    {
        match self {
            End::NegInf => 0,
            End::Excl(d) => d.places(),
            End::Incl(d) => d.places(),
            End::PosInf => 0,
        }
    }

    /// This lower end with `p` places, moved outward.
    pub(crate) fn lower_at(&self, p: u8) -> End
        requires more { end_places self.now ≤ p }
        requires few { p ≤ 18 }
        ensures { result ≡ lower_at p self.now }
    {
        match self {
            End::NegInf => End::NegInf,
            End::Excl(d) => d.lower_end_at(p, false),
            End::Incl(d) => d.lower_end_at(p, true),
            End::PosInf => End::PosInf,
        }
    }

    /// This upper end with `p` places, moved outward.
    pub(crate) fn upper_at(&self, p: u8) -> End
        requires more { end_places self.now ≤ p }
        requires few { p ≤ 18 }
        ensures { result ≡ upper_at p self.now }
    {
        match self {
            End::NegInf => End::NegInf,
            End::Excl(d) => d.upper_end_at(p, false),
            End::Incl(d) => d.upper_end_at(p, true),
            End::PosInf => End::PosInf,
        }
    }

    /// The sum of two lower ends whose decimals have `p` places, moved outward.
    fn add_lower_at(&self, other: &End, p: u8) -> End
        requires first { HasPlaces p self.now }
        requires second { HasPlaces p other.now }
        ensures { result ≡ outward_lower (lower_sum self.now other.now) }
    {
        match (self, other) {
            (End::Incl(a), End::Incl(b)) => a.lower_end_of_sum(*b, p, true),
            (End::Incl(a), End::Excl(b)) => a.lower_end_of_sum(*b, p, false),
            (End::Excl(a), End::Incl(b)) => a.lower_end_of_sum(*b, p, false),
            (End::Excl(a), End::Excl(b)) => a.lower_end_of_sum(*b, p, false),
            _ => End::NegInf,
        }
    }

    /// The sum of two upper ends whose decimals have `p` places, moved outward.
    fn add_upper_at(&self, other: &End, p: u8) -> End
        requires first { HasPlaces p self.now }
        requires second { HasPlaces p other.now }
        ensures { result ≡ outward_upper (upper_sum self.now other.now) }
    {
        match (self, other) {
            (End::Incl(a), End::Incl(b)) => a.upper_end_of_sum(*b, p, true),
            (End::Incl(a), End::Excl(b)) => a.upper_end_of_sum(*b, p, false),
            (End::Excl(a), End::Incl(b)) => a.upper_end_of_sum(*b, p, false),
            (End::Excl(a), End::Excl(b)) => a.upper_end_of_sum(*b, p, false),
            _ => End::PosInf,
        }
    }

    /// The sum of two lower ends, at the larger places.
    #[tactic(auto, using(crate::proofs::OutwardSteps::lower_at_places))]
    pub(crate) fn add_lower(&self, other: &End) -> End
        ensures { result ≡ outward_lower_sum self.now other.now }
    {
        let p = self.places().max(other.places());
        self.lower_at(p).add_lower_at(&other.lower_at(p), p)
    }

    /// The sum of two upper ends, at the larger places.
    #[tactic(auto, using(crate::proofs::OutwardSteps::upper_at_places))]
    pub(crate) fn add_upper(&self, other: &End) -> End
        ensures { result ≡ outward_upper_sum self.now other.now }
    {
        let p = self.places().max(other.places());
        self.upper_at(p).add_upper_at(&other.upper_at(p), p)
    }

    pub(crate) fn mirrored(&self) -> End
        ensures { result ≡ mirrored_end self.now }
    {
        match self {
            End::NegInf => End::PosInf,
            End::Excl(d) => End::Excl(d.negated()),
            End::Incl(d) => End::Incl(d.negated()),
            End::PosInf => End::NegInf,
        }
    }

    fn is_closed_zero(&self) -> bool
        ensures { result ≡ is_closed_zero self.now }
    {
        match self {
            End::Incl(d) => d.is_zero(),
            _ => false,
        }
    }

    fn is_open_zero(&self) -> bool
        ensures { result ≡ is_open_zero self.now }
    {
        match self {
            End::Excl(d) => d.is_zero(),
            _ => false,
        }
    }

    fn is_negative(&self) -> bool
        ensures { result ≡ is_negative_end self.now }
    {
        match self {
            End::NegInf => true,
            End::Excl(d) => d.is_negative(),
            End::Incl(d) => d.is_negative(),
            End::PosInf => false,
        }
    }

    /// An infinite end with the sign of the product.
    fn infinite_product(&self, other: &End) -> End
        ensures { result ≡ infinite_product (is_negative_end self.now) (is_negative_end other.now) }
    {
        match (self.is_negative(), other.is_negative()) {
            (true, true) => End::PosInf,
            (true, false) => End::NegInf,
            (false, true) => End::NegInf,
            (false, false) => End::PosInf,
        }
    }

    /// The product of two ends that are not 0, moved outward as a lower and as an upper end.
    fn exact_product(&self, other: &End) -> (End, End)
        requires { end_places self.now + end_places other.now ≤ 18 }
        ensures lower { result.0 ≡ outward_lower (exact_product self.now other.now) }
        ensures upper { result.1 ≡ outward_upper (exact_product self.now other.now) }
    {
        match (self, other) {
            (End::Incl(a), End::Incl(b)) => a.ends_of_product(*b, true),
            (End::Incl(a), End::Excl(b)) => a.ends_of_product(*b, false),
            (End::Excl(a), End::Incl(b)) => a.ends_of_product(*b, false),
            (End::Excl(a), End::Excl(b)) => a.ends_of_product(*b, false),
            _ => (self.infinite_product(other), self.infinite_product(other)),
        }
    }

    /// The product of two ends, moved outward as a lower and as an upper end.
    pub(crate) fn product(&self, other: &End) -> (End, End)
        requires { end_places self.now + end_places other.now ≤ 18 }
        ensures lower { result.0 ≡ outward_lower (end_product self.now other.now) }
        ensures upper { result.1 ≡ outward_upper (end_product self.now other.now) }
    {
        let zero = Dec { n: 0, p: 0 };
        if self.is_closed_zero() || other.is_closed_zero() {
            (End::Incl(zero), End::Incl(zero))
        } else if self.is_open_zero() || other.is_open_zero() {
            (End::Excl(zero), End::Excl(zero))
        } else {
            self.exact_product(other)
        }
    }
}
