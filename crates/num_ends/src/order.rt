//! The order of decimals by value, without a product that could leave 128 bits.

ghost use Rattle.std.specs.Prelude.{◌≡◌, ◌*◌, ◌/◌, ◌%◌, ◌-◌, ◌^◌, ◌<◌, ◌≤◌, unsigned_abs};
ghost use Rattle.std.specs.Ordering.{nat_cmp, int_cmp};
ghost use Rattle.num_ends.specs.Decimal.{is_less, is_at_most, order_of};

use crate::dec::Dec;
use std::cmp::Ordering;

/// 10^p, at most 10^18.
#[tactic(auto, using(crate::proofs::OrderSteps::ten_positive))]
pub(crate) fn ten_to(p: u8) -> u64
    requires { p ≤ 18 }
    ensures value { result ≡ 10 ^ p }
    ensures positive { 0 < result }
{
    10u64.pow(u32::from(p))
}

/// Compares a / 10^p and b / 10^q by one product each, which 64 bits times 10^18 leave room for.
fn order_of_small(a: u64, p: u8, b: u64, q: u8) -> Ordering
    requires p_few { p ≤ 18 }
    requires q_few { q ≤ 18 }
    ensures { result ≡ nat_cmp (a * 10 ^ q) (b * 10 ^ p) }
{
    let left = u128::from(a) * u128::from(ten_to(q));
    let right = u128::from(b) * u128::from(ten_to(p));
    left.cmp(&right)
}

/// The whole part of a / 10^p, and its fraction as a number of 18 places.
#[tactic(auto, using(crate::proofs::OrderSteps::fraction_below))]
fn parts(a: u128, p: u8) -> (u128, u128)
    requires { p ≤ 18 }
    ensures whole { result.0 ≡ a / 10 ^ p }
    ensures fraction { result.1 ≡ a % 10 ^ p * 10 ^ (18 - p) }
{
    let unit = u128::from(ten_to(p));
    (a / unit, a % unit * u128::from(ten_to(18 - p)))
}

/// Compares a / 10^p and b / 10^q by their whole parts, and then by their fractions.
#[tactic(auto, using(crate::proofs::OrderSteps::parts_decide))]
fn order_of_large(a: u128, p: u8, b: u128, q: u8) -> Ordering
    requires p_few { p ≤ 18 }
    requires q_few { q ≤ 18 }
    ensures { result ≡ nat_cmp (a * 10 ^ q) (b * 10 ^ p) }
{
    let (a_whole, a_fraction) = parts(a, p);
    let (b_whole, b_fraction) = parts(b, q);
    match a_whole.cmp(&b_whole) {
        Ordering::Equal => a_fraction.cmp(&b_fraction),
        unequal => unequal,
    }
}

impl Dec {
    fn order_of_magnitudes(self, other: Dec) -> Ordering
        ensures { result ≡ nat_cmp (unsigned_abs self.n * 10 ^ other.p) (unsigned_abs other.n * 10 ^ self.p) }
    {
        let (a, b) = (self.magnitude(), other.magnitude());
        if let (Ok(a), Ok(b)) = (u64::try_from(a), u64::try_from(b)) {
            return order_of_small(a, self.places(), b, other.places());
        }
        order_of_large(a, self.places(), b, other.places())
    }

    #[tactic(auto, using(crate::proofs::OrderSteps::signs_decide))]
    fn order_by_signs(self, other: Dec) -> Ordering
        ensures { result ≡ order_of self other }
    {
        match (self.is_negative(), other.is_negative()) {
            (false, false) => self.order_of_magnitudes(other),
            (false, true) => Ordering::Greater,
            (true, false) => Ordering::Less,
            (true, true) => other.order_of_magnitudes(self),
        }
    }

    #[inline]
    pub(crate) fn order_of_numbers(self, other: Dec) -> Ordering
        ensures { result ≡ int_cmp self.n other.n }
    {
        self.n.cmp(&other.n)
    }

    /// Compares the values, exactly, whatever their places.
    #[inline]
    #[tactic(auto, using(crate::proofs::OrderSteps::same_places))]
    pub fn order(self, other: Dec) -> Ordering
        ensures { result ≡ order_of self other }
    {
        if self.p == other.p {
            return self.order_of_numbers(other);
        }
        self.order_by_signs(other)
    }

    pub(crate) fn is_less(self, other: Dec) -> bool
        ensures { result ≡ is_less self other }
    {
        matches!(self.order(other), Ordering::Less)
    }

    pub(crate) fn is_at_most(self, other: Dec) -> bool
        ensures { result ≡ is_at_most self other }
    {
        !other.is_less(self)
    }
}
