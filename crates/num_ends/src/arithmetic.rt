//! Exact arithmetic on decimals, which refuses what leaves the range.

ghost use Rattle.std.specs.Prelude.{◌≡◌, ◌+◌, ◌-◌, ◌*◌, ◌/◌, ◌%◌, ◌^◌, ◌<◌, ◌≤◌, ◌*ℤ◌, ◌+ℤ◌, ◌-ℤ◌, ℕ, ℤ, pos, MatchOption, MatchResult, unsigned_abs};
ghost use Rattle.num_ends.specs.Decimal.{Decimal, IsDec, InRange, aligned, number_at, sum_of, difference_of, product_of, order_of, trimmed, common_places};
ghost use Rattle.num_ends.specs.Arithmetic.{OperandsFit, SumFits, DifferenceFits, IsInverse};

use crate::dec::{Dec, drop_zeros};
use crate::faults::Range;
use crate::order::ten_to;
use std::cmp::Ordering;

impl Dec {
    #[inline]
    fn from_number(n: i128, p: u8) -> Result<Dec, Range>
        requires { p ≤ 18 }
        ensures { MatchResult result (λ d. (d ≡ record { n = n; p = p }) × InRange n) (λ fault. InRange n → ⊥) }
    {
        if n == i128::MIN {
            return Err(Range);
        }
        Ok(Dec { n, p })
    }

    /// The decimal of the same value with `p` places, which are at least its own and at most 18.
    #[tactic(auto, using(crate::proofs::Arithmetics::aligned_same, crate::proofs::Arithmetics::same_in_range))]
    pub fn align(self, p: u8) -> Result<Dec, Range>
        requires more { self.p ≤ p }
        requires few { p ≤ 18 }
        ensures { MatchResult result (λ d. (d ≡ aligned p self) × InRange (number_at p self)) (λ fault. InRange (number_at p self) → ⊥) }
    {
        if p == self.p {
            return Ok(self);
        }
        match self.n.checked_mul(i128::from(ten_to(p - self.p))) {
            Some(n) => Dec::from_number(n, p),
            None => Err(Range),
        }
    }

    /// The sum at equal places.
    #[inline]
    pub(crate) fn add_numbers(self, other: Dec) -> Result<Dec, Range>
        ensures { MatchResult result (λ d. (d ≡ record { n = self.n +ℤ other.n; p = self.p }) × InRange (self.n +ℤ other.n)) (λ fault. InRange (self.n +ℤ other.n) → ⊥) }
    {
        match self.n.checked_add(other.n) {
            Some(n) => Dec::from_number(n, self.p),
            None => Err(Range),
        }
    }

    /// The difference at equal places.
    #[inline]
    fn subtract_numbers(self, other: Dec) -> Result<Dec, Range>
        ensures { MatchResult result (λ d. (d ≡ record { n = self.n -ℤ other.n; p = self.p }) × InRange (self.n -ℤ other.n)) (λ fault. InRange (self.n -ℤ other.n) → ⊥) }
    {
        match self.n.checked_sub(other.n) {
            Some(n) => Dec::from_number(n, self.p),
            None => Err(Range),
        }
    }

    /// Both at the larger of their counts of places.
    fn align_both(self, other: Dec) -> Result<(Dec, Dec), Range>
        ensures { MatchResult result (λ r. (r.0 ≡ aligned (common_places self other) self) × (r.1 ≡ aligned (common_places self other) other) × OperandsFit self other) (λ fault. OperandsFit self other → ⊥) }
    {
        let p = self.places().max(other.places());
        let first = self.align(p)?;
        let second = other.align(p)?;
        Ok((first, second))
    }

    /// The sum. Both are brought to the larger of their counts of places first; `Range` where an operand at those
    /// places, or the sum, leaves the range.
    #[inline]
    pub fn add(self, other: Dec) -> Result<Dec, Range>
        ensures { MatchResult result (λ d. (d ≡ sum_of self other) × SumFits self other) (λ fault. SumFits self other → ⊥) }
    {
        if self.p == other.p {
            return self.add_numbers(other);
        }
        let (first, second) = self.align_both(other)?;
        first.add_numbers(second)
    }

    /// The difference, likewise.
    #[inline]
    pub fn sub(self, other: Dec) -> Result<Dec, Range>
        ensures { MatchResult result (λ d. (d ≡ difference_of self other) × DifferenceFits self other) (λ fault. DifferenceFits self other → ⊥) }
    {
        if self.p == other.p {
            return self.subtract_numbers(other);
        }
        let (first, second) = self.align_both(other)?;
        first.subtract_numbers(second)
    }

    /// Compares the values. Both are brought to the larger of their counts of places first; `Range` where one of them
    /// leaves the range there.
    #[inline]
    #[tactic(auto, using(crate::proofs::SamePlaces::operands_fit, crate::proofs::SamePlaces::same_order))]
    pub fn compare(self, other: Dec) -> Result<Ordering, Range>
        ensures { MatchResult result (λ o. (o ≡ order_of self other) × OperandsFit self other) (λ fault. OperandsFit self other → ⊥) }
    {
        if self.p == other.p {
            return Ok(self.order_of_numbers(other));
        }
        let (first, second) = self.align_both(other)?;
        Ok(first.order_of_numbers(second))
    }

    pub(crate) fn multiply_numbers(self, other: Dec, p: u8) -> Result<Dec, Range>
        requires { p ≤ 18 }
        ensures { MatchResult result (λ d. (d ≡ record { n = self.n *ℤ other.n; p = p }) × InRange (self.n *ℤ other.n)) (λ fault. InRange (self.n *ℤ other.n) → ⊥) }
    {
        if let (Ok(a), Ok(b)) = (i64::try_from(self.n), i64::try_from(other.n)) {
            return Dec::from_number(i128::from(a) * i128::from(b), p);
        }
        match self.n.checked_mul(other.n) {
            Some(n) => Dec::from_number(n, p),
            None => Err(Range),
        }
    }

    /// The product, with the sum of the places. `Range` where that sum is over 18 or the product leaves the range.
    pub fn mul(self, other: Dec) -> Result<Dec, Range>
        ensures { MatchResult result (λ d. (d ≡ product_of self other) × IsDec (product_of self other)) (λ fault. IsDec (product_of self other) → ⊥) }
    {
        let p = self.places() + other.places();
        if p > 18 {
            return Err(Range);
        }
        self.multiply_numbers(other, p)
    }

    /// The trimmed inverse: `None` where the value is 0, or its inverse is no decimal of at most 9 places. An inverse
    /// of so few places always fits a `Dec`.
    pub fn inverse(self) -> Option<Dec>
        ensures { MatchOption result ((e : Decimal) → IsInverse self e → e.p ≤ 9 → ⊥) (λ e. IsInverse self e × (trimmed e ≡ e) × (e.p ≤ 9)) }
    {
        let magnitude = self.magnitude();
        let whole = self.inverse_unit();
        if magnitude == 0 || whole % magnitude != 0 {
            return None;
        }
        let (n, p) = drop_zeros(whole / magnitude, 9);
        Some(Dec::of_magnitude(n, self.is_negative(), p))
    }

    /// 1 over this decimal's last place, at 9 places.
    #[tactic(auto, using(crate::proofs::Inverses::unit_power))]
    fn inverse_unit(self) -> u128
        ensures value { result ≡ 10 ^ (self.p + 9) }
        ensures small { result < 2 ^ 127 }
    {
        u128::from(ten_to(self.places())) * u128::from(ten_to(9))
    }
}
