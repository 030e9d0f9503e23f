//! Ends of exact decimals, moved outward into the range.

ghost use Rattle.std.specs.Prelude.{◌≡◌, ◌+◌, ◌≤◌, ◌*ℤ◌, Bool, pos, int_lt, int_le};
ghost use Rattle.num_ends.specs.Decimal.{Decimal, InRange, aligned, sum_of, product_of};
ghost use Rattle.num_ends.specs.Arithmetic.{top_number, bottom_number, top, bottom, outward_lower, outward_upper};
ghost use Rattle.num_ends.specs.Inside.{IsKnown, end_of};

use crate::dec::Dec;
use crate::ends::End;
use crate::faults::Range;

impl Dec {
    fn top(p: u8) -> Dec
        requires { p ≤ 18 }
        ensures { result ≡ top p }
    {
        Dec { n: i128::MAX, p }
    }

    fn bottom(p: u8) -> Dec
        requires { p ≤ 18 }
        ensures { result ≡ bottom p }
    {
        Dec { n: -i128::MAX, p }
    }

    fn is_top(self) -> bool
        ensures { result ≡ int_le top_number self.n }
    {
        i128::MAX <= self.n
    }

    fn is_bottom(self) -> bool
        ensures { result ≡ int_le self.n bottom_number }
    {
        self.n <= -i128::MAX
    }
}

/// The lower end at an exact decimal with `p` places, of which `found` is the decimal where it fits, and `negative` its
/// sign where it does not.
#[tactic(auto, using(crate::proofs::Known::lower_closed, crate::proofs::Known::lower_open, crate::proofs::Known::lower_open_top, crate::proofs::Known::lower_under, crate::proofs::Known::lower_over))]
fn lower_end(found: &Result<Dec, Range>, negative: bool, p: u8, closed: bool) -> End
    requires { p ≤ 18 }
    ensures { (exact : Decimal) → IsKnown exact found.now negative → exact.p ≡ p → result ≡ outward_lower (end_of closed exact) }
{
    match found {
        Ok(d) => {
            if closed {
                End::Incl(*d)
            } else if d.is_top() {
                End::Incl(Dec::top(p))
            } else {
                End::Excl(*d)
            }
        }
        Err(_) => {
            if negative {
                End::NegInf
            } else {
                End::Incl(Dec::top(p))
            }
        }
    }
}

/// The upper end, likewise.
#[tactic(auto, using(crate::proofs::Known::upper_closed, crate::proofs::Known::upper_open, crate::proofs::Known::upper_open_bottom, crate::proofs::Known::upper_under, crate::proofs::Known::upper_over))]
fn upper_end(found: &Result<Dec, Range>, negative: bool, p: u8, closed: bool) -> End
    requires { p ≤ 18 }
    ensures { (exact : Decimal) → IsKnown exact found.now negative → exact.p ≡ p → result ≡ outward_upper (end_of closed exact) }
{
    match found {
        Ok(d) => {
            if closed {
                End::Incl(*d)
            } else if d.is_bottom() {
                End::Incl(Dec::bottom(p))
            } else {
                End::Excl(*d)
            }
        }
        Err(_) => {
            if negative {
                End::Incl(Dec::bottom(p))
            } else {
                End::PosInf
            }
        }
    }
}

impl Dec {
    /// The lower end at this decimal, with `p` places.
    #[tactic(auto, using(crate::proofs::Known::aligned_known))]
    pub(crate) fn lower_end_at(self, p: u8, closed: bool) -> End
        requires more { self.p ≤ p }
        requires few { p ≤ 18 }
        ensures { result ≡ outward_lower (end_of closed (aligned p self)) }
    {
        lower_end(&self.align(p), self.is_negative(), p, closed)
    }

    /// The upper end at this decimal, with `p` places.
    #[tactic(auto, using(crate::proofs::Known::aligned_known))]
    pub(crate) fn upper_end_at(self, p: u8, closed: bool) -> End
        requires more { self.p ≤ p }
        requires few { p ≤ 18 }
        ensures { result ≡ outward_upper (end_of closed (aligned p self)) }
    {
        upper_end(&self.align(p), self.is_negative(), p, closed)
    }

    /// The lower end at the sum of two decimals with `p` places.
    #[tactic(auto, using(crate::proofs::Known::sum_known))]
    pub(crate) fn lower_end_of_sum(self, other: Dec, p: u8, closed: bool) -> End
        requires first { self.p ≡ p }
        requires second { other.p ≡ p }
        ensures { result ≡ outward_lower (end_of closed (sum_of self other)) }
    {
        lower_end(&self.add_numbers(other), self.is_negative(), p, closed)
    }

    /// The upper end at the sum of two decimals with `p` places.
    #[tactic(auto, using(crate::proofs::Known::sum_known))]
    pub(crate) fn upper_end_of_sum(self, other: Dec, p: u8, closed: bool) -> End
        requires first { self.p ≡ p }
        requires second { other.p ≡ p }
        ensures { result ≡ outward_upper (end_of closed (sum_of self other)) }
    {
        upper_end(&self.add_numbers(other), self.is_negative(), p, closed)
    }

    /// The sign of the product, where that leaves the range.
    #[tactic(auto, using(crate::proofs::Known::product_sign))]
    fn product_is_negative(self, other: Dec) -> bool
        ensures { (InRange (self.n *ℤ other.n) → ⊥) → result ≡ int_lt (self.n *ℤ other.n) (pos 0) }
    {
        if self.is_negative() {
            !other.is_negative()
        } else {
            other.is_negative()
        }
    }

    /// The lower and the upper end at the product of two decimals.
    #[tactic(auto, using(crate::proofs::Known::product_known))]
    pub(crate) fn ends_of_product(self, other: Dec, closed: bool) -> (End, End)
        requires { self.p + other.p ≤ 18 }
        ensures lower { result.0 ≡ outward_lower (end_of closed (product_of self other)) }
        ensures upper { result.1 ≡ outward_upper (end_of closed (product_of self other)) }
    {
        let p = self.places() + other.places();
        let found = self.multiply_numbers(other, p);
        let negative = self.product_is_negative(other);
        (
            lower_end(&found, negative, p, closed),
            upper_end(&found, negative, p, closed),
        )
    }
}
