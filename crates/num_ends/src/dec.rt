//! A decimal of 128 bits.

ghost use Rattle.std.specs.Prelude.{◌≡◌, ◌*◌, ◌^◌, ◌<◌, ◌≤◌, ℕ, Bool, pos, neg_ℤ, cond, int_lt, unsigned_abs};
ghost use Rattle.num_ends.specs.Decimal.{trimmed, without_zeros};

use std::marker::Model;

/// The decimal `n / 10^p`, with `|n|` at most 2^127 - 1 and `p` at most 18.
///
/// Two of one value may have different numbers of places, and then differ as values of this type.
#[derive(Clone, Copy, Debug)]
pub struct Dec {
    /// The number over the power of ten.
    pub n: i128,
    /// How many places stand behind the point.
    pub p: u8,
}

impl Model for Dec {
    ghost use Rattle.num_ends.specs.Decimal.{Decimal, IsDec};

    ghost Value = { Decimal };

    ghost view = { λ d. record { n = d.n; p = d.p } };

    ghost invariant = { λ d. IsDec (record { n = d.n; p = d.p }) };

    ghost inverse = { λ d. record { n = d.n; p = d.p } };
}

/// Drops last digits 0, at most as many as there are places.
#[tactic(auto, using(crate::proofs::Zeros::zero_dropped, crate::proofs::Zeros::digit_kept, crate::proofs::Zeros::no_places))]
pub(crate) fn drop_zeros(mut magnitude: u128, mut p: u8) -> (u128, u8)
    ensures value { without_zeros p (pos magnitude) ≡ record { n = pos result.0; p = result.1 } }
    ensures smaller { result.0 ≤ magnitude }
    ensures fewer { result.1 ≤ p }
{
    while p > 0 && magnitude % 10 == 0 {
        magnitude /= 10;
        p -= 1;
    }
    (magnitude, p)
}

impl Dec {
    pub(crate) fn of_magnitude(magnitude: u128, negative: bool, p: u8) -> Dec
        requires in_range { magnitude < 2 ^ 127 }
        requires few_places { p ≤ 18 }
        ensures { result ≡ record { n = cond negative (neg_ℤ (pos magnitude)) (pos magnitude); p = p } }
    {
        let n = magnitude as i128;
        Dec {
            n: if negative { -n } else { n },
            p,
        }
    }

    pub(crate) fn is_negative(self) -> bool
        ensures { result ≡ int_lt self.n (pos 0) }
    {
        self.n < 0
    }

    /// The number without its sign.
    pub(crate) fn magnitude(self) -> u128
        ensures value { result ≡ unsigned_abs self.n }
        ensures in_range { result < 2 ^ 127 }
    {
        self.n.unsigned_abs()
    }

    pub(crate) fn places(self) -> u8
        ensures value { result ≡ self.p }
        ensures few { result ≤ 18 }
    {
        self.p
    }

    /// The decimal of the same value with the fewest places.
    pub fn trim(self) -> Dec
        ensures { result ≡ trimmed self }
    {
        let (magnitude, p) = drop_zeros(self.magnitude(), self.places());
        Dec::of_magnitude(magnitude, self.is_negative(), p)
    }
}
