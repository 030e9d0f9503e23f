//! Operations on trimmed decimals within the range.

ghost use Rattle.std.specs.Prelude.{◌≡◌};
ghost use Rattle.num_ends.specs.Arithmetic.{negative_of};
ghost use Rattle.simple_atoms.specs.Ranged.{trimmed_sum, trimmed_product};

use num_ends::Dec;

/// The trimmed sum; none where it, or an operand at the larger count of places, leaves the range.
#[tactic(auto, using(crate::proofs::RangeSteps::sum_given, crate::proofs::RangeSteps::sum_refused))]
pub(crate) fn sum(left: Dec, right: Dec) -> Option<Dec>
    ensures { result ≡ trimmed_sum left right }
{
    match left.add(right) {
        Ok(value) => Some(value.trim()),
        Err(_) => None,
    }
}

/// The trimmed product; none where it leaves the range or has more than 18 places.
#[tactic(auto, using(crate::proofs::RangeSteps::product_given, crate::proofs::RangeSteps::product_refused))]
pub(crate) fn product(left: Dec, right: Dec) -> Option<Dec>
    ensures { result ≡ trimmed_product left right }
{
    match left.mul(right) {
        Ok(value) => Some(value.trim()),
        Err(_) => None,
    }
}

pub(crate) fn negative(number: Dec) -> Dec
    ensures { result ≡ negative_of number }
{
    Dec {
        n: -number.n,
        p: number.p,
    }
}
