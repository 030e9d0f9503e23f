//! Operations on constants, within the range, and comparisons of them.

ghost use Rattle.std.specs.Prelude.{◌≡◌};
ghost use Rattle.num_ends.specs.Decimal.{Decimal, order_of};
ghost use Rattle.pddl_terms.specs.declared.expressions.Op.TheVariants as op;
ghost use Rattle.pddl_meaning.specs.Truth.{stands};
ghost use Rattle.pddl_meaning.specs.Values.{in_bounds, inverse_of, ranged_product};

use num_ends::Dec;
use pddl_terms::Rel;
use std::cmp::Ordering;

/// The sum, trimmed; none where it leaves the range.
#[tactic(auto, using(pddl_meaning::proofs::Ranges::sum_given, pddl_meaning::proofs::Ranges::sum_refused))]
pub fn sum(left: Dec, right: Dec) -> Option<Dec>
    ensures { result ≡ in_bounds op.Add left right }
{
    match left.add(right) {
        Ok(value) => Some(value.trim()),
        Err(_) => None,
    }
}

/// The difference, likewise.
#[tactic(auto, using(pddl_meaning::proofs::Ranges::difference_given, pddl_meaning::proofs::Ranges::difference_refused))]
pub fn difference(left: Dec, right: Dec) -> Option<Dec>
    ensures { result ≡ in_bounds op.Sub left right }
{
    match left.sub(right) {
        Ok(value) => Some(value.trim()),
        Err(_) => None,
    }
}

#[tactic(auto, using(pddl_meaning::proofs::Ranges::product_given, pddl_meaning::proofs::Ranges::product_refused))]
fn ranged_product(left: Dec, right: Dec) -> Option<Dec>
    ensures { result ≡ ranged_product left right }
{
    match left.mul(right) {
        Ok(value) => Some(value.trim()),
        Err(_) => None,
    }
}

/// The product, likewise.
#[tactic(auto, using(pddl_meaning::proofs::Ranges::multiplied))]
pub fn product(left: Dec, right: Dec) -> Option<Dec>
    ensures { result ≡ in_bounds op.Mul left right }
{
    ranged_product(left, right)
}

/// The inverse, trimmed; none where it isn't a decimal of at most 9 places.
#[tactic(auto, using(pddl_meaning::proofs::Inverses::inverse_given, pddl_meaning::proofs::Inverses::inverse_refused))]
pub fn inverse(value: Dec) -> Option<Dec>
    ensures { result ≡ inverse_of value }
{
    match value.inverse() {
        Some(inverse) => Some(inverse),
        None => None,
    }
}

fn stands_by(rel: Rel, order: Ordering) -> bool
    ensures { (a b : Decimal) → order ≡ order_of a b → result ≡ stands rel a b }
{
    match rel {
        Rel::Less => matches!(order, Ordering::Less),
        Rel::LessEqual => !matches!(order, Ordering::Greater),
        Rel::Equal => matches!(order, Ordering::Equal),
        Rel::GreaterEqual => !matches!(order, Ordering::Less),
        Rel::Greater => matches!(order, Ordering::Greater),
    }
}

/// Whether a comparison of two constants is true, exactly, whatever their places.
pub fn stands(rel: Rel, left: Dec, right: Dec) -> bool
    ensures { result ≡ stands rel left right }
{
    stands_by(rel, left.order(right))
}
