//! Operations and comparisons where constants alone are known.

ghost use Rattle.std.specs.Prelude.{◌≡◌, MatchResult, Ok, Err, Some};
ghost use Rattle.ground_meaning.specs.Results.{mapped};
ghost use Rattle.ground_meaning.specs.Expressions.{constant_or, difference, product, quotient, sum};
ghost use Rattle.ground_meaning.specs.Expressions.FoldFault.{OutOfRange};
ghost use Rattle.term_verdicts.specs.Verdicts.{constant_of, fold_fault};
ghost use Rattle.term_verdicts.specs.internal.Bound.{compared_constants, operand_with, operated_constants};

use crate::faults::TermFault;
use num_ends::Dec;
use pddl_terms::{Op, Rel};
use term_patterns::{arithmetic, at_polarity};

fn in_range(value: Option<Dec>) -> Result<Option<Dec>, TermFault>
    ensures { MatchResult result (λ v. mapped constant_of (constant_or OutOfRange value) ≡ Ok v) (λ f. mapped constant_of (constant_or OutOfRange value) ≡ Err (fold_fault f)) }
{
    match value {
        Some(value) => Ok(Some(value)),
        None => Err(TermFault::OutOfRange),
    }
}

fn sum(left: Option<Dec>, right: Option<Dec>) -> Result<Option<Dec>, TermFault>
    ensures { MatchResult result (λ v. mapped constant_of (sum (operand_with left) (operand_with right)) ≡ Ok v) (λ f. mapped constant_of (sum (operand_with left) (operand_with right)) ≡ Err (fold_fault f)) }
{
    match left {
        Some(value) => match right {
            Some(other) => in_range(arithmetic::sum(value, other)),
            None => Ok(None),
        },
        None => Ok(None),
    }
}

fn difference(left: Option<Dec>, right: Option<Dec>) -> Result<Option<Dec>, TermFault>
    ensures { MatchResult result (λ v. mapped constant_of (difference (operand_with left) (operand_with right)) ≡ Ok v) (λ f. mapped constant_of (difference (operand_with left) (operand_with right)) ≡ Err (fold_fault f)) }
{
    match left {
        Some(value) => match right {
            Some(other) => in_range(arithmetic::difference(value, other)),
            None => Ok(None),
        },
        None => Ok(None),
    }
}

fn product(left: Option<Dec>, right: Option<Dec>) -> Result<Option<Dec>, TermFault>
    ensures { MatchResult result (λ v. mapped constant_of (product (operand_with left) (operand_with right)) ≡ Ok v) (λ f. mapped constant_of (product (operand_with left) (operand_with right)) ≡ Err (fold_fault f)) }
{
    match left {
        Some(value) => match right {
            Some(other) => in_range(arithmetic::product(value, other)),
            None => Ok(None),
        },
        None => Ok(None),
    }
}

fn quotient(place: u32, left: Option<Dec>, right: Option<Dec>) -> Result<Option<Dec>, TermFault>
    ensures { MatchResult result (λ v. mapped constant_of (quotient place (operand_with left) (operand_with right)) ≡ Ok v) (λ f. mapped constant_of (quotient place (operand_with left) (operand_with right)) ≡ Err (fold_fault f)) }
{
    match right {
        Some(divisor) => match arithmetic::inverse(divisor) {
            Some(inverse) => product(left, Some(inverse)),
            None => Err(TermFault::Divide(place)),
        },
        None => Err(TermFault::Divide(place)),
    }
}

/// What is known of an operation, whose right operand stands at a place of its file.
pub(crate) fn operate(
    op: Op,
    place: u32,
    left: Option<Dec>,
    right: Option<Dec>,
) -> Result<Option<Dec>, TermFault>
    ensures { MatchResult result (λ v. operated_constants op place left right ≡ Ok v) (λ f. operated_constants op place left right ≡ Err (fold_fault f)) }
{
    match op {
        Op::Add => sum(left, right),
        Op::Sub => difference(left, right),
        Op::Mul => product(left, right),
        Op::Div => quotient(place, left, right),
    }
}

/// The truth of a comparison with a constant, where the other side is a constant too.
pub(crate) fn compare(polarity: bool, rel: Rel, left: Dec, right: Option<Dec>) -> Option<bool>
    ensures { result ≡ compared_constants polarity rel (Some left) right }
{
    match right {
        Some(right) => Some(at_polarity(polarity, arithmetic::stands(rel, left, right))),
        None => None,
    }
}
