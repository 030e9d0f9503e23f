//! The truth of conditions, within the range.

ghost use Rattle.std.specs.Prelude.{◌≡◌, IfOk, bytes_eq};
ghost use Rattle.std.specs.FinSet as set;
ghost use Rattle.std.specs.List.{list_all};
ghost use Rattle.pddl_meaning.specs.internal.Connectives.{truth_of_all, truth_of_any, both_of, compared, comparison, either_of, not_of, truth_of};
ghost use Rattle.num_ends.specs.Decimal.{Decimal, order_of};
ghost use Rattle.pddl_terms.specs.Texts.{argument_text, ground_text};
ghost use Rattle.pddl_meaning.specs.Truth.{is_defined, ranged_truth, stands};
ghost use Rattle.pddl_meaning.specs.declared.answers.Holds.TheVariants as answer;

use crate::answers::Holds;
use crate::texts::{Binding, argument_text, write_ground_text};
use crate::values::{reads_defined, value_of};
use num_ends::{Dec, NoMemory};
use pddl_terms::{Arg, Atom, Cond, Expr, Rel};
use std::cmp::Ordering;

// ---- answers

fn truth_of(holds: bool) -> Holds
    ensures { result ≡ truth_of holds }
{
    if holds { Holds::Yes } else { Holds::No }
}

fn not_of(answer: Holds) -> Holds
    ensures { result ≡ not_of answer }
{
    match answer {
        Holds::Yes => Holds::No,
        Holds::No => Holds::Yes,
        Holds::Over => Holds::Over,
    }
}

fn both_of(first: Holds, second: Holds) -> Holds
    ensures { result ≡ both_of first second }
{
    match first {
        Holds::Over => Holds::Over,
        Holds::Yes => second,
        Holds::No => match second {
            Holds::Over => Holds::Over,
            _ => Holds::No,
        },
    }
}

fn either_of(first: Holds, second: Holds) -> Holds
    ensures { result ≡ either_of first second }
{
    match first {
        Holds::Over => Holds::Over,
        Holds::No => second,
        Holds::Yes => match second {
            Holds::Over => Holds::Over,
            _ => Holds::Yes,
        },
    }
}

// ---- parts

pub(crate) fn is_fact(
    binding: &Binding,
    atom: &Atom,
    buffer: &mut Vec<u8>,
) -> Result<bool, NoMemory>
    ensures { IfOk result (λ holds. holds ≡ set.contains binding.now.world.now.facts (ground_text binding.now.params.now binding.now.args.now atom.now)) }
{
    write_ground_text(binding, atom, buffer)?;
    Ok(binding.world.is_fact(buffer.as_slice()))
}

pub(crate) fn is_same(binding: &Binding, first: &Arg, second: &Arg) -> bool
    ensures { result ≡ bytes_eq (argument_text binding.now.params.now binding.now.args.now first.now) (argument_text binding.now.params.now binding.now.args.now second.now) }
{
    argument_text(binding, first) == argument_text(binding, second)
}

fn stands(rel: Rel, order: Ordering) -> bool
    ensures { (a b : Decimal) → order ≡ order_of a b → result ≡ stands rel a b }
{
    match rel {
        Rel::Less => matches!(order, Ordering::Less),
        Rel::LessEqual => !matches!(order, Ordering::Greater),
        Rel::Equal => matches!(order, Ordering::Equal),
        Rel::GreaterEqual => !matches!(order, Ordering::Less),
        Rel::Greater => matches!(order, Ordering::Greater),
    }
}

fn compare_values(rel: Rel, left: Dec, right: Dec) -> Holds
    ensures { result ≡ compared rel left right }
{
    match left.compare(right) {
        Ok(order) => truth_of(stands(rel, order)),
        Err(_) => Holds::Over,
    }
}

fn compare(
    binding: &Binding,
    rel: Rel,
    left: &Expr,
    right: &Expr,
    buffer: &mut Vec<u8>,
) -> Result<Holds, NoMemory>
    ensures { IfOk result (λ holds. holds ≡ comparison binding.now.params.now binding.now.args.now binding.now.world.now rel left.now right.now) }
{
    let left = value_of(binding, left, buffer)?;
    let right = value_of(binding, right, buffer)?;
    match (left, right) {
        (Some(left), Some(right)) => Ok(compare_values(rel, left, right)),
        _ => Ok(Holds::Over),
    }
}

// ---- conditions

/// Whether a condition is true; `Over` where a subvalue of one of its comparisons leaves the range. None is skipped. The
/// buffer is for texts.
#[cycle(conditions)]
#[tactic(auto, using(crate::proofs::Truths::ranged_And, crate::proofs::Truths::ranged_Or, crate::proofs::Truths::ranged_Not, crate::proofs::Truths::ranged_Imply, crate::proofs::Truths::ranged_Fact, crate::proofs::Truths::ranged_Same, crate::proofs::Truths::ranged_Cmp))]
pub(crate) fn truth(binding: &Binding, cond: &Cond, buffer: &mut Vec<u8>) -> Result<Holds, NoMemory>
    ensures { IfOk result (λ holds. holds ≡ ranged_truth binding.now.params.now binding.now.args.now binding.now.world.now cond.now) }
{
    match cond {
        Cond::And(conds) => truth_of_all(binding, conds.as_slice(), buffer),
        Cond::Or(conds) => truth_of_any(binding, conds.as_slice(), buffer),
        Cond::Not(cond) => Ok(not_of(truth(binding, cond.get(), buffer)?)),
        Cond::Imply(first, second) => {
            let first = truth(binding, first.get(), buffer)?;
            let second = truth(binding, second.get(), buffer)?;
            Ok(either_of(not_of(first), second))
        }
        Cond::Fact(atom) => Ok(truth_of(is_fact(binding, atom, buffer)?)),
        Cond::Same(first, second) => Ok(truth_of(is_same(binding, first, second))),
        Cond::Cmp(rel, left, right) => compare(binding, *rel, left, right, buffer),
    }
}

#[cycle(conditions)]
fn truth_of_all(binding: &Binding, conds: &[Cond], buffer: &mut Vec<u8>) -> Result<Holds, NoMemory>
    ensures { IfOk result (λ holds. holds ≡ truth_of_all (ranged_truth binding.now.params.now binding.now.args.now binding.now.world.now) answer.Yes conds.now) }
{
    let mut all = Holds::Yes;
    'each: for cond in conds {
        all = both_of(all, truth(binding, cond, buffer)?);
    }
    Ok(all)
}

#[cycle(conditions)]
fn truth_of_any(binding: &Binding, conds: &[Cond], buffer: &mut Vec<u8>) -> Result<Holds, NoMemory>
    ensures { IfOk result (λ holds. holds ≡ truth_of_any (ranged_truth binding.now.params.now binding.now.args.now binding.now.world.now) answer.No conds.now) }
{
    let mut any = Holds::No;
    'each: for cond in conds {
        any = either_of(any, truth(binding, cond, buffer)?);
    }
    Ok(any)
}

/// Whether each fluent that a condition reads is defined. The buffer is for texts.
#[cycle(definitions)]
#[tactic(auto, using(crate::proofs::Layers::each_And, crate::proofs::Layers::each_Or, crate::proofs::Layers::each_Not, crate::proofs::Layers::each_Imply, crate::proofs::Layers::each_Fact, crate::proofs::Layers::each_Same, crate::proofs::Layers::each_Cmp))]
pub(crate) fn is_defined(
    binding: &Binding,
    cond: &Cond,
    buffer: &mut Vec<u8>,
) -> Result<bool, NoMemory>
    ensures { IfOk result (λ defined. defined ≡ is_defined binding.now.params.now binding.now.args.now binding.now.world.now cond.now) }
{
    match cond {
        Cond::And(conds) => are_defined(binding, conds.as_slice(), buffer),
        Cond::Or(conds) => are_defined(binding, conds.as_slice(), buffer),
        Cond::Not(cond) => is_defined(binding, cond.get(), buffer),
        Cond::Imply(first, second) => {
            Ok(
                is_defined(binding, first.get(), buffer)?
                    && is_defined(binding, second.get(), buffer)?,
            )
        }
        Cond::Fact(_) => Ok(true),
        Cond::Same(_, _) => Ok(true),
        Cond::Cmp(_, left, right) => {
            Ok(reads_defined(binding, left, buffer)? && reads_defined(binding, right, buffer)?)
        }
    }
}

#[cycle(definitions)]
fn are_defined(binding: &Binding, conds: &[Cond], buffer: &mut Vec<u8>) -> Result<bool, NoMemory>
    ensures { IfOk result (λ defined. defined ≡ list_all (is_defined binding.now.params.now binding.now.args.now binding.now.world.now) conds.now) }
{
    'each: for cond in conds {
        if !is_defined(binding, cond, buffer)? {
            return Ok(false);
        }
    }
    Ok(true)
}
