//! The values of expressions, within the range.

ghost use Rattle.std.specs.Prelude.{◌≡◌, IfOk};
ghost use Rattle.std.specs.FinMap as finite;
ghost use Rattle.pddl_terms.specs.declared.expressions.Op.TheVariants as op;
ghost use Rattle.pddl_terms.specs.Texts.{ground_text};
ghost use Rattle.pddl_meaning.specs.Values.{combined, in_bounds, inverse_of, ranged_product, ranged_value, reads_defined};

use crate::texts::{Binding, write_ground_text};
use num_ends::{Dec, NoMemory};
use pddl_terms::{Atom, Expr, Op};

#[tactic(auto, using(crate::proofs::Ranges::sum_given, crate::proofs::Ranges::sum_refused))]
fn sum(left: Dec, right: Dec) -> Option<Dec>
    ensures { result ≡ in_bounds op.Add left right }
{
    match left.add(right) {
        Ok(value) => Some(value.trim()),
        Err(_) => None,
    }
}

#[tactic(auto, using(crate::proofs::Ranges::difference_given, crate::proofs::Ranges::difference_refused))]
fn difference(left: Dec, right: Dec) -> Option<Dec>
    ensures { result ≡ in_bounds op.Sub left right }
{
    match left.sub(right) {
        Ok(value) => Some(value.trim()),
        Err(_) => None,
    }
}

#[tactic(auto, using(crate::proofs::Ranges::product_given, crate::proofs::Ranges::product_refused))]
fn product(left: Dec, right: Dec) -> Option<Dec>
    ensures { result ≡ ranged_product left right }
{
    match left.mul(right) {
        Ok(value) => Some(value.trim()),
        Err(_) => None,
    }
}

#[tactic(auto, using(crate::proofs::Inverses::inverse_given, crate::proofs::Inverses::inverse_refused))]
fn inverse(value: Dec) -> Option<Dec>
    ensures { result ≡ inverse_of value }
{
    match value.inverse() {
        Some(inverse) => Some(inverse),
        None => None,
    }
}

#[tactic(auto, using(crate::proofs::Ranges::divided, crate::proofs::Ranges::not_divided))]
fn quotient(left: Dec, right: Dec) -> Option<Dec>
    ensures { result ≡ in_bounds op.Div left right }
{
    match inverse(right) {
        Some(inverse) => product(left, inverse),
        None => None,
    }
}

/// What an operation gives, trimmed; none where it leaves the range, or divides by what has no inverse.
#[tactic(auto, using(crate::proofs::Ranges::multiplied))]
pub(crate) fn operate(op: Op, left: Dec, right: Dec) -> Option<Dec>
    ensures { result ≡ in_bounds op left right }
{
    match op {
        Op::Add => sum(left, right),
        Op::Sub => difference(left, right),
        Op::Mul => product(left, right),
        Op::Div => quotient(left, right),
    }
}

/// An operation on what may have no value.
pub(crate) fn combine(op: Op, left: Option<Dec>, right: Option<Dec>) -> Option<Dec>
    ensures { result ≡ combined in_bounds op left right }
{
    match (left, right) {
        (Some(left), Some(right)) => operate(op, left, right),
        _ => None,
    }
}

fn read_value(binding: &Binding, atom: &Atom, buffer: &mut Vec<u8>) -> Result<Option<Dec>, NoMemory>
    ensures { IfOk result (λ value. value ≡ finite.get binding.now.world.now.values (ground_text binding.now.params.now binding.now.args.now atom.now)) }
{
    write_ground_text(binding, atom, buffer)?;
    Ok(binding.world.value(buffer.as_slice()))
}

/// The value of an expression; none where it reads an undefined fluent or a subvalue leaves the range. The buffer is for
/// the texts of fluents.
#[tactic(auto, using(crate::proofs::Layers::value_of_Lit, crate::proofs::Layers::value_of_Read, crate::proofs::Layers::value_of_Op))]
pub(crate) fn value_of(
    binding: &Binding,
    expr: &Expr,
    buffer: &mut Vec<u8>,
) -> Result<Option<Dec>, NoMemory>
    ensures { IfOk result (λ value. value ≡ ranged_value binding.now.params.now binding.now.args.now binding.now.world.now expr.now) }
{
    match expr {
        Expr::Lit(value, _) => Ok(Some(value.trim())),
        Expr::Read(atom) => read_value(binding, atom, buffer),
        Expr::Op(_, op, left, right) => {
            let left = value_of(binding, left.get(), buffer)?;
            let right = value_of(binding, right.get(), buffer)?;
            Ok(combine(*op, left, right))
        }
    }
}

/// Whether each fluent that an expression reads is defined. The buffer is for the texts of fluents.
#[tactic(auto, using(crate::proofs::Layers::reads_of_Lit, crate::proofs::Layers::reads_of_Read, crate::proofs::Layers::reads_of_Op))]
pub(crate) fn reads_defined(
    binding: &Binding,
    expr: &Expr,
    buffer: &mut Vec<u8>,
) -> Result<bool, NoMemory>
    ensures { IfOk result (λ defined. defined ≡ reads_defined binding.now.params.now binding.now.args.now binding.now.world.now expr.now) }
{
    match expr {
        Expr::Lit(_, _) => Ok(true),
        Expr::Read(atom) => Ok(read_value(binding, atom, buffer)?.is_some()),
        Expr::Op(_, _, left, right) => {
            let left = reads_defined(binding, left.get(), buffer)?;
            let right = reads_defined(binding, right.get(), buffer)?;
            Ok(left && right)
        }
    }
}
