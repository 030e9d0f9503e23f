//! Folded expressions, and operations on them.

ghost use Rattle.std.specs.Prelude.{◌≡◌, IfOk, MatchResult, Ok};
ghost use Rattle.ground_task.specs.declared.raw.GExpr.TheVariants as e;
ghost use Rattle.coded_actions.specs.Coded.{expression_of};
ghost use Rattle.ground_meaning.specs.Expressions.{as_expression, constant_or, difference, operated, product, quotient, sum};
ghost use Rattle.ground_meaning.specs.Expressions.FoldFault.{OutOfRange};
ghost use Rattle.ground_meaning.specs.Expressions.Operand.{computed};
ghost use Rattle.folded_terms.specs.Faults.{IsFoldFault};
ghost use Rattle.folded_terms.specs.Operands.{operand_of};

use crate::faults::FoldError;
use coded_actions::CodedExpr;
use num_ends::{Dec, NoMemory};
use pddl_terms::Op;
use sqlite_items::Boxed;
use std::alloc::Global;
use term_patterns::arithmetic;

/// A folded expression.
#[derive(Debug, Drop)]
pub enum CodedOperand {
    /// A constant.
    Constant(Dec),
    /// An expression that reads fluents, each by its code.
    Computed(CodedExpr),
}

impl CodedOperand {
    /// The operand as an expression.
    #[tactic(auto, using(coded_actions::proofs::Equations::expression_Const))]
    pub fn into_expression(self) -> CodedExpr
        ensures { expression_of result ≡ as_expression (operand_of self) }
    {
        match self {
            CodedOperand::Constant(value) => CodedExpr::Const(value),
            CodedOperand::Computed(expr) => expr,
        }
    }
}

fn discard(_operand: CodedOperand) {}

fn constant_or_range(value: Option<Dec>) -> Result<CodedOperand, FoldError>
    ensures { MatchResult result (λ v. constant_or OutOfRange value ≡ Ok (operand_of v)) (IsFoldFault (constant_or OutOfRange value)) }
{
    match value {
        Some(value) => Ok(CodedOperand::Constant(value)),
        None => Err(FoldError::OutOfRange),
    }
}

#[tactic(auto, using(coded_actions::proofs::Equations::expression_Add))]
fn computed_sum(alloc: Global, left: CodedExpr, right: CodedExpr) -> Result<CodedOperand, NoMemory>
    ensures { IfOk result (λ v. operand_of v ≡ computed (e.Add (expression_of left) (expression_of right))) }
{
    let left = Boxed::new(alloc, left)?;
    let right = Boxed::new(alloc, right)?;
    Ok(CodedOperand::Computed(CodedExpr::Add(left, right)))
}

#[tactic(auto, using(coded_actions::proofs::Equations::expression_Sub))]
fn computed_difference(
    alloc: Global,
    left: CodedExpr,
    right: CodedExpr,
) -> Result<CodedOperand, NoMemory>
    ensures { IfOk result (λ v. operand_of v ≡ computed (e.Sub (expression_of left) (expression_of right))) }
{
    let left = Boxed::new(alloc, left)?;
    let right = Boxed::new(alloc, right)?;
    Ok(CodedOperand::Computed(CodedExpr::Sub(left, right)))
}

#[tactic(auto, using(coded_actions::proofs::Equations::expression_Mul))]
fn computed_product(
    alloc: Global,
    left: CodedExpr,
    right: CodedExpr,
) -> Result<CodedOperand, NoMemory>
    ensures { IfOk result (λ v. operand_of v ≡ computed (e.Mul (expression_of left) (expression_of right))) }
{
    let left = Boxed::new(alloc, left)?;
    let right = Boxed::new(alloc, right)?;
    Ok(CodedOperand::Computed(CodedExpr::Mul(left, right)))
}

/// The sum of two operands.
#[tactic(auto, using(coded_actions::proofs::Equations::expression_Const))]
pub fn sum(
    alloc: Global,
    left: CodedOperand,
    right: CodedOperand,
) -> Result<CodedOperand, FoldError>
    ensures { MatchResult result (λ v. sum (operand_of left) (operand_of right) ≡ Ok (operand_of v)) (IsFoldFault (sum (operand_of left) (operand_of right))) }
{
    match left {
        CodedOperand::Constant(value) => match right {
            CodedOperand::Constant(other) => constant_or_range(arithmetic::sum(value, other)),
            CodedOperand::Computed(expr) => Ok(computed_sum(alloc, CodedExpr::Const(value), expr)?),
        },
        CodedOperand::Computed(expr) => Ok(computed_sum(alloc, expr, right.into_expression())?),
    }
}

/// The difference of two operands.
#[tactic(auto, using(coded_actions::proofs::Equations::expression_Const))]
pub fn difference(
    alloc: Global,
    left: CodedOperand,
    right: CodedOperand,
) -> Result<CodedOperand, FoldError>
    ensures { MatchResult result (λ v. difference (operand_of left) (operand_of right) ≡ Ok (operand_of v)) (IsFoldFault (difference (operand_of left) (operand_of right))) }
{
    match left {
        CodedOperand::Constant(value) => match right {
            CodedOperand::Constant(other) => {
                constant_or_range(arithmetic::difference(value, other))
            }
            CodedOperand::Computed(expr) => {
                Ok(computed_difference(alloc, CodedExpr::Const(value), expr)?)
            }
        },
        CodedOperand::Computed(expr) => {
            Ok(computed_difference(alloc, expr, right.into_expression())?)
        }
    }
}

/// The product of two operands.
#[tactic(auto, using(coded_actions::proofs::Equations::expression_Const))]
pub fn product(
    alloc: Global,
    left: CodedOperand,
    right: CodedOperand,
) -> Result<CodedOperand, FoldError>
    ensures { MatchResult result (λ v. product (operand_of left) (operand_of right) ≡ Ok (operand_of v)) (IsFoldFault (product (operand_of left) (operand_of right))) }
{
    match left {
        CodedOperand::Constant(value) => match right {
            CodedOperand::Constant(other) => constant_or_range(arithmetic::product(value, other)),
            CodedOperand::Computed(expr) => {
                Ok(computed_product(alloc, CodedExpr::Const(value), expr)?)
            }
        },
        CodedOperand::Computed(expr) => Ok(computed_product(alloc, expr, right.into_expression())?),
    }
}

/// The product with the inverse of the divisor, which stands at a place of its file.
pub fn quotient(
    alloc: Global,
    place: u32,
    left: CodedOperand,
    right: CodedOperand,
) -> Result<CodedOperand, FoldError>
    ensures { MatchResult result (λ v. quotient place (operand_of left) (operand_of right) ≡ Ok (operand_of v)) (IsFoldFault (quotient place (operand_of left) (operand_of right))) }
{
    match right {
        CodedOperand::Constant(divisor) => match arithmetic::inverse(divisor) {
            Some(inverse) => product(alloc, left, CodedOperand::Constant(inverse)),
            None => {
                discard(left);
                Err(FoldError::Divide(place))
            }
        },
        CodedOperand::Computed(expr) => {
            discard(left);
            discard(CodedOperand::Computed(expr));
            Err(FoldError::Divide(place))
        }
    }
}

/// What an operation gives, whose right operand stands at a place of its file.
pub fn operate(
    alloc: Global,
    op: Op,
    place: u32,
    left: CodedOperand,
    right: CodedOperand,
) -> Result<CodedOperand, FoldError>
    ensures { MatchResult result (λ v. operated op place (operand_of left) (operand_of right) ≡ Ok (operand_of v)) (IsFoldFault (operated op place (operand_of left) (operand_of right))) }
{
    match op {
        Op::Add => sum(alloc, left, right),
        Op::Sub => difference(alloc, left, right),
        Op::Mul => product(alloc, left, right),
        Op::Div => quotient(alloc, place, left, right),
    }
}
