//! Comparisons under bindings.

ghost use Rattle.std.specs.Prelude.{◌≡◌, IfOk, MatchResult, Ok};
ghost use Rattle.coded_actions.specs.Coded.{condition_of, expression_of};
ghost use Rattle.ground_meaning.specs.Conditions.{comparison, compared};
ghost use Rattle.ground_meaning.specs.Conditions.Settled.{remaining};
ghost use Rattle.folded_terms.specs.internal.Relations.{relation_of};
ghost use Rattle.ground_task.specs.declared.raw.GCond.TheVariants as c;
ghost use Rattle.ground_task.specs.declared.raw.Rel.TheVariants as relation;
ghost use Rattle.std.specs.Prelude.{[], ◌∷◌};
ghost use Rattle.term_patterns.specs.Bound.{bound_comparison};
ghost use Rattle.folded_terms.specs.Faults.{IsFoldFault};
ghost use Rattle.folded_terms.specs.Operands.{operand_of};
ghost use Rattle.folded_terms.specs.Settled.{settled_of};

use crate::copies::copied;
use crate::expressions::folded;
use crate::faults::FoldError;
use crate::operands::CodedOperand;
use crate::settled::CodedSettled;
use coded_actions::{CodedCond, CodedExpr};
use ground_task::Rel as Relation;
use num_ends::NoMemory;
use pddl_terms::Rel;
use sqlite_items::Items;
use static_facts::Statics;
use std::alloc::Global;
use term_patterns::arithmetic::stands;
use term_patterns::{ExprSlots, at_polarity};

#[tactic(auto, using(coded_actions::proofs::Equations::condition_Or, coded_actions::proofs::Equations::condition_Cmp))]
fn differing(alloc: Global, left: CodedExpr, right: CodedExpr) -> Result<CodedCond, NoMemory>
    ensures { IfOk result (λ d. condition_of d ≡ c.Or (c.Cmp relation.Less (expression_of left) (expression_of right) ∷ c.Cmp relation.Greater (expression_of left) (expression_of right) ∷ [])) }
{
    let less = CodedCond::Cmp(
        Relation::Less,
        copied(alloc, &left)?,
        copied(alloc, &right)?,
    );
    let mut members = Items::new(alloc);
    members.push(less)?;
    members.push(CodedCond::Cmp(Relation::Greater, left, right))?;
    Ok(CodedCond::Or(members))
}

// The negation of an equality has none.
fn relation(polarity: bool, rel: Rel) -> Option<Relation>
    ensures { result ≡ relation_of polarity rel }
{
    match (polarity, rel) {
        (true, Rel::Less) | (false, Rel::GreaterEqual) => Some(Relation::Less),
        (true, Rel::LessEqual) | (false, Rel::Greater) => Some(Relation::LessEqual),
        (true, Rel::Equal) => Some(Relation::Equal),
        (true, Rel::GreaterEqual) | (false, Rel::Less) => Some(Relation::GreaterEqual),
        (true, Rel::Greater) | (false, Rel::LessEqual) => Some(Relation::Greater),
        (false, Rel::Equal) => None,
    }
}

#[tactic(auto, using(coded_actions::proofs::Equations::condition_Cmp))]
fn comparison(
    alloc: Global,
    polarity: bool,
    rel: Rel,
    left: CodedExpr,
    right: CodedExpr,
) -> Result<CodedCond, NoMemory>
    ensures { IfOk result (λ d. condition_of d ≡ comparison polarity rel (expression_of left) (expression_of right)) }
{
    match relation(polarity, rel) {
        Some(relation) => Ok(CodedCond::Cmp(relation, left, right)),
        None => differing(alloc, left, right),
    }
}

fn remaining(
    alloc: Global,
    polarity: bool,
    rel: Rel,
    left: CodedExpr,
    right: CodedExpr,
) -> Result<CodedSettled, NoMemory>
    ensures { IfOk result (λ s. settled_of s ≡ remaining (comparison polarity rel (expression_of left) (expression_of right))) }
{
    Ok(CodedSettled::Remaining(comparison(alloc, polarity, rel, left, right)?))
}

#[tactic(auto, using(coded_actions::proofs::Equations::expression_Const))]
fn compared(
    alloc: Global,
    polarity: bool,
    rel: Rel,
    left: CodedOperand,
    right: CodedOperand,
) -> Result<CodedSettled, NoMemory>
    ensures { IfOk result (λ s. settled_of s ≡ compared polarity rel (operand_of left) (operand_of right)) }
{
    match left {
        CodedOperand::Constant(value) => match right {
            CodedOperand::Constant(other) => Ok(CodedSettled::Decided(at_polarity(
                polarity,
                stands(rel, value, other),
            ))),
            CodedOperand::Computed(expr) => {
                remaining(alloc, polarity, rel, CodedExpr::Const(value), expr)
            }
        },
        CodedOperand::Computed(expr) => {
            remaining(alloc, polarity, rel, expr, right.into_expression())
        }
    }
}

/// What a comparison folds to under a binding: one of two constants to its truth.
pub(crate) fn folded_comparison(
    alloc: Global,
    statics: &Statics,
    polarity: bool,
    rel: Rel,
    left: &ExprSlots,
    right: &ExprSlots,
    objects: &[u32],
) -> Result<CodedSettled, FoldError>
    ensures { MatchResult result (λ s. bound_comparison statics.now objects.now polarity rel left.now right.now ≡ Ok (settled_of s)) (IsFoldFault (bound_comparison statics.now objects.now polarity rel left.now right.now)) }
{
    let left = folded(alloc, statics, left, objects)?;
    let right = folded(alloc, statics, right, objects)?;
    Ok(compared(alloc, polarity, rel, left, right)?)
}
