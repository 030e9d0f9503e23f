//! The expressions and conditions of a pair, folded under bindings of parameters to objects.

ghost use Rattle.std.specs.Prelude.{◌≡◌, ◌<◌, true, MatchResult, Ok, length};
ghost use Rattle.pddl_types.specs.Pairs.{objects_of};
ghost use Rattle.pddl_types.specs.WellFormed.{Each};
ghost use Rattle.static_facts.specs.Atoms.{names};
ghost use Rattle.ground_meaning.specs.Expressions.{folded};
ghost use Rattle.ground_meaning.specs.Conditions.{folded_condition};
ghost use Rattle.folded_terms.specs.Faults.{IsFoldFault};
ghost use Rattle.folded_terms.specs.Operands.{operand_of};
ghost use Rattle.folded_terms.specs.Settled.{settled_of};

use crate::conditions::folded_condition;
use crate::expressions::folded;
use crate::faults::FoldError;
use crate::operands::CodedOperand;
use crate::settled::CodedSettled;
use std::alloc::Global;
use term_patterns::{CondPattern, ExprPattern};

/// What an expression folds to under a binding of the parameters to objects.
pub fn fold_expression(
    alloc: Global,
    pattern: &ExprPattern,
    objects: &[u32],
) -> Result<CodedOperand, FoldError>
    requires as_many { length objects.now ≡ length pattern.now.1 }
    requires known { Each (λ o. o < length (objects_of pattern.now.0)) objects.now }
    ensures { MatchResult result (λ v. folded pattern.now.0 pattern.now.1 (names pattern.now.0 objects.now) pattern.now.2 ≡ Ok (operand_of v)) (IsFoldFault (folded pattern.now.0 pattern.now.1 (names pattern.now.0 objects.now) pattern.now.2)) }
{
    folded(alloc, pattern.statics(), pattern.slots(), objects)
}

/// What a condition folds to under a binding of the parameters to objects.
pub fn fold_condition(
    alloc: Global,
    pattern: &CondPattern,
    objects: &[u32],
) -> Result<CodedSettled, FoldError>
    requires as_many { length objects.now ≡ length pattern.now.1 }
    requires known { Each (λ o. o < length (objects_of pattern.now.0)) objects.now }
    ensures { MatchResult result (λ s. folded_condition pattern.now.0 pattern.now.1 (names pattern.now.0 objects.now) pattern.now.2 true ≡ Ok (settled_of s)) (IsFoldFault (folded_condition pattern.now.0 pattern.now.1 (names pattern.now.0 objects.now) pattern.now.2 true)) }
{
    folded_condition(alloc, pattern.statics(), pattern.slots(), objects)
}
