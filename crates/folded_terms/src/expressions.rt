//! Expressions under bindings.

ghost use Rattle.std.specs.Prelude.{◌≡◌, MatchResult, Ok};
ghost use Rattle.term_patterns.specs.Bound.{bound_expression, bound_read};
ghost use Rattle.folded_terms.specs.Faults.{IsFoldFault};
ghost use Rattle.folded_terms.specs.Operands.{operand_of};

use crate::faults::FoldError;
use crate::operands::{CodedOperand, operate};
use bound_atoms::AtomSlots;
use coded_actions::CodedExpr;
use static_facts::Statics;
use std::alloc::Global;
use term_patterns::{ExprSlots, first_value};

/// What a read folds to under a binding: a fixed function to its first value, any other to a read of the fluent.
#[tactic(auto, using(coded_actions::proofs::Equations::expression_Read))]
pub(crate) fn folded_read(statics: &Statics, slots: &AtomSlots, objects: &[u32]) -> CodedOperand
    ensures { operand_of result ≡ bound_read statics.now objects.now slots.now }
{
    if slots.symbol.fixed {
        return CodedOperand::Constant(first_value(statics, slots, objects));
    }
    CodedOperand::Computed(CodedExpr::Read(slots.code(objects)))
}

/// What an expression folds to under a binding: its operands from left to right, and then its operation.
#[tactic(auto, using(term_patterns::proofs::Layers::bound_Literal, term_patterns::proofs::Layers::bound_Read, term_patterns::proofs::Layers::bound_Op, crate::proofs::Answered::fault_after))]
pub(crate) fn folded(
    alloc: Global,
    statics: &Statics,
    slots: &ExprSlots,
    objects: &[u32],
) -> Result<CodedOperand, FoldError>
    ensures { MatchResult result (λ v. bound_expression statics.now objects.now slots.now ≡ Ok (operand_of v)) (IsFoldFault (bound_expression statics.now objects.now slots.now)) }
{
    match slots {
        ExprSlots::Literal(value) => Ok(CodedOperand::Constant(*value)),
        ExprSlots::Read(read) => Ok(folded_read(statics, read, objects)),
        ExprSlots::Op(op, place, left, right) => {
            let left = folded(alloc, statics, left.get(), objects)?;
            let right = folded(alloc, statics, right.get(), objects)?;
            operate(alloc, *op, *place, left, right)
        }
    }
}
