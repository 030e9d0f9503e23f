//! The values of expressions that are constants under a binding.

ghost use Rattle.std.specs.Prelude.{◌≡◌, MatchResult, Ok, Err};
ghost use Rattle.term_patterns.specs.Bound.{bound_read};
ghost use Rattle.term_verdicts.specs.Verdicts.{constant_of, fault_alone, fold_fault};
ghost use Rattle.term_verdicts.specs.internal.Bound.{bound_value};

use crate::constants::operate;
use crate::faults::TermFault;
use bound_atoms::AtomSlots;
use num_ends::Dec;
use static_facts::Statics;
use term_patterns::{ExprSlots, first_value};

fn read_value(statics: &Statics, slots: &AtomSlots, objects: &[u32]) -> Option<Dec>
    ensures { result ≡ constant_of (bound_read statics.now objects.now slots.now) }
{
    if slots.symbol.fixed {
        return Some(first_value(statics, slots, objects));
    }
    None
}

/// The value of an expression that is a constant, or else why it isn't folded.
#[tactic(auto, using(crate::proofs::Layers::value_Literal, crate::proofs::Layers::value_Read, crate::proofs::Layers::value_Op, crate::proofs::Layers::left_fault, crate::proofs::Layers::right_fault, crate::proofs::Layers::both_operands))]
pub(crate) fn value(
    statics: &Statics,
    slots: &ExprSlots,
    objects: &[u32],
) -> Result<Option<Dec>, TermFault>
    ensures { MatchResult result (λ v. bound_value statics.now objects.now slots.now ≡ Ok v) (λ f. bound_value statics.now objects.now slots.now ≡ Err (fold_fault f)) }
{
    match slots {
        ExprSlots::Literal(value) => Ok(Some(*value)),
        ExprSlots::Read(read) => Ok(read_value(statics, read, objects)),
        ExprSlots::Op(op, place, left, right) => {
            let left = value(statics, left.get(), objects)?;
            let right = value(statics, right.get(), objects)?;
            operate(*op, *place, left, right)
        }
    }
}

/// Why an expression isn't folded; nothing is looked up where it has no operation.
#[tactic(auto, using(crate::proofs::Layers::value_Literal, crate::proofs::Layers::value_Read))]
pub(crate) fn fault(statics: &Statics, slots: &ExprSlots, objects: &[u32]) -> Result<(), TermFault>
    ensures { MatchResult result (λ u. fault_alone (bound_value statics.now objects.now slots.now) ≡ Ok u) (λ f. bound_value statics.now objects.now slots.now ≡ Err (fold_fault f)) }
{
    match slots {
        ExprSlots::Literal(_) => Ok(()),
        ExprSlots::Read(_) => Ok(()),
        ExprSlots::Op(_, _, _, _) => match value(statics, slots, objects) {
            Ok(_) => Ok(()),
            Err(fault) => Err(fault),
        },
    }
}
