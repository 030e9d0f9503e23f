//! Facts and equalities of objects under bindings.

ghost use Rattle.std.specs.Prelude.{◌≡◌};
ghost use Rattle.pddl_meaning.specs.Truth.{at_polarity};
ghost use Rattle.bound_atoms.specs.Slots.{same_number};
ghost use Rattle.ground_meaning.specs.Conditions.Settled.{decided};
ghost use Rattle.term_patterns.specs.Bound.{bound_fact};
ghost use Rattle.folded_terms.specs.Settled.{settled_of};

use crate::settled::CodedSettled;
use bound_atoms::{AtomSlots, SameSlots};
use coded_actions::CodedCond;
use static_facts::Statics;
use term_patterns::at_polarity;

/// What a fact folds to: one of a fixed predicate to its truth at first.
#[tactic(auto, using(coded_actions::proofs::Equations::condition_Fact))]
pub(crate) fn folded_fact(
    statics: &Statics,
    polarity: bool,
    slots: &AtomSlots,
    objects: &[u32],
) -> CodedSettled
    ensures { settled_of result ≡ bound_fact statics.now objects.now polarity slots.now }
{
    if slots.symbol.fixed {
        return CodedSettled::Decided(at_polarity(polarity, slots.first_truth(statics, objects)));
    }
    CodedSettled::Remaining(CodedCond::Fact(slots.code(objects), polarity))
}

/// What an equality of objects folds to.
pub(crate) fn folded_same(polarity: bool, slots: SameSlots, objects: &[u32]) -> CodedSettled
    ensures { settled_of result ≡ decided (at_polarity polarity (same_number objects.now slots)) }
{
    CodedSettled::Decided(at_polarity(polarity, slots.is_same(objects)))
}
