//! Conditions under bindings.

ghost use Rattle.std.specs.Prelude.{◌≡◌, MatchResult, Ok, map};
ghost use Rattle.ground_meaning.specs.Results.{all_answers, mapped};
ghost use Rattle.term_patterns.specs.Bound.{bound_condition, joins};
ghost use Rattle.folded_terms.specs.Faults.{IsFoldFault};
ghost use Rattle.folded_terms.specs.Settled.{settled_of};

use crate::atoms::{folded_fact, folded_same};
use crate::comparisons::folded_comparison;
use crate::faults::FoldError;
use crate::joints::no_members;
use crate::settled::CodedSettled;
use static_facts::Statics;
use std::alloc::Global;
use term_patterns::CondSlots;

/// What a condition folds to under a binding: all members are folded, from left to right, before any is left out.
#[cycle(conditions)]
#[tactic(auto, using(term_patterns::proofs::Layers::bound_All, term_patterns::proofs::Layers::bound_Any, term_patterns::proofs::Layers::bound_Fact, term_patterns::proofs::Layers::bound_Same, term_patterns::proofs::Layers::bound_Compared))]
pub(crate) fn folded_condition(
    alloc: Global,
    statics: &Statics,
    slots: &CondSlots,
    objects: &[u32],
) -> Result<CodedSettled, FoldError>
    ensures { MatchResult result (λ s. bound_condition statics.now objects.now slots.now ≡ Ok (settled_of s)) (IsFoldFault (bound_condition statics.now objects.now slots.now)) }
{
    match slots {
        CondSlots::All(members) => folded_members(
            alloc,
            statics,
            true,
            members.as_slice(),
            objects,
        ),
        CondSlots::Any(members) => folded_members(
            alloc,
            statics,
            false,
            members.as_slice(),
            objects,
        ),
        CondSlots::Fact(polarity, fact) => Ok(folded_fact(statics, *polarity, fact, objects)),
        CondSlots::Same(polarity, same) => Ok(folded_same(*polarity, *same, objects)),
        CondSlots::Compared(polarity, rel, left, right) => {
            folded_comparison(alloc, statics, *polarity, *rel, left, right, objects)
        }
    }
}

#[cycle(conditions)]
fn folded_members(
    alloc: Global,
    statics: &Statics,
    conjunction: bool,
    members: &[CondSlots],
    objects: &[u32],
) -> Result<CodedSettled, FoldError>
    ensures { MatchResult result (λ s. mapped (joins conjunction) (all_answers (map (bound_condition statics.now objects.now) members.now)) ≡ Ok (settled_of s)) (IsFoldFault (mapped (joins conjunction) (all_answers (map (bound_condition statics.now objects.now) members.now)))) }
{
    let mut joint = no_members(alloc);
    'each: for member in members {
        let settled = folded_condition(alloc, statics, member, objects)?;
        joint.add(conjunction, settled)?;
    }
    Ok(joint.finish(conjunction))
}
