//! The truth of conditions that are decided under a binding.

ghost use Rattle.std.specs.Prelude.{◌≡◌, MatchResult, Ok, Err, Some, map};
ghost use Rattle.pddl_meaning.specs.Truth.{at_polarity};
ghost use Rattle.ground_meaning.specs.Results.{after, all_answers, mapped};
ghost use Rattle.term_patterns.specs.Bound.{bound_fact};
ghost use Rattle.term_verdicts.specs.Verdicts.{fault_alone, fold_fault, truth_of};
ghost use Rattle.term_verdicts.specs.internal.Bound.{bound_value, bound_verdict, compared_constants};
ghost use Rattle.term_verdicts.specs.internal.Truths.{decides, truths, with_truth};

use crate::constants::compare;
use crate::expressions::{fault, value};
use crate::faults::TermFault;
use bound_atoms::AtomSlots;
use pddl_terms::Rel;
use static_facts::Statics;
use term_patterns::{CondSlots, ExprSlots, at_polarity};

fn fact_verdict(
    statics: &Statics,
    polarity: bool,
    slots: &AtomSlots,
    objects: &[u32],
) -> Option<bool>
    ensures { result ≡ truth_of (bound_fact statics.now objects.now polarity slots.now) }
{
    if slots.symbol.fixed {
        return Some(at_polarity(polarity, slots.first_truth(statics, objects)));
    }
    None
}

// The right side is looked up only where the left one is a constant.
#[tactic(auto, using(crate::proofs::Layers::compared_both, crate::proofs::Layers::compared_left_fault, crate::proofs::Layers::compared_right_fault, crate::proofs::Layers::compared_none))]
fn comparison_verdict(
    statics: &Statics,
    polarity: bool,
    rel: Rel,
    left: &ExprSlots,
    right: &ExprSlots,
    objects: &[u32],
) -> Result<Option<bool>, TermFault>
    ensures { MatchResult result (λ v. after (λ a. mapped (compared_constants polarity rel a) (bound_value statics.now objects.now right.now)) (bound_value statics.now objects.now left.now) ≡ Ok v) (λ f. after (λ a. mapped (compared_constants polarity rel a) (bound_value statics.now objects.now right.now)) (bound_value statics.now objects.now left.now) ≡ Err (fold_fault f)) }
{
    match value(statics, left, objects)? {
        Some(constant) => {
            let right = value(statics, right, objects)?;
            Ok(compare(polarity, rel, constant, right))
        }
        None => {
            fault(statics, right, objects)?;
            Ok(None)
        }
    }
}

fn sides_fault(
    statics: &Statics,
    left: &ExprSlots,
    right: &ExprSlots,
    objects: &[u32],
) -> Result<(), TermFault>
    ensures { MatchResult result (λ u. after (λ a. fault_alone (bound_value statics.now objects.now right.now)) (bound_value statics.now objects.now left.now) ≡ Ok u) (λ f. after (λ a. fault_alone (bound_value statics.now objects.now right.now)) (bound_value statics.now objects.now left.now) ≡ Err (fold_fault f)) }
{
    fault(statics, left, objects)?;
    fault(statics, right, objects)
}

/// Why a condition isn't folded; nothing is looked up where it has no operation.
#[cycle(faults)]
#[tactic(auto, using(crate::proofs::Layers::fault_All, crate::proofs::Layers::fault_Any, crate::proofs::Layers::fault_Fact, crate::proofs::Layers::fault_Same, crate::proofs::Layers::fault_Compared))]
fn condition_fault(statics: &Statics, slots: &CondSlots, objects: &[u32]) -> Result<(), TermFault>
    ensures { MatchResult result (λ u. fault_alone (bound_verdict statics.now objects.now slots.now) ≡ Ok u) (λ f. fault_alone (bound_verdict statics.now objects.now slots.now) ≡ Err (fold_fault f)) }
{
    match slots {
        CondSlots::All(members) => members_fault(statics, members.as_slice(), objects),
        CondSlots::Any(members) => members_fault(statics, members.as_slice(), objects),
        CondSlots::Fact(_, _) => Ok(()),
        CondSlots::Same(_, _) => Ok(()),
        CondSlots::Compared(_, _, left, right) => sides_fault(statics, left, right, objects),
    }
}

#[cycle(faults)]
fn members_fault(statics: &Statics, members: &[CondSlots], objects: &[u32]) -> Result<(), TermFault>
    ensures { MatchResult result (λ u. fault_alone (all_answers (map (bound_verdict statics.now objects.now) members.now)) ≡ Ok u) (λ f. fault_alone (all_answers (map (bound_verdict statics.now objects.now) members.now)) ≡ Err (fold_fault f)) }
{
    'each: for member in members {
        condition_fault(statics, member, objects)?;
    }
    Ok(())
}

fn with_truth(conjunction: bool, so_far: Option<bool>, truth: Option<bool>) -> Option<bool>
    ensures { result ≡ with_truth conjunction so_far truth }
{
    match so_far {
        Some(known) => {
            if known == conjunction {
                return truth;
            }
            so_far
        }
        None => match truth {
            Some(other) => {
                if other == conjunction {
                    return None;
                }
                truth
            }
            None => None,
        },
    }
}

fn is_decided(conjunction: bool, so_far: Option<bool>) -> bool
    ensures { result ≡ decides conjunction so_far }
{
    match so_far {
        Some(known) => known != conjunction,
        None => false,
    }
}

/// The truth of a condition that is decided, or else why it isn't folded.
#[cycle(verdicts)]
#[tactic(auto, using(crate::proofs::Layers::verdict_All, crate::proofs::Layers::verdict_Any, crate::proofs::Layers::verdict_Fact, crate::proofs::Layers::verdict_Same, crate::proofs::Layers::verdict_Compared))]
pub(crate) fn verdict(
    statics: &Statics,
    slots: &CondSlots,
    objects: &[u32],
) -> Result<Option<bool>, TermFault>
    ensures { MatchResult result (λ v. bound_verdict statics.now objects.now slots.now ≡ Ok v) (λ f. bound_verdict statics.now objects.now slots.now ≡ Err (fold_fault f)) }
{
    match slots {
        CondSlots::All(members) => members_verdict(statics, true, members.as_slice(), objects),
        CondSlots::Any(members) => members_verdict(statics, false, members.as_slice(), objects),
        CondSlots::Fact(polarity, fact) => Ok(fact_verdict(statics, *polarity, fact, objects)),
        CondSlots::Same(polarity, same) => {
            Ok(Some(at_polarity(*polarity, same.is_same(objects))))
        }
        CondSlots::Compared(polarity, rel, left, right) => {
            comparison_verdict(statics, *polarity, *rel, left, right, objects)
        }
    }
}

// One more member; where the whole is decided only its fault is asked for.
#[cycle(verdicts)]
#[tactic(auto, using(crate::proofs::Decided::stays_decided))]
fn with_member(
    statics: &Statics,
    conjunction: bool,
    so_far: Option<bool>,
    member: &CondSlots,
    objects: &[u32],
) -> Result<Option<bool>, TermFault>
    ensures { MatchResult result (λ v. mapped (with_truth conjunction so_far) (bound_verdict statics.now objects.now member.now) ≡ Ok v) (λ f. bound_verdict statics.now objects.now member.now ≡ Err (fold_fault f)) }
{
    if is_decided(conjunction, so_far) {
        condition_fault(statics, member, objects)?;
        return Ok(so_far);
    }
    let truth = verdict(statics, member, objects)?;
    Ok(with_truth(conjunction, so_far, truth))
}

#[cycle(verdicts)]
fn members_verdict(
    statics: &Statics,
    conjunction: bool,
    members: &[CondSlots],
    objects: &[u32],
) -> Result<Option<bool>, TermFault>
    ensures { MatchResult result (λ v. mapped (truths conjunction (Some conjunction)) (all_answers (map (bound_verdict statics.now objects.now) members.now)) ≡ Ok v) (λ f. mapped (truths conjunction (Some conjunction)) (all_answers (map (bound_verdict statics.now objects.now) members.now)) ≡ Err (fold_fault f)) }
{
    let mut truth = Some(conjunction);
    'each: for member in members {
        truth = with_member(statics, conjunction, truth, member, objects)?;
    }
    Ok(truth)
}
