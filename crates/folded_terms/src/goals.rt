//! The goal, folded.

ghost use Rattle.std.specs.Prelude.{◌≡◌, IfOk, MatchResult, None, Ok, codes};
ghost use Rattle.pddl_types.specs.declared.pairs.Pair.{Pair};
ghost use Rattle.ground_meaning.specs.Goals.{folded_goal, unset_in_goal};
ghost use Rattle.folded_terms.specs.Faults.{IsFoldFault};
ghost use Rattle.folded_terms.specs.Goals.{IsGoal, IsGoalFault};
ghost use Rattle.folded_terms.specs.Settled.{settled_of};

use crate::faults::FoldError;
use crate::folds::fold_condition;
use crate::settled::CodedSettled;
use crate::texts::written_text_of;
use crate::unset::{Source, unset_in};
use coded_actions::CodedCond;
use ground_meaning::GroundFault;
use num_ends::{NoMemory, Text};
use pddl_types::{Checked, Side};
use static_facts::Statics;
use std::alloc::Global;
use term_patterns::CondPattern;

fn goal_text(alloc: Global) -> Result<Text, NoMemory>
    ensures { IfOk result (λ text. text ≡ codes "goal") }
{
    Ok(Text::from_vec(Vec::from_slice(alloc, b"goal")?))
}

fn refusal(alloc: Global, fault: FoldError) -> GroundFault
    ensures { (p : Pair) → unset_in_goal p ≡ None → IsFoldFault (folded_goal p) fault → IsGoalFault p result }
{
    match fault {
        FoldError::Divide(place) => GroundFault::Divide(Side::Problem, place),
        FoldError::OutOfRange => match goal_text(alloc) {
            Ok(text) => GroundFault::Range(text),
            Err(_) => GroundFault::NoMemory,
        },
        FoldError::NoMemory => GroundFault::NoMemory,
    }
}

fn unset_text(alloc: Global, checked: &Checked, statics: &Statics) -> Result<Option<Text>, NoMemory>
    requires one_pair { statics.now ≡ checked.now }
    ensures { IfOk result (λ text. text ≡ unset_in_goal checked.now) }
{
    let source = Source { checked, statics };
    match unset_in(alloc, &source, &checked.problem().goal)? {
        Some(atom) => Ok(Some(written_text_of(alloc, atom)?)),
        None => Ok(None),
    }
}

fn folded_term(
    alloc: Global,
    checked: &Checked,
    statics: &Statics,
) -> Result<CodedSettled, FoldError>
    requires one_pair { statics.now ≡ checked.now }
    ensures { MatchResult result (λ s. folded_goal checked.now ≡ Ok (settled_of s)) (IsFoldFault (folded_goal checked.now)) }
{
    let pattern = CondPattern::new(alloc, checked, statics, &[], &checked.problem().goal)?;
    fold_condition(alloc, &pattern, &[])
}

fn folded_whole(
    alloc: Global,
    checked: &Checked,
    statics: &Statics,
) -> Result<CodedCond, GroundFault>
    requires one_pair { statics.now ≡ checked.now }
    requires all_set { unset_in_goal checked.now ≡ None }
    ensures { MatchResult result (IsGoal checked.now) (IsGoalFault checked.now) }
{
    match folded_term(alloc, checked, statics) {
        Ok(settled) => Ok(settled.into_condition()),
        Err(fault) => Err(refusal(alloc, fault)),
    }
}

/// What the goal folds to; or else the first fluent that it reads, in the order of the text, and that has no first value,
/// or the fault of its fold.
pub fn fold_goal(
    alloc: Global,
    checked: &Checked,
    statics: &Statics,
) -> Result<CodedCond, GroundFault>
    requires one_pair { statics.now ≡ checked.now }
    ensures { MatchResult result (IsGoal checked.now) (IsGoalFault checked.now) }
{
    match unset_text(alloc, checked, statics) {
        Ok(Some(text)) => Err(GroundFault::Unset(text)),
        Ok(None) => folded_whole(alloc, checked, statics),
        Err(_) => Err(GroundFault::NoMemory),
    }
}
