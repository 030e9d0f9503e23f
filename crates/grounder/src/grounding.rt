//! The ground task of a checked pair.

ghost use Rattle.std.specs.Prelude.{◌≡◌, ◌≤◌, IfErr, IfOk, MatchResult, length, map};
ghost use Rattle.pddl_terms.specs.declared.limits.TheConstants.{MAX_OBJECTS};
ghost use Rattle.pddl_types.specs.Pairs.{objects_of};
ghost use Rattle.ground_task.specs.Placed.{IsPlaced};
ghost use Rattle.ground_task.specs.Tasks.{AreFirstInRange};
ghost use Rattle.coded_actions.specs.Coded.{action_of, condition_of};
ghost use Rattle.ground_meaning.specs.Refusals.{IsGrounded, IsRefused};
ghost use Rattle.ground_meaning.specs.Worlds.{StandsFor};
ghost use Rattle.folded_terms.specs.Goals.{IsGoal};
ghost use Rattle.grounder.specs.internal.Made.{AreCodesOf, IsTaskOf};
ghost use Rattle.grounder.specs.internal.Taken.{AreKept};

use crate::codes::task_codes;
use crate::kept::kept_actions;
use crate::made::task_data;
use crate::placing::placed;
use coded_actions::{CodedAction, CodedCond};
use folded_terms::fold_goal;
use ground_meaning::GroundFault;
use ground_task::Task;
use numbering::Codes;
use pddl_terms::{MAX_OBJECTS, What};
use pddl_types::Checked;
use static_facts::{Statics, find_statics};
use std::alloc::Global;

// The task with the codes of its facts and fluents.
#[tactic(auto, using(crate::proofs::TaskCodes::task_numbers, crate::proofs::TaskCodes::fact_codes, crate::proofs::TaskCodes::fluent_codes, crate::proofs::TaskCodes::data_valid, crate::proofs::TaskCodes::data_named, crate::proofs::TaskCodes::task_found, crate::proofs::TaskCodes::places_refused, crate::proofs::Refusals::memory_refused))]
fn with_codes(
    alloc: Global,
    checked: &Checked,
    statics: &Statics,
    actions: &[CodedAction],
    goal: &CodedCond,
    codes: &Codes,
) -> Result<Task, GroundFault>
    requires one_pair { statics.now ≡ checked.now }
    requires few_objects { length (objects_of checked.now) ≤ MAX_OBJECTS }
    requires kept { AreKept checked.now actions.now }
    requires folded { IsGoal checked.now goal.now }
    requires coded { AreCodesOf (map action_of actions.now) (condition_of goal.now) codes.now.facts.items codes.now.fluents.items }
    ensures { MatchResult result (IsTaskOf checked.now) (IsRefused checked.now) }
{
    let _domain = checked.domain();
    match task_data(alloc, checked, statics, codes, actions, goal) {
        Ok(raw) => placed(alloc, checked, &codes.fluents, actions, raw),
        Err(_) => Err(GroundFault::NoMemory),
    }
}

// The task with this goal.
#[tactic(auto, using(crate::proofs::TaskCodes::codes_refused))]
fn with_goal(
    alloc: Global,
    checked: &Checked,
    statics: &Statics,
    actions: &[CodedAction],
    goal: &CodedCond,
) -> Result<Task, GroundFault>
    requires one_pair { statics.now ≡ checked.now }
    requires few_objects { length (objects_of checked.now) ≤ MAX_OBJECTS }
    requires kept { AreKept checked.now actions.now }
    requires folded { IsGoal checked.now goal.now }
    ensures { MatchResult result (IsTaskOf checked.now) (IsRefused checked.now) }
{
    let _domain = checked.domain();
    match task_codes(alloc, actions, goal) {
        Ok(codes) => with_codes(alloc, checked, statics, actions, goal, &codes),
        Err(fault) => Err(fault),
    }
}

// The task with these actions.
#[tactic(auto, using(crate::proofs::Refusals::goal_refused))]
fn with_actions(
    alloc: Global,
    checked: &Checked,
    statics: &Statics,
    actions: &[CodedAction],
) -> Result<Task, GroundFault>
    requires one_pair { statics.now ≡ checked.now }
    requires few_objects { length (objects_of checked.now) ≤ MAX_OBJECTS }
    requires kept { AreKept checked.now actions.now }
    ensures { MatchResult result (IsTaskOf checked.now) (IsRefused checked.now) }
{
    match fold_goal(alloc, checked, statics) {
        Ok(goal) => with_goal(alloc, checked, statics, actions, &goal),
        Err(fault) => Err(fault),
    }
}

fn discard(_actions: Vec<CodedAction>) {}

#[tactic(auto, using(crate::proofs::Refusals::binding_refused))]
fn with_statics(alloc: Global, checked: &Checked, statics: &Statics) -> Result<Task, GroundFault>
    requires one_pair { statics.now ≡ checked.now }
    requires few_objects { length (objects_of checked.now) ≤ MAX_OBJECTS }
    ensures { MatchResult result (IsTaskOf checked.now) (IsRefused checked.now) }
{
    match kept_actions(alloc, checked, statics) {
        Ok(actions) => {
            let task = with_actions(alloc, checked, statics, actions.as_slice());
            discard(actions);
            task
        }
        Err(fault) => Err(fault),
    }
}

#[tactic(auto, using(crate::proofs::Refusals::memory_refused))]
fn of_few_objects(alloc: Global, checked: &Checked) -> Result<Task, GroundFault>
    requires few_objects { length (objects_of checked.now) ≤ MAX_OBJECTS }
    ensures { MatchResult result (IsTaskOf checked.now) (IsRefused checked.now) }
{
    match find_statics(alloc, checked) {
        Ok(statics) => with_statics(alloc, checked, &statics),
        Err(_) => Err(GroundFault::NoMemory),
    }
}

/// The ground task of a checked pair, with the least decimal places of its fluents, or the first reason against it.
///
/// A binding that is left out costs no memory, and facts and fluents are those that the goal and the kept actions need.
/// What is refused, in this order: more than 1,024 objects; the first binding that is refused, in the order of the file
/// and then of the objects; a fluent of the goal without first value; a fault of the goal's fold; more than 4,096 facts;
/// more than 256 fluents; places that no value may have, or a first value out of range.
#[tactic(auto, using(crate::proofs::Refusals::objects_refused))]
pub fn ground(alloc: Global, checked: &Checked) -> Result<Task, GroundFault>
    ensures task { IfOk result (λ t. IsGrounded checked.now t) }
    ensures stands { IfOk result (λ t. StandsFor checked.now t) }
    ensures suffices { IfOk result (λ t. IsPlaced t.raw t.places × AreFirstInRange t.places t.raw.values (length t.raw.fluents)) }
    ensures refused { IfErr result (λ f. IsRefused checked.now f) }
{
    if checked.objects() > MAX_OBJECTS {
        return Err(GroundFault::TooMany(What::Objects, MAX_OBJECTS));
    }
    of_few_objects(alloc, checked)
}
