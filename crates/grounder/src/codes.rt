//! The codes of the facts and the fluents of a task.

ghost use Rattle.std.specs.Prelude.{◌≡◌, ◌≤◌, IfErr, IfOk, length, map};
ghost use Rattle.pddl_terms.specs.declared.limits.TheConstants.{MAX_FACTS};
ghost use Rattle.coded_actions.specs.Coded.{action_of, condition_of};
ghost use Rattle.numbering.specs.Named.{IsRisingFrom, named_facts};
ghost use Rattle.grounder.specs.internal.Made.{AreCodesOf, IsCodesFault};

use coded_actions::{CodedAction, CodedCond};
use ground_meaning::GroundFault;
use numbering::{Codes, fact_codes, fluent_codes};
use pddl_terms::{MAX_FACTS, MAX_FLUENTS, What};
use std::alloc::Global;

#[tactic(auto, using(crate::proofs::Refusals::memory_codes, crate::proofs::Refusals::facts_too_many, crate::proofs::Refusals::fluents_too_many, crate::proofs::Refusals::codes_found))]
fn with_fluents(
    alloc: Global,
    actions: &[CodedAction],
    goal: &CodedCond,
    facts: Vec<u128>,
) -> Result<Codes, GroundFault>
    requires are_facts { IsRisingFrom (named_facts (map action_of actions.now) (condition_of goal.now)) facts.items }
    requires few { length facts.items ≤ MAX_FACTS }
    ensures found { IfOk result (λ codes. AreCodesOf (map action_of actions.now) (condition_of goal.now) codes.facts.items codes.fluents.items) }
    ensures refused { IfErr result (IsCodesFault (map action_of actions.now) (condition_of goal.now)) }
{
    match fluent_codes(alloc, actions, goal) {
        Ok(fluents) => {
            if fluents.len() > MAX_FLUENTS as usize {
                return Err(GroundFault::TooMany(What::Fluents, MAX_FLUENTS));
            }
            Ok(Codes { facts, fluents })
        }
        Err(_) => Err(GroundFault::NoMemory),
    }
}

/// The codes of the facts and the fluents of the task with these actions and this goal, if they aren't too many.
#[tactic(auto, using(crate::proofs::Refusals::memory_codes, crate::proofs::Refusals::facts_too_many, crate::proofs::Refusals::fluents_too_many, crate::proofs::Refusals::codes_found))]
pub(crate) fn task_codes(
    alloc: Global,
    actions: &[CodedAction],
    goal: &CodedCond,
) -> Result<Codes, GroundFault>
    ensures found { IfOk result (λ codes. AreCodesOf (map action_of actions.now) (condition_of goal.now) codes.facts.items codes.fluents.items) }
    ensures refused { IfErr result (IsCodesFault (map action_of actions.now) (condition_of goal.now)) }
{
    match fact_codes(alloc, actions, goal) {
        Ok(facts) => {
            if facts.len() > MAX_FACTS as usize {
                return Err(GroundFault::TooMany(What::Facts, MAX_FACTS));
            }
            with_fluents(alloc, actions, goal, facts)
        }
        Err(_) => Err(GroundFault::NoMemory),
    }
}
