//! The facts of a task.

ghost use Rattle.std.specs.Prelude.{◌≡◌, ◌++◌, OnOk, IfOk, map, flat_map};
ghost use Rattle.coded_actions.specs.Coded.{action_of, condition_of};
ghost use Rattle.ground_meaning.specs.Tasks.{action_facts, condition_facts};
ghost use Rattle.numbering.specs.Named.{IsRisingFrom, named_facts};

use crate::rising::rising;
use coded_actions::{CodedAction, CodedCond};
use num_ends::NoMemory;
use std::alloc::Global;

// Adds the facts of a condition.
#[cycle(fact_conditions)]
#[tactic(auto, using(crate::proofs::Names::facts_unchanged_True, crate::proofs::Names::facts_unchanged_False, crate::proofs::Names::facts_unchanged_Cmp, crate::proofs::Names::facts_Fact, crate::proofs::Names::facts_And, crate::proofs::Names::facts_Or))]
fn add_condition(cond: &CodedCond, codes: &mut Vec<u128>) -> Result<(), NoMemory>
    ensures { OnOk result (codes.new.items ≡ codes.old.items ++ condition_facts (condition_of cond.now)) }
{
    match cond {
        CodedCond::True | CodedCond::False | CodedCond::Cmp(_, _, _) => Ok(()),
        CodedCond::Fact(fact, _) => Ok(codes.push(*fact)?),
        CodedCond::And(conds) => add_members(conds.as_slice(), codes),
        CodedCond::Or(conds) => add_members(conds.as_slice(), codes),
    }
}

#[cycle(fact_conditions)]
fn add_members(conds: &[CodedCond], codes: &mut Vec<u128>) -> Result<(), NoMemory>
    ensures { OnOk result (codes.new.items ≡ codes.old.items ++ flat_map (λ c. condition_facts (condition_of c)) conds.now) }
{
    'each: for cond in conds {
        add_condition(cond, codes)?;
    }
    Ok(())
}

// Adds the facts of an action.
fn add_action(action: &CodedAction, codes: &mut Vec<u128>) -> Result<(), NoMemory>
    ensures { OnOk result (codes.new.items ≡ codes.old.items ++ action_facts (action_of action.now)) }
{
    add_condition(&action.pre, codes)?;
    codes.extend_from_slice(action.adds.as_slice())?;
    codes.extend_from_slice(action.dels.as_slice())?;
    Ok(())
}

fn add_actions(actions: &[CodedAction], codes: &mut Vec<u128>) -> Result<(), NoMemory>
    ensures { OnOk result (codes.new.items ≡ codes.old.items ++ flat_map action_facts (map action_of actions.now)) }
{
    'each: for action in actions {
        add_action(action, codes)?;
    }
    Ok(())
}

/// The codes of the facts that the goal and the actions name, each once, rising.
pub fn fact_codes(
    alloc: Global,
    actions: &[CodedAction],
    goal: &CodedCond,
) -> Result<Vec<u128>, NoMemory>
    ensures { IfOk result (λ codes. IsRisingFrom (named_facts (map action_of actions.now) (condition_of goal.now)) codes.items) }
{
    let mut codes = Vec::new(alloc);
    add_condition(goal, &mut codes)?;
    add_actions(actions, &mut codes)?;
    Ok(rising(codes))
}
