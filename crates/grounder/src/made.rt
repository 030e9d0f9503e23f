//! The data of a task.

ghost use Rattle.std.specs.Prelude.{◌≡◌, IfOk, map};
ghost use Rattle.coded_actions.specs.Coded.{action_of, condition_of};
ghost use Rattle.numbering.specs.Numbers.{AreTaskCodes};
ghost use Rattle.grounder.specs.internal.Made.{AreFactCodes, AreFluentCodes, IsMadeOf};

use crate::atoms::{fact_texts, first_values, fluent_texts, true_facts};
use coded_actions::{CodedAction, CodedCond};
use ground_task::RawTask;
use num_ends::NoMemory;
use numbering::{Codes, numbered_actions, numbered_condition};
use pddl_types::Checked;
use static_facts::Statics;
use std::alloc::Global;

/// The data of the task whose facts and fluents have these codes.
pub(crate) fn task_data(
    alloc: Global,
    checked: &Checked,
    statics: &Statics,
    codes: &Codes,
    actions: &[CodedAction],
    goal: &CodedCond,
) -> Result<RawTask, NoMemory>
    requires one_pair { statics.now ≡ checked.now }
    requires numbers { AreTaskCodes codes.now.facts.items codes.now.fluents.items }
    requires of_facts { AreFactCodes checked.now codes.now.facts.items }
    requires of_fluents { AreFluentCodes checked.now codes.now.fluents.items }
    ensures { IfOk result (IsMadeOf checked.now codes.now.facts.items codes.now.fluents.items (map action_of actions.now) (condition_of goal.now)) }
{
    Ok(RawTask {
        facts: fact_texts(alloc, checked, &codes.facts)?,
        fluents: fluent_texts(alloc, checked, &codes.fluents)?,
        true_facts: true_facts(alloc, statics, &codes.facts)?,
        values: first_values(alloc, statics, &codes.fluents)?,
        actions: numbered_actions(alloc, codes, actions)?,
        goal: numbered_condition(alloc, codes, goal)?,
    })
}
