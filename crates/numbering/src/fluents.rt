//! The fluents of a task.

ghost use Rattle.std.specs.Prelude.{◌≡◌, ◌++◌, OnOk, IfOk, map, flat_map};
ghost use Rattle.std.specs.List.Sorted.{IsNonDecreasingBy, IsPermutation};
ghost use Rattle.coded_actions.specs.Coded.{action_of, condition_of};
ghost use Rattle.ground_meaning.specs.Tasks.{condition_fluents};
ghost use Rattle.numbering.specs.Reached.{AreRelevant};
ghost use Rattle.numbering.specs.internal.Closures.{action_edges, starting_fluents};

use crate::reads::{add_action, add_condition};
use crate::rising::rising;
use crate::spread::closure;
use coded_actions::{CodedAction, CodedCond};
use num_ends::NoMemory;
use std::alloc::Global;

// What the goal and the preconditions read.
fn starts(alloc: Global, actions: &[CodedAction], goal: &CodedCond) -> Result<Vec<u128>, NoMemory>
    ensures { IfOk result (λ codes. codes.items ≡ starting_fluents (map action_of actions.now) (condition_of goal.now)) }
{
    let mut codes = Vec::new(alloc);
    add_condition(goal, &mut codes)?;
    'each: for action in actions {
        add_condition(&action.pre, &mut codes)?;
    }
    Ok(codes)
}

// The edges of all actions.
fn edges(alloc: Global, actions: &[CodedAction]) -> Result<Vec<(u128, u128)>, NoMemory>
    ensures { IfOk result (λ edges. edges.items ≡ flat_map action_edges (map action_of actions.now)) }
{
    let mut edges = Vec::new(alloc);
    'each: for action in actions {
        add_action(action, &mut edges)?;
    }
    Ok(edges)
}

// The edges in the order of their first numbers.
fn sorted(edges: Vec<(u128, u128)>) -> Vec<(u128, u128)>
    ensures same { IsPermutation edges.items result.items }
    ensures sorted { IsNonDecreasingBy (λ e. e.0) result.items }
{
    let mut edges = edges;
    edges.sort_unstable_by_key(|e| e.0);
    edges
}

/// The codes of the fluents of a task, rising: the least set that has what the goal and the preconditions read, and what
/// the effects on its members read.
pub fn fluent_codes(
    alloc: Global,
    actions: &[CodedAction],
    goal: &CodedCond,
) -> Result<Vec<u128>, NoMemory>
    ensures { IfOk result (λ codes. AreRelevant (map action_of actions.now) (condition_of goal.now) codes.items) }
{
    let starts = starts(alloc, actions, goal)?;
    let edges = sorted(edges(alloc, actions)?);
    let reached = closure(alloc, starts.as_slice(), edges.as_slice())?;
    Ok(rising(reached))
}
