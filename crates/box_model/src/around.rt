//! The box of one state, and the states in a box.

ghost use Rattle.std.specs.Prelude.{◌≡◌, ◌<◌, ◌≤◌, ◌^◌, ◌↔◌, ℕ, false, pos, length, map, IsTrue, IfOk, slice_index_or};
ghost use Rattle.std.specs.List.{range_with_len};
ghost use Rattle.num_ends.specs.Decimal.{InRange};
ghost use Rattle.ground_task.specs.Meaning.{fluent_value};
ghost use Rattle.ground_task.specs.States.{StateValue};
ghost use Rattle.box_model.specs.declared.state_box.StateBox.{StateBox};
ghost use Rattle.num_ends.specs.Ends.{point_of, whole_line};
ghost use Rattle.box_model.specs.Boxes.{only, Contains, IsAround, IsBoxOf, LiesWithin};

use crate::state_box::{May, StateBox};
use ground_task::{State, Task};
use num_ends::{Dec, Interval, List, NoMemory};
use std::alloc::Global;

fn only(truth: bool) -> May
    ensures { result ≡ only truth }
{
    if truth { May::True } else { May::False }
}

fn facts_around(alloc: Global, task: &Task, state: &State) -> Result<Vec<May>, NoMemory>
    requires facts { length state.now.facts ≡ length task.now.raw.facts }
    ensures { IfOk result (λ v. v.items ≡ map (λ f. only (slice_index_or state.now.facts f false)) (range_with_len 0 (length task.now.raw.facts))) }
{
    let count = task.raw().facts.len() as u32;
    let mut facts = Vec::with_capacity(alloc, count as usize)?;
    'each: for fact in 0..count {
        facts.push(only(state.fact(fact)))?;
    }
    Ok(facts)
}

/// The value of a fluent in a state.
pub(crate) fn value_of(task: &Task, state: &State, fluent: u32) -> Dec
    requires in_task { fluent < length task.now.raw.fluents }
    requires in_state { fluent < length state.now.values }
    requires few_places { slice_index_or task.now.places fluent 0 ≤ 18 }
    ensures value { result ≡ fluent_value task.now.places state.now fluent }
    ensures in_range { InRange (slice_index_or state.now.values fluent (pos 0)) }
{
    Dec {
        n: state.value(fluent),
        p: task.places(fluent),
    }
}

fn fluents_around(alloc: Global, task: &Task, state: &State) -> Result<Vec<Interval>, NoMemory>
    requires values { length state.now.values ≡ length task.now.raw.fluents }
    ensures each { IfOk result (λ v. v.items ≡ map (λ x. point_of (fluent_value task.now.places state.now x)) (range_with_len 0 (length task.now.raw.fluents))) }
    ensures in_range { IfOk result (λ _. (x : ℕ) → x < length task.now.raw.fluents → InRange (slice_index_or state.now.values x (pos 0))) }
{
    let count = task.raw().fluents.len() as u32;
    let mut fluents = Vec::with_capacity(alloc, count as usize)?;
    'each: for fluent in 0..count {
        fluents.push(Interval::point(value_of(task, state, fluent)))?;
    }
    Ok(fluents)
}

impl StateBox {
    /// The box of this state alone.
    pub fn around(alloc: Global, task: &Task, state: &State) -> Result<StateBox, NoMemory>
        requires facts { length state.now.facts ≡ length task.now.raw.facts }
        requires values { length state.now.values ≡ length task.now.raw.fluents }
        ensures alone { IfOk result (IsAround task.now.places state.now) }
        ensures of_task { IfOk result (IsBoxOf task.now) }
        ensures contains { IfOk result (λ b. Contains task.now.places b state.now) }
        ensures least { IfOk result (λ b. (c : StateBox) → Contains task.now.places c state.now → LiesWithin b c) }
    {
        let facts = facts_around(alloc, task, state)?;
        let fluents = fluents_around(alloc, task, state)?;
        Ok(StateBox {
            facts: List::from_vec(facts),
            fluents: List::from_vec(fluents),
        })
    }
}
