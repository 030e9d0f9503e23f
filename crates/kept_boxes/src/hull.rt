//! The hull of a group of boxes.

ghost use Rattle.std.specs.Prelude.{◌≡◌, ◌<◌, ◌≤◌, ◌↔◌, ℕ, false, pos, length, slice_index_or, IfOk, IsTrue, IsFalse, OnErr, OnOk};
ghost use Rattle.num_ends.specs.Decimal.{InRange};
ghost use Rattle.num_ends.specs.Ends.{has, is_within, whole_line};
ghost use Rattle.ground_task.specs.Meaning.{fluent_value};
ghost use Rattle.box_model.specs.Boxes.{is_may_within, may_be, Contains, LiesWithin};
ghost use Rattle.box_model.specs.declared.state_box.StateBox.{StateBox};
ghost use Rattle.kept_boxes.specs.Hulls.{HasShapeOf, IsInside, IsWidened};

use box_model::{May, StateBox};
use ground_task::{State, Task};
use num_ends::{Dec, Interval, NoMemory};
use std::alloc::Global;
use std::marker::Model;

/// A box around the boxes of a group.
#[derive(Drop)]
pub(crate) struct Hull {
    facts: Vec<May>,
    fluents: Vec<Interval>,
}

impl Model for Hull {
    ghost use Rattle.box_model.specs.declared.state_box.StateBox.{StateBox};

    ghost Value = { StateBox };

    ghost view = { λ h. record { facts = h.facts.items; fluents = h.fluents.items } };
}

fn either(a: May, b: May) -> May
    ensures first { IsTrue (is_may_within a result) }
    ensures second { IsTrue (is_may_within b result) }
{
    match (a, b) {
        (May::True, May::True) => May::True,
        (May::False, May::False) => May::False,
        _ => May::Any,
    }
}

fn widen_facts(facts: &mut [May], others: &[May])
    ensures len { length facts.new ≡ length facts.old }
    ensures old { (f : ℕ) → f < length facts.old → IsTrue (is_may_within (slice_index_or facts.old f May.Any) (slice_index_or facts.new f May.Any)) }
    ensures others { (f : ℕ) → f < length facts.old → f < length others.now → IsTrue (is_may_within (slice_index_or others.now f May.Any) (slice_index_or facts.new f May.Any)) }
{
    let count = facts.len().min(others.len());
    'each: for i in 0..count {
        facts[i] = either(facts[i], others[i]);
    }
}

fn part_of(fluents: &[Interval], number: usize) -> Interval
    ensures { result ≡ slice_index_or fluents.now number whole_line }
{
    match fluents.get(number) {
        Some(interval) => *interval,
        None => Interval::whole(),
    }
}

fn widen_fluents(fluents: &mut [Interval], others: &[Interval])
    ensures len { length fluents.new ≡ length fluents.old }
    ensures old { (x : ℕ) → x < length fluents.old → IsTrue (is_within (slice_index_or fluents.old x whole_line) (slice_index_or fluents.new x whole_line)) }
    ensures others { (x : ℕ) → x < length fluents.old → x < length others.now → IsTrue (is_within (slice_index_or others.now x whole_line) (slice_index_or fluents.new x whole_line)) }
{
    let count = fluents.len().min(others.len());
    'each: for i in 0..count {
        let part = part_of(fluents, i);
        let other = part_of(others, i);
        fluents[i] = part.hull(other);
    }
}

fn have_facts(facts: &[May], count: u32, state: &State) -> bool
    requires facts { count ≡ length facts.now }
    requires as_many { count ≡ length state.now.facts }
    ensures { IsTrue result ↔ ((f : ℕ) → f < length facts.now → IsTrue (may_be (slice_index_or facts.now f May.Any) (slice_index_or state.now.facts f false))) }
{
    'each: for fact in 0..count {
        if !facts[fact as usize].may_be(state.fact(fact)) {
            return false;
        }
    }
    true
}

/// The value of a fluent in a state.
fn value_of(task: &Task, state: &State, fluent: u32) -> Dec
    requires in_task { fluent < length task.now.raw.fluents }
    requires in_state { fluent < length state.now.values }
    ensures value { result ≡ fluent_value task.now.places state.now fluent }
    ensures in_range { InRange (slice_index_or state.now.values fluent (pos 0)) }
{
    Dec {
        n: state.value(fluent),
        p: task.places(fluent),
    }
}

fn have_values(fluents: &[Interval], count: u32, task: &Task, state: &State) -> bool
    requires fluents { count ≡ length fluents.now }
    requires of_task { count ≡ length task.now.raw.fluents }
    requires as_many { count ≡ length state.now.values }
    ensures { IsTrue result ↔ ((x : ℕ) → x < length fluents.now → IsTrue (has (slice_index_or fluents.now x whole_line) (fluent_value task.now.places state.now x))) }
{
    'each: for fluent in 0..count {
        if !part_of(fluents, fluent as usize).has(value_of(task, state, fluent)) {
            return false;
        }
    }
    true
}

impl Hull {
    /// The hull of one box.
    fn of(alloc: Global, own: &StateBox) -> Result<Hull, NoMemory>
        ensures { IfOk result (λ hull. hull ≡ own.now) }
    {
        Ok(Hull {
            facts: Vec::from_slice(alloc, own.facts.as_slice())?,
            fluents: Vec::from_slice(alloc, own.fluents.as_slice())?,
        })
    }

    /// Makes the hull wide enough for a box too.
    fn widen(&mut self, own: &StateBox)
        ensures old { LiesWithin self.old self.new }
        ensures own { HasShapeOf own.now self.old → LiesWithin own.now self.new }
    {
        widen_facts(&mut self.facts, own.facts.as_slice());
        widen_fluents(&mut self.fluents, own.fluents.as_slice());
    }

    fn has_shape(&self, task: &Task) -> bool
        ensures { IsTrue result ↔ ((length self.now.facts ≡ length task.now.raw.facts) × (length self.now.fluents ≡ length task.now.raw.fluents)) }
    {
        self.facts.len() == task.raw().facts.len() && self.fluents.len() == task.raw().fluents.len()
    }

    fn contains(&self, task: &Task, state: &State) -> bool
        requires facts { length state.now.facts ≡ length task.now.raw.facts }
        requires values { length state.now.values ≡ length task.now.raw.fluents }
        requires as_many_facts { length self.now.facts ≡ length task.now.raw.facts }
        requires as_many_fluents { length self.now.fluents ≡ length task.now.raw.fluents }
        ensures { IsTrue result ↔ Contains task.now.places self.now state.now }
    {
        let (facts, fluents) = (task.raw().facts.len(), task.raw().fluents.len());
        have_facts(&self.facts, facts as u32, state)
            && have_values(&self.fluents, fluents as u32, task, state)
    }

    /// Whether the state may lie in a box of the group; where it can't, it lies in none that is inside of the hull.
    pub(crate) fn may_contain(&self, task: &Task, state: &State) -> bool
        requires facts { length state.now.facts ≡ length task.now.raw.facts }
        requires values { length state.now.values ≡ length task.now.raw.fluents }
        ensures { IsFalse result → (b : StateBox) → IsInside b self.now → Contains task.now.places b state.now → ⊥ }
    {
        if self.has_shape(task) {
            self.contains(task, state)
        } else {
            true
        }
    }
}

/// Makes the hull of a group wide enough for a box, or adds it. Without memory nothing changes.
pub(crate) fn widen_group(
    hulls: &mut Vec<Hull>,
    alloc: Global,
    group: usize,
    own: &StateBox,
) -> Result<(), NoMemory>
    requires next { group ≤ length hulls.old.items }
    ensures ok { OnOk result (IsWidened group own.now hulls.old.items hulls.new.items) }
    ensures err { OnErr result (hulls.new.items ≡ hulls.old.items) }
{
    if group < hulls.len() {
        let hull = &mut hulls[group];
        hull.widen(own);
        return Ok(());
    }
    hulls.push(Hull::of(alloc, own)?)?;
    Ok(())
}
