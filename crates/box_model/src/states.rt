//! The states in a box, and the boxes around it.

ghost use Rattle.std.specs.Prelude.{◌≡◌, ◌<◌, ◌≤◌, ◌↔◌, ℕ, false, length, slice_index_or, IsTrue};
ghost use Rattle.num_ends.specs.Ends.{has, is_within, whole_line};
ghost use Rattle.ground_task.specs.Meaning.{fluent_value};
ghost use Rattle.box_model.specs.Boxes.{fact_in, fluent_in, is_may_within, may_be, Contains, IsBoxOf, LiesWithin};

use crate::around::value_of;
use crate::state_box::{May, StateBox};
use ground_task::{State, Task};
use num_ends::Interval;

impl May {
    /// Whether each of these truth values is one of the other.
    pub fn within(self, other: May) -> bool
        ensures { result ≡ is_may_within self other }
    {
        match (self, other) {
            (_, May::Any) | (May::True, May::True) | (May::False, May::False) => true,
            _ => false,
        }
    }
}

fn facts_within(facts: &[May], others: &[May]) -> bool
    requires { length facts.now ≡ length others.now }
    ensures { IsTrue result ↔ ((f : ℕ) → f < length facts.now → IsTrue (is_may_within (slice_index_or facts.now f May.Any) (slice_index_or others.now f May.Any))) }
{
    'each: for i in 0..facts.len() {
        if !facts[i].within(others[i]) {
            return false;
        }
    }
    true
}

fn fluents_within(fluents: &[Interval], others: &[Interval]) -> bool
    requires { length fluents.now ≡ length others.now }
    ensures { IsTrue result ↔ ((x : ℕ) → x < length fluents.now → IsTrue (is_within (slice_index_or fluents.now x whole_line) (slice_index_or others.now x whole_line))) }
{
    'each: for i in 0..fluents.len() {
        if !fluents[i].within(others[i]) {
            return false;
        }
    }
    true
}

impl StateBox {
    fn contains_facts(&self, task: &Task, state: &State) -> bool
        requires a_box { IsBoxOf task.now self.now }
        requires as_many { length state.now.facts ≡ length task.now.raw.facts }
        ensures { IsTrue result ↔ ((f : ℕ) → f < length self.now.facts → IsTrue (may_be (fact_in self.now f) (slice_index_or state.now.facts f false))) }
    {
        let count = task.raw().facts.len() as u32;
        'each: for fact in 0..count {
            if !self.fact(fact).may_be(state.fact(fact)) {
                return false;
            }
        }
        true
    }

    fn contains_values(&self, task: &Task, state: &State) -> bool
        requires a_box { IsBoxOf task.now self.now }
        requires as_many { length state.now.values ≡ length task.now.raw.fluents }
        ensures { IsTrue result ↔ ((x : ℕ) → x < length self.now.fluents → IsTrue (has (fluent_in self.now x) (fluent_value task.now.places state.now x))) }
    {
        let count = task.raw().fluents.len() as u32;
        'each: for fluent in 0..count {
            if !self.fluent(fluent).has(value_of(task, state, fluent)) {
                return false;
            }
        }
        true
    }

    /// Whether the state lies in this box.
    pub fn contains(&self, task: &Task, state: &State) -> bool
        requires a_box { IsBoxOf task.now self.now }
        requires facts { length state.now.facts ≡ length task.now.raw.facts }
        requires values { length state.now.values ≡ length task.now.raw.fluents }
        ensures { IsTrue result ↔ Contains task.now.places self.now state.now }
    {
        self.contains_facts(task, state) && self.contains_values(task, state)
    }

    /// Whether each part of this box lies within that of the other.
    pub fn within(&self, other: &StateBox) -> bool
        ensures { IsTrue result ↔ LiesWithin self.now other.now }
    {
        let (facts, others) = (self.facts.as_slice(), other.facts.as_slice());
        let (fluents, other_fluents) = (self.fluents.as_slice(), other.fluents.as_slice());
        facts.len() == others.len()
            && fluents.len() == other_fluents.len()
            && facts_within(facts, others)
            && fluents_within(fluents, other_fluents)
    }
}
