//! The states of a task.

ghost use Rattle.std.specs.Prelude.{◌≡◌, ◌<◌, ◌^◌, false, true, length, pos, slice_index_or, All, IfOk};
ghost use Rattle.std.proofs.Common.{Some, refl};
ghost use Rattle.std.specs.Cmp.{partial_equiv_from_equiv, partial_order_from_agreeing_total};
ghost use Rattle.std.specs.Hash as fed;
ghost use Rattle.num_ends.specs.Decimal.{InRange};
ghost use Rattle.ground_task.specs.Orders.{is_same_state, same_state_equiv, state_cmp, state_cmp_total, states_tied};
ghost use Rattle.ground_task.specs.Rows.{same_state_words, state_of_row, words_of_state, HasLeastWords, IsSpare};
ghost use Rattle.ground_task.specs.Inside.{AreEffectsOf};
ghost use Rattle.ground_task.specs.Ranged.{are_effects_in_bounds};
ghost use Rattle.ground_task.specs.Steps.{next_state};
ghost use Rattle.ground_task.specs.Tasks.{IsStateOf};
ghost use Rattle.ground_task.specs.Valid.{IsValidAction};

use crate::raw::Ground;
use crate::row::Row;
use crate::steps::write_next;
use crate::task::Task;
use num_ends::NoMemory;
use std::alloc::Global;
use std::cmp::Ordering;
use std::hash::{Hash, Hasher};
use std::marker::Model;

/// A state of a task: a truth value per fact, and a number per fluent at the fluent's places.
///
/// States are ordered by their facts in order, with false first, and then by their values in order.
#[derive(Debug, Drop)]
pub struct State {
    row: Row,
}

impl Model for State {
    ghost use Rattle.ground_task.specs.Rows.{state_of_row, HasLeastWords};
    ghost use Rattle.ground_task.specs.States.{StateValue};

    ghost Value = { StateValue };

    ghost view = { λ s. state_of_row s.row };

    ghost invariant = { λ s. HasLeastWords s.row };
}

impl State {
    /// The state of a row with no more words than its numbers need.
    pub(crate) fn from_row(row: Row) -> State
        requires least { HasLeastWords row }
        ensures { result ≡ state_of_row row }
    {
        State { row }
    }

    /// The state of these truth values and numbers.
    pub(crate) fn from_parts(
        alloc: Global,
        facts: &[bool],
        values: &[i128],
    ) -> Result<State, NoMemory>
        requires few_facts { length facts.now < 2 ^ 32 }
        requires few_values { length values.now < 2 ^ 32 }
        requires in_range { All InRange values.now }
        ensures { IfOk result (λ s. s ≡ record { facts = facts.now; values = values.now }) }
    {
        let row = Row::of(alloc, facts, values)?;
        Ok(State { row })
    }

    /// The state of these truth values and numbers, one per fact and one per fluent of the task, the numbers at the
    /// fluents' places.
    pub fn of(
        alloc: Global,
        task: &Task,
        facts: &[bool],
        values: &[i128],
    ) -> Result<State, NoMemory>
        requires a_truth_each { length facts.now ≡ length task.now.raw.facts }
        requires a_number_each { length values.now ≡ length task.now.raw.fluents }
        requires in_range { All InRange values.now }
        ensures value { IfOk result (λ s. s ≡ record { facts = facts.now; values = values.now }) }
        ensures of_task { IfOk result (IsStateOf task.now) }
    {
        // A task has few facts and fluents.
        let _raw = task.raw();
        State::from_parts(alloc, facts, values)
    }

    /// The row of the state.
    pub(crate) fn row(&self) -> &Row
        ensures value { self.now ≡ state_of_row result.now }
        ensures least { HasLeastWords result.now }
    {
        &self.row
    }

    /// Whether the fact of this number is true.
    pub fn fact(&self, number: u32) -> bool
        requires known { number < length self.now.facts }
        ensures { result ≡ slice_index_or self.now.facts number false }
    {
        self.row.fact(number)
    }

    /// The number of the fluent's value at the fluent's places.
    pub fn value(&self, fluent: u32) -> i128
        requires known { fluent < length self.now.values }
        ensures value { result ≡ slice_index_or self.now.values fluent (pos 0) }
        ensures in_range { InRange result }
    {
        self.row.value(fluent)
    }

    /// Room for the words of the width that the state doesn't have.
    pub(crate) fn spare(&self, alloc: Global) -> Result<Row, NoMemory>
        ensures { IfOk result (IsSpare self.now) }
    {
        Row::cleared(
            alloc,
            self.row.fact_count(),
            self.row.value_count(),
            !self.row.is_wide(),
        )
    }

    /// Writes what an action makes of a state over this one; false where a subvalue leaves the range.
    pub(crate) fn write_next(
        &mut self,
        task: &Task,
        from: &State,
        action: &Ground,
        spare: &mut Row,
    ) -> bool
        requires of_task { IsStateOf task.now from.now }
        requires valid { IsValidAction (length task.now.raw.facts) (length task.now.raw.fluents) action.now }
        requires effects { AreEffectsOf task.now action.now.nums }
        requires room { IsStateOf task.now self.old }
        requires spare { IsSpare self.old spare.old }
        ensures fits { result ≡ are_effects_in_bounds task.now.places from.now action.now.nums }
        ensures next { result ≡ true → self.new ≡ next_state task.now.places from.now action.now }
        ensures of_task { IsStateOf task.now self.new }
        ensures spare { IsSpare self.new spare.new }
    {
        write_next(task, from, action, &mut self.row, spare)
    }

    /// An equal state.
    pub fn copy(&self, alloc: Global) -> Result<State, NoMemory>
        ensures { IfOk result (λ s. s ≡ self.now) }
    {
        Ok(State {
            row: self.row.copy(alloc)?,
        })
    }
}

impl PartialEq for State {
    ghost eq = { λ x y. is_same_state x y };

    ghost laws = { partial_equiv_from_equiv same_state_equiv };

    fn eq(&self, other: &Self) -> bool {
        self.row.is_same(&other.row)
    }
}

impl Eq for State {
    ghost laws = { same_state_equiv };
}

impl PartialOrd for State {
    ghost partial_cmp = { λ x y. Some (state_cmp x y) };

    ghost laws = { partial_order_from_agreeing_total state_cmp state_cmp_total (λ x y. refl) states_tied };

    fn partial_cmp(&self, other: &Self) -> Option<Ordering> {
        Some(self.cmp(other))
    }
}

impl Ord for State {
    ghost cmp = { λ x y. state_cmp x y };

    ghost total = { state_cmp_total };

    ghost matches_partial_cmp = { λ x y. refl };

    ghost matches_eq = { states_tied };

    fn cmp(&self, other: &Self) -> Ordering {
        self.row
            .cmp_facts(&other.row)
            .then(self.row.cmp_values(&other.row))
    }
}

impl Hash for State {
    ghost hash_input = { λ x. fed.slice fed.u64 (words_of_state x) };

    ghost respects_eq = { same_state_words };

    fn hash<H: Hasher>(&self, state: &mut H) {
        self.row.words().hash(state);
    }
}
