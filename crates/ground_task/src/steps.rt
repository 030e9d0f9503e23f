//! The step of an action in a state, within the range.

ghost use Rattle.std.specs.Prelude.{◌≡◌, ◌<◌, Some, false, not, true, IfOk, IsTrue, length, slice_get};
ghost use Rattle.std.specs.List.{list_all};
ghost use Rattle.ground_task.specs.declared.answers.Applied.TheVariants as step;
ghost use Rattle.ground_task.specs.declared.changes.Written.TheVariants as written;
ghost use Rattle.ground_task.specs.declared.raw.GCond.{out-GCond};
ghost use Rattle.ground_task.specs.Inside.{effects_step, guard_of, AreEffectsOf, IsDecidable};
ghost use Rattle.ground_task.specs.Ranged.{are_effects_in_bounds, literal_layer, literals_true, ranged_action, ranged_step, top_conjuncts, without_state};
ghost use Rattle.ground_task.specs.Rows.{state_of_row, needs_two_words, ArePair, HasLeastWords, IsAlike};
ghost use Rattle.ground_task.specs.States.{StateValue};
ghost use Rattle.ground_task.specs.Steps.{next_state};
ghost use Rattle.ground_task.specs.Tasks.{IsStateOf};
ghost use Rattle.ground_task.specs.Valid.{is_known_condition, IsValidAction};

use crate::answers::{Advanced, Applied, Truth};
use crate::changes::{Written, add_facts, delete_facts, write_values};
use crate::raw::{GCond, Ground};
use crate::row::Row;
use crate::state::State;
use crate::task::Task;
use crate::truth::{has_truth, truth_of};
use num_ends::NoMemory;
use std::alloc::Global;
use std::marker::Model;
use std::mem::swap;
use std::slice;

/// Room for a state, into which steps are written without memory being taken.
#[derive(Debug, Drop)]
pub struct StateBuffer {
    state: State,
    /// Room for the words of the other width.
    spare: Row,
}

impl Model for StateBuffer {
    ghost use Rattle.ground_task.specs.Rows.{IsSpare};
    ghost use Rattle.ground_task.specs.States.{StateValue};

    ghost Value = { StateValue };

    ghost view = { λ buffer. buffer.state };

    ghost invariant = { λ buffer. IsSpare buffer.state buffer.spare };
}

impl StateBuffer {
    /// Room for each state of a task.
    pub fn new(alloc: Global, task: &Task) -> Result<StateBuffer, NoMemory>
        ensures { IfOk result (IsStateOf task.now) }
    {
        let state = task.first().copy(alloc)?;
        let spare = state.spare(alloc)?;
        Ok(StateBuffer { state, spare })
    }

    /// The state that was written last.
    pub fn state(&self) -> &State
        ensures { result.now ≡ self.now }
    {
        &self.state
    }
}

/// The members of an outermost conjunction, or the condition itself.
fn conjuncts(cond: &GCond) -> &[GCond]
    ensures { result.now ≡ top_conjuncts cond.now }
{
    match cond {
        GCond::And(conds) => conds.as_slice(),
        GCond::True | GCond::False | GCond::Fact(_, _) | GCond::Cmp(_, _, _) | GCond::Or(_) => {
            slice::from_ref(cond)
        }
    }
}

/// Whether a condition, if it is a literal, is true.
#[tactic(auto, using(crate::proofs::Evaluable::known_Fact))]
fn is_true_literal(task: &Task, state: &State, cond: &GCond) -> bool
    requires of_task { IsStateOf task.now state.now }
    requires decidable { IsDecidable task.now cond.now }
    ensures { result ≡ literal_layer state.now (out-GCond cond.now) }
{
    match cond {
        GCond::Fact(fact, truth) => has_truth(state, *fact, *truth),
        GCond::True | GCond::False | GCond::Cmp(_, _, _) | GCond::And(_) | GCond::Or(_) => true,
    }
}

/// Whether each literal among the top conjuncts is true.
#[tactic(auto, unfolding(crate::specs::Ranged::literals_true))]
fn literals_true(task: &Task, state: &State, cond: &GCond) -> bool
    requires of_task { IsStateOf task.now state.now }
    requires decidable { IsDecidable task.now cond.now }
    ensures { result ≡ literals_true state.now cond.now }
{
    'each: for conjunct in conjuncts(cond) {
        if !is_true_literal(task, state, conjunct) {
            return false;
        }
    }
    true
}

/// Whether an action with this precondition gets as far as its effects.
fn guard(task: &Task, state: &State, cond: &GCond) -> Advanced
    requires of_task { IsStateOf task.now state.now }
    requires decidable { IsDecidable task.now cond.now }
    ensures { result ≡ guard_of task.now.places state.now cond.now }
{
    if !literals_true(task, state, cond) {
        return Advanced::Blocked;
    }
    match truth_of(task, state, cond) {
        Truth::Yes => Advanced::Next,
        Truth::No => Advanced::Blocked,
        Truth::Over => Advanced::Over,
    }
}

/// Writes what an action makes of a state over a row of the state.
fn write_effects(task: &Task, state: &State, action: &Ground, row: &mut Row) -> Written
    requires of_task { IsStateOf task.now state.now }
    requires valid { IsValidAction (length task.now.raw.facts) (length task.now.raw.fluents) action.now }
    requires effects { AreEffectsOf task.now action.now.nums }
    requires same { state_of_row row.old ≡ state.now }
    ensures over { result ≡ written.Over → false ≡ are_effects_in_bounds task.now.places state.now action.now.nums }
    ensures whole { result ≡ written.Whole → true ≡ are_effects_in_bounds task.now.places state.now action.now.nums }
    ensures next { result ≡ written.Whole → state_of_row row.new ≡ next_state task.now.places state.now action.now }
    ensures outgrown { result ≡ written.Outgrown → row.old.is_wide ≡ false }
    ensures width { row.new.is_wide ≡ row.old.is_wide }
    ensures of_task { IsStateOf task.now (state_of_row row.new) }
{
    delete_facts(action.dels.as_slice(), row);
    add_facts(action.adds.as_slice(), row);
    write_values(task, state, action.nums.as_slice(), row)
}

/// Makes a row, with room for its words of the other width beside it, one of a state.
fn take_state(from: &Row, row: &mut Row, spare: &mut Row)
    requires pair { ArePair row.old spare.old }
    requires alike { IsAlike row.old from.now }
    ensures row { row.new ≡ from.now }
    ensures pair { ArePair row.new spare.new }
{
    if row.is_wide() != from.is_wide() {
        swap(row, spare);
    }
    row.copy_from(from);
}

/// Gives a row no more words than its numbers need.
fn settle(row: &mut Row, spare: &mut Row)
    requires pair { ArePair row.old spare.old }
    ensures state { state_of_row row.new ≡ state_of_row row.old }
    ensures least { HasLeastWords row.new }
    ensures pair { ArePair row.new spare.new }
{
    if !row.is_wide() {
        return;
    }
    if !row.is_all_narrow() {
        return;
    }
    spare.convert_from(row);
    swap(row, spare);
}

/// Writes what an action makes of a state over a row of the state with two words a number; false where a subvalue leaves
/// the range.
fn write_wide_effects(
    task: &Task,
    state: &State,
    action: &Ground,
    row: &mut Row,
    spare: &mut Row,
) -> bool
    requires of_task { IsStateOf task.now state.now }
    requires valid { IsValidAction (length task.now.raw.facts) (length task.now.raw.fluents) action.now }
    requires effects { AreEffectsOf task.now action.now.nums }
    requires pair { ArePair row.old spare.old }
    requires room { IsStateOf task.now (state_of_row row.old) }
    requires width { row.old.is_wide ≡ false }
    ensures fits { result ≡ are_effects_in_bounds task.now.places state.now action.now.nums }
    ensures next { result ≡ true → state_of_row row.new ≡ next_state task.now.places state.now action.now }
    ensures of_task { IsStateOf task.now (state_of_row row.new) }
    ensures pair { ArePair row.new spare.new }
{
    swap(row, spare);
    row.convert_from(state.row());
    matches!(write_effects(task, state, action, row), Written::Whole)
}

/// Writes what an action makes of a state into a row; false where a subvalue leaves the range, and then the row is that of
/// the state.
pub(crate) fn write_next(
    task: &Task,
    state: &State,
    action: &Ground,
    row: &mut Row,
    spare: &mut Row,
) -> bool
    requires of_task { IsStateOf task.now state.now }
    requires valid { IsValidAction (length task.now.raw.facts) (length task.now.raw.fluents) action.now }
    requires effects { AreEffectsOf task.now action.now.nums }
    requires pair { ArePair row.old spare.old }
    requires room { IsStateOf task.now (state_of_row row.old) }
    ensures fits { result ≡ are_effects_in_bounds task.now.places state.now action.now.nums }
    ensures next { result ≡ true → state_of_row row.new ≡ next_state task.now.places state.now action.now }
    ensures least { HasLeastWords row.new }
    ensures of_task { IsStateOf task.now (state_of_row row.new) }
    ensures pair { ArePair row.new spare.new }
{
    take_state(state.row(), row, spare);
    let fits = match write_effects(task, state, action, row) {
        Written::Whole => true,
        Written::Over => false,
        Written::Outgrown => write_wide_effects(task, state, action, row, spare),
    };
    if !fits {
        take_state(state.row(), row, spare);
        return false;
    }
    settle(row, spare);
    true
}

/// The state of a row, with no more words than its numbers need.
fn state_of(alloc: Global, row: Row) -> Result<State, NoMemory>
    ensures { IfOk result (λ s. s ≡ state_of_row row) }
{
    if !row.is_wide() {
        return Ok(State::from_row(row));
    }
    if !row.is_all_narrow() {
        return Ok(State::from_row(row));
    }
    Ok(State::from_row(row.converted(alloc)?))
}

/// What the effects of an action make of a state whose numbers have a word each, where the next state's need two.
fn applied_wide(
    alloc: Global,
    task: &Task,
    state: &State,
    action: &Ground,
) -> Result<Applied, NoMemory>
    requires of_task { IsStateOf task.now state.now }
    requires valid { IsValidAction (length task.now.raw.facts) (length task.now.raw.fluents) action.now }
    requires effects { AreEffectsOf task.now action.now.nums }
    requires narrow { needs_two_words state.now.values ≡ false }
    ensures { IfOk result (λ a. a ≡ effects_step task.now.places state.now action.now) }
{
    let mut row = state.row().converted(alloc)?;
    match write_effects(task, state, action, &mut row) {
        Written::Whole => Ok(Applied::Next(state_of(alloc, row)?)),
        Written::Over | Written::Outgrown => Ok(Applied::Over),
    }
}

/// What the effects of an action make of a state.
fn applied(alloc: Global, task: &Task, state: &State, action: &Ground) -> Result<Applied, NoMemory>
    requires of_task { IsStateOf task.now state.now }
    requires valid { IsValidAction (length task.now.raw.facts) (length task.now.raw.fluents) action.now }
    requires effects { AreEffectsOf task.now action.now.nums }
    ensures { IfOk result (λ a. a ≡ effects_step task.now.places state.now action.now) }
{
    let mut row = state.row().copy(alloc)?;
    match write_effects(task, state, action, &mut row) {
        Written::Whole => Ok(Applied::Next(state_of(alloc, row)?)),
        Written::Over => Ok(Applied::Over),
        Written::Outgrown => applied_wide(alloc, task, state, action),
    }
}

impl Task {
    #[tactic(auto, using(crate::proofs::StepAnswers::effects_of_action))]
    fn action(&self, number: u32) -> &Ground
        requires known { number < length self.now.raw.actions }
        ensures value { slice_get self.now.raw.actions number ≡ Some result.now }
        ensures valid { IsValidAction (length self.now.raw.facts) (length self.now.raw.fluents) result.now }
        ensures effects { AreEffectsOf self.now result.now.nums }
        ensures decidable { IsDecidable self.now result.now.pre }
    {
        &self.raw().actions.as_slice()[number as usize]
    }

    /// What an action does in a state: `Blocked` where a top conjunct that is a literal is false; else `Over` where a
    /// subvalue of a comparison of the precondition leaves the range at its places, none of them skipped; else `Blocked`
    /// where the precondition is false; else `Over` where a subvalue of an effect leaves the range; else the next state.
    pub fn apply(&self, alloc: Global, state: &State, action: u32) -> Result<Applied, NoMemory>
        requires of_task { IsStateOf self.now state.now }
        requires known { action < length self.now.raw.actions }
        ensures step { IfOk result (λ a. a ≡ ranged_step self.now state.now action) }
        ensures of_task { IfOk result (λ a. (s : StateValue) → a ≡ step.Next s → IsStateOf self.now s) }
    {
        let action = self.action(action);
        match guard(self, state, &action.pre) {
            Advanced::Next => applied(alloc, self, state, action),
            Advanced::Blocked => Ok(Applied::Blocked),
            Advanced::Over => Ok(Applied::Over),
        }
    }

    /// The same with the next state written into a buffer, and no memory taken.
    pub fn apply_into(&self, state: &State, action: u32, next: &mut StateBuffer) -> Advanced
        requires of_task { IsStateOf self.now state.now }
        requires known { action < length self.now.raw.actions }
        requires room { IsStateOf self.now next.old }
        ensures answer { result ≡ without_state (ranged_step self.now state.now action) }
        ensures next { (s : StateValue) → ranged_step self.now state.now action ≡ step.Next s → next.new ≡ s }
        ensures room { IsStateOf self.now next.new }
    {
        let action = self.action(action);
        match guard(self, state, &action.pre) {
            Advanced::Next => {}
            Advanced::Blocked => return Advanced::Blocked,
            Advanced::Over => return Advanced::Over,
        }
        if next.state.write_next(self, state, action, &mut next.spare) {
            return Advanced::Next;
        }
        Advanced::Over
    }
}
