//! The changes that an action makes of facts and fluents, within the range.

ghost use Rattle.std.specs.Prelude.{◌≡◌, ◌<◌, ◌||◌, ◌&&◌, ℕ, All, IfSome, IfNone, IsTrue, Some, false, true, pos, length, not, slice_index_or};
ghost use Rattle.num_ends.specs.Decimal.{number_at};
ghost use Rattle.ground_task.specs.declared.raw.Change.TheVariants as change;
ghost use Rattle.ground_task.specs.Inside.{AreEffectsOf, IsEffectOf, IsNewValue};
ghost use Rattle.ground_task.specs.Meaning.{fact_value};
ghost use Rattle.ground_task.specs.Ranged.{are_effects_in_bounds, is_change_in_bounds};
ghost use Rattle.ground_task.specs.Rows.{state_of_row};
ghost use Rattle.ground_task.specs.declared.changes.Written.TheVariants as written;
ghost use Rattle.ground_task.specs.Steps.{change_of, changed_value};
ghost use Rattle.ground_task.specs.Tasks.{is_listed, IsStateOf};

use crate::raw::{Change, GExpr};
use crate::row::Row;
use crate::state::State;
use crate::task::Task;
use crate::values::{fluent_value, sum, value_of};
use num_ends::Dec;

/// A fluent's value with that of an expression added.
#[tactic(auto, using(crate::proofs::NewValues::added_given, crate::proofs::NewValues::added_refused, crate::proofs::NewValues::added_over))]
fn added(task: &Task, state: &State, fluent: u32, expr: &GExpr) -> Option<Dec>
    requires of_task { IsStateOf task.now state.now }
    requires effect { IsEffectOf task.now fluent (change.Add expr.now) }
    ensures given { IfSome result (IsNewValue task.now.places state.now fluent (change.Add expr.now)) }
    ensures refused { IfNone result (is_change_in_bounds task.now.places state.now fluent (change.Add expr.now) ≡ false) }
{
    match value_of(task, state, expr) {
        Some(value) => sum(fluent_value(task, state, fluent), value),
        None => None,
    }
}

/// The value of an expression at a fluent's places.
#[tactic(auto, using(crate::proofs::NewValues::assigned_given, crate::proofs::NewValues::assigned_refused, crate::proofs::NewValues::assigned_over, crate::proofs::NewValues::assigned_places))]
fn assigned(task: &Task, state: &State, fluent: u32, expr: &GExpr) -> Option<Dec>
    requires of_task { IsStateOf task.now state.now }
    requires effect { IsEffectOf task.now fluent (change.Set expr.now) }
    ensures given { IfSome result (IsNewValue task.now.places state.now fluent (change.Set expr.now)) }
    ensures refused { IfNone result (is_change_in_bounds task.now.places state.now fluent (change.Set expr.now) ≡ false) }
{
    match value_of(task, state, expr) {
        Some(value) => match value.align(task.places(fluent)) {
            Ok(value) => Some(value),
            Err(_) => None,
        },
        None => None,
    }
}

/// A fluent's value after a change; none where a subvalue leaves the range.
fn new_value(task: &Task, state: &State, fluent: u32, change: &Change) -> Option<Dec>
    requires of_task { IsStateOf task.now state.now }
    requires effect { IsEffectOf task.now fluent change.now }
    ensures given { IfSome result (IsNewValue task.now.places state.now fluent change.now) }
    ensures refused { IfNone result (is_change_in_bounds task.now.places state.now fluent change.now ≡ false) }
{
    match change {
        Change::Add(expr) => added(task, state, fluent, expr),
        Change::Set(expr) => assigned(task, state, fluent, expr),
    }
}

/// What came of values that were to be written into a row.
#[derive(Clone, Copy, Debug)]
pub(crate) enum Written {
    /// They are there.
    Whole,
    /// A subvalue leaves the range.
    Over,
    /// One of them needs two words, and the row has one a number.
    Outgrown,
}

/// Writes the new value of each changed fluent, with the right-hand sides taken in the old state.
pub(crate) fn write_values(
    task: &Task,
    state: &State,
    effects: &[(u32, Change)],
    next: &mut Row,
) -> Written
    requires of_task { IsStateOf task.now state.now }
    requires effects { AreEffectsOf task.now effects.now }
    requires same { next.old.values ≡ state.now.values }
    ensures over { result ≡ written.Over → false ≡ are_effects_in_bounds task.now.places state.now effects.now }
    ensures whole { result ≡ written.Whole → true ≡ are_effects_in_bounds task.now.places state.now effects.now }
    ensures outgrown { result ≡ written.Outgrown → next.old.is_wide ≡ false }
    ensures width { next.new.is_wide ≡ next.old.is_wide }
    ensures facts { next.new.facts ≡ next.old.facts }
    ensures as_many { length next.new.values ≡ length state.now.values }
    ensures values { result ≡ written.Whole → (x : ℕ) → x < length state.now.values → slice_index_or next.new.values x (pos 0) ≡ number_at (slice_index_or task.now.places x 0) (changed_value task.now.places state.now x (change_of x effects.now)) }
{
    'each: for effect in effects {
        match new_value(task, state, effect.0, &effect.1) {
            Some(value) => {
                if !next.try_value(effect.0, value) {
                    return Written::Outgrown;
                }
            }
            None => return Written::Over,
        }
    }
    Written::Whole
}

/// Makes facts false.
pub(crate) fn delete_facts(facts: &[u32], next: &mut Row)
    requires known { All (λ f. f < length next.old.facts) facts.now }
    ensures as_many { length next.new.facts ≡ length next.old.facts }
    ensures facts { (f : ℕ) → f < length next.old.facts → fact_value (state_of_row next.new) f ≡ (fact_value (state_of_row next.old) f && not (is_listed facts.now f)) }
    ensures values { next.new.values ≡ next.old.values }
    ensures width { next.new.is_wide ≡ next.old.is_wide }
{
    'each: for fact in facts {
        next.delete_fact(*fact);
    }
}

/// Makes facts true.
pub(crate) fn add_facts(facts: &[u32], next: &mut Row)
    requires known { All (λ f. f < length next.old.facts) facts.now }
    ensures as_many { length next.new.facts ≡ length next.old.facts }
    ensures facts { (f : ℕ) → f < length next.old.facts → fact_value (state_of_row next.new) f ≡ (is_listed facts.now f || fact_value (state_of_row next.old) f) }
    ensures values { next.new.values ≡ next.old.values }
    ensures width { next.new.is_wide ≡ next.old.is_wide }
{
    'each: for fact in facts {
        next.add_fact(*fact);
    }
}
