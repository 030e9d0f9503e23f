//! The truth of conditions in a state, within the range.

ghost use Rattle.std.specs.Prelude.{◌≡◌, ◌<◌, All, IsTrue, length};
ghost use Rattle.num_ends.specs.Decimal.{Decimal, order_of};
ghost use Rattle.ground_task.specs.declared.answers.Truth.TheVariants as truth;
ghost use Rattle.ground_task.specs.Inside.{IsDecidable, IsEvaluable, answer_of, both_of, compared, comparison, either_of, truth_of_all, truth_of_any};
ghost use Rattle.ground_task.specs.Meaning.{fact_value, has_truth, stands};
ghost use Rattle.ground_task.specs.Placed.{has_few_places};
ghost use Rattle.ground_task.specs.Ranged.{ranged_goal, ranged_truth};
ghost use Rattle.ground_task.specs.Tasks.{IsStateOf};
ghost use Rattle.ground_task.specs.Valid.{is_known_condition};

use crate::answers::Truth;
use crate::raw::{GCond, GExpr, Rel};
use crate::state::State;
use crate::task::Task;
use crate::values::value_of;
use num_ends::Dec;
use std::cmp::Ordering;

fn answer_of(holds: bool) -> Truth
    ensures { result ≡ answer_of holds }
{
    if holds { Truth::Yes } else { Truth::No }
}

fn both_of(first: Truth, second: Truth) -> Truth
    ensures { result ≡ both_of first second }
{
    match first {
        Truth::Over => Truth::Over,
        Truth::Yes => second,
        Truth::No => match second {
            Truth::Over => Truth::Over,
            _ => Truth::No,
        },
    }
}

fn either_of(first: Truth, second: Truth) -> Truth
    ensures { result ≡ either_of first second }
{
    match first {
        Truth::Over => Truth::Over,
        Truth::No => second,
        Truth::Yes => match second {
            Truth::Over => Truth::Over,
            _ => Truth::Yes,
        },
    }
}

fn stands(rel: Rel, order: Ordering) -> bool
    ensures { (a b : Decimal) → order ≡ order_of a b → result ≡ stands rel a b }
{
    match rel {
        Rel::Less => matches!(order, Ordering::Less),
        Rel::LessEqual => !matches!(order, Ordering::Greater),
        Rel::Equal => matches!(order, Ordering::Equal),
        Rel::GreaterEqual => !matches!(order, Ordering::Less),
        Rel::Greater => matches!(order, Ordering::Greater),
    }
}

#[tactic(auto, using(crate::proofs::Ranges::operands_test, crate::proofs::Ranges::operands_refused))]
fn compare_values(rel: Rel, left: Dec, right: Dec) -> Truth
    ensures { result ≡ compared rel left right }
{
    match left.compare(right) {
        Ok(order) => answer_of(stands(rel, order)),
        Err(_) => Truth::Over,
    }
}

fn compare(task: &Task, state: &State, rel: Rel, left: &GExpr, right: &GExpr) -> Truth
    requires of_task { IsStateOf task.now state.now }
    requires left { IsEvaluable task.now left.now }
    requires right { IsEvaluable task.now right.now }
    ensures { result ≡ comparison task.now state.now rel left.now right.now }
{
    match (value_of(task, state, left), value_of(task, state, right)) {
        (Some(left), Some(right)) => compare_values(rel, left, right),
        _ => Truth::Over,
    }
}

/// Whether a fact has this truth value.
pub(crate) fn has_truth(state: &State, fact: u32, truth: bool) -> bool
    requires known { fact < length state.now.facts }
    ensures { result ≡ has_truth truth (fact_value state.now fact) }
{
    if truth {
        state.fact(fact)
    } else {
        !state.fact(fact)
    }
}

/// Whether a condition holds; `Over` where a subvalue of one of its comparisons leaves the range. None is skipped.
#[cycle(truths)]
#[tactic(auto, using(crate::proofs::Truths::ranged_True, crate::proofs::Truths::ranged_False, crate::proofs::Truths::ranged_And, crate::proofs::Truths::ranged_Or, crate::proofs::Truths::ranged_Fact, crate::proofs::Truths::ranged_Cmp, crate::proofs::Evaluable::known_Fact, crate::proofs::Evaluable::first_Cmp, crate::proofs::Evaluable::second_Cmp))]
pub(crate) fn truth_of(task: &Task, state: &State, cond: &GCond) -> Truth
    requires of_task { IsStateOf task.now state.now }
    requires decidable { IsDecidable task.now cond.now }
    ensures { result ≡ ranged_truth task.now state.now cond.now }
{
    match cond {
        GCond::True => Truth::Yes,
        GCond::False => Truth::No,
        GCond::Fact(fact, truth) => answer_of(has_truth(state, *fact, *truth)),
        GCond::Cmp(rel, left, right) => compare(task, state, *rel, left, right),
        GCond::And(conds) => truth_of_all(task, state, conds.as_slice()),
        GCond::Or(conds) => truth_of_any(task, state, conds.as_slice()),
    }
}

#[cycle(truths)]
fn truth_of_all(task: &Task, state: &State, conds: &[GCond]) -> Truth
    requires of_task { IsStateOf task.now state.now }
    requires decidable { All (IsDecidable task.now) conds.now }
    ensures { result ≡ truth_of_all (ranged_truth task.now state.now) truth.Yes conds.now }
{
    let mut all = Truth::Yes;
    'each: for cond in conds {
        all = both_of(all, truth_of(task, state, cond));
    }
    all
}

#[cycle(truths)]
fn truth_of_any(task: &Task, state: &State, conds: &[GCond]) -> Truth
    requires of_task { IsStateOf task.now state.now }
    requires decidable { All (IsDecidable task.now) conds.now }
    ensures { result ≡ truth_of_any (ranged_truth task.now state.now) truth.No conds.now }
{
    let mut any = Truth::No;
    'each: for cond in conds {
        any = either_of(any, truth_of(task, state, cond));
    }
    any
}

impl Task {
    /// Whether a condition holds in a state, with each side of each comparison at most 18 places. `Over` where a subvalue
    /// of one of its comparisons leaves the range at its places; none is skipped.
    pub fn truth(&self, cond: &GCond, state: &State) -> Truth
        requires of_task { IsStateOf self.now state.now }
        requires known { IsTrue (is_known_condition (length self.now.raw.facts) (length self.now.raw.fluents) cond.now) }
        requires few { IsTrue (has_few_places self.now.places cond.now) }
        ensures { result ≡ ranged_truth self.now state.now cond.now }
    {
        truth_of(self, state, cond)
    }

    /// Whether the goal holds in a state; `Over` where a subvalue of the goal leaves the range at its places.
    pub fn goal_in(&self, state: &State) -> Truth
        requires of_task { IsStateOf self.now state.now }
        ensures { result ≡ ranged_goal self.now state.now }
    {
        truth_of(self, state, &self.raw().goal)
    }
}
