//! The values of expressions in a state, within the range.

ghost use Rattle.std.specs.Prelude.{◌≡◌, ◌<◌, ◌≤◌, ◌+◌, length};
ghost use Rattle.ground_task.specs.Inside.{IsEvaluable};
ghost use Rattle.ground_task.specs.Meaning.{fluent_value};
ghost use Rattle.ground_task.specs.Ranged.{ranged_difference, ranged_product, ranged_sum, ranged_value};
ghost use Rattle.ground_task.specs.Tasks.{IsStateOf};

use crate::raw::GExpr;
use crate::state::State;
use crate::task::Task;
use num_ends::Dec;

#[tactic(auto, using(crate::proofs::Ranges::sum_given, crate::proofs::Ranges::sum_refused))]
pub(crate) fn sum(left: Dec, right: Dec) -> Option<Dec>
    ensures { result ≡ ranged_sum left right }
{
    match left.add(right) {
        Ok(value) => Some(value),
        Err(_) => None,
    }
}

#[tactic(auto, using(crate::proofs::Ranges::difference_given, crate::proofs::Ranges::difference_refused))]
fn difference(left: Dec, right: Dec) -> Option<Dec>
    ensures { result ≡ ranged_difference left right }
{
    match left.sub(right) {
        Ok(value) => Some(value),
        Err(_) => None,
    }
}

#[tactic(auto, using(crate::proofs::Ranges::product_given, crate::proofs::Ranges::product_refused))]
fn product(left: Dec, right: Dec) -> Option<Dec>
    requires few { left.p + right.p ≤ 18 }
    ensures { result ≡ ranged_product left right }
{
    match left.mul(right) {
        Ok(value) => Some(value),
        Err(_) => None,
    }
}

/// The value of a fluent.
pub(crate) fn fluent_value(task: &Task, state: &State, fluent: u32) -> Dec
    requires of_task { IsStateOf task.now state.now }
    requires known { fluent < length task.now.raw.fluents }
    ensures { result ≡ fluent_value task.now.places state.now fluent }
{
    Dec {
        n: state.value(fluent),
        p: task.places(fluent),
    }
}

/// The value of an expression; none where a subvalue leaves the range.
#[tactic(auto, using(crate::proofs::Layers::ranged_Const, crate::proofs::Layers::ranged_Read, crate::proofs::Layers::ranged_Add, crate::proofs::Layers::ranged_Sub, crate::proofs::Layers::ranged_Mul, crate::proofs::Evaluable::known_Read, crate::proofs::Evaluable::first_Add, crate::proofs::Evaluable::second_Add, crate::proofs::Evaluable::first_Sub, crate::proofs::Evaluable::second_Sub, crate::proofs::Evaluable::first_Mul, crate::proofs::Evaluable::second_Mul, crate::proofs::Evaluable::few_Mul))]
pub(crate) fn value_of(task: &Task, state: &State, expr: &GExpr) -> Option<Dec>
    requires of_task { IsStateOf task.now state.now }
    requires evaluable { IsEvaluable task.now expr.now }
    ensures { result ≡ ranged_value task.now.places state.now expr.now }
{
    match expr {
        GExpr::Const(value) => Some(value.trim()),
        GExpr::Read(fluent) => Some(fluent_value(task, state, *fluent)),
        GExpr::Add(a, b) => {
            let a = value_of(task, state, a.get())?;
            let b = value_of(task, state, b.get())?;
            sum(a, b)
        }
        GExpr::Sub(a, b) => {
            let a = value_of(task, state, a.get())?;
            let b = value_of(task, state, b.get())?;
            difference(a, b)
        }
        GExpr::Mul(a, b) => {
            let a = value_of(task, state, a.get())?;
            let b = value_of(task, state, b.get())?;
            product(a, b)
        }
    }
}
