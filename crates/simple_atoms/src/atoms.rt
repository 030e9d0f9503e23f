//! Values and gains of linear forms, and repetitions.

ghost use Rattle.std.specs.Prelude.{◌≡◌, ◌<◌, ◌^◌, min, IfSome, Some, length, slice_get};
ghost use Rattle.std.specs.Option.{option_and_then};
ghost use Rattle.num_ends.specs.Decimal.{origin, trimmed};
ghost use Rattle.num_ends.specs.Range.{operands_fit};
ghost use Rattle.ground_task.specs.Meaning.{fluent_value};
ghost use Rattle.ground_task.specs.Steps.{change_of};
ghost use Rattle.ground_task.specs.Tasks.{IsStateOf};
ghost use Rattle.simple_atoms.specs.Repetitions.{helps, repetitions, sizes_of, steps_over};
ghost use Rattle.simple_atoms.specs.Values.{constant_of, form_value, gain_of, growth, growth_by, number_in, term_added, weighted};

use crate::linear::{FAR, Linear};
use crate::operations::{product, sum};
use ground_task::{Change, GExpr, Ground, State, Task};
use num_ends::Dec;

const ZERO: Dec = Dec { n: 0, p: 0 };

/// A sum with a term added: a coefficient times a number, where there is one.
fn add_term(total: Dec, coefficient: Dec, number: Option<Dec>) -> Option<Dec>
    ensures { result ≡ option_and_then (term_added total coefficient) number }
{
    match number {
        Some(number) => match product(coefficient, number) {
            Some(product) => sum(total, product),
            None => None,
        },
        None => None,
    }
}

/// The value of a fluent in a state, trimmed; 0 for a number that is no fluent's.
#[tactic(auto, using(crate::proofs::Fluents::unknown_fluent))]
fn number_in(task: &Task, state: &State, fluent: u32) -> Dec
    requires { IsStateOf task.now state.now }
    ensures { result ≡ trimmed (fluent_value task.now.places state.now fluent) }
{
    if fluent as usize >= task.raw().fluents.len() {
        return ZERO;
    }
    let value = Dec {
        n: state.value(fluent),
        p: task.places(fluent),
    };
    value.trim()
}

/// A start and, in order, each coefficient times the value of its fluent in a state.
fn sum_in(task: &Task, state: &State, start: Dec, terms: &[(u32, Dec)]) -> Option<Dec>
    requires { IsStateOf task.now state.now }
    ensures { result ≡ weighted (number_in task.now.places state.now) start terms.now }
{
    let mut total = start;
    'each: for term in terms {
        let number = number_in(task, state, term.0);
        let Some(sum) = add_term(total, term.1, Some(number)) else {
            return None;
        };
        total = sum;
    }
    Some(total)
}

/// The value of a form in a state: the constant, and then coefficient times value in the order of the terms.
///
/// `None` where something leaves the range on the way.
pub fn value_in(task: &Task, form: &Linear, state: &State) -> Option<Dec>
    requires { IsStateOf task.now state.now }
    ensures { result ≡ form_value task.now.places state.now form.now }
{
    sum_in(task, state, form.constant, form.terms.as_slice())
}

fn constant_of(expr: &GExpr) -> Option<Dec>
    ensures { result ≡ constant_of expr.now }
{
    match expr {
        GExpr::Const(constant) => Some(constant.trim()),
        GExpr::Read(_) | GExpr::Add(_, _) | GExpr::Sub(_, _) | GExpr::Mul(_, _) => None,
    }
}

fn growth_by(change: &Change) -> Option<Dec>
    ensures { result ≡ growth_by (Some change.now) }
{
    match change {
        Change::Add(expr) => constant_of(expr),
        Change::Set(_) => None,
    }
}

/// By how much an action lets a fluent grow, where that is a constant.
fn growth(action: &Ground, fluent: u32) -> Option<Dec>
    ensures { result ≡ growth action.now fluent }
{
    'each: for effect in action.nums.as_slice() {
        if effect.0 == fluent {
            return growth_by(&effect.1);
        }
    }
    Some(ZERO)
}

/// Coefficient times growth in order.
fn growth_of(action: &Ground, terms: &[(u32, Dec)]) -> Option<Dec>
    ensures { result ≡ weighted (growth action.now) origin terms.now }
{
    let mut total = ZERO;
    'each: for term in terms {
        let Some(sum) = add_term(total, term.1, growth(action, term.0)) else {
            return None;
        };
        total = sum;
    }
    Some(total)
}

/// By how much an action lets a form grow: coefficient times change in the order of the terms.
///
/// `None` where the action changes a fluent of the form otherwise than by a constant that is added, or where something
/// leaves the range on the way.
pub fn gain_of(form: &Linear, action: &Ground) -> Option<Dec>
    ensures { result ≡ gain_of form.now action.now }
{
    growth_of(action, form.terms.as_slice())
}

/// The gain by the action of this number, as `gain_of` has it.
pub fn gain(task: &Task, form: &Linear, action: u32) -> Option<Dec>
    requires known { action < length task.now.raw.actions }
    ensures { result ≡ option_and_then (gain_of form.now) (slice_get task.now.raw.actions action) }
{
    gain_of(form, &task.raw().actions.as_slice()[action as usize])
}

fn helps(form: &Linear, value: Dec, gain: Dec) -> bool
    ensures { result ≡ helps form.now value gain }
{
    if form.equal {
        value.n < 0 && 0 < gain.n || 0 < value.n && gain.n < 0
    } else {
        0 < gain.n
    }
}

fn steps_over(passing: bool, gap: u128, gain: u128) -> u32
    requires size { gap < 2 ^ 127 }
    requires some { 0 < gain }
    ensures { result ≡ min FAR (steps_over passing gap gain) }
{
    let gap = if passing { gap } else { gap.saturating_sub(1) };
    let steps = gap / gain + 1;
    steps.min(u128::from(FAR)) as u32
}

/// The numbers at the larger of the counts of places, without their signs; none where one leaves the range there.
#[tactic(auto, using(crate::proofs::Sizes::sizes_given, crate::proofs::Sizes::sizes_refused))]
fn sizes(value: Dec, gain: Dec) -> Option<(u128, u128)>
    ensures value { result ≡ sizes_of value gain }
    ensures small { IfSome result (λ sizes. sizes.0 < 2 ^ 127) }
{
    let places = value.p.max(gain.p);
    match (value.align(places), gain.align(places)) {
        (Ok(value), Ok(gain)) => Some((value.n.unsigned_abs(), gain.n.unsigned_abs())),
        _ => None,
    }
}

/// How often an action of this gain is applied from this value until the form is met: the least such number of at least
/// 1, or `FAR` where that is greater. The value doesn't meet the form.
///
/// A form that is to be 0 is closed once so many gains are as large as the value, though they may lead past 0. Where value
/// and gain can't be brought to the larger of their counts of places, the number is 1. `None` where the gain doesn't help:
/// it isn't above 0, or for a form that is to be 0, its sign is that of the value.
#[tactic(auto, using(crate::proofs::Closing::helping_gain))]
pub fn repetitions(form: &Linear, value: Dec, gain: Dec) -> Option<u32>
    ensures { result ≡ repetitions form.now value gain }
{
    if !helps(form, value, gain) {
        return None;
    }
    let passing = form.strict && !form.equal;
    match sizes(value, gain) {
        Some((gap, gain)) => Some(steps_over(passing, gap, gain)),
        None => Some(1),
    }
}
