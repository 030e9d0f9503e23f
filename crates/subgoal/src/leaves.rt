//! What is known of an atom in every state.

ghost use Rattle.std.specs.Prelude.{◌≡◌, ◌≤◌, IfOk, length, map};
ghost use Rattle.subgoal.specs.Help.{makes};
ghost use Rattle.subgoal.specs.Leaves.{changes_form, comparison_leaf, gain_at, gains_by, literal_leaf, may_help, numbers_of};

use crate::unmet::{changes_read, changes_term, makes};
use ground_task::{GExpr, Ground, Rel};
use num_ends::{Dec, List, NoMemory};
use simple_atoms::{Linear, gain_of, linear_form};
use std::alloc::Global;

/// What is known of an atom: its form where it is a comparison that has one, and the actions that may help it.
#[derive(Drop)]
pub(crate) struct Leaf {
    pub form: Option<Linear>,
    pub helpers: List<u32>,
    /// Where there is a form, by how much each of them lets it grow.
    pub gains: List<Option<Dec>>,
}

#[tactic(auto, using(crate::proofs::LeafLists::numbers_passed, crate::proofs::LeafLists::numbers_failed, crate::proofs::LeafLists::numbers_end))]
fn literal_helpers(
    alloc: Global,
    actions: &[Ground],
    fact: u32,
    truth: bool,
) -> Result<List<u32>, NoMemory>
    requires { length actions.now ≤ 20000 }
    ensures { IfOk result (λ numbers. numbers ≡ numbers_of (makes fact truth) 0 actions.now) }
{
    let mut numbers = List::new(alloc);
    'each: for (i, action) in actions.iter().enumerate() {
        if makes(action, fact, truth) {
            numbers.push(i as u32)?;
        }
    }
    Ok(numbers)
}

fn changes_form(form: &Option<Linear>, action: &Ground) -> bool
    ensures { result ≡ changes_form form.now action.now }
{
    match form {
        Some(form) => changes_term(action, form.terms.as_slice()),
        None => false,
    }
}

fn may_help(left: &GExpr, right: &GExpr, form: &Option<Linear>, action: &Ground) -> bool
    ensures { result ≡ may_help left.now right.now form.now action.now }
{
    let read = changes_read(action, left) || changes_read(action, right);
    read || changes_form(form, action)
}

#[tactic(auto, using(crate::proofs::LeafLists::numbers_passed, crate::proofs::LeafLists::numbers_failed, crate::proofs::LeafLists::numbers_end))]
fn comparison_helpers(
    alloc: Global,
    actions: &[Ground],
    left: &GExpr,
    right: &GExpr,
    form: &Option<Linear>,
) -> Result<List<u32>, NoMemory>
    requires { length actions.now ≤ 20000 }
    ensures { IfOk result (λ numbers. numbers ≡ numbers_of (may_help left.now right.now form.now) 0 actions.now) }
{
    let mut numbers = List::new(alloc);
    'each: for (i, action) in actions.iter().enumerate() {
        if may_help(left, right, form, action) {
            numbers.push(i as u32)?;
        }
    }
    Ok(numbers)
}

/// The gain of a form by the action of this number.
fn gain_at(actions: &[Ground], form: &Linear, helper: u32) -> Option<Dec>
    ensures { result ≡ gain_at actions.now form.now helper }
{
    let i = helper as usize;
    if i >= actions.len() {
        return None;
    }
    gain_of(form, &actions[i])
}

#[tactic(auto, using(crate::proofs::LeafLists::mapped_next, crate::proofs::LeafLists::mapped_end))]
fn gains_of_form(
    alloc: Global,
    actions: &[Ground],
    form: &Linear,
    helpers: &[u32],
) -> Result<List<Option<Dec>>, NoMemory>
    ensures { IfOk result (λ gains. gains ≡ map (gain_at actions.now form.now) helpers.now) }
{
    let mut gains = List::new(alloc);
    'each: for helper in helpers {
        gains.push(gain_at(actions, form, *helper))?;
    }
    Ok(gains)
}

fn gains_by(
    alloc: Global,
    actions: &[Ground],
    form: &Option<Linear>,
    helpers: &[u32],
) -> Result<List<Option<Dec>>, NoMemory>
    ensures { IfOk result (λ gains. gains ≡ gains_by actions.now form.now helpers.now) }
{
    match form {
        Some(form) => gains_of_form(alloc, actions, form, helpers),
        None => Ok(List::new(alloc)),
    }
}

pub(crate) fn literal_leaf(
    alloc: Global,
    actions: &[Ground],
    fact: u32,
    truth: bool,
) -> Result<Leaf, NoMemory>
    requires { length actions.now ≤ 20000 }
    ensures { IfOk result (λ leaf. leaf ≡ literal_leaf actions.now fact truth) }
{
    let helpers = literal_helpers(alloc, actions, fact, truth)?;
    Ok(Leaf {
        form: None,
        helpers,
        gains: List::new(alloc),
    })
}

pub(crate) fn comparison_leaf(
    alloc: Global,
    actions: &[Ground],
    rel: Rel,
    left: &GExpr,
    right: &GExpr,
) -> Result<Leaf, NoMemory>
    requires { length actions.now ≤ 20000 }
    ensures { IfOk result (λ leaf. leaf ≡ comparison_leaf actions.now rel left.now right.now) }
{
    let form = linear_form(alloc, rel, left, right)?;
    let helpers = comparison_helpers(alloc, actions, left, right, &form)?;
    let gains = gains_by(alloc, actions, &form, helpers.as_slice())?;
    Ok(Leaf {
        form,
        helpers,
        gains,
    })
}
