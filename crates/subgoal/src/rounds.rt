//! Rounds, which lower the values of all actions to those of their equations.

ghost use Rattle.std.specs.Prelude.{◌≡◌, All, length};
ghost use Rattle.ground_task.specs.Tasks.{IsStateOf};
ghost use Rattle.subgoal.specs.Equations.{values_by};
ghost use Rattle.subgoal.specs.Estimates.{AreValues};
ghost use Rattle.subgoal.specs.Help.{atoms_in};
ghost use Rattle.subgoal.specs.Network.{picked, weights_by, AreRules, AreZeros, IsAtom, Revalues};
ghost use Rattle.subgoal.specs.Unmet.{AreLowered, IsAbove, IsRight};

use crate::atoms::{View, weight_after};
use crate::conditions::{Reading, condition};
use crate::network::{Atom, Rules};
use ground_task::{Ground, State};
use std::mem::swap;

/// The value of each atom.
#[tactic(auto, using(crate::proofs::Improving::atom_known, crate::proofs::Improving::weighed_first, crate::proofs::Improving::weighed_zero, crate::proofs::Improving::weighed_next, crate::proofs::Improving::weighed_end))]
fn weigh(view: &View, atoms: &[Atom], weights: &mut Vec<u32>)
    requires right { IsRight view.now }
    requires atoms { All (IsAtom view.now.task.now) atoms.now }
    requires as_many { length weights.old.items ≡ length atoms.now }
    requires zeros { AreZeros (atoms_in view.now.task.now view.now.state.now) view.now.task.now.raw.actions view.now.values.now atoms.now weights.old.items }
    ensures { weights.new.items ≡ weights_by (atoms_in view.now.task.now view.now.state.now) view.now.task.now.raw.actions view.now.values.now atoms.now }
{
    'each: for (i, atom) in atoms.iter().enumerate() {
        weights[i] = weight_after(view, atom, weights[i]);
    }
}

/// The value of each action's precondition; the numbers of their atoms stand from a place on.
#[tactic(auto, using(crate::proofs::Improving::read_first, crate::proofs::Improving::read_next, crate::proofs::Improving::read_end))]
fn revalue(reading: &Reading, actions: &[Ground], at: usize, values: &mut Vec<u32>)
    requires as_many { length values.old.items ≡ length actions.now }
    ensures { Revalues (picked reading.now.weights.now reading.now.numbers.now) at actions.now values.new.items }
{
    let mut next = at;
    'each: for (i, action) in actions.iter().enumerate() {
        let (value, behind) = condition(reading, &action.pre, next);
        values[i] = value;
        next = behind;
    }
}

/// The value of each atom, and the next value of each action.
#[tactic(auto, using(crate::proofs::Improving::next_found))]
fn evaluate(
    rules: &Rules,
    state: &State,
    values: &[u32],
    weights: &mut Vec<u32>,
    next: &mut Vec<u32>,
)
    requires of_task { IsStateOf rules.now.task.now state.now }
    requires rules { AreRules rules.now }
    requires as_many { length values.now ≡ length rules.now.task.now.raw.actions }
    requires weights { length weights.old.items ≡ length rules.now.network.now.atoms.items }
    requires next { length next.old.items ≡ length rules.now.task.now.raw.actions }
    requires zeros { AreZeros (atoms_in rules.now.task.now state.now) rules.now.task.now.raw.actions values.now rules.now.network.now.atoms.items weights.old.items }
    ensures weights { weights.new.items ≡ weights_by (atoms_in rules.now.task.now state.now) rules.now.task.now.raw.actions values.now rules.now.network.now.atoms.items }
    ensures next { next.new.items ≡ values_by (atoms_in rules.now.task.now state.now) rules.now.task.now.raw.actions values.now rules.now.task.now.raw.actions }
{
    let view = View {
        task: rules.task,
        state,
        values,
    };
    weigh(&view, rules.network.atoms.as_slice(), weights);
    let reading = Reading {
        weights: weights.as_slice(),
        numbers: rules.network.numbers.as_slice(),
    };
    let actions = rules.task.raw().actions.as_slice();
    revalue(&reading, actions, rules.behind, next);
}

/// Takes the next values, and tells whether they differ.
#[tactic(auto, using(crate::proofs::Improving::round_above, crate::proofs::Improving::round_equal, crate::proofs::Improving::zeros_kept, crate::proofs::Improving::zeros_lower))]
fn round(
    rules: &Rules,
    state: &State,
    values: &mut Vec<u32>,
    weights: &mut Vec<u32>,
    next: &mut Vec<u32>,
) -> bool
    requires of_task { IsStateOf rules.now.task.now state.now }
    requires rules { AreRules rules.now }
    requires above { IsAbove (atoms_in rules.now.task.now state.now) rules.now.task.now.raw.actions values.old.items }
    requires weights { length weights.old.items ≡ length rules.now.network.now.atoms.items }
    requires next { length next.old.items ≡ length rules.now.task.now.raw.actions }
    requires zeros { AreZeros (atoms_in rules.now.task.now state.now) rules.now.task.now.raw.actions values.old.items rules.now.network.now.atoms.items weights.old.items }
    ensures above { IsAbove (atoms_in rules.now.task.now state.now) rules.now.task.now.raw.actions values.new.items }
    ensures next { length next.new.items ≡ length rules.now.task.now.raw.actions }
    ensures weights { weights.new.items ≡ weights_by (atoms_in rules.now.task.now state.now) rules.now.task.now.raw.actions values.old.items rules.now.network.now.atoms.items }
    ensures zeros { AreZeros (atoms_in rules.now.task.now state.now) rules.now.task.now.raw.actions values.new.items rules.now.network.now.atoms.items weights.new.items }
    ensures lowered { AreLowered (atoms_in rules.now.task.now state.now) rules.now.task.now.raw.actions values.old.items values.new.items result }
{
    evaluate(rules, state, values.as_slice(), weights, next);
    if next.as_slice() == values.as_slice() {
        return false;
    }
    swap(values, next);
    true
}

/// Lowers values until they solve the equations; the atoms have theirs by them.
#[tactic(auto, using(crate::proofs::Improving::round_solves, crate::proofs::Improving::round_falls, crate::proofs::Improving::round_weighs))]
pub(crate) fn settle(
    rules: &Rules,
    state: &State,
    values: &mut Vec<u32>,
    weights: &mut Vec<u32>,
    next: &mut Vec<u32>,
)
    requires of_task { IsStateOf rules.now.task.now state.now }
    requires rules { AreRules rules.now }
    requires above { IsAbove (atoms_in rules.now.task.now state.now) rules.now.task.now.raw.actions values.old.items }
    requires weights { length weights.old.items ≡ length rules.now.network.now.atoms.items }
    requires next { length next.old.items ≡ length rules.now.task.now.raw.actions }
    requires zeros { AreZeros (atoms_in rules.now.task.now state.now) rules.now.task.now.raw.actions values.old.items rules.now.network.now.atoms.items weights.old.items }
    ensures as_many { length values.new.items ≡ length rules.now.task.now.raw.actions }
    ensures next { length next.new.items ≡ length rules.now.task.now.raw.actions }
    ensures weights { weights.new.items ≡ weights_by (atoms_in rules.now.task.now state.now) rules.now.task.now.raw.actions values.new.items rules.now.network.now.atoms.items }
    ensures solved { AreValues rules.now.task.now state.now values.new.items }
{
    let mut lowered = true;
    'rounds: while lowered {
        lowered = round(rules, state, values, weights, next);
    }
}
