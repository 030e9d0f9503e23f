//! The estimate of a state.

ghost use Rattle.std.specs.Prelude.{◌≡◌, ◌<◌, ℕ, IfOk, length, slice_index};
ghost use Rattle.ground_task.specs.Tasks.{IsStateOf};
ghost use Rattle.simple_atoms.specs.declared.linear.TheConstants.{FAR};
ghost use Rattle.subgoal.specs.Estimates.{AreValues, IsEstimate};
ghost use Rattle.subgoal.specs.Help.{atoms_in};
ghost use Rattle.subgoal.specs.Network.{weights_by, AreRules};

use crate::conditions::{Reading, condition};
use crate::network::{Network, Rules, network_of};
use crate::rounds::settle;
use ground_task::{State, Task};
use num_ends::NoMemory;
use simple_atoms::FAR;
use std::alloc::Global;
use std::marker::Model;

/// Estimates of the states of a task, with buffers that are kept from state to state. Contracts see it as its task.
#[derive(Drop)]
pub struct Estimator<'a> {
    task: &'a Task,
    /// The distinct atoms of the goal and of the preconditions.
    network: Network<'a>,
    /// How many of the network's numbers the goal has, which come first.
    behind: usize,
    /// The value of each action.
    values: Vec<u32>,
    /// The value of each action after a round.
    next: Vec<u32>,
    /// The value of each atom.
    weights: Vec<u32>,
}

impl<'a> Model for Estimator<'a> {
    ghost use Rattle.ground_task.specs.contracts.raw.GCond as cond;
    ghost use Rattle.ground_task.specs.contracts.raw.GExpr as expr;
    ghost use Rattle.std.specs.Coded.{codes};
    ghost use Rattle.std.specs.Prelude.{◌≡◌, length};
    ghost use Rattle.ground_task.specs.Tasks.{TaskValue};
    ghost use Rattle.subgoal.specs.Network.{atoms_of, atoms_of_task, IsNetwork};

    ghost Value = { TaskValue };

    ghost coded = { Prim.hlevel (codes, cond.the_row.coded, expr.the_row.coded) };

    ghost view = { λ e. e.task.now };

    ghost invariant = { λ e. (length e.values.items ≡ length e.task.now.raw.actions) × (length e.next.items ≡ length e.task.now.raw.actions) × (length e.weights.items ≡ length e.network.atoms.items) × (e.behind ≡ length (atoms_of e.task.now.raw.goal)) × IsNetwork e.task.now e.network (atoms_of_task e.task.now) };
}

fn set_far(values: &mut Vec<u32>)
    ensures as_many { length values.new.items ≡ length values.old.items }
    ensures far { (k : ℕ) → k < length values.new.items → slice_index values.new.items k ≡ FAR }
{
    'each: for i in 0..values.len() {
        values[i] = FAR;
    }
}

/// The value of the goal by values that solve the equations.
fn goal_value(rules: &Rules, state: &State, values: &[u32], weights: &[u32]) -> u32
    requires rules { AreRules rules.now }
    requires solved { AreValues rules.now.task.now state.now values.now }
    requires weights { weights.now ≡ weights_by (atoms_in rules.now.task.now state.now) rules.now.task.now.raw.actions values.now rules.now.network.now.atoms.items }
    ensures { IsEstimate rules.now.task.now state.now result }
{
    let reading = Reading {
        weights,
        numbers: rules.network.numbers.as_slice(),
    };
    condition(&reading, &rules.task.raw().goal, 0).0
}

impl<'a> Estimator<'a> {
    pub fn new(alloc: Global, task: &'a Task) -> Result<Estimator<'a>, NoMemory>
        ensures { IfOk result (λ estimator. estimator ≡ task.now) }
    {
        let (network, behind) = network_of(alloc, task)?;
        let values = vec![in alloc; FAR; task.raw().actions.len()]?;
        let next = vec![in alloc; FAR; task.raw().actions.len()]?;
        let weights = vec![in alloc; FAR; network.atoms.len()]?;
        Ok(Estimator {
            task,
            network,
            behind,
            values,
            next,
            weights,
        })
    }

    /// The estimate of a state: the value of the goal by the one solution of the equations, at most `FAR`.
    pub fn estimate(&mut self, state: &State) -> u32
        requires { IsStateOf self.old state.now }
        ensures value { IsEstimate self.old state.now result }
        ensures kept { self.new ≡ self.old }
    {
        set_far(&mut self.values);
        set_far(&mut self.weights);
        let rules = Rules {
            task: self.task,
            network: &self.network,
            behind: self.behind,
        };
        settle(
            &rules,
            state,
            &mut self.values,
            &mut self.weights,
            &mut self.next,
        );
        goal_value(
            &rules,
            state,
            self.values.as_slice(),
            self.weights.as_slice(),
        )
    }
}

/// The estimate of a state, as an `Estimator` gives it.
pub fn estimate(alloc: Global, task: &Task, state: &State) -> Result<u32, NoMemory>
    requires { IsStateOf task.now state.now }
    ensures { IfOk result (IsEstimate task.now state.now) }
{
    let mut estimator = Estimator::new(alloc, task)?;
    Ok(estimator.estimate(state))
}
