//! The distinct atoms of a task's conditions.

ghost use Rattle.std.specs.Prelude.{◌≡◌, ◌++◌, [], ◌∷◌, All, IfOk, IfSome, OnOk, Some, slice_get, length};
ghost use Rattle.ground_task.specs.declared.raw.GCond.{GCond};
ghost use Rattle.ground_task.specs.declared.raw.GCond.TheVariants as condition;
ghost use Rattle.ground_task.specs.Inside.{IsDecidable};
ghost use Rattle.subgoal.specs.Network.{atoms_of, atoms_of_each, atoms_of_task, conditions_of, preconditions_of, Adds, IsAtom, IsNetwork};

use crate::leaves::{Leaf, comparison_leaf, literal_leaf};
use crate::same::{key_of_comparison, key_of_literal, same_atom};
use ground_task::{GCond, GExpr, Ground, Rel, Task};
use indexmap::IndexMap;
use num_ends::NoMemory;
use std::alloc::Global;

/// A literal or a comparison, with what is known of it in every state.
#[derive(Drop)]
pub(crate) struct Atom<'a> {
    pub cond: &'a GCond,
    pub leaf: Leaf,
}

/// The distinct atoms of conditions.
#[derive(Drop)]
pub(crate) struct Network<'a> {
    pub atoms: Vec<Atom<'a>>,
    /// The numbers of the atoms of each condition, in the order in which they stand there, one condition after another.
    pub numbers: Vec<usize>,
    /// Where an atom of this key was seen.
    known: IndexMap<u64, usize>,
}

/// A task with its atoms, of whose numbers those of the goal come first.
#[derive(Clone, Copy)]
pub(crate) struct Rules<'a> {
    pub task: &'a Task,
    pub network: &'a Network<'a>,
    /// How many numbers the goal has.
    pub behind: usize,
}

/// The number of an atom that is there already, if it is found.
fn find(network: &Network, key: u64, cond: &GCond) -> Option<usize>
    ensures { IfSome result (λ n. slice_get (conditions_of network.now.atoms.items) n ≡ Some cond.now) }
{
    let number = network.known.get(&key).copied()?;
    if number >= network.atoms.len() {
        return None;
    }
    if same_atom(network.atoms[number].cond, cond) {
        Some(number)
    } else {
        None
    }
}

/// Adds the number of an atom that is there.
#[tactic(auto, using(crate::proofs::Networks::number_added))]
fn push_number(
    network: &mut Network,
    task: &Task,
    cond: &GCond,
    number: usize,
) -> Result<(), NoMemory>
    requires named { slice_get (conditions_of network.old.atoms.items) number ≡ Some cond.now }
    ensures { OnOk result (Adds task.now network.old network.new (cond.now ∷ [])) }
{
    network.numbers.push(number)?;
    Ok(())
}

/// Adds an atom and its number.
#[tactic(auto, using(crate::proofs::Networks::atom_added))]
fn push_atom<'a>(
    network: &mut Network<'a>,
    task: &Task,
    key: u64,
    atom: Atom<'a>,
) -> Result<(), NoMemory>
    requires atom { IsAtom task.now atom }
    ensures { OnOk result (Adds task.now network.old network.new (atom.entry.cond.now ∷ [])) }
{
    let number = network.atoms.len();
    network.known.insert(key, number)?;
    network.atoms.push(atom)?;
    network.numbers.push(number)?;
    Ok(())
}

fn push_literal<'a>(
    alloc: Global,
    task: &'a Task,
    cond: &'a GCond,
    literal: (u32, bool),
    network: &mut Network<'a>,
) -> Result<(), NoMemory>
    requires is { cond.now ≡ condition.Fact literal.0 literal.1 }
    requires decidable { IsDecidable task.now cond.now }
    ensures { OnOk result (Adds task.now network.old network.new (cond.now ∷ [])) }
{
    let (fact, truth) = literal;
    let key = key_of_literal(fact, truth);
    if let Some(number) = find(network, key, cond) {
        return push_number(network, task, cond, number);
    }
    let leaf = literal_leaf(alloc, task.raw().actions.as_slice(), fact, truth)?;
    push_atom(network, task, key, Atom { cond, leaf })
}

fn push_comparison<'a>(
    alloc: Global,
    task: &'a Task,
    cond: &'a GCond,
    comparison: (Rel, &'a GExpr, &'a GExpr),
    network: &mut Network<'a>,
) -> Result<(), NoMemory>
    requires is { cond.now ≡ condition.Cmp comparison.0 comparison.1.now comparison.2.now }
    requires decidable { IsDecidable task.now cond.now }
    ensures { OnOk result (Adds task.now network.old network.new (cond.now ∷ [])) }
{
    let (rel, left, right) = comparison;
    let key = key_of_comparison(rel, left, right);
    if let Some(number) = find(network, key, cond) {
        return push_number(network, task, cond, number);
    }
    let leaf = comparison_leaf(alloc, task.raw().actions.as_slice(), rel, left, right)?;
    push_atom(network, task, key, Atom { cond, leaf })
}

/// Adds the atoms of a condition.
#[cycle(atoms)]
#[tactic(auto, using(crate::proofs::Networks::none_added))]
fn push_condition<'a>(
    alloc: Global,
    task: &'a Task,
    cond: &'a GCond,
    network: &mut Network<'a>,
) -> Result<(), NoMemory>
    requires decidable { IsDecidable task.now cond.now }
    ensures { OnOk result (Adds task.now network.old network.new (atoms_of cond.now)) }
{
    match cond {
        GCond::True => Ok(()),
        GCond::False => Ok(()),
        GCond::Fact(fact, truth) => push_literal(alloc, task, cond, (*fact, *truth), network),
        GCond::Cmp(rel, left, right) => {
            push_comparison(alloc, task, cond, (*rel, left, right), network)
        }
        GCond::And(conds) => push_conditions(alloc, task, conds.as_slice(), network),
        GCond::Or(conds) => push_conditions(alloc, task, conds.as_slice(), network),
    }
}

#[cycle(atoms)]
#[tactic(auto, using(crate::proofs::Networks::added_next, crate::proofs::Networks::added_end))]
fn push_conditions<'a>(
    alloc: Global,
    task: &'a Task,
    conds: &'a [GCond],
    network: &mut Network<'a>,
) -> Result<(), NoMemory>
    requires decidable { All (IsDecidable task.now) conds.now }
    ensures { OnOk result (Adds task.now network.old network.new (atoms_of_each conds.now)) }
{
    'each: for cond in conds {
        push_condition(alloc, task, cond, network)?;
    }
    Ok(())
}

/// Adds the atoms of each action's precondition.
#[tactic(auto, using(crate::proofs::Seen::precondition_decidable, crate::proofs::Networks::added_next, crate::proofs::Networks::added_end))]
fn push_preconditions<'a>(
    alloc: Global,
    task: &'a Task,
    network: &mut Network<'a>,
) -> Result<(), NoMemory>
    ensures { OnOk result (Adds task.now network.old network.new (preconditions_of task.now)) }
{
    'each: for action in task.raw().actions.as_slice() {
        push_condition(alloc, task, &action.pre, network)?;
    }
    Ok(())
}

/// The distinct atoms of a task, and how many numbers the goal has.
#[tactic(auto, using(crate::proofs::Seen::goal_decidable))]
pub(crate) fn network_of<'a>(
    alloc: Global,
    task: &'a Task,
) -> Result<(Network<'a>, usize), NoMemory>
    ensures network { IfOk result (λ found. IsNetwork task.now found.0 (atoms_of_task task.now)) }
    ensures goal { IfOk result (λ found. found.1 ≡ length (atoms_of task.now.raw.goal)) }
{
    let mut network = Network {
        atoms: Vec::new(alloc),
        numbers: Vec::new(alloc),
        known: IndexMap::new(alloc),
    };
    push_condition(alloc, task, &task.raw().goal, &mut network)?;
    let behind = network.numbers.len();
    push_preconditions(alloc, task, &mut network)?;
    Ok((network, behind))
}
