//! Ground tasks read from texts.

ghost use Rattle.std.specs.Prelude.{◌≡◌, ◌<◌, ◌≤◌, ◌^◌, length, IfErr, IfOk, ⊤};
ghost use Rattle.ground_meaning.specs.Answers.{IsWholeTask};
ghost use Rattle.pddl_terms.specs.declared.limits.TheConstants.{MAX_SUPPORTERS};
ghost use Rattle.supporter_count.specs.Counts.{supporter_count};
ghost use Rattle.pair_task.specs.Faults.{IsPairFault, IsTaskFault};
ghost use Rattle.pair_task.specs.Refusals.{IsFault, IsGroundingFault};
ghost use Rattle.pair_task.specs.Tasks.{IsTaskOf, IsWholeTaskOf};

use ground_task::Task;
use ground_text::grounding_fault;
use grounder::ground;
use pair_text::{PairFault, Refusal, read_pair};
use pddl_terms::{MAX_SUPPORTERS, What};
use pddl_types::Checked;
use std::alloc::Global;
use supporter_count::supporters;

// Lets a task go.
fn discard(_task: Task) {}

/// The ground task of a checked pair that two texts spell.
fn task_of(
    alloc: Global,
    domain: &[u8],
    problem: &[u8],
    checked: &Checked,
) -> Result<Task, PairFault>
    requires domain_size { length domain.now ≤ 2 ^ 30 }
    requires problem_size { length problem.now ≤ 2 ^ 30 }
    ensures task { IfOk result (IsWholeTask checked.now) }
    ensures fault { IfErr result (IsPairFault domain.now problem.now checked.now) }
{
    match ground(alloc, checked) {
        Ok(task) => Ok(task),
        Err(fault) => Err(grounding_fault(alloc, domain, problem, fault)),
    }
}

/// The ground task of the pair that the texts of a domain and a problem, of at most 2^30 bytes each, spell: exactly where they
/// spell a domain and a problem that are well formed together, and no reason stands against the task of the pair.
///
/// # Errors
/// The refusal of the texts by the first reason against them, or else against the ground task; `NoMemory` where there is none
/// for the pair or the task.
pub fn read_whole_task(alloc: Global, domain: &[u8], problem: &[u8]) -> Result<Task, PairFault>
    requires domain_size { length domain.now ≤ 2 ^ 30 }
    requires problem_size { length problem.now ≤ 2 ^ 30 }
    ensures task { IfOk result (IsWholeTaskOf domain.now problem.now) }
    ensures fault { IfErr result (IsGroundingFault domain.now problem.now) }
{
    match read_pair(alloc, domain, problem) {
        Ok(checked) => {
            let task = task_of(alloc, domain, problem, &checked);
            checked.discard();
            task
        }
        Err(fault) => Err(fault),
    }
}

/// Refuses a task with too many supporters.
fn check_supporters(alloc: Global, task: &Task) -> Result<(), PairFault>
    ensures few { IfOk result (λ _. supporter_count task.now ≤ MAX_SUPPORTERS) }
    ensures fault { IfErr result (IsTaskFault task.now) }
{
    let count = supporters(alloc, task)?;
    if count > MAX_SUPPORTERS {
        return Err(PairFault::Refused(Refusal::Limit(What::Supporters)));
    }
    Ok(())
}

/// The ground task of the pair that the texts of a domain and a problem, of at most 2^30 bytes each, spell, with at most
/// 200,000 supporters.
///
/// # Errors
/// Those of [`read_whole_task`], and the refusal of a task with more supporters.
pub fn read_task(alloc: Global, domain: &[u8], problem: &[u8]) -> Result<Task, PairFault>
    requires domain_size { length domain.now ≤ 2 ^ 30 }
    requires problem_size { length problem.now ≤ 2 ^ 30 }
    ensures task { IfOk result (IsTaskOf domain.now problem.now) }
    ensures fault { IfErr result (IsFault domain.now problem.now) }
{
    match read_whole_task(alloc, domain, problem) {
        Ok(task) => match check_supporters(alloc, &task) {
            Ok(()) => Ok(task),
            Err(fault) => {
                discard(task);
                Err(fault)
            }
        },
        Err(fault) => Err(fault),
    }
}
