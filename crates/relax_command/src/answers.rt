//! What the command answers.

ghost use Rattle.std.specs.Prelude.{◌≤◌, ◌^◌, length, IfOk};
ghost use Rattle.relax_command.specs.Answers.{IsAnswer};
ghost use Rattle.relax_command.specs.Relaxations.{IsTaskAnswer};

use crate::relaxation::task_answer;
use ground_task::Task;
use num_ends::NoMemory;
use pair_task::read_task;
use pair_text::PairFault;
use run_answers::{Answer, refused};
use std::alloc::Global;

// Lets a task go.
fn discard(_task: Task) {}

// What is answered of a task, which is let go.
fn relaxed(alloc: Global, task: Task) -> Result<Answer, NoMemory>
    ensures { IfOk result (IsTaskAnswer task) }
{
    let answer = task_answer(alloc, &task);
    discard(task);
    answer
}

/// What `relax` answers to the texts of a domain and a problem, of at most 2^30 bytes each: the least closed box that the
/// ground task of their pair can reach, with status 0 where the goal may hold in it and 1 where it may not, so that the pair
/// has no plan; else why they are refused.
///
/// # Errors
/// `NoMemory` where there is none for the pair, its task, the box or the text.
pub fn answer(alloc: Global, domain: &[u8], problem: &[u8]) -> Result<Answer, NoMemory>
    requires domain_size { length domain.now ≤ 2 ^ 30 }
    requires problem_size { length problem.now ≤ 2 ^ 30 }
    ensures { IfOk result (IsAnswer domain.now problem.now) }
{
    match read_task(alloc, domain, problem) {
        Ok(task) => relaxed(alloc, task),
        Err(PairFault::Refused(refusal)) => refused(alloc, &refusal),
        Err(PairFault::NoMemory) => Err(NoMemory),
    }
}
