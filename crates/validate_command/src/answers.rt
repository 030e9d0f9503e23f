//! What the command answers.

ghost use Rattle.std.specs.Prelude.{◌≤◌, ◌<◌, ◌^◌, length, IfOk};
ghost use Rattle.validate_command.specs.Answers.{IsAnswer};

use crate::validation::validation_of;
use crate::verdicts::verdict_answer;
use num_ends::NoMemory;
use pair_text::PairFault;
use run_answers::{Answer, refused};
use std::alloc::Global;

/// What `validate` answers to the texts of a domain, a problem and a plan, of at most 2^30 bytes each, the plan's of less:
/// the verdict on the plan for their pair, with status 0 where it is valid, 1 where it is not, and 3 where it leaves the range
/// of numbers; else why they are refused.
///
/// # Errors
/// `NoMemory` where there is none for the pair, the plan, its execution or the text.
pub fn answer(alloc: Global, domain: &[u8], problem: &[u8], plan: &[u8]) -> Result<Answer, NoMemory>
    requires domain_size { length domain.now ≤ 2 ^ 30 }
    requires problem_size { length problem.now ≤ 2 ^ 30 }
    requires plan_size { length plan.now < 2 ^ 30 }
    ensures { IfOk result (IsAnswer domain.now problem.now plan.now) }
{
    match validation_of(alloc, domain, problem, plan) {
        Ok(found) => verdict_answer(alloc, found.verdict, found.count),
        Err(PairFault::Refused(refusal)) => refused(alloc, &refusal),
        Err(PairFault::NoMemory) => Err(NoMemory),
    }
}
