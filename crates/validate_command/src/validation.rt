//! The verdict on a plan file.

ghost use Rattle.std.specs.Prelude.{◌≤◌, ◌<◌, ◌^◌, ℕ, List, length, IfErr, IfOk};
ghost use Rattle.plan_text.specs.Plans.{ReadsAs};
ghost use Rattle.run_answers.specs.Accepted.{Accepts};
ghost use Rattle.validate_command.specs.Faults.{IsFault, IsPlanFault};
ghost use Rattle.validate_command.specs.Validations.{IsValidated};

use num_ends::NoMemory;
use pair_text::{PairFault, Refusal, read_pair};
use pddl_types::Checked;
use plan_text::{PlanFault, Step, read_plan};
use plan_validator::{Verdict, valid_plans_are_plans, validate};
use std::alloc::Global;

/// A verdict on a plan, and how many steps the plan has.
#[derive(Clone, Copy, Debug)]
pub(crate) struct Validation {
    pub(crate) verdict: Verdict,
    pub(crate) count: u32,
}

/// The verdict on the steps of a plan.
fn judged(alloc: Global, checked: &Checked, steps: &[Step]) -> Result<Validation, NoMemory>
    requires { length steps.now ≤ 2 ^ 30 }
    ensures { IfOk result (λ v. (plan : List ℕ) → ReadsAs plan steps.now → IsValidated plan v.verdict v.count checked.now) }
{
    valid_plans_are_plans();
    let verdict = validate(alloc, checked, steps)?;
    Ok(Validation {
        verdict,
        count: steps.len() as u32,
    })
}

/// The verdict on the plan that a text reads as; a bad line is refused.
#[tactic(auto, using(crate::proofs::FewSteps::few_steps))]
fn validated(alloc: Global, checked: &Checked, plan: &[u8]) -> Result<Validation, PairFault>
    requires { length plan.now < 2 ^ 30 }
    ensures validated { IfOk result (λ v. IsValidated plan.now v.verdict v.count checked.now) }
    ensures fault { IfErr result (IsPlanFault plan.now) }
{
    match read_plan(alloc, plan) {
        Ok(steps) => Ok(judged(alloc, checked, steps.as_slice())?),
        Err(PlanFault::BadLine(line)) => Err(PairFault::Refused(Refusal::BadLine(line))),
        Err(PlanFault::NoMemory) => Err(PairFault::NoMemory),
    }
}

/// The verdict on a plan for what the texts of a domain and a problem spell, or why there is none.
pub(crate) fn validation_of(
    alloc: Global,
    domain: &[u8],
    problem: &[u8],
    plan: &[u8],
) -> Result<Validation, PairFault>
    requires domain_size { length domain.now ≤ 2 ^ 30 }
    requires problem_size { length problem.now ≤ 2 ^ 30 }
    requires plan_size { length plan.now < 2 ^ 30 }
    ensures validated { IfOk result (λ v. Accepts (IsValidated plan.now v.verdict v.count) domain.now problem.now) }
    ensures fault { IfErr result (IsFault domain.now problem.now plan.now) }
{
    match read_pair(alloc, domain, problem) {
        Ok(checked) => {
            let found = validated(alloc, &checked, plan);
            checked.discard();
            found
        }
        Err(fault) => Err(fault),
    }
}
