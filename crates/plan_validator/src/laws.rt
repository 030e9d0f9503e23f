//! What verdicts have to do with each other, and with plans.

ghost use Rattle.std.specs.Prelude.{◌≡◌, List};
ghost use Rattle.pddl_types.specs.declared.pairs.Pair.{Pair};
ghost use Rattle.plan_text.specs.declared.step.Step.{Step};
ghost use Rattle.plan_validator.specs.declared.verdicts.Verdict.{Verdict};
ghost use Rattle.plan_validator.specs.declared.verdicts.Verdict.TheVariants as verdict_of;
ghost use Rattle.plan_validator.specs.Verdicts.{IsPlanOf, IsValidOrOver, IsVerdict};

use pddl_meaning::{ranged_goals_agree, ranged_steps_agree};

/// There is a verdict on each list of steps, and only one.
pub fn plan_has_one_verdict()
    ensures some { (pair : Pair) (steps : List Step) → (verdict : Verdict) × IsVerdict pair steps verdict }
    ensures one { (pair : Pair) (steps : List Step) (first second : Verdict) → IsVerdict pair steps first → IsVerdict pair steps second → first ≡ second }
{}

/// A valid list of steps is a plan, with numbers of any size: each step leads from one world to the next, and the goal holds in
/// the last.
pub fn valid_plans_are_plans()
    ensures { (pair : Pair) (steps : List Step) → IsVerdict pair steps verdict_of.Valid → IsPlanOf pair steps }
{
    ranged_steps_agree();
    ranged_goals_agree();
}

/// A plan, with numbers of any size, is valid within the range too, unless a number leaves the range at one of its steps or
/// at the goal.
pub fn plans_are_valid_or_over()
    ensures { (pair : Pair) (steps : List Step) (verdict : Verdict) → IsPlanOf pair steps → IsVerdict pair steps verdict → IsValidOrOver verdict }
{
    ranged_steps_agree();
    ranged_goals_agree();
}
