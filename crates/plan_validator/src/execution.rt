//! The execution of a plan.

ghost use Rattle.std.specs.Prelude.{◌≤◌, ◌^◌, IfOk, length};
ghost use Rattle.plan_validator.specs.Verdicts.{IsVerdict};

use crate::verdicts::Verdict;
use num_ends::NoMemory;
use pddl_meaning::{Advanced, Holds, goal, start};
use pddl_types::Checked;
use plan_text::Step;
use std::alloc::Global;

/// Executes a plan of at most 2^30 steps from the initial world, and tells whether it reaches the goal, or else the first step
/// that leads to no next world. Numbers are kept in the range of `Dec`; where one leaves it, that is told too. Each step
/// touches only what it reads and writes, so the time is near the length of the plan. The one error is want of memory.
pub fn validate(alloc: Global, checked: &Checked, plan: &[Step]) -> Result<Verdict, NoMemory>
    requires { length plan.now ≤ 2 ^ 30 }
    ensures { IfOk result (IsVerdict checked.now plan.now) }
{
    let mut world = start(alloc, checked)?;
    let mut number: u32 = 0;
    for step in plan {
        number += 1;
        match world.advance(alloc, checked, step.name.as_slice(), step.args.as_slice())? {
            Advanced::Next => {}
            Advanced::Blocked => return Ok(Verdict::Blocked(number)),
            Advanced::Illegal => return Ok(Verdict::Illegal(number)),
            Advanced::Over => return Ok(Verdict::Over(number)),
        }
    }
    match goal(alloc, checked, &world)? {
        Holds::Yes => Ok(Verdict::Valid),
        Holds::No => Ok(Verdict::NotGoal),
        Holds::Over => Ok(Verdict::OverGoal),
    }
}
