//! The goal.

ghost use Rattle.std.specs.Prelude.{◌≡◌, IfOk};
ghost use Rattle.pddl_meaning.specs.Truth.{ranged_goal};

use crate::answers::Holds;
use crate::conditions::{is_defined, truth};
use crate::texts::Binding;
use crate::world::World;
use num_ends::NoMemory;
use pddl_types::Checked;
use std::alloc::Global;

/// Whether the goal holds in a world. It doesn't where it reads an undefined fluent; else it is `Over` where a subvalue of
/// one of its comparisons leaves the range, or a divisor has no inverse of at most 9 places. No comparison is skipped.
#[tactic(auto, unfolding(crate::specs::Truth::ranged_goal))]
pub fn goal(alloc: Global, checked: &Checked, world: &World) -> Result<Holds, NoMemory>
    ensures { IfOk result (λ holds. holds ≡ ranged_goal checked.now world.now) }
{
    let binding = Binding {
        world,
        params: &[],
        args: &[],
    };
    let goal = &checked.problem().goal;
    let mut buffer = Vec::new(alloc);
    if !is_defined(&binding, goal, &mut buffer)? {
        return Ok(Holds::No);
    }
    truth(&binding, goal, &mut buffer)
}
