//! A step of a plan, and why a text is no plan.

use num_ends::{List, NoMemory, Text};

/// An action by its name, and the names of the objects that it is applied to, in order. Their letters are in lower
/// case where the step was read from a text.
#[derive(Debug, Drop)]
pub struct Step {
    pub name: Text,
    pub args: List<Text>,
}

/// Why a text isn't read as a plan.
#[derive(Clone, Copy, Debug, PartialEq, Eq)]
pub enum PlanFault {
    /// The number of the first line that is neither skipped nor a step; the first line has the number 1.
    BadLine(u32),
    /// There was no memory for the steps.
    NoMemory,
}

impl From<NoMemory> for PlanFault {
    ghost use Rattle.std.specs.Prelude.{◌≡◌};
    ghost use Rattle.plan_text.specs.declared.step.PlanFault.TheVariants as faults;

    ghost from_gives = { λ _ fault. fault ≡ faults.NoMemory };

    fn from(_fault: NoMemory) -> PlanFault {
        PlanFault::NoMemory
    }
}
