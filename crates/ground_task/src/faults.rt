//! What the calls of this crate refuse.

use num_ends::NoMemory;

/// Why no task is made.
#[derive(Clone, Copy, Debug, PartialEq, Eq)]
pub enum TaskFault {
    /// The first value of this fluent leaves the range at its places.
    Range(u32),
    NoMemory,
}

impl From<NoMemory> for TaskFault {
    ghost use Rattle.std.specs.Prelude.{◌≡◌};
    ghost use Rattle.ground_task.specs.declared.faults.TaskFault.TheVariants as task_fault;

    ghost from_gives = { λ _ fault. fault ≡ task_fault.NoMemory };

    fn from(_fault: NoMemory) -> TaskFault {
        TaskFault::NoMemory
    }
}
