//! The least closed box, one marked action after another.

ghost use Rattle.std.specs.Prelude.{◌≡◌, length, IfOk};
ghost use Rattle.box_model.specs.Least.{IsLeastClosed};

use crate::marks::Marks;
use crate::readers::Readers;
use crate::widen::settled;
use box_model::StateBox;
use ground_task::{State, Task};
use num_ends::NoMemory;
use std::alloc::Global;

/// The least closed box above a state: it contains the state, is closed, and lies within each closed box that
/// contains the state.
pub fn least_box(alloc: Global, task: &Task, state: &State) -> Result<StateBox, NoMemory>
    requires facts { length state.now.facts ≡ length task.now.raw.facts }
    requires values { length state.now.values ≡ length task.now.raw.fluents }
    ensures { IfOk result (IsLeastClosed task.now state.now) }
{
    let readers = Readers::of(alloc, task)?;
    let mut marks = Marks::all(alloc, task.raw().actions.len())?;
    let mut state_box = StateBox::around(alloc, task, state)?;
    'actions: loop {
        match marks.next() {
            Some(number) => state_box = settled(task, &readers, &mut marks, number, state_box),
            None => return Ok(state_box),
        }
    }
}
