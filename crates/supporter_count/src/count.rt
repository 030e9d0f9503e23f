//! The number of supporters of a task.

ghost use Rattle.std.specs.Prelude.{◌≡◌, ◌<◌, ◌≤◌, ◌+◌, ◌*◌, length, All, IfOk};
ghost use Rattle.std.specs.List.{sum_by};
ghost use Rattle.ground_task.specs.Valid.{IsValidAction};
ghost use Rattle.supporter_count.specs.Counts.{supporter_count, supporters_of};
ghost use Rattle.supporter_count.specs.Marks.{AreOld};

use crate::marks::Marks;
use ground_task::{Ground, Task};
use num_ends::NoMemory;
use std::alloc::Global;

// The number of supporters of an action.
fn supporters_of(marks: &mut Marks, action: &Ground, fluents: u32) -> u32
    requires old { AreOld marks.old }
    requires few { marks.old.current < 20000 }
    requires valid { IsValidAction (length marks.old.stamps.items) fluents action.now }
    requires few_fluents { fluents ≤ 256 }
    ensures count { result ≡ supporters_of action.now }
    ensures few { result ≤ 1024 }
    ensures old { AreOld marks.new }
    ensures size { length marks.new.stamps.items ≡ length marks.old.stamps.items }
    ensures current { marks.new.current ≡ marks.old.current + 1 }
{
    let _ = fluents;
    marks.clear();
    let added = marks.mark_all(action.adds.as_slice());
    let deleted = marks.mark_all(action.dels.as_slice());
    added + deleted + 2 * action.nums.len() as u32
}

// The number of supporters of these actions.
fn supporters_of_all(marks: &mut Marks, actions: &[Ground], fluents: u32) -> u32
    requires old { AreOld marks.old }
    requires none { marks.old.current ≡ 0 }
    requires few { length actions.now ≤ 20000 }
    requires valid { All (IsValidAction (length marks.old.stamps.items) fluents) actions.now }
    requires few_fluents { fluents ≤ 256 }
    ensures { result ≡ sum_by supporters_of actions.now }
{
    let mut count = 0;
    'actions: for number in 0..actions.len() {
        count += supporters_of(marks, &actions[number], fluents);
    }
    count
}

/// The number of supporters of a task: one for each fact that an action adds or deletes, counted once an action, and two
/// for each numeric effect. At most 20,480,000.
///
/// # Errors
/// `NoMemory` where there is none for a mark per fact.
pub fn supporters(alloc: Global, task: &Task) -> Result<u32, NoMemory>
    ensures { IfOk result (λ count. count ≡ supporter_count task.now) }
{
    let raw = task.raw();
    let mut marks = Marks::new(alloc, raw.facts.len())?;
    let fluents = raw.fluents.len() as u32;
    Ok(supporters_of_all(&mut marks, raw.actions.as_slice(), fluents))
}
