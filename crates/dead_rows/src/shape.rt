//! How many facts and fluents a task has, and the places of each fluent.

ghost use Rattle.std.specs.Prelude.{◌≡◌, ◌<◌, ◌≤◌, ◌+◌, ◌*◌, ℕ, length, map, IfOk, slice_index_or};
ghost use Rattle.std.specs.List.{range_with_len};
ghost use Rattle.ground_task.specs.Meaning.{fluent_value};
ghost use Rattle.dead_rows.specs.Shapes.{IsShapeOf};

use ground_task::{State, Task};
use num_ends::{Dec, List, NoMemory};
use std::alloc::Global;

/// What a row of words needs to know of its task.
#[derive(Drop)]
pub(crate) struct Shape {
    pub facts: usize,
    pub places: List<u8>,
}

impl Shape {
    pub fn of(alloc: Global, task: &Task) -> Result<Shape, NoMemory>
        ensures shape { IfOk result (IsShapeOf task.now) }
        ensures few_facts { length task.now.raw.facts ≤ 4096 }
        ensures few_fluents { length task.now.raw.fluents ≤ 256 }
    {
        let facts = task.raw().facts.len();
        let places = places_of(alloc, task)?;
        Ok(Shape {
            facts,
            places: List::from_vec(places),
        })
    }

    /// The number of words of a box.
    pub fn width(&self) -> usize
        requires few { (self.now.facts ≤ 4096) × (length self.now.places ≤ 256) }
        ensures { result ≡ self.now.facts + 8 * length self.now.places }
    {
        self.facts + 8 * self.places.len()
    }

    /// The value of a fluent in a state of the task.
    pub fn value(&self, state: &State, fluent: usize) -> Dec
        requires fluent { (fluent < length self.now.places) × (fluent < length state.now.values) }
        requires few_places { slice_index_or self.now.places fluent 0 ≤ 18 }
        requires few_fluents { length self.now.places ≤ 256 }
        ensures { result ≡ fluent_value self.now.places state.now fluent }
    {
        Dec {
            n: state.value(fluent as u32),
            p: self.places.as_slice()[fluent],
        }
    }
}

fn places_of(alloc: Global, task: &Task) -> Result<Vec<u8>, NoMemory>
    ensures each { IfOk result (λ v. v.items ≡ map (λ x. slice_index_or task.now.places x 0) (range_with_len 0 (length task.now.raw.fluents))) }
    ensures few { (x : ℕ) → x < length task.now.raw.fluents → slice_index_or task.now.places x 0 ≤ 18 }
{
    let count = task.raw().fluents.len() as u32;
    let mut places = Vec::with_capacity(alloc, count as usize)?;
    'each: for fluent in 0..count {
        places.push(task.places(fluent))?;
    }
    Ok(places)
}
