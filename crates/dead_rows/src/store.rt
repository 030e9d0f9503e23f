//! The store of dead boxes, and its seats.

ghost use Rattle.std.specs.Prelude.{◌≡◌, ◌+◌, ◌*◌, ◌≤◌, length};
ghost use Rattle.dead_rows.specs.Shapes.{IsShapeOf};

use crate::shape::Shape;
use ground_task::Task;
use num_ends::{List, NoMemory};
use std::alloc::Global;
use std::snapshot::Snapshot;
use word_rows::{Entries, RowSeat, WordRows};

/// What the words of a ready row are: those of a dead box of this task.
#[derive(Drop)]
pub struct DeadBoxes {
    pub task: Snapshot<Task>,
}

impl Entries for DeadBoxes {
    ghost use Rattle.dead_rows.specs.Entries.{IsDeadWords};

    ghost IsEntry = { λ boxes. IsDeadWords boxes.task.value };
}

/// Where a published box came to.
#[derive(Clone, Copy, Debug, PartialEq, Eq)]
pub enum Placed {
    /// The row of this number.
    At(u32),
    /// All rows are taken. The number was drawn.
    Full(u64),
}

/// 1,024 rows for dead boxes of one task.
///
/// A seat knows the rows that it has seen ready, with their boxes, the numbers that it drew, and of each row how often
/// its ready word was loaded and what the last load gave. No call waits.
#[derive(Drop)]
pub struct DeadRows {
    pub(crate) rows: WordRows<DeadBoxes>,
    pub(crate) shape: Shape,
    pub(crate) alloc: Global,
    ghost shape_is: { IsShapeOf rows.table.shared.key.entries.value.task.value shape },
    ghost wide: { rows.width ≡ shape.facts + 8 * length shape.places },
    ghost few_facts: { shape.facts ≤ 4096 },
    ghost few_fluents: { length shape.places ≤ 256 },
}

impl DeadRows {
    ghost use Rattle.std.specs.Prelude.{◌≡◌, ◌≤◌, length, All, IfOk};
    ghost use Rattle.word_rows.specs.Tables.{view_of, IsFresh};
    ghost use Rattle.dead_rows.specs.Seats.{task_of, store_id, IsSeatOf};
    ghost use Rattle.dead_rows.specs.Knowledge.{IsJoined};

    /// A store of no boxes, and its seats, which know nothing.
    pub fn new(
        alloc: Global,
        task: &Task,
        seats: u32,
    ) -> Result<(DeadRows, List<RowSeat>), NoMemory>
        requires seats { (1 ≤ seats) × (seats ≤ 16) }
        ensures task { IfOk result (λ made. task_of made.0 ≡ task.now) }
        ensures count { IfOk result (λ made. length made.1 ≡ seats) }
        ensures seats { IfOk result (λ made. All (IsFresh (store_id made.0)) made.1) }
    {
        let shape = Shape::of(alloc, task)?;
        let boxes = DeadBoxes {
            task: Snapshot::of(task),
        };
        let (rows, seats) = WordRows::new(alloc, &boxes, shape.width(), seats)?;
        let store = DeadRows { rows, shape, alloc };
        Ok((store, seats))
    }

    /// One seat of two: it knows the rows of both and has the claims and the loads of both. What the last load of a
    /// row gave is as the first seat has it.
    pub fn join(&self, first: RowSeat, second: RowSeat) -> RowSeat
        requires first { IsSeatOf self.now first }
        requires second { IsSeatOf self.now second }
        ensures seat { IsSeatOf self.now result }
        ensures joined { IsJoined (view_of first) (view_of second) (view_of result) }
    {
        self.rows.join(first, second)
    }
}
