//! A dead box that contains a state.

use crate::store::DeadRows;
use box_model::StateBox;
use ground_task::State;
use num_ends::NoMemory;
use word_rows::RowSeat;

// The number of rows.
const ROWS: usize = 1024;

impl DeadRows {
    ghost use Rattle.std.specs.Prelude.{◌≡◌, ◌<◌, ℕ, IsTrue, IsFalse, IfOk, IfSome, IfNone, MatchResult};
    ghost use Rattle.box_model.specs.declared.state_box.StateBox.{StateBox};
    ghost use Rattle.box_model.specs.Boxes.{Contains};
    ghost use Rattle.word_rows.specs.Tables.{view_of};
    ghost use Rattle.dead_rows.specs.Seats.{task_of, store_id, IsSeatOf, CanRead, row_words};
    ghost use Rattle.dead_rows.specs.Entries.{SpellsDead};
    ghost use Rattle.dead_rows.specs.Knowledge.{IsLater};
    ghost use Rattle.dead_rows.specs.Looks.{WasReady, IsPassed, ArePassed, IsHit, HasLooked};
    ghost use Rattle.dead_rows.specs.Readings.{IsFor};

    // Whether the box of a row that the seat knows contains a state. A call of its own, so that the loop over rows that
    // aren't ready stays small.
    #[inline(never)]
    fn contains(&self, seat: &mut RowSeat, row: usize, state: &State) -> bool
        requires seat { CanRead (store_id self.now) seat.old row }
        requires state { IsFor (task_of self.now) state.now }
        requires spells { (b : StateBox) × SpellsDead (task_of self.now) (row_words seat.old row) b }
        ensures seat { CanRead (store_id self.now) seat.new row }
        ensures view { view_of seat.new ≡ view_of seat.old }
        ensures contains { IsTrue result → (b : StateBox) → SpellsDead (task_of self.now) (row_words seat.old row) b → Contains (task_of self.now).places b state.now }
        ensures without { IsFalse result → (b : StateBox) → SpellsDead (task_of self.now) (row_words seat.old row) b → Contains (task_of self.now).places b state.now → ⊥ }
    {
        self.has_facts(seat, row, state) && self.has_values(seat, row, state)
    }

    // One look at a row: whether it is ready, with a box that contains the state.
    fn look(&self, seat: &mut RowSeat, row: usize, state: &State) -> bool
        requires seat { IsSeatOf self.now seat.old }
        requires row { row < 1024 }
        requires state { IsFor (task_of self.now) state.now }
        ensures seat { IsSeatOf self.now seat.new }
        ensures looked { HasLooked (view_of seat.old) (view_of seat.new) row }
        ensures known { IsTrue result → CanRead (store_id self.now) seat.new row }
        ensures ready { IsTrue result → WasReady (view_of seat.old) (view_of seat.new) row }
        ensures hit { IsTrue result → (b : StateBox) × SpellsDead (task_of self.now) (row_words seat.new row) b × Contains (task_of self.now).places b state.now }
        ensures passed { IsFalse result → IsPassed (task_of self.now) state.now (view_of seat.old) (view_of seat.new) row }
    {
        if !self.rows.load_ready(seat, row) {
            return false;
        }
        self.contains(seat, row, state)
    }

    // The first row, by number, that is found ready with a box that contains the state.
    fn first_hit(&self, seat: &mut RowSeat, state: &State) -> Option<usize>
        requires seat { IsSeatOf self.now seat.old }
        requires state { IsFor (task_of self.now) state.now }
        ensures seat { IsSeatOf self.now seat.new }
        ensures later { IsLater (view_of seat.old) (view_of seat.new) }
        ensures known { IfSome result (λ row. CanRead (store_id self.now) seat.new row) }
        ensures ready { IfSome result (λ row. WasReady (view_of seat.old) (view_of seat.new) row) }
        ensures hit { IfSome result (λ row. (b : StateBox) × SpellsDead (task_of self.now) (row_words seat.new row) b × Contains (task_of self.now).places b state.now) }
        ensures first { IfSome result (λ row. ArePassed (task_of self.now) state.now (view_of seat.old) (view_of seat.new) row) }
        ensures none { IfNone result (ArePassed (task_of self.now) state.now (view_of seat.old) (view_of seat.new) 1024) }
    {
        'rows: for row in 0..ROWS {
            if self.look(seat, row, state) {
                return Some(row);
            }
        }
        None
    }

    /// A dead box that contains a state: that of the first row, by number, that this call found ready and whose box
    /// contains the state. Without one, each row was read and its box doesn't contain the state, or the row was loaded
    /// in this call and wasn't ready; a row that the seat knew is always read. Without memory the seat comes back, with
    /// what it has seen.
    pub fn find(&self, seat: RowSeat, state: &State) -> Result<(RowSeat, Option<StateBox>), RowSeat>
        requires seat { IsSeatOf self.now seat }
        requires state { IsFor (task_of self.now) state.now }
        ensures seat { MatchResult result (λ found. IsSeatOf self.now found.0) (IsSeatOf self.now) }
        ensures later { MatchResult result (λ found. IsLater (view_of seat) (view_of found.0)) (λ back. IsLater (view_of seat) (view_of back)) }
        ensures hit { IfOk result (λ found. IfSome found.1 (λ b. (row : ℕ) × IsHit (task_of self.now) state.now (view_of seat) (view_of found.0) row b × ArePassed (task_of self.now) state.now (view_of seat) (view_of found.0) row)) }
        ensures none { IfOk result (λ found. IfNone found.1 (ArePassed (task_of self.now) state.now (view_of seat) (view_of found.0) 1024)) }
    {
        let mut seat = seat;
        let Some(row) = self.first_hit(&mut seat, state) else {
            return Ok((seat, None));
        };
        match self.read_box(&mut seat, row) {
            Ok(dead) => Ok((seat, Some(dead))),
            Err(NoMemory) => Err(seat),
        }
    }
}
