//! A dead box goes into a row.

use crate::store::{DeadRows, Placed};
use box_model::StateBox;
use box_words::word_at;
use word_rows::RowSeat;

// The number of rows.
const ROWS: u64 = 1024;

impl DeadRows {
    ghost use Rattle.std.specs.Prelude.{◌≡◌, ◌<◌, ◌≤◌, ◌+◌, ◌*◌, ◌^◌, ◌++◌, ℕ, List, [], ◌∷◌, length, Some};
    ghost use Rattle.box_model.specs.Least.{IsDead};
    ghost use Rattle.box_words.specs.Words.{words_of, IsWordable};
    ghost use Rattle.word_rows.specs.Views.{line, with_words};
    ghost use Rattle.word_rows.specs.Tables.{view_of, IsFitting};
    ghost use Rattle.dead_rows.specs.Seats.{task_of, store_id, IsSeatOf, claims_of, number_in, KnowsBox};
    ghost use Rattle.dead_rows.specs.Knowledge.{HasDrawn};

    // Stores the words of a box in the row that the seat writes.
    fn write(&self, seat: &mut RowSeat, row: usize, dead: &StateBox)
        requires seat { IsFitting (store_id self.now) seat.old }
        requires row { row < 1024 }
        requires writes { (view_of seat.old).writing ≡ Some (line row []) }
        requires dead { IsDead (task_of self.now) dead.now }
        ensures seat { IsFitting (store_id self.now) seat.new }
        ensures view { view_of seat.new ≡ with_words (view_of seat.old) row (words_of dead.now) }
        ensures wordable { IsWordable dead.now }
    {
        'words: for place in 0..self.shape.width() {
            self.rows.store(seat, row, place, word_at(dead, place));
        }
    }

    /// Puts a dead box into the next row, where there is one left. It draws one number, which joins the seat's claims.
    /// A seat, with those joined into it, publishes fewer than 2^32 times.
    pub fn publish(&self, seat: RowSeat, dead: &StateBox) -> (RowSeat, Placed)
        requires seat { IsSeatOf self.now seat }
        requires dead { IsDead (task_of self.now) dead.now }
        requires few { length (claims_of seat) < 2 ^ 32 }
        ensures seat { IsSeatOf self.now result.0 }
        ensures claims { claims_of result.0 ≡ claims_of seat ++ number_in result.1 ∷ [] }
        ensures at { (row : ℕ) → result.1 ≡ Placed.At row → (row < 1024) × HasDrawn (view_of seat) row (view_of result.0) × KnowsBox result.0 row dead.now }
        ensures full { (n : ℕ) → result.1 ≡ Placed.Full n → (1024 ≤ n) × HasDrawn (view_of seat) n (view_of result.0) }
    {
        let mut seat = seat;
        let number = self.rows.claim(&mut seat);
        if number >= ROWS {
            return (seat, Placed::Full(number));
        }
        let row = number as usize;
        self.write(&mut seat, row, dead);
        self.rows.open(&mut seat, row);
        (seat, Placed::At(number as u32))
    }
}
