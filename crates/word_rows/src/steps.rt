//! The single steps on the words, one function for each kind.

use crate::entries::Entries;
use crate::rows::WordRows;
use crate::view::RowSeat;
use std::marker::Brand;

// Word 0 is the number of claims.
const CLAIMS: usize = 0;

// The ready words follow it, and then the rows.
const READY: usize = 1;

const FIRST: usize = 1025;

impl<E: Entries> WordRows<E> {
    ghost use Rattle.std.specs.Prelude.{◌≡◌, ◌⊎◌, ℕ, ◌+◌, ◌*◌, ◌^◌, ◌<◌, ◌≤◌, List, [], ◌∷◌, ◌++◌, length, slice_index, Some, None, true, false};
    ghost use Rattle.word_rows.specs.Views.{line, claimed, pushed, opened, missed, learnt, Knows};
    ghost use Rattle.word_rows.specs.Rule.{row_start};
    ghost use Rattle.word_rows.specs.Tables.{view_of, IsFitting, id_of, entries_of, width_of};

    /// The place of the first word of a row.
    pub fn start(&self, row: usize) -> usize
        requires row { row < 1024 }
        ensures start { result ≡ row_start (width_of self.now) row }
    {
        FIRST + row * self.width
    }

    // The place of a word of a row.
    fn place(&self, row: usize, index: usize) -> usize
        requires row { row < 1024 }
        requires index { index < width_of self.now }
        ensures place { result ≡ row_start (width_of self.now) row + index }
        ensures inside { result < 1025 + 1024 * width_of self.now }
    {
        self.start(row) + index
    }

    /// Draws the next number. Where there is a row of this number, it is the seat's to write. A seat, with those
    /// joined into it, draws at most 2^32 numbers.
    pub fn claim(&self, seat: &mut RowSeat) -> u64
        requires seat { IsFitting (id_of self.now) seat.old }
        requires idle { (view_of seat.old).writing ≡ None }
        requires few { length (view_of seat.old).claims < 2 ^ 32 }
        ensures seat { IsFitting (id_of self.now) seat.new }
        ensures view { view_of seat.new ≡ claimed (view_of seat.old) result }
    {
        self.table.shared.fetch_add::<Brand>(seat, CLAIMS, 1)
    }

    /// Stores the next word of the row that the seat writes.
    pub fn store(&self, seat: &mut RowSeat, row: usize, index: usize, word: u64)
        requires seat { IsFitting (id_of self.now) seat.old }
        requires index { index < width_of self.now }
        requires writes { (words : List ℕ) × ((view_of seat.old).writing ≡ Some (line row words)) × (length words ≡ index) }
        requires row { row < 1024 }
        ensures seat { IsFitting (id_of self.now) seat.new }
        ensures view { view_of seat.new ≡ pushed (view_of seat.old) word }
    {
        let place = self.place(row, index);
        self.table.shared.store::<Brand>(seat, place, word);
    }

    /// Opens the row that the seat writes, all of whose words are stored.
    pub fn open(&self, seat: &mut RowSeat, row: usize)
        requires seat { IsFitting (id_of self.now) seat.old }
        requires row { row < 1024 }
        requires whole { (words : List ℕ) × ((view_of seat.old).writing ≡ Some (line row words)) × (length words ≡ width_of self.now) × E.IsEntry (entries_of self.now) words }
        ensures seat { IsFitting (id_of self.now) seat.new }
        ensures view { view_of seat.new ≡ opened (view_of seat.old) }
    {
        self.table.shared.store::<Brand>(seat, row + READY, 1);
    }

    /// Whether a row is ready. A row that the seat knows is. The words of a ready row are an entry, and stay.
    pub fn load_ready(&self, seat: &mut RowSeat, row: usize) -> bool
        requires seat { IsFitting (id_of self.now) seat.old }
        requires row { row < 1024 }
        ensures seat { IsFitting (id_of self.now) seat.new }
        ensures not_ready { result ≡ false → (view_of seat.new ≡ missed (view_of seat.old) row) × ((words : List ℕ) → Knows (view_of seat.old) row words → ⊥) }
        ensures ready { result ≡ true → (words : List ℕ) × (view_of seat.new ≡ learnt (view_of seat.old) row words) × (length words ≡ width_of self.now) × E.IsEntry (entries_of self.now) words }
    {
        self.table.shared.load::<Brand>(seat, row + READY) == 1
    }

    /// A word of a row that the seat knows, where the place of the row's first word is at hand.
    pub fn load_word_from(&self, seat: &mut RowSeat, row: usize, start: usize, index: usize) -> u64
        requires seat { IsFitting (id_of self.now) seat.old }
        requires row { row < 1024 }
        requires start { start ≡ row_start (width_of self.now) row }
        requires index { index < width_of self.now }
        ensures seat { IsFitting (id_of self.now) seat.new }
        ensures view { view_of seat.new ≡ view_of seat.old }
        ensures word { (words : List ℕ) → Knows (view_of seat.old) row words → result ≡ slice_index words index }
    {
        self.table.shared.load::<Brand>(seat, start + index)
    }

    /// A word of a row that the seat knows.
    pub fn load_word(&self, seat: &mut RowSeat, row: usize, index: usize) -> u64
        requires seat { IsFitting (id_of self.now) seat.old }
        requires row { row < 1024 }
        requires index { index < width_of self.now }
        ensures seat { IsFitting (id_of self.now) seat.new }
        ensures view { view_of seat.new ≡ view_of seat.old }
        ensures word { (words : List ℕ) → Knows (view_of seat.old) row words → result ≡ slice_index words index }
    {
        let start = self.start(row);
        self.load_word_from(seat, row, start, index)
    }
}
