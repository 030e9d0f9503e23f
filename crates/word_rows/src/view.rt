//! What a seat knows of the rows. No value of these types is made but seats.

use atomic_table::Seat;
use std::collections::LinkedList;

/// A row, and words of it from the first on.
pub struct Line {
    pub row: u64,
    pub words: LinkedList<u64>,
}

/// A load of the ready word of a row, and what it gave.
pub struct Load {
    pub row: u64,
    pub found: u64,
}

/// What a seat knows.
pub struct View {
    /// How many of the seats that the table was made with are joined in it, itself included.
    pub seats: u64,
    /// The numbers that it drew.
    pub claims: LinkedList<u64>,
    /// The rows that it knows to be ready, with their words.
    pub known: LinkedList<Line>,
    /// Its loads of ready words, the last one first.
    pub loads: LinkedList<Load>,
    /// The loads of the seats that were joined into it.
    pub others: LinkedList<Load>,
    /// The row that it writes, with the words stored so far.
    pub writing: Option<Line>,
}

/// The seat of one thread at a table of rows.
pub type RowSeat = Seat<(), View>;
