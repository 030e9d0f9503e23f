//! Seats at a table.

use crate::view::View;
use atomic_table::Seat;

/// The seat of one thread at a table.
#[derive(Drop)]
pub struct RelaxSeat {
    // The number with which it passes gates: its place in the list that `new` gave.
    pub(crate) number: u32,
    // Room for the row that a sweep loads.
    pub(crate) row: Vec<u64>,
    // What the seat knows.
    pub(crate) seat: Seat<(), View>,
}
