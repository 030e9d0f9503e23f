//! The lock, and its value in the hand of a worker.

ghost use Rattle.std.specs.Prelude.{◌≡◌, ◌≤◌, ◌<◌, [], ◌∷◌, None};
ghost use Rattle.turn_lock.specs.Words.{holding, seen_in, known_in};

use crate::plays::{Key, Turns};
use crate::told::Told;
use crate::view::View;
use atomic_table::{Seat, Table};
use std::alloc::Global;

mod ends;
mod steps;
mod waits;

// The word with the length of the history.
const COUNT: usize = 0;

// The word that is 1 while a worker has the value, and else 0.
const TURN: usize = 1;

/// A lock around one value. A worker takes the value out, changes it, and gives it back with a longer journal.
#[derive(Drop)]
pub struct Turn<T: Told> {
    table: Table<Option<T>, View, Key<T>, Turns<T>, Global>,
    ghost sized: { (table.shared.table_id.words ≡ 2) × (table.shared.table_id.slots ≡ 1) },
    ghost seats: { (1 ≤ table.shared.key.seats) × (table.shared.key.seats ≤ 16) },
}

// What a worker keeps of its turn while the value is out.
struct Hand<T> {
    worker: u32,
    place: Seat<Option<T>, View>,
    ghost holds: { place.me ≡ (holding worker (seen_in place.me.0) (known_in place.me.0), (0, None) ∷ []) },
}

/// The value of a lock in the hand of a worker. It has no `Drop`, so it ends in `Turn::give`.
pub struct Held<T> {
    value: T,
    hand: Hand<T>,
}
