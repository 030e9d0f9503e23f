//! How a lock begins, and how it ends.

use super::{COUNT, TURN, Turn};
use crate::plays::{Deal, Gather, Key};
use crate::seat::TurnSeat;
use crate::told::Told;
use crate::view::View;
use atomic_table::{Refused, Seat, Table};
use num_ends::{List, NoMemory};
use std::alloc::Global;
use std::snapshot::Snapshot;

impl<T: Told> Turn<T> {
    ghost use Rattle.std.specs.Prelude.{◌≡◌, ◌≤◌, ◌<◌, [], length, map, All, IfOk, IfSome, IsSome, vec_capacity};
    ghost use Rattle.turn_lock.specs.History.{OthersAfter};
    ghost use Rattle.turn_lock.specs.Words.{waiting, marks_from, numbers_from};
    ghost use Rattle.turn_lock.specs.Seats.{seen_by, known_length, lock_of_seat, worker_of, mark_of};
    ghost use Rattle.turn_lock.specs.Locks.{origin, seats_of, lock_id, AreAllSeats};

    /// A lock around a value, with so many seats. The i-th seat has the worker number i and has seen the whole
    /// journal of the value, whose terms are the lock's from then on.
    pub fn new(alloc: Global, value: T, seats: u32) -> Result<(Turn<T>, List<TurnSeat>), NoMemory>
    where
        T: Drop,
        requires { (1 ≤ seats) × (seats ≤ 16) }
        ensures lock { IfOk result (λ made. (origin made.0 ≡ value) × (seats_of made.0 ≡ seats)) }
        ensures seats { IfOk result (λ made. AreAllSeats made.0 made.1 × All (λ seat. seen_by seat ≡ T.journal value) made.1) }
    {
        let row = Vec::with_capacity(alloc, seats as usize)?;
        let mut slots = Vec::with_capacity(alloc, 1)?;
        let length = value.told();
        let key = Key {
            origin: Snapshot::of(&value),
            seats,
        };
        slots.push_reserved(Some(value));
        match Table::new(alloc, &[length, 0], slots, &key) {
            Ok((table, place)) => {
                let turn = Turn { table };
                let all = turn.deal(place, row, seats);
                Ok((turn, all))
            }
            Err(Refused { slots: _ }) => Err(NoMemory),
        }
    }

    // Each worker number goes to a seat of its own.
    fn deal(
        &self,
        mut place: Seat<Option<T>, View>,
        mut row: Vec<TurnSeat>,
        seats: u32,
    ) -> List<TurnSeat>
        requires lock { (place.table_id ≡ lock_id self.now) × (seats ≡ seats_of self.now) × (1 ≤ seats) }
        requires first { place.me ≡ (waiting (marks_from 0 seats (T.journal (origin self.now))), []) }
        requires room { (row.items ≡ []) × (seats ≤ vec_capacity row) }
        ensures { AreAllSeats self.now result × All (λ seat. seen_by seat ≡ T.journal (origin self.now)) result }
    {
        'seats: for worker in 0..seats - 1 {
            let next = self.table.shared.split_seat::<Deal>(&mut place);
            row.push_reserved(TurnSeat::of_place(worker, next));
        }
        row.push_reserved(TurnSeat::of_place(seats - 1, place));
        List::from_vec(row)
    }

    // One seat takes the worker numbers of all.
    fn gather(&self, mut seats: Vec<TurnSeat>) -> Seat<Option<T>, View>
        requires lock { All (λ seat. lock_of_seat seat ≡ lock_id self.now) seats.items }
        requires some { 0 < length seats.items }
        ensures { (result.table_id ≡ lock_id self.now) × (result.me ≡ (waiting (map mark_of seats.items), [])) }
    {
        let Some(last) = seats.pop() else {
            unreachable!()
        };
        let (_, mut place) = last.into_place::<T>();
        'seats: while let Some(seat) = seats.pop() {
            let (_, other) = seat.into_place::<T>();
            self.table.shared.join_seat::<Gather>(&mut place, other);
        }
        place
    }

    // What is in the slot at the end: the value.
    fn slot_at_end(self, seats: List<TurnSeat>) -> Option<T>
        requires { AreAllSeats self seats }
        ensures { IsSome result × IfSome result (λ value. (T.terms value ≡ T.terms (origin self))
            × All (λ seat. OthersAfter seat.worker (seen_by seat) (T.journal value)) seats
            × All (λ seat. known_length seat ≤ length (T.journal value)) seats) }
    {
        let place = self.gather(seats.into_vec());
        let Turn { table } = self;
        let mut closed = table.close_with(place);
        let slot = closed.take(0);
        closed.free();
        slot
    }

    /// The value at the end, for a caller with each seat that `new` gave, in order. Its terms are the lock's. Its
    /// journal begins with what each seat has seen, after which no entry has that seat's worker number, and is no
    /// shorter than it was counted for any of them.
    pub fn close(self, seats: List<TurnSeat>) -> T
        requires { AreAllSeats self seats }
        ensures terms { T.terms result ≡ T.terms (origin self) }
        ensures journal { All (λ seat. OthersAfter seat.worker (seen_by seat) (T.journal result)) seats }
        ensures counted { All (λ seat. known_length seat ≤ length (T.journal result)) seats }
    {
        self.slot_at_end(seats).unwrap()
    }
}
