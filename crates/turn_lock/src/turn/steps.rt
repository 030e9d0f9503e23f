//! The steps of a turn on the table.

use super::{COUNT, Hand, Held, TURN, Turn};
use crate::plays::{Count, Look, Origin, Release, Try};
use crate::seat::TurnSeat;
use crate::told::Told;
use crate::view::View;
use atomic_table::Seat;
use std::snapshot::Snapshot;

impl<T: Told> Turn<T> {
    ghost use Rattle.std.specs.Prelude.{◌≡◌, ◌≢◌, ◌≤◌, [], length, Some};
    ghost use Rattle.turn_lock.specs.History.{OthersAfter, OwnAfter};
    ghost use Rattle.turn_lock.specs.Turns.{Took};
    ghost use Rattle.turn_lock.specs.Words.{idle, worker_in, seen_in, known_in};
    ghost use Rattle.turn_lock.specs.Seats.{seen_by, known_length, lock_of_seat};
    ghost use Rattle.turn_lock.specs.Locks.{origin, lock_id, lock_of_held, holder_of, taken_of, known_by_holder};

    // One try to take the turn: 0 where it succeeds.
    pub(super) fn try_turn<K: Origin<T>>(&self, place: &mut Seat<Option<T>, View>) -> u64
        requires lock { place.old.table_id ≡ lock_id self.now }
        requires idle { place.old.me ≡ (idle (worker_in place.old.me.0) (seen_in place.old.me.0) (known_in place.old.me.0), []) }
        requires said { K.said ≡ Some (origin self.now) }
        ensures lock { place.new.table_id ≡ place.old.table_id }
        ensures took { result ≡ 0 → Took T.terms T.journal K.said place.old.me place.new.me }
        ensures missed { result ≢ 0 → place.new.me ≡ place.old.me }
    {
        self.table
            .shared
            .compare_exchange::<Try<K>>(place, TURN, 0, 1)
    }

    // The value comes into the worker's hand.
    pub(super) fn lift(
        &self,
        worker: u32,
        mut place: Seat<Option<T>, View>,
        seen: &Snapshot<Seat<Option<T>, View>>,
    ) -> Held<T>
        requires lock { place.table_id ≡ lock_id self.now }
        requires took { (worker_in seen.now.value.me.0 ≡ worker) × Took T.terms T.journal (Some (origin self.now)) seen.now.value.me place.me }
        ensures lock { lock_of_held result ≡ lock_id self.now }
        ensures value { (holder_of result ≡ worker) × (taken_of result ≡ T.journal result.value) × (T.terms result.value ≡ T.terms (origin self.now)) }
        ensures journal { OthersAfter worker (seen_in seen.now.value.me.0) (T.journal result.value) }
        ensures counted { (known_by_holder result ≡ known_in seen.now.value.me.0) × (known_in seen.now.value.me.0 ≤ length (T.journal result.value)) }
    {
        let value = self.table.shared.exchange(&mut place, 0, None).unwrap();
        let hand = Hand { worker, place };
        Held { value, hand }
    }

    /// Gives the value back. Its terms are the lock's, and its journal is the one at `take` with entries of the
    /// worker alone behind it. The worker has seen it all from then on.
    pub fn give(&self, held: Held<T>) -> TurnSeat
        requires lock { lock_of_held held ≡ lock_id self.now }
        requires terms { T.terms held.value ≡ T.terms (origin self.now) }
        requires journal { OwnAfter (holder_of held) (taken_of held) (T.journal held.value) }
        ensures seat { (lock_of_seat result ≡ lock_id self.now) × (result.worker ≡ holder_of held) }
        ensures seen { seen_by result ≡ T.journal held.value }
        ensures known { known_length result ≡ known_by_holder held }
    {
        let Held { value, hand } = held;
        let Hand { worker, mut place } = hand;
        let length = value.told();
        let shared = &self.table.shared;
        let out = shared.exchange(&mut place, 0, Some(value));
        let None = out else { unreachable!() };
        shared.store::<Count>(&mut place, COUNT, length);
        shared.store::<Release>(&mut place, TURN, 0);
        TurnSeat::of_place(worker, place)
    }

    /// The length of the history as the lock counts it: no less than what the seat has seen, or than it was counted
    /// before for the seat. The seat knows it from then on: no journal that it finds later is shorter. It takes no turn.
    pub fn count(&self, seat: TurnSeat) -> (TurnSeat, u64)
        requires { lock_of_seat seat ≡ lock_id self.now }
        ensures seat { (lock_of_seat result.0 ≡ lock_id self.now) × (result.0.worker ≡ seat.worker) × (seen_by result.0 ≡ seen_by seat) }
        ensures count { (length (seen_by seat) ≤ result.1) × (known_length seat ≤ result.1) }
        ensures known { known_length result.0 ≡ result.1 }
    {
        let (worker, mut place) = seat.into_place::<T>();
        let length = self.table.shared.load::<Look>(&mut place, COUNT);
        (TurnSeat::of_place(worker, place), length)
    }
}
