//! A take that waits, and the value while it is out.

use super::{Held, TURN, Turn};
use crate::seat::TurnSeat;
use crate::told::Told;
use std::marker::Brand;
use std::snapshot::Snapshot;
use std::sync::Wait;
use std::time::Duration;
use std::{hint, thread};

// Rounds of spinning, each twice as long as the one before.
const SPINS: u32 = 6;

// Rounds that give way to another thread, behind those.
const YIELDS: u32 = 10;

// The first sleep behind those. Each later one is twice as long, up to so many doublings.
const SLEEP_MICROSECONDS: u64 = 50;

const DOUBLINGS: u32 = 2;

impl<T: Told> Turn<T> {
    ghost use Rattle.std.specs.Prelude.{◌≡◌, ◌≤◌, length};
    ghost use Rattle.turn_lock.specs.History.{OthersAfter};
    ghost use Rattle.turn_lock.specs.Seats.{seen_by, known_length, lock_of_seat};
    ghost use Rattle.turn_lock.specs.Locks.{origin, lock_id, lock_of_held, holder_of, taken_of, known_by_holder};

    // Spins at first, then gives way, then sleeps for a moment while another worker has the value. It gives the next round.
    fn pause<R: Wait>(&self, rt: &R, round: u32) -> u32 {
        if round < SPINS {
            for _ in 0..1u32 << round {
                hint::spin_loop();
            }
            return round + 1;
        }
        if round < SPINS + YIELDS {
            thread::yield_now();
            return round + 1;
        }
        let step = round - SPINS - YIELDS;
        let moment = Duration::from_micros(SLEEP_MICROSECONDS << step.min(DOUBLINGS));
        self.table.shared.park_timeout(rt, TURN, 1, moment);
        if step < DOUBLINGS { round + 1 } else { round }
    }

    /// The value, once no other worker has it. It may wait: it spins briefly and then gives way to other threads.
    /// The value's terms are the lock's. Its journal begins with what the seat has seen, after which no entry has the
    /// seat's worker number, and is no shorter than it was counted for the seat.
    pub fn take<R: Wait>(&self, rt: &R, seat: TurnSeat) -> Held<T>
        requires { lock_of_seat seat ≡ lock_id self.now }
        ensures seat { (lock_of_held result ≡ lock_id self.now) × (holder_of result ≡ seat.worker) }
        ensures value { (taken_of result ≡ T.journal result.value) × (T.terms result.value ≡ T.terms (origin self.now)) }
        ensures journal { OthersAfter seat.worker (seen_by seat) (T.journal result.value) }
        ensures counted { (known_by_holder result ≡ known_length seat) × (known_length seat ≤ length (T.journal result.value)) }
    {
        let (worker, mut place) = seat.into_place::<T>();
        let before = Snapshot::of(&place);
        let mut round = 0;
        'tries: for _ in rt.forever() {
            if self.table.shared.peek(TURN) == 0 && self.try_turn::<Brand>(&mut place) == 0 {
                return self.lift(worker, place, &before);
            }
            round = self.pause(rt, round);
        }
        unreachable!()
    }
}

impl<T> Held<T> {
    ghost use Rattle.std.specs.Prelude.{◌≡◌};
    ghost use Rattle.std.specs.Borrow.{sem};
    ghost use Rattle.turn_lock.specs.Lending.{LendsValue};

    /// Lends the value.
    pub fn value(&mut self) -> &mut T
        ensures* writes_back { sem 𝓛 (LendsValue T.row self.entry result) }
        ensures value { result.now ≡ self.old.value }
    {
        &mut self.value
    }
}
