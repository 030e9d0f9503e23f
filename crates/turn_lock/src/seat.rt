//! The seat of one worker at a lock.

ghost use Rattle.std.specs.Prelude.{◌≡◌, [], ◌∷◌};
ghost use Rattle.turn_lock.specs.Words.{idle, seen_in, known_in};
ghost use Rattle.turn_lock.specs.Badges.{view_of};

use crate::view::View;
use atomic_table::{Badge, Seat};

/// The seat of a worker, which takes turns with it. It knows the part of the journal that the worker has seen, and the
/// greatest length of the journal that the lock counted for it.
#[derive(Drop)]
pub struct TurnSeat {
    /// The worker's number, from 0.
    pub worker: u32,
    badge: Badge<View>,
    ghost idle: { badge.views ≡ idle worker (seen_in (view_of badge.views)) (known_in (view_of badge.views)) ∷ [] },
}

impl TurnSeat {
    // The seat on the table, which a step takes.
    pub(crate) fn into_place<T>(self) -> (u32, Seat<Option<T>, View>)
        ensures worker { result.0 ≡ self.worker }
        ensures place { (result.1.table_id ≡ self.badge.table_id) × (result.1.me ≡ (idle self.worker (seen_in (view_of self.badge.views)) (known_in (view_of self.badge.views)), [])) }
    {
        let TurnSeat { worker, badge } = self;
        (worker, badge.into_seat())
    }

    pub(crate) fn of_place<T>(worker: u32, place: Seat<Option<T>, View>) -> TurnSeat
        requires { place.me ≡ (idle worker (seen_in place.me.0) (known_in place.me.0), []) }
        ensures { (result.worker ≡ worker) × (result.badge.table_id ≡ place.table_id) × (seen_in (view_of result.badge.views) ≡ seen_in place.me.0) × (known_in (view_of result.badge.views) ≡ known_in place.me.0) }
    {
        TurnSeat {
            worker,
            badge: place.into_badge(),
        }
    }
}
