//! One turn of a worker at the lock.

ghost use Rattle.std.specs.Prelude.{◌≡◌, IfOk, IfErr};
ghost use Rattle.turn_lock.specs.Seats.{seen_by, lock_of_seat};
ghost use Rattle.turn_lock.specs.Locks.{origin, lock_id};
ghost use Rattle.turn_workers.specs.Workers.{IsTaken};

use crate::shared::Shared;
use crate::work::{Job, Taken};
use num_ends::NoMemory;
use std::sync::Wait;
use turn_lock::{Turn, TurnSeat};

/// One turn, in which an idle worker asks for a node. It may wait.
pub fn take_once<N, O, S: Shared<N, O>, R: Wait>(
    rt: &R,
    turn: &Turn<S>,
    seat: TurnSeat,
) -> (TurnSeat, Result<Taken<N>, NoMemory>)
    requires lock { lock_of_seat seat ≡ lock_id turn.now }
    requires idle { S.Idle (S.about (origin turn.now)) seat.worker (seen_by seat) }
    ensures seat { (lock_of_seat result.0 ≡ lock_id turn.now) × (result.0.worker ≡ seat.worker) }
    ensures taken { IfOk result.1 (IsTaken S.Idle S.Has (S.about (origin turn.now)) seat.worker (seen_by result.0)) }
    ensures refused { IfErr result.1 (λ _. S.Idle (S.about (origin turn.now)) seat.worker (seen_by result.0)) }
{
    let worker = seat.worker;
    let mut held = turn.take(rt, seat);
    let taken = held.value().take(worker);
    (turn.give(held), taken)
}

/// One turn, in which a worker gives what came of its node. It may wait. Without memory the worker still holds the node.
pub fn give_once<N, O, S: Shared<N, O>, R: Wait>(
    rt: &R,
    turn: &Turn<S>,
    seat: TurnSeat,
    job: &Job<N>,
    outcomes: O,
) -> (TurnSeat, Result<(), NoMemory>)
    requires lock { lock_of_seat seat ≡ lock_id turn.now }
    requires job { S.Has (S.about (origin turn.now)) seat.worker job.now (seen_by seat) }
    requires outcomes { S.AreRight (S.about (origin turn.now)) job.now outcomes }
    ensures seat { (lock_of_seat result.0 ≡ lock_id turn.now) × (result.0.worker ≡ seat.worker) }
    ensures given { IfOk result.1 (λ _. S.Idle (S.about (origin turn.now)) seat.worker (seen_by result.0)) }
    ensures refused { IfErr result.1 (λ _. S.Has (S.about (origin turn.now)) seat.worker job.now (seen_by result.0)) }
{
    let worker = seat.worker;
    let mut held = turn.take(rt, seat);
    let given = held.value().give(worker, job, outcomes);
    (turn.give(held), given)
}

/// One turn, in which a worker leaves the work, which found no memory. It may wait.
pub fn starve_once<N, O, S: Shared<N, O>, R: Wait>(
    rt: &R,
    turn: &Turn<S>,
    seat: TurnSeat,
) -> TurnSeat
    requires lock { lock_of_seat seat ≡ lock_id turn.now }
    requires work { S.AtWork (S.about (origin turn.now)) seat.worker (seen_by seat) }
    ensures seat { (lock_of_seat result ≡ lock_id turn.now) × (result.worker ≡ seat.worker) }
    ensures starved { S.Starved (S.about (origin turn.now)) seat.worker (seen_by result) }
{
    let worker = seat.worker;
    let mut held = turn.take(rt, seat);
    held.value().starve(worker);
    turn.give(held)
}
