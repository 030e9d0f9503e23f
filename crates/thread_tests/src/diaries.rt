//! A diary that workers sign in turns, on threads.

ghost use Rattle.std.specs.Prelude.{◌≡◌, ◌≤◌, IfOk};
ghost use Rattle.turn_lock.specs.History.{OwnAfter};
ghost use Rattle.turn_lock.specs.Seats.{lock_of_seat};
ghost use Rattle.turn_lock.specs.Locks.{lock_id, AreAllSeats};
ghost use Rattle.thread_tests.specs.Diaries.{entries_of};

use num_ends::{List, NoMemory};
use std::alloc::Global;
use std::sync::Wait;
use std::test::Fail;
use std::thread;
use std::thread::Threads;
use turn_lock::{Held, Told, Turn, TurnSeat};

/// Lines under a title: who wrote each, and how many this worker had written before.
#[derive(Debug, Drop)]
struct Diary {
    title: u32,
    lines: List<(u32, u32)>,
}

impl Told for Diary {
    ghost use Rattle.std.specs.Prelude.{ℕ};

    ghost Terms = { ℕ };

    ghost terms = { λ diary. diary.title };

    ghost journal = { λ diary. entries_of diary.lines };

    fn told(&self) -> u64 {
        self.lines.len() as u64
    }
}

impl Diary {
    // Without memory nothing is written.
    fn sign(&mut self, worker: u32, page: u32)
        ensures title { self.new.title ≡ self.old.title }
        ensures lines { OwnAfter worker (entries_of self.old.lines) (entries_of self.new.lines) }
    {
        let _ = self.lines.push((worker, page));
    }
}

// One turn, in which the worker signs.
fn turn_once<R: Wait>(rt: &R, turn: &Turn<Diary>, seat: TurnSeat, page: u32) -> TurnSeat
    requires { lock_of_seat seat ≡ lock_id turn.now }
    ensures { (lock_of_seat result ≡ lock_id turn.now) × (result.worker ≡ seat.worker) }
{
    let worker = seat.worker;
    let mut held = turn.take(rt, seat);
    held.value().sign(worker, page);
    turn.give(held)
}

fn turn_often<R: Wait>(rt: &R, turn: &Turn<Diary>, seat: TurnSeat, times: u32) -> TurnSeat
    requires { lock_of_seat seat ≡ lock_id turn.now }
    ensures { (lock_of_seat result ≡ lock_id turn.now) × (result.worker ≡ seat.worker) }
{
    let mut seat = seat;
    'turns: for page in 0..times {
        seat = turn_once(rt, turn, seat, page);
    }
    seat
}

// Each seat takes so many turns, on threads.
fn all_turn<R: Threads + Wait + Sync>(
    rt: &R,
    turn: &Turn<Diary>,
    seats: List<TurnSeat>,
    times: u32,
) -> Result<List<TurnSeat>, NoMemory>
    requires { AreAllSeats turn.now seats }
    ensures { IfOk result (λ all. AreAllSeats turn.now all) }
{
    let all = thread::map_vec(
        rt,
        seats.into_vec(),
        &|seat: TurnSeat| -> TurnSeat
            requires { lock_of_seat seat ≡ lock_id turn.now }
            ensures { (lock_of_seat result ≡ lock_id turn.entry.now) × (result.worker ≡ seat.worker) }
        { turn_often(rt, turn, seat, times) },
    )?;
    Ok(List::from_vec(all))
}

// What the diary has in the end, on the thread that closes the lock.
fn signed<R: Threads + Wait + Sync>(
    rt: &R,
    alloc: Global,
    seats: u32,
    times: u32,
) -> Result<Diary, NoMemory>
    requires { (1 ≤ seats) × (seats ≤ 16) }
    ensures { IfOk result (λ diary. diary.title ≡ 7) }
{
    let diary = Diary {
        title: 7,
        lines: List::new(alloc),
    };
    let (turn, all) = Turn::new(alloc, diary, seats)?;
    let all = all_turn(rt, &turn, all, times)?;
    Ok(turn.close(all))
}

// What has this bound may move to another thread.
fn movable<T: Send>(value: T) -> T
    ensures { result ≡ value }
{
    value
}

fn held_moves(held: Held<Diary>) -> Held<Diary> {
    movable(held)
}

// Whether the worker wrote so many lines, and its pages stand in order.
fn wrote(diary: &Diary, worker: u32, times: u32) -> bool {
    let mut page = 0;
    for line in diary.lines.as_slice() {
        if line.0 == worker {
            if line.1 != page || page == times {
                return false;
            }
            page += 1;
        }
    }
    page == times
}

#[test]
fn two_seats_sign_ten_times_each(rt: HostRuntime) -> Result<(), Fail> {
    let diary = signed(&rt, rt.alloc(), 2, 10)?;
    assert!(rt; diary.lines.len() == 20);
    assert!(rt; wrote(&diary, 0, 10) && wrote(&diary, 1, 10));
    Ok(())
}

#[test]
fn sixteen_seats_take_a_thousand_turns_each(rt: HostRuntime) -> Result<(), Fail> {
    let diary = signed(&rt, rt.alloc(), 16, 1000)?;
    assert!(rt; diary.lines.len() == 16_000);
    assert!(rt; (0..16).all(|worker| wrote(&diary, worker, 1000)));
    Ok(())
}

#[test]
fn the_value_moves_to_the_thread_that_closes(rt: HostRuntime) -> Result<(), Fail> {
    let diary = Diary {
        title: 5,
        lines: List::new(rt.alloc()),
    };
    let (turn, all) = Turn::new(rt.alloc(), diary, 1)?;
    let mut seats = all.into_vec();
    let Some(seat) = seats.pop() else {
        panic!(rt; "no seat")
    };
    let (seat, before) = turn.count(seat);
    assert!(rt; before == 0);
    let (seat, after) = turn.count(turn_often(&rt, &turn, seat, 3));
    assert!(rt; after == 3);
    seats.push_reserved(seat);
    let all = List::from_vec(seats);
    let close = move || -> Diary
        requires { AreAllSeats turn all }
    { turn.close(all) };
    let diary = thread::join(&rt, close, || ()).0;
    assert!(rt; diary.title == 5 && wrote(&diary, 0, 3));
    Ok(())
}
