//! Gates that hold a seat, and that count the passes under each number.

ghost use Rattle.std.specs.Prelude.{◌≡◌, length, slice_index_or};
ghost use Rattle.bound_words.specs.Tables.{IsFresh};
ghost use Rattle.thread_tests.specs.Settling.{HasSwept};

use crate::sweeps::settle;
use crate::systems::Small;
use bound_words::{RelaxSeat, RelaxTable, System};
use edge_io::{Gate, Place};
use std::sync::atomic::{AtomicBool, AtomicU32, Ordering};
use std::test::Fail;
use std::thread;
use std::thread::Threads;

// Holds number 0 before its second evaluation until number 1 has passed, or for a number of turns.
#[derive(Drop)]
struct Holding {
    passes: AtomicU32,
    other_passed: AtomicBool,
    gave_up: AtomicBool,
}

impl Gate for Holding {
    fn pass(&self, _place: Place, worker: u32) {
        if worker != 0 {
            self.other_passed.store(true, Ordering::SeqCst);
            return;
        }
        if self.passes.fetch_add(1, Ordering::SeqCst) != 1 {
            return;
        }
        for _ in 0..1_000_000_000 {
            if self.other_passed.load(Ordering::SeqCst) {
                return;
            }
        }
        self.gave_up.store(true, Ordering::SeqCst);
    }
}

// Lets two seats sweep on two threads.
fn settle_both<S: System + Drop, R: Threads>(
    rt: &R,
    table: &RelaxTable<S>,
    first: RelaxSeat,
    second: RelaxSeat,
    gate: &Holding,
) -> (RelaxSeat, RelaxSeat)
    requires first { IsFresh S.terms table.now first }
    requires second { IsFresh S.terms table.now second }
    ensures first { HasSwept S.terms table.now 1000 result.0 }
    ensures second { HasSwept S.terms table.now 1000 result.1 }
{
    thread::join(
        rt,
        || -> RelaxSeat
            requires { IsFresh S.terms table.now first }
        { settle(table, first, gate) },
        || -> RelaxSeat
            requires { IsFresh S.terms table.now second }
        { settle(table, second, gate) },
    )
}

// The two seats of a list.
fn both(seats: Vec<RelaxSeat>) -> (RelaxSeat, RelaxSeat)
    requires { length seats.items ≡ 2 }
    ensures first { result.0 ≡ slice_index_or seats.items 0 result.0 }
    ensures second { result.1 ≡ slice_index_or seats.items 1 result.1 }
{
    let mut seats = seats;
    let Some(second) = seats.pop() else {
        unreachable!()
    };
    let Some(first) = seats.pop() else {
        unreachable!()
    };
    (first, second)
}

#[test]
fn two_seats_sweep_beside_each_other(rt: HostRuntime) -> Result<(), Fail> {
    let gate = Holding {
        passes: AtomicU32::new(0),
        other_passed: AtomicBool::new(false),
        gave_up: AtomicBool::new(false),
    };
    let (table, seats) = RelaxTable::new(rt.alloc(), Small, &[0, 10, 1], 2)?;
    let (first, second) = both(seats.into_vec());
    let (first, second) = settle_both(&rt, &table, first, second, &gate);
    let seat = table.join(first, second);
    let (seat, value) = table.peek(seat, 1);
    assert_eq!(&rt; value, 7);
    let row = table.close(seat);
    assert_eq!(&rt; row.as_slice(), [3, 7, 5].as_slice());
    assert!(&rt; !gate.gave_up.load(Ordering::SeqCst));
    Ok(())
}

// Counts the evaluations that number 0 and number 1 passed for, and every other pass.
#[derive(Drop)]
struct Counting {
    first: AtomicU32,
    second: AtomicU32,
    others: AtomicU32,
}

impl Gate for Counting {
    fn pass(&self, place: Place, worker: u32) {
        match (place, worker) {
            (Place::ClaimedSupporter, 0) => self.first.fetch_add(1, Ordering::SeqCst),
            (Place::ClaimedSupporter, 1) => self.second.fetch_add(1, Ordering::SeqCst),
            _ => self.others.fetch_add(1, Ordering::SeqCst),
        };
    }
}

// A sweep passes once for each of the three rules, under the number of its seat, also where a seat
// has taken in another.
#[test]
fn passes_are_counted_under_their_numbers(rt: HostRuntime) -> Result<(), Fail> {
    let gate = Counting {
        first: AtomicU32::new(0),
        second: AtomicU32::new(0),
        others: AtomicU32::new(0),
    };
    let (table, seats) = RelaxTable::new(rt.alloc(), Small, &[0, 10, 1], 2)?;
    let (first, second) = both(seats.into_vec());
    let (second, _) = table.sweep(second, &gate);
    assert_eq!(&rt; gate.first.load(Ordering::SeqCst), 0);
    assert_eq!(&rt; gate.second.load(Ordering::SeqCst), 3);
    let (first, _) = table.sweep(first, &gate);
    let (second, _) = table.sweep(second, &gate);
    assert_eq!(&rt; gate.first.load(Ordering::SeqCst), 3);
    assert_eq!(&rt; gate.second.load(Ordering::SeqCst), 6);
    let (joined, _) = table.sweep(table.join(second, first), &gate);
    assert_eq!(&rt; gate.second.load(Ordering::SeqCst), 9);
    assert_eq!(&rt; gate.first.load(Ordering::SeqCst), 3);
    assert_eq!(&rt; gate.others.load(Ordering::SeqCst), 0);
    let (_, value) = table.peek(joined, 2);
    assert_eq!(&rt; value, 5);
    Ok(())
}
