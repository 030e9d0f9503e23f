//! The two systems on real threads.

ghost use Rattle.edge_io.specs.declared.gate.Place.TheVariants as place_of;
ghost use Rattle.std.specs.Prelude.{IsTrue, ◌≡◌, ◌+◌, ◌<◌, ◌≤◌, length, All, IfOk};
ghost use Rattle.bound_words.specs.Seats.{number_of, places_of};
ghost use Rattle.bound_words.specs.Tables.{IsSeatOf, IsFresh};
ghost use Rattle.thread_tests.specs.Settling.{HasSwept};

use crate::systems::{Chain, Small};
use bound_words::{RelaxSeat, RelaxTable, Swept, System};
use edge_io::{Gate, OpenGate};
use num_ends::{List, NoMemory};
use std::alloc::{AllocError, Global};
use std::test::Fail;
use std::thread;
use std::thread::Threads;

// Sweeps until a sweep is quiet, at most 1,000 times.
pub fn settle<S: System + Drop, G: Gate>(
    table: &RelaxTable<S>,
    seat: RelaxSeat,
    gate: &G,
) -> RelaxSeat
    requires seat { IsFresh S.terms table.now seat }
    requires gate { IsTrue (G.may_pass gate.now place_of.ClaimedSupporter (number_of seat)) }
    ensures { HasSwept S.terms table.now 1000 result }
{
    let mut seat = seat;
    for round in 0..1000u32 {
        let (next, swept) = table.sweep(seat, gate);
        seat = next;
        if swept == Swept::Quiet {
            return seat;
        }
    }
    seat
}

// Lets every seat sweep on a thread of its own.
fn settle_all<S: System + Drop, R: Threads + Sync>(
    rt: &R,
    table: &RelaxTable<S>,
    seats: Vec<RelaxSeat>,
) -> Result<Vec<RelaxSeat>, AllocError>
    requires { All (IsFresh S.terms table.now) seats.items }
    ensures all { IfOk result (λ settled. All (HasSwept S.terms table.now 1000) settled.items) }
    ensures count { IfOk result (λ settled. length settled.items ≡ length seats.items) }
{
    thread::map_vec(
        rt,
        seats,
        &|seat: RelaxSeat| -> RelaxSeat
            requires { IsFresh S.terms table.now seat }
        { settle(table, seat, &OpenGate) },
    )
}

// One seat of all.
fn join_all<S: System + Drop>(table: &RelaxTable<S>, seats: Vec<RelaxSeat>) -> RelaxSeat
    requires all { All (HasSwept S.terms table.now 1000) seats.items }
    requires some { 1 ≤ length seats.items }
    ensures seat { IsSeatOf S.terms table.now result }
    ensures places { length (places_of result) ≡ length seats.items }
{
    let mut rest = seats;
    let Some(mut seat) = rest.pop() else {
        unreachable!()
    };
    while let Some(other) = rest.pop() {
        seat = table.join(seat, other);
    }
    seat
}

// Makes a table over the start row, relaxes it, and closes it.
fn relaxed<S: System + Drop, R: Threads + Sync>(
    rt: &R,
    alloc: Global,
    system: S,
    start: &[u64],
    seats: u32,
) -> Result<List<u64>, NoMemory>
    requires row { length start.now ≡ (S.terms system).words }
    requires seats { (1 ≤ seats) × (seats ≤ 16) }
{
    let (table, seats) = RelaxTable::new(alloc, system, start, seats)?;
    let settled = settle_all(rt, &table, seats.into_vec())?;
    let seat = join_all(&table, settled);
    Ok(table.close(seat))
}

#[test]
fn small_system_closes_at_3_7_5(rt: HostRuntime) -> Result<(), Fail> {
    let one = relaxed(&rt, rt.alloc(), Small, &[0, 10, 1], 1)?;
    let two = relaxed(&rt, rt.alloc(), Small, &[0, 10, 1], 2)?;
    let sixteen = relaxed(&rt, rt.alloc(), Small, &[0, 10, 1], 16)?;
    assert_eq!(&rt; one.as_slice(), [3, 7, 5].as_slice());
    assert_eq!(&rt; two.as_slice(), [3, 7, 5].as_slice());
    assert_eq!(&rt; sixteen.as_slice(), [3, 7, 5].as_slice());
    Ok(())
}

// 7, and then as many zeros as there are further words.
fn seven_first(alloc: Global, words: usize) -> Result<Vec<u64>, AllocError>
    requires { 0 < words }
    ensures { IfOk result (λ row. length row.items ≡ words) }
{
    let mut row = vec![in alloc; 0u64; words]?;
    row[0] = 7;
    Ok(row)
}

#[test]
fn chain_hands_its_first_value_to_all(rt: HostRuntime) -> Result<(), Fail> {
    let start = seven_first(rt.alloc(), 10000)?;
    let one = relaxed(&rt, rt.alloc(), Chain, start.as_slice(), 1)?;
    let four = relaxed(&rt, rt.alloc(), Chain, start.as_slice(), 4)?;
    assert!(&rt; one.as_slice().iter().all(|value| *value == 7));
    assert!(&rt; four.as_slice().iter().all(|value| *value == 7));
    Ok(())
}
