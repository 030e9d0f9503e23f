//! Rows of two equal words, written and read on threads.

ghost use Rattle.std.specs.Prelude.{◌≡◌, ◌+◌, ◌^◌, ◌<◌, ◌≤◌, [], ◌∷◌, length, All, IfOk, Some};
ghost use Rattle.word_rows.specs.Views.{line};
ghost use Rattle.word_rows.specs.Tables.{view_of, id_of, width_of, IsFitting, IsIdle, IsFresh};

use num_ends::{List, NoMemory};
use std::sync::atomic::{AtomicBool, Ordering};
use std::test::Fail;
use std::thread;
use std::thread::Threads;
use word_rows::{Entries, RowSeat, WordRows};

const ROWS: u64 = 1024;

/// A row has one word twice.
#[derive(Drop)]
struct Twins;

impl Entries for Twins {
    ghost use Rattle.thread_tests.specs.Rows.{AreTwins};

    ghost IsEntry = { λ _. AreTwins };
}

// Where the writer and the reader of one row meet.
#[derive(Drop)]
struct Meeting {
    halfway: AtomicBool,
    looked: AtomicBool,
}

// Waits for a while until the flag is set.
fn is_set_in_time(flag: &AtomicBool) -> bool {
    for _ in 0..1_000_000_000 {
        if flag.load(Ordering::SeqCst) {
            return true;
        }
    }
    false
}

fn write_first(rows: &WordRows<Twins>, seat: &mut RowSeat, row: usize, word: u64)
    requires width { width_of rows.now ≡ 2 }
    requires seat { IsFitting (id_of rows.now) seat.old }
    requires row { row < 1024 }
    requires writes { (view_of seat.old).writing ≡ Some (line row []) }
    ensures seat { IsFitting (id_of rows.now) seat.new }
    ensures writes { (view_of seat.new).writing ≡ Some (line row (word ∷ [])) }
    ensures claims { (view_of seat.new).claims ≡ (view_of seat.old).claims }
{
    rows.store(seat, row, 0, word);
}

fn write_second(rows: &WordRows<Twins>, seat: &mut RowSeat, row: usize, word: u64)
    requires width { width_of rows.now ≡ 2 }
    requires seat { IsFitting (id_of rows.now) seat.old }
    requires row { row < 1024 }
    requires writes { (view_of seat.old).writing ≡ Some (line row (word ∷ [])) }
    ensures seat { IsIdle (id_of rows.now) seat.new }
    ensures claims { (view_of seat.new).claims ≡ (view_of seat.old).claims }
{
    rows.store(seat, row, 1, word);
    rows.open(seat, row);
}

fn write(rows: &WordRows<Twins>, seat: &mut RowSeat, row: usize, word: u64)
    requires width { width_of rows.now ≡ 2 }
    requires seat { IsFitting (id_of rows.now) seat.old }
    requires row { row < 1024 }
    requires writes { (view_of seat.old).writing ≡ Some (line row []) }
    ensures seat { IsIdle (id_of rows.now) seat.new }
    ensures claims { (view_of seat.new).claims ≡ (view_of seat.old).claims }
{
    write_first(rows, seat, row, word);
    write_second(rows, seat, row, word);
}

// Writes the next row, where there is one left.
fn publish(rows: &WordRows<Twins>, seat: &mut RowSeat, word: u64) -> u64
    requires width { width_of rows.now ≡ 2 }
    requires seat { IsIdle (id_of rows.now) seat.old }
    requires few { length (view_of seat.old).claims < 2 ^ 32 }
    ensures seat { IsIdle (id_of rows.now) seat.new }
    ensures claims { length (view_of seat.new).claims ≡ length (view_of seat.old).claims + 1 }
{
    let number = rows.claim(seat);
    if number < ROWS {
        write(rows, seat, number as usize, word);
    }
    number
}

// Whether the words of a row are equal, where it is ready.
fn are_equal(rows: &WordRows<Twins>, seat: &mut RowSeat, row: usize) -> bool
    requires width { width_of rows.now ≡ 2 }
    requires seat { IsIdle (id_of rows.now) seat.old }
    requires row { row < 1024 }
    ensures seat { IsIdle (id_of rows.now) seat.new }
    ensures claims { (view_of seat.new).claims ≡ (view_of seat.old).claims }
{
    if !rows.load_ready(seat, row) {
        return true;
    }
    let first = rows.load_word(seat, row, 0);
    rows.load_word(seat, row, 1) == first
}

// Writes so many rows, and looks at as many.
fn work(rows: &WordRows<Twins>, seat: RowSeat, times: u32) -> (RowSeat, bool)
    requires width { width_of rows.now ≡ 2 }
    requires seat { IsFresh (id_of rows.now) seat }
    ensures seat { IsIdle (id_of rows.now) result.0 }
    ensures claims { length (view_of result.0).claims ≤ times }
{
    let mut seat = seat;
    let mut equal = true;
    'turns: for turn in 0..times {
        publish(rows, &mut seat, u64::from(turn));
        equal = are_equal(rows, &mut seat, (turn % 1024) as usize) && equal;
    }
    (seat, equal)
}

// Each seat works, on threads.
fn work_all<R: Threads + Sync>(
    rt: &R,
    rows: &WordRows<Twins>,
    seats: List<RowSeat>,
    times: u32,
) -> Result<Vec<(RowSeat, bool)>, NoMemory>
    requires width { width_of rows.now ≡ 2 }
    requires seats { All (IsFresh (id_of rows.now)) seats }
    ensures { IfOk result (λ all. All (λ one. IsIdle (id_of rows.now) one.0 × (length (view_of one.0).claims ≤ times)) all.items) }
{
    let all = thread::map_vec(
        rt,
        seats.into_vec(),
        &|seat: RowSeat| -> (RowSeat, bool)
            requires { (width_of rows.now ≡ 2) × IsFresh (id_of rows.now) seat }
            ensures { IsIdle (id_of rows.entry.now) result.0 × (length (view_of result.0).claims ≤ times) }
        { work(rows, seat, times) },
    )?;
    Ok(all)
}

// Writes a row, and stands in the middle of it until the other has looked.
fn write_slowly(rows: &WordRows<Twins>, seat: RowSeat, meeting: &Meeting) -> (RowSeat, bool)
    requires width { width_of rows.now ≡ 2 }
    requires seat { IsFresh (id_of rows.now) seat }
    ensures seat { IsIdle (id_of rows.now) result.0 }
{
    let mut seat = seat;
    let number = rows.claim(&mut seat);
    if number >= ROWS {
        return (seat, false);
    }
    let met = write_halting(rows, &mut seat, number as usize, meeting);
    (seat, met)
}

fn write_halting(rows: &WordRows<Twins>, seat: &mut RowSeat, row: usize, meeting: &Meeting) -> bool
    requires width { width_of rows.now ≡ 2 }
    requires seat { IsFitting (id_of rows.now) seat.old }
    requires row { row < 1024 }
    requires writes { (view_of seat.old).writing ≡ Some (line row []) }
    ensures seat { IsIdle (id_of rows.now) seat.new }
{
    write_first(rows, seat, row, 7);
    meeting.halfway.store(true, Ordering::SeqCst);
    let met = is_set_in_time(&meeting.looked);
    write_second(rows, seat, row, 7);
    met
}

// Looks at a row while the other stands in the middle of it.
fn look_meanwhile(rows: &WordRows<Twins>, seat: RowSeat, meeting: &Meeting) -> (RowSeat, bool)
    requires width { width_of rows.now ≡ 2 }
    requires seat { IsFresh (id_of rows.now) seat }
    ensures seat { IsIdle (id_of rows.now) result.0 }
{
    let mut seat = seat;
    let met = is_set_in_time(&meeting.halfway);
    let ready = rows.load_ready(&mut seat, 0);
    meeting.looked.store(true, Ordering::SeqCst);
    (seat, met && !ready)
}

fn meet<R: Threads>(
    rt: &R,
    rows: &WordRows<Twins>,
    writer: RowSeat,
    reader: RowSeat,
    meeting: &Meeting,
) -> (RowSeat, bool)
    requires width { width_of rows.now ≡ 2 }
    requires writer { IsFresh (id_of rows.now) writer }
    requires reader { IsFresh (id_of rows.now) reader }
    ensures seat { IsIdle (id_of rows.now) result.0 }
{
    let (first, second) = thread::join(
        rt,
        || -> (RowSeat, bool)
            requires { (width_of rows.now ≡ 2) × IsFresh (id_of rows.now) writer }
            ensures { IsIdle (id_of rows.entry.now) result.0 }
        { write_slowly(rows, writer, meeting) },
        || -> (RowSeat, bool)
            requires { (width_of rows.now ≡ 2) × IsFresh (id_of rows.now) reader }
            ensures { IsIdle (id_of rows.entry.now) result.0 }
        { look_meanwhile(rows, reader, meeting) },
    );
    (rows.join(first.0, second.0), first.1 && second.1)
}

// Whether the reader got on beside the writer, and finds the row afterwards.
fn two_meet<R: Threads>(
    rt: &R,
    rows: &WordRows<Twins>,
    seats: List<RowSeat>,
    meeting: &Meeting,
) -> bool
    requires width { width_of rows.now ≡ 2 }
    requires seats { All (IsFresh (id_of rows.now)) seats }
{
    let mut seats = seats.into_vec();
    let Some(reader) = seats.pop() else {
        return false;
    };
    let Some(writer) = seats.pop() else {
        return false;
    };
    let (seat, met) = meet(rt, rows, writer, reader, meeting);
    met && has_sevens(rows, seat)
}

fn has_sevens(rows: &WordRows<Twins>, seat: RowSeat) -> bool
    requires width { width_of rows.now ≡ 2 }
    requires seat { IsIdle (id_of rows.now) seat }
{
    let mut seat = seat;
    let ready = rows.load_ready(&mut seat, 0);
    let first = rows.load_word(&mut seat, 0, 0);
    let second = rows.load_word(&mut seat, 0, 1);
    ready && first == 7 && second == 7
}

// The number that a seat draws.
fn drawn(rows: &WordRows<Twins>, seat: RowSeat) -> u64
    requires seat { IsIdle (id_of rows.now) seat }
    requires few { length (view_of seat).claims ≤ 64 }
{
    let mut seat = seat;
    rows.claim(&mut seat)
}

// The number that the last of these seats draws.
fn last_drawn(rows: &WordRows<Twins>, all: Vec<(RowSeat, bool)>) -> Option<u64>
    requires idle { All (λ one. IsIdle (id_of rows.now) one.0) all.items }
    requires few { All (λ one. length (view_of one.0).claims ≤ 64) all.items }
{
    let mut all = all;
    match all.pop() {
        Some(one) => Some(drawn(rows, one.0)),
        None => None,
    }
}

// Whether each of these seats found what it looked at right.
fn are_right(all: &[(RowSeat, bool)]) -> bool {
    all.iter().all(|one| one.1)
}

#[test]
fn sixteen_seats_write_and_read(rt: HostRuntime) -> Result<(), Fail> {
    let (rows, seats) = WordRows::new(rt.alloc(), &Twins, 2, 16)?;
    let all = work_all(&rt, &rows, seats, 64)?;
    let right = are_right(all.as_slice());
    let last = last_drawn(&rows, all);
    assert!(rt; right && last == Some(1024));
    Ok(())
}

#[test]
fn a_reader_gets_on_while_a_writer_stands_in_a_row(rt: HostRuntime) -> Result<(), Fail> {
    let meeting = Meeting {
        halfway: AtomicBool::new(false),
        looked: AtomicBool::new(false),
    };
    let (rows, seats) = WordRows::new(rt.alloc(), &Twins, 2, 2)?;
    let right = two_meet(&rt, &rows, seats, &meeting);
    assert!(rt; right);
    Ok(())
}
