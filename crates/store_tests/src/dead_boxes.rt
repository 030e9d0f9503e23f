//! Dead boxes of a counter, published and found.

ghost use Rattle.std.specs.Prelude.{◌≡◌, ◌≤◌, ◌∷◌, [], length, All, IfOk, IsTrue};
ghost use Rattle.ground_task.specs.Valid.{is_known_condition, IsValid, IsValidAction};
ghost use Rattle.box_model.specs.Least.{IsDead};
ghost use Rattle.word_rows.specs.Tables.{IsFresh};
ghost use Rattle.dead_rows.specs.Readings.{IsFor};
ghost use Rattle.dead_rows.specs.Seats.{IsSeatOf, claims_of, store_id, task_of};

use box_model::StateBox;
use dead_rows::{DeadRows, Placed, RowSeat};
use ground_task::{Change, GCond, GExpr, Ground, RawTask, Rel, State, Task};
use num_ends::{Dec, List, NoMemory, Text};
use places::infer;
use relax_plain::least_box;
use std::alloc::Global;
use std::test::Fail;
use std::thread;
use std::thread::Threads;

fn one<T: Drop>(alloc: Global, a: T) -> Result<List<T>, NoMemory>
    ensures { IfOk result (λ l. l ≡ a ∷ []) }
{
    let mut items = List::new(alloc);
    items.push(a)?;
    Ok(items)
}

fn text(alloc: Global, bytes: &[u8]) -> Result<Text, NoMemory>
    ensures { IfOk result (λ t. t ≡ bytes.now) }
{
    Ok(Text::from_vec(Vec::from_slice(alloc, bytes)?))
}

fn whole(n: i8) -> Dec
    ensures { result ≡ record { n = n; p = 0 } }
{
    Dec {
        n: i128::from(n),
        p: 0,
    }
}

// Whether the counter stands so to a number.
fn stands(rel: Rel, n: i8) -> GCond
    ensures known { IsTrue (is_known_condition 0 1 result) }
{
    GCond::Cmp(rel, GExpr::Read(0), GExpr::Const(whole(n)))
}

// x grows by 1 while it is below 2.
fn grows(alloc: Global) -> Result<Ground, NoMemory>
    ensures name { IfOk result (λ a. a.name ≡ 40 ∷ 97 ∷ 41 ∷ []) }
    ensures valid { IfOk result (IsValidAction 0 1) }
{
    Ok(Ground {
        name: text(alloc, b"(a)")?,
        pre: stands(Rel::Less, 2),
        adds: List::new(alloc),
        dels: List::new(alloc),
        nums: one(alloc, (0, Change::Add(GExpr::Const(whole(1)))))?,
    })
}

// A counter from a number on, which is to reach 5.
fn data(alloc: Global, start: i8) -> Result<RawTask, NoMemory>
    ensures valid { IfOk result IsValid }
    ensures shape { IfOk result (λ raw. (length raw.facts ≡ 0) × (length raw.fluents ≡ 1)) }
{
    Ok(RawTask {
        facts: List::new(alloc),
        fluents: one(alloc, text(alloc, b"(x)")?)?,
        true_facts: List::new(alloc),
        values: one(alloc, whole(start))?,
        actions: one(alloc, grows(alloc)?)?,
        goal: stands(Rel::GreaterEqual, 5),
    })
}

fn counter(alloc: Global, start: i8) -> Result<Task, NoMemory>
    ensures { IfOk result (λ task. (length task.raw.facts ≡ 0) × (length task.raw.fluents ≡ 1)) }
{
    let raw = data(alloc, start)?;
    match infer(alloc, raw) {
        Ok(task) => Ok(task),
        Err(_) => Err(NoMemory),
    }
}

// The initial state of a counter.
fn initial(task: &Task) -> &State
    requires { (length task.now.raw.facts ≡ 0) × (length task.now.raw.fluents ≡ 1) }
    ensures facts { length result.now.facts ≡ 0 }
    ensures values { length result.now.values ≡ 1 }
{
    task.first()
}

// The least closed box above the initial state, where the goal may not hold in it.
fn dead_box(alloc: Global, task: &Task) -> Result<StateBox, NoMemory>
    requires { (length task.now.raw.facts ≡ 0) × (length task.now.raw.fluents ≡ 1) }
    ensures { IfOk result (IsDead task.now) }
{
    let found = least_box(alloc, task, initial(task))?;
    if found.misses_goal(task) {
        Ok(found)
    } else {
        Err(NoMemory)
    }
}

// Whether a dead box contains the state.
fn finds(store: &DeadRows, seat: RowSeat, state: &State) -> (RowSeat, bool)
    requires seat { IsSeatOf store.now seat }
    requires state { IsFor (task_of store.now) state.now }
    ensures seat { IsSeatOf store.now result.0 }
    ensures claims { claims_of result.0 ≡ claims_of seat }
{
    match store.find(seat, state) {
        Ok((seat, found)) => (seat, found.is_some()),
        Err(seat) => (seat, false),
    }
}

// Publishes the box so often, and asks each time for a box with the state: whether each row came in turn, and each time
// there was one.
fn fill(
    store: &DeadRows,
    seat: RowSeat,
    dead: &StateBox,
    state: &State,
    times: u32,
) -> (RowSeat, bool)
    requires seat { IsFresh (store_id store.now) seat }
    requires dead { IsDead (task_of store.now) dead.now }
    requires state { IsFor (task_of store.now) state.now }
    ensures seat { IsSeatOf store.now result.0 }
    ensures claims { length (claims_of result.0) ≤ times }
{
    let mut seat = seat;
    'turns: for _turn in 0..times {
        let (next, placed) = store.publish(seat, dead);
        let Placed::At(_) = placed else {
            return (next, false);
        };
        let (next, found) = finds(store, next, state);
        if !found {
            return (next, false);
        }
        seat = next;
    }
    (seat, true)
}

// Each seat publishes and finds so often, on threads.
fn fill_all<R: Threads + Sync>(
    rt: &R,
    store: &DeadRows,
    seats: List<RowSeat>,
    dead: &StateBox,
    state: &State,
    times: u32,
) -> Result<Vec<(RowSeat, bool)>, NoMemory>
    requires seats { All (IsFresh (store_id store.now)) seats }
    requires dead { IsDead (task_of store.now) dead.now }
    requires state { IsFor (task_of store.now) state.now }
    ensures { IfOk result (λ all. All (λ one. IsSeatOf store.now one.0 × (length (claims_of one.0) ≤ times)) all.items) }
{
    let all = thread::map_vec(
        rt,
        seats.into_vec(),
        &|seat: RowSeat| -> (RowSeat, bool)
            requires { IsFresh (store_id store.now) seat × IsDead (task_of store.now) dead.now × IsFor (task_of store.now) state.now }
            ensures { IsSeatOf store.entry.now result.0 × (length (claims_of result.0) ≤ times) }
        { fill(store, seat, dead, state, times) },
    )?;
    Ok(all)
}

// Whether a store comes to be full, and then finds the box for the one state and none for the other.
fn fills_up(
    store: &DeadRows,
    seat: RowSeat,
    dead: &StateBox,
    inside: &State,
    outside: &State,
) -> bool
    requires seat { IsFresh (store_id store.now) seat }
    requires dead { IsDead (task_of store.now) dead.now }
    requires inside { IsFor (task_of store.now) inside.now }
    requires outside { IsFor (task_of store.now) outside.now }
{
    let (seat, filled) = fill(store, seat, dead, inside, 1024);
    let (seat, placed) = store.publish(seat, dead);
    let (seat, found) = finds(store, seat, outside);
    let (_, same) = finds_again(store, seat, dead, inside);
    filled && placed == Placed::Full(1024) && !found && same
}

// Whether the box that is found for a state is this one.
fn finds_again(store: &DeadRows, seat: RowSeat, dead: &StateBox, state: &State) -> (RowSeat, bool)
    requires seat { IsSeatOf store.now seat }
    requires state { IsFor (task_of store.now) state.now }
    ensures seat { IsSeatOf store.now result.0 }
{
    match store.find(seat, state) {
        Ok((seat, found)) => (seat, is_same(found, dead)),
        Err(seat) => (seat, false),
    }
}

fn is_same(found: Option<StateBox>, dead: &StateBox) -> bool {
    match found {
        Some(found) => found.within(dead) && dead.within(&found),
        None => false,
    }
}

// The tests let go of one large value a function: a task, another task, a box, a store.

// What holds of stores for a counter that stands at 2, beside one at 1.
fn of_counters(alloc: Global) -> Result<bool, NoMemory> {
    let task = counter(alloc, 2)?;
    beside(alloc, &task)
}

fn beside(alloc: Global, task: &Task) -> Result<bool, NoMemory>
    requires { (length task.now.raw.facts ≡ 0) × (length task.now.raw.fluents ≡ 1) }
{
    let other = counter(alloc, 1)?;
    with_box(alloc, task, initial(&other))
}

fn with_box(alloc: Global, task: &Task, outside: &State) -> Result<bool, NoMemory>
    requires task { (length task.now.raw.facts ≡ 0) × (length task.now.raw.fluents ≡ 1) }
    requires outside { IsFor task.now outside.now }
{
    let dead = dead_box(alloc, task)?;
    with_store(alloc, task, &dead, outside)
}

fn with_store(
    alloc: Global,
    task: &Task,
    dead: &StateBox,
    outside: &State,
) -> Result<bool, NoMemory>
    requires task { (length task.now.raw.facts ≡ 0) × (length task.now.raw.fluents ≡ 1) }
    requires dead { IsDead task.now dead.now }
    requires outside { IsFor task.now outside.now }
{
    let (store, seats) = DeadRows::new(alloc, task, 1)?;
    Ok(with_seats(&store, seats, dead, initial(task), outside))
}

fn with_seats(
    store: &DeadRows,
    seats: List<RowSeat>,
    dead: &StateBox,
    inside: &State,
    outside: &State,
) -> bool
    requires seats { All (IsFresh (store_id store.now)) seats }
    requires dead { IsDead (task_of store.now) dead.now }
    requires inside { IsFor (task_of store.now) inside.now }
    requires outside { IsFor (task_of store.now) outside.now }
{
    match seats.into_vec().pop() {
        Some(seat) => fills_up(store, seat, dead, inside, outside),
        None => false,
    }
}

// Sixteen seats publish and find side by side, and fill the store together.
fn with_threads<R: Threads + Sync>(
    rt: &R,
    alloc: Global,
    task: &Task,
    dead: &StateBox,
) -> Result<bool, NoMemory>
    requires task { (length task.now.raw.facts ≡ 0) × (length task.now.raw.fluents ≡ 1) }
    requires dead { IsDead task.now dead.now }
{
    let (store, seats) = DeadRows::new(alloc, task, 16)?;
    let all = fill_all(rt, &store, seats, dead, initial(task), 64)?;
    Ok(are_filled(&store, all, dead))
}

fn are_filled(store: &DeadRows, all: Vec<(RowSeat, bool)>, dead: &StateBox) -> bool
    requires seats { All (λ one. IsSeatOf store.now one.0) all.items }
    requires claims { All (λ one. length (claims_of one.0) ≤ 64) all.items }
    requires dead { IsDead (task_of store.now) dead.now }
{
    let filled = are_right(all.as_slice());
    let mut all = all;
    match all.pop() {
        Some(one) => filled && is_full(store, one.0, dead),
        None => false,
    }
}

// Whether each of these seats found what it looked for.
fn are_right(all: &[(RowSeat, bool)]) -> bool {
    all.iter().all(|one| one.1)
}

// Whether the store has no row left for a box.
fn is_full(store: &DeadRows, seat: RowSeat, dead: &StateBox) -> bool
    requires seat { IsSeatOf store.now seat }
    requires claims { length (claims_of seat) ≤ 64 }
    requires dead { IsDead (task_of store.now) dead.now }
{
    store.publish(seat, dead).1 == Placed::Full(1024)
}

fn with_threads_and_box<R: Threads + Sync>(
    rt: &R,
    alloc: Global,
    task: &Task,
) -> Result<bool, NoMemory>
    requires { (length task.now.raw.facts ≡ 0) × (length task.now.raw.fluents ≡ 1) }
{
    let dead = dead_box(alloc, task)?;
    with_threads(rt, alloc, task, &dead)
}

fn of_counter_on_threads<R: Threads + Sync>(rt: &R, alloc: Global) -> Result<bool, NoMemory> {
    let task = counter(alloc, 2)?;
    with_threads_and_box(rt, alloc, &task)
}

#[test]
fn a_store_fills_up(rt: HostRuntime) -> Result<(), Fail> {
    let right = of_counters(rt.alloc())?;
    assert!(rt; right);
    Ok(())
}

#[test]
fn sixteen_seats_publish_and_find(rt: HostRuntime) -> Result<(), Fail> {
    let right = of_counter_on_threads(&rt, rt.alloc())?;
    assert!(rt; right);
    Ok(())
}
