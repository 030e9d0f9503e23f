//! The least boxes of small tasks with decimals, their lines, and what else the calls of boxes tell of them.

ghost use Rattle.std.specs.Prelude.{◌≡◌, ◌<◌, ◌∷◌, [], length, IfOk, IsTrue};
ghost use Rattle.ground_task.specs.Valid.{is_known_condition, is_known_expression, right_side, IsValid, IsValidAction};

use box_model::{StateBox, cap_under};
use cert_text::write_box;
use ground_task::{Change, GCond, GExpr, Ground, RawTask, Rel, Task};
use num_ends::{Dec, End, Interval, List, NoMemory, Text};
use places::infer;
use relax_plain::least_box;
use sqlite_items::Boxed;
use std::alloc::Global;
use std::test::Fail;

/// A right-hand side: a number of tenths, a fluent, or the sum of both fluents.
#[derive(Clone, Copy)]
enum Value {
    Tenths(i8),
    X,
    Y,
    Sum,
}

/// A change of x.
#[derive(Clone, Copy)]
enum Step {
    Add(Value),
    Set(Value),
}

/// A task over x and y, which both have one decimal place: one action changes x under a guard, and another sets y to 0.7
/// where x is at least `needed` tenths.
#[derive(Clone, Copy)]
struct Row {
    start: i8,
    guard: Option<(Rel, i8)>,
    step: Step,
    needed: i8,
}

/// What the calls tell of a task's box of the initial state alone, and of its least closed box.
#[derive(Drop)]
struct Examined {
    line: List<u8>,
    cap: Option<End>,
    alone_is_closed: bool,
    least_is_closed: bool,
    contains_initial: bool,
    alone_within_least: bool,
    least_within_alone: bool,
}

pub(crate) fn text(alloc: Global, bytes: &[u8]) -> Result<Text, NoMemory>
    ensures { IfOk result (λ t. t ≡ bytes.now) }
{
    Ok(Text::from_vec(Vec::from_slice(alloc, bytes)?))
}

pub(crate) fn pair<T: Drop>(alloc: Global, a: T, b: T) -> Result<List<T>, NoMemory>
    ensures { IfOk result (λ l. l ≡ a ∷ b ∷ []) }
{
    let mut items = List::new(alloc);
    items.push(a)?;
    items.push(b)?;
    Ok(items)
}

pub(crate) fn one<T: Drop>(alloc: Global, a: T) -> Result<List<T>, NoMemory>
    ensures { IfOk result (λ l. l ≡ a ∷ []) }
{
    let mut items = List::new(alloc);
    items.push(a)?;
    Ok(items)
}

pub(crate) fn tenths(n: i8) -> Dec
    ensures { result ≡ record { n = n; p = 1 } }
{
    Dec {
        n: i128::from(n),
        p: 1,
    }
}

fn sum(alloc: Global) -> Result<GExpr, NoMemory>
    ensures known { IfOk result (λ e. IsTrue (is_known_expression 2 e)) }
{
    let x = Boxed::new(alloc, GExpr::Read(0))?;
    let y = Boxed::new(alloc, GExpr::Read(1))?;
    Ok(GExpr::Add(x, y))
}

fn expression(alloc: Global, value: Value) -> Result<GExpr, NoMemory>
    ensures known { IfOk result (λ e. IsTrue (is_known_expression 2 e)) }
{
    match value {
        Value::Tenths(n) => Ok(GExpr::Const(tenths(n))),
        Value::X => Ok(GExpr::Read(0)),
        Value::Y => Ok(GExpr::Read(1)),
        Value::Sum => sum(alloc),
    }
}

fn guard(bound: Option<(Rel, i8)>) -> GCond
    ensures known { IsTrue (is_known_condition 0 2 result) }
{
    match bound {
        Some((rel, k)) => GCond::Cmp(rel, GExpr::Read(0), GExpr::Const(tenths(k))),
        None => GCond::True,
    }
}

fn change(alloc: Global, step: Step) -> Result<Change, NoMemory>
    ensures known { IfOk result (λ c. IsTrue (is_known_expression 2 (right_side c))) }
{
    match step {
        Step::Add(value) => Ok(Change::Add(expression(alloc, value)?)),
        Step::Set(value) => Ok(Change::Set(expression(alloc, value)?)),
    }
}

fn action(
    alloc: Global,
    name: &[u8],
    bound: Option<(Rel, i8)>,
    fluent: u32,
    step: Step,
) -> Result<Ground, NoMemory>
    requires known { fluent < 2 }
    ensures name { IfOk result (λ a. a.name ≡ name.now) }
    ensures valid { IfOk result (IsValidAction 0 2) }
{
    let change = change(alloc, step)?;
    Ok(Ground {
        name: text(alloc, name)?,
        pre: guard(bound),
        adds: List::new(alloc),
        dels: List::new(alloc),
        nums: one(alloc, (fluent, change))?,
    })
}

fn data(alloc: Global, row: Row) -> Result<RawTask, NoMemory>
    ensures valid { IfOk result IsValid }
    ensures fluents { IfOk result (λ raw. length raw.fluents ≡ 2) }
{
    let moves = action(alloc, b"(a)", row.guard, 0, row.step)?;
    let follows = action(
        alloc,
        b"(b)",
        Some((Rel::GreaterEqual, row.needed)),
        1,
        Step::Set(Value::Tenths(7)),
    )?;
    Ok(RawTask {
        facts: List::new(alloc),
        fluents: pair(alloc, text(alloc, b"(x)")?, text(alloc, b"(y)")?)?,
        true_facts: List::new(alloc),
        values: pair(alloc, tenths(row.start), tenths(0))?,
        actions: pair(alloc, moves, follows)?,
        goal: guard(None),
    })
}

fn task(alloc: Global, row: Row) -> Result<Task, NoMemory>
    ensures { IfOk result (λ t. length t.raw.fluents ≡ 2) }
{
    let raw = data(alloc, row)?;
    match infer(alloc, raw) {
        Ok(task) => Ok(task),
        Err(_) => Err(NoMemory),
    }
}

/// The end that caps the change of x.
fn cap(
    alloc: Global,
    task: &Task,
    bound: Option<(Rel, i8)>,
    step: Step,
) -> Result<Option<End>, NoMemory>
    requires { length task.now.raw.fluents ≡ 2 }
{
    let change = change(alloc, step)?;
    Ok(cap_under(task, &guard(bound), 0, &change))
}

fn examine(alloc: Global, task: &Task, cap: Option<End>) -> Result<Examined, NoMemory> {
    let initial = task.first();
    let alone = StateBox::around(alloc, task, initial)?;
    let least = least_box(alloc, task, initial)?;
    let mut line = List::new(alloc);
    write_box(alloc, task, &least, &mut line)?;
    Ok(Examined {
        line,
        cap,
        alone_is_closed: alone.first_unmet(task).is_none(),
        least_is_closed: least.first_unmet(task).is_none(),
        contains_initial: least.contains(task, initial),
        alone_within_least: alone.within(&least),
        least_within_alone: least.within(&alone),
    })
}

/// Lets a task go.
pub(crate) fn discard(_task: Task) {}

fn examine_row(alloc: Global, row: Row) -> Result<Examined, NoMemory> {
    let bound = row.guard;
    let step = row.step;
    let task = task(alloc, row)?;
    let found = match cap(alloc, &task, bound, step) {
        Ok(cap) => examine(alloc, &task, cap),
        Err(NoMemory) => Err(NoMemory),
    };
    discard(task);
    found
}

pub(crate) fn is_interval(found: Option<Interval>, wanted: Option<Interval>) -> bool {
    match (found, wanted) {
        (Some(found), Some(wanted)) => found.within(wanted) && wanted.within(found),
        _ => false,
    }
}

/// Whether there is an end, and it is open at so many tenths.
fn is_open_at(end: Option<End>, n: i8) -> bool {
    match end {
        Some(end) => is_interval(
            Interval::of(End::NegInf, end),
            Interval::of(End::NegInf, End::Excl(tenths(n))),
        ),
        None => false,
    }
}

// Whether the calls tell this line, and that the box is closed, contains the initial state, and is as wide as it has to be.
fn is_right(found: &Examined, line: &[u8]) -> bool {
    found.line.as_slice() == line
        && found.least_is_closed
        && found.contains_initial
        && found.alone_within_least
        && found.alone_is_closed == found.least_within_alone
}

// A guard caps a growth by a constant, without one it is infinite; an assigned constant is joined; a fluent that grows by
// another one, or is assigned one, has infinite ends where that may lie past its own; what x reaches lets the second action
// in, or doesn't, and what y then is widens x.
#[test]
fn least_boxes(rt: HostRuntime) -> Result<(), Fail> {
    use Step::{Add, Set};
    use Value::{Sum, Tenths, X, Y};
    let alloc = rt.alloc();
    let below_2: Option<(Rel, i8)> = Some((Rel::Less, 20));
    let rows: [((i8, Option<(Rel, i8)>, Step, i8), &[u8]); 10] = [
        (
            (0, below_2, Add(Tenths(10)), 20),
            b"box (x)=[0,3) (y)=[0,0.7]\n",
        ),
        (
            (1, below_2, Add(Tenths(11)), 31),
            b"box (x)=[0.1,3.1) (y)=[0,0]\n",
        ),
        (
            (50, Some((Rel::Greater, 10)), Add(Tenths(-20)), 60),
            b"box (x)=(-1,5] (y)=[0,0]\n",
        ),
        (
            (0, None, Add(Tenths(1)), 100),
            b"box (x)=[0,inf) (y)=[0,0.7]\n",
        ),
        (
            (3, None, Set(Tenths(5)), 5),
            b"box (x)=[0.3,0.5] (y)=[0,0.7]\n",
        ),
        ((0, below_2, Add(Y), 0), b"box (x)=[0,inf) (y)=[0,0.7]\n"),
        ((0, below_2, Add(Y), 1), b"box (x)=[0,0] (y)=[0,0]\n"),
        ((0, None, Set(Y), 0), b"box (x)=(-inf,inf) (y)=[0,0.7]\n"),
        ((0, None, Set(Sum), 0), b"box (x)=(-inf,inf) (y)=[0,0.7]\n"),
        ((-1, None, Add(X), 0), b"box (x)=(-inf,-0.1] (y)=[0,0]\n"),
    ];
    for (i, ((start, guard, step, needed), line)) in rows.iter().enumerate() {
        let row = Row {
            start: *start,
            guard: *guard,
            step: *step,
            needed: *needed,
        };
        let found = examine_row(alloc, row)?;
        assert!(rt; is_right(&found, line), "row {i}");
        assert!(rt; is_open_at(found.cap, 30) == (i == 0), "cap of row {i}");
        assert!(rt; is_open_at(found.cap, 31) == (i == 1), "cap of row {i}");
    }
    Ok(())
}
