//! The caps of effects under two bounds, and the boxes to which they lead.

ghost use Rattle.std.specs.Prelude.{◌≡◌, ◌∷◌, [], length, IfOk, IsTrue};
ghost use Rattle.box_model.specs.Boxes.{IsBoxOf};
ghost use Rattle.ground_task.specs.Valid.{is_known_condition, is_known_expression, IsValid, IsValidAction};

use crate::relaxations::{discard, is_interval, one, pair, tenths, text};
use box_model::{StateBox, cap_of};
use cert_text::write_box;
use ground_task::{Applied, Change, GCond, GExpr, Ground, RawTask, Rel, Task};
use num_ends::{Dec, End, Interval, List, NoMemory, Text};
use places::infer;
use relax_plain::least_box;
use sqlite_items::Items;
use std::alloc::Global;
use std::test::Fail;

/// A task over the facts p and q, of which q is true at first, and the fluent x: its one action makes p true and q false and
/// adds a number to x, where x stands so to a first number and a second number stands so to x.
#[derive(Clone, Copy)]
struct Row {
    start: Dec,
    gain: Dec,
    first: (Rel, Dec),
    second: (Rel, Dec),
}

/// What the calls tell of a task: the cap of its effect, the line of its least closed box, the first unmet action in the box of
/// the initial state alone and in the least one, and whether these boxes contain the next state, where there is one.
#[derive(Drop)]
struct Examined {
    cap: Option<End>,
    line: List<u8>,
    unmet_alone: Option<u32>,
    unmet_in_least: Option<u32>,
    next_contained: Option<(bool, bool)>,
}

fn both(alloc: Global, a: GCond, b: GCond) -> Result<Items<GCond>, NoMemory>
    ensures { IfOk result (λ cs. cs ≡ a ∷ b ∷ []) }
{
    let mut members = Items::new(alloc);
    members.push(a)?;
    members.push(b)?;
    Ok(members)
}

fn compared(rel: Rel, left: GExpr, right: GExpr) -> GCond
    requires left { IsTrue (is_known_expression 1 left) }
    requires right { IsTrue (is_known_expression 1 right) }
    ensures { IsTrue (is_known_condition 2 1 result) }
{
    GCond::Cmp(rel, left, right)
}

fn x() -> GExpr
    ensures { IsTrue (is_known_expression 1 result) }
{
    GExpr::Read(0)
}

fn constant(value: Dec) -> GExpr
    ensures { IsTrue (is_known_expression 1 result) }
{
    GExpr::Const(value)
}

fn guard(alloc: Global, first: (Rel, Dec), second: (Rel, Dec)) -> Result<GCond, NoMemory>
    ensures { IfOk result (λ c. IsTrue (is_known_condition 2 1 c)) }
{
    let before = compared(first.0, x(), constant(first.1));
    let behind = compared(second.0, constant(second.1), x());
    Ok(GCond::And(both(alloc, before, behind)?))
}

fn action(alloc: Global, row: Row) -> Result<Ground, NoMemory>
    ensures name { IfOk result (λ a. a.name ≡ 40 ∷ 97 ∷ 41 ∷ []) }
    ensures valid { IfOk result (IsValidAction 2 1) }
{
    let pre = guard(alloc, row.first, row.second)?;
    Ok(Ground {
        name: text(alloc, b"(a)")?,
        pre,
        adds: one(alloc, 0)?,
        dels: one(alloc, 1)?,
        nums: one(alloc, (0, Change::Add(constant(row.gain))))?,
    })
}

fn facts(alloc: Global) -> Result<List<Text>, NoMemory>
    ensures { IfOk result (λ l. l ≡ (40 ∷ 112 ∷ 41 ∷ []) ∷ (40 ∷ 113 ∷ 41 ∷ []) ∷ []) }
{
    let p = text(alloc, b"(p)")?;
    let q = text(alloc, b"(q)")?;
    pair(alloc, p, q)
}

fn fluents(alloc: Global) -> Result<List<Text>, NoMemory>
    ensures { IfOk result (λ l. l ≡ (40 ∷ 120 ∷ 41 ∷ []) ∷ []) }
{
    let x = text(alloc, b"(x)")?;
    one(alloc, x)
}

fn data(alloc: Global, row: Row) -> Result<RawTask, NoMemory>
    ensures valid { IfOk result IsValid }
    ensures actions { IfOk result (λ raw. length raw.actions ≡ 1) }
{
    let start = row.start;
    let action = action(alloc, row)?;
    let actions = one(alloc, action)?;
    let facts = facts(alloc)?;
    let fluents = fluents(alloc)?;
    let true_facts = one(alloc, 1)?;
    let values = one(alloc, start)?;
    Ok(RawTask {
        facts,
        fluents,
        true_facts,
        values,
        actions,
        goal: GCond::True,
    })
}

fn task(alloc: Global, row: Row) -> Result<Task, NoMemory>
    ensures { IfOk result (λ t. length t.raw.actions ≡ 1) }
{
    let raw = data(alloc, row)?;
    match infer(alloc, raw) {
        Ok(task) => Ok(task),
        Err(_) => Err(NoMemory),
    }
}

// The cap of the first effect of the action, where it has effects.
fn cap(task: &Task) -> Option<End>
    requires { length task.now.raw.actions ≡ 1 }
{
    if task.raw().actions.as_slice()[0].nums.len() == 0 {
        return None;
    }
    cap_of(task, 0, 0)
}

// Whether two boxes contain the state that the action makes of the initial one.
fn contain_next(
    alloc: Global,
    task: &Task,
    one: &StateBox,
    other: &StateBox,
) -> Result<Option<(bool, bool)>, NoMemory>
    requires action { length task.now.raw.actions ≡ 1 }
    requires one { IsBoxOf task.now one.now }
    requires other { IsBoxOf task.now other.now }
{
    match task.apply(alloc, task.first(), 0)? {
        Applied::Next(state) => {
            Ok(Some((one.contains(task, &state), other.contains(task, &state))))
        }
        _ => Ok(None),
    }
}

fn examine(alloc: Global, task: &Task) -> Result<Examined, NoMemory>
    requires { length task.now.raw.actions ≡ 1 }
{
    let alone = StateBox::around(alloc, task, task.first())?;
    let least = least_box(alloc, task, task.first())?;
    let mut line = List::new(alloc);
    write_box(alloc, task, &least, &mut line)?;
    Ok(Examined {
        cap: cap(task),
        line,
        unmet_alone: alone.first_unmet(task),
        unmet_in_least: least.first_unmet(task),
        next_contained: contain_next(alloc, task, &alone, &least)?,
    })
}

fn examine_row(alloc: Global, row: Row) -> Result<Examined, NoMemory> {
    let task = task(alloc, row)?;
    let found = examine(alloc, &task);
    discard(task);
    found
}

// The values up to an end, or down to it.
fn reach(end: End, gain: Dec) -> Option<Interval> {
    if gain.n < 0 {
        Interval::of(end, End::PosInf)
    } else {
        Interval::of(End::NegInf, end)
    }
}

fn is_cap(found: Option<End>, wanted: Option<End>, gain: Dec) -> bool {
    match (found, wanted) {
        (Some(found), Some(wanted)) => is_interval(reach(found, gain), reach(wanted, gain)),
        (None, None) => true,
        _ => false,
    }
}

// Whether the calls tell this line, that the least box is closed, and, where the action is applicable, that the box of the
// initial state isn't and that the next state lies in the least box alone.
fn is_right(found: &Examined, line: &[u8], is_applicable: bool) -> bool {
    let (unmet, next) = if is_applicable {
        (Some(0), Some((false, true)))
    } else {
        (None, None)
    };
    found.line.as_slice() == line
        && found.unmet_in_least.is_none()
        && found.unmet_alone == unmet
        && found.next_contained == next
}

/// 2^127 - 1.
fn greatest() -> Dec {
    Dec {
        n: 170_141_183_460_469_231_731_687_303_715_884_105_727,
        p: 0,
    }
}

fn whole(n: i8) -> Dec {
    Dec {
        n: i128::from(n),
        p: 0,
    }
}

// Of two bounds the tighter one counts, and where they are equal the strict one; a bound from the other side is none, nor is one
// with more places than the fluent has, or one from which the gain leads out of the range. A number that adds nothing has no
// cap. What an applicable action makes true may be both in the least box, and what it makes false too.
#[test]
fn caps_of_two_bounds(rt: HostRuntime) -> Result<(), Fail> {
    use Rel::{Equal, Greater, GreaterEqual, Less, LessEqual};
    let alloc = rt.alloc();
    let (one, two, three) = (whole(1), whole(2), whole(3));
    let half_past = tenths(15);
    let rows: [((Dec, Dec, (Rel, Dec), (Rel, Dec)), Option<End>, &[u8], bool); 11] = [
        (
            (tenths(1), one, (Less, two), (GreaterEqual, half_past)),
            Some(End::Incl(tenths(25))),
            b"box (p)=any (q)=any (x)=[0.1,2.5]\n",
            true,
        ),
        (
            (whole(0), one, (LessEqual, two), (Greater, two)),
            Some(End::Excl(three)),
            b"box (p)=any (q)=any (x)=[0,3)\n",
            true,
        ),
        (
            (tenths(1), one, (Equal, half_past), (Greater, two)),
            Some(End::Incl(tenths(25))),
            b"box (p)=false (q)=true (x)=[0.1,0.1]\n",
            false,
        ),
        (
            (half_past, one, (Equal, half_past), (Greater, two)),
            Some(End::Incl(tenths(25))),
            b"box (p)=any (q)=any (x)=[1.5,2.5]\n",
            true,
        ),
        (
            (whole(5), whole(-2), (GreaterEqual, one), (Less, one)),
            Some(End::Excl(whole(-1))),
            b"box (p)=any (q)=any (x)=(-1,5]\n",
            true,
        ),
        (
            (whole(5), whole(-2), (Greater, one), (LessEqual, two)),
            Some(End::Incl(whole(0))),
            b"box (p)=any (q)=any (x)=[0,5]\n",
            true,
        ),
        (
            (whole(0), whole(0), (Less, two), (Greater, two)),
            None,
            b"box (p)=any (q)=any (x)=[0,0]\n",
            true,
        ),
        (
            (whole(5), one, (Greater, one), (LessEqual, one)),
            None,
            b"box (p)=any (q)=any (x)=[5,inf)\n",
            true,
        ),
        (
            (whole(0), one, (Less, half_past), (GreaterEqual, two)),
            Some(End::Incl(three)),
            b"box (p)=any (q)=any (x)=[0,3]\n",
            true,
        ),
        (
            (
                whole(5),
                one,
                (LessEqual, greatest()),
                (GreaterEqual, whole(7)),
            ),
            Some(End::Incl(whole(8))),
            b"box (p)=any (q)=any (x)=[5,8]\n",
            true,
        ),
        (
            (whole(5), one, (LessEqual, greatest()), (Greater, whole(5))),
            Some(End::Excl(whole(6))),
            b"box (p)=false (q)=true (x)=[5,5]\n",
            false,
        ),
    ];
    for (i, ((start, gain, first, second), cap, line, is_applicable)) in rows.iter().enumerate() {
        let row = Row {
            start: *start,
            gain: *gain,
            first: *first,
            second: *second,
        };
        let found = examine_row(alloc, row)?;
        assert!(rt; is_right(&found, line, *is_applicable), "row {i}");
        assert!(rt; is_cap(found.cap, *cap, *gain), "cap of row {i}");
    }
    Ok(())
}
