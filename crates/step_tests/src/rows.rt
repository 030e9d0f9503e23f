//! The first step, the goal and the places of small tasks.

ghost use Rattle.std.specs.Prelude.{◌≡◌, ◌∷◌, [], length, IfOk, IsTrue};
ghost use Rattle.ground_task.specs.Valid.{is_known_condition, is_known_expression, right_side, IsValid, IsValidAction};

use ground_task::{
    Advanced, Applied, Change, GCond, GExpr, Ground, RawTask, Rel, State, StateBuffer, Task, Truth,
};
use num_ends::{Dec, List, NoMemory, Text};
use places::{PlacesFault, infer};
use sqlite_items::{Boxed, Items};
use std::alloc::Global;
use std::test::Fail;

fn text(alloc: Global, bytes: &[u8]) -> Result<Text, NoMemory>
    ensures { IfOk result (λ t. t ≡ bytes.now) }
{
    Ok(Text::from_vec(Vec::from_slice(alloc, bytes)?))
}

fn one<T: Drop>(alloc: Global, a: T) -> Result<List<T>, NoMemory>
    ensures { IfOk result (λ l. l ≡ a ∷ []) }
{
    let mut items = List::new(alloc);
    items.push(a)?;
    Ok(items)
}

fn pair<T: Drop>(alloc: Global, a: T, b: T) -> Result<List<T>, NoMemory>
    ensures { IfOk result (λ l. l ≡ a ∷ b ∷ []) }
{
    let mut items = List::new(alloc);
    items.push(a)?;
    items.push(b)?;
    Ok(items)
}

fn texts(alloc: Global, a: &[u8], b: &[u8]) -> Result<List<Text>, NoMemory>
    ensures { IfOk result (λ l. l ≡ a.now ∷ b.now ∷ []) }
{
    pair(alloc, text(alloc, a)?, text(alloc, b)?)
}

/// It changes x and y, makes fact 0 true and fact 1 false.
fn action(alloc: Global, pre: GCond, on_x: Change, on_y: Change) -> Result<Ground, NoMemory>
    requires pre { IsTrue (is_known_condition 2 2 pre) }
    requires on_x { IsTrue (is_known_expression 2 (right_side on_x)) }
    requires on_y { IsTrue (is_known_expression 2 (right_side on_y)) }
    ensures name { IfOk result (λ a. a.name ≡ 40 ∷ 97 ∷ 41 ∷ []) }
    ensures valid { IfOk result (IsValidAction 2 2) }
{
    Ok(Ground {
        name: text(alloc, b"(a)")?,
        pre,
        adds: one(alloc, 0)?,
        dels: one(alloc, 1)?,
        nums: pair(alloc, (0, on_x), (1, on_y))?,
    })
}

/// A task over the facts p and q, of which q is true at first, the fluents x and y, and one action.
fn data(alloc: Global, x: Dec, y: Dec, action: Ground, goal: GCond) -> Result<RawTask, NoMemory>
    requires name { action.name ≡ 40 ∷ 97 ∷ 41 ∷ [] }
    requires valid { IsValidAction 2 2 action }
    requires goal { IsTrue (is_known_condition 2 2 goal) }
    ensures valid { IfOk result IsValid }
    ensures facts { IfOk result (λ raw. length raw.facts ≡ 2) }
    ensures fluents { IfOk result (λ raw. length raw.fluents ≡ 2) }
    ensures actions { IfOk result (λ raw. length raw.actions ≡ 1) }
{
    let actions = one(alloc, action)?;
    let facts = texts(alloc, b"(p)", b"(q)")?;
    let fluents = texts(alloc, b"(x)", b"(y)")?;
    let true_facts = one(alloc, 1)?;
    let values = pair(alloc, x, y)?;
    Ok(RawTask {
        facts,
        fluents,
        true_facts,
        values,
        actions,
        goal,
    })
}

/// What is seen of a task: that it has no places; or the places of x and y, the first step and whether the goal holds at
/// first.
#[derive(Clone, Copy, Debug, PartialEq, Eq)]
enum Seen {
    Unplaced(PlacesFault),
    Placed(u8, u8, Step, Truth),
    /// The step into a new state and the one into a buffer differ.
    Torn(Step, Step),
}

/// A step: that there is none, or the facts and numbers after it.
#[derive(Clone, Copy, Debug, PartialEq, Eq)]
enum Step {
    Blocked,
    Over,
    Next(bool, bool, i128, i128),
}

fn parts(state: &State) -> Step
    requires facts { length state.now.facts ≡ 2 }
    requires values { length state.now.values ≡ 2 }
{
    Step::Next(state.fact(0), state.fact(1), state.value(0), state.value(1))
}

/// The first step into a new state.
fn applied(alloc: Global, task: &Task) -> Result<Step, NoMemory>
    requires facts { length task.now.raw.facts ≡ 2 }
    requires fluents { length task.now.raw.fluents ≡ 2 }
    requires actions { length task.now.raw.actions ≡ 1 }
{
    match task.apply(alloc, task.first(), 0)? {
        Applied::Blocked => Ok(Step::Blocked),
        Applied::Over => Ok(Step::Over),
        Applied::Next(state) => Ok(parts(&state)),
    }
}

/// The first step into a buffer.
fn written(alloc: Global, task: &Task) -> Result<Step, NoMemory>
    requires facts { length task.now.raw.facts ≡ 2 }
    requires fluents { length task.now.raw.fluents ≡ 2 }
    requires actions { length task.now.raw.actions ≡ 1 }
{
    let mut buffer = StateBuffer::new(alloc, task)?;
    match task.apply_into(task.first(), 0, &mut buffer) {
        Advanced::Blocked => Ok(Step::Blocked),
        Advanced::Over => Ok(Step::Over),
        Advanced::Next => Ok(parts(buffer.state())),
    }
}

fn looked_at(alloc: Global, task: &Task) -> Result<Seen, NoMemory>
    requires facts { length task.now.raw.facts ≡ 2 }
    requires fluents { length task.now.raw.fluents ≡ 2 }
    requires actions { length task.now.raw.actions ≡ 1 }
{
    let step = applied(alloc, task)?;
    let again = written(alloc, task)?;
    if step != again {
        return Ok(Seen::Torn(step, again));
    }
    Ok(Seen::Placed(
        task.places(0),
        task.places(1),
        step,
        task.goal_in(task.first()),
    ))
}

/// What is seen of a task over two facts, two fluents and one action.
fn outcome(alloc: Global, raw: RawTask) -> Result<Seen, NoMemory>
    requires valid { IsValid raw }
    requires facts { length raw.facts ≡ 2 }
    requires fluents { length raw.fluents ≡ 2 }
    requires actions { length raw.actions ≡ 1 }
{
    match infer(alloc, raw) {
        Ok(task) => looked_at(alloc, &task),
        Err(PlacesFault::NoMemory) => Err(NoMemory),
        Err(fault) => Ok(Seen::Unplaced(fault)),
    }
}

/// What is seen where x and y have these first values, and the action has this precondition and these changes.
fn row(
    alloc: Global,
    values: (Dec, Dec),
    pre: GCond,
    changes: (Change, Change),
    goal: GCond,
) -> Result<Seen, NoMemory>
    requires pre { IsTrue (is_known_condition 2 2 pre) }
    requires on_x { IsTrue (is_known_expression 2 (right_side changes.0)) }
    requires on_y { IsTrue (is_known_expression 2 (right_side changes.1)) }
    requires goal { IsTrue (is_known_condition 2 2 goal) }
{
    let (on_x, on_y) = changes;
    let action = action(alloc, pre, on_x, on_y)?;
    let raw = data(alloc, values.0, values.1, action, goal)?;
    outcome(alloc, raw)
}

// ---- parts of tasks

fn whole(n: i8) -> Dec {
    Dec {
        n: i128::from(n),
        p: 0,
    }
}

/// 10^20, whose square leaves the range.
fn large() -> Dec {
    Dec {
        n: 100_000_000_000_000_000_000,
        p: 0,
    }
}

/// 10^38, which leaves the range at one place.
fn largest() -> Dec {
    Dec {
        n: 100_000_000_000_000_000_000_000_000_000_000_000_000,
        p: 0,
    }
}

fn tenth() -> Dec {
    Dec { n: 1, p: 1 }
}

/// 10^-9.
fn smallest() -> Dec {
    Dec { n: 1, p: 9 }
}

fn constant(value: Dec) -> GExpr
    ensures { IsTrue (is_known_expression 2 result) }
{
    GExpr::Const(value)
}

fn x() -> GExpr
    ensures { IsTrue (is_known_expression 2 result) }
{
    GExpr::Read(0)
}

fn y() -> GExpr
    ensures { IsTrue (is_known_expression 2 result) }
{
    GExpr::Read(1)
}

fn product(alloc: Global, a: GExpr, b: GExpr) -> Result<GExpr, NoMemory>
    requires a { IsTrue (is_known_expression 2 a) }
    requires b { IsTrue (is_known_expression 2 b) }
    ensures { IfOk result (λ e. IsTrue (is_known_expression 2 e)) }
{
    let a = Boxed::new(alloc, a)?;
    let b = Boxed::new(alloc, b)?;
    Ok(GExpr::Mul(a, b))
}

fn compared(rel: Rel, a: GExpr, b: GExpr) -> GCond
    requires a { IsTrue (is_known_expression 2 a) }
    requires b { IsTrue (is_known_expression 2 b) }
    ensures { IsTrue (is_known_condition 2 2 result) }
{
    GCond::Cmp(rel, a, b)
}

/// x * x <= 0.
fn square_at_most_0(alloc: Global) -> Result<GCond, NoMemory>
    ensures { IfOk result (λ c. IsTrue (is_known_condition 2 2 c)) }
{
    Ok(compared(
        Rel::LessEqual,
        product(alloc, x(), x())?,
        constant(whole(0)),
    ))
}

/// x * y * factor >= 0.
fn scaled_product(alloc: Global, factor: Dec) -> Result<GCond, NoMemory>
    ensures { IfOk result (λ c. IsTrue (is_known_condition 2 2 c)) }
{
    let xy = product(alloc, x(), y())?;
    let scaled = product(alloc, xy, constant(factor))?;
    Ok(compared(Rel::GreaterEqual, scaled, constant(whole(0))))
}

fn two(alloc: Global, a: GCond, b: GCond) -> Result<Items<GCond>, NoMemory>
    ensures { IfOk result (λ cs. cs ≡ a ∷ b ∷ []) }
{
    let mut members = Items::new(alloc);
    members.push(a)?;
    members.push(b)?;
    Ok(members)
}

fn fact(number: bool, truth: bool) -> GCond
    ensures { IsTrue (is_known_condition 2 2 result) }
{
    GCond::Fact(u32::from(number), truth)
}

fn added(value: Dec) -> Change
    ensures { IsTrue (is_known_expression 2 (right_side result)) }
{
    Change::Add(constant(value))
}

fn assigned(expr: GExpr) -> Change
    requires { IsTrue (is_known_expression 2 expr) }
    ensures { IsTrue (is_known_expression 2 (right_side result)) }
{
    Change::Set(expr)
}

// ---- rows

// All effects apply at once.
#[test]
fn swap(rt: HostRuntime) -> Result<(), Fail> {
    let alloc = rt.alloc();
    let changes = (assigned(y()), assigned(x()));
    let seen = row(
        alloc,
        (whole(1), whole(2)),
        GCond::True,
        changes,
        fact(true, true),
    )?;
    let next = Step::Next(true, false, 2, 1);
    assert_eq!(rt; seen, Seen::Placed(0, 0, next, Truth::Yes));
    Ok(())
}

#[test]
fn square_over(rt: HostRuntime) -> Result<(), Fail> {
    let alloc = rt.alloc();
    let square = product(alloc, x(), x())?;
    let changes = (assigned(square), added(whole(0)));
    let goal = square_at_most_0(alloc)?;
    let seen = row(alloc, (large(), whole(0)), GCond::True, changes, goal)?;
    assert_eq!(rt; seen, Seen::Placed(0, 0, Step::Over, Truth::Over));
    Ok(())
}

// 0 times a fluent is 0.
#[test]
fn zero_times_a_fluent(rt: HostRuntime) -> Result<(), Fail> {
    let alloc = rt.alloc();
    let zero = product(alloc, constant(whole(0)), y())?;
    let pre = compared(Rel::Greater, zero, constant(whole(0)));
    let changes = (added(whole(1)), added(whole(1)));
    let seen = row(alloc, (whole(0), whole(7)), pre, changes, fact(false, true))?;
    assert_eq!(rt; seen, Seen::Placed(0, 0, Step::Blocked, Truth::No));
    Ok(())
}

// Each halving would need a further place.
#[test]
fn half_has_no_places(rt: HostRuntime) -> Result<(), Fail> {
    let alloc = rt.alloc();
    let half = product(alloc, constant(Dec { n: 5, p: 1 }), x())?;
    let changes = (assigned(half), added(whole(0)));
    let seen = row(
        alloc,
        (whole(1), whole(0)),
        GCond::True,
        changes,
        GCond::True,
    )?;
    assert_eq!(rt; seen, Seen::Unplaced(PlacesFault::Fluent(0)));
    Ok(())
}

#[test]
fn tenth_has_one_place(rt: HostRuntime) -> Result<(), Fail> {
    let alloc = rt.alloc();
    let pre = compared(Rel::Less, x(), constant(whole(3)));
    let changes = (added(tenth()), assigned(x()));
    let seen = row(alloc, (whole(2), whole(0)), pre, changes, GCond::True)?;
    let next = Step::Next(true, false, 21, 20);
    assert_eq!(rt; seen, Seen::Placed(1, 1, next, Truth::Yes));
    Ok(())
}

#[test]
fn first_value_out_of_range(rt: HostRuntime) -> Result<(), Fail> {
    let alloc = rt.alloc();
    let changes = (added(tenth()), added(whole(0)));
    let seen = row(
        alloc,
        (largest(), whole(0)),
        GCond::True,
        changes,
        GCond::True,
    )?;
    assert_eq!(rt; seen, Seen::Unplaced(PlacesFault::Range(0)));
    Ok(())
}

// Both sides of a comparison are brought to the larger places, and the constant leaves the range there.
#[test]
fn aligned_side_over(rt: HostRuntime) -> Result<(), Fail> {
    let alloc = rt.alloc();
    let pre = compared(Rel::Less, x(), constant(largest()));
    let changes = (added(whole(1)), added(whole(0)));
    let seen = row(alloc, (tenth(), whole(0)), pre, changes, GCond::True)?;
    assert_eq!(rt; seen, Seen::Placed(1, 0, Step::Over, Truth::Yes));
    Ok(())
}

// No comparison is skipped, also where another member decides.
#[test]
fn decided_or_over(rt: HostRuntime) -> Result<(), Fail> {
    let alloc = rt.alloc();
    let pre = GCond::Or(two(alloc, fact(true, true), square_at_most_0(alloc)?)?);
    let changes = (added(whole(1)), added(whole(0)));
    let seen = row(alloc, (large(), whole(0)), pre, changes, GCond::True)?;
    assert_eq!(rt; seen, Seen::Placed(0, 0, Step::Over, Truth::Yes));
    Ok(())
}

// A false literal blocks before a comparison is looked at.
#[test]
fn false_literal_first(rt: HostRuntime) -> Result<(), Fail> {
    let alloc = rt.alloc();
    let pre = GCond::And(two(alloc, square_at_most_0(alloc)?, fact(false, true))?);
    let changes = (added(whole(1)), added(whole(0)));
    let seen = row(alloc, (large(), whole(0)), pre, changes, GCond::True)?;
    assert_eq!(rt; seen, Seen::Placed(0, 0, Step::Blocked, Truth::Yes));
    Ok(())
}

// 18 places are taken, 19 aren't.
#[test]
fn eighteen_places(rt: HostRuntime) -> Result<(), Fail> {
    let alloc = rt.alloc();
    let pre = scaled_product(alloc, whole(10))?;
    let changes = (added(whole(1)), added(whole(0)));
    let seen = row(alloc, (smallest(), smallest()), pre, changes, GCond::True)?;
    let next = Step::Next(true, false, 1_000_000_001, 1);
    assert_eq!(rt; seen, Seen::Placed(9, 9, next, Truth::Yes));
    Ok(())
}

#[test]
fn nineteen_places_of_an_action(rt: HostRuntime) -> Result<(), Fail> {
    let alloc = rt.alloc();
    let pre = scaled_product(alloc, tenth())?;
    let changes = (added(whole(1)), added(whole(0)));
    let seen = row(alloc, (smallest(), smallest()), pre, changes, GCond::True)?;
    assert_eq!(rt; seen, Seen::Unplaced(PlacesFault::Action(0)));
    Ok(())
}

#[test]
fn nineteen_places_of_the_goal(rt: HostRuntime) -> Result<(), Fail> {
    let alloc = rt.alloc();
    let goal = scaled_product(alloc, tenth())?;
    let changes = (added(whole(1)), added(whole(0)));
    let seen = row(alloc, (smallest(), smallest()), GCond::True, changes, goal)?;
    assert_eq!(rt; seen, Seen::Unplaced(PlacesFault::Goal));
    Ok(())
}

// ---- numbers of more than 64 bits

#[test]
fn number_outgrows_a_word(rt: HostRuntime) -> Result<(), Fail> {
    let alloc = rt.alloc();
    let changes = (assigned(constant(large())), added(whole(1)));
    let seen = row(
        alloc,
        (whole(5), whole(-3)),
        GCond::True,
        changes,
        GCond::True,
    )?;
    let next = Step::Next(true, false, 100_000_000_000_000_000_000, -2);
    assert_eq!(rt; seen, Seen::Placed(0, 0, next, Truth::Yes));
    Ok(())
}

#[test]
fn number_fits_a_word_again(rt: HostRuntime) -> Result<(), Fail> {
    let alloc = rt.alloc();
    let changes = (assigned(constant(whole(5))), added(whole(1)));
    let seen = row(
        alloc,
        (large(), whole(-3)),
        GCond::True,
        changes,
        GCond::True,
    )?;
    let next = Step::Next(true, false, 5, -2);
    assert_eq!(rt; seen, Seen::Placed(0, 0, next, Truth::Yes));
    Ok(())
}

#[test]
fn number_stays_above_a_word(rt: HostRuntime) -> Result<(), Fail> {
    let alloc = rt.alloc();
    let changes = (added(whole(-1)), added(whole(1)));
    let seen = row(
        alloc,
        (large(), whole(-3)),
        GCond::True,
        changes,
        GCond::True,
    )?;
    let next = Step::Next(true, false, 99_999_999_999_999_999_999, -2);
    assert_eq!(rt; seen, Seen::Placed(0, 0, next, Truth::Yes));
    Ok(())
}
