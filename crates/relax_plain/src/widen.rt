//! The least wider box that meets what an action demands, with marks on the actions that read what has widened.

ghost use Rattle.std.specs.Prelude.{◌≡◌, ◌<◌, ◌==◌, ◌||◌, length, true, false, slice_get, slice_index_or, slice_set, Some, IsTrue};
ghost use Rattle.std.specs.List.{list_all, list_any};
ghost use Rattle.num_ends.specs.Ends.{hull_of, is_inhabited, is_within, lower_hull, upper_hull};
ghost use Rattle.ground_task.specs.Placed.{IsPlacedAction};
ghost use Rattle.ground_task.specs.Valid.{IsValidAction};
ghost use Rattle.box_model.specs.Boxes.{fact_in, fluent_in, may_be, AreEndsFor, IsBoxOf, LiesWithin};
ghost use Rattle.box_model.specs.Demands.{is_closed, is_unmet, meets_change};
ghost use Rattle.box_model.specs.declared.state_box.StateBox.{StateBox};
ghost use Rattle.ground_task.specs.declared.raw.Ground.{Ground};
ghost use Rattle.relax_plain.specs.Marks.{is_marked};
ghost use Rattle.relax_plain.specs.Potential.{potential};
ghost use Rattle.relax_plain.specs.Reads.{AreReaders};
ghost use Rattle.relax_plain.specs.Spread.{IsApplied, IsSpread};

use crate::marks::Marks;
use crate::readers::Readers;
use box_model::{May, StateBox};
use ground_task::{Ground, Task};
use num_ends::{End, Interval, List};

/// Whether a fact is listed.
fn is_listed(facts: &[u32], fact: u32) -> bool
    ensures { result ≡ list_any (λ g. g == fact) facts.now }
{
    facts.iter().any(|listed| *listed == fact)
}

/// The further out of two lower ends.
fn outer_lower(a: End, b: End) -> End
    ensures { result ≡ lower_hull a b }
{
    if a.lower_covers(&b) { a } else { b }
}

/// The further out of two upper ends.
fn outer_upper(a: End, b: End) -> End
    ensures { result ≡ upper_hull a b }
{
    if a.upper_covers(&b) { a } else { b }
}

/// The interval with each end at least as far out as these.
fn reached(interval: &Interval, lower: &End, upper: &End) -> Interval
    requires inhabited { IsTrue (is_inhabited interval.now.0 interval.now.1) }
    ensures { result ≡ hull_of interval.now (lower.now, upper.now) }
{
    match Interval::of(
        outer_lower(interval.lower(), *lower),
        outer_upper(interval.upper(), *upper),
    ) {
        Some(wider) => wider,
        None => *interval,
    }
}

/// The interval of a fluent.
fn interval_of(state_box: &StateBox, fluent: u32) -> Interval
    ensures { result ≡ fluent_in state_box.now fluent }
{
    match state_box.fluents.as_slice().get(fluent as usize) {
        Some(interval) => *interval,
        None => Interval::whole(),
    }
}

/// Whether each end is at least as far out as these.
fn reaches(interval: &Interval, lower: &End, upper: &End) -> bool
    ensures { result ≡ is_within (lower.now, upper.now) interval.now }
{
    interval.lower().lower_covers(lower) && interval.upper().upper_covers(upper)
}

/// The box in which a fact may have either truth value.
fn with_any(state_box: StateBox, fact: u32) -> StateBox
    requires known { fact < length state_box.facts }
    ensures { result ≡ record { facts = slice_set state_box.facts fact May.Any; fluents = state_box.fluents } }
{
    let StateBox { facts, fluents } = state_box;
    let mut facts = facts.into_vec();
    facts[fact as usize] = May::Any;
    StateBox {
        facts: List::from_vec(facts),
        fluents,
    }
}

/// The box in which a fluent has this interval.
fn with_interval(state_box: StateBox, fluent: u32, interval: Interval) -> StateBox
    requires known { fluent < length state_box.fluents }
    ensures { result ≡ record { facts = state_box.facts; fluents = slice_set state_box.fluents fluent interval } }
{
    let StateBox { facts, fluents } = state_box;
    let mut fluents = fluents.into_vec();
    fluents[fluent as usize] = interval;
    StateBox {
        facts,
        fluents: List::from_vec(fluents),
    }
}

/// Lets a fact have this truth value too, and marks the readers of the fact where it couldn't have it.
fn admit(
    task: &Task,
    readers: &Readers,
    marks: &mut Marks,
    state_box: StateBox,
    fact: u32,
    truth: bool,
) -> StateBox
    requires readers { AreReaders task.now readers.now.facts.items readers.now.fluents.items }
    requires a_box { IsBoxOf task.now state_box }
    requires as_many { length marks.old ≡ length task.now.raw.actions }
    requires known { fact < length task.now.raw.facts }
    requires asked { (c : StateBox) → IsBoxOf task.now c → LiesWithin state_box c → IsTrue (is_closed task.now c) → IsTrue (may_be (fact_in c fact) truth) }
    requires progress { (c : StateBox) → LiesWithin state_box c → may_be (fact_in state_box fact) truth ≡ false → may_be (fact_in c fact) truth ≡ true → potential task.now c < potential task.now state_box }
    ensures spread { IsSpread task.now state_box marks.old result marks.new }
    ensures admitted { IsTrue (may_be (fact_in result fact) truth) }
{
    let may = state_box.facts.as_slice()[fact as usize];
    if may.may_be(truth) {
        return state_box;
    }
    marks.set_all(readers.facts[fact as usize].as_slice());
    with_any(state_box, fact)
}

/// Lets a fluent's interval reach these ends, and marks the readers of the fluent where it didn't.
fn extend(
    task: &Task,
    readers: &Readers,
    marks: &mut Marks,
    state_box: StateBox,
    fluent: u32,
    lower: End,
    upper: End,
) -> StateBox
    requires readers { AreReaders task.now readers.now.facts.items readers.now.fluents.items }
    requires a_box { IsBoxOf task.now state_box }
    requires as_many { length marks.old ≡ length task.now.raw.actions }
    requires known { fluent < length task.now.raw.fluents }
    requires fits { AreEndsFor (slice_index_or task.now.places fluent 0) (lower, upper) }
    requires asked { (c : StateBox) → IsBoxOf task.now c → LiesWithin state_box c → IsTrue (is_closed task.now c) → IsTrue (is_within (lower, upper) (fluent_in c fluent)) }
    requires progress { (c : StateBox) → LiesWithin state_box c → is_within (lower, upper) (fluent_in state_box fluent) ≡ false → is_within (lower, upper) (fluent_in c fluent) ≡ true → potential task.now c < potential task.now state_box }
    ensures spread { IsSpread task.now state_box marks.old result marks.new }
    ensures extended { IsTrue (is_within (lower, upper) (fluent_in result fluent)) }
{
    let interval = interval_of(&state_box, fluent);
    if reaches(&interval, &lower, &upper) {
        return state_box;
    }
    marks.set_all(readers.fluents[fluent as usize].as_slice());
    with_interval(state_box, fluent, reached(&interval, &lower, &upper))
}

/// Lets the facts that an action adds be true.
fn with_added(
    task: &Task,
    readers: &Readers,
    marks: &mut Marks,
    number: usize,
    action: &Ground,
    state_box: StateBox,
) -> StateBox
    requires readers { AreReaders task.now readers.now.facts.items readers.now.fluents.items }
    requires a_box { IsBoxOf task.now state_box }
    requires as_many { length marks.old ≡ length task.now.raw.actions }
    requires valid { IsValidAction (length task.now.raw.facts) (length task.now.raw.fluents) action.now }
    requires applied { IsApplied task.now number action.now state_box }
    ensures spread { IsSpread task.now state_box marks.old result marks.new }
    ensures added { IsTrue (list_all (λ f. may_be (fact_in result f) true) action.now.adds) }
{
    let mut wider = state_box;
    'each: for fact in action.adds.as_slice() {
        wider = admit(task, readers, marks, wider, *fact, true);
    }
    wider
}

/// Lets the facts that an action deletes, and doesn't add, be false.
fn with_deleted(
    task: &Task,
    readers: &Readers,
    marks: &mut Marks,
    number: usize,
    action: &Ground,
    state_box: StateBox,
) -> StateBox
    requires readers { AreReaders task.now readers.now.facts.items readers.now.fluents.items }
    requires a_box { IsBoxOf task.now state_box }
    requires as_many { length marks.old ≡ length task.now.raw.actions }
    requires valid { IsValidAction (length task.now.raw.facts) (length task.now.raw.fluents) action.now }
    requires applied { IsApplied task.now number action.now state_box }
    ensures spread { IsSpread task.now state_box marks.old result marks.new }
    ensures deleted { IsTrue (list_all (λ f. list_any (λ g. g == f) action.now.adds || may_be (fact_in result f) false) action.now.dels) }
{
    let adds = action.adds.as_slice();
    let mut wider = state_box;
    'each: for fact in action.dels.as_slice() {
        if !is_listed(adds, *fact) {
            wider = admit(task, readers, marks, wider, *fact, false);
        }
    }
    wider
}

/// Lets the fluents that an action changes reach what the changes demand. Where a change depends on what an earlier one has
/// widened, the action is marked itself.
fn with_changes(
    task: &Task,
    readers: &Readers,
    marks: &mut Marks,
    number: usize,
    action: &Ground,
    state_box: StateBox,
) -> StateBox
    requires readers { AreReaders task.now readers.now.facts.items readers.now.fluents.items }
    requires a_box { IsBoxOf task.now state_box }
    requires as_many { length marks.old ≡ length task.now.raw.actions }
    requires valid { IsValidAction (length task.now.raw.facts) (length task.now.raw.fluents) action.now }
    requires placed { IsPlacedAction task.now.places action.now }
    requires applied { IsApplied task.now number action.now state_box }
    ensures spread { IsSpread task.now state_box marks.old result marks.new }
    ensures changed { is_marked marks.new number ≡ false → list_all (λ effect. meets_change task.now.places result action.now.pre effect.0 effect.1) action.now.nums ≡ true }
{
    let mut wider = state_box;
    'each: for (fluent, change) in action.nums.as_slice() {
        let (lower, upper) = wider.demanded(task, &action.pre, *fluent, change);
        wider = extend(task, readers, marks, wider, *fluent, lower, upper);
    }
    wider
}

/// The box that meets the demands of an action in the old one. The action is marked again where a demand may have changed.
pub(crate) fn settled(
    task: &Task,
    readers: &Readers,
    marks: &mut Marks,
    number: usize,
    state_box: StateBox,
) -> StateBox
    requires readers { AreReaders task.now readers.now.facts.items readers.now.fluents.items }
    requires a_box { IsBoxOf task.now state_box }
    requires as_many { length marks.old ≡ length task.now.raw.actions }
    requires known { number < length task.now.raw.actions }
    ensures spread { IsSpread task.now state_box marks.old result marks.new }
    ensures met { (a : Ground) → slice_get task.now.raw.actions number ≡ Some a → is_marked marks.new number ≡ false → is_unmet task.now.places result a ≡ false }
{
    let action = &task.raw().actions.as_slice()[number];
    if !state_box.may_hold(task, &action.pre) {
        return state_box;
    }
    let added = with_added(task, readers, marks, number, action, state_box);
    let deleted = with_deleted(task, readers, marks, number, action, added);
    with_changes(task, readers, marks, number, action, deleted)
}
