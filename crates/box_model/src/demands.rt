//! What actions demand of a box.

ghost use Rattle.std.specs.Prelude.{◌≡◌, ◌<◌, ◌≤◌, ◌==◌, ◌||◌, ◌&&◌, ◌↔◌, not, true, false, length, position, slice_index_or, ℕ, None, IsNone, IsTrue};
ghost use Rattle.std.specs.List.{list_all, list_any};
ghost use Rattle.num_ends.specs.Decimal.{trimmed};
ghost use Rattle.num_ends.specs.Ends.{is_within, point_of, Interval};
ghost use Rattle.ground_task.specs.Placed.{places_of, IsPlacedAction};
ghost use Rattle.ground_task.specs.Valid.{is_known_expression, right_side, IsValidAction};
ghost use Rattle.box_model.specs.Boxes.{fact_in, fluent_in, may_be, AreEndsFor, IsBoxOf, IsEndFor};
ghost use Rattle.box_model.specs.Hold.{interval_of, read_interval};
ghost use Rattle.box_model.specs.Demands.{bounds_of, covers, end_on, implies, is_closed, is_unmet, meets, meets_change, meets_demand, meets_growth, meets_value, reaches};

use crate::caps::{Side, constant_of, tightest};
use crate::state_box::StateBox;
use ground_task::{Change, GCond, GExpr, Ground, Task};
use num_ends::{Dec, End, Interval};

/// The end of this side that a growth of a fluent by an expression demands, where it may move the fluent that way.
fn asked(task: &Task, pre: &GCond, fluent: u32, expr: &GExpr, side: Side, may_move: bool) -> End
    requires known { fluent < length task.now.raw.fluents }
    ensures asked { (i : Interval) → implies may_move (reaches side (bounds_of task.now.places pre.now fluent expr.now side) i) ≡ covers side (end_on side i) result }
    ensures fits { IsEndFor (slice_index_or task.now.places fluent 0) result }
{
    if may_move {
        tightest(task, pre, fluent, expr, side)
    } else {
        side.innermost()
    }
}

/// The ends that an assigned constant demands.
fn point(c: Dec) -> (End, End)
    ensures value { result ≡ point_of c }
    ensures fits { (q : ℕ) → (trimmed c).p ≤ q → AreEndsFor q result }
{
    // in range, as that of each `Dec`
    let _number = c.n;
    (End::Incl(c), End::Incl(c))
}

/// Whether a fact is listed.
fn is_listed(facts: &[u32], fact: u32) -> bool
    ensures { result ≡ list_any (λ g. g == fact) facts.now }
{
    facts.iter().any(|listed| *listed == fact)
}

impl StateBox {
    fn meets_adds(&self, adds: &[u32]) -> bool
        ensures { result ≡ list_all (λ f. may_be (fact_in self.now f) true) adds.now }
    {
        adds.iter().all(|fact| self.fact(*fact).may_be(true))
    }

    fn meets_dels(&self, adds: &[u32], dels: &[u32]) -> bool
        ensures { result ≡ list_all (λ f. list_any (λ g. g == f) adds.now || may_be (fact_in self.now f) false) dels.now }
    {
        dels.iter().all(|fact| self.fact(*fact).may_be(false) || is_listed(adds, *fact))
    }

    /// The ends to which a growth of a fluent by an expression sends its interval.
    fn grown(&self, task: &Task, pre: &GCond, fluent: u32, expr: &GExpr) -> (End, End)
        requires a_box { IsBoxOf task.now self.now }
        requires fluent { fluent < length task.now.raw.fluents }
        requires expression { IsTrue (is_known_expression (length task.now.raw.fluents) expr.now) }
        requires few { places_of task.now.places expr.now ≤ 18 }
        ensures asked { (i : Interval) → meets_growth (bounds_of task.now.places pre.now fluent expr.now) (interval_of task.now.places self.now expr.now) i ≡ is_within result i }
        ensures fits { AreEndsFor (slice_index_or task.now.places fluent 0) result }
    {
        let still = Interval::point(Dec { n: 0, p: 0 });
        let by = self.interval_of(task, expr);
        (
            asked(task, pre, fluent, expr, Side::Lower, by.may_less(still)),
            asked(task, pre, fluent, expr, Side::Upper, still.may_less(by)),
        )
    }

    /// The ends to which an assignment of an expression that isn't constant sends the interval of a fluent.
    fn assigned(&self, task: &Task, fluent: u32, expr: &GExpr) -> (End, End)
        requires a_box { IsBoxOf task.now self.now }
        requires fluent { fluent < length task.now.raw.fluents }
        requires expression { IsTrue (is_known_expression (length task.now.raw.fluents) expr.now) }
        requires few { places_of task.now.places expr.now ≤ 18 }
        ensures asked { (i : Interval) → meets_value None (read_interval (slice_index_or task.now.places fluent 0) (fluent_in self.now fluent)) (interval_of task.now.places self.now expr.now) i ≡ is_within result i }
        ensures fits { AreEndsFor (slice_index_or task.now.places fluent 0) result }
    {
        let had = self.read(task, fluent);
        let to = self.interval_of(task, expr);
        let lower = if to.may_less(had) {
            End::NegInf
        } else {
            End::PosInf
        };
        let upper = if had.may_less(to) {
            End::PosInf
        } else {
            End::NegInf
        };
        (lower, upper)
    }

    /// The ends that a change of a fluent demands of the fluent's interval in this box: an interval meets the demand where
    /// its lower end is as far out as the first, and its upper end as far out as the second. `PosInf` as the first demands
    /// nothing, and so does `NegInf` as the second.
    pub fn demanded(&self, task: &Task, pre: &GCond, fluent: u32, change: &Change) -> (End, End)
        requires a_box { IsBoxOf task.now self.now }
        requires fluent { fluent < length task.now.raw.fluents }
        requires expression { IsTrue (is_known_expression (length task.now.raw.fluents) (right_side change.now)) }
        requires few { places_of task.now.places (right_side change.now) ≤ slice_index_or task.now.places fluent 0 }
        ensures asked { (i : Interval) → meets_demand task.now.places self.now pre.now fluent change.now i ≡ is_within result i }
        ensures fits { AreEndsFor (slice_index_or task.now.places fluent 0) result }
    {
        let _few = task.places(fluent);
        match change {
            Change::Add(expr) => self.grown(task, pre, fluent, expr),
            Change::Set(expr) => match constant_of(expr) {
                Some(c) => point(c),
                None => self.assigned(task, fluent, expr),
            },
        }
    }

    fn meets_change(&self, task: &Task, pre: &GCond, fluent: u32, change: &Change) -> bool
        requires a_box { IsBoxOf task.now self.now }
        requires fluent { fluent < length task.now.raw.fluents }
        requires expression { IsTrue (is_known_expression (length task.now.raw.fluents) (right_side change.now)) }
        requires few { places_of task.now.places (right_side change.now) ≤ slice_index_or task.now.places fluent 0 }
        ensures { result ≡ meets_change task.now.places self.now pre.now fluent change.now }
    {
        let (lower, upper) = self.demanded(task, pre, fluent, change);
        let interval = self.fluent(fluent);
        interval.lower().lower_covers(&lower) && interval.upper().upper_covers(&upper)
    }

    fn meets_nums(&self, task: &Task, action: &Ground) -> bool
        requires a_box { IsBoxOf task.now self.now }
        requires valid { IsValidAction (length task.now.raw.facts) (length task.now.raw.fluents) action.now }
        requires placed { IsPlacedAction task.now.places action.now }
        ensures { result ≡ list_all (λ effect. meets_change task.now.places self.now action.now.pre effect.0 effect.1) action.now.nums }
    {
        'each: for (fluent, change) in action.nums.as_slice() {
            if !self.meets_change(task, &action.pre, *fluent, change) {
                return false;
            }
        }
        true
    }

    fn meets(&self, task: &Task, action: &Ground) -> bool
        requires a_box { IsBoxOf task.now self.now }
        requires valid { IsValidAction (length task.now.raw.facts) (length task.now.raw.fluents) action.now }
        requires placed { IsPlacedAction task.now.places action.now }
        ensures { result ≡ meets task.now.places self.now action.now }
    {
        let adds = action.adds.as_slice();
        self.meets_adds(adds)
            && self.meets_dels(adds, action.dels.as_slice())
            && self.meets_nums(task, action)
    }

    fn is_unmet(&self, task: &Task, action: &Ground) -> bool
        requires a_box { IsBoxOf task.now self.now }
        requires valid { IsValidAction (length task.now.raw.facts) (length task.now.raw.fluents) action.now }
        requires placed { IsPlacedAction task.now.places action.now }
        ensures { result ≡ is_unmet task.now.places self.now action.now }
    {
        self.admits(task, &action.pre) && !self.meets(task, action)
    }

    /// The first action with a demand that this box doesn't meet, or `None` where the box is closed.
    pub fn first_unmet(&self, task: &Task) -> Option<u32>
        requires a_box { IsBoxOf task.now self.now }
        ensures first { result ≡ position (is_unmet task.now.places self.now) task.now.raw.actions }
        ensures closed { IsTrue (is_closed task.now self.now) ↔ IsNone result }
    {
        let actions = task.raw().actions.as_slice();
        'each: for number in 0..actions.len() {
            if self.is_unmet(task, &actions[number]) {
                return Some(number as u32);
            }
        }
        None
    }
}
