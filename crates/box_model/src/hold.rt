//! Which conditions may hold in a box.

ghost use Rattle.std.specs.Prelude.{◌≡◌, ◌≤◌, ◌+◌, IsTrue, length, max, not};
ghost use Rattle.std.specs.List.{list_all, list_any};
ghost use Rattle.num_ends.specs.Arithmetic.{interval_difference, interval_product, interval_sum, outward_of};
ghost use Rattle.num_ends.specs.Decimal.{trimmed};
ghost use Rattle.num_ends.specs.Ends.{point_of};
ghost use Rattle.ground_task.specs.Placed.{has_few_places, places_of};
ghost use Rattle.ground_task.specs.Valid.{is_known_condition, is_known_expression};
ghost use Rattle.box_model.specs.Boxes.{fact_in, fluent_in, may_be, IsBoxOf};
ghost use Rattle.box_model.specs.Hold.{interval_of, may_hold, may_stand, EndsHave};

use crate::state_box::{May, StateBox};
use ground_task::{GCond, GExpr, Rel, Task};
use num_ends::{Dec, Interval};

impl May {
    /// Whether this truth value may occur.
    pub fn may_be(self, truth: bool) -> bool
        ensures { result ≡ may_be self truth }
    {
        match self {
            May::True => truth,
            May::False => !truth,
            May::Any => true,
        }
    }
}

/// Whether some value of the one interval and some value of the other stand so.
fn may_stand(rel: Rel, left: Interval, right: Interval) -> bool
    ensures { result ≡ may_stand rel left right }
{
    match rel {
        Rel::Less => left.may_less(right),
        Rel::LessEqual => left.may_less_equal(right),
        Rel::Equal => left.may_equal(right),
        Rel::GreaterEqual => right.may_less_equal(left),
        Rel::Greater => right.may_less(left),
    }
}

/// The point of a constant, trimmed, and its places.
fn constant(c: Dec) -> (Interval, u8)
    ensures interval { result.0 ≡ outward_of (trimmed c).p (point_of (trimmed c)) }
    ensures places { result.1 ≡ (trimmed c).p }
{
    let d = c.trim();
    (Interval::point(d).outward(d.p), d.p)
}

/// The sum of two intervals with ends of `p` and of `q` places, its ends at the larger of the two.
fn sum(left: Interval, p: u8, right: Interval, q: u8) -> (Interval, u8)
    requires left { EndsHave p left }
    requires right { EndsHave q right }
    requires few { max p q ≤ 18 }
    ensures interval { result.0 ≡ outward_of (max p q) (interval_sum left right) }
    ensures places { result.1 ≡ max p q }
{
    let places = p.max(q);
    (left.add(right).outward(places), places)
}

/// The difference, likewise.
fn difference(left: Interval, p: u8, right: Interval, q: u8) -> (Interval, u8)
    requires left { EndsHave p left }
    requires right { EndsHave q right }
    requires few { max p q ≤ 18 }
    ensures interval { result.0 ≡ outward_of (max p q) (interval_difference left right) }
    ensures places { result.1 ≡ max p q }
{
    let places = p.max(q);
    (left.sub(right).outward(places), places)
}

/// The product, its ends at the sum of the places.
fn product(left: Interval, p: u8, right: Interval, q: u8) -> (Interval, u8)
    requires left { EndsHave p left }
    requires right { EndsHave q right }
    requires few { p + q ≤ 18 }
    ensures interval { result.0 ≡ outward_of (p + q) (interval_product left right) }
    ensures places { result.1 ≡ p + q }
{
    let places = p + q;
    (left.mul(right).outward(places), places)
}

impl StateBox {
    /// The truth values that a fact may have; `Any` for a number that is no fact's.
    pub(crate) fn fact(&self, number: u32) -> May
        ensures { result ≡ fact_in self.now number }
    {
        match self.facts.as_slice().get(number as usize) {
            Some(may) => *may,
            None => May::Any,
        }
    }

    /// The interval of a fluent; all decimals for a number that is no fluent's.
    pub(crate) fn fluent(&self, number: u32) -> Interval
        ensures { result ≡ fluent_in self.now number }
    {
        match self.fluents.as_slice().get(number as usize) {
            Some(interval) => *interval,
            None => Interval::whole(),
        }
    }

    /// The values that an expression may have in this box, and the places of their finite ends.
    #[cycle(expressions)]
    fn ranging_of(&self, task: &Task, expr: &GExpr) -> (Interval, u8)
        requires a_box { IsBoxOf task.now self.now }
        requires known { IsTrue (is_known_expression (length task.now.raw.fluents) expr.now) }
        requires few { places_of task.now.places expr.now ≤ 18 }
        ensures interval { result.0 ≡ interval_of task.now.places self.now expr.now }
        ensures places { result.1 ≡ places_of task.now.places expr.now }
    {
        match expr {
            GExpr::Const(c) => constant(*c),
            GExpr::Read(x) => (self.read(task, *x), task.places(*x)),
            GExpr::Add(a, b) => {
                let (left, p) = self.ranging_of(task, a.get());
                let (right, q) = self.ranging_of(task, b.get());
                sum(left, p, right, q)
            }
            GExpr::Sub(a, b) => {
                let (left, p) = self.ranging_of(task, a.get());
                let (right, q) = self.ranging_of(task, b.get());
                difference(left, p, right, q)
            }
            GExpr::Mul(a, b) => {
                let (left, p) = self.ranging_of(task, a.get());
                let (right, q) = self.ranging_of(task, b.get());
                product(left, p, right, q)
            }
        }
    }

    /// The values that an expression of at most 18 places may have in this box.
    pub(crate) fn interval_of(&self, task: &Task, expr: &GExpr) -> Interval
        requires a_box { IsBoxOf task.now self.now }
        requires known { IsTrue (is_known_expression (length task.now.raw.fluents) expr.now) }
        requires few { places_of task.now.places expr.now ≤ 18 }
        ensures { result ≡ interval_of task.now.places self.now expr.now }
    {
        self.ranging_of(task, expr).0
    }

    #[cycle(hold)]
    pub(crate) fn admits(&self, task: &Task, cond: &GCond) -> bool
        requires a_box { IsBoxOf task.now self.now }
        requires known { IsTrue (is_known_condition (length task.now.raw.facts) (length task.now.raw.fluents) cond.now) }
        requires few { IsTrue (has_few_places task.now.places cond.now) }
        ensures { result ≡ may_hold task.now.places self.now cond.now }
    {
        match cond {
            GCond::True => true,
            GCond::False => false,
            GCond::Fact(fact, truth) => self.fact(*fact).may_be(*truth),
            GCond::Cmp(rel, left, right) => {
                may_stand(
                    *rel,
                    self.interval_of(task, left),
                    self.interval_of(task, right),
                )
            }
            GCond::And(conds) => self.admits_all(task, conds.as_slice()),
            GCond::Or(conds) => self.admits_some(task, conds.as_slice()),
        }
    }

    #[cycle(hold)]
    fn admits_all(&self, task: &Task, conds: &[GCond]) -> bool
        requires a_box { IsBoxOf task.now self.now }
        requires known { IsTrue (list_all (is_known_condition (length task.now.raw.facts) (length task.now.raw.fluents)) conds.now) }
        requires few { IsTrue (list_all (has_few_places task.now.places) conds.now) }
        ensures { result ≡ list_all (may_hold task.now.places self.now) conds.now }
    {
        'each: for cond in conds {
            if !self.admits(task, cond) {
                return false;
            }
        }
        true
    }

    #[cycle(hold)]
    fn admits_some(&self, task: &Task, conds: &[GCond]) -> bool
        requires a_box { IsBoxOf task.now self.now }
        requires known { IsTrue (list_all (is_known_condition (length task.now.raw.facts) (length task.now.raw.fluents)) conds.now) }
        requires few { IsTrue (list_all (has_few_places task.now.places) conds.now) }
        ensures { result ≡ list_any (may_hold task.now.places self.now) conds.now }
    {
        'each: for cond in conds {
            if self.admits(task, cond) {
                return true;
            }
        }
        false
    }

    /// Whether a condition of the task may hold in this box.
    ///
    /// Each side of each comparison has at most 18 places.
    pub fn may_hold(&self, task: &Task, cond: &GCond) -> bool
        requires a_box { IsBoxOf task.now self.now }
        requires known { IsTrue (is_known_condition (length task.now.raw.facts) (length task.now.raw.fluents) cond.now) }
        requires few { IsTrue (has_few_places task.now.places cond.now) }
        ensures { result ≡ may_hold task.now.places self.now cond.now }
    {
        self.admits(task, cond)
    }

    /// Whether the goal may not hold in this box.
    pub fn misses_goal(&self, task: &Task) -> bool
        requires a_box { IsBoxOf task.now self.now }
        ensures { result ≡ not (may_hold task.now.places self.now task.now.raw.goal) }
    {
        !self.admits(task, &task.raw().goal)
    }
}
