//! How far a change by a constant moves a fluent where its action's precondition bounds it.

ghost use Rattle.std.specs.Prelude.{ℕ, ◌≡◌, ◌⊎◌, None, Some, ◌<◌, ◌≤◌, ◌∷◌, ◌+ℤ◌, false, true, MatchOption, length, slice_get, slice_index_or, filter_map, cond as choose};
ghost use Rattle.std.specs.Option.{ForSome};
ghost use Rattle.num_ends.specs.Arithmetic.{SumFits};
ghost use Rattle.num_ends.specs.declared.ends.End.{End};
ghost use Rattle.num_ends.specs.Decimal.{number_at, Decimal, product_of, sum_of, InRange, IsDec};
ghost use Rattle.ground_task.specs.Valid.{right_side};
ghost use Rattle.ground_task.specs.Ranged.{top_conjuncts};
ghost use Rattle.box_model.specs.Boxes.{IsEndFor};
ghost use Rattle.box_model.specs.Caps.{growth_of, side_of, IsCap, IsEffectCap, IsTightest};
ghost use Rattle.box_model.specs.Demands.{bound_end, bounds_of, constant_of, covers, end_by, exchanged, half, infinity, is_finite, moved_bound, moved_end, reads};

use ground_task::{Change, GCond, GExpr, Rel, Task};
use num_ends::{Dec, End};
use std::cmp::Ordering;
use std::slice;

/// The sides of an interval.
#[derive(Clone, Copy, Debug)]
pub enum Side {
    Upper,
    Lower,
}

impl Side {
    /// The infinite end of this side.
    fn infinity(self) -> End
        ensures { result ≡ infinity self }
    {
        match self {
            Side::Upper => End::PosInf,
            Side::Lower => End::NegInf,
        }
    }

    /// The end of this side that each other is as far out as.
    pub(crate) fn innermost(self) -> End
        ensures covered { (e : End) → covers self e result ≡ true }
        ensures fits { (q : ℕ) → IsEndFor q result }
    {
        match self {
            Side::Upper => End::NegInf,
            Side::Lower => End::PosInf,
        }
    }

    /// Of two ends of this side, the inner one.
    fn inner(self, a: End, b: End) -> End
        ensures { result ≡ choose (covers self a b) b a }
    {
        let a_covers = match self {
            Side::Upper => a.upper_covers(&b),
            Side::Lower => a.lower_covers(&b),
        };
        if a_covers { b } else { a }
    }
}

/// The same comparison with its sides exchanged.
fn exchanged(rel: Rel) -> Rel
    ensures { result ≡ exchanged rel }
{
    match rel {
        Rel::Less => Rel::Greater,
        Rel::LessEqual => Rel::GreaterEqual,
        Rel::Equal => Rel::Equal,
        Rel::GreaterEqual => Rel::LessEqual,
        Rel::Greater => Rel::Less,
    }
}

/// The end of this side that a fluent has where it stands so to a number.
fn end_by(side: Side, rel: Rel, k: Dec) -> Option<End>
    ensures { result ≡ end_by side rel k }
{
    match (side, rel) {
        (Side::Upper, Rel::Less) | (Side::Lower, Rel::Greater) => Some(End::Excl(k)),
        (Side::Upper, Rel::LessEqual) | (Side::Lower, Rel::GreaterEqual) => Some(End::Incl(k)),
        (_, Rel::Equal) => Some(End::Incl(k)),
        _ => None,
    }
}

/// The constant that an expression is.
pub(crate) fn constant_of(expr: &GExpr) -> Option<Dec>
    ensures { result ≡ constant_of expr.now }
{
    match expr {
        GExpr::Const(c) => Some(*c),
        GExpr::Read(_) | GExpr::Add(_, _) | GExpr::Sub(_, _) | GExpr::Mul(_, _) => None,
    }
}

/// Whether an expression is this fluent.
fn reads(x: u32, expr: &GExpr) -> bool
    ensures { result ≡ reads x expr.now }
{
    match expr {
        GExpr::Read(y) => x == *y,
        GExpr::Const(_) | GExpr::Add(_, _) | GExpr::Sub(_, _) | GExpr::Mul(_, _) => false,
    }
}

/// The sum of two decimals, where it and both at the larger count of places are in range.
fn sum(a: Dec, b: Dec) -> Option<Dec>
    ensures { MatchOption result (SumFits a b → ⊥) (λ d. (d ≡ sum_of a b) × SumFits a b) }
{
    match a.add(b) {
        Ok(d) => Some(d),
        Err(_) => None,
    }
}

/// Half of a decimal, where it is in range.
fn half_of(c: Dec) -> Option<Dec>
    ensures { MatchOption result (IsDec (product_of c half) → ⊥) (λ d. d ≡ product_of c half) }
{
    match c.mul(Dec { n: 5, p: 1 }) {
        Ok(d) => Some(d),
        Err(_) => None,
    }
}

/// A bound moved by `c`, which has no more places, where that is in range at the bound's places. There `c` itself may leave
/// the range; so, where it has fewer places, its half is added twice.
fn moved_by(bound: Dec, c: Dec) -> Option<Dec>
    requires { c.p ≤ bound.p }
    ensures { MatchOption result (InRange (bound.n +ℤ number_at bound.p c) → ⊥) (λ d. (d ≡ record { n = bound.n +ℤ number_at bound.p c; p = bound.p }) × InRange (bound.n +ℤ number_at bound.p c)) }
{
    if c.p == bound.p {
        return sum(bound, c);
    }
    let half = half_of(c)?;
    let halfway = sum(bound, half)?;
    sum(halfway, half)
}

/// The bound `k` moved by `c`, where neither has more than `q` places, and neither `k` nor the sum leaves the range there.
fn moved_bound(q: u8, c: Dec, k: Dec) -> Option<Dec>
    requires few { q ≤ 18 }
    ensures { result ≡ moved_bound q c k }
{
    let (bound, by) = (k.trim(), c.trim());
    if q < bound.p || q < by.p {
        return None;
    }
    match bound.align(q) {
        Ok(aligned) => moved_by(aligned, by),
        Err(_) => None,
    }
}

/// The end that a comparison with a constant gives, the constant moved by `c`.
fn bound_end(side: Side, q: u8, rel: Rel, c: Dec, other: &GExpr) -> Option<End>
    requires few { q ≤ 18 }
    ensures { result ≡ bound_end side q rel c (constant_of other.now) }
{
    match other {
        GExpr::Const(k) => end_by(side, rel, moved_bound(q, c, *k)?),
        GExpr::Read(_) | GExpr::Add(_, _) | GExpr::Sub(_, _) | GExpr::Mul(_, _) => None,
    }
}

/// The end that a conjunct gives after a change of the fluent by `c`.
fn moved_end(side: Side, q: u8, x: u32, c: Dec, cond: &GCond) -> Option<End>
    requires few { q ≤ 18 }
    ensures { result ≡ moved_end side q x c cond.now }
{
    match cond {
        GCond::Cmp(rel, left, right) => {
            if reads(x, left) {
                bound_end(side, q, *rel, c, right)
            } else if reads(x, right) {
                bound_end(side, q, exchanged(*rel), c, left)
            } else {
                None
            }
        }
        GCond::True | GCond::False | GCond::Fact(_, _) | GCond::And(_) | GCond::Or(_) => None,
    }
}

/// The members of an outermost conjunction, or the condition itself.
fn conjuncts(cond: &GCond) -> &[GCond]
    ensures { result.now ≡ top_conjuncts cond.now }
{
    match cond {
        GCond::And(conds) => conds.as_slice(),
        GCond::True | GCond::False | GCond::Fact(_, _) | GCond::Cmp(_, _, _) | GCond::Or(_) => {
            slice::from_ref(cond)
        }
    }
}

/// The tightest of the infinite end of this side and those that the conditions give after a change of the fluent by `c`.
fn tightest_of(side: Side, q: u8, x: u32, c: Dec, conds: &[GCond]) -> End
    requires few { q ≤ 18 }
    ensures { IsTightest side (infinity side ∷ filter_map (moved_end side q x c) conds.now) result }
{
    let mut best = side.infinity();
    'each: for cond in conds {
        if let Some(end) = moved_end(side, q, x, c, cond) {
            best = side.inner(best, end);
        }
    }
    best
}

/// The tightest of the infinite end of this side and those that the bounds of a precondition give after the fluent grows by
/// an expression.
pub(crate) fn tightest(task: &Task, pre: &GCond, fluent: u32, expr: &GExpr, side: Side) -> End
    requires known { fluent < length task.now.raw.fluents }
    ensures tightest { IsTightest side (infinity side ∷ bounds_of task.now.places pre.now fluent expr.now side) result }
    ensures fits { IsEndFor (slice_index_or task.now.places fluent 0) result }
{
    match constant_of(expr) {
        Some(c) => tightest_of(side, task.places(fluent), fluent, c, conjuncts(pre)),
        None => side.infinity(),
    }
}

/// The side to which a change moves a fluent.
fn side_of(c: Dec) -> Option<Side>
    ensures { result ≡ side_of c }
{
    match c.n.cmp(&0) {
        Ordering::Greater => Some(Side::Upper),
        Ordering::Equal => None,
        Ordering::Less => Some(Side::Lower),
    }
}

/// An end that isn't infinite.
fn finite(end: End) -> Option<End>
    ensures { MatchOption result (is_finite end ≡ false) (λ f. (f ≡ end) × (is_finite end ≡ true)) }
{
    match end {
        End::NegInf | End::PosInf => None,
        End::Excl(_) | End::Incl(_) => Some(end),
    }
}

/// The side to which a change lets a fluent grow by a constant.
fn grows_to(change: &Change) -> Option<Side>
    ensures { MatchOption result
        ((growth_of change.now ≡ None) ⊎ ((c : Decimal) × (growth_of change.now ≡ Some c) × (side_of c ≡ None)))
        (λ side. (c : Decimal) × (growth_of change.now ≡ Some c) × (side_of c ≡ Some side)) }
{
    match change {
        Change::Add(expr) => match constant_of(expr) {
            Some(c) => side_of(c),
            None => None,
        },
        Change::Set(_) => None,
    }
}

/// The right-hand side of a change.
fn right_side(change: &Change) -> &GExpr
    ensures { result.now ≡ right_side change.now }
{
    match change {
        Change::Add(expr) => expr,
        Change::Set(expr) => expr,
    }
}

/// The end that caps a change of this fluent under a precondition, or `None` where it has no cap.
pub fn cap_under(task: &Task, pre: &GCond, fluent: u32, change: &Change) -> Option<End>
    requires known { fluent < length task.now.raw.fluents }
    ensures { MatchOption result ((end : End) → IsCap task.now.places pre.now fluent change.now end → ⊥) (IsCap task.now.places pre.now fluent change.now) }
{
    match grows_to(change) {
        Some(side) => finite(tightest(task, pre, fluent, right_side(change), side)),
        None => None,
    }
}

/// The end that caps an effect, or `None` where it has no cap.
///
/// The effect is given by its place among the numeric effects of the action of this number.
pub fn cap_of(task: &Task, action: u32, effect: u32) -> Option<End>
    requires known_action { action < length task.now.raw.actions }
    requires known_effect { ForSome (slice_get task.now.raw.actions action) (λ a. effect < length a.nums) }
    ensures { MatchOption result ((end : End) → IsEffectCap task.now action effect end → ⊥) (IsEffectCap task.now action effect) }
{
    let ground = &task.raw().actions.as_slice()[action as usize];
    let (fluent, change) = &ground.nums.as_slice()[effect as usize];
    cap_under(task, &ground.pre, *fluent, change)
}
