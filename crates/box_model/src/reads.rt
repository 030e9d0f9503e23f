//! The intervals of fluents as expressions have them: with the fluent's places, and moved outward into the range.

ghost use Rattle.std.specs.Prelude.{◌≡◌, ◌<◌, ◌≤◌, ◌&&◌, ◌||◌, length, slice_index_or, IsTrue, int_lt, true};
ghost use Rattle.num_ends.specs.Ends.{is_inhabited};
ghost use Rattle.num_ends.specs.Arithmetic.{bottom_number, lower_at, top_number, upper_at};
ghost use Rattle.box_model.specs.Boxes.{fluent_in, IsBoxOf, IsEndFor};
ghost use Rattle.box_model.specs.Hold.{read_interval, trimmed_end};

use crate::state_box::StateBox;
use ground_task::Task;
use num_ends::{Dec, End, Interval};

/// Whether a decimal has these places and is not at the edge of the range.
fn is_inner(d: Dec, p: u8) -> bool
    ensures places { IsTrue result → d.p ≡ p }
    ensures above { IsTrue result → int_lt bottom_number d.n ≡ true }
    ensures below { IsTrue result → int_lt d.n top_number ≡ true }
{
    d.p == p && -i128::MAX < d.n && d.n < i128::MAX
}

/// Whether an end has these places and stays where it is.
fn is_placed(end: End, p: u8) -> bool
    ensures lower { IsTrue result → lower_at p (trimmed_end end) ≡ end }
    ensures upper { IsTrue result → upper_at p (trimmed_end end) ≡ end }
{
    match end {
        End::NegInf | End::PosInf => true,
        End::Excl(d) => is_inner(d, p),
        End::Incl(d) => is_inner(d, p),
    }
}

/// The end of the same value with the fewest places.
fn trimmed(end: End) -> End
    ensures { result ≡ trimmed_end end }
{
    match end {
        End::NegInf => End::NegInf,
        End::Excl(d) => End::Excl(d.trim()),
        End::Incl(d) => End::Incl(d.trim()),
        End::PosInf => End::PosInf,
    }
}

/// The interval with ends of these places, moved outward.
fn read_at(interval: Interval, p: u8) -> Interval
    requires few { p ≤ 18 }
    requires inhabited { IsTrue (is_inhabited interval.0 interval.1) }
    requires lower { IsEndFor p interval.0 }
    requires upper { IsEndFor p interval.1 }
    ensures { result ≡ read_interval p interval }
{
    if is_placed(interval.lower(), p) && is_placed(interval.upper(), p) {
        return interval;
    }
    match Interval::of(trimmed(interval.lower()), trimmed(interval.upper())) {
        Some(same) => same.outward(p),
        None => interval,
    }
}

impl StateBox {
    /// The interval of a fluent as expressions have it.
    pub(crate) fn read(&self, task: &Task, fluent: u32) -> Interval
        requires a_box { IsBoxOf task.now self.now }
        requires known { fluent < length task.now.raw.fluents }
        ensures { result ≡ read_interval (slice_index_or task.now.places fluent 0) (fluent_in self.now fluent) }
    {
        read_at(self.fluent(fluent), task.places(fluent))
    }
}
