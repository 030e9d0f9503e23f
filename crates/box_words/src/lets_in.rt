//! Whether an end lets a value in, from the words of the end.

ghost use Rattle.std.specs.Prelude.{◌≡◌, ◌≢◌};
ghost use Rattle.num_ends.specs.Decimal.{IsDec, is_less, is_at_most};
ghost use Rattle.num_ends.specs.Ends.{is_above, is_below};
ghost use Rattle.num_ends.specs.declared.ends.End.TheVariants.{NegInf, PosInf};
ghost use Rattle.box_words.specs.Words.{decimal_of, end_of, finite_end};

use crate::words::decimal_of;
use num_ends::{Dec, End};

// The finite end of a kind, 1 for an open one.
fn finite_end(kind: u64, at: Dec) -> End
    ensures { result ≡ finite_end kind at }
{
    match kind {
        1 => End::Excl(at),
        _ => End::Incl(at),
    }
}

// By value, for decimals of other places.
#[cold]
#[inline(never)]
fn lower_by_value(kind: u64, places: u64, high: u64, low: u64, value: &Dec) -> bool
    requires { IsDec (decimal_of places high low) }
    ensures { result ≡ is_above (finite_end kind (decimal_of places high low)) value.now }
{
    finite_end(kind, decimal_of(places, high, low)).lower_covers(&End::Incl(*value))
}

#[cold]
#[inline(never)]
fn upper_by_value(kind: u64, places: u64, high: u64, low: u64, value: &Dec) -> bool
    requires { IsDec (decimal_of places high low) }
    ensures { result ≡ is_below (finite_end kind (decimal_of places high low)) value.now }
{
    finite_end(kind, decimal_of(places, high, low)).upper_covers(&End::Incl(*value))
}

// By the numbers alone, which decimals of as many places are ordered by.
#[inline]
#[tactic(auto, using(crate::proofs::SameNumbers::less))]
fn is_less(a: &Dec, b: &Dec) -> bool
    requires { a.now.p ≡ b.now.p }
    ensures { result ≡ is_less a.now b.now }
{
    a.n < b.n
}

#[inline]
#[tactic(auto, using(crate::proofs::SameNumbers::at_most))]
fn is_at_most(a: &Dec, b: &Dec) -> bool
    requires { a.now.p ≡ b.now.p }
    ensures { result ≡ is_at_most a.now b.now }
{
    a.n <= b.n
}

/// Whether the finite lower end that these four words say lets a value in: whether it is below the value, or at it and
/// closed. Decimals of as many places are compared by their numbers alone.
#[inline]
pub fn lower_lets_in(kind: u64, places: u64, high: u64, low: u64, value: &Dec) -> bool
    requires finite { kind ≢ 0 }
    requires decimal { IsDec (decimal_of places high low) }
    ensures { result ≡ is_above (end_of NegInf kind places high low) value.now }
{
    let at = decimal_of(places, high, low);
    if at.p != value.p {
        return lower_by_value(kind, places, high, low, value);
    }
    match kind {
        1 => is_less(&at, value),
        _ => is_at_most(&at, value),
    }
}

/// Whether the finite upper end that these four words say lets a value in: whether it is above the value, or at it and
/// closed. Decimals of as many places are compared by their numbers alone.
#[inline]
pub fn upper_lets_in(kind: u64, places: u64, high: u64, low: u64, value: &Dec) -> bool
    requires finite { kind ≢ 0 }
    requires decimal { IsDec (decimal_of places high low) }
    ensures { result ≡ is_below (end_of PosInf kind places high low) value.now }
{
    let at = decimal_of(places, high, low);
    if at.p != value.p {
        return upper_by_value(kind, places, high, low, value);
    }
    match kind {
        1 => is_less(value, &at),
        _ => is_at_most(value, &at),
    }
}
