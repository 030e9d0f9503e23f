//! The rule of a lock, and what each kind of step on its table tells.

ghost use Rattle.std.specs.Prelude.{Option, None, [], ◌++◌};
ghost use Rattle.turn_lock.specs.Turns.{tried, noted, released, looked};
ghost use Rattle.turn_lock.specs.Words.{waiting, first_mark, later_marks};

use crate::told::Told;
use crate::view::View;
use atomic_table::{Join, Play, Split, TableRule};
use std::marker::{Brand, PhantomData};
use std::snapshot::Snapshot;

/// What a lock is told once: the value that it is made of, and its number of seats.
#[derive(Drop)]
pub struct Key<T> {
    pub origin: Snapshot<T>,
    pub seats: u32,
}

/// The rule of a lock.
pub struct Turns<T> {
    marker: PhantomData<T>,
}

impl<T: Told> TableRule<Option<T>, View, Key<T>> for Turns<T> {
    ghost use Rattle.turn_lock.specs.Turns.{Kept};
    ghost use Rattle.turn_lock.specs.Words.{waiting, marks_from};

    ghost holds = { λ key. Kept T.terms T.journal key.origin.value key.seats };

    ghost first = { λ key. waiting (marks_from 0 key.seats (T.journal key.origin.value)) };
}

// The value that a lock was made of, for the proof alone. A call at `Brand` picks it from its `requires`.
pub(crate) trait Origin<T> {
    ghost said: { Option T };
}

impl<T> Origin<T> for Brand {
    ghost said = { None };
}

// The turn word goes from 0 to 1, and the value into the seat's hand.
pub(crate) struct Try<K> {
    marker: PhantomData<K>,
}

impl<T: Told, K: Origin<T>> Play<Option<T>, View> for Try<K> {
    ghost then = { tried T.terms T.journal K.said };
}

// The length of the journal that is put back becomes the count.
pub(crate) struct Count;

impl<T: Told> Play<Option<T>, View> for Count {
    ghost then = { noted T.journal };
}

// The turn word goes back to 0, and the value home.
pub(crate) struct Release;

impl<T: Told> Play<Option<T>, View> for Release {
    ghost then = { released T.journal };
}

// A load of the count.
pub(crate) struct Look;

impl<S> Play<S, View> for Look {
    ghost then = { looked };
}

// The first worker number goes to a seat of its own.
pub(crate) struct Deal;

impl Split<View> for Deal {
    ghost left = { λ v. waiting (later_marks v.marks) };

    ghost right = { λ v. waiting (first_mark v.marks) };
}

// The other's worker numbers go in front.
pub(crate) struct Gather;

impl Join<View> for Gather {
    ghost both = { λ v w. waiting (w.marks ++ v.marks) };

    ghost spent = { waiting [] };
}
