//! What a table of rows is made for, and its rule.

ghost use Rattle.std.specs.Prelude.{ℕ, List};

use crate::view::View;
use atomic_table::{Join, Play, Split, TableRule};
use std::marker::{Brand, PhantomData};
use std::snapshot::Snapshot;

/// What the words of a ready row say.
pub trait Entries {
    ghost IsEntry: { Self → List ℕ → Type 0 };
}

/// What the table is told when it is made.
#[derive(Drop)]
pub struct Key<E> {
    pub entries: Snapshot<E>,
    pub width: usize,
    pub seats: u32,
}

/// The rule that the words keep at each moment.
pub struct WrittenOnce<E> {
    entries: PhantomData<E>,
}

impl<E: Entries> TableRule<(), View, Key<E>> for WrittenOnce<E> {
    ghost use Rattle.word_rows.specs.Rule.{Kept};
    ghost use Rattle.word_rows.specs.Views.{fresh_view};

    ghost holds = { λ key. Kept key.width (E.IsEntry key.entries.value) key.seats };

    ghost first = { λ key. fresh_view key.seats };
}

// What a step tells is picked at each call.
impl Play<(), View> for Brand {
    ghost then = { λ _ _ _ _. Unit {0} };
}

// A new seat takes over one of the seats that are joined in a fresh one.
pub(crate) struct HandOver;

impl Split<View> for HandOver {
    ghost use Rattle.std.specs.Prelude.{◌-◌};
    ghost use Rattle.word_rows.specs.Views.{fresh_view};

    ghost left = { λ v. fresh_view (v.seats - 1) };

    ghost right = { λ v. fresh_view 1 };
}

// A seat takes in what another knows and has.
pub(crate) struct TakeIn;

impl Join<View> for TakeIn {
    ghost use Rattle.word_rows.specs.Views.{fresh_view, joined};

    ghost both = { joined };

    ghost spent = { fresh_view 0 };
}
