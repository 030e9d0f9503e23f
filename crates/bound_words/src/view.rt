//! What the table is told when it is made, and what a seat knows.

use crate::system::System;
use atomic_table::{Join, Play, Split, TableRule};
use num_ends::List;
use std::collections::LinkedList;
use std::marker::{Brand, PhantomData};
use std::snapshot::Snapshot;

/// What a seat knows of the words. No value of it is made.
pub struct View {
    // The furthest value that the seat saw of each word.
    pub seen: LinkedList<u64>,
    // The values that the seat loaded in its sweep, of the first words.
    pub loaded: LinkedList<u64>,
    // The places that the seat has.
    pub places: LinkedList<u32>,
    // The count of done raises with which its sweep began.
    pub mark: u64,
    // The count of begun raises as the seat saw it last.
    pub latest: u64,
    // The number of its sweeps.
    pub sweeps: u64,
    // The number of raises that it has begun.
    pub begun: u64,
    // How many of them aren't done: 0 or 1.
    pub in_hand: u64,
    // Whether a sweep found the two counts equal.
    pub quiet: bool,
}

/// What a table is made for: a system, a start row and a number of seats. It has no bytes but that number.
#[derive(Drop)]
pub struct Key<S> {
    pub system: Snapshot<S>,
    pub start: Snapshot<List<u64>>,
    pub seats: u32,
}

/// The rule that the words keep at each moment.
pub struct Bounds<S> {
    system: PhantomData<S>,
}

impl<S: System> TableRule<(), View, Key<S>> for Bounds<S> {
    ghost use Rattle.bound_words.specs.Protocol.{Kept, first_view};

    ghost holds = { λ key. Kept (S.terms key.system.value) key.start.value key.seats };

    ghost first = { λ key. first_view key.start.value key.seats };
}

// What a step tells is picked at each call.
impl Play<(), View> for Brand {
    ghost then = { λ _ _ _ _. Unit {0} };
}

impl Join<View> for Brand {
    ghost use Rattle.bound_words.specs.Protocol.{spent};

    ghost both = { λ v _. v };

    ghost spent = { spent };
}

/// A new seat takes over the first place.
pub struct HandOver;

impl Split<View> for HandOver {
    ghost use Rattle.bound_words.specs.Protocol.{after_handing, handed};

    ghost left = { after_handing };

    ghost right = { handed };
}
