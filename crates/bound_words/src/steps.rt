//! The single steps on the words, one function for each kind.
//!
//! Word 0 counts the raises that are done, word 1 those that were begun; the row follows.

ghost use Rattle.std.specs.Prelude.{◌≡◌, ◌⊎◌, ℕ, ◌+◌, ◌*◌, ◌^◌, ◌<◌, ◌≤◌, List, [], true, length, take, drop, slice_index, Some};
ghost use Rattle.bound_words.specs.Rows.{IsPast, IsRow, IsRowPast, AreMet, IsLeastClosed, IsWithinClosed, IsBetweenAt, IsSettledAt, further};
ghost use Rattle.bound_words.specs.Protocol.{looked, loaded, marked, begun, raised, ended, concluded, joined, fresh_view};
ghost use Rattle.bound_words.specs.Fitting.{IsFitting};

use crate::system::{Direction, System};
use crate::view::{Bounds, HandOver, Key, View};
use atomic_table::{Seat, Shared};
use std::marker::Brand;

/// The words as threads see them.
pub type Words<S> = Shared<(), View, Key<S>, Bounds<S>>;

const DONE: usize = 0;

const BEGUN: usize = 1;

const FIRST: usize = 2;

/// Loads a word of the row.
pub(crate) fn look<S: System>(shared: &Words<S>, seat: &mut Seat<(), View>, word: usize) -> u64
    requires fits { IsFitting (S.terms shared.now.key.system.value) shared.now.table_id seat.old }
    requires word { word < (S.terms shared.now.key.system.value).words }
    ensures seat { (seat.new.table_id ≡ seat.old.table_id) × (seat.new.id ≡ seat.old.id) }
    ensures view { seat.new.me ≡ (looked seat.old.me.0 word result, []) }
    ensures past { IsPast ((S.terms shared.now.key.system.value).direction word) (slice_index seat.old.me.0.seen word) result }
    ensures between { IsBetweenAt (S.terms shared.now.key.system.value) shared.now.key.start.value word result }
    ensures settled { seat.old.me.0.quiet ≡ true → IsSettledAt (S.terms shared.now.key.system.value) shared.now.key.start.value word result }
{
    shared.load::<Brand>(seat, word + FIRST)
}

/// Loads the next word of the row in a sweep.
pub(crate) fn load<S: System>(shared: &Words<S>, seat: &mut Seat<(), View>, word: usize) -> u64
    requires fits { IsFitting (S.terms shared.now.key.system.value) shared.now.table_id seat.old }
    requires word { word < (S.terms shared.now.key.system.value).words }
    requires next { length seat.old.me.0.loaded ≡ word }
    ensures seat { (seat.new.table_id ≡ seat.old.table_id) × (seat.new.id ≡ seat.old.id) }
    ensures view { seat.new.me ≡ (loaded seat.old.me.0 word result, []) }
    ensures past { IsPast ((S.terms shared.now.key.system.value).direction word) (slice_index seat.old.me.0.seen word) result }
{
    shared.load::<Brand>(seat, word + FIRST)
}

/// Loads the count of done raises, with which a sweep begins.
pub(crate) fn load_done<S: System>(shared: &Words<S>, seat: &mut Seat<(), View>) -> u64
    requires fits { IsFitting (S.terms shared.now.key.system.value) shared.now.table_id seat.old }
    requires few { seat.old.me.0.sweeps < 2 ^ 26 }
    ensures seat { (seat.new.table_id ≡ seat.old.table_id) × (seat.new.id ≡ seat.old.id) }
    ensures view { seat.new.me ≡ (marked seat.old.me.0 result, []) }
    ensures sole { length seat.old.me.0.places ≡ shared.now.key.seats → result ≡ seat.old.me.0.begun }
{
    shared.load::<Brand>(seat, DONE)
}

/// Announces a raise.
pub(crate) fn begin<S: System>(shared: &Words<S>, seat: &mut Seat<(), View>)
    requires fits { IsFitting (S.terms shared.now.key.system.value) shared.now.table_id seat.old }
    requires few { seat.old.me.0.begun < (S.terms shared.now.key.system.value).rules * seat.old.me.0.sweeps }
    ensures seat { (seat.new.table_id ≡ seat.old.table_id) × (seat.new.id ≡ seat.old.id) }
    ensures view { (n : ℕ) × (seat.old.me.0.mark ≤ n) × (seat.new.me ≡ (begun seat.old.me.0 n, [])) }
{
    shared.fetch_add::<Brand>(seat, BEGUN, 1);
}

/// Raises a word by what a rule asks for on the loaded row.
pub(crate) fn raise<S: System>(
    shared: &Words<S>,
    seat: &mut Seat<(), View>,
    direction: Direction,
    word: usize,
    value: u64,
)
    requires table { (seat.old.table_id ≡ shared.now.table_id) × (shared.now.table_id.words ≡ (S.terms shared.now.key.system.value).words + 2) × ((S.terms shared.now.key.system.value).words < 2 ^ 32) }
    requires busy { (seat.old.me.0.in_hand ≡ 1) × (seat.old.me.1 ≡ []) }
    requires rows { (length seat.old.me.0.seen ≡ (S.terms shared.now.key.system.value).words) × IsRow (S.terms shared.now.key.system.value) seat.old.me.0.loaded }
    requires direction { direction ≡ (S.terms shared.now.key.system.value).direction word }
    requires asked { (rule : ℕ) × (rule < (S.terms shared.now.key.system.value).rules) × ((S.terms shared.now.key.system.value).asks rule seat.old.me.0.loaded ≡ Some (word, value)) }
    ensures seat { (seat.new.table_id ≡ seat.old.table_id) × (seat.new.id ≡ seat.old.id) }
    ensures view { (y : ℕ) × (seat.new.me ≡ (raised seat.old.me.0 word y, [])) × IsPast direction (slice_index seat.old.me.0.seen word) y × IsPast direction value y × (y < 2 ^ 64) }
{
    match direction {
        Direction::Max => {
            shared.fetch_max::<Brand>(seat, word + FIRST, value);
        }
        Direction::Min => {
            shared.fetch_min::<Brand>(seat, word + FIRST, value);
        }
        Direction::Or => {
            shared.fetch_or::<Brand>(seat, word + FIRST, value);
        }
    }
}

/// Counts the raise in hand as done.
pub(crate) fn end<S: System>(shared: &Words<S>, seat: &mut Seat<(), View>)
    requires table { (seat.old.table_id ≡ shared.now.table_id) × (shared.now.table_id.words ≡ (S.terms shared.now.key.system.value).words + 2) }
    requires busy { (seat.old.me.0.in_hand ≡ 1) × (seat.old.me.1 ≡ []) }
    ensures seat { (seat.new.table_id ≡ seat.old.table_id) × (seat.new.id ≡ seat.old.id) }
    ensures view { seat.new.me ≡ (ended seat.old.me.0, []) }
{
    shared.fetch_add::<Brand>(seat, DONE, 1);
}

/// Loads the count of begun raises, with which a sweep ends.
pub(crate) fn load_begun<S: System>(shared: &Words<S>, seat: &mut Seat<(), View>) -> u64
    requires fits { IsFitting (S.terms shared.now.key.system.value) shared.now.table_id seat.old }
    requires ready { (seat.old.me.0.mark < seat.old.me.0.latest) ⊎ (IsRow (S.terms shared.now.key.system.value) seat.old.me.0.loaded × AreMet (S.terms shared.now.key.system.value) seat.old.me.0.loaded (S.terms shared.now.key.system.value).rules) }
    ensures seat { (seat.new.table_id ≡ seat.old.table_id) × (seat.new.id ≡ seat.old.id) }
    ensures view { seat.new.me ≡ (concluded seat.old.me.0 result, []) }
    ensures latest { seat.old.me.0.latest ≤ result }
    ensures sole { length seat.old.me.0.places ≡ shared.now.key.seats → result ≡ seat.old.me.0.begun }
    ensures least { result ≡ seat.old.me.0.mark → IsLeastClosed (S.terms shared.now.key.system.value) shared.now.key.start.value seat.old.me.0.loaded }
    ensures within { IsWithinClosed (S.terms shared.now.key.system.value) shared.now.key.start.value seat.old.me.0.seen }
{
    shared.load::<Brand>(seat, BEGUN)
}

/// Takes another seat in.
pub(crate) fn take_in<S: System>(
    shared: &Words<S>,
    seat: &mut Seat<(), View>,
    other: Seat<(), View>,
)
    requires fits { IsFitting (S.terms shared.now.key.system.value) shared.now.table_id seat.old }
    requires other { IsFitting (S.terms shared.now.key.system.value) shared.now.table_id other }
    ensures fits { IsFitting (S.terms shared.now.key.system.value) shared.now.table_id seat.new }
    ensures view { seat.new.me ≡ (joined (S.terms shared.now.key.system.value) seat.old.me.0 other.me.0, []) }
    ensures past { let t = S.terms shared.now.key.system.value in IsRowPast t seat.old.me.0.seen seat.new.me.0.seen × IsRowPast t other.me.0.seen seat.new.me.0.seen }
{
    shared.join_seat::<Brand>(seat, other);
}

/// A new seat takes over the first place of one that has counted nothing.
pub(crate) fn hand_over<S: System>(shared: &Words<S>, seat: &mut Seat<(), View>) -> Seat<(), View>
    requires table { (seat.old.table_id ≡ shared.now.table_id) × (0 < shared.now.table_id.words) }
    requires fresh { seat.old.me ≡ (fresh_view seat.old.me.0.seen seat.old.me.0.places, []) }
    ensures seat { (seat.new.table_id ≡ seat.old.table_id) × (seat.new.me ≡ (fresh_view seat.old.me.0.seen (drop 1 seat.old.me.0.places), [])) }
    ensures other { (result.table_id ≡ seat.old.table_id) × (result.me ≡ (fresh_view seat.old.me.0.seen (take 1 seat.old.me.0.places), [])) }
{
    shared.split_seat::<HandOver>(seat)
}
