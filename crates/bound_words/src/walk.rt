//! The two walks of a sweep: over the words, and over the rules.

ghost use Rattle.edge_io.specs.declared.gate.Place.TheVariants as place_of;
ghost use Rattle.std.specs.Prelude.{IsTrue, ◌≡◌, ℕ, ◌+◌, ◌*◌, ◌<◌, ◌≤◌, List, [], length};
ghost use Rattle.bound_words.specs.Rows.{IsRow};
ghost use Rattle.bound_words.specs.Turns.{IsLoadedTo, IsRaisedFor};
ghost use Rattle.bound_words.specs.Fitting.{IsFitting};

use crate::evaluate::evaluate;
use crate::steps;
use crate::steps::Words;
use crate::system::System;
use crate::view::View;
use atomic_table::Seat;
use edge_io::{Gate, Place};

/// Loads every word into the row, in order.
pub(crate) fn load_row<S: System>(shared: &Words<S>, seat: &mut Seat<(), View>, row: &mut [u64])
    requires fits { IsFitting (S.terms shared.now.key.system.value) shared.now.table_id seat.old }
    requires row { length row.old ≡ (S.terms shared.now.key.system.value).words }
    requires nothing { seat.old.me.0.loaded ≡ [] }
    ensures seat { (seat.new.table_id ≡ seat.old.table_id) × (seat.new.id ≡ seat.old.id) × (seat.new.me.1 ≡ []) }
    ensures view { IsLoadedTo (S.terms shared.now.key.system.value) seat.old.me.0 row.new (S.terms shared.now.key.system.value).words seat.new.me.0 }
{
    for word in 0..row.len() {
        row[word] = steps::load(shared, seat, word);
    }
}

/// Evaluates every rule on the loaded row, and raises each word of which a rule asks for more.
///
/// It passes the gate before each evaluation, under the given number.
pub(crate) fn raise_row<S: System, G: Gate>(
    shared: &Words<S>,
    system: &S,
    seat: &mut Seat<(), View>,
    row: &[u64],
    gate: &G,
    number: u32,
)
    requires system { shared.now.key.system.value ≡ system.now }
    requires fits { IsFitting (S.terms shared.now.key.system.value) shared.now.table_id seat.old }
    requires gate { IsTrue (G.may_pass gate.now place_of.ClaimedSupporter number) }
    requires few { seat.old.me.0.begun + (S.terms shared.now.key.system.value).rules ≤ (S.terms shared.now.key.system.value).rules * seat.old.me.0.sweeps }
    requires row { IsRow (S.terms shared.now.key.system.value) row.now × (seat.old.me.0.loaded ≡ row.now) × (seat.old.me.0.seen ≡ row.now) }
    ensures seat { (seat.new.table_id ≡ seat.old.table_id) × (seat.new.id ≡ seat.old.id) × (seat.new.me.1 ≡ []) }
    ensures view { IsRaisedFor (S.terms shared.now.key.system.value) row.now seat.old.me.0 (S.terms shared.now.key.system.value).rules seat.new.me.0 }
{
    for rule in 0..system.rules() {
        gate.pass(Place::ClaimedSupporter, number);
        evaluate(shared, system, seat, row, rule);
    }
}
