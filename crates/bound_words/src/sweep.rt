//! A sweep, between its two counts.

ghost use Rattle.edge_io.specs.declared.gate.Place.TheVariants as place_of;
ghost use Rattle.std.specs.Prelude.{IsTrue, ◌≡◌, ◌≢◌, ℕ, ◌+◌, ◌^◌, ◌<◌, ◌≤◌, true, length};
ghost use Rattle.bound_words.specs.Rows.{IsRow, IsRowPast, IsLeastClosed, IsWithinClosed};
ghost use Rattle.bound_words.specs.Sweeps.{asking, AreSeen, IsMoved, swept_of};
ghost use Rattle.bound_words.specs.Fitting.{IsFitting};

use crate::steps;
use crate::steps::Words;
use crate::swept::Swept;
use crate::system::System;
use crate::view::View;
use crate::walk::{load_row, raise_row};
use atomic_table::Seat;
use edge_io::Gate;

/// Loads the count of done raises, then the row, raises what the rules ask for, and loads the count of begun raises.
pub(crate) fn sweep_words<S: System, G: Gate>(
    shared: &Words<S>,
    system: &S,
    seat: &mut Seat<(), View>,
    row: &mut [u64],
    gate: &G,
    number: u32,
) -> Swept
    requires system { shared.now.key.system.value ≡ system.now }
    requires fits { IsFitting (S.terms shared.now.key.system.value) shared.now.table_id seat.old }
    requires row { length row.old ≡ (S.terms shared.now.key.system.value).words }
    requires few { seat.old.me.0.sweeps < 2 ^ 26 }
    requires gate { IsTrue (G.may_pass gate.now place_of.ClaimedSupporter number) }
    ensures fits { IsFitting (S.terms shared.now.key.system.value) shared.now.table_id seat.new }
    ensures same { (seat.new.me.0.places ≡ seat.old.me.0.places) × (seat.new.me.0.sweeps ≡ seat.old.me.0.sweeps + 1) }
    ensures loaded { let t = S.terms shared.now.key.system.value in IsRow t seat.new.me.0.loaded × IsRowPast t seat.old.me.0.seen seat.new.me.0.loaded × IsRowPast t seat.new.me.0.loaded seat.new.me.0.seen }
    ensures asked { let t = S.terms shared.now.key.system.value in AreSeen t seat.new.me.0.loaded seat.new.me.0.seen t.rules × AreSeen t seat.old.me.0.seen seat.new.me.0.seen t.rules }
    ensures begun { let t = S.terms shared.now.key.system.value in seat.new.me.0.begun ≡ seat.old.me.0.begun + asking t seat.new.me.0.loaded t.rules }
    ensures counts { result ≡ swept_of seat.new.me.0.mark seat.new.me.0.latest }
    ensures again { (done begun : ℕ) → result ≡ Swept.Again done begun → done ≢ begun }
    ensures quiet { result ≡ Swept.Quiet → (seat.new.me.0.quiet ≡ true) × IsLeastClosed (S.terms shared.now.key.system.value) shared.now.key.start.value seat.new.me.0.seen }
    ensures still_quiet { seat.old.me.0.quiet ≡ true → seat.new.me.0.quiet ≡ true }
    ensures within { IsWithinClosed (S.terms shared.now.key.system.value) shared.now.key.start.value seat.new.me.0.seen }
    ensures sole { let t = S.terms shared.now.key.system.value in length seat.old.me.0.places ≡ shared.now.key.seats → result ≢ Swept.Quiet → IsMoved t seat.old.me.0.seen seat.new.me.0.seen }
{
    let done = steps::load_done(shared, seat);
    load_row(shared, seat, row);
    raise_row(shared, system, seat, row, gate, number);
    let begun = steps::load_begun(shared, seat);
    if begun == done {
        Swept::Quiet
    } else {
        Swept::Again(done, begun)
    }
}
