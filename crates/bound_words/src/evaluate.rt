//! One rule: what it asks for on a row that was loaded, and the raise.

ghost use Rattle.std.specs.Prelude.{◌≡◌, ℕ, ◌+◌, ◌*◌, ◌<◌, ◌≤◌, [], length, Some};
ghost use Rattle.bound_words.specs.Rows.{IsRow};
ghost use Rattle.bound_words.specs.Sweeps as sweeps;
ghost use Rattle.bound_words.specs.Turns.{IsRaisedTo, IsEvaluated};
ghost use Rattle.bound_words.specs.Fitting.{IsFitting};

use crate::steps;
use crate::steps::Words;
use crate::system::{Direction, System};
use crate::view::View;
use atomic_table::Seat;

/// Whether `asked` is more than a word has.
pub(crate) fn is_more(direction: Direction, has: u64, asked: u64) -> bool
    ensures { result ≡ sweeps.is_more direction has asked }
{
    match direction {
        Direction::Max => has < asked,
        Direction::Min => asked < has,
        Direction::Or => has | asked != has,
    }
}

/// Announces a raise, makes it, and counts it as done.
fn announce_and_raise<S: System>(
    shared: &Words<S>,
    seat: &mut Seat<(), View>,
    direction: Direction,
    word: usize,
    value: u64,
)
    requires fits { IsFitting (S.terms shared.now.key.system.value) shared.now.table_id seat.old }
    requires few { seat.old.me.0.begun < (S.terms shared.now.key.system.value).rules * seat.old.me.0.sweeps }
    requires loaded { IsRow (S.terms shared.now.key.system.value) seat.old.me.0.loaded }
    requires direction { direction ≡ (S.terms shared.now.key.system.value).direction word }
    requires asked { (rule : ℕ) × (rule < (S.terms shared.now.key.system.value).rules) × ((S.terms shared.now.key.system.value).asks rule seat.old.me.0.loaded ≡ Some (word, value)) }
    ensures seat { (seat.new.table_id ≡ seat.old.table_id) × (seat.new.id ≡ seat.old.id) × (seat.new.me.1 ≡ []) }
    ensures view { IsRaisedTo direction seat.old.me.0 word value seat.new.me.0 }
{
    steps::begin(shared, seat);
    steps::raise(shared, seat, direction, word, value);
    steps::end(shared, seat);
}

/// Evaluates a rule on the loaded row, and raises the word that it asks for more.
pub(crate) fn evaluate<S: System>(
    shared: &Words<S>,
    system: &S,
    seat: &mut Seat<(), View>,
    row: &[u64],
    rule: u32,
)
    requires system { shared.now.key.system.value ≡ system.now }
    requires fits { IsFitting (S.terms shared.now.key.system.value) shared.now.table_id seat.old }
    requires few { seat.old.me.0.begun < (S.terms shared.now.key.system.value).rules * seat.old.me.0.sweeps }
    requires row { IsRow (S.terms shared.now.key.system.value) row.now × (seat.old.me.0.loaded ≡ row.now) }
    requires rule { rule < (S.terms shared.now.key.system.value).rules }
    ensures seat { (seat.new.table_id ≡ seat.old.table_id) × (seat.new.id ≡ seat.old.id) × (seat.new.me.1 ≡ []) }
    ensures view { IsEvaluated (S.terms shared.now.key.system.value) row.now rule seat.old.me.0 seat.new.me.0 }
{
    let Some((word, value)) = system.raise(rule, row) else {
        return;
    };
    let direction = system.direction(word);
    let at = word as usize;
    if is_more(direction, row[at], value) {
        announce_and_raise(shared, seat, direction, at, value);
    }
}
