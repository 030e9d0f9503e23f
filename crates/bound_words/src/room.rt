//! The memory of a table and of its seats, at the start and at the end.

ghost use Rattle.std.specs.Prelude.{◌≡◌, ℕ, ◌+◌, ◌^◌, ◌<◌, ◌≤◌, List, [], ◌∷◌, true, length, IfOk};
ghost use mathlib.Core.Option.{some};
ghost use lib.ListN.{get_elem?};
ghost use Rattle.bound_words.specs.declared.seat.RelaxSeat.{RelaxSeat};
ghost use Rattle.bound_words.specs.Rows.{IsRow, IsRowPast, IsBetween, IsLeastClosed};
ghost use Rattle.bound_words.specs.Protocol.{first_view};
ghost use Rattle.bound_words.specs.Fitting.{IsFitting};
ghost use Rattle.bound_words.specs.Seats.{IsNewSeat};

use crate::seat::RelaxSeat;
use crate::steps::{Words, hand_over};
use crate::system::System;
use crate::view::{Bounds, Key, View};
use atomic_table::{Seat, Table};
use std::alloc::{AllocError, Global};

/// The two counts, and the row after them.
pub(crate) fn counted(alloc: Global, start: &[u64]) -> Result<Vec<u64>, AllocError>
    ensures { IfOk result (λ words. words.items ≡ 0 ∷ 0 ∷ start.now) }
{
    let mut words = Vec::new(alloc);
    words.push(0)?;
    words.push(0)?;
    words.extend_from_slice(start)?;
    Ok(words)
}

/// The seats of a new table, each with room for a row. The last one takes the row that is handed in.
pub(crate) fn deal<S: System>(
    alloc: Global,
    shared: &Words<S>,
    start: &[u64],
    seats: u32,
    seat: Seat<(), View>,
    row: Vec<u64>,
) -> Result<Vec<RelaxSeat>, AllocError>
    requires start { IsRow (S.terms shared.now.key.system.value) start.now × ((S.terms shared.now.key.system.value).words < 2 ^ 32) }
    requires table { (shared.now.table_id.words ≡ (S.terms shared.now.key.system.value).words + 2) × (shared.now.table_id.slots ≡ 0) × (seat.table_id ≡ shared.now.table_id) }
    requires first { seat.me ≡ (first_view start.now seats, []) }
    requires some { 1 ≤ seats }
    requires row { length row.items ≡ length start.now }
    ensures count { IfOk result (λ list. length list.items ≡ seats) }
    ensures each { IfOk result (λ list. (i : ℕ) (s : RelaxSeat) → get_elem? list.items i ≡ some s → IsNewSeat (S.terms shared.now.key.system.value) start.now shared.now.table_id i s) }
{
    let mut rest = seat;
    let mut list = Vec::with_capacity(alloc, seats as usize)?;
    for number in 0..seats - 1 {
        let row = start.to_vec(alloc)?;
        let seat = hand_over(shared, &mut rest);
        list.push_reserved(RelaxSeat { number, row, seat });
    }
    list.push_reserved(RelaxSeat {
        number: seats - 1,
        row,
        seat: rest,
    });
    Ok(list)
}

/// Takes a table apart, and leaves its row.
pub(crate) fn gather<S: System>(
    table: Table<(), View, Key<S>, Bounds<S>, Global>,
    seat: Seat<(), View>,
    row: &mut [u64],
)
    requires fits { IsFitting (S.terms table.shared.key.system.value) table.shared.table_id seat }
    requires row { length row.old ≡ (S.terms table.shared.key.system.value).words }
    ensures is_row { IsRow (S.terms table.shared.key.system.value) row.new }
    ensures between { IsBetween (S.terms table.shared.key.system.value) table.shared.key.start.value row.new }
    ensures past { IsRowPast (S.terms table.shared.key.system.value) seat.me.0.seen row.new }
    ensures least { seat.me.0.quiet ≡ true → IsLeastClosed (S.terms table.shared.key.system.value) table.shared.key.start.value row.new }
{
    let closed = table.close_with(seat);
    for word in 0..row.len() {
        row[word] = closed.word(word + 2);
    }
    closed.free();
}
