//! The table of rows, and its seats.

ghost use Rattle.std.specs.Prelude.{◌≡◌, ◌+◌, ◌*◌, ◌^◌, ◌<◌, IfOk, replicate};

use crate::entries::{Entries, HandOver, Key, TakeIn, WrittenOnce};
use crate::view::{RowSeat, View};
use atomic_table::Table;
use num_ends::{List, NoMemory};
use std::alloc::Global;
use std::snapshot::Snapshot;

/// A table of 1,024 rows of words. A seat that drew a row's number writes it, word by word, and then opens it: from
/// then on each seat finds the row ready, with those words.
///
/// In contracts `entries_of`, `width_of` and `seats_of` are what the table was made for: what the words of a ready row
/// say, the number of words of a row, and the number of seats. `view_of` is what a seat knows.
#[derive(Drop)]
pub struct WordRows<E: Entries> {
    pub(crate) table: Table<(), View, Key<E>, WrittenOnce<E>, Global>,
    pub(crate) width: usize,
    ghost sized: { table.shared.table_id.words ≡ 1025 + 1024 * width },
    ghost same_width: { table.shared.key.width ≡ width },
    ghost few_words: { width < 2 ^ 32 },
}

impl<E: Entries> WordRows<E> {
    ghost use Rattle.std.specs.Prelude.{ℕ, ◌≡◌, ◌≤◌, ◌+◌, ◌*◌, ◌^◌, ◌<◌, [], length, All, IfOk, vec_capacity};
    ghost use Rattle.word_rows.specs.Views.{fresh_view, joined};
    ghost use Rattle.word_rows.specs.Tables.{view_of, IsIdle, IsFresh, id_of, entries_of, width_of, seats_of};

    /// A table without a ready row, and its seats, which have done nothing.
    pub fn new(
        alloc: Global,
        entries: &E,
        width: usize,
        seats: u32,
    ) -> Result<(WordRows<E>, List<RowSeat>), NoMemory>
        requires width { width < 2 ^ 32 }
        requires seats { (1 ≤ seats) × (seats ≤ 16) }
        ensures table { IfOk result (λ made. (entries_of made.0 ≡ entries.now) × (width_of made.0 ≡ width) × (seats_of made.0 ≡ seats)) }
        ensures count { IfOk result (λ made. length made.1 ≡ seats) }
        ensures seats { IfOk result (λ made. All (IsFresh (id_of made.0)) made.1) }
    {
        let row = Vec::with_capacity(alloc, seats as usize)?;
        let key = Key {
            entries: Snapshot::of(entries),
            width,
            seats,
        };
        let words = zeros(alloc, 1025 + 1024 * width)?;
        let (table, seat) = Table::of_words(alloc, words.as_slice(), &key)?;
        let rows = WordRows { table, width };
        let all = rows.deal(seat, row, seats);
        Ok((rows, all))
    }

    // Each seat that is joined in the first one gets a seat of its own.
    fn deal(&self, mut first: RowSeat, mut row: Vec<RowSeat>, seats: u32) -> List<RowSeat>
        requires seat { (first.table_id ≡ id_of self.now) × (first.me ≡ (fresh_view seats, [])) × (1 ≤ seats) }
        requires room { (row.items ≡ []) × (seats ≤ vec_capacity row) }
        ensures count { length result ≡ seats }
        ensures seats { All (IsFresh (id_of self.now)) result }
    {
        'seats: for _seat in 0..seats - 1 {
            let next = self.table.shared.split_seat::<HandOver>(&mut first);
            row.push_reserved(next);
        }
        row.push_reserved(first);
        List::from_vec(row)
    }

    /// One seat of two: it knows the rows of both, and has the claims and the loads of both.
    pub fn join(&self, first: RowSeat, second: RowSeat) -> RowSeat
        requires first { IsIdle (id_of self.now) first }
        requires second { IsIdle (id_of self.now) second }
        ensures seat { IsIdle (id_of self.now) result }
        ensures view { view_of result ≡ joined (view_of first) (view_of second) }
    {
        let mut seat = first;
        self.table.shared.join_seat::<TakeIn>(&mut seat, second);
        seat
    }
}

// So many words 0.
fn zeros(alloc: Global, count: usize) -> Result<Vec<u64>, NoMemory>
    ensures { IfOk result (λ words. words.items ≡ replicate count 0) }
{
    Ok(vec![in alloc; 0; count]?)
}
