//! Tables of words that threads share, and the calls of their seats.

ghost use Rattle.edge_io.specs.declared.gate.Place.TheVariants as place_of;
ghost use Rattle.std.specs.Prelude.{IsTrue, ◌≡◌, ◌≢◌, ℕ, ◌+◌, ◌^◌, ◌<◌, ◌≤◌, [], ◌++◌, Bool, true, ◌||◌, length, slice_index, slice_set, All, IfOk};
ghost use mathlib.Core.Option.{some};
ghost use lib.ListN.{get_elem?};
ghost use Rattle.bound_words.specs.Rows.{IsRow, IsRowPast, IsPast, IsBetween, IsBetweenAt, IsSettledAt, IsWithinClosed, IsLeastClosed};
ghost use Rattle.bound_words.specs.declared.seat.RelaxSeat.{RelaxSeat};
ghost use Rattle.bound_words.specs.Protocol.{further_row};
ghost use Rattle.bound_words.specs.Sweeps.{asking, AreSeen, IsMoved, swept_of};
ghost use Rattle.bound_words.specs.Seats.{IsNewSeat, IsQuiet, number_of, seen_by, loaded_by, places_of, sweeps_of, begun_by, done_at_start, begun_at_end};

use crate::room::{counted, deal, gather};
use crate::seat::RelaxSeat;
use crate::steps;
use crate::sweep::sweep_words;
use crate::swept::Swept;
use crate::system::System;
use crate::view::{Bounds, Key, View};
use atomic_table::Table;
use edge_io::Gate;
use num_ends::{List, NoMemory};
use std::alloc::Global;
use std::snapshot::Snapshot;

/// Words that threads raise, each through a seat of its own, by what the rules of a system ask for.
///
/// In contracts `terms_of`, `start_of` and `seats_of` are what the table was made for: the terms of its system, the
/// start row and the number of seats.
#[derive(Drop)]
pub struct RelaxTable<S: System> {
    table: Table<(), View, Key<S>, Bounds<S>, Global>,
    system: S,
    ghost same_system: { table.shared.key.system.value ≡ system },
}

impl<S: System + Drop> RelaxTable<S> {
    ghost use Rattle.bound_words.specs.Tables.{terms_of, start_of, seats_of, id_of, IsSeatOf, IsFresh};

    /// A table over the start row, with its seats, of which the i-th has the number i.
    ///
    /// All memory that the table and its seats need is taken here.
    pub fn new(
        alloc: Global,
        system: S,
        start: &[u64],
        seats: u32,
    ) -> Result<(RelaxTable<S>, List<RelaxSeat>), NoMemory>
        requires row { length start.now ≡ (S.terms system).words }
        requires seats { (1 ≤ seats) × (seats ≤ 16) }
        ensures table { IfOk result (λ made. (terms_of S.terms made.0 ≡ S.terms system) × (start_of made.0 ≡ start.now) × (seats_of made.0 ≡ seats)) }
        ensures count { IfOk result (λ made. length made.1 ≡ seats) }
        ensures seats { IfOk result (λ made. (i : ℕ) (s : RelaxSeat) → get_elem? made.1 i ≡ some s → IsNewSeat (S.terms system) start.now (id_of made.0) i s) }
        ensures each { IfOk result (λ made. All (IsFresh S.terms made.0) made.1) }
    {
        let _rules = system.rules();
        let _words = system.words();
        let first = List::from_vec(start.to_vec(alloc)?);
        let key = Key {
            system: Snapshot::of(&system),
            start: Snapshot::of(&first),
            seats,
        };
        let words = counted(alloc, start)?;
        let (table, seat) = Table::of_words(alloc, words.as_slice(), &key)?;
        let list = deal(alloc, &table.shared, start, seats, seat, first.into_vec())?;
        Ok((RelaxTable { table, system }, List::from_vec(list)))
    }

    /// The row, for a seat that has every place.
    ///
    /// It lies between the start and the least closed row, past what the seat has seen. Where a sweep of the seat, or
    /// of a seat joined into it, answered `Quiet`, it is the least closed row.
    pub fn close(self, seat: RelaxSeat) -> List<u64>
        requires seat { IsSeatOf S.terms self seat }
        requires every_place { length (places_of seat) ≡ seats_of self }
        ensures row { IsRow (terms_of S.terms self) result }
        ensures between { IsBetween (terms_of S.terms self) (start_of self) result }
        ensures past { IsRowPast (terms_of S.terms self) (seen_by seat) result }
        ensures least { IsQuiet seat → IsLeastClosed (terms_of S.terms self) (start_of self) result }
    {
        let RelaxTable { table, system: _ } = self;
        let RelaxSeat {
            number: _,
            mut row,
            seat,
        } = seat;
        gather(table, seat, row.as_mut_slice());
        List::from_vec(row)
    }
}

impl<S: System> RelaxTable<S> {
    ghost use Rattle.bound_words.specs.Tables.{terms_of, start_of, seats_of, id_of, IsSeatOf};

    /// One sweep of the seat.
    ///
    /// It loads the count of done raises and then every word, evaluates every rule on the loaded words, raises each
    /// word of which a rule asks for more than was loaded, and loads the count of begun raises. `Quiet` comes exactly
    /// where the two counts are equal: then the row is the least closed row, from then on. It passes the gate before
    /// each evaluation, under the seat's number. Over a seat and those joined into it there are fewer than 2^26 sweeps.
    pub fn sweep<G: Gate>(&self, seat: RelaxSeat, gate: &G) -> (RelaxSeat, Swept)
        requires seat { IsSeatOf S.terms self.now seat }
        requires few { sweeps_of seat < 2 ^ 26 }
        requires gate { IsTrue (G.may_pass gate.now place_of.ClaimedSupporter (number_of seat)) }
        ensures seat { IsSeatOf S.terms self.now result.0 }
        ensures same { (number_of result.0 ≡ number_of seat) × (places_of result.0 ≡ places_of seat) × (sweeps_of result.0 ≡ sweeps_of seat + 1) }
        ensures loaded { let t = terms_of S.terms self.now in IsRow t (loaded_by result.0) × IsRowPast t (seen_by seat) (loaded_by result.0) × IsRowPast t (loaded_by result.0) (seen_by result.0) }
        ensures past { IsRowPast (terms_of S.terms self.now) (seen_by seat) (seen_by result.0) }
        ensures asked { let t = terms_of S.terms self.now in AreSeen t (loaded_by result.0) (seen_by result.0) t.rules × AreSeen t (seen_by seat) (seen_by result.0) t.rules }
        ensures begun { let t = terms_of S.terms self.now in begun_by result.0 ≡ begun_by seat + asking t (loaded_by result.0) t.rules }
        ensures counts { result.1 ≡ swept_of (done_at_start result.0) (begun_at_end result.0) }
        ensures again { (done begun : ℕ) → result.1 ≡ Swept.Again done begun → done ≢ begun }
        ensures quiet { result.1 ≡ Swept.Quiet → IsQuiet result.0 × IsLeastClosed (terms_of S.terms self.now) (start_of self.now) (seen_by result.0) }
        ensures still_quiet { IsQuiet seat → IsQuiet result.0 }
        ensures sole { let t = terms_of S.terms self.now in (done begun : ℕ) → length (places_of seat) ≡ seats_of self.now → result.1 ≡ Swept.Again done begun → IsMoved t (seen_by seat) (seen_by result.0) }
    {
        let RelaxSeat {
            number,
            mut row,
            mut seat,
        } = seat;
        let swept = sweep_words(
            &self.table.shared,
            &self.system,
            &mut seat,
            row.as_mut_slice(),
            gate,
            number,
        );
        (RelaxSeat { number, row, seat }, swept)
    }

    /// Loads one word.
    ///
    /// It lies between the start and the least closed row, past what the seat has seen. Where a sweep of the seat, or
    /// of a seat joined into it, answered `Quiet`, it is that of the least closed row.
    pub fn peek(&self, seat: RelaxSeat, word: u32) -> (RelaxSeat, u64)
        requires seat { IsSeatOf S.terms self.now seat }
        requires word { word < (terms_of S.terms self.now).words }
        ensures seat { IsSeatOf S.terms self.now result.0 }
        ensures same { (number_of result.0 ≡ number_of seat) × (places_of result.0 ≡ places_of seat) × (sweeps_of result.0 ≡ sweeps_of seat) × (IsQuiet seat → IsQuiet result.0) }
        ensures seen { seen_by result.0 ≡ slice_set (seen_by seat) word result.1 }
        ensures past { IsPast ((terms_of S.terms self.now).direction word) (slice_index (seen_by seat) word) result.1 }
        ensures between { IsBetweenAt (terms_of S.terms self.now) (start_of self.now) word result.1 }
        ensures settled { IsQuiet seat → IsSettledAt (terms_of S.terms self.now) (start_of self.now) word result.1 }
    {
        let RelaxSeat {
            number,
            row,
            mut seat,
        } = seat;
        let value = steps::look(&self.table.shared, &mut seat, word as usize);
        (RelaxSeat { number, row, seat }, value)
    }

    /// One seat of two: it has the places, the sweeps and the number of the first, takes in those of the second but for
    /// its number, and has seen the further value of each word.
    pub fn join(&self, first: RelaxSeat, second: RelaxSeat) -> RelaxSeat
        requires first { IsSeatOf S.terms self.now first }
        requires second { IsSeatOf S.terms self.now second }
        ensures seat { IsSeatOf S.terms self.now result }
        ensures number { number_of result ≡ number_of first }
        ensures places { places_of result ≡ places_of first ++ places_of second }
        ensures sums { (sweeps_of result ≡ sweeps_of first + sweeps_of second) × (begun_by result ≡ begun_by first + begun_by second) }
        ensures quiet { (IsQuiet first → IsQuiet result) × (IsQuiet second → IsQuiet result) }
        ensures past { let t = terms_of S.terms self.now in IsRowPast t (seen_by first) (seen_by result) × IsRowPast t (seen_by second) (seen_by result) }
        ensures seen { seen_by result ≡ further_row (terms_of S.terms self.now) 0 (seen_by first) (seen_by second) }
    {
        let RelaxSeat {
            number,
            row,
            mut seat,
        } = first;
        let RelaxSeat {
            number: _,
            row: _,
            seat: other,
        } = second;
        steps::take_in(&self.table.shared, &mut seat, other);
        RelaxSeat { number, row, seat }
    }
}
