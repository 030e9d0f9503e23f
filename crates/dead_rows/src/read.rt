//! What is read of a row that a seat knows.

use crate::store::DeadRows;
use box_model::{May, StateBox};
use box_words::{decimal_of, lower_lets_in, may_of, upper_lets_in};
use ground_task::State;
use num_ends::{Dec, End, Interval, List, NoMemory};
use word_rows::RowSeat;

impl DeadRows {
    ghost use Rattle.std.specs.Prelude.{◌≡◌, ◌≢◌, ◌<◌, ◌+◌, ◌*◌, ℕ, false, length, map, slice_index, slice_index_or, IsTrue, IsFalse, IfOk};
    ghost use Rattle.std.specs.List.{range_with_len};
    ghost use Rattle.num_ends.specs.Decimal.{IsDec};
    ghost use Rattle.num_ends.specs.declared.ends.End.TheVariants.{NegInf, PosInf};
    ghost use Rattle.num_ends.specs.Ends.{has, is_above, is_below, is_inhabited};
    ghost use Rattle.ground_task.specs.Meaning.{fluent_value};
    ghost use Rattle.box_model.specs.Boxes.{may_be};
    ghost use Rattle.box_words.specs.Words.{decimal_of, end_at, fact_at, interval_at, IsEndWords};
    ghost use Rattle.word_rows.specs.Rule.{row_start};
    ghost use Rattle.word_rows.specs.Tables.{view_of, width_of};
    ghost use Rattle.dead_rows.specs.Seats.{task_of, store_id, CanRead, row_words};
    ghost use Rattle.dead_rows.specs.Readings.{AreEnds, AreInhabited};
    ghost use Rattle.dead_rows.specs.Entries.{SpellsDead};
    ghost use Rattle.box_model.specs.declared.state_box.StateBox.{StateBox};

    // A word of a row whose first word stands at `start`.
    #[inline]
    fn word_from(&self, seat: &mut RowSeat, row: usize, start: usize, place: usize) -> u64
        requires seat { CanRead (store_id self.now) seat.old row }
        requires start { start ≡ row_start (width_of self.now.rows) row }
        requires place { place < self.now.shape.facts + 8 * length self.now.shape.places }
        ensures seat { CanRead (store_id self.now) seat.new row }
        ensures view { view_of seat.new ≡ view_of seat.old }
        ensures word { result ≡ slice_index (row_words seat.old row) place }
    {
        self.rows.load_word_from(seat, row, start, place)
    }

    fn word(&self, seat: &mut RowSeat, row: usize, place: usize) -> u64
        requires seat { CanRead (store_id self.now) seat.old row }
        requires place { place < self.now.shape.facts + 8 * length self.now.shape.places }
        ensures seat { CanRead (store_id self.now) seat.new row }
        ensures view { view_of seat.new ≡ view_of seat.old }
        ensures word { result ≡ slice_index (row_words seat.old row) place }
    {
        self.rows.load_word(seat, row, place)
    }

    // The decimal behind the kind of an end.
    fn decimal(&self, seat: &mut RowSeat, row: usize, place: usize) -> Dec
        requires seat { CanRead (store_id self.now) seat.old row }
        requires place { place + 3 < self.now.shape.facts + 8 * length self.now.shape.places }
        requires decimal { let words = row_words seat.old row in IsDec (decimal_of (slice_index words (place + 1)) (slice_index words (place + 2)) (slice_index words (place + 3))) }
        ensures seat { CanRead (store_id self.now) seat.new row }
        ensures view { view_of seat.new ≡ view_of seat.old }
        ensures decimal { let words = row_words seat.old row in result ≡ decimal_of (slice_index words (place + 1)) (slice_index words (place + 2)) (slice_index words (place + 3)) }
    {
        let places = self.word(seat, row, place + 1);
        let high = self.word(seat, row, place + 2);
        let low = self.word(seat, row, place + 3);
        decimal_of(places, high, low)
    }

    // The end that stands from a place on, on the side whose infinite end this is.
    fn end(&self, seat: &mut RowSeat, row: usize, place: usize, infinite: End) -> End
        requires seat { CanRead (store_id self.now) seat.old row }
        requires place { place + 3 < self.now.shape.facts + 8 * length self.now.shape.places }
        requires end { IsEndWords (row_words seat.old row) place }
        ensures seat { CanRead (store_id self.now) seat.new row }
        ensures view { view_of seat.new ≡ view_of seat.old }
        ensures end { result ≡ end_at infinite (row_words seat.old row) place }
    {
        match self.word(seat, row, place) {
            0 => infinite,
            1 => End::Excl(self.decimal(seat, row, place)),
            _ => End::Incl(self.decimal(seat, row, place)),
        }
    }

    // Whether a finite lower end lets a value in, by the words behind its kind.
    #[inline]
    fn lower_finite(
        &self,
        seat: &mut RowSeat,
        row: usize,
        start: usize,
        place: usize,
        kind: u64,
        value: &Dec,
    ) -> bool
        requires seat { CanRead (store_id self.now) seat.old row }
        requires start { start ≡ row_start (width_of self.now.rows) row }
        requires place { place + 3 < self.now.shape.facts + 8 * length self.now.shape.places }
        requires kind { (kind ≢ 0) × (kind ≡ slice_index (row_words seat.old row) place) }
        requires end { IsEndWords (row_words seat.old row) place }
        ensures seat { CanRead (store_id self.now) seat.new row }
        ensures view { view_of seat.new ≡ view_of seat.old }
        ensures lets_in { result ≡ is_above (end_at NegInf (row_words seat.old row) place) value.now }
    {
        let places = self.word_from(seat, row, start, place + 1);
        let high = self.word_from(seat, row, start, place + 2);
        let low = self.word_from(seat, row, start, place + 3);
        lower_lets_in(kind, places, high, low, value)
    }

    // Whether a finite upper end lets a value in, by the words behind its kind.
    #[inline]
    fn upper_finite(
        &self,
        seat: &mut RowSeat,
        row: usize,
        start: usize,
        place: usize,
        kind: u64,
        value: &Dec,
    ) -> bool
        requires seat { CanRead (store_id self.now) seat.old row }
        requires start { start ≡ row_start (width_of self.now.rows) row }
        requires place { place + 3 < self.now.shape.facts + 8 * length self.now.shape.places }
        requires kind { (kind ≢ 0) × (kind ≡ slice_index (row_words seat.old row) place) }
        requires end { IsEndWords (row_words seat.old row) place }
        ensures seat { CanRead (store_id self.now) seat.new row }
        ensures view { view_of seat.new ≡ view_of seat.old }
        ensures lets_in { result ≡ is_below (end_at PosInf (row_words seat.old row) place) value.now }
    {
        let places = self.word_from(seat, row, start, place + 1);
        let high = self.word_from(seat, row, start, place + 2);
        let low = self.word_from(seat, row, start, place + 3);
        upper_lets_in(kind, places, high, low, value)
    }

    // Whether a lower end lets a value in. An infinite one is left at its kind.
    #[inline]
    fn lower_has(
        &self,
        seat: &mut RowSeat,
        row: usize,
        start: usize,
        place: usize,
        value: &Dec,
    ) -> bool
        requires seat { CanRead (store_id self.now) seat.old row }
        requires start { start ≡ row_start (width_of self.now.rows) row }
        requires place { place + 3 < self.now.shape.facts + 8 * length self.now.shape.places }
        requires end { IsEndWords (row_words seat.old row) place }
        ensures seat { CanRead (store_id self.now) seat.new row }
        ensures view { view_of seat.new ≡ view_of seat.old }
        ensures lets_in { result ≡ is_above (end_at NegInf (row_words seat.old row) place) value.now }
    {
        let kind = self.word_from(seat, row, start, place);
        if kind == 0 {
            return true;
        }
        self.lower_finite(seat, row, start, place, kind, value)
    }

    // Whether an upper end lets a value in. An infinite one is left at its kind.
    #[inline]
    fn upper_has(
        &self,
        seat: &mut RowSeat,
        row: usize,
        start: usize,
        place: usize,
        value: &Dec,
    ) -> bool
        requires seat { CanRead (store_id self.now) seat.old row }
        requires start { start ≡ row_start (width_of self.now.rows) row }
        requires place { place + 3 < self.now.shape.facts + 8 * length self.now.shape.places }
        requires end { IsEndWords (row_words seat.old row) place }
        ensures seat { CanRead (store_id self.now) seat.new row }
        ensures view { view_of seat.new ≡ view_of seat.old }
        ensures lets_in { result ≡ is_below (end_at PosInf (row_words seat.old row) place) value.now }
    {
        let kind = self.word_from(seat, row, start, place);
        if kind == 0 {
            return true;
        }
        self.upper_finite(seat, row, start, place, kind, value)
    }

    // Whether a fluent's interval has a decimal. The upper end is read where the lower one doesn't decide.
    #[inline]
    fn fluent_has(
        &self,
        seat: &mut RowSeat,
        row: usize,
        start: usize,
        fluent: usize,
        value: &Dec,
    ) -> bool
        requires seat { CanRead (store_id self.now) seat.old row }
        requires start { start ≡ row_start (width_of self.now.rows) row }
        requires fluent { fluent < length self.now.shape.places }
        requires ends { AreEnds self.now.shape (row_words seat.old row) }
        ensures seat { CanRead (store_id self.now) seat.new row }
        ensures view { view_of seat.new ≡ view_of seat.old }
        ensures has { result ≡ has (interval_at self.now.shape.facts (row_words seat.old row) fluent) value.now }
    {
        let place = self.shape.facts + 8 * fluent;
        if !self.lower_has(seat, row, start, place, value) {
            return false;
        }
        self.upper_has(seat, row, start, place + 4, value)
    }

    // Whether the facts of a state lie in the box, left at the first that doesn't.
    pub(crate) fn has_facts(&self, seat: &mut RowSeat, row: usize, state: &State) -> bool
        requires seat { CanRead (store_id self.now) seat.old row }
        requires facts { length state.now.facts ≡ self.now.shape.facts }
        ensures seat { CanRead (store_id self.now) seat.new row }
        ensures view { view_of seat.new ≡ view_of seat.old }
        ensures all { IsTrue result → (f : ℕ) → f < self.now.shape.facts → IsTrue (may_be (fact_at (row_words seat.old row) f) (slice_index_or state.now.facts f false)) }
        ensures one { IsFalse result → (f : ℕ) × (f < self.now.shape.facts) × IsFalse (may_be (fact_at (row_words seat.old row) f) (slice_index_or state.now.facts f false)) }
    {
        let start = self.rows.start(row);
        'facts: for fact in 0..self.shape.facts {
            let may = may_of(self.word_from(seat, row, start, fact));
            if !may.may_be(state.fact(fact as u32)) {
                return false;
            }
        }
        true
    }

    // Whether the values of a state lie in the box, left at the first that doesn't.
    pub(crate) fn has_values(&self, seat: &mut RowSeat, row: usize, state: &State) -> bool
        requires seat { CanRead (store_id self.now) seat.old row }
        requires values { length state.now.values ≡ length self.now.shape.places }
        requires ends { AreEnds self.now.shape (row_words seat.old row) }
        ensures seat { CanRead (store_id self.now) seat.new row }
        ensures view { view_of seat.new ≡ view_of seat.old }
        ensures all { IsTrue result → (x : ℕ) → x < length self.now.shape.places → IsTrue (has (interval_at self.now.shape.facts (row_words seat.old row) x) (fluent_value self.now.shape.places state.now x)) }
        ensures one { IsFalse result → (x : ℕ) × (x < length self.now.shape.places) × IsFalse (has (interval_at self.now.shape.facts (row_words seat.old row) x) (fluent_value self.now.shape.places state.now x)) }
    {
        let start = self.rows.start(row);
        'fluents: for fluent in 0..self.shape.places.len() {
            let value = self.shape.value(state, fluent);
            if !self.fluent_has(seat, row, start, fluent, &value) {
                return false;
            }
        }
        true
    }

    // The truth values of each fact.
    fn read_facts(&self, seat: &mut RowSeat, row: usize) -> Result<Vec<May>, NoMemory>
        requires seat { CanRead (store_id self.now) seat.old row }
        ensures seat { CanRead (store_id self.now) seat.new row }
        ensures view { view_of seat.new ≡ view_of seat.old }
        ensures facts { IfOk result (λ facts. facts.items ≡ map (fact_at (row_words seat.old row)) (range_with_len 0 self.now.shape.facts)) }
    {
        let mut facts = Vec::with_capacity(self.alloc, self.shape.facts)?;
        'facts: for fact in 0..self.shape.facts {
            facts.push_reserved(may_of(self.word(seat, row, fact)));
        }
        Ok(facts)
    }

    fn read_fluent(&self, seat: &mut RowSeat, row: usize, fluent: usize) -> Interval
        requires seat { CanRead (store_id self.now) seat.old row }
        requires fluent { fluent < length self.now.shape.places }
        requires ends { AreEnds self.now.shape (row_words seat.old row) }
        requires inhabited { let i = interval_at self.now.shape.facts (row_words seat.old row) fluent in IsTrue (is_inhabited i.0 i.1) }
        ensures seat { CanRead (store_id self.now) seat.new row }
        ensures view { view_of seat.new ≡ view_of seat.old }
        ensures fluent { result ≡ interval_at self.now.shape.facts (row_words seat.old row) fluent }
    {
        let place = self.shape.facts + 8 * fluent;
        let lower = self.end(seat, row, place, End::NegInf);
        let upper = self.end(seat, row, place + 4, End::PosInf);
        Interval::of(lower, upper).unwrap()
    }

    // The interval of each fluent.
    fn read_fluents(&self, seat: &mut RowSeat, row: usize) -> Result<Vec<Interval>, NoMemory>
        requires seat { CanRead (store_id self.now) seat.old row }
        requires ends { AreEnds self.now.shape (row_words seat.old row) }
        requires inhabited { AreInhabited self.now.shape (row_words seat.old row) }
        ensures seat { CanRead (store_id self.now) seat.new row }
        ensures view { view_of seat.new ≡ view_of seat.old }
        ensures fluents { IfOk result (λ fluents. fluents.items ≡ map (interval_at self.now.shape.facts (row_words seat.old row)) (range_with_len 0 (length self.now.shape.places))) }
    {
        let count = self.shape.places.len();
        let mut fluents = Vec::with_capacity(self.alloc, count)?;
        'fluents: for fluent in 0..count {
            fluents.push_reserved(self.read_fluent(seat, row, fluent));
        }
        Ok(fluents)
    }

    // The box whose words stand in a row.
    pub(crate) fn read_box(&self, seat: &mut RowSeat, row: usize) -> Result<StateBox, NoMemory>
        requires seat { CanRead (store_id self.now) seat.old row }
        requires spells { (b : StateBox) × SpellsDead (task_of self.now) (row_words seat.old row) b }
        ensures seat { CanRead (store_id self.now) seat.new row }
        ensures view { view_of seat.new ≡ view_of seat.old }
        ensures read { IfOk result (λ r. (b : StateBox) → SpellsDead (task_of self.now) (row_words seat.old row) b → r ≡ b) }
    {
        let facts = self.read_facts(seat, row)?;
        let fluents = self.read_fluents(seat, row)?;
        Ok(StateBox {
            facts: List::from_vec(facts),
            fluents: List::from_vec(fluents),
        })
    }
}
