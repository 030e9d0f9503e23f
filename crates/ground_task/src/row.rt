//! The words of a state in one row.

ghost use Rattle.std.specs.Prelude.{◌≡◌, ◌<◌, ◌≤◌, ◌+◌, ◌*◌, ◌/◌, ◌^◌, ℕ, false, true, length, not, pos, replicate, All, slice_index_or, slice_set, unsigned_abs, IfOk};
ghost use Rattle.std.specs.Int.{cast_signed, cast_unsigned, div_ceil, w64, w128};
ghost use Rattle.std.specs.Cmp.Lexicographic.{slice_cmp};
ghost use Rattle.std.specs.Ordering.{bool_cmp, int_cmp};
ghost use Rattle.std.specs.List.{list_all};
ghost use Rattle.num_ends.specs.Decimal.{InRange};
ghost use Rattle.ground_task.specs.Packed.{packed};
ghost use Rattle.ground_task.specs.Rows.{high_word, low_word, narrow_word, is_narrow, needs_two_words, number_word_count, words_of_row, FitsWords};

use num_ends::{Dec, NoMemory};
use std::alloc::Global;
use std::cmp::Ordering;
use std::marker::Model;

/// The facts of a state, packed, the first in the highest bit of the first word, and then its numbers: a word each, or two,
/// the high one first.
#[derive(Debug, Drop)]
pub(crate) struct Row {
    words: Vec<u64>,
    facts: u32,
    values: u32,
    is_wide: bool,
}

impl Model for Row {
    ghost use Rattle.ground_task.specs.Rows.{row_in, IsRow, RowValue};

    ghost Value = { RowValue };

    ghost view = { λ r. row_in r.words.items r.facts r.values r.is_wide };

    ghost invariant = { λ r. IsRow r.words.items r.facts r.values r.is_wide };
}

/// The number of a word.
fn narrow_number(word: u64) -> i128
    ensures { result ≡ cast_signed w64 word }
{
    i128::from(word.cast_signed())
}

/// The number of two words.
fn wide_number(high: u64, low: u64) -> i128
    ensures { result ≡ cast_signed w128 (high * 2 ^ 64 + low) }
{
    (u128::from(high) * (1 << 64) + u128::from(low)).cast_signed()
}

/// The word of a number.
fn narrow_word(value: Dec) -> u64
    requires fits { unsigned_abs value.n < 2 ^ 63 }
    ensures { result ≡ narrow_word value.n }
{
    (value.n as i64).cast_unsigned()
}

/// The high word of a number.
fn high_word(value: Dec) -> u64
    ensures { result ≡ high_word value.n }
{
    (value.n.cast_unsigned() >> 64) as u64
}

/// The low word of a number.
fn low_word(value: Dec) -> u64
    ensures { result ≡ low_word value.n }
{
    (value.n.cast_unsigned() % (1 << 64)) as u64
}

/// How many words so many numbers take.
fn number_word_count(is_wide: bool, count: u32) -> usize
    ensures { result ≡ number_word_count is_wide count }
{
    if is_wide {
        2 * count as usize
    } else {
        count as usize
    }
}

/// The number at a place behind the first words, with a word a number.
fn narrow_value(words: &Vec<u64>, start: usize, place: u32) -> i128
    requires within { start + place < length words.now.items }
    ensures { result ≡ cast_signed w64 (slice_index_or words.now.items (start + place) 0) }
{
    narrow_number(words[start + place as usize])
}

/// The number at a place behind the first words, with two words a number.
fn wide_value(words: &Vec<u64>, start: usize, place: u32) -> i128
    requires within { start + 2 * place + 1 < length words.now.items }
    ensures { result ≡ cast_signed w128 (slice_index_or words.now.items (start + 2 * place) 0 * 2 ^ 64 + slice_index_or words.now.items (start + 2 * place + 1) 0) }
{
    let at = start + 2 * place as usize;
    wide_number(words[at], words[at + 1])
}

/// Puts a number at a place behind the first words, with a word a number.
fn write_narrow(words: &mut Vec<u64>, start: usize, place: u32, value: Dec)
    requires within { start + place < length words.old.items }
    requires fits { unsigned_abs value.n < 2 ^ 63 }
    ensures { words.new.items ≡ slice_set words.old.items (start + place) (narrow_word value.n) }
{
    words[start + place as usize] = narrow_word(value);
}

/// Puts a number at a place behind the first words, with two words a number.
fn write_wide(words: &mut Vec<u64>, start: usize, place: u32, value: Dec)
    requires within { start + 2 * place + 1 < length words.old.items }
    ensures { words.new.items ≡ slice_set (slice_set words.old.items (start + 2 * place) (high_word value.n)) (start + 2 * place + 1) (low_word value.n) }
{
    let at = start + 2 * place as usize;
    words[at] = high_word(value);
    words[at + 1] = low_word(value);
}

/// Whether one word has room for a number.
fn is_narrow(number: i128) -> bool
    requires in_range { InRange number }
    ensures { result ≡ is_narrow number }
{
    number.unsigned_abs() < 1 << 63
}

/// Whether one word has room for each number.
fn is_each_narrow(values: &[i128]) -> bool
    requires in_range { All InRange values.now }
    ensures { result ≡ list_all is_narrow values.now }
{
    'each: for value in values {
        if !is_narrow(*value) {
            return false;
        }
    }
    true
}

/// Gives the facts these truth values.
fn fill_facts(facts: &[bool], row: &mut Row)
    requires few { length facts.now < 2 ^ 32 }
    requires as_many { length row.old.facts ≡ length facts.now }
    ensures facts { row.new.facts ≡ facts.now }
    ensures values { row.new.values ≡ row.old.values }
    ensures width { row.new.is_wide ≡ row.old.is_wide }
{
    'each: for number in 0..facts.len() {
        row.set_fact(number as u32, facts[number]);
    }
}

/// A number as a decimal without places.
#[tactic(auto, using(crate::proofs::FirstState::number_kept))]
fn whole(values: &[i128], place: usize) -> Dec
    requires in_range { All InRange values.now }
    requires known { place < length values.now }
    ensures { result.n ≡ slice_index_or values.now place (pos 0) }
{
    Dec {
        n: values[place],
        p: 0,
    }
}

/// Puts these numbers.
fn fill_values(values: &[i128], row: &mut Row)
    requires few { length values.now < 2 ^ 32 }
    requires in_range { All InRange values.now }
    requires as_many { length row.old.values ≡ length values.now }
    requires fits { All (FitsWords row.old.is_wide) values.now }
    ensures facts { row.new.facts ≡ row.old.facts }
    ensures values { row.new.values ≡ values.now }
    ensures width { row.new.is_wide ≡ row.old.is_wide }
{
    'each: for place in 0..values.len() {
        row.set_value(place as u32, whole(values, place));
    }
}

/// Takes over the facts of a row of as many of them.
fn convert_facts(from: &Row, row: &mut Row)
    requires as_many { length row.old.facts ≡ length from.now.facts }
    ensures facts { row.new.facts ≡ from.now.facts }
    ensures values { row.new.values ≡ row.old.values }
    ensures width { row.new.is_wide ≡ row.old.is_wide }
{
    'each: for number in 0..from.fact_count() {
        row.set_fact(number, from.fact(number));
    }
}

/// Takes over the number at a place.
fn convert_value(from: &Row, row: &mut Row, place: u32)
    requires known { place < length from.now.values }
    requires as_many { length row.old.values ≡ length from.now.values }
    requires fits { All (FitsWords row.old.is_wide) from.now.values }
    ensures { row.new ≡ record { facts = row.old.facts; values = slice_set row.old.values place (slice_index_or from.now.values place (pos 0)); is_wide = row.old.is_wide } }
{
    let value = Dec {
        n: from.value(place),
        p: 0,
    };
    row.set_value(place, value);
}

/// Takes over the numbers of a row of as many of them.
fn convert_values(from: &Row, row: &mut Row)
    requires as_many { length row.old.values ≡ length from.now.values }
    requires fits { All (FitsWords row.old.is_wide) from.now.values }
    ensures facts { row.new.facts ≡ row.old.facts }
    ensures values { row.new.values ≡ from.now.values }
    ensures width { row.new.is_wide ≡ row.old.is_wide }
{
    'each: for place in 0..from.value_count() {
        convert_value(from, row, place);
    }
}

impl Row {
    /// A row of so many facts, all false, and so many numbers, all 0.
    pub fn cleared(alloc: Global, facts: u32, values: u32, is_wide: bool) -> Result<Row, NoMemory>
        ensures { IfOk result (λ r. r ≡ record { facts = replicate facts false; values = replicate values (pos 0); is_wide = is_wide }) }
    {
        let count = (facts as usize).div_ceil(64) + number_word_count(is_wide, values);
        let words = vec![in alloc; 0; count]?;
        Ok(Row {
            words,
            facts,
            values,
            is_wide,
        })
    }

    /// The row of these truth values and numbers, with two words a number where one needs them.
    pub fn of(alloc: Global, facts: &[bool], values: &[i128]) -> Result<Row, NoMemory>
        requires few_facts { length facts.now < 2 ^ 32 }
        requires few_values { length values.now < 2 ^ 32 }
        requires in_range { All InRange values.now }
        ensures { IfOk result (λ r. r ≡ record { facts = facts.now; values = values.now; is_wide = needs_two_words values.now }) }
    {
        let is_wide = !is_each_narrow(values);
        let mut row = Row::cleared(alloc, facts.len() as u32, values.len() as u32, is_wide)?;
        fill_facts(facts, &mut row);
        fill_values(values, &mut row);
        Ok(row)
    }

    /// A row of the other width with the same facts and numbers.
    pub fn converted(&self, alloc: Global) -> Result<Row, NoMemory>
        requires fits { not self.now.is_wide ≡ false → All (FitsWords false) self.now.values }
        ensures { IfOk result (λ r. r ≡ record { facts = self.now.facts; values = self.now.values; is_wide = not self.now.is_wide }) }
    {
        let mut row = Row::cleared(
            alloc,
            self.fact_count(),
            self.value_count(),
            !self.is_wide(),
        )?;
        row.convert_from(self);
        Ok(row)
    }

    /// Whether each number takes two words.
    pub fn is_wide(&self) -> bool
        ensures value { result ≡ self.now.is_wide }
        ensures fits { All (FitsWords self.now.is_wide) self.now.values }
    {
        self.is_wide
    }

    /// How many words the facts take.
    fn fact_words(&self) -> usize
        ensures { result ≡ div_ceil (length self.now.facts) 64 }
    {
        (self.facts as usize).div_ceil(64)
    }

    /// Whether the fact of this number is true.
    pub fn fact(&self, number: u32) -> bool
        requires known { number < length self.now.facts }
        ensures { result ≡ slice_index_or self.now.facts number false }
    {
        let number = number as usize;
        (self.words[number / 64] >> (63 - number % 64)) & 1 == 1
    }

    /// Makes a fact true.
    pub fn add_fact(&mut self, number: u32)
        requires known { number < length self.old.facts }
        ensures { self.new ≡ record { facts = slice_set self.old.facts number true; values = self.old.values; is_wide = self.old.is_wide } }
    {
        let number = number as usize;
        self.words[number / 64] |= 1 << (63 - number % 64);
    }

    /// Makes a fact false.
    pub fn delete_fact(&mut self, number: u32)
        requires known { number < length self.old.facts }
        ensures { self.new ≡ record { facts = slice_set self.old.facts number false; values = self.old.values; is_wide = self.old.is_wide } }
    {
        let number = number as usize;
        self.words[number / 64] &= !(1 << (63 - number % 64));
    }

    /// The number at a place.
    pub fn value(&self, place: u32) -> i128
        requires known { place < length self.now.values }
        ensures value { result ≡ slice_index_or self.now.values place (pos 0) }
        ensures in_range { InRange result }
    {
        let start = self.fact_words();
        if self.is_wide {
            wide_value(&self.words, start, place)
        } else {
            narrow_value(&self.words, start, place)
        }
    }

    /// Puts the number of a value at a place.
    pub fn set_value(&mut self, place: u32, value: Dec)
        requires known { place < length self.old.values }
        requires fits { FitsWords self.old.is_wide value.n }
        ensures { self.new ≡ record { facts = self.old.facts; values = slice_set self.old.values place value.n; is_wide = self.old.is_wide } }
    {
        let start = self.fact_words();
        if self.is_wide {
            write_wide(&mut self.words, start, place, value);
        } else {
            write_narrow(&mut self.words, start, place, value);
        }
    }

    /// Gives a fact a truth value.
    pub fn set_fact(&mut self, number: u32, truth: bool)
        requires known { number < length self.old.facts }
        ensures { self.new ≡ record { facts = slice_set self.old.facts number truth; values = self.old.values; is_wide = self.old.is_wide } }
    {
        if truth {
            self.add_fact(number);
        } else {
            self.delete_fact(number);
        }
    }

    /// How many facts there are.
    pub fn fact_count(&self) -> u32
        ensures { result ≡ length self.now.facts }
    {
        self.facts
    }

    /// How many numbers there are.
    pub fn value_count(&self) -> u32
        ensures { result ≡ length self.now.values }
    {
        self.values
    }

    /// The words.
    pub fn words(&self) -> &Vec<u64>
        ensures { result.now.items ≡ words_of_row self.now }
    {
        &self.words
    }

    /// Whether two rows are equal.
    pub fn is_same(&self, other: &Row) -> bool
        ensures one { result ≡ true → self.now ≡ other.now }
        ensures itself { self.now ≡ other.now → result ≡ true }
    {
        if self.facts != other.facts {
            return false;
        }
        if self.values != other.values {
            return false;
        }
        if self.is_wide != other.is_wide {
            return false;
        }
        self.words == other.words
    }

    /// The words of the facts.
    fn front(&self) -> &[u64]
        ensures { result.now ≡ packed self.now.facts }
    {
        &self.words.as_slice()[..(self.facts as usize).div_ceil(64)]
    }

    /// The order of the facts, with false first.
    pub fn cmp_facts(&self, other: &Row) -> Ordering
        ensures { result ≡ slice_cmp bool_cmp self.now.facts other.now.facts }
    {
        self.front()
            .cmp(&other.front())
            .then(self.fact_count().cmp(&other.fact_count()))
    }

    /// The order of the numbers.
    pub fn cmp_values(&self, other: &Row) -> Ordering
        ensures { result ≡ slice_cmp int_cmp self.now.values other.now.values }
    {
        let count = self.value_count().min(other.value_count());
        'each: for place in 0..count {
            let order = self.value(place).cmp(&other.value(place));
            if !matches!(order, Ordering::Equal) {
                return order;
            }
        }
        self.value_count().cmp(&other.value_count())
    }

    /// Whether one word has room for each number.
    pub fn is_all_narrow(&self) -> bool
        ensures { result ≡ list_all is_narrow self.now.values }
    {
        'each: for place in 0..self.value_count() {
            if !is_narrow(self.value(place)) {
                return false;
            }
        }
        true
    }

    /// Whether the words of a number have room for that of a value.
    fn has_room(&self, value: Dec) -> bool
        ensures fits { result ≡ true → FitsWords self.now.is_wide value.n }
        ensures narrow { result ≡ false → self.now.is_wide ≡ false }
    {
        if self.is_wide() {
            true
        } else {
            is_narrow(value.n)
        }
    }

    /// Puts the number of a value at a place where its words have room; else the row, with a word a number, stays as it is.
    pub fn try_value(&mut self, place: u32, value: Dec) -> bool
        requires known { place < length self.old.values }
        ensures written { result ≡ true → self.new ≡ record { facts = self.old.facts; values = slice_set self.old.values place value.n; is_wide = self.old.is_wide } }
        ensures outgrown { result ≡ false → (self.old.is_wide ≡ false) × (self.new ≡ self.old) }
    {
        if !self.has_room(value) {
            return false;
        }
        self.set_value(place, value);
        true
    }

    /// Takes over the facts and numbers of a row of as many of them, of whichever width.
    pub fn convert_from(&mut self, other: &Row)
        requires as_many_facts { length self.old.facts ≡ length other.now.facts }
        requires as_many_values { length self.old.values ≡ length other.now.values }
        requires fits { self.old.is_wide ≡ false → All (FitsWords false) other.now.values }
        ensures { self.new ≡ record { facts = other.now.facts; values = other.now.values; is_wide = self.old.is_wide } }
    {
        let _ = &other.words;
        convert_facts(other, self);
        convert_values(other, self);
    }

    /// Takes over a row of as many facts and numbers, of one width.
    pub fn copy_from(&mut self, other: &Row)
        requires as_many_facts { length self.old.facts ≡ length other.now.facts }
        requires as_many_values { length self.old.values ≡ length other.now.values }
        requires one_width { self.old.is_wide ≡ other.now.is_wide }
        ensures { self.new ≡ other.now }
    {
        self.words
            .as_mut_slice()
            .copy_from_slice(other.words.as_slice());
    }

    /// An equal row.
    pub fn copy(&self, alloc: Global) -> Result<Row, NoMemory>
        ensures { IfOk result (λ r. r ≡ self.now) }
    {
        Ok(Row {
            words: Vec::from_slice(alloc, self.words.as_slice())?,
            facts: self.facts,
            values: self.values,
            is_wide: self.is_wide,
        })
    }
}
