//! The words of a box, one by one.

ghost use Rattle.std.specs.Prelude.{◌≡◌, ◌<◌, ◌≤◌, ◌+◌, ◌*◌, ◌^◌, ℕ, length, slice_index, slice_index_or, flat_map, pos, neg_ℤ};
ghost use Rattle.num_ends.specs.Decimal.{IsDec};
ghost use Rattle.num_ends.specs.Ends.{whole_line};
ghost use Rattle.box_model.specs.Boxes.{fluent_in};
ghost use Rattle.box_words.specs.Words.{fact_word, shifted, finite_words, end_words, interval_words, words_of, width_of, may_of, decimal_of, IsEndDec};

use box_model::{May, StateBox};
use num_ends::{Dec, End, Interval};

// 2^127
const MIDDLE: u128 = 1 << 127;

// 2^64
const HALF: u128 = 1 << 64;

fn fact_word(may: May) -> u64
    ensures { result ≡ fact_word may }
{
    match may {
        May::True => 0,
        May::False => 1,
        May::Any => 2,
    }
}

// A number plus 2^127.
fn shifted(d: Dec) -> u128
    ensures { result ≡ shifted d.n }
{
    let magnitude = d.n.unsigned_abs();
    if d.n < 0 {
        MIDDLE - magnitude
    } else {
        MIDDLE + magnitude
    }
}

// One of the four words of a finite end of this kind.
fn finite_word(kind: u64, d: Dec, part: usize) -> u64
    requires part { part < 4 }
    ensures word { result ≡ slice_index (finite_words kind d) part }
    ensures decimal { IsDec d }
{
    match part {
        0 => kind,
        1 => u64::from(d.p),
        2 => (shifted(d) / HALF) as u64,
        _ => (shifted(d) % HALF) as u64,
    }
}

// One of the four words of an end.
fn end_word(end: End, part: usize) -> u64
    requires part { part < 4 }
    ensures word { result ≡ slice_index (end_words end) part }
    ensures decimal { IsEndDec end }
{
    match end {
        End::NegInf | End::PosInf => 0,
        End::Excl(d) => finite_word(1, d, part),
        End::Incl(d) => finite_word(2, d, part),
    }
}

// One of the eight words of an interval.
fn interval_word(interval: Interval, part: usize) -> u64
    requires part { part < 8 }
    ensures word { result ≡ slice_index (interval_words interval) part }
    ensures decimals { IsEndDec interval.0 × IsEndDec interval.1 }
{
    let (lower, upper) = (interval.lower(), interval.upper());
    let first = end_word(lower, part % 4);
    let second = end_word(upper, part % 4);
    if part < 4 { first } else { second }
}

// One of the words of all intervals.
fn fluent_word(fluents: &[Interval], place: usize) -> u64
    requires place { place < 8 * length fluents.now }
    ensures word { result ≡ slice_index (flat_map interval_words fluents.now) place }
    ensures decimals { (x : ℕ) → place ≡ 8 * x → IsEndDec (slice_index_or fluents.now x whole_line).0 × IsEndDec (slice_index_or fluents.now x whole_line).1 }
{
    interval_word(fluents[place / 8], place % 8)
}

/// The word of a box at this place. A fluent's words are read from decimals of the code.
pub fn word_at(part: &StateBox, place: usize) -> u64
    requires place { place < width_of (length part.now.facts) (length part.now.fluents) }
    ensures word { result ≡ slice_index (words_of part.now) place }
    ensures decimals { (x : ℕ) → place ≡ length part.now.facts + 8 * x → IsEndDec (fluent_in part.now x).0 × IsEndDec (fluent_in part.now x).1 }
{
    let facts = part.facts.as_slice();
    if place < facts.len() {
        return fact_word(facts[place]);
    }
    fluent_word(part.fluents.as_slice(), place - facts.len())
}

/// The truth values that a word says.
pub fn may_of(word: u64) -> May
    ensures { result ≡ may_of word }
{
    match word {
        0 => May::True,
        1 => May::False,
        _ => May::Any,
    }
}

/// The decimal of so many places whose number plus 2^127 has these upper and lower 64 bits.
pub fn decimal_of(places: u64, high: u64, low: u64) -> Dec
    requires { IsDec (decimal_of places high low) }
    ensures { result ≡ decimal_of places high low }
{
    let word = u128::from(high) * HALF + u128::from(low);
    let p = places as u8;
    if word < MIDDLE {
        negative(MIDDLE - word, p)
    } else {
        Dec {
            n: (word - MIDDLE) as i128,
            p,
        }
    }
}

fn negative(magnitude: u128, p: u8) -> Dec
    requires in_range { magnitude < 2 ^ 127 }
    requires few_places { p ≤ 18 }
    ensures { result ≡ record { n = neg_ℤ (pos magnitude); p = p } }
{
    Dec {
        n: -(magnitude as i128),
        p,
    }
}
