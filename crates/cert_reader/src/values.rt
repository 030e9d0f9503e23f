//! Numbers, intervals and truth values as lines say them.

ghost use Rattle.std.specs.Prelude.{◌≡◌, ◌≤◌, ◌++◌, ℕ, ℤ, Bool, List, [], ◌∷◌, IsTrue, MatchOption};
ghost use Rattle.num_ends.specs.Decimal.{Decimal, number_at, InRange};
ghost use Rattle.num_ends.specs.Ends.{Interval, is_inhabited};
ghost use Rattle.num_ends.specs.declared.ends.End.{End};
ghost use Rattle.box_model.specs.declared.state_box.May.{May};
ghost use Rattle.cert_text.specs.Lines.{may_text, truth_text};
ghost use Rattle.cert_reader.specs.Parts.{IsWithout};
ghost use Rattle.cert_reader.specs.Spelling.{SpellsDecimal, SpellsInterval, SpellsLower, SpellsNumber, SpellsUpper};

use crate::cuts::{before, cut, is_word, past};
use box_model::May;
use num_ends::{Dec, End, Interval, read_dec};

pub(crate) fn may_of(said: &[u8]) -> Option<May>
    ensures { MatchOption result ((may : May) → said.now ≡ may_text may → ⊥) (λ may. said.now ≡ may_text may) }
{
    if is_word(said, b"true") {
        return Some(May::True);
    }
    if is_word(said, b"false") {
        return Some(May::False);
    }
    if is_word(said, b"any") {
        return Some(May::Any);
    }
    None
}

pub(crate) fn truth_of(said: &[u8]) -> Option<bool>
    ensures { MatchOption result ((truth : Bool) → said.now ≡ truth_text truth → ⊥) (λ truth. said.now ≡ truth_text truth) }
{
    if is_word(said, b"true") {
        return Some(true);
    }
    if is_word(said, b"false") {
        return Some(false);
    }
    None
}

/// The decimal that a text writes, trimmed, with at most so many places.
fn decimal(text: &[u8], places: u8) -> Option<Dec>
    requires { places ≤ 9 }
    ensures { MatchOption result ((d : Decimal) → SpellsDecimal places text.now d → ⊥) (SpellsDecimal places text.now) }
{
    match read_dec(text, places) {
        Ok(d) => Some(d),
        Err(_) => None,
    }
}

/// The lower end that is written behind a round bracket.
fn open_lower(digits: &[u8], places: u8) -> Option<End>
    requires { places ≤ 9 }
    ensures { MatchOption result ((e : End) → SpellsLower places (40 ∷ digits.now) e → ⊥) (SpellsLower places (40 ∷ digits.now)) }
{
    if is_word(digits, b"-inf") {
        return Some(End::NegInf);
    }
    match decimal(digits, places) {
        Some(d) => Some(End::Excl(d)),
        None => None,
    }
}

/// The lower end that is written behind a square bracket.
fn closed_lower(digits: &[u8], places: u8) -> Option<End>
    requires { places ≤ 9 }
    ensures { MatchOption result ((e : End) → SpellsLower places (91 ∷ digits.now) e → ⊥) (SpellsLower places (91 ∷ digits.now)) }
{
    match decimal(digits, places) {
        Some(d) => Some(End::Incl(d)),
        None => None,
    }
}

/// The lower end that a text writes with a square bracket.
fn square_lower(text: &[u8], places: u8) -> Option<End>
    requires few { places ≤ 9 }
    requires not_round { (rest : List ℕ) → text.now ≡ 40 ∷ rest → ⊥ }
    ensures { MatchOption result ((e : End) → SpellsLower places text.now e → ⊥) (SpellsLower places text.now) }
{
    match past(b"[", text) {
        Some(digits) => closed_lower(digits, places),
        None => None,
    }
}

/// The lower end that a text writes.
fn lower_end(text: &[u8], places: u8) -> Option<End>
    requires { places ≤ 9 }
    ensures { MatchOption result ((e : End) → SpellsLower places text.now e → ⊥) (SpellsLower places text.now) }
{
    match past(b"(", text) {
        Some(digits) => open_lower(digits, places),
        None => square_lower(text, places),
    }
}

/// The upper end that is written before a round bracket.
fn open_upper(digits: &[u8], places: u8) -> Option<End>
    requires { places ≤ 9 }
    ensures { MatchOption result ((e : End) → SpellsUpper places (digits.now ++ 41 ∷ []) e → ⊥) (SpellsUpper places (digits.now ++ 41 ∷ [])) }
{
    if is_word(digits, b"inf") {
        return Some(End::PosInf);
    }
    match decimal(digits, places) {
        Some(d) => Some(End::Excl(d)),
        None => None,
    }
}

/// The upper end that is written before a square bracket.
fn closed_upper(digits: &[u8], places: u8) -> Option<End>
    requires { places ≤ 9 }
    ensures { MatchOption result ((e : End) → SpellsUpper places (digits.now ++ 93 ∷ []) e → ⊥) (SpellsUpper places (digits.now ++ 93 ∷ [])) }
{
    match decimal(digits, places) {
        Some(d) => Some(End::Incl(d)),
        None => None,
    }
}

/// The upper end that a text writes with a square bracket.
fn square_upper(text: &[u8], places: u8) -> Option<End>
    requires few { places ≤ 9 }
    requires not_round { (front : List ℕ) → text.now ≡ front ++ 41 ∷ [] → ⊥ }
    ensures { MatchOption result ((e : End) → SpellsUpper places text.now e → ⊥) (SpellsUpper places text.now) }
{
    match before(b"]", text) {
        Some(digits) => closed_upper(digits, places),
        None => None,
    }
}

/// The upper end that a text writes.
fn upper_end(text: &[u8], places: u8) -> Option<End>
    requires { places ≤ 9 }
    ensures { MatchOption result ((e : End) → SpellsUpper places text.now e → ⊥) (SpellsUpper places text.now) }
{
    match before(b")", text) {
        Some(digits) => open_upper(digits, places),
        None => square_upper(text, places),
    }
}

/// The interval from this end to the one that a text writes.
fn up_to(from: End, upper: &[u8], places: u8) -> Option<Interval>
    requires { places ≤ 9 }
    ensures { MatchOption result ((to : End) → SpellsUpper places upper.now to → IsTrue (is_inhabited from to) → ⊥)
        (λ i. (i.0 ≡ from) × SpellsUpper places upper.now i.1 × IsTrue (is_inhabited i.0 i.1)) }
{
    match upper_end(upper, places) {
        Some(to) => Interval::of(from, to),
        None => None,
    }
}

/// The interval whose ends are written round a comma.
fn between(lower: &[u8], upper: &[u8], places: u8) -> Option<Interval>
    requires few { places ≤ 9 }
    requires no_comma { IsWithout 44 lower.now }
    ensures { MatchOption result ((i : Interval) → SpellsInterval places (lower.now ++ 44 ∷ upper.now) i → ⊥) (SpellsInterval places (lower.now ++ 44 ∷ upper.now)) }
{
    match lower_end(lower, places) {
        Some(from) => up_to(from, upper, places),
        None => None,
    }
}

/// The interval that a text writes, with ends of at most so many places.
pub(crate) fn interval_of(text: &[u8], places: u8) -> Option<Interval>
    requires { places ≤ 9 }
    ensures { MatchOption result ((i : Interval) → SpellsInterval places text.now i → ⊥) (SpellsInterval places text.now) }
{
    match cut(b',', text) {
        Some(parts) => between(parts.0, parts.1, places),
        None => None,
    }
}

/// A decimal at these places.
fn at_places(d: Dec, places: u8) -> Option<Dec>
    requires more { d.p ≤ places }
    requires few { places ≤ 9 }
    ensures { MatchOption result (InRange (number_at places d) → ⊥) (λ value. (value.n ≡ number_at places d) × InRange value.n) }
{
    match d.align(places) {
        Ok(value) => Some(value),
        Err(_) => None,
    }
}

/// The value that a text writes, at these places.
pub(crate) fn number_of(text: &[u8], places: u8) -> Option<Dec>
    requires { places ≤ 9 }
    ensures { MatchOption result ((n : ℤ) → SpellsNumber places text.now n → ⊥) (λ value. SpellsNumber places text.now value.n) }
{
    match decimal(text, places) {
        Some(d) => at_places(d, places),
        None => None,
    }
}
