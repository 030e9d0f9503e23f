//! Texts read as decimals.

ghost use Rattle.std.specs.Prelude.{◌≡◌, ◌+◌, ◌*◌, ◌^◌, ◌<◌, ◌≤◌, ◌++◌, ◌↔◌, ℕ, List, [], Bool, false, cond, codes, length, take, drop, pos, All, IsTrue, MatchOption};
ghost use Rattle.std.specs.Char.{IsAsciiDigit, digit_value};
ghost use Rattle.std.specs.Str.Parse.{digits_value, digits_value_after};
ghost use Rattle.num_ends.specs.Decimal.{Decimal, without_zeros};
ghost use Rattle.num_ends.specs.Texts.{IsNumeral};
ghost use Rattle.num_ends.specs.Inside.{NoDigitFirst, NoMinusFirst, IsCut, IsTail, IsParts};
ghost use Rattle.num_ends.specs.Reading.{IsReading};

use crate::dec::Dec;
use crate::faults::NumFault;

/// Numbers stay below 2^127 in size.
const LIMIT: u128 = 1 << 127;

/// Whether a `-` comes first, and the rest.
fn signed(text: &[u8]) -> (bool, &[u8])
    ensures spelled { text.now ≡ cond result.0 (codes "-") [] ++ result.1.now }
    ensures plain { result.0 ≡ false → NoMinusFirst result.1.now }
{
    match text {
        [b'-', rest @ ..] => (true, rest),
        _ => (false, text),
    }
}

fn digit_count(text: &[u8]) -> usize
    ensures within { result ≤ length text.now }
    ensures front { All IsAsciiDigit (take result text.now) }
    ensures stop { NoDigitFirst (drop result text.now) }
{
    for (i, b) in text.iter().enumerate() {
        if !b.is_ascii_digit() {
            return i;
        }
    }
    text.len()
}

/// The digits that a text begins with, and the rest.
fn digits(text: &[u8]) -> (&[u8], &[u8])
    ensures spelled { text.now ≡ result.0.now ++ result.1.now }
    ensures front { All IsAsciiDigit result.0.now }
    ensures stop { NoDigitFirst result.1.now }
{
    text.split_at(digit_count(text))
}

fn all_digits(text: &[u8]) -> bool
    ensures { IsTrue result ↔ All IsAsciiDigit text.now }
{
    digit_count(text) == text.len()
}

/// The sign of a text, its whole digits, and what follows them.
fn cut(text: &[u8]) -> (bool, &[u8], &[u8])
    ensures { IsCut text.now result.0 result.1.now result.2.now }
{
    let (negative, unsigned) = signed(text);
    let (whole, rest) = digits(unsigned);
    (negative, whole, rest)
}

/// The fraction's digits, in what follows the whole digits.
#[tactic(auto, using(crate::proofs::Numerals::tail_point, crate::proofs::Numerals::tail_other))]
fn fraction_of(rest: &[u8]) -> Option<&[u8]>
    ensures { MatchOption result ((fraction : List ℕ) → IsTail rest.now fraction → ⊥) (λ f. IsTail rest.now f.now) }
{
    match rest {
        [] => Some(rest),
        [b'.', fraction @ ..] => {
            if all_digits(fraction) {
                Some(fraction)
            } else {
                None
            }
        }
        _ => None,
    }
}

/// The sign, the whole digits and the fraction's digits of a numeral.
#[tactic(auto, using(crate::proofs::Numerals::no_tail, crate::proofs::Numerals::no_digit, crate::proofs::Numerals::parts_from))]
fn parts(text: &[u8]) -> Option<(bool, &[u8], &[u8])>
    ensures { MatchOption result ((d : Decimal) → IsNumeral text.now d → ⊥) (λ r. IsParts text.now r.0 r.1.now r.2.now) }
{
    let (negative, whole, rest) = cut(text);
    match fraction_of(rest) {
        Some(fraction) => {
            if whole.is_empty() && fraction.is_empty() {
                None
            } else {
                Some((negative, whole, fraction))
            }
        }
        None => None,
    }
}

/// The number with one digit more.
fn with_digit(total: u128, digit: u8) -> Option<u128>
    requires { IsAsciiDigit digit }
    ensures { MatchOption result (2 ^ 127 ≤ total * 10 + digit_value digit) (λ n. (n ≡ total * 10 + digit_value digit) × (n < 2 ^ 127)) }
{
    let n = total
        .checked_mul(10)?
        .checked_add(u128::from(digit - b'0'))?;
    if n < LIMIT { Some(n) } else { None }
}

/// The number with these digits more.
#[tactic(auto, using(crate::proofs::Numerals::value_step, crate::proofs::Numerals::value_grows))]
fn with_digits(start: u128, digits: &[u8]) -> Option<u128>
    requires small { start < 2 ^ 127 }
    requires all_digits { All IsAsciiDigit digits.now }
    ensures { MatchOption result (2 ^ 127 ≤ digits_value_after 10 start digits.now) (λ n. (n ≡ digits_value_after 10 start digits.now) × (n < 2 ^ 127)) }
{
    let mut total = start;
    for digit in digits {
        total = with_digit(total, *digit)?;
    }
    Some(total)
}

#[tactic(auto, using(crate::proofs::Numerals::value_append, crate::proofs::Numerals::value_grows))]
fn number_of(whole: &[u8], fraction: &[u8]) -> Option<u128>
    requires whole_digits { All IsAsciiDigit whole.now }
    requires fraction_digits { All IsAsciiDigit fraction.now }
    ensures { MatchOption result (2 ^ 127 ≤ digits_value 10 (whole.now ++ fraction.now)) (λ n. (n ≡ digits_value 10 (whole.now ++ fraction.now)) × (n < 2 ^ 127)) }
{
    match with_digits(0, whole) {
        Some(start) => with_digits(start, fraction),
        None => None,
    }
}

/// How many digits of a fraction come before its last zeros.
#[tactic(auto, using(crate::proofs::Numerals::last_zero, crate::proofs::Numerals::last_kept))]
fn kept_places(fraction: &[u8]) -> usize
    requires { All IsAsciiDigit fraction.now }
    ensures within { result ≤ length fraction.now }
    ensures value { (whole : List ℕ) → without_zeros (length fraction.now) (pos (digits_value 10 (whole ++ fraction.now)))
        ≡ record { n = pos (digits_value 10 (whole ++ take result fraction.now)); p = result } }
{
    let mut len = fraction.len();
    while len > 0 && fraction[len - 1] == b'0' {
        len -= 1;
    }
    len
}

/// Reads a text as a number: perhaps `-`, digits, and perhaps `.` and digits, with at least one digit in all. Gives
/// its trimmed value, which may have at most `most` places and must fit a `Dec`.
pub fn read_dec(text: &[u8], most: u8) -> Result<Dec, NumFault>
    ensures { IsReading text.now most result }
{
    let (negative, whole, fraction) = match parts(text) {
        Some(found) => found,
        None => return Err(NumFault::NotNumber),
    };
    let places = kept_places(fraction);
    if places > usize::from(most) {
        return Err(NumFault::TooManyPlaces);
    }
    if places > 18 {
        return Err(NumFault::Range);
    }
    let (kept, _zeros) = fraction.split_at(places);
    match number_of(whole, kept) {
        Some(magnitude) => Ok(Dec::of_magnitude(magnitude, negative, places as u8)),
        None => Err(NumFault::Range),
    }
}
