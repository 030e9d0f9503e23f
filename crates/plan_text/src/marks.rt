//! The time of a step, as `0.5 :`, and how long it lasts, as `[1]`. Both are read over.

ghost use Rattle.std.specs.Prelude.{◌≡◌, option_map};
ghost use Rattle.plan_text.specs.internal.Reading.{behind_digits, behind_places, behind_number, is_blank, is_mark, is_marked_number, is_bracketed, may_precede, may_follow};

use crate::cuts::{Kind, cut, past_space};

/// Whether a text is white space, or empty.
#[tactic(auto, using(crate::proofs::Fronts::all_pass))]
fn is_blank(text: &[u8]) -> bool
    ensures { result ≡ is_blank text.now }
{
    past_space(text).is_empty()
}

/// What follows the digits at the front, where there are some.
fn behind_digits(text: &[u8]) -> Option<&[u8]>
    ensures { option_map (λ r. r.now) result ≡ behind_digits text.now }
{
    let (digits, rest) = cut(Kind::Digit, text);
    if digits.is_empty() { None } else { Some(rest) }
}

/// What follows the places at the front, if there is a point.
fn behind_places(text: &[u8]) -> Option<&[u8]>
    ensures { option_map (λ r. r.now) result ≡ behind_places text.now }
{
    match text {
        [b'.', places @ ..] => behind_digits(places),
        _ => Some(text),
    }
}

/// What follows the number at the front: digits, and perhaps a point and further digits.
fn behind_number(text: &[u8]) -> Option<&[u8]>
    ensures { option_map (λ r. r.now) result ≡ behind_number text.now }
{
    behind_places(behind_digits(text)?)
}

/// Whether a text is this mark and white space.
fn is_mark(mark: u8, text: &[u8]) -> bool
    ensures { result ≡ is_mark mark text.now }
{
    match text {
        [first, rest @ ..] => *first == mark && is_blank(rest),
        [] => false,
    }
}

/// Whether a text is a number and then this mark, with white space round each.
fn is_marked_number(mark: u8, text: &[u8]) -> bool
    ensures { result ≡ is_marked_number mark text.now }
{
    match behind_number(past_space(text)) {
        Some(rest) => is_mark(mark, past_space(rest)),
        None => false,
    }
}

/// Whether a text is white space, or the time of a step.
pub(crate) fn may_precede(text: &[u8]) -> bool
    ensures { result ≡ may_precede text.now }
{
    is_blank(text) || is_marked_number(b':', text)
}

fn is_bracketed(text: &[u8]) -> bool
    ensures { result ≡ is_bracketed text.now }
{
    match text {
        [first, rest @ ..] => *first == b'[' && is_marked_number(b']', rest),
        [] => true,
    }
}

/// Whether a text is white space, or a duration in square brackets.
pub(crate) fn may_follow(text: &[u8]) -> bool
    ensures { result ≡ may_follow text.now }
{
    is_bracketed(past_space(text))
}
