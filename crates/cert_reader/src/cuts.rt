//! Where a text is cut.

ghost use Rattle.std.specs.Prelude.{◌≡◌, ◌↔◌, ◌<◌, ◌++◌, ◌∷◌, ℕ, List, IsTrue, MatchOption, length, take, slice_index};
ghost use Rattle.cert_text.specs.Lines.{part_text};
ghost use Rattle.cert_reader.specs.Parts.{IsWithout};
ghost use Rattle.cert_reader.specs.internal.Fronts.{EndsPart, IsUntold};

use memchr::memchr;

/// Whether a text is this word.
pub(crate) fn is_word(text: &[u8], word: &[u8]) -> bool
    ensures { IsTrue result ↔ text.now ≡ word.now }
{
    text == word
}

/// What stands behind a front, where a text begins with it.
pub(crate) fn past<'a>(front: &[u8], text: &'a [u8]) -> Option<&'a [u8]>
    ensures { MatchOption result ((rest : List ℕ) → text.now ≡ front.now ++ rest → ⊥) (λ rest. text.now ≡ front.now ++ rest.now) }
{
    text.strip_prefix(front)
}

/// What stands before an end, where a text ends in it.
pub(crate) fn before<'a>(end: &[u8], text: &'a [u8]) -> Option<&'a [u8]>
    ensures { MatchOption result ((front : List ℕ) → text.now ≡ front ++ end.now → ⊥) (λ front. text.now ≡ front.now ++ end.now) }
{
    text.strip_suffix(end)
}

/// The place of the first byte of this kind.
fn place_of(byte: u8, text: &[u8]) -> Option<usize>
    ensures { MatchOption result (IsWithout byte text.now) (λ at. (at < length text.now) × (slice_index text.now at ≡ byte) × IsWithout byte (take at text.now)) }
{
    memchr(byte, text)
}

/// The text before the first byte of this kind, and the text behind it, where there is one.
pub(crate) fn cut(byte: u8, text: &[u8]) -> Option<(&[u8], &[u8])>
    ensures { MatchOption result (IsWithout byte text.now) (λ r. (text.now ≡ r.0.now ++ byte ∷ r.1.now) × IsWithout byte r.0.now) }
{
    match place_of(byte, text) {
        Some(at) => {
            let halves = text.split_at(at);
            let tail = halves.1.split_at(1);
            Some((halves.0, tail.1))
        }
        None => None,
    }
}

/// The front of a text up to its first blank, and the rest.
fn word(text: &[u8]) -> (&[u8], &[u8])
    ensures { (text.now ≡ result.0.now ++ result.1.now) × IsWithout 32 result.0.now × EndsPart result.1.now }
{
    match place_of(b' ', text) {
        Some(at) => text.split_at(at),
        None => text.split_at(text.len()),
    }
}

/// What stands behind a name and `=`.
fn behind_equals<'a>(name: &[u8], text: &'a [u8]) -> Option<&'a [u8]>
    ensures { MatchOption result ((rest : List ℕ) → text.now ≡ name.now ++ 61 ∷ rest → ⊥) (λ rest. text.now ≡ name.now ++ 61 ∷ rest.now) }
{
    match past(name, text) {
        Some(rest) => past(b"=", rest),
        None => None,
    }
}

/// What stands behind a blank, a name and `=`.
fn behind_name<'a>(name: &[u8], line: &'a [u8]) -> Option<&'a [u8]>
    ensures { MatchOption result (IsUntold name.now line.now) (λ rest. line.now ≡ part_text name.now rest.now) }
{
    match past(b" ", line) {
        Some(text) => behind_equals(name, text),
        None => None,
    }
}

/// What is said of a name with which a line goes on, up to the next blank, and the rest.
pub(crate) fn said_of<'a>(name: &[u8], line: &'a [u8]) -> Option<(&'a [u8], &'a [u8])>
    ensures { MatchOption result (IsUntold name.now line.now)
        (λ r. (line.now ≡ part_text name.now r.0.now ++ r.1.now) × IsWithout 32 r.0.now × EndsPart r.1.now) }
{
    match behind_name(name, line) {
        Some(text) => Some(word(text)),
        None => None,
    }
}
