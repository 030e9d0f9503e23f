//! Where the leaves and brackets of a text stand.

ghost use Rattle.std.specs.Prelude.{◌≡◌, ◌+◌, ◌^◌, ◌<◌, ◌≤◌, length, drop, IfOk, IfSome, false, slice_index};
ghost use Rattle.sexp_text.specs.Pieces.{is_blank_byte, is_word_byte};
ghost use Rattle.sexp_text.specs.Reading.{items_at, is_gap_byte, comment_after, word_len, IsNext, IsPlaced};

use crate::marks::{Mark, Marked, Span};

/// A space, a tab, a line feed or a carriage return.
pub fn is_blank(byte: u8) -> bool
    ensures { result ≡ is_blank_byte byte }
{
    byte == b' ' || byte == b'\t' || byte == b'\n' || byte == b'\r'
}

/// A visible byte of ASCII but for brackets and `;`.
pub fn belongs_to_word(byte: u8) -> bool
    ensures { result ≡ is_word_byte byte }
{
    33 <= byte && byte <= 126 && byte != b'(' && byte != b')' && byte != b';'
}

fn says_nothing(comment: bool, byte: u8) -> bool
    ensures { result ≡ is_gap_byte comment byte }
{
    comment || is_blank(byte) || byte == b';'
}

fn comment_goes_on(comment: bool, byte: u8) -> bool
    ensures { result ≡ comment_after comment byte }
{
    if comment { byte != b'\n' } else { byte == b';' }
}

#[tactic(auto, using(crate::proofs::Steps::gap_step, crate::proofs::Steps::nothing_left))]
// Where the blanks and comments at a position end.
fn gap_end(bytes: &[u8], at: usize) -> usize
    requires { at ≤ length bytes.now }
    ensures forward { at ≤ result }
    ensures within { result ≤ length bytes.now }
    ensures skipped { items_at bytes.now result ≡ items_at bytes.now at }
    ensures stops { result < length bytes.now → is_gap_byte false (slice_index bytes.now result) ≡ false }
{
    let mut at = at;
    let mut comment = false;
    while at < bytes.len() && says_nothing(comment, bytes[at]) {
        comment = comment_goes_on(comment, bytes[at]);
        at += 1;
    }
    at
}

// Where the word at a position ends.
fn word_end(bytes: &[u8], at: usize) -> usize
    requires { at ≤ length bytes.now }
    ensures end { result ≡ at + word_len (drop at bytes.now) }
    ensures within { result ≤ length bytes.now }
{
    let mut to = at;
    while to < bytes.len() && belongs_to_word(bytes[to]) {
        to += 1;
    }
    to
}

/// The first bracket or word that begins at a position or behind it, where only blanks and comments stand
/// before it; none where nothing else is left. The error is the position of the first byte that isn't allowed.
pub fn next_mark(bytes: &[u8], at: usize) -> Result<Option<Marked>, u32>
    requires few { length bytes.now ≤ 2 ^ 30 }
    requires inside { at ≤ length bytes.now }
    // The answer is what stands first in the text from there on.
    ensures exact { IsNext bytes.now at result }
    ensures forward { IfOk result (λ next. IfSome next (λ m. at ≤ m.span.from)) }
    ensures some_bytes { IfOk result (λ next. IfSome next (λ m. m.span.from < m.span.to)) }
    ensures within { IfOk result (λ next. IfSome next (λ m. m.span.to ≤ length bytes.now)) }
    ensures placed { IfOk result (λ next. IfSome next (λ m. IsPlaced m.mark m.span.from m.span.to)) }
{
    let from = gap_end(bytes, at);
    if from == bytes.len() {
        return Ok(None);
    }
    let (mark, to) = match bytes[from] {
        b'(' => (Mark::Opening, from + 1),
        b')' => (Mark::Closing, from + 1),
        byte if belongs_to_word(byte) => (Mark::Leaf, word_end(bytes, from)),
        _ => return Err(from as u32),
    };
    let span = Span {
        from: from as u32,
        to: to as u32,
    };
    Ok(Some(Marked { mark, span }))
}
