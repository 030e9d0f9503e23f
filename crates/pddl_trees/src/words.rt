//! What the words of a text stand for.

ghost use Rattle.std.specs.Prelude.{◌≡◌, [], ◌∷◌, bytes_eq, map, slice_range};
ghost use Rattle.num_ends.specs.Names.{folded, is_digit, is_name};
ghost use Rattle.pddl_trees.specs.Words.{change_of, is_among, is_key, is_number_word, is_symbol, is_variable, number_in, operation_of, relation_of, reserved_words, unsupported_words};

use num_ends::{Dec, folded, is_name_folded, read_dec};
use pddl_terms::{Assign, Op, Rel};
use sexp_text::{Span, is_word};

/// How many places behind the point a number of a file may have.
const MOST_PLACES: u8 = 9;

/// The bytes at a place of a text; where the place goes past the text's end, those that are there.
pub fn bytes_at(text: &[u8], span: Span) -> &[u8]
    ensures { result.now ≡ slice_range text.now span.from span.to }
{
    let from = (span.from as usize).min(text.len());
    let behind = &text[from..];
    let len = (span.to.saturating_sub(span.from) as usize).min(behind.len());
    &behind[..len]
}

fn is_digit(byte: u8) -> bool
    ensures { result ≡ is_digit (folded byte) }
{
    let byte = folded(byte);
    b'0' <= byte && byte <= b'9'
}

/// Whether a word is the one that is listed.
#[tactic(auto, using(crate::proofs::Numbers::bytes_eq_back))]
pub fn is_this(word: &[u8], listed: &[u8]) -> bool
    ensures { result ≡ bytes_eq listed.now (map folded word.now) }
{
    is_word(word, listed)
}

/// Whether a word is refused wherever it stands.
pub fn is_unsupported(word: &[u8]) -> bool
    ensures { result ≡ is_among (map folded word.now) unsupported_words }
{
    is_this(word, b"either")
        || is_this(word, b"forall")
        || is_this(word, b"exists")
        || is_this(word, b"when")
        || is_this(word, b"scale-down")
}

/// Whether a word is one of conditions and effects, which never stands for a predicate or a function.
pub fn is_reserved(word: &[u8]) -> bool
    ensures { result ≡ is_among (map folded word.now) reserved_words }
{
    is_this(word, b"and")
        || is_this(word, b"or")
        || is_this(word, b"not")
        || is_this(word, b"imply")
        || is_this(word, b"assign")
        || is_this(word, b"increase")
        || is_this(word, b"decrease")
        || is_this(word, b"scale-up")
}

/// Whether a word may name a predicate or a function.
pub fn is_symbol(word: &[u8]) -> bool
    ensures { result ≡ is_symbol (map folded word.now) }
{
    is_name_folded(word) && !is_reserved(word)
}

/// Whether a word is `?` and a name.
pub fn is_variable(word: &[u8]) -> bool
    ensures { result ≡ is_variable (map folded word.now) }
{
    match word {
        [] => false,
        [first, rest @ ..] => folded(*first) == b'?' && is_name_folded(rest),
    }
}

/// Whether a word begins with `:`.
pub fn is_key(word: &[u8]) -> bool
    ensures { result ≡ is_key (map folded word.now) }
{
    match word {
        [] => false,
        [first, ..] => folded(*first) == b':',
    }
}

fn begins_fraction(first: u8, second: u8) -> bool
    ensures { result ≡ is_number_word (folded first ∷ folded second ∷ []) }
{
    let first_byte = folded(first);
    let second_byte = folded(second);
    is_digit(first)
        || ((first_byte == b'.' || first_byte == b'-') && is_digit(second))
        || (first_byte == b'-' && second_byte == b'.')
}

/// Whether a word begins as a number does.
pub fn is_number_word(word: &[u8]) -> bool
    ensures { result ≡ is_number_word (map folded word.now) }
{
    match word {
        [] => false,
        [only] => is_digit(*only),
        [first, second, ..] => begins_fraction(*first, *second),
    }
}

/// The number that a word writes, trimmed; none where the word writes none, or one of more places than
/// [`MOST_PLACES`] or out of range.
pub fn number_in(word: &[u8]) -> Option<Dec>
    ensures { result ≡ number_in (map folded word.now) }
{
    match read_dec(word, MOST_PLACES) {
        Ok(number) => {
            prove!(number.p <= MOST_PLACES);
            Some(number)
        }
        Err(_) => None,
    }
}

/// The operation on numbers that a word stands for.
pub fn operation_of(word: &[u8]) -> Option<Op>
    ensures { result ≡ operation_of (map folded word.now) }
{
    if is_word(word, b"+") {
        return Some(Op::Add);
    }
    if is_word(word, b"-") {
        return Some(Op::Sub);
    }
    if is_word(word, b"*") {
        return Some(Op::Mul);
    }
    if is_word(word, b"/") {
        return Some(Op::Div);
    }
    None
}

/// The comparison that a word stands for.
pub fn relation_of(word: &[u8]) -> Option<Rel>
    ensures { result ≡ relation_of (map folded word.now) }
{
    if is_word(word, b"<") {
        return Some(Rel::Less);
    }
    if is_word(word, b"<=") {
        return Some(Rel::LessEqual);
    }
    if is_word(word, b"=") {
        return Some(Rel::Equal);
    }
    if is_word(word, b">=") {
        return Some(Rel::GreaterEqual);
    }
    if is_word(word, b">") {
        return Some(Rel::Greater);
    }
    None
}

/// The way in which an effect of this word changes a fluent.
pub fn change_of(word: &[u8]) -> Option<Assign>
    ensures { result ≡ change_of (map folded word.now) }
{
    if is_word(word, b"assign") {
        return Some(Assign::Set);
    }
    if is_word(word, b"increase") {
        return Some(Assign::Up);
    }
    if is_word(word, b"decrease") {
        return Some(Assign::Down);
    }
    if is_word(word, b"scale-up") {
        return Some(Assign::Scale);
    }
    None
}
