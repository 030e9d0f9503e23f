//! The line of a refusal.

ghost use Rattle.std.specs.Prelude.{◌≡◌, ◌∷◌, ◌++◌, [], ℕ, List, OnOk, OnErr, codes, decimal};
ghost use Rattle.pair_text.specs.Lines.{kind_word, limit_words, line_reason_word, place_word, reason_words, refusal_line, refusal_words, source_word, spaced, told_name};

use crate::refusals::{LineReason, Place, Reason, Refusal, Source};
use crate::words::{kind_word, line_reason_word, source_word, what_word};
use itoa::Buffer;
use num_ends::{List, NoMemory};
use pddl_terms::What;
use pddl_types::CheckKind;
use std::alloc::Global;

fn append_word(out: &mut List<u8>, word: &[u8]) -> Result<(), NoMemory>
    ensures ok { OnOk result (out.new ≡ out.old ++ spaced (word.now ∷ [])) }
    ensures err { OnErr result ((part : List ℕ) × (out.new ≡ out.old ++ part)) }
{
    out.push(b' ')?;
    out.extend_from_slice(word)
}

fn append_number(out: &mut List<u8>, number: u32) -> Result<(), NoMemory>
    ensures ok { OnOk result (out.new ≡ out.old ++ spaced (decimal number ∷ [])) }
    ensures err { OnErr result ((part : List ℕ) × (out.new ≡ out.old ++ part)) }
{
    let mut buffer = Buffer::new();
    append_word(out, buffer.format(number).as_bytes())
}

fn append_place(out: &mut List<u8>, place: Place) -> Result<(), NoMemory>
    ensures ok { OnOk result (out.new ≡ out.old ++ spaced (place_word place ∷ [])) }
    ensures err { OnErr result ((part : List ℕ) × (out.new ≡ out.old ++ part)) }
{
    append_number(out, place.line)?;
    out.push(b':')?;
    let mut buffer = Buffer::new();
    out.extend_from_slice(buffer.format(place.column).as_bytes())
}

fn append_limit(out: &mut List<u8>, what: What) -> Result<(), NoMemory>
    ensures ok { OnOk result (out.new ≡ out.old ++ spaced (limit_words what)) }
    ensures err { OnErr result ((part : List ℕ) × (out.new ≡ out.old ++ part)) }
{
    append_word(out, b"TOOMANY")?;
    append_word(out, what_word(what))?;
    append_number(out, what.limit())
}

fn append_named(out: &mut List<u8>, word: &[u8], name: &[u8]) -> Result<(), NoMemory>
    ensures ok { OnOk result (out.new ≡ out.old ++ spaced (word.now ∷ name.now ∷ [])) }
    ensures err { OnErr result ((part : List ℕ) × (out.new ≡ out.old ++ part)) }
{
    append_word(out, word)?;
    append_word(out, name)
}

fn append_kind(out: &mut List<u8>, kind: CheckKind, name: &[u8]) -> Result<(), NoMemory>
    ensures ok { OnOk result (out.new ≡ out.old ++ spaced (kind_word kind ∷ told_name kind name.now)) }
    ensures err { OnErr result ((part : List ℕ) × (out.new ≡ out.old ++ part)) }
{
    match kind {
        CheckKind::Divide => append_word(out, kind_word(kind)),
        _ => append_named(out, kind_word(kind), name),
    }
}

fn append_reason(out: &mut List<u8>, reason: &Reason) -> Result<(), NoMemory>
    ensures ok { OnOk result (out.new ≡ out.old ++ spaced (reason_words reason.now)) }
    ensures err { OnErr result ((part : List ℕ) × (out.new ≡ out.old ++ part)) }
{
    match reason {
        Reason::Unclosed => append_word(out, b"UNCLOSED"),
        Reason::Stray => append_word(out, b"STRAY"),
        Reason::BadByte => append_word(out, b"BADBYTE"),
        Reason::TooDeep => append_word(out, b"TOODEEP"),
        Reason::Unsupported(name) => append_named(out, b"UNSUPPORTED", name.as_slice()),
        Reason::Shape => append_word(out, b"SHAPE"),
        Reason::Number => append_word(out, b"NUMBER"),
        Reason::TooMany(what) => append_limit(out, *what),
        Reason::Ill(kind, name) => append_kind(out, *kind, name.as_slice()),
    }
}

fn append_placed(
    out: &mut List<u8>,
    source: Source,
    place: Place,
    reason: &Reason,
) -> Result<(), NoMemory>
    ensures ok { OnOk result (out.new ≡ out.old ++ spaced (source_word source ∷ place_word place ∷ reason_words reason.now)) }
    ensures err { OnErr result ((part : List ℕ) × (out.new ≡ out.old ++ part)) }
{
    append_word(out, source_word(source))?;
    append_place(out, place)?;
    append_reason(out, reason)
}

fn append_line_reason(
    out: &mut List<u8>,
    source: Source,
    line: u32,
    reason: LineReason,
) -> Result<(), NoMemory>
    ensures ok { OnOk result (out.new ≡ out.old ++ spaced (source_word source ∷ decimal line ∷ line_reason_word reason ∷ [])) }
    ensures err { OnErr result ((part : List ℕ) × (out.new ≡ out.old ++ part)) }
{
    append_word(out, source_word(source))?;
    append_number(out, line)?;
    append_word(out, line_reason_word(reason))
}

fn append_refusal(out: &mut List<u8>, refusal: &Refusal) -> Result<(), NoMemory>
    ensures ok { OnOk result (out.new ≡ out.old ++ spaced (refusal_words refusal.now)) }
    ensures err { OnErr result ((part : List ℕ) × (out.new ≡ out.old ++ part)) }
{
    match refusal {
        Refusal::TooLarge(source) => append_named(out, source_word(*source), b"TOOLARGE"),
        Refusal::At(source, place, reason) => append_placed(out, *source, *place, reason),
        Refusal::BadLine(line) => {
            append_line_reason(out, Source::Plan, *line, LineReason::BadLine)
        }
        Refusal::InCertificate(line, reason) => {
            append_line_reason(out, Source::Certificate, *line, *reason)
        }
        Refusal::Unset(text) => append_named(out, b"UNSET", text.as_slice()),
        Refusal::Places(text) => append_named(out, b"PLACES", text.as_slice()),
        Refusal::Range(text) => append_named(out, b"RANGE", text.as_slice()),
        Refusal::Limit(what) => append_limit(out, *what),
        Refusal::Unbuilt => append_word(out, b"UNBUILT"),
    }
}

fn append_line(out: &mut List<u8>, refusal: &Refusal) -> Result<(), NoMemory>
    ensures ok { OnOk result (out.new ≡ out.old ++ refusal_line refusal.now) }
    ensures err { OnErr result ((part : List ℕ) × (out.new ≡ out.old ++ part)) }
{
    out.extend_from_slice(b"REFUSED")?;
    append_refusal(out, refusal)?;
    out.push(b'\n')
}

/// Appends the line of a refusal with its line feed, such as `REFUSED domain 2:49 TOOMANY parameters 8`. Without memory `out`
/// stays as it was.
pub fn write_refusal(_alloc: Global, refusal: &Refusal, out: &mut List<u8>) -> Result<(), NoMemory>
    ensures ok { OnOk result (out.new ≡ out.old ++ refusal_line refusal.now) }
    ensures err { OnErr result (out.new ≡ out.old) }
{
    let before = out.len();
    match append_line(out, refusal) {
        Ok(()) => Ok(()),
        Err(fault) => {
            out.truncate(before);
            Err(fault)
        }
    }
}
