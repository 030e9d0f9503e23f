//! The first fault of a text as it is answered.

ghost use Rattle.std.specs.Prelude.{◌≡◌, IfOk, drop, length, map, take};
ghost use Rattle.num_ends.specs.Names.{folded};
ghost use Rattle.sexp_text.specs.Reading.{word_len};
ghost use Rattle.pddl_reader.specs.Answers.{fault_answer, word_from};

use crate::faults::ReadFault;
use num_ends::NoMemory;
use pddl_trees::faults::{Fault, Reason};
use pddl_trees::forms::name;
use sexp_text::belongs_to_word;
use std::alloc::Global;

/// How many bytes the word at the front of a text has.
fn word_length(text: &[u8]) -> usize
    ensures { result ≡ word_len text.now }
{
    let mut len = 0;
    while len < text.len() && belongs_to_word(text[len]) {
        len += 1;
    }
    len
}

/// The word that begins at a position.
fn word_from(text: &[u8], at: u32) -> &[u8]
    ensures { map folded result.now ≡ word_from text.now at }
{
    let behind = &text[(at as usize).min(text.len())..];
    &behind[..word_length(behind)]
}

/// A fault as it is answered, with the word at its place where it is about a word.
pub(crate) fn answer_of(alloc: Global, text: &[u8], fault: Fault) -> Result<ReadFault, NoMemory>
    ensures { IfOk result (λ answer. answer ≡ fault_answer text.now fault.at fault.reason) }
{
    let Fault { at, reason } = fault;
    Ok(match reason {
        Reason::Number => ReadFault::Number(at),
        Reason::TooMany(what) => ReadFault::TooMany(what, at),
        Reason::Unsupported => ReadFault::Unsupported(name(alloc, at, word_from(text, at))?),
        Reason::Shape => ReadFault::Shape(at),
        Reason::TooDeep => ReadFault::TooDeep(at),
    })
}
