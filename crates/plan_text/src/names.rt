//! The names of a step, as they stand in its brackets.

ghost use Rattle.std.specs.Prelude.{◌≡◌, ◌+◌, ◌≤◌, IfOk, map, length};
ghost use Rattle.plan_text.specs.Plans.{words_of};
ghost use Rattle.num_ends.specs.Names.{folded};
ghost use Rattle.plan_text.specs.internal.Reading.{folded_words, step_of, checked_names, checked_name, with_first};

use crate::cuts::{Kind, cut, past_space};
use crate::step::Step;
use num_ends::{List, NoMemory, Text, folded_text, is_name_folded};
use std::alloc::Global;

/// The name that a word is, once its letters are folded, if it is one.
fn name(alloc: Global, word: &[u8]) -> Result<Option<Text>, NoMemory>
    ensures { IfOk result (λ found. found ≡ checked_name (map folded word.now)) }
{
    if !is_name_folded(word) {
        return Ok(None);
    }
    Ok(Some(folded_text(alloc, word)?))
}

/// The first word of a text and what follows it; without words both are empty.
#[tactic(auto, using(crate::proofs::Parts::next_word, crate::proofs::Parts::shorter_word))]
fn next_word(text: &[u8]) -> (&[u8], &[u8])
    ensures words { words_of text.now ≡ with_first result.0.now (words_of result.1.now) }
    ensures shorter { length result.0.now + length result.1.now ≤ length text.now }
{
    cut(Kind::Word, past_space(text))
}

/// The words of a text as names, if each is one.
fn names(alloc: Global, text: &[u8]) -> Result<Option<List<Text>>, NoMemory>
    ensures { IfOk result (λ found. found ≡ checked_names (folded_words text.now)) }
{
    let mut names = List::new(alloc);
    let mut rest = text;
    'words: loop {
        let (word, behind) = next_word(rest);
        if word.is_empty() {
            return Ok(Some(names));
        }
        match name(alloc, word)? {
            Some(name) => names.push(name)?,
            None => return Ok(None),
        }
        rest = behind;
    }
}

/// The step whose names are the words of a text.
pub(crate) fn step_of(alloc: Global, inside: &[u8]) -> Result<Option<Step>, NoMemory>
    ensures { IfOk result (λ found. found ≡ step_of (folded_words inside.now)) }
{
    let (word, rest) = next_word(inside);
    let name = match name(alloc, word)? {
        Some(name) => name,
        None => return Ok(None),
    };
    match names(alloc, rest)? {
        Some(args) => Ok(Some(Step { name, args })),
        None => Ok(None),
    }
}
