//! The lines of a plan file.

ghost use Rattle.std.specs.Prelude.{◌≡◌, ◌≤◌, length, ◌∷◌, ◌++◌, Some, None, IfOk, option_map, if◌then◌else◌};
ghost use Rattle.plan_text.specs.Plans.{lines_of};
ghost use Rattle.plan_text.specs.internal.Reading.{cut_at, is_comment, is_skipped, step_in, steps_in, lines_left, size_left};

use crate::cuts::{Kind, behind_first, cut, past_space};
use crate::marks::{may_follow, may_precede};
use crate::names::step_of;
use crate::step::Step;
use num_ends::{List, NoMemory};
use std::alloc::Global;

/// The first line of a text, and what follows its line feed.
#[tactic(auto, using(crate::proofs::Parts::first_line, crate::proofs::Fronts::shorter_left))]
pub(crate) fn first_line(text: &[u8]) -> (&[u8], Option<&[u8]>)
    ensures lines { lines_of text.now ≡ result.0.now ∷ lines_left (option_map (λ r. r.now) result.1) }
    ensures shorter { size_left (option_map (λ r. r.now) result.1) ≤ length text.now }
{
    let (line, rest) = cut(Kind::Not(b'\n'), text);
    (line, behind_first(rest))
}

fn is_comment(text: &[u8]) -> bool
    ensures { result ≡ is_comment text.now }
{
    match text {
        [first, ..] => *first == b';',
        [] => true,
    }
}

/// Whether a line has nothing but white space and perhaps a comment.
fn is_skipped(line: &[u8]) -> bool
    ensures { result ≡ is_skipped line.now }
{
    is_comment(past_space(line))
}

/// The text before a byte and the text behind it, where the byte is there.
fn cut_at(byte: u8, text: &[u8]) -> Option<(&[u8], &[u8])>
    ensures { option_map (λ r. (r.0.now, r.1.now)) result ≡ cut_at byte text.now }
{
    let (before, rest) = cut(Kind::Not(byte), text);
    match behind_first(rest) {
        Some(behind) => Some((before, behind)),
        None => None,
    }
}

/// The step that a line spells.
fn step_in(alloc: Global, line: &[u8]) -> Result<Option<Step>, NoMemory>
    ensures { IfOk result (λ found. found ≡ step_in line.now) }
{
    let (before, rest) = match cut_at(b'(', line) {
        Some(parts) => parts,
        None => return Ok(None),
    };
    let (inside, behind) = match cut_at(b')', rest) {
        Some(parts) => parts,
        None => return Ok(None),
    };
    if !may_precede(before) || !may_follow(behind) {
        return Ok(None);
    }
    step_of(alloc, inside)
}

/// Adds the step of a line to others, if it has one; whether the line is skipped or has one.
pub(crate) fn read_line(
    alloc: Global,
    line: &[u8],
    steps: &mut List<Step>,
) -> Result<bool, NoMemory>
    ensures { IfOk result (λ good. option_map (λ more. steps.old ++ more) (steps_in line.now) ≡ (if good then Some steps.new else None)) }
{
    if is_skipped(line) {
        return Ok(true);
    }
    match step_in(alloc, line)? {
        Some(step) => {
            steps.push(step)?;
            Ok(true)
        }
        None => Ok(false),
    }
}
