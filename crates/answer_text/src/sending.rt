//! Lines that are written piece by piece.

ghost use Rattle.std.specs.Prelude.{◌≡◌, ◌<◌, ◌≤◌, ◌++◌, [], All, false, true, length, slice_index_or, MatchResult, if◌then◌else◌};
ghost use Rattle.std.specs.Io.KnownBytes.{Appends};
ghost use Rattle.std.specs.List.{concat};
ghost use Rattle.edge_io.specs.Causes.{HasCause};
ghost use Rattle.answer_text.specs.Sending.{IsCut, IsSent, IsUnsentCause};
ghost use Rattle.answer_text.specs.internal.Held.{AreSent, IsHeldBack};
ghost use Rattle.answer_text.specs.internal.Listed.{AreFew, AreReady, lines_of};
ghost use Rattle.answer_text.specs.declared.faults.Unsent.TheVariants as unsent;

use crate::faults::Unsent;
use crate::lines::Lines;
use edge_io::{Failed, Sink, write_whole};
use ground_task::Task;
use num_ends::List;
use std::alloc::Global;

/// How many bytes are held back until they are written together.
const PIECE: usize = 65_536;

/// Writes what is held back.
fn pass_on<S: Sink>(sink: &mut S, held: &mut List<u8>) -> Result<(), Failed>
    ensures bytes { MatchResult result
        (λ _. Appends (S.written sink.old) (S.written sink.new) held.old × (held.new ≡ []))
        (λ _. IsCut (S.written sink.old) (S.written sink.new) held.old) }
    ensures cause { HasCause (S.faults sink.old) (S.faults sink.new) result }
{
    write_whole(sink, held.as_slice())?;
    held.truncate(0);
    Ok(())
}

/// Writes what is held back once it is a piece, and answers whether a byte is written by then.
#[tactic(auto, using(crate::proofs::Sends::none_sent, crate::proofs::Sends::all_sent))]
fn pass_piece<S: Sink>(sink: &mut S, is_begun: bool, held: &mut List<u8>) -> Result<bool, Failed>
    ensures bytes { MatchResult result
        (λ begun. AreSent is_begun begun (S.written sink.old) (S.written sink.new) held.new held.old)
        (λ _. IsCut (S.written sink.old) (S.written sink.new) held.old) }
    ensures cause { HasCause (S.faults sink.old) (S.faults sink.new) result }
{
    if held.len() < PIECE {
        return Ok(is_begun);
    }
    pass_on(sink, held)?;
    Ok(true)
}

/// The want of memory, before the first byte or behind it.
fn lacking(is_begun: bool) -> Unsent
    ensures { result ≡ (if is_begun then unsent.CutShort else unsent.NoMemory) }
{
    if is_begun {
        Unsent::CutShort
    } else {
        Unsent::NoMemory
    }
}

/// Adds a line to what is held back, and writes that once it is a piece. It answers whether a byte is written by then.
#[tactic(auto, using(crate::proofs::Sends::lacks))]
fn add_line<S: Sink>(
    alloc: Global,
    task: &Task,
    lines: &Lines,
    number: usize,
    is_begun: bool,
    sink: &mut S,
    held: &mut List<u8>,
) -> Result<bool, Unsent>
    requires ready { AreReady task.now lines.now }
    requires known { number < length (lines_of task.now lines.now) }
    ensures bytes { MatchResult result
        (λ begun. AreSent is_begun begun (S.written sink.old) (S.written sink.new) held.new (held.old ++ slice_index_or (lines_of task.now lines.now) number []))
        (IsHeldBack is_begun (S.written sink.old) (S.written sink.new) (held.old ++ slice_index_or (lines_of task.now lines.now) number [])) }
    ensures later { S.faults sink.old ≤ S.faults sink.new }
    ensures cause { MatchResult result
        (λ _. S.faults sink.new ≡ S.faults sink.old)
        (IsUnsentCause (S.faults sink.old) (S.faults sink.new)) }
{
    let Ok(()) = lines.write(alloc, task, number, held) else {
        return Err(lacking(is_begun));
    };
    Ok(pass_piece(sink, is_begun, held)?)
}

/// Writes all lines.
pub(crate) fn send<S: Sink>(
    alloc: Global,
    task: &Task,
    lines: &Lines,
    sink: &mut S,
) -> Result<(), Unsent>
    requires few { AreFew lines.now }
    requires ready { AreReady task.now lines.now }
    requires some { All (λ line. 0 < length line) (lines_of task.now lines.now) }
    ensures text { IsSent (S.written sink.old) (S.written sink.new) (concat (lines_of task.now lines.now)) result }
    ensures later { S.faults sink.old ≤ S.faults sink.new }
    ensures cause { MatchResult result
        (λ _. S.faults sink.new ≡ S.faults sink.old)
        (IsUnsentCause (S.faults sink.old) (S.faults sink.new)) }
{
    let mut held = List::new(alloc);
    let mut is_begun = false;
    'lines: for number in 0..lines.count() {
        is_begun = add_line(alloc, task, lines, number, is_begun, sink, &mut held)?;
    }
    pass_on(sink, &mut held)?;
    Ok(())
}
