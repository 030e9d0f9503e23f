//! The line of the record of a generated task.

ghost use Rattle.std.specs.Prelude.{◌≡◌, ◌≢◌, ◌≤◌, ◌++◌, decimal, IfErr, IfOk, MatchResult, OnOk};
ghost use Rattle.search_records.specs.Records.{IsLegalRecord};
ghost use Rattle.answer_text.specs.Sending.{IsCause, IsSent, IsSummarySent, IsSummaryWritten, IsUnsentCause};
ghost use Rattle.answer_text.specs.Texts.{HasText, kept_text, search_text, summary_line, task_text};
ghost use Rattle.answer_text.specs.declared.faults.Unsent.TheVariants as unsent;

use crate::faults::{SendFault, Unsent};
use crate::paths::append_number;
use crate::status::status_of;
use edge_io::{Sink, write_whole};
use num_ends::{List, NoMemory};
use search_records::Record;
use search_runs::Answer;
use std::alloc::Global;

/// Appends words and a number.
fn append_numbered(out: &mut List<u8>, words: &[u8], number: u64) -> Result<(), NoMemory>
    ensures { OnOk result (out.new ≡ out.old ++ (words.now ++ decimal number)) }
{
    out.extend_from_slice(words)?;
    append_number(out, number)
}

/// Appends the size of the task and the status of its search.
#[tactic(auto, unfolding(crate::specs::Texts::search_text))]
fn append_search(out: &mut List<u8>, size: u64, status: u64) -> Result<(), NoMemory>
    ensures { OnOk result (out.new ≡ out.old ++ search_text size status) }
{
    append_numbered(out, b"GENERATED size ", size)?;
    append_numbered(out, b" status ", status)
}

/// Appends how much the search kept.
#[tactic(auto, unfolding(crate::specs::Texts::kept_text))]
fn append_kept(out: &mut List<u8>, found: &Record) -> Result<(), NoMemory>
    ensures { OnOk result (out.new ≡ out.old ++ kept_text found.now) }
{
    append_numbered(out, b" states ", found.nodes.len() as u64)?;
    append_numbered(out, b" boxes ", found.boxes.len() as u64)
}

/// Appends the sizes of the task.
#[tactic(auto, unfolding(crate::specs::Texts::task_text))]
fn append_task(out: &mut List<u8>, found: &Record) -> Result<(), NoMemory>
    ensures { OnOk result (out.new ≡ out.old ++ task_text found.now.task) }
{
    let raw = found.task.raw();
    append_numbered(out, b" facts ", raw.facts.len() as u64)?;
    append_numbered(out, b" fluents ", raw.fluents.len() as u64)?;
    append_numbered(out, b" actions ", raw.actions.len() as u64)
}

/// The line.
fn summary_line(
    alloc: Global,
    size: u32,
    found: &Record,
    answer: Answer,
) -> Result<List<u8>, NoMemory>
    ensures { IfOk result (λ line. line ≡ summary_line size found.now answer) }
{
    let mut line = List::new(alloc);
    append_search(&mut line, u64::from(size), u64::from(status_of(answer)))?;
    append_kept(&mut line, found)?;
    append_task(&mut line, found)?;
    line.extend_from_slice(b"\n")?;
    Ok(line)
}

/// Sends the line of this answer.
fn send_as<S: Sink>(
    alloc: Global,
    size: u32,
    found: &Record,
    answer: Answer,
    sink: &mut S,
) -> Result<(), Unsent>
    ensures text { IsSent (S.written sink.old) (S.written sink.new) (summary_line size found.now answer) result }
    ensures at_once { IfErr result (λ e. e ≢ unsent.CutShort) }
    ensures later { S.faults sink.old ≤ S.faults sink.new }
    ensures cause { MatchResult result
        (λ _. S.faults sink.new ≡ S.faults sink.old)
        (IsUnsentCause (S.faults sink.old) (S.faults sink.new)) }
{
    let line = summary_line(alloc, size, found, answer)?;
    write_whole(sink, line.as_slice())?;
    Ok(())
}

/// Sends the line that says what the search of a generated task of this size found: its status, how many states and boxes
/// it kept, and how many facts, fluents and actions the task has. At `Ok` the whole line was written.
///
/// # Errors
/// `Sink` where the sink counted a fault: a front of the line was written, and not all of it. `NoMemory` where there was no
/// memory for the line: nothing was written.
#[tactic(auto, using(crate::proofs::Told::sound_record, crate::proofs::Told::no_answer, crate::proofs::Told::summary_sent))]
pub fn send_summary<S: Sink>(
    alloc: Global,
    size: u32,
    found: &Record,
    sink: &mut S,
) -> Result<(), Unsent>
    requires legal { IsLegalRecord found.now }
    requires told { HasText found.now }
    ensures text { IsSummarySent size found.now (S.written sink.old) (S.written sink.new) result }
    ensures at_once { IfErr result (λ e. e ≢ unsent.CutShort) }
    ensures later { S.faults sink.old ≤ S.faults sink.new }
    ensures cause { MatchResult result
        (λ _. S.faults sink.new ≡ S.faults sink.old)
        (IsUnsentCause (S.faults sink.old) (S.faults sink.new)) }
{
    let _raw = found.task.raw();
    match found.answer() {
        Some(answer) => send_as(alloc, size, found, answer, sink),
        None => unreachable!(),
    }
}

/// Writes the line of a record of a generated task, as [`send_summary`] does. After an error a front of the line was written,
/// and not all of it.
///
/// # Errors
/// `Sink` where the sink counted a fault, `NoMemory` where there was none for the line.
#[tactic(auto, using(crate::proofs::Told::summary_cut))]
pub fn write_summary<S: Sink>(
    alloc: Global,
    size: u32,
    found: &Record,
    sink: &mut S,
) -> Result<(), SendFault>
    requires legal { IsLegalRecord found.now }
    requires told { HasText found.now }
    ensures text { IsSummaryWritten size found.now (S.written sink.old) (S.written sink.new) result }
    ensures later { S.faults sink.old ≤ S.faults sink.new }
    ensures cause { MatchResult result
        (λ _. S.faults sink.new ≡ S.faults sink.old)
        (IsCause (S.faults sink.old) (S.faults sink.new)) }
{
    match send_summary(alloc, size, found, sink) {
        Ok(()) => Ok(()),
        Err(fault) => Err(SendFault::from(fault)),
    }
}
