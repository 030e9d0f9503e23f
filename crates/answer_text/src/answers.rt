//! The text of an answer.

ghost use Rattle.std.specs.Prelude.{◌≡◌, ◌≢◌, ◌<◌, ◌≤◌, ◌∷◌, [], ℕ, List, IfOk, MatchResult, length};
ghost use Rattle.ground_task.specs.Tasks.{TaskValue};
ghost use Rattle.search_runs.specs.Answers.{path_to};
ghost use Rattle.search_runs.specs.declared.answers.Answer.TheVariants as variant;
ghost use Rattle.search_records.specs.Records.{IsKnownAnswer, IsLegalRecord, IsSound};
ghost use Rattle.answer_text.specs.Sending.{IsAnswerSent, IsAnswerWritten, IsCause, IsSent, IsUnsentCause};
ghost use Rattle.answer_text.specs.Texts.{AreLines, full_line, HasText, IsTextOf, overflow_lines, plan_lines};
ghost use Rattle.answer_text.specs.internal.Listed.{AreFew, AreReady, lines_of};

use crate::faults::{SendFault, Unsent};
use crate::lines::Lines;
use crate::paths::{numbered, overflow_line, path_to};
use crate::sending::send;
use crate::states::sorted_states;
use edge_io::Sink;
use num_ends::{List, NoMemory};
use search_records::Record;
use search_runs::{Answer, Full, Site};
use std::alloc::Global;

/// One line.
fn one_line<'a>(alloc: Global, line: List<u8>) -> Lines<'a>
    ensures lines { (t : TaskValue) → lines_of t result ≡ line ∷ [] }
    ensures few { AreFew result }
    ensures ready { (t : TaskValue) → AreReady t result }
{
    Lines::Steps(line, List::new(alloc))
}

/// The lines of a plan.
fn plan_lines<'a>(alloc: Global, found: &'a Record, node: u32) -> Result<Lines<'a>, NoMemory>
    requires sound { IsSound found.now }
    requires known { node < length found.now.nodes }
    ensures lines { IfOk result (λ lines. lines_of found.now.task lines ≡ plan_lines found.now.task (path_to found.now.nodes node)) }
    ensures few { IfOk result AreFew }
    ensures ready { IfOk result (AreReady found.now.task) }
{
    let path = path_to(alloc, found.nodes.as_slice(), node)?;
    let head = numbered(alloc, b"; PLAN ", path.len() as u64)?;
    Ok(Lines::Steps(head, path))
}

/// The lines of what leaves the range of numbers.
fn overflow_lines<'a>(
    alloc: Global,
    found: &'a Record,
    node: u32,
    site: Site,
) -> Result<Lines<'a>, NoMemory>
    requires sound { IsSound found.now }
    requires known { node < length found.now.nodes }
    ensures lines { IfOk result (λ lines. lines_of found.now.task lines ≡ overflow_lines found.now.task (path_to found.now.nodes node) site) }
    ensures few { IfOk result AreFew }
    ensures ready { IfOk result (AreReady found.now.task) }
{
    let path = path_to(alloc, found.nodes.as_slice(), node)?;
    let head = overflow_line(alloc, &found.task, site)?;
    Ok(Lines::Steps(head, path))
}

/// The lines of the certificate.
#[tactic(auto, using(crate::proofs::Told::exhausted_lines, crate::proofs::Told::ready_states))]
fn certificate_lines<'a>(alloc: Global, found: &'a Record) -> Result<Lines<'a>, NoMemory>
    requires sound { IsSound found.now }
    ensures lines { IfOk result (λ lines. AreLines found.now variant.Exhausted (lines_of found.now.task lines)) }
    ensures few { IfOk result AreFew }
    ensures ready { IfOk result (AreReady found.now.task) }
{
    let states = sorted_states(alloc, found.nodes.as_slice())?;
    Ok(Lines::Certificate(found.boxes.as_slice(), states))
}

/// The line of what a search had no room for.
fn full_line(alloc: Global, full: Full) -> Result<List<u8>, NoMemory>
    ensures { IfOk result (λ line. line ≡ full_line full) }
{
    let mut line = List::new(alloc);
    match full {
        Full::States => line.extend_from_slice(b"LIMIT states 500000\n")?,
        Full::Boxes => line.extend_from_slice(b"LIMIT boxes 40000\n")?,
    }
    Ok(line)
}

/// The lines of an answer.
#[tactic(auto, using(crate::proofs::Told::site_there))]
fn lines_for<'a>(alloc: Global, found: &'a Record, answer: Answer) -> Result<Lines<'a>, NoMemory>
    requires sound { IsSound found.now }
    requires known { IsKnownAnswer found.now answer }
    requires told { answer ≢ variant.Starved }
    ensures lines { IfOk result (λ lines. AreLines found.now answer (lines_of found.now.task lines)) }
    ensures few { IfOk result AreFew }
    ensures ready { IfOk result (AreReady found.now.task) }
{
    match answer {
        Answer::Plan(node) => plan_lines(alloc, found, node),
        Answer::Exhausted => certificate_lines(alloc, found),
        Answer::Over(node, site) => overflow_lines(alloc, found, node, site),
        Answer::Expansions => {
            let line = numbered(alloc, b"LIMIT expansions ", u64::from(found.limit))?;
            Ok(one_line(alloc, line))
        }
        Answer::Filled(full) => Ok(one_line(alloc, full_line(alloc, full)?)),
        Answer::Starved => unreachable!(),
    }
}

// Lets the lines go.
pub(crate) fn discard(_lines: Lines) {}

/// Sends the text of this answer.
#[tactic(auto, using(crate::proofs::Told::unsent_text, crate::proofs::Told::sent_lines, crate::proofs::Nonempty::lines_some))]
fn send_as<S: Sink>(
    alloc: Global,
    found: &Record,
    answer: Answer,
    sink: &mut S,
) -> Result<(), Unsent>
    requires sound { IsSound found.now }
    requires known { IsKnownAnswer found.now answer }
    requires told { answer ≢ variant.Starved }
    ensures text { (text : List ℕ) × IsTextOf found.now answer text × IsSent (S.written sink.old) (S.written sink.new) text result }
    ensures later { S.faults sink.old ≤ S.faults sink.new }
    ensures cause { MatchResult result
        (λ _. S.faults sink.new ≡ S.faults sink.old)
        (IsUnsentCause (S.faults sink.old) (S.faults sink.new)) }
{
    let lines = lines_for(alloc, found, answer)?;
    let sent = send(alloc, &found.task, &lines, sink);
    discard(lines);
    sent
}

/// Sends the text of the answer of a record: a plan; a certificate that there is none; what the search ran out of; or what
/// leaves the range of numbers. At `Ok` the whole text was written.
///
/// # Errors
/// `Sink` where the sink counted a fault: a front of the text was written, and not all of it. `NoMemory` where there was no
/// memory before the first byte: nothing was written. `CutShort` where there was none for a later part: a front of the text was
/// written, of one byte or more, and not all of it.
#[tactic(auto, using(crate::proofs::Told::sound_record, crate::proofs::Told::told_as, crate::proofs::Told::no_answer, crate::proofs::Told::answer_sent))]
pub fn send_answer<S: Sink>(alloc: Global, found: &Record, sink: &mut S) -> Result<(), Unsent>
    requires legal { IsLegalRecord found.now }
    requires told { HasText found.now }
    ensures text { IsAnswerSent found.now (S.written sink.old) (S.written sink.new) result }
    ensures later { S.faults sink.old ≤ S.faults sink.new }
    ensures cause { MatchResult result
        (λ _. S.faults sink.new ≡ S.faults sink.old)
        (IsUnsentCause (S.faults sink.old) (S.faults sink.new)) }
{
    let _raw = found.task.raw();
    match found.answer() {
        Some(answer) => send_as(alloc, found, answer, sink),
        None => unreachable!(),
    }
}

/// Writes the text of the answer of a record, as [`send_answer`] does. After an error a front of the text was written, and not
/// all of it.
///
/// # Errors
/// `Sink` where the sink counted a fault, `NoMemory` where there was none for a part of the text.
#[tactic(auto, using(crate::proofs::Told::answer_cut))]
pub fn write_answer<S: Sink>(alloc: Global, found: &Record, sink: &mut S) -> Result<(), SendFault>
    requires legal { IsLegalRecord found.now }
    requires told { HasText found.now }
    ensures text { IsAnswerWritten found.now (S.written sink.old) (S.written sink.new) result }
    ensures later { S.faults sink.old ≤ S.faults sink.new }
    ensures cause { MatchResult result
        (λ _. S.faults sink.new ≡ S.faults sink.old)
        (IsCause (S.faults sink.old) (S.faults sink.new)) }
{
    match send_answer(alloc, found, sink) {
        Ok(()) => Ok(()),
        Err(fault) => Err(SendFault::from(fault)),
    }
}
