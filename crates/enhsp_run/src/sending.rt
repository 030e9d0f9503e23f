//! An answer is written, and the call ends.

ghost use Rattle.std.specs.Prelude.{◌≡◌, ◌≤◌, ℕ, List, Option, None, Some, MatchResult};
ghost use Rattle.answer_text.specs.Sending.{IsSent, IsUnsentCause};
ghost use Rattle.answer_text.specs.Texts.{HasText, IsCertOf, status_of};
ghost use Rattle.search_records.specs.Records.{IsLegalRecord, answer_in};
ghost use Rattle.search_runs.specs.declared.answers.Answer.{Answer as SearchAnswer};
ghost use Rattle.upgrade_command.specs.Answers.{upgraded};
ghost use Rattle.enhsp_run.specs.Outcomes.{CanBeSent, IsEnd, IsMade, Nothing, Only, Tells, text_in};
ghost use Rattle.enhsp_run.specs.Told.{TellsRecord, Told, plainly};

use crate::ended::Ended;
use crate::outcomes::{Form, Outcome};
use answer_text::{Unsent, send_answer, send_summary, send_upgrade, status_of};
use edge_io::{Failed, Sink, write_whole};
use pair_certificate::TaskCertificate;
use run_answers::Answer;
use search_records::Record;
use std::alloc::Global;

/// The status of a fault of the output.
const SINK_FAULT: u8 = 7;

/// The status where there was no memory.
const NO_MEMORY: u8 = 8;

// Lets a record go.
fn discard(_found: Option<Record>) {}

/// The end of a call without a search.
fn ended(status: u8) -> Ended
    ensures status { result.status ≡ status }
    ensures found { result.found ≡ None }
{
    Ended {
        status,
        found: None,
    }
}

/// Ends a call that found no memory for what it would tell: writes the line on that.
pub(crate) fn end_without_memory<S: Sink>(sink: &mut S) -> Ended
    ensures { IsEnd Nothing (S.written sink.old) (S.written sink.new) (S.faults sink.old) (S.faults sink.new) result }
{
    match write_whole(sink, b"NO MEMORY\n") {
        Ok(()) => ended(NO_MEMORY),
        Err(Failed) => ended(SINK_FAULT),
    }
}

/// Writes an answer, and ends with its status.
fn send_written<S: Sink>(answer: &Answer, sink: &mut S) -> Ended
    requires { answer.now.status ≤ 6 }
    ensures memory { result.status ≤ 7 }
    ensures end { IsEnd (Only (plainly answer.now)) (S.written sink.old) (S.written sink.new) (S.faults sink.old) (S.faults sink.new) result }
{
    match write_whole(sink, answer.text.as_slice()) {
        Ok(()) => ended(answer.status),
        Err(Failed) => ended(SINK_FAULT),
    }
}

/// Ends a call whose text was sent so, with this status where all of it was written.
///
/// The record is handed back unless nothing was written for want of memory.
fn end_sent<S: Sink>(
    status: u8,
    found: Option<Record>,
    sent: Result<(), Unsent>,
    sink: &mut S,
) -> Ended
    requires { status ≤ 6 }
    ensures { (told : Told) (before : Option (List ℕ)) (faults : ℕ) → told.status ≡ status → told.found ≡ found
        → IsSent before (S.written sink.old) told.text sent
        → MatchResult sent (λ _. S.faults sink.old ≡ faults) (IsUnsentCause faults (S.faults sink.old))
        → IsEnd (Only told) before (S.written sink.new) faults (S.faults sink.new) result }
{
    match sent {
        Ok(()) => Ended { status, found },
        Err(Unsent::Sink) => Ended {
            status: SINK_FAULT,
            found,
        },
        Err(Unsent::CutShort) => Ended {
            status: NO_MEMORY,
            found,
        },
        Err(Unsent::NoMemory) => {
            discard(found);
            end_without_memory(sink)
        }
    }
}

/// The status of the answer of a record.
fn status_in(found: &Record) -> u8
    requires legal { IsLegalRecord found.now }
    requires told { HasText found.now }
    ensures { (answer : SearchAnswer) → answer_in found.now ≡ Some answer → result ≡ status_of answer }
{
    let _raw = found.task.raw();
    match found.answer() {
        Some(answer) => status_of(answer),
        None => unreachable!(),
    }
}

/// Sends the text of a record in a form.
fn send_text<S: Sink>(alloc: Global, form: Form, found: &Record, sink: &mut S) -> Result<(), Unsent>
    requires legal { IsLegalRecord found.now }
    requires told { HasText found.now }
    ensures text { (told : Told) × TellsRecord (text_in form) found.now told × IsSent (S.written sink.old) (S.written sink.new) told.text result }
    ensures cause { MatchResult result
        (λ _. S.faults sink.new ≡ S.faults sink.old)
        (IsUnsentCause (S.faults sink.old) (S.faults sink.new)) }
{
    match form {
        Form::Whole => send_answer(alloc, found, sink),
        Form::Summary(size) => send_summary(alloc, size, found, sink),
    }
}

/// Sends the text of a record, and ends with the status of its answer.
fn send_found<S: Sink>(alloc: Global, form: Form, found: Record, sink: &mut S) -> Ended
    requires legal { IsLegalRecord found }
    requires told { HasText found }
    ensures { (told : Told) × TellsRecord (text_in form) found told
        × IsEnd (Only told) (S.written sink.old) (S.written sink.new) (S.faults sink.old) (S.faults sink.new) result }
{
    let status = status_in(&found);
    let sent = send_text(alloc, form, &found, sink);
    end_sent(status, Some(found), sent, sink)
}

/// Sends the text of a certificate in version 2, and ends with status 0.
fn send_upgraded<S: Sink>(alloc: Global, read: TaskCertificate, sink: &mut S) -> Ended
    requires cert { IsCertOf read.task read.cert }
    ensures { IsEnd (Only (plainly (upgraded read.task read.cert)))
        (S.written sink.old) (S.written sink.new) (S.faults sink.old) (S.faults sink.new) result }
{
    let sent = send_upgrade(alloc, &read.task, &read.cert, sink);
    read.discard();
    end_sent(0, None, sent, sink)
}

/// Writes what an outcome tells, and ends with its status.
pub(crate) fn send<S: Sink>(alloc: Global, outcome: Outcome, sink: &mut S) -> Ended
    requires sent { CanBeSent outcome }
    requires small { (told : Told) → Tells outcome told → told.status ≤ 6 }
    ensures made { result.status ≡ 8 → IsMade outcome }
    ensures end { IsEnd (Tells outcome) (S.written sink.old) (S.written sink.new) (S.faults sink.old) (S.faults sink.new) result }
{
    match outcome {
        Outcome::Written(answer) => send_written(&answer, sink),
        Outcome::Found(form, found) => send_found(alloc, form, found, sink),
        Outcome::Upgraded(read) => send_upgraded(alloc, read, sink),
    }
}
