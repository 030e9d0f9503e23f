//! Certificates in version 2.

ghost use Rattle.std.specs.Prelude.{◌≡◌, ◌≤◌, length, map, IfOk, MatchResult};
ghost use Rattle.ground_task.specs.Tasks.{TaskValue};
ghost use Rattle.answer_text.specs.Sending.{IsCause, IsSent, IsUnsentCause, IsWritten};
ghost use Rattle.answer_text.specs.Texts.{certificate_lines, certificate_text, IsCertOf};
ghost use Rattle.answer_text.specs.internal.Listed.{AreFew, AreReady, lines_of};

use crate::answers::discard;
use crate::faults::{SendFault, Unsent};
use crate::lines::Lines;
use crate::sending::send;
use cert_text::Cert;
use edge_io::Sink;
use ground_task::{State, Task};
use num_ends::NoMemory;
use std::alloc::Global;

/// The states, in their order.
fn each_state<'a>(alloc: Global, states: &'a [State]) -> Result<Vec<&'a State>, NoMemory>
    ensures same { IfOk result (λ refs. map (λ s. s.now) refs.items ≡ states.now) }
{
    let mut refs = Vec::new(alloc);
    'each: for state in states {
        refs.push(state)?;
    }
    Ok(refs)
}

/// The lines of a certificate.
#[tactic(auto, using(crate::proofs::Told::ready_all, crate::proofs::Told::as_many))]
fn lines_of_cert<'a>(alloc: Global, task: &Task, cert: &'a Cert) -> Result<Lines<'a>, NoMemory>
    requires cert { IsCertOf task.now cert.now }
    ensures lines { IfOk result (λ lines. lines_of task.now lines ≡ certificate_lines task.now cert.now.boxes cert.now.states) }
    ensures few { IfOk result AreFew }
    ensures ready { IfOk result (AreReady task.now) }
{
    let states = each_state(alloc, cert.states.as_slice())?;
    Ok(Lines::Certificate(cert.boxes.as_slice(), states))
}

/// Sends a certificate in version 2, its boxes and states in the order of its lists. At `Ok` the whole text was written.
///
/// # Errors
/// `Sink` where the sink counted a fault: a front of the text was written, and not all of it. `NoMemory` where there was no
/// memory before the first byte: nothing was written. `CutShort` where there was none for a later part: a front of the text was
/// written, of one byte or more, and not all of it.
#[tactic(auto, using(crate::proofs::Nonempty::certificate_some))]
pub fn send_upgrade<S: Sink>(
    alloc: Global,
    task: &Task,
    cert: &Cert,
    sink: &mut S,
) -> Result<(), Unsent>
    requires cert { IsCertOf task.now cert.now }
    ensures text { IsSent (S.written sink.old) (S.written sink.new) (certificate_text task.now cert.now) result }
    ensures later { S.faults sink.old ≤ S.faults sink.new }
    ensures cause { MatchResult result
        (λ _. S.faults sink.new ≡ S.faults sink.old)
        (IsUnsentCause (S.faults sink.old) (S.faults sink.new)) }
{
    let lines = lines_of_cert(alloc, task, cert)?;
    let sent = send(alloc, task, &lines, sink);
    discard(lines);
    sent
}

/// Writes a certificate in version 2, as [`send_upgrade`] does. After an error a front of the text was written, and not all of it.
///
/// # Errors
/// `Sink` where the sink counted a fault, `NoMemory` where there was none for a part of the text.
#[tactic(auto, using(crate::proofs::Told::certificate_cut))]
pub fn write_upgrade<S: Sink>(
    alloc: Global,
    task: &Task,
    cert: &Cert,
    sink: &mut S,
) -> Result<(), SendFault>
    requires cert { IsCertOf task.now cert.now }
    ensures text { IsWritten (S.written sink.old) (S.written sink.new) (certificate_text task.now cert.now) result }
    ensures later { S.faults sink.old ≤ S.faults sink.new }
    ensures cause { MatchResult result
        (λ _. S.faults sink.new ≡ S.faults sink.old)
        (IsCause (S.faults sink.old) (S.faults sink.new)) }
{
    match send_upgrade(alloc, task, cert, sink) {
        Ok(()) => Ok(()),
        Err(fault) => Err(SendFault::from(fault)),
    }
}
