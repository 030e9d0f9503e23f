//! The line and the status of a verdict on a certificate.

ghost use Rattle.std.specs.Prelude.{◌≡◌, ◌++◌, codes, decimal, IfOk, OnOk};
ghost use Rattle.certify_command.specs.Verdicts.{action_text, checked_answer, checked_line, checked_status, reason_text, site_text};

use cert_check::{Checked, Reason};
use ground_task::Task;
use itoa::Buffer;
use num_ends::{List, NoMemory};
use run_answers::Answer;
use search_runs::Site;
use std::alloc::Global;

/// Appends the name of a ground action.
fn append_action(task: &Task, action: u32, out: &mut List<u8>) -> Result<(), NoMemory>
    ensures { OnOk result (out.new ≡ out.old ++ action_text task.now action) }
{
    match task.raw().actions.as_slice().get(action as usize) {
        Some(action) => out.extend_from_slice(action.name.as_slice()),
        None => Ok(()),
    }
}

/// Appends a word and the name of a ground action.
fn append_named(task: &Task, word: &[u8], action: u32, out: &mut List<u8>) -> Result<(), NoMemory>
    ensures { OnOk result (out.new ≡ out.old ++ (word.now ++ action_text task.now action)) }
{
    out.extend_from_slice(word)?;
    append_action(task, action, out)
}

/// Appends where a number leaves its range.
fn append_over(task: &Task, site: Site, out: &mut List<u8>) -> Result<(), NoMemory>
    ensures { OnOk result (out.new ≡ out.old ++ (codes "over " ++ site_text task.now site)) }
{
    match site {
        Site::Goal => out.extend_from_slice(b"over goal"),
        Site::Action(action) => append_named(task, b"over ", action, out),
    }
}

/// Appends what stands against a line.
fn append_reason(task: &Task, reason: Reason, out: &mut List<u8>) -> Result<(), NoMemory>
    ensures { OnOk result (out.new ≡ out.old ++ reason_text task.now reason) }
{
    match reason {
        Reason::Unmet(action) => append_named(task, b"unmet ", action, out),
        Reason::MayGoal => out.extend_from_slice(b"maygoal"),
        Reason::GoalHolds => out.extend_from_slice(b"goal"),
        Reason::Successor(action) => append_named(task, b"successor ", action, out),
        Reason::Over(site) => append_over(task, site, out),
        Reason::Initial => out.extend_from_slice(b"initial"),
    }
}

/// Appends the line of a certificate that isn't certified.
fn append_refused(
    task: &Task,
    line: u32,
    reason: Reason,
    out: &mut List<u8>,
) -> Result<(), NoMemory>
    ensures { OnOk result (out.new ≡ out.old ++ (codes "NOT CERTIFIED " ++ decimal line ++ codes " " ++ reason_text task.now reason ++ codes "\n")) }
{
    let mut buffer = Buffer::new();
    out.extend_from_slice(b"NOT CERTIFIED ")?;
    out.extend_from_slice(buffer.format(line).as_bytes())?;
    out.extend_from_slice(b" ")?;
    append_reason(task, reason, out)?;
    out.extend_from_slice(b"\n")
}

/// Appends the line of an answer on a certificate.
fn append_checked(task: &Task, checked: Checked, out: &mut List<u8>) -> Result<(), NoMemory>
    ensures { OnOk result (out.new ≡ out.old ++ checked_line task.now checked) }
{
    match checked {
        Checked::Certified => out.extend_from_slice(b"CERTIFIED\n"),
        Checked::Refused { line, reason } => append_refused(task, line, reason, out),
    }
}

/// The status of an answer on a certificate.
fn checked_status(checked: Checked) -> u8
    ensures { result ≡ checked_status checked }
{
    match checked {
        Checked::Certified => 0,
        Checked::Refused { .. } => 1,
    }
}

/// The line and the status of an answer on a certificate of a task.
pub(crate) fn checked_answer(
    alloc: Global,
    task: &Task,
    checked: Checked,
) -> Result<Answer, NoMemory>
    ensures { IfOk result (λ answer. answer ≡ checked_answer task.now checked) }
{
    let mut text = List::new(alloc);
    append_checked(task, checked, &mut text)?;
    Ok(Answer {
        status: checked_status(checked),
        text,
    })
}
