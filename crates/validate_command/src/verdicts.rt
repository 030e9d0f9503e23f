//! The line and the status of a verdict on a plan.

ghost use Rattle.std.specs.Prelude.{◌≡◌, ◌++◌, codes, decimal, IfOk, OnOk};
ghost use Rattle.validate_command.specs.Validations.{verdict_answer, verdict_line, verdict_status};

use itoa::Buffer;
use num_ends::{List, NoMemory};
use plan_validator::Verdict;
use run_answers::Answer;
use std::alloc::Global;

/// Writes a number with a word before it and one behind it.
fn write_numbered(
    before: &[u8],
    number: u32,
    behind: &[u8],
    out: &mut List<u8>,
) -> Result<(), NoMemory>
    ensures { OnOk result (out.new ≡ out.old ++ (before.now ++ decimal number ++ behind.now)) }
{
    let mut buffer = Buffer::new();
    out.extend_from_slice(before)?;
    out.extend_from_slice(buffer.format(number).as_bytes())?;
    out.extend_from_slice(behind)
}

/// Writes the line of a verdict on a plan of so many steps.
fn write_verdict(verdict: Verdict, count: u32, out: &mut List<u8>) -> Result<(), NoMemory>
    ensures { OnOk result (out.new ≡ out.old ++ verdict_line verdict count) }
{
    match verdict {
        Verdict::Valid => write_numbered(b"VALID ", count, b"\n", out),
        Verdict::Blocked(number) => write_numbered(b"INVALID ", number, b" blocked\n", out),
        Verdict::Illegal(number) => write_numbered(b"INVALID ", number, b" illegal\n", out),
        Verdict::Over(number) => write_numbered(b"OVERFLOW ", number, b"\n", out),
        Verdict::OverGoal => out.extend_from_slice(b"OVERFLOW goal\n"),
        Verdict::NotGoal => out.extend_from_slice(b"INVALID goal\n"),
    }
}

/// The status of a verdict.
fn verdict_status(verdict: Verdict) -> u8
    ensures { result ≡ verdict_status verdict }
{
    match verdict {
        Verdict::Valid => 0,
        Verdict::Blocked(_) | Verdict::Illegal(_) | Verdict::NotGoal => 1,
        Verdict::Over(_) | Verdict::OverGoal => 3,
    }
}

/// The answer that a verdict on a plan of so many steps is.
pub(crate) fn verdict_answer(
    alloc: Global,
    verdict: Verdict,
    count: u32,
) -> Result<Answer, NoMemory>
    ensures { IfOk result (λ answer. answer ≡ verdict_answer verdict count) }
{
    let mut text = List::new(alloc);
    write_verdict(verdict, count, &mut text)?;
    Ok(Answer {
        status: verdict_status(verdict),
        text,
    })
}
