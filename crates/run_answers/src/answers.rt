//! An answer, and the one to what isn't accepted.

ghost use Rattle.std.specs.Prelude.{◌≡◌, IfOk};
ghost use Rattle.run_answers.specs.Refused.{refused};

use num_ends::{List, NoMemory};
use pair_text::{Refusal, write_refusal};
use std::alloc::Global;

/// What the program answers: the status that its process ends with, and the text that it writes.
#[derive(Debug, Drop)]
pub struct Answer {
    pub status: u8,
    pub text: List<u8>,
}

/// The answer to files, or to a command, that aren't accepted: status 4, and the line of the refusal.
///
/// # Errors
/// `NoMemory` where there is none for the line.
#[tactic(auto, unfolding(crate::specs::Refused::refused))]
pub fn refused(alloc: Global, refusal: &Refusal) -> Result<Answer, NoMemory>
    ensures { IfOk result (λ answer. answer ≡ refused refusal.now) }
{
    let mut text = List::new(alloc);
    write_refusal(alloc, refusal, &mut text)?;
    Ok(Answer { status: 4, text })
}
