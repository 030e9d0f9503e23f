//! The statuses of answers.

ghost use Rattle.std.specs.Prelude.{◌≡◌};
ghost use Rattle.answer_text.specs.Texts.{status_of};

use search_runs::Answer;

/// The status that a program ends with whose search has this answer: 0 with a plan, 1 where there is none, 2 where the search ran
/// out of expansions, states or boxes, 3 where a number leaves its range, and 8, the status of a want of memory, where a worker
/// starved.
pub fn status_of(answer: Answer) -> u8
    ensures { result ≡ status_of answer }
{
    match answer {
        Answer::Plan(_) => 0,
        Answer::Exhausted => 1,
        Answer::Expansions | Answer::Filled(_) => 2,
        Answer::Over(_, _) => 3,
        Answer::Starved => 8,
    }
}
