//! From texts to the record of the search.

ghost use Rattle.std.specs.Prelude.{◌≤◌, ◌^◌, length, IfErr, IfOk};
ghost use Rattle.pair_task.specs.Refusals.{IsFault};
ghost use Rattle.search_records.specs.Records.{IsLegalRecord};
ghost use Rattle.answer_text.specs.Texts.{HasText};
ghost use Rattle.plan_command.specs.Ends.{EndsWith};
ghost use Rattle.plan_command.specs.Found.{IsFound};

use num_ends::NoMemory;
use pair_task::read_task;
use pair_text::PairFault;
use search_alone::solve_alone;
use search_records::Record;
use std::alloc::Global;

/// The record of the search of the task of the pair that two texts spell.
#[tactic(auto, using(crate::proofs::Found::found))]
fn found_in(alloc: Global, domain: &[u8], problem: &[u8], limit: u32) -> Result<Record, PairFault>
    requires domain_size { length domain.now ≤ 2 ^ 30 }
    requires problem_size { length problem.now ≤ 2 ^ 30 }
    ensures found { IfOk result (IsFound domain.now problem.now limit) }
    ensures fault { IfErr result (IsFault domain.now problem.now) }
{
    match read_task(alloc, domain, problem) {
        Ok(task) => match solve_alone(alloc, task, limit) {
            Ok(record) => Ok(record),
            Err(NoMemory) => Err(PairFault::NoMemory),
        },
        Err(fault) => Err(fault),
    }
}

/// Searches the task of the pair that the texts of a domain and a problem spell, of at most 2^30 bytes each, on this thread:
/// at most `limit` nodes are expanded, 500,000 states and 40,000 dead boxes kept.
///
/// The record has an answer, which has a text: a plan, that there is none, that a limit was met, or that a number left its
/// range.
///
/// # Errors
/// The first reason against the texts, the pair or its task, and `NoMemory` where there is none for them or for the search.
#[tactic(auto, using(crate::proofs::Ends::ends, crate::proofs::Ends::legal_record, crate::proofs::Ends::has_text))]
pub fn search(alloc: Global, domain: &[u8], problem: &[u8], limit: u32) -> Result<Record, PairFault>
    requires domain_size { length domain.now ≤ 2 ^ 30 }
    requires problem_size { length problem.now ≤ 2 ^ 30 }
    ensures found { IfOk result (IsFound domain.now problem.now limit) }
    ensures fault { IfErr result (IsFault domain.now problem.now) }
    ensures ends { EndsWith domain.now problem.now limit result }
    ensures legal { IfOk result IsLegalRecord }
    ensures told { IfOk result HasText }
{
    found_in(alloc, domain, problem, limit)
}
