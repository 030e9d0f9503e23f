//! From a size to the record of the search.

ghost use Rattle.std.specs.Prelude.{◌≤◌, IfErr, IfOk};
ghost use Rattle.search_records.specs.Records.{IsLegalRecord};
ghost use Rattle.answer_text.specs.Texts.{HasText};
ghost use Rattle.generate_command.specs.Generated.{EndsWith, IsFault, IsGenerated};

use pair_text::PairFault;
use plan_command::search as search_pair;
use search_records::Record;
use std::alloc::Global;
use task_gen::generate;

/// Searches the task with that many counters, from 2 to 64, on this thread, from its texts on: at most `limit` nodes are expanded,
/// 500,000 states and 40,000 dead boxes kept.
///
/// # Errors
/// The first reason against the texts, and `NoMemory` where there is none for them or for the search.
#[tactic(auto, using(crate::proofs::ShortTexts::domain_short, crate::proofs::ShortTexts::problem_short))]
pub fn search(alloc: Global, size: u32, limit: u32) -> Result<Record, PairFault>
    requires some { 2 ≤ size }
    requires few { size ≤ 64 }
    ensures found { IfOk result (IsGenerated size limit) }
    ensures fault { IfErr result (IsFault size) }
    ensures ends { EndsWith size limit result }
    ensures legal { IfOk result IsLegalRecord }
    ensures told { IfOk result HasText }
{
    let (domain, problem) = generate(alloc, size)?;
    search_pair(alloc, domain.as_slice(), problem.as_slice(), limit)
}
