//! Texts read as domains and problems.

ghost use Rattle.std.specs.Prelude.{◌≡◌, ◌≢◌, ◌≤◌, ◌^◌, IfErr, IfOk, length};
ghost use Rattle.sexp_text.specs.declared.trees.SexpFault.{SexpFault};
ghost use Rattle.sexp_text.specs.Trees.{AreTrees, IsTextFault};
ghost use Rattle.pddl_terms.specs.declared.files.Domain.{Domain};
ghost use Rattle.pddl_terms.specs.declared.files.Problem.{Problem};
ghost use Rattle.pddl_terms.specs.Readable.{IsReadableDomain, IsReadableProblem};
ghost use Rattle.pddl_trees.specs.Domains.{domain_in};
ghost use Rattle.pddl_trees.specs.Problems.{problem_in};
ghost use Rattle.pddl_reader.specs.declared.faults.ReadFault.TheVariants as answer;
ghost use Rattle.pddl_reader.specs.Answers.{IsReadAnswer};

use crate::answers::answer_of;
use crate::domains::domain;
use crate::faults::ReadFault;
use crate::problems::problem;
use pddl_terms::{Domain, Problem};
use pddl_trees::notes::Notes;
use sexp_text::{SexpFault, Tree, read_trees};
use std::alloc::Global;

fn trees_of(alloc: Global, bytes: &[u8]) -> Result<Vec<Tree>, ReadFault>
    requires { length bytes.now ≤ 2 ^ 30 }
    ensures trees { IfOk result (λ trees. AreTrees bytes.now trees.items) }
    ensures fault { IfErr result (λ fault. fault ≢ answer.NoMemory → (syntax : SexpFault) × (fault ≡ answer.Syntax syntax) × IsTextFault bytes.now syntax) }
{
    match read_trees(alloc, bytes) {
        Ok(trees) => Ok(trees),
        Err(SexpFault::NoMemory) => Err(ReadFault::NoMemory),
        Err(fault) => Err(ReadFault::Syntax(fault)),
    }
}

/// The data of a text that spells a domain. Any other text, of at most 2^30 bytes, is answered by its first fault: that
/// of its brackets and bytes where it has no trees, and else the first in the order of the text. Without memory for the
/// data the error says so, and nothing of the text.
pub fn read_domain(alloc: Global, bytes: &[u8]) -> Result<Domain, ReadFault>
    requires { length bytes.now ≤ 2 ^ 30 }
    ensures answer { IsReadAnswer Domain domain_in bytes.now result }
    ensures readable { IfOk result IsReadableDomain }
{
    let trees = trees_of(alloc, bytes)?;
    let mut notes = Notes::new();
    let domain = domain(alloc, bytes, &trees, &mut notes)?;
    if let Some(fault) = notes.first {
        return Err(answer_of(alloc, bytes, fault)?);
    }
    match domain {
        Some(domain) => Ok(domain),
        None => unreachable!(),
    }
}

/// The data of a text that spells a problem. Any other text, of at most 2^30 bytes, is answered by its first fault, as for
/// a domain.
pub fn read_problem(alloc: Global, bytes: &[u8]) -> Result<Problem, ReadFault>
    requires { length bytes.now ≤ 2 ^ 30 }
    ensures answer { IsReadAnswer Problem problem_in bytes.now result }
    ensures readable { IfOk result IsReadableProblem }
{
    let trees = trees_of(alloc, bytes)?;
    let mut notes = Notes::new();
    let problem = problem(alloc, bytes, &trees, &mut notes)?;
    if let Some(fault) = notes.first {
        return Err(answer_of(alloc, bytes, fault)?);
    }
    match problem {
        Some(problem) => Ok(problem),
        None => unreachable!(),
    }
}
