//! Two texts as a checked pair.

ghost use Rattle.std.specs.Prelude.{◌≡◌, ◌≤◌, ◌^◌, ℕ, List, IfErr, IfOk, length};
ghost use Rattle.pddl_terms.specs.declared.files.Domain.{Domain};
ghost use Rattle.pddl_terms.specs.Readable.{IsReadableDomain, IsReadableProblem};
ghost use Rattle.pddl_grammar.specs.Domains.{SpellsDomain};
ghost use Rattle.pddl_grammar.specs.Problems.{SpellsProblem};
ghost use Rattle.pair_text.specs.Reasons.{IsAcceptedPair, IsPairFault};

use crate::reasons::{pair_fault, reading_fault};
use crate::refusals::{PairFault, Source};
use pddl_reader::{read_domain, read_problem};
use pddl_terms::{Domain, Problem};
use pddl_types::{CheckFault, Checked, check};
use std::alloc::Global;

fn domain_of(alloc: Global, text: &[u8]) -> Result<Domain, PairFault>
    requires { length text.now ≤ 2 ^ 30 }
    ensures spelled { IfOk result (SpellsDomain text.now) }
    ensures readable { IfOk result IsReadableDomain }
    ensures fault { IfErr result (λ fault. (problem : List ℕ) → IsPairFault text.now problem fault) }
{
    match read_domain(alloc, text) {
        Ok(domain) => Ok(domain),
        Err(fault) => Err(reading_fault(Source::Domain, text, fault)),
    }
}

fn problem_of(alloc: Global, text: &[u8]) -> Result<Problem, PairFault>
    requires { length text.now ≤ 2 ^ 30 }
    ensures spelled { IfOk result (SpellsProblem text.now) }
    ensures readable { IfOk result IsReadableProblem }
    ensures fault { IfErr result (λ fault. (domain : List ℕ) (spelled : Domain) → SpellsDomain domain spelled → IsPairFault domain text.now fault) }
{
    match read_problem(alloc, text) {
        Ok(problem) => Ok(problem),
        Err(fault) => Err(reading_fault(Source::Problem, text, fault)),
    }
}

// The pair of a domain and a problem that two texts spell.
fn pair_of(
    alloc: Global,
    domain_text: &[u8],
    problem_text: &[u8],
    domain: Domain,
    problem: Problem,
) -> Result<Checked, PairFault>
    requires domain_size { length domain_text.now ≤ 2 ^ 30 }
    requires problem_size { length problem_text.now ≤ 2 ^ 30 }
    requires domain_spelled { SpellsDomain domain_text.now domain }
    requires problem_spelled { SpellsProblem problem_text.now problem }
    requires domain_readable { IsReadableDomain domain }
    requires problem_readable { IsReadableProblem problem }
    ensures accepted { IfOk result (IsAcceptedPair domain_text.now problem_text.now) }
    ensures fault { IfErr result (IsPairFault domain_text.now problem_text.now) }
{
    match check(alloc, domain, problem) {
        Ok(checked) => Ok(checked),
        Err(CheckFault::At(side, kind, name)) => {
            Err(pair_fault(domain_text, problem_text, side, kind, name))
        }
        Err(CheckFault::NoMemory) => Err(PairFault::NoMemory),
    }
}

// Lets a domain go.
fn discard(_domain: Domain) {}

/// The checked pair of a domain's text and a problem's, of at most 2^30 bytes each: exactly where they spell a domain and a
/// problem that are well formed together. Other texts are answered by the first reason against them: one of the domain's text
/// comes before one of the problem's text, and both before one of the pair.
pub fn read_pair(alloc: Global, domain: &[u8], problem: &[u8]) -> Result<Checked, PairFault>
    requires domain_size { length domain.now ≤ 2 ^ 30 }
    requires problem_size { length problem.now ≤ 2 ^ 30 }
    ensures accepted { IfOk result (IsAcceptedPair domain.now problem.now) }
    ensures fault { IfErr result (IsPairFault domain.now problem.now) }
{
    let domain_read = match domain_of(alloc, domain) {
        Ok(domain_read) => domain_read,
        Err(fault) => return Err(fault),
    };
    match problem_of(alloc, problem) {
        Ok(problem_read) => pair_of(alloc, domain, problem, domain_read, problem_read),
        Err(fault) => {
            discard(domain_read);
            Err(fault)
        }
    }
}
