//! The check of a domain and a problem.

ghost use Rattle.std.specs.Prelude.{◌≡◌, ◌≢◌, [], IfErr, IfOk, OnOk};
ghost use Rattle.pddl_terms.specs.Readable.{IsReadable};
ghost use Rattle.name_table.specs.TypedLists.{names_of};
ghost use Rattle.pddl_types.specs.declared.faults.CheckFault.TheVariants as fault_of;
ghost use Rattle.pddl_types.specs.WellFormed.{WellFormed};
ghost use Rattle.pddl_types.specs.Answers.{IsFirstFault};
ghost use Rattle.pddl_types.specs.Faults.{earliest_fault};
ghost use Rattle.pddl_types.specs.DeclarationFaults.{declaration_faults, with_names};
ghost use Rattle.pddl_types.specs.Checks.{faults_of, initial_faults, problem_faults, schemas_faults};
ghost use Rattle.pddl_types.specs.internal.Notes.{Noted};

use crate::atoms::Scope;
use crate::checked::Checked;
use crate::conditions::note_condition;
use crate::declarations::{
    note_heads, note_repeated, note_schemas, note_signatures, note_typed, note_types,
};
use crate::entries::{note_facts, note_fluents, note_repeated_values};
use crate::faults::{CheckFault, Fault, Side};
use crate::first::Notes;
use crate::lists::schema_names;
use crate::named::Named;
use name_table::NameSet;
use num_ends::NoMemory;
use pddl_terms::{Domain, Problem};
use std::alloc::Global;

// Notes the faults of what a domain declares but for its actions, and adds the names of the constants to those seen.
#[tactic(auto, using(crate::proofs::Noted::noted_append), unfolding(crate::specs::DeclarationFaults::declaration_faults))]
fn note_declarations<'a>(
    alloc: Global,
    named: &'a Named,
    seen: &mut NameSet<'a>,
    notes: &mut Notes,
) -> Result<(), NoMemory>
    requires { seen.old ≡ [] }
    ensures faults { OnOk result (Noted notes.old notes.new (declaration_faults named.now.domain)) }
    ensures constants { OnOk result (seen.new ≡ with_names [] (names_of named.now.domain.constants)) }
{
    let domain = named.domain();
    note_types(alloc, named, notes)?;
    note_typed(
        alloc,
        named,
        Side::Domain,
        domain.constants.as_slice(),
        seen,
        notes,
    )?;
    note_heads(alloc, named, notes)?;
    note_signatures(alloc, named, domain.predicates.as_slice(), notes)?;
    note_signatures(alloc, named, domain.functions.as_slice(), notes)
}

#[tactic(auto, using(crate::proofs::Noted::noted_append), unfolding(crate::specs::Checks::schemas_faults))]
fn note_all_schemas(alloc: Global, named: &Named, notes: &mut Notes) -> Result<(), NoMemory>
    ensures { OnOk result (Noted notes.old notes.new (schemas_faults named.now)) }
{
    let schemas = named.domain().schemas.as_slice();
    let names = schema_names(alloc, schemas)?;
    let mut seen = NameSet::new(alloc);
    note_repeated(alloc, Side::Domain, names.as_slice(), &mut seen, notes)?;
    note_schemas(alloc, named, schemas, notes)
}

#[tactic(auto, using(crate::proofs::Noted::noted_append), unfolding(crate::specs::Checks::initial_faults))]
fn note_initial(alloc: Global, named: &Named, notes: &mut Notes) -> Result<(), NoMemory>
    ensures { OnOk result (Noted notes.old notes.new (initial_faults named.now)) }
{
    let problem = named.problem();
    let scope = Scope {
        named,
        side: Side::Problem,
        params: &[],
    };
    note_facts(alloc, &scope, problem.facts.as_slice(), notes)?;
    note_fluents(alloc, &scope, problem.values.as_slice(), notes)?;
    note_repeated_values(alloc, problem.values.as_slice(), notes)
}

// Notes the faults of the problem, where the names of the constants were seen.
#[tactic(auto, using(crate::proofs::Noted::noted_append), unfolding(crate::specs::Checks::problem_faults))]
fn note_problem<'a>(
    alloc: Global,
    named: &'a Named,
    seen: &mut NameSet<'a>,
    notes: &mut Notes,
) -> Result<(), NoMemory>
    requires { seen.old ≡ with_names [] (names_of named.now.domain.constants) }
    ensures { OnOk result (Noted notes.old notes.new (problem_faults named.now)) }
{
    let problem = named.problem();
    let scope = Scope {
        named,
        side: Side::Problem,
        params: &[],
    };
    note_typed(
        alloc,
        named,
        Side::Problem,
        problem.objects.as_slice(),
        seen,
        notes,
    )?;
    note_initial(alloc, named, notes)?;
    note_condition(alloc, &scope, &problem.goal, notes)
}

#[tactic(auto, using(crate::proofs::Noted::noted_append), unfolding(crate::specs::Checks::faults_of))]
fn note_pair(alloc: Global, named: &Named, notes: &mut Notes) -> Result<(), NoMemory>
    ensures { OnOk result (Noted notes.old notes.new (faults_of named.now)) }
{
    let mut seen = NameSet::new(alloc);
    note_declarations(alloc, named, &mut seen, notes)?;
    note_all_schemas(alloc, named, notes)?;
    note_problem(alloc, named, &mut seen, notes)
}

fn first_of(alloc: Global, named: &Named) -> Result<Option<Fault>, NoMemory>
    ensures { IfOk result (λ first. first ≡ earliest_fault (faults_of named.now)) }
{
    let mut notes = Notes::new();
    note_pair(alloc, named, &mut notes)?;
    Ok(notes.first)
}

// The pair where it has no fault, and else its first.
fn answer(named: Named, first: Option<Fault>) -> Result<Checked, CheckFault>
    requires noted { first ≡ earliest_fault (faults_of named) }
    requires readable { IsReadable named.domain named.problem }
    ensures pair { IfOk result (λ checked. checked ≡ named) }
    ensures well_formed { IfOk result WellFormed }
    ensures fault { IfErr result (λ fault. fault ≢ fault_of.NoMemory → IsFirstFault named fault) }
    ensures refused { IfErr result (λ fault. WellFormed named → fault ≡ fault_of.NoMemory) }
{
    match first {
        None => Ok(Checked::new(named)),
        Some(fault) => {
            named.discard();
            Err(CheckFault::At(fault.side, fault.kind, fault.name))
        }
    }
}

/// Checks the names, types and arities of a domain and a problem that are as texts spell them. Gives the well-formed pair,
/// or the first fault: those of the domain come before those of the problem, and in a file the one at the smallest position
/// is the first.
pub fn check(alloc: Global, domain: Domain, problem: Problem) -> Result<Checked, CheckFault>
    requires { IsReadable domain problem }
    ensures pair { IfOk result (λ checked. checked ≡ record { domain = domain; problem = problem }) }
    ensures well_formed { IfOk result WellFormed }
    ensures fault { IfErr result (λ fault. fault ≢ fault_of.NoMemory → IsFirstFault (record { domain = domain; problem = problem }) fault) }
    ensures refused { IfErr result (λ fault. WellFormed (record { domain = domain; problem = problem }) → fault ≡ fault_of.NoMemory) }
{
    let named = Named::new(alloc, domain, problem)?;
    match first_of(alloc, &named) {
        Ok(first) => answer(named, first),
        Err(_) => {
            named.discard();
            Err(CheckFault::NoMemory)
        }
    }
}
