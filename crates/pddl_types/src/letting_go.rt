//! Letting a pair and its tables go, part by part.

use name_table::NameTable;
use num_ends::{Dec, List};
use pddl_terms::{Atom, Cond, Domain, Name, Problem, Schema, Sig, Typed};

fn discard_name(_name: Name) {}

fn discard_typed(_items: List<Typed>) {}

fn discard_signatures(_sigs: List<Sig>) {}

fn discard_schemas(_schemas: List<Schema>) {}

fn discard_facts(_facts: List<Atom>) {}

fn discard_values(_values: List<(Atom, Dec)>) {}

fn discard_condition(_condition: Cond) {}

/// Lets a table go.
pub(crate) fn discard_table(_table: NameTable) {}

/// Lets a domain go.
pub(crate) fn discard_domain(domain: Domain) {
    let Domain {
        name,
        types,
        constants,
        predicates,
        functions,
        schemas,
    } = domain;
    discard_name(name);
    discard_typed(types);
    discard_typed(constants);
    discard_signatures(predicates);
    discard_signatures(functions);
    discard_schemas(schemas);
}

/// Lets a problem go.
pub(crate) fn discard_problem(problem: Problem) {
    let Problem {
        name,
        objects,
        facts,
        values,
        goal,
    } = problem;
    discard_name(name);
    discard_typed(objects);
    discard_facts(facts);
    discard_values(values);
    discard_condition(goal);
}
