//! The sections of a domain read as data.

ghost use Rattle.std.specs.Prelude.{◌≡◌, ◌++◌, IfOk, None, OnOk, option_map};
ghost use Rattle.pddl_trees.specs.Faults.{all_noted};
ghost use Rattle.pddl_trees.specs.Trees.{forms_of};
ghost use Rattle.pddl_reader.specs.internal.DomainParts.{domain_of_parts};
ghost use Rattle.pddl_trees.specs.Sections.{domain_sections, repeated_sections, objects_in, requirements_faults, sections_of, word_and_repeat_faults};
ghost use Rattle.pddl_trees.specs.Leaves.{all_leaves};
ghost use Rattle.pddl_trees.specs.Domains.{domain_in, domain_tree, functions_in, predicates_in, types_in};
ghost use Rattle.pddl_trees.specs.Frames.{further_trees};
ghost use Rattle.pddl_trees.specs.Actions.{schemas_in};

use crate::frames::frame;
use num_ends::{List, NoMemory};
use pddl_actions::schemas::schemas;
use pddl_declarations::declarations::{note_requirements, predicates_list};
use pddl_declarations::functions::functions_list;
use pddl_declarations::kinds::Kind;
use pddl_declarations::sections::{Side, named, note_repeats};
use pddl_declarations::typed::typed_list;
use pddl_declarations::types::types_list;
use pddl_terms::{Domain, Name, Schema, Sig, Typed};
use pddl_trees::faults::Reason;
use pddl_trees::forms::{note_extra, position};
use pddl_trees::leaves::note_all_leaves;
use pddl_trees::names::parts_of;
use pddl_trees::notes::Notes;
use sexp_text::Tree;
use std::alloc::Global;

#[tactic(auto, using(pddl_trees::proofs::Noted::noted_append))]
fn note_domain_repeats(text: &[u8], sections: &[Tree], notes: &mut Notes)
    ensures { notes.new.first ≡ all_noted notes.old.first (repeated_sections text.now domain_sections sections.now) }
{
    note_repeats(text, sections, b":requirements", notes);
    note_repeats(text, sections, b":types", notes);
    note_repeats(text, sections, b":constants", notes);
    note_repeats(text, sections, b":predicates", notes);
    note_repeats(text, sections, b":functions", notes);
}

// What is no section of a domain, or stands a second time, and the requirements.
#[tactic(auto, using(pddl_trees::proofs::Noted::noted_append))]
fn note_domain_sections(text: &[u8], sections: &[Tree], notes: &mut Notes)
    ensures { notes.new.first ≡ all_noted notes.old.first (word_and_repeat_faults text.now domain_sections sections.now) }
{
    Side::Domain.note_sections(text, sections, notes);
    note_domain_repeats(text, sections, notes);
}

/// The requirements of the section of this name.
pub(crate) fn note_required(text: &[u8], sections: &[Tree], notes: &mut Notes)
    ensures { notes.new.first ≡ all_noted notes.old.first (requirements_faults text.now sections.now) }
{
    let (_, keys) = named(text, sections, b":requirements");
    note_requirements(text, keys, notes);
}

fn types(
    alloc: Global,
    text: &[u8],
    sections: &[Tree],
    notes: &mut Notes,
) -> Result<List<Typed>, NoMemory>
    ensures faults { OnOk result (notes.new.first ≡ all_noted notes.old.first (types_in text.now sections.now).faults) }
    ensures items { IfOk result (λ types. notes.new.first ≡ None → types ≡ (types_in text.now sections.now).items) }
{
    let (at, content) = named(text, sections, b":types");
    types_list(alloc, text, at, content, notes)
}

/// The constants or objects of the section of this name.
pub(crate) fn objects(
    alloc: Global,
    text: &[u8],
    word: &[u8],
    sections: &[Tree],
    notes: &mut Notes,
) -> Result<List<Typed>, NoMemory>
    ensures faults { OnOk result (notes.new.first ≡ all_noted notes.old.first (objects_in text.now word.now sections.now).faults) }
    ensures items { IfOk result (λ objects. notes.new.first ≡ None → objects ≡ (objects_in text.now word.now sections.now).items) }
{
    let (at, content) = named(text, sections, word);
    typed_list(alloc, text, Kind::Objects, at, content, notes)
}

fn predicates(
    alloc: Global,
    text: &[u8],
    sections: &[Tree],
    notes: &mut Notes,
) -> Result<List<Sig>, NoMemory>
    ensures faults { OnOk result (notes.new.first ≡ all_noted notes.old.first (predicates_in text.now sections.now).faults) }
    ensures items { IfOk result (λ sigs. notes.new.first ≡ None → sigs ≡ (predicates_in text.now sections.now).items) }
{
    let (_, content) = named(text, sections, b":predicates");
    predicates_list(alloc, text, content, notes)
}

fn functions(
    alloc: Global,
    text: &[u8],
    sections: &[Tree],
    notes: &mut Notes,
) -> Result<List<Sig>, NoMemory>
    ensures faults { OnOk result (notes.new.first ≡ all_noted notes.old.first (functions_in text.now sections.now).faults) }
    ensures items { IfOk result (λ sigs. notes.new.first ≡ None → sigs ≡ (functions_in text.now sections.now).items) }
{
    let (at, content) = named(text, sections, b":functions");
    functions_list(alloc, text, at, content, notes)
}

fn with_parts(
    name: Option<Name>,
    types: List<Typed>,
    constants: List<Typed>,
    predicates: List<Sig>,
    functions: List<Sig>,
    schemas: List<Schema>,
) -> Option<Domain>
    ensures { result ≡ option_map (λ n. record { name = n; types = types; constants = constants; predicates = predicates; functions = functions; schemas = schemas }) name }
{
    let name = name?;
    Some(Domain {
        name,
        types,
        constants,
        predicates,
        functions,
        schemas,
    })
}

/// What stands behind the frame of a text.
pub(crate) fn behind_frame(parts: &[Tree]) -> &[Tree]
    ensures { result.now ≡ sections_of parts.now }
{
    &parts[parts.len().min(2)..]
}

// The parts of `(define (domain NAME) section ..)`, a list at this position.
fn domain_parts(
    alloc: Global,
    text: &[u8],
    at: u32,
    parts: &[Tree],
    notes: &mut Notes,
) -> Result<Option<Domain>, NoMemory>
    ensures faults { OnOk result (notes.new.first ≡ all_noted notes.old.first (domain_of_parts text.now at parts.now).faults) }
    ensures value { IfOk result (λ domain. notes.new.first ≡ None → domain ≡ (domain_of_parts text.now at parts.now).value) }
{
    let name = frame(alloc, text, b"domain", at, parts, notes)?;
    let sections = behind_frame(parts);
    note_domain_sections(text, sections, notes);
    note_required(text, sections, notes);
    let types = types(alloc, text, sections, notes)?;
    let constants = objects(alloc, text, b":constants", sections, notes)?;
    let predicates = predicates(alloc, text, sections, notes)?;
    let functions = functions(alloc, text, sections, notes)?;
    let schemas = schemas(alloc, text, sections, notes)?;
    Ok(with_parts(name, types, constants, predicates, functions, schemas))
}

fn domain_tree(
    alloc: Global,
    text: &[u8],
    tree: &Tree,
    notes: &mut Notes,
) -> Result<Option<Domain>, NoMemory>
    ensures faults { OnOk result (notes.new.first ≡ all_noted notes.old.first (domain_tree text.now tree.now).faults) }
    ensures value { IfOk result (λ domain. notes.new.first ≡ None → domain ≡ (domain_tree text.now tree.now).value) }
{
    match parts_of(tree) {
        None => {
            notes.note(position(tree), Reason::Shape);
            Ok(None)
        }
        Some(parts) => domain_parts(alloc, text, position(tree), parts, notes),
    }
}

// The first tree of a text as a domain; all its trees are these.
#[tactic(auto, using(pddl_trees::proofs::Walks::noted_after))]
fn first_tree(
    alloc: Global,
    text: &[u8],
    tree: &Tree,
    trees: &[Tree],
    notes: &mut Notes,
) -> Result<Option<Domain>, NoMemory>
    ensures faults { OnOk result (notes.new.first ≡ all_noted notes.old.first (all_leaves text.now trees.now ++ further_trees text.now trees.now ++ (domain_tree text.now tree.now).faults)) }
    ensures value { IfOk result (λ domain. notes.new.first ≡ None → domain ≡ (domain_tree text.now tree.now).value) }
{
    note_all_leaves(text, trees, notes);
    note_extra(1, trees, notes);
    let domain = domain_tree(alloc, text, tree, notes)?;
    Ok(domain)
}

/// What the trees of a text say as a domain.
pub(crate) fn domain(
    alloc: Global,
    text: &[u8],
    trees: &[Tree],
    notes: &mut Notes,
) -> Result<Option<Domain>, NoMemory>
    ensures faults { OnOk result (notes.new.first ≡ all_noted notes.old.first (domain_in text.now trees.now).faults) }
    ensures value { IfOk result (λ domain. notes.new.first ≡ None → domain ≡ (domain_in text.now trees.now).value) }
{
    match trees {
        [] => {
            notes.note(0, Reason::Shape);
            Ok(None)
        }
        [tree, ..] => first_tree(alloc, text, tree, trees, notes),
    }
}
