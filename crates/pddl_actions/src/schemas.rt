//! The actions of a domain.

ghost use Rattle.std.specs.Prelude.{◌≡◌, IfOk, None, OnOk};
ghost use Rattle.pddl_trees.specs.Faults.{all_noted};
ghost use Rattle.pddl_actions.specs.internal.ActionLists.{action_faults, action_value, all_actions};
ghost use Rattle.pddl_trees.specs.Actions.{schemas_in};

use crate::actions::schema;
use num_ends::{List, NoMemory};
use pddl_declarations::gather::push_some;
use pddl_declarations::sections::content_of;
use pddl_terms::Schema;
use pddl_trees::forms::position;
use pddl_trees::names::is_headed;
use pddl_trees::notes::Notes;
use sexp_text::Tree;
use std::alloc::Global;

// A section as an action, where it is one.
fn action(
    alloc: Global,
    text: &[u8],
    section: &Tree,
    notes: &mut Notes,
) -> Result<Option<Schema>, NoMemory>
    ensures faults { OnOk result (notes.new.first ≡ all_noted notes.old.first (action_faults text.now section.now)) }
    ensures value { IfOk result (λ schema. notes.new.first ≡ None → schema ≡ action_value text.now section.now) }
{
    if !is_headed(text, section, b":action") {
        return Ok(None);
    }
    schema(alloc, text, position(section), content_of(section), notes)
}

fn actions(
    alloc: Global,
    text: &[u8],
    sections: &[Tree],
    notes: &mut Notes,
) -> Result<List<Schema>, NoMemory>
    ensures faults { OnOk result (notes.new.first ≡ all_noted notes.old.first (all_actions text.now sections.now).faults) }
    ensures items { IfOk result (λ schemas. notes.new.first ≡ None → schemas ≡ (all_actions text.now sections.now).items) }
{
    let mut schemas = Vec::new(alloc);
    'each: for section in sections {
        let schema = action(alloc, text, section, notes)?;
        push_some(&mut schemas, schema)?;
    }
    Ok(List::from_vec(schemas))
}

/// The actions among the sections of a domain, in order.
#[tactic(auto, using(crate::proofs::ActionLists::actions_are_schemas))]
pub fn schemas(
    alloc: Global,
    text: &[u8],
    sections: &[Tree],
    notes: &mut Notes,
) -> Result<List<Schema>, NoMemory>
    ensures faults { OnOk result (notes.new.first ≡ all_noted notes.old.first (schemas_in text.now sections.now).faults) }
    ensures items { IfOk result (λ schemas. notes.new.first ≡ None → schemas ≡ (schemas_in text.now sections.now).items) }
{
    actions(alloc, text, sections, notes)
}
