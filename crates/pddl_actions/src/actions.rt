//! Actions.

ghost use Rattle.std.specs.Prelude.{◌≡◌, [], ◌∷◌, None, IfOk, OnOk};
ghost use Rattle.std.specs.Option.{option_copied, option_map_or};
ghost use Rattle.pddl_terms.specs.declared.limits.What.TheVariants.{Effects};
ghost use Rattle.pddl_trees.specs.declared.faults.Reason.TheVariants.{TooMany};
ghost use Rattle.pddl_trees.specs.Faults.{all_noted, fault_at};
ghost use Rattle.pddl_trees.specs.Forms.{both};
ghost use Rattle.pddl_trees.specs.Trees.{form_of};
ghost use Rattle.pddl_trees.specs.Actions.{effect_list, effects_in, parameters_of, precondition_of, schema_parts};

use crate::clauses::action_parts;
use crate::effects::tree_effects;
use num_ends::{List, NoMemory};
use pddl_declarations::kinds::Kind;
use pddl_declarations::typed::typed_list;
use pddl_expressions::fine::fine_condition;
use pddl_terms::{Cond, Effect, Name, Schema, Typed, What};
use pddl_trees::faults::Reason;
use pddl_trees::forms::position;
use pddl_trees::names::{name_of, parts_of};
use pddl_trees::notes::Notes;
use sexp_text::Tree;
use sqlite_items::Items;
use std::alloc::Global;

fn parameters_of(
    alloc: Global,
    text: &[u8],
    tree: Option<&Tree>,
    notes: &mut Notes,
) -> Result<List<Typed>, NoMemory>
    ensures faults { OnOk result (notes.new.first ≡ all_noted notes.old.first (parameters_of text.now (option_copied tree.entry)).faults) }
    ensures items { IfOk result (λ typed. notes.new.first ≡ None → typed ≡ (parameters_of text.now (option_copied tree.entry)).items) }
{
    let Some(tree) = tree else {
        return Ok(List::new(alloc));
    };
    match parts_of(tree) {
        Some(trees) => typed_list(alloc, text, Kind::Parameters, position(tree), trees, notes),
        None => {
            notes.note(position(tree), Reason::Shape);
            Ok(List::new(alloc))
        }
    }
}

fn precondition_of(
    alloc: Global,
    text: &[u8],
    tree: Option<&Tree>,
    notes: &mut Notes,
) -> Result<Option<Cond>, NoMemory>
    ensures faults { OnOk result (notes.new.first ≡ all_noted notes.old.first (precondition_of text.now (option_copied tree.entry)).faults) }
    ensures value { IfOk result (λ cond. notes.new.first ≡ None → cond ≡ (precondition_of text.now (option_copied tree.entry)).value) }
{
    let Some(tree) = tree else {
        return Ok(Some(Cond::And(Items::new(alloc))));
    };
    fine_condition(alloc, text, tree, notes)
}

// Notes one effect more than an action may have.
fn note_past(past: Option<u32>, notes: &mut Notes)
    ensures { notes.new.first ≡ all_noted notes.old.first (option_map_or (λ at. fault_at at (TooMany Effects) ∷ []) past []) }
{
    if let Some(at) = past {
        notes.note(at, Reason::TooMany(What::Effects));
    }
}

fn effects_of(
    alloc: Global,
    text: &[u8],
    tree: &Tree,
    notes: &mut Notes,
) -> Result<List<Effect>, NoMemory>
    ensures faults { OnOk result (notes.new.first ≡ all_noted notes.old.first (effect_list (form_of text.now tree.now).effects).faults) }
    ensures items { IfOk result (λ effects. notes.new.first ≡ None → effects ≡ (effect_list (form_of text.now tree.now).effects).items) }
{
    let gathered = tree_effects(alloc, text, tree, notes)?;
    note_past(gathered.past, notes);
    Ok(gathered.kept)
}

fn effects_in(
    alloc: Global,
    text: &[u8],
    tree: Option<&Tree>,
    notes: &mut Notes,
) -> Result<List<Effect>, NoMemory>
    ensures faults { OnOk result (notes.new.first ≡ all_noted notes.old.first (effects_in text.now (option_copied tree.entry)).faults) }
    ensures items { IfOk result (λ effects. notes.new.first ≡ None → effects ≡ (effects_in text.now (option_copied tree.entry)).items) }
{
    match tree {
        Some(tree) => effects_of(alloc, text, tree, notes),
        None => Ok(List::new(alloc)),
    }
}

// The action of these parts, where it has a name and a precondition.
fn made(
    name: Option<Name>,
    params: List<Typed>,
    pre: Option<Cond>,
    effects: List<Effect>,
) -> Option<Schema>
    ensures { result ≡ both (λ n c. record { name = n; params = params; pre = c; effects = effects }) name pre }
{
    match (name, pre) {
        (Some(name), Some(pre)) => Some(Schema {
            name,
            params,
            pre,
            effects,
        }),
        _ => None,
    }
}

fn schema_of(
    alloc: Global,
    text: &[u8],
    at: u32,
    head: &Tree,
    trees: &[Tree],
    notes: &mut Notes,
) -> Result<Option<Schema>, NoMemory>
    ensures faults { OnOk result (notes.new.first ≡ all_noted notes.old.first (schema_parts text.now at (head.now ∷ trees.now)).faults) }
    ensures value { IfOk result (λ schema. notes.new.first ≡ None → schema ≡ (schema_parts text.now at (head.now ∷ trees.now)).value) }
{
    let name = name_of(alloc, text, head, notes)?;
    let parts = action_parts(text, at, trees, notes);
    let params = parameters_of(alloc, text, parts.parameters, notes)?;
    let pre = precondition_of(alloc, text, parts.precondition, notes)?;
    let effects = effects_in(alloc, text, parts.effect, notes)?;
    Ok(made(name, params, pre, effects))
}

/// An action at a position from its trees behind the word, where no fault is noted; what doesn't fit is noted.
pub(crate) fn schema(
    alloc: Global,
    text: &[u8],
    at: u32,
    trees: &[Tree],
    notes: &mut Notes,
) -> Result<Option<Schema>, NoMemory>
    ensures faults { OnOk result (notes.new.first ≡ all_noted notes.old.first (schema_parts text.now at trees.now).faults) }
    ensures value { IfOk result (λ schema. notes.new.first ≡ None → schema ≡ (schema_parts text.now at trees.now).value) }
{
    match trees {
        [] => {
            notes.note(at, Reason::Shape);
            Ok(None)
        }
        [head, trees @ ..] => schema_of(alloc, text, at, head, trees, notes),
    }
}
