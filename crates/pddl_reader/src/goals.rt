//! The goal and the metric of a problem.

ghost use Rattle.std.specs.Prelude.{◌≡◌, [], ◌∷◌, None, flat_map, take, if◌then◌else◌, IfOk, OnOk};
ghost use Rattle.pddl_trees.specs.Faults.{all_noted};
ghost use Rattle.pddl_trees.specs.Trees.{form_of, forms_of};
ghost use Rattle.pddl_trees.specs.Forms.{shape_at};
ghost use Rattle.pddl_trees.specs.Goals.{goal_of, is_direction, metric_faults};

use num_ends::NoMemory;
use pddl_expressions::fine::fine_condition;
use pddl_terms::Cond;
use pddl_trees::faults::Reason;
use pddl_trees::forms::{note_count, note_extra, position};
use pddl_trees::names::is_leaf;
use pddl_trees::notes::Notes;
use sexp_text::Tree;
use std::alloc::Global;

/// The one condition of a list at a position, where no fault is noted; what doesn't fit is noted.
#[tactic(auto, using(pddl_trees::proofs::Noted::noted_append, pddl_trees::proofs::Quiet::quiet_behind))]
pub(crate) fn goal(
    alloc: Global,
    text: &[u8],
    at: u32,
    trees: &[Tree],
    notes: &mut Notes,
) -> Result<Option<Cond>, NoMemory>
    ensures faults { OnOk result (notes.new.first ≡ all_noted notes.old.first (goal_of at (forms_of text.now trees.now)).faults) }
    ensures value { IfOk result (λ cond. notes.new.first ≡ None → cond ≡ (goal_of at (forms_of text.now trees.now)).value) }
{
    match trees {
        [] => {
            notes.note(at, Reason::Shape);
            Ok(None)
        }
        [first, ..] => {
            let cond = fine_condition(alloc, text, first, notes)?;
            note_extra(1, trees, notes);
            Ok(cond)
        }
    }
}

// Notes a tree that is neither `minimize` nor `maximize`.
fn note_direction(text: &[u8], tree: &Tree, notes: &mut Notes)
    ensures { notes.new.first ≡ all_noted notes.old.first (if is_direction (form_of text.now tree.now) then [] else shape_at (form_of text.now tree.now).at ∷ []) }
{
    if !is_leaf(text, tree, b"minimize") && !is_leaf(text, tree, b"maximize") {
        notes.note(position(tree), Reason::Shape);
    }
}

/// Notes what doesn't fit in a metric at a position, whose second tree isn't looked at.
#[tactic(auto, using(pddl_trees::proofs::Noted::noted_append))]
pub(crate) fn note_metric(text: &[u8], at: u32, trees: &[Tree], notes: &mut Notes)
    ensures { notes.new.first ≡ all_noted notes.old.first (metric_faults at (forms_of text.now trees.now)) }
{
    match trees {
        [] => notes.note(at, Reason::Shape),
        [first, ..] => {
            note_direction(text, first, notes);
            note_count(at, 2, trees, notes);
        }
    }
}
