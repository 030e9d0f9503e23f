//! Conditions where they fit and aren't too high.

ghost use Rattle.std.specs.Prelude.{◌≡◌, None, IfOk, OnOk};
ghost use Rattle.pddl_trees.specs.Faults.{all_noted};
ghost use Rattle.pddl_expressions.specs.internal.Fine.{fine_of};
ghost use Rattle.pddl_trees.specs.Trees.{form_of};

use crate::conditions::condition;
use crate::found::Found;
use num_ends::NoMemory;
use pddl_terms::Cond;
use pddl_trees::notes::Notes;
use sexp_text::Tree;
use std::alloc::Global;

// What is found where it fits and isn't too high.
fn fine<T: Drop>(found: Found<T>) -> Option<T>
    ensures { result ≡ fine_of found }
{
    match found {
        Found::Fine(said, _) => Some(said),
        Found::Misfit | Found::TooHigh => None,
    }
}

/// A tree as a condition, where no fault is noted; what doesn't fit or is too high is noted.
pub fn fine_condition(
    alloc: Global,
    text: &[u8],
    tree: &Tree,
    notes: &mut Notes,
) -> Result<Option<Cond>, NoMemory>
    ensures faults { OnOk result (notes.new.first ≡ all_noted notes.old.first (form_of text.now tree.now).cond.faults) }
    ensures value { IfOk result (λ cond. notes.new.first ≡ None → cond ≡ (form_of text.now tree.now).cond.value) }
{
    let found = condition(alloc, text, tree, notes)?;
    Ok(fine(found))
}
