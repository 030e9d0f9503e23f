//! What is found where an expression or a condition must stand.

ghost use Rattle.std.specs.Prelude.{◌≡◌};
ghost use Rattle.pddl_trees.specs.Faults.{all_noted};
ghost use Rattle.pddl_expressions.specs.internal.CutSteps.{height_faults, paired};

use pddl_trees::faults::Reason;
use pddl_trees::notes::Notes;

/// A tree that doesn't fit, one that says something that is too high, or what it says, with its height.
#[derive(Debug, Drop)]
pub enum Found<T> {
    /// The tree or a part of it doesn't fit.
    Misfit,
    /// What it says is too high, and isn't built.
    TooHigh,
    /// What it says, and its height.
    Fine(T, u32),
}

/// Two parts, with the height of the higher one.
pub fn paired<T: Drop>(left: Found<T>, right: Found<T>) -> Found<(T, T)>
    ensures { result ≡ paired left right }
{
    match (left, right) {
        (Found::Misfit, _) | (_, Found::Misfit) => Found::Misfit,
        (Found::TooHigh, _) | (_, Found::TooHigh) => Found::TooHigh,
        (Found::Fine(x, n), Found::Fine(y, m)) => Found::Fine((x, y), n.max(m)),
    }
}

/// Notes what is too high at its position.
pub fn note_height<T>(at: u32, found: &Found<T>, notes: &mut Notes)
    ensures { notes.new.first ≡ all_noted notes.old.first (height_faults at found.now) }
{
    match found {
        Found::TooHigh => notes.note(at, Reason::TooDeep),
        _ => {}
    }
}
