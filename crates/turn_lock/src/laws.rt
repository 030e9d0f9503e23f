//! What the clauses of a lock come to for the entries of its history. Each function states one law and does nothing.

ghost use Rattle.std.specs.Prelude.{◌≡◌, ◌⊎◌, ◌≤◌, ℕ, length};
ghost use mathlib.Core.Option.{some};
ghost use lib.ListN.{get_elem?};
ghost use Rattle.turn_lock.specs.History.{Journal, Begins, OwnAfter, OthersAfter};
ghost use Rattle.turn_lock.specs.declared.view.Entry.{Entry};

/// An entry that a worker has seen stands at its place in each later journal: at that worker's next turn, and at the
/// end. So nobody takes an entry away, and an entry of a turn stands in the end where it was appended.
pub fn entries_stay()
    ensures others { (worker place : ℕ) (entry : Entry) (seen whole : Journal) → OthersAfter worker seen whole → get_elem? seen place ≡ some entry → get_elem? whole place ≡ some entry }
    ensures own { (worker place : ℕ) (entry : Entry) (taken given : Journal) → OwnAfter worker taken given → get_elem? taken place ≡ some entry → get_elem? given place ≡ some entry }
{}

/// Of two journals that one history begins with, one begins with the other.
pub fn one_history()
    ensures { (a b whole : Journal) → Begins a whole → Begins b whole → Begins a b ⊎ Begins b a }
{}

/// A count is the length of a journal: of a front of each later journal, which begins with what was seen before.
pub fn counts_are_lengths()
    ensures { (seen whole : Journal) (count : ℕ) → Begins seen whole → length seen ≤ count → count ≤ length whole
        → (part : Journal) × Begins seen part × Begins part whole × (length part ≡ count) }
{}
