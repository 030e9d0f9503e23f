//! What the numbers of a table are.

ghost use Rattle.std.specs.Prelude.{◌≡◌, ℕ, List};
ghost use Rattle.pddl_terms.specs.declared.names.Name.{Name};
ghost use Rattle.name_table.specs.Tables.{numbered, place_in, table_number};

/// In a table of names in order the number of a name is its first place among them; other names have none.
pub fn numbers_are_first_places()
    ensures { (text : List ℕ) (names : List Name) → table_number text (numbered names) ≡ place_in text names }
{}
