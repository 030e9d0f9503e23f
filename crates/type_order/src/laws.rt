//! What the test of descent tells.

ghost use Rattle.std.specs.Prelude.{◌↔◌, ℕ, List, IsTrue};
ghost use Rattle.pddl_terms.specs.declared.names.Typed.{Typed};
ghost use Rattle.type_order.specs.Types.{Descends, descends};

/// The test of descent says what descent is.
pub fn descent_is_tested()
    ensures { (types : List Typed) (kind other : List ℕ) → IsTrue (descends types kind other) ↔ Descends types kind other }
{}
