//! Laws of linear forms. Each function states one and does nothing.

ghost use Rattle.std.specs.Prelude.{◌≡◌, ℕ, List, true, false, Some, IsTrue};
ghost use Rattle.num_ends.specs.Decimal.{Decimal, is_same_value};
ghost use Rattle.num_ends.specs.Range.{operands_fit};
ghost use Rattle.ground_task.specs.Meaning.{fluent_value, stands, value_of};
ghost use Rattle.ground_task.specs.States.{StateValue};
ghost use Rattle.ground_task.specs.declared.raw.GExpr.{GExpr};
ghost use Rattle.ground_task.specs.declared.raw.Rel.{Rel};
ghost use Rattle.simple_atoms.specs.declared.linear.Linear.{Linear};
ghost use Rattle.simple_atoms.specs.Forms.{linear_form};
ghost use Rattle.simple_atoms.specs.Repetitions.{repetitions, IsLeastClosing};
ghost use Rattle.simple_atoms.specs.Values.{form_value, is_met, value_of_form};

/// A comparison stands in a state exactly where its form is met, and the form's value in the state is exact.
pub fn forms()
    ensures meets { (places : List ℕ) (s : StateValue) (r : Rel) (a b : GExpr) (f : Linear) → linear_form r a b ≡ Some f → stands r (value_of places s a) (value_of places s b) ≡ is_met f (value_of_form (fluent_value places s) f) }
    ensures exact { (places : List ℕ) (s : StateValue) (f : Linear) (value : Decimal) → form_value places s f ≡ Some value → IsTrue (is_same_value value (value_of_form (fluent_value places s) f)) }
{}

/// From a value that doesn't meet a form, the repetitions of a gain that helps are the least number of at least 1 with
/// which it closes the gap, cut at `FAR`.
pub fn least_repetitions()
    ensures { (f : Linear) (value gain : Decimal) (m : ℕ) → is_met f value ≡ false → operands_fit value gain ≡ true → repetitions f value gain ≡ Some m → IsLeastClosing f value gain m }
{}
