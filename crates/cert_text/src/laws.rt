//! Laws of lines. Each function states some and does nothing.

ghost use Rattle.std.specs.Prelude.{◌≡◌};
ghost use Rattle.ground_task.specs.States.{StateValue};
ghost use Rattle.ground_task.specs.Tasks.{TaskValue};
ghost use Rattle.box_model.specs.Boxes.{LiesWithin};
ghost use Rattle.box_model.specs.Least.{IsLeastClosed};
ghost use Rattle.box_model.specs.declared.state_box.StateBox.{StateBox};
ghost use Rattle.cert_text.specs.Lines.{box_line};

/// Boxes that lie within each other have one line; so two least closed boxes of one state do.
pub fn lines()
    ensures same { (t : TaskValue) (b c : StateBox) → LiesWithin b c → LiesWithin c b → box_line t.raw b ≡ box_line t.raw c }
    ensures least { (t : TaskValue) (s : StateValue) (b c : StateBox) → IsLeastClosed t s b → IsLeastClosed t s c → box_line t.raw b ≡ box_line t.raw c }
{}
