//! What rows tell of boxes, as laws: the functions do nothing, and their contracts hold for all tasks, states and rows.

ghost use Rattle.std.specs.Prelude.{◌↔◌, ℕ, List, IsTrue};
ghost use Rattle.ground_task.specs.States.{StateValue};
ghost use Rattle.ground_task.specs.Tasks.{TaskValue};
ghost use Rattle.bound_words.specs.Rows as rows;
ghost use Rattle.box_model.specs.Boxes.{LiesWithin};
ghost use Rattle.box_model.specs.Demands.{is_closed};
ghost use Rattle.box_model.specs.Least as boxes;
ghost use Rattle.box_rows.specs.BoxRows.{box_at, start_row, IsRanked};
ghost use Rattle.box_rows.specs.Instances.{IsInstance};
ghost use Rattle.box_rows.specs.Systems.{system_of};
ghost use Rattle.box_rows.specs.Tables.{SupportersValue};

/// The system of a task at a state keeps the law: on a row further out a rule asks for the same, or for more.
pub fn systems_are_monotone()
    ensures { (t : TaskValue) (sup : SupportersValue) (s : StateValue) → IsInstance t sup s → rows.IsMonotone (system_of t sup s) }
{}

/// A row past the start row is closed exactly where its box is.
pub fn rows_are_closed_where_their_boxes_are()
    ensures { (t : TaskValue) (sup : SupportersValue) (s : StateValue) (row : List ℕ)
        → IsInstance t sup s → rows.IsRow (system_of t sup s) row → rows.IsRowPast (system_of t sup s) (start_row t sup s) row
        → rows.IsClosed (system_of t sup s) row ↔ IsTrue (is_closed t (box_at t sup s row)) }
{}

/// The least closed row past the start row stands for the least closed box above the state.
pub fn least_rows_stand_for_least_boxes()
    ensures { (t : TaskValue) (sup : SupportersValue) (s : StateValue) (row : List ℕ)
        → IsInstance t sup s → rows.IsLeastClosed (system_of t sup s) (start_row t sup s) row
        → boxes.IsLeastClosed t s (box_at t sup s row) }
{}

/// Of two rows past the start row, the second is past the first exactly where the box of the first lies within its box. Each
/// rank of the rows is the first of its end.
pub fn rows_are_ordered_as_their_boxes()
    ensures { (t : TaskValue) (sup : SupportersValue) (s : StateValue) (a b : List ℕ)
        → IsInstance t sup s
        → rows.IsRowPast (system_of t sup s) (start_row t sup s) a → rows.IsRowPast (system_of t sup s) (start_row t sup s) b
        → IsRanked t sup s a → IsRanked t sup s b
        → rows.IsRowPast (system_of t sup s) a b ↔ LiesWithin (box_at t sup s a) (box_at t sup s b) }
{}
