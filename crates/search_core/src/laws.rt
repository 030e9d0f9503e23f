//! What every search has in common, as laws. Each function states some and does nothing.

ghost use Rattle.std.specs.Prelude.{◌≡◌, ◌<◌, ◌++◌, ℕ, List, None, Some, false, length, IsSome};
ghost use Rattle.ground_task.specs.States.{StateValue};
ghost use Rattle.search_nodes.specs.Tables.{config_of};
ghost use Rattle.search_runs.specs.Answers.{first_where, is_taken};
ghost use Rattle.search_runs.specs.Later.{Continues, MayTake, Stays};
ghost use Rattle.search_runs.specs.Spaces.{IsAt};
ghost use Rattle.search_runs.specs.declared.answers.Answer.{Answer};
ghost use Rattle.search_runs.specs.declared.events.Event.{Event};
ghost use Rattle.search_runs.specs.declared.nodes.Node.{Node};
ghost use Rattle.search_runs.specs.declared.events.Event.TheVariants as event;
ghost use Rattle.search_turns.specs.Turns.{answer_in, IsNotYet, SameTerms, Turns};
ghost use Rattle.search_records.specs.Claims.{Claims};
ghost use Rattle.search_records.specs.Nodes.{AreSameNodes, IsRightStatus};
ghost use Rattle.search_records.specs.Records.{IsPlain, bounds};
ghost use Rattle.search_core.specs.Records.{record_of};
ghost use Rattle.search_core.specs.Searches.{IsEvent, IsPlainlyGiven, IsPlainSearch, IsSearch, space_in};

/// The answer of a search holds of its task.
pub fn answers_mean()
    ensures { (v : Turns) (a : Answer) → IsSearch v → answer_in v ≡ Some a
        → Claims v.table.task v.limit v.table.most v.journal (config_of v.table) a }
{}

/// The status of each node is right for its state.
pub fn statuses_are_right()
    ensures { (v : Turns) (n : ℕ) (x : Node StateValue) → IsSearch v → IsAt v.table.nodes n x
        → IsRightStatus v.table.task v.workers v.table.boxes x.state x.status }
{}

/// Where there is an answer there is one after each event.
pub fn answers_stay()
    ensures { (e : Event) (old new : Turns) → IsEvent e old new → IsSome (answer_in old) → IsSome (answer_in new) }
{}

/// One list of events leads to one list of nodes, whatever boxes are kept, as long as there is room.
pub fn journals_fix_nodes()
    ensures { (v w : Turns) → IsSearch v → IsSearch w → SameTerms v w → v.journal ≡ w.journal
        → v.table.full ≡ None → w.table.full ≡ None → AreSameNodes v.table.nodes w.table.nodes }
{}

/// A node stays, and is taken by its worker until the worker gives it.
pub fn nodes_stay()
    ensures event { (e : Event) (old new : Turns) (n : ℕ) (x : Node StateValue) → IsEvent e old new
        → IsAt old.table.nodes n x → Stays e n x (config_of new.table) }
    ensures events { (v : Turns) (before more : List Event) → IsSearch v → v.journal ≡ before ++ more
        → 0 < length before → Continues (space_in v) before more (config_of v.table) }
{}

/// Where no node is taken and there is no answer, each worker may take a node.
pub fn workers_may_take()
    ensures { (v : Turns) (w : ℕ) → w < v.workers → answer_in v ≡ None
        → first_where is_taken v.table.nodes ≡ None → MayTake (space_in v) v.journal (config_of v.table) w }
{}

/// A search by one worker that keeps least closed boxes alone stays one when a node is taken and expanded; its worker is
/// never put off, while a node is taken there is no answer, and it ends as a plain record.
pub fn plain_searches()
    ensures expands { (n : ℕ) (old mid new : Turns) → IsPlainSearch old → IsEvent (event.Take 0 n) old mid
        → IsEvent (event.Give 0 n) mid new → IsPlainlyGiven 0 n mid new → IsPlainSearch new }
    ensures goes_on { (w k : ℕ) (v after : Turns) → IsPlainSearch v → IsNotYet w k v after → ⊥ }
    ensures open_while_taken { (w n : ℕ) (old new : Turns) → IsEvent (event.Take w n) old new → answer_in new ≡ None }
    ensures ends { (v : Turns) (a : Answer) → IsPlainSearch v → v.table.most ≡ bounds → answer_in v ≡ Some a
        → IsPlain v.table.task v.limit (record_of v) }
{}
