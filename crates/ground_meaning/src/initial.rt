//! Laws: the task of a pair is valid, and begins where the pair begins.

ghost use Rattle.pddl_terms.specs.Readable.{IsReadable};
ghost use Rattle.pddl_types.specs.declared.pairs.Pair.{Pair};
ghost use Rattle.pddl_types.specs.WellFormed.{WellFormed};
ghost use Rattle.pddl_meaning.specs.Worlds.{initial_world};
ghost use Rattle.ground_task.specs.declared.raw.RawTask.{RawTask};
ghost use Rattle.ground_task.specs.States.{StateValue};
ghost use Rattle.ground_task.specs.Tasks.{IsInitialState, TaskValue};
ghost use Rattle.ground_task.specs.Valid.{IsValid};
ghost use Rattle.ground_meaning.specs.Tasks.{IsGroundTask};
ghost use Rattle.ground_meaning.specs.Worlds.{StandsAt};

/// The initial world of a readable, well-formed pair stands at each initial state of its task.
pub fn initial_states_stand()
    ensures { (pair : Pair) → IsReadable pair.domain pair.problem → WellFormed pair → (task : TaskValue) → IsGroundTask pair task.raw
        → (state : StateValue) → IsInitialState task state → StandsAt pair task (initial_world pair) state }
{}

/// The task of a readable, well-formed pair is valid data of a ground task.
pub fn tasks_are_valid()
    ensures { (pair : Pair) → IsReadable pair.domain pair.problem → WellFormed pair → (raw : RawTask) → IsGroundTask pair raw → IsValid raw }
{}
