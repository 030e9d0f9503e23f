//! Laws: a readable pair has at most one task and at most one refusal, and never both.

ghost use Rattle.std.specs.Prelude.{◌≡◌, length, Result};
ghost use Rattle.pddl_terms.specs.Readable.{IsReadable};
ghost use Rattle.pddl_types.specs.declared.pairs.Pair.{Pair};
ghost use Rattle.pddl_types.specs.WellFormed.{WellFormed};
ghost use Rattle.ground_task.specs.Placed.{IsPlaced};
ghost use Rattle.ground_task.specs.Tasks.{AreFirstInRange, TaskValue};
ghost use Rattle.ground_meaning.specs.declared.faults.GroundFault.{GroundFault};
ghost use Rattle.ground_meaning.specs.declared.faults.GroundFault.TheVariants as fault;
ghost use Rattle.ground_meaning.specs.Answers.{IsAnswer};
ghost use Rattle.ground_meaning.specs.Refusals.{IsGrounded, IsRefused};

/// Two tasks of a readable pair, each with its least places, are one task.
pub fn one_task()
    ensures { (pair : Pair) → IsReadable pair.domain pair.problem → (task other : TaskValue) → IsGrounded pair task → IsGrounded pair other → task ≡ other }
{}

/// Two refusals of a readable pair are one refusal, apart from want of memory.
pub fn one_refusal()
    ensures { (pair : Pair) → IsReadable pair.domain pair.problem → (refusal other : GroundFault) → IsRefused pair refusal → IsRefused pair other
        → (refusal ≡ fault.NoMemory → ⊥) → (other ≡ fault.NoMemory → ⊥) → refusal ≡ other }
{}

/// Where a readable pair has a task whose places suffice and whose first values are in range, nothing but want of memory refuses it.
pub fn task_or_refusal()
    ensures { (pair : Pair) → IsReadable pair.domain pair.problem → (task : TaskValue) → IsGrounded pair task → IsPlaced task.raw task.places
        → AreFirstInRange task.places task.raw.values (length task.raw.fluents) → (refusal : GroundFault) → IsRefused pair refusal → refusal ≡ fault.NoMemory }
{}

/// A readable pair has at most one answer.
pub fn one_answer()
    ensures { (pair : Pair) → IsReadable pair.domain pair.problem → (answer other : Result TaskValue GroundFault) → IsAnswer pair answer → IsAnswer pair other → answer ≡ other }
{}

/// A readable, well-formed pair has an answer.
pub fn some_answer()
    ensures { (pair : Pair) → IsReadable pair.domain pair.problem → WellFormed pair → (answer : Result TaskValue GroundFault) × IsAnswer pair answer }
{}
