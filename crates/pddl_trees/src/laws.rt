//! What the first of some faults is.

ghost use Rattle.std.specs.Prelude.{◌≡◌, ◌↔◌, List, [], All, Contains, Some, None, false};
ghost use Rattle.pddl_trees.specs.declared.faults.Fault.{Fault};
ghost use Rattle.pddl_trees.specs.Faults.{first_fault, is_before};

/// The first of some faults is one of them, and none of them comes before it; there is a first one exactly where there
/// are faults.
pub fn first_fault_is_first()
    ensures first { (faults : List Fault) (fault : Fault) → first_fault faults ≡ Some fault
        → Contains faults fault × All (λ other. is_before other fault ≡ false) faults }
    ensures none { (faults : List Fault) → (first_fault faults ≡ None) ↔ (faults ≡ []) }
{}
