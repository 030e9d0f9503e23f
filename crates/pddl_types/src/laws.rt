//! What the check's answers have to do with well-formed pairs.

ghost use Rattle.std.specs.Prelude.{◌≡◌, ◌↔◌, List, [], All, Contains, None, Some, false};
ghost use Rattle.pddl_types.specs.declared.faults.Fault.{Fault};
ghost use Rattle.pddl_types.specs.declared.pairs.Pair.{Pair};
ghost use Rattle.pddl_types.specs.Checks.{faults_of};
ghost use Rattle.pddl_types.specs.WellFormed.{WellFormed};
ghost use Rattle.pddl_types.specs.Faults.{earliest_fault, is_earlier};

/// The first of some faults is one of them, and none of them comes before it; there is a first one exactly where there
/// are faults.
pub fn first_fault_is_first()
    ensures first { (faults : List Fault) (fault : Fault) → earliest_fault faults ≡ Some fault
        → Contains faults fault × All (λ other. is_earlier other fault ≡ false) faults }
    ensures none { (faults : List Fault) → (earliest_fault faults ≡ None) ↔ (faults ≡ []) }
{}

/// A pair has no fault exactly where it is well formed.
pub fn faultless_pairs_are_well_formed()
    ensures { (pair : Pair) → (faults_of pair ≡ []) ↔ WellFormed pair }
{}
