//! What the answers to two texts have to do with each other.

ghost use Rattle.std.specs.Prelude.{◌≡◌, ◌⊎◌, ℕ, List};
ghost use Rattle.pddl_types.specs.declared.pairs.Pair.{Pair};
ghost use Rattle.pair_text.specs.declared.refusals.Refusal.{Refusal};
ghost use Rattle.pair_text.specs.Reasons.{IsAcceptedPair, IsFirstReason};

/// Two texts are a pair, or there is a first reason against them, and not both; they are one pair at most, and there is
/// one first reason at most. So the call that reads a pair answers each two texts as it must, but for want of memory.
pub fn texts_have_one_answer()
    ensures some { (domain problem : List ℕ) → ((pair : Pair) × IsAcceptedPair domain problem pair) ⊎ ((refusal : Refusal) × IsFirstReason domain problem refusal) }
    ensures pair { (domain problem : List ℕ) (first second : Pair) → IsAcceptedPair domain problem first → IsAcceptedPair domain problem second
        → first ≡ second }
    ensures pair_or_reason { (domain problem : List ℕ) (pair : Pair) (refusal : Refusal) → IsAcceptedPair domain problem pair
        → IsFirstReason domain problem refusal → ⊥ }
    ensures reason { (domain problem : List ℕ) (first second : Refusal) → IsFirstReason domain problem first → IsFirstReason domain problem second
        → first ≡ second }
{}
