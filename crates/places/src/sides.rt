//! The first fluent with too many places, and the first action.

ghost use Rattle.std.specs.Prelude.{◌≡◌, ◌≤◌, ◌<◌, ℕ, All, IfNone, IfSome, IsTrue, Some, false, length, slice_get, slice_index_or};
ghost use Rattle.ground_task.specs.declared.raw.Ground.{Ground};
ghost use Rattle.ground_task.specs.Placed.{has_few_places};
ghost use Rattle.ground_task.specs.Valid.{is_known_condition, IsValid};
ghost use Rattle.places.specs.Inside.{IsFirstDeepAction};

use crate::needs::has_few_places;
use ground_task::{Ground, RawTask};

/// The first fluent with more than 9 places.
pub(crate) fn deep_fluent(counts: &[u8]) -> Option<u32>
    requires few { length counts.now ≤ 256 }
    ensures some { IfSome result (λ x. (x < length counts.now) × (9 < slice_index_or counts.now x 0) × ((y : ℕ) → y < x → slice_index_or counts.now y 0 ≤ 9)) }
    ensures none { IfNone result (All (λ p. p ≤ 9) counts.now) }
{
    'each: for x in 0..counts.len() {
        if counts[x] > 9 {
            return Some(x as u32);
        }
    }
    None
}

/// Whether each side of each comparison in the precondition has at most 18 places.
fn has_few_in_condition(raw: &RawTask, counts: &[u8], action: &Ground) -> bool
    requires known { IsTrue (is_known_condition (length raw.now.facts) (length counts.now) action.now.pre) }
    ensures { result ≡ has_few_places counts.now action.now.pre }
{
    has_few_places(raw.facts.len(), counts, &action.pre)
}

/// The first action with a side of more than 18 places in its precondition.
pub(crate) fn deep_action(raw: &RawTask, counts: &[u8]) -> Option<u32>
    requires valid { IsValid raw.now }
    requires a_count_each { length counts.now ≡ length raw.now.fluents }
    ensures some { IfSome result (IsFirstDeepAction raw.now counts.now) }
    ensures none { IfNone result (All (λ a. IsTrue (has_few_places counts.now a.pre)) raw.now.actions) }
{
    'each: for number in 0..raw.actions.len() {
        if !has_few_in_condition(raw, counts, &raw.actions.as_slice()[number]) {
            return Some(number as u32);
        }
    }
    None
}
