//! How many places expressions and conditions need.

ghost use Rattle.std.specs.Prelude.{◌≡◌, ◌≤◌, All, IsTrue, length, min};
ghost use Rattle.std.specs.List.{list_all};
ghost use Rattle.ground_task.specs.Placed.{has_few_places, places_of};
ghost use Rattle.ground_task.specs.Valid.{is_known_condition, is_known_expression};

use ground_task::{GCond, GExpr};

/// The places of an expression, cut at 19.
#[tactic(auto, using(crate::proofs::CutPlaces::cut_Const, crate::proofs::CutPlaces::cut_Read, crate::proofs::CutPlaces::cut_Add, crate::proofs::CutPlaces::cut_Sub, crate::proofs::CutPlaces::cut_Mul, crate::proofs::CutPlaces::known_Read, crate::proofs::CutPlaces::first_Add, crate::proofs::CutPlaces::second_Add, crate::proofs::CutPlaces::first_Sub, crate::proofs::CutPlaces::second_Sub, crate::proofs::CutPlaces::first_Mul, crate::proofs::CutPlaces::second_Mul))]
pub(crate) fn places_up_to_19(counts: &[u8], expr: &GExpr) -> u8
    requires known { IsTrue (is_known_expression (length counts.now) expr.now) }
    ensures value { result ≡ min 19 (places_of counts.now expr.now) }
    ensures small { result ≤ 19 }
{
    match expr {
        GExpr::Const(value) => value.trim().p,
        GExpr::Read(fluent) => counts[*fluent as usize].min(19),
        GExpr::Add(a, b) => {
            let a = places_up_to_19(counts, a.get());
            let b = places_up_to_19(counts, b.get());
            a.max(b)
        }
        GExpr::Sub(a, b) => {
            let a = places_up_to_19(counts, a.get());
            let b = places_up_to_19(counts, b.get());
            a.max(b)
        }
        GExpr::Mul(a, b) => {
            let a = places_up_to_19(counts, a.get());
            let b = places_up_to_19(counts, b.get());
            (a + b).min(19)
        }
    }
}

/// Whether each side of each comparison has at most 18 places.
#[cycle(sides)]
#[tactic(auto, using(crate::proofs::CutPlaces::few_True, crate::proofs::CutPlaces::few_False, crate::proofs::CutPlaces::few_Fact, crate::proofs::CutPlaces::few_Cmp, crate::proofs::CutPlaces::few_And, crate::proofs::CutPlaces::few_Or, crate::proofs::CutPlaces::first_Cmp, crate::proofs::CutPlaces::second_Cmp))]
pub(crate) fn has_few_places(facts: usize, counts: &[u8], cond: &GCond) -> bool
    requires known { IsTrue (is_known_condition facts (length counts.now) cond.now) }
    ensures { result ≡ has_few_places counts.now cond.now }
{
    match cond {
        GCond::True | GCond::False | GCond::Fact(_, _) => true,
        GCond::Cmp(_, left, right) => {
            places_up_to_19(counts, left) <= 18 && places_up_to_19(counts, right) <= 18
        }
        GCond::And(conds) => have_few_places(facts, counts, conds.as_slice()),
        GCond::Or(conds) => have_few_places(facts, counts, conds.as_slice()),
    }
}

#[cycle(sides)]
fn have_few_places(facts: usize, counts: &[u8], conds: &[GCond]) -> bool
    requires known { IsTrue (list_all (is_known_condition facts (length counts.now)) conds.now) }
    ensures { result ≡ list_all (has_few_places counts.now) conds.now }
{
    'each: for cond in conds {
        if !has_few_places(facts, counts, cond) {
            return false;
        }
    }
    true
}
