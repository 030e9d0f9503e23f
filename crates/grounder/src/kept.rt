//! The actions that the bindings of a pair leave.

ghost use Rattle.std.specs.Prelude.{◌≡◌, ◌++◌, ◌<◌, ◌≤◌, [], ◌∷◌, Some, IfErr, IfOk, MatchResult, OnOk, flat_map, length, map, slice_get};
ghost use Rattle.pddl_terms.specs.declared.actions.Schema.{Schema};
ghost use Rattle.pddl_terms.specs.declared.limits.TheConstants.{MAX_PREFIXES};
ghost use Rattle.pddl_types.specs.declared.pairs.Pair.{Pair};
ghost use Rattle.pddl_types.specs.Pairs.{objects_of};
ghost use Rattle.pddl_types.specs.WellFormed.{Each};
ghost use Rattle.static_facts.specs.Bindings.{bindings, prefix_count};
ghost use Rattle.coded_actions.specs.Coded.{action_of};
ghost use Rattle.ground_meaning.specs.Outcomes.{outcome, schema_outcomes};
ghost use Rattle.ground_meaning.specs.Outcomes.Outcome.{Kept};
ghost use Rattle.folding.specs.Folding.{IsKept, IsRefusedBy};
ghost use Rattle.grounder.specs.internal.Taken.{AreKept, IsBindingFault, IsStopped, IsTaken};

use binder::{BindFault, Rows, bind_rows};
use coded_actions::CodedAction;
use folding::Folder;
use ground_meaning::GroundFault;
use num_ends::NoMemory;
use pddl_terms::{MAX_ACTIONS, MAX_PREFIXES, Schema, What};
use pddl_types::Checked;
use static_facts::Statics;
use std::alloc::Global;

// What tells, for one action of a pair, what becomes of each binding. The loop over the bindings knows no more of it than
// this, so that its proof doesn't grow with what a folder holds.
trait Outcomes {
    // The pair.
    ghost pair: { Self → Pair };

    // The action.
    ghost schema: { Self → Schema };

    // What becomes of a binding of the parameters to objects: None where it is left out, the folded action where it is
    // kept, and else why it refuses the pair.
    fn of_binding(&self, alloc: Global, objects: &[u32]) -> Result<Option<CodedAction>, GroundFault>
        requires as_many { length objects.now ≡ length (schema self.now).params }
        requires known { Each (λ o. o < length (objects_of (pair self.now))) objects.now }
        ensures { MatchResult result (IsKept (outcome (pair self.now) (schema self.now) objects.now)) (IsRefusedBy (outcome (pair self.now) (schema self.now) objects.now)) };
}

impl<'a> Outcomes for Folder<'a> {
    ghost pair = { λ f. f.0 };

    ghost schema = { λ f. f.1 };

    fn of_binding(
        &self,
        alloc: Global,
        objects: &[u32],
    ) -> Result<Option<CodedAction>, GroundFault> {
        self.outcome(alloc, objects)
    }
}

fn push(actions: &mut Vec<CodedAction>, action: CodedAction) -> Result<(), NoMemory>
    ensures { OnOk result (actions.new.items ≡ actions.old.items ++ action ∷ []) }
{
    actions.push(action)?;
    Ok(())
}

// Keeps an action, if it isn't one too many.
#[tactic(auto, using(crate::proofs::Taking::one_taken, crate::proofs::Taking::one_too_many, crate::proofs::Taking::memory_stopped))]
fn keep(actions: &mut Vec<CodedAction>, action: CodedAction) -> Result<(), GroundFault>
    ensures taken { OnOk result (IsTaken (Kept (action_of action) ∷ []) actions.old.items actions.new.items) }
    ensures stopped { IfErr result (IsStopped (Kept (action_of action) ∷ []) actions.old.items) }
{
    if actions.len() >= MAX_ACTIONS as usize {
        action.discard();
        return Err(GroundFault::TooMany(What::Actions, MAX_ACTIONS));
    }
    match push(actions, action) {
        Ok(()) => Ok(()),
        Err(_) => Err(GroundFault::NoMemory),
    }
}

// Takes one binding.
#[tactic(auto, using(crate::proofs::Taking::dropped_taken, crate::proofs::Taking::kept_taken, crate::proofs::Taking::kept_stopped, crate::proofs::Taking::refused_stopped))]
fn take_binding<F: Outcomes>(
    alloc: Global,
    folder: &F,
    objects: &[u32],
    actions: &mut Vec<CodedAction>,
) -> Result<(), GroundFault>
    requires as_many { length objects.now ≡ length (F.schema folder.now).params }
    requires known { Each (λ o. o < length (objects_of (F.pair folder.now))) objects.now }
    ensures taken { OnOk result (IsTaken (outcome (F.pair folder.now) (F.schema folder.now) objects.now ∷ []) actions.old.items actions.new.items) }
    ensures stopped { IfErr result (IsStopped (outcome (F.pair folder.now) (F.schema folder.now) objects.now ∷ []) actions.old.items) }
{
    match folder.of_binding(alloc, objects) {
        Ok(None) => Ok(()),
        Ok(Some(action)) => keep(actions, action),
        Err(fault) => Err(fault),
    }
}

// Takes the bindings of an action one after another.
#[tactic(auto, using(crate::proofs::Taking::none_taken, crate::proofs::Taking::row_next, crate::proofs::Taking::row_stopped, crate::proofs::Taking::rows_taken, crate::proofs::Taking::row_known, crate::proofs::Taking::row_fits))]
fn take_rows<F: Outcomes>(
    alloc: Global,
    folder: &F,
    rows: &Rows,
    actions: &mut Vec<CodedAction>,
) -> Result<(), GroundFault>
    requires bound { rows.now.1 ≡ bindings (F.pair folder.now) (F.schema folder.now) }
    ensures taken { OnOk result (IsTaken (map (outcome (F.pair folder.now) (F.schema folder.now)) rows.now.1) actions.old.items actions.new.items) }
    ensures stopped { IfErr result (IsStopped (map (outcome (F.pair folder.now) (F.schema folder.now)) rows.now.1) actions.old.items) }
{
    'each: for number in 0..rows.count() {
        take_binding(alloc, folder, rows.row(number), actions)?;
    }
    Ok(())
}

// Takes the bindings of an action, and then lets go of what tells their outcomes.
fn take_all<F: Outcomes + Drop>(
    alloc: Global,
    folder: F,
    rows: &Rows,
    actions: &mut Vec<CodedAction>,
) -> Result<(), GroundFault>
    requires bound { rows.now.1 ≡ bindings (F.pair folder) (F.schema folder) }
    ensures taken { OnOk result (IsTaken (map (outcome (F.pair folder) (F.schema folder)) rows.now.1) actions.old.items actions.new.items) }
    ensures stopped { IfErr result (IsStopped (map (outcome (F.pair folder) (F.schema folder)) rows.now.1) actions.old.items) }
{
    take_rows(alloc, &folder, rows, actions)
}

#[tactic(auto, using(crate::proofs::Taking::bound_taken, crate::proofs::Taking::bound_stopped, crate::proofs::Taking::memory_stopped))]
fn take_bound(
    alloc: Global,
    checked: &Checked,
    statics: &Statics,
    number: u32,
    schema: &Schema,
    rows: &Rows,
    actions: &mut Vec<CodedAction>,
) -> Result<(), GroundFault>
    requires one_pair { statics.now ≡ checked.now }
    requires numbered { slice_get checked.now.domain.schemas number ≡ Some schema.now }
    requires bound { rows.now.1 ≡ bindings checked.now schema.now }
    requires few { prefix_count checked.now schema.now ≤ MAX_PREFIXES }
    ensures taken { OnOk result (IsTaken (schema_outcomes checked.now schema.now) actions.old.items actions.new.items) }
    ensures stopped { IfErr result (IsStopped (schema_outcomes checked.now schema.now) actions.old.items) }
{
    match Folder::new(alloc, checked, statics, number) {
        Ok(folder) => take_all(alloc, folder, rows, actions),
        Err(_) => Err(GroundFault::NoMemory),
    }
}

// Takes the bindings of an action, which is bound whole before any of them is looked at.
#[tactic(auto, using(crate::proofs::Taking::prefixes_stopped, crate::proofs::Taking::memory_stopped))]
fn take_schema(
    alloc: Global,
    checked: &Checked,
    statics: &Statics,
    number: u32,
    schema: &Schema,
    actions: &mut Vec<CodedAction>,
) -> Result<(), GroundFault>
    requires one_pair { statics.now ≡ checked.now }
    requires numbered { slice_get checked.now.domain.schemas number ≡ Some schema.now }
    ensures taken { OnOk result (IsTaken (schema_outcomes checked.now schema.now) actions.old.items actions.new.items) }
    ensures stopped { IfErr result (IsStopped (schema_outcomes checked.now schema.now) actions.old.items) }
{
    match bind_rows(alloc, checked, statics, number) {
        Ok(rows) => take_bound(alloc, checked, statics, number, schema, &rows, actions),
        Err(BindFault::TooMany(_)) => Err(GroundFault::TooMany(What::Prefixes, MAX_PREFIXES)),
        Err(BindFault::NoMemory) => Err(GroundFault::NoMemory),
    }
}

// Takes the bindings of all actions.
#[tactic(auto, using(crate::proofs::Taking::none_taken, crate::proofs::Taking::schema_next, crate::proofs::Taking::schema_stopped, crate::proofs::Taking::schemas_taken))]
fn take_schemas(
    alloc: Global,
    checked: &Checked,
    statics: &Statics,
    actions: &mut Vec<CodedAction>,
) -> Result<(), GroundFault>
    requires one_pair { statics.now ≡ checked.now }
    ensures taken { OnOk result (IsTaken (flat_map (schema_outcomes checked.now) checked.now.domain.schemas) actions.old.items actions.new.items) }
    ensures stopped { IfErr result (IsStopped (flat_map (schema_outcomes checked.now) checked.now.domain.schemas) actions.old.items) }
{
    let schemas = checked.domain().schemas.as_slice();
    let count = schemas.len() as u32;
    'each: for number in 0..count {
        let schema = &schemas[number as usize];
        take_schema(alloc, checked, statics, number, schema, actions)?;
    }
    Ok(())
}

fn discard(_actions: Vec<CodedAction>) {}

/// The actions of the pair, by codes, in the order of the file and then of the objects; or else the first refusal of a
/// binding. A binding that is left out costs no memory.
#[tactic(auto, using(crate::proofs::Taking::all_taken, crate::proofs::Taking::stopped_whole))]
pub(crate) fn kept_actions(
    alloc: Global,
    checked: &Checked,
    statics: &Statics,
) -> Result<Vec<CodedAction>, GroundFault>
    requires one_pair { statics.now ≡ checked.now }
    ensures kept { IfOk result (λ actions. AreKept checked.now actions.items) }
    ensures refused { IfErr result (IsBindingFault checked.now) }
{
    let mut actions = Vec::new(alloc);
    match take_schemas(alloc, checked, statics, &mut actions) {
        Ok(()) => Ok(actions),
        Err(fault) => {
            discard(actions);
            Err(fault)
        }
    }
}
