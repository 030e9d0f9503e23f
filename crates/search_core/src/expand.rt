//! A node is expanded at one go.

ghost use Rattle.std.specs.Prelude.{◌≡◌, ◌<◌, length, IfOk, OnErr, OnOk};
ghost use Rattle.ground_task.specs.Placed.{IsPlaced};
ghost use Rattle.ground_task.specs.Tasks.{IsStateOf};
ghost use Rattle.search_runs.specs.declared.events.Event.TheVariants as event;
ghost use Rattle.search_core.specs.Searches.{AreAllOutcomes, CanGive, HasTaken, IsEvent, IsPlainlyGiven};
ghost use Rattle.search_records.specs.Spaces.{LeastDead};
ghost use Rattle.search_core.specs.Views.{IsRightNext, IsRightOutcome, IsRightView};

use crate::search::Search;
use crate::viewer::Viewer;
use ground_task::{Advanced, State, StateBuffer};
use num_ends::{List, NoMemory};
use search_nodes::{Outcome, View};
use std::alloc::Global;

// a next state of which this is found out
fn found(alloc: Global, next: &State, view: View) -> Result<Outcome, NoMemory>
    ensures { IfOk result (λ o. o ≡ Outcome.Next next.now view) }
{
    match next.copy(alloc) {
        Ok(state) => Ok(Outcome::Next(state, view)),
        Err(fault) => {
            drop(view);
            Err(fault)
        }
    }
}

impl Search {
    /// The worker gives what the ground actions do in this state of its node, and each next state that is no node's is
    /// looked at by the viewer. The boxes that are kept are least closed boxes. Without memory nothing changes.
    pub fn expand<V: Viewer>(
        &mut self,
        alloc: Global,
        worker: u32,
        node: u32,
        state: &State,
        viewer: &mut V,
    ) -> Result<(), NoMemory>
        requires taken { HasTaken worker node state.now self.old }
        requires task { V.of viewer.old ≡ self.old.table.task }
        ensures task { V.of viewer.new ≡ V.of viewer.old }
        ensures ok { OnOk result (IsEvent (event.Give worker node) self.old self.new) }
        ensures plain { OnOk result (IsPlainlyGiven worker node self.old self.new) }
        ensures err { OnErr result (self.new ≡ self.old) }
    {
        let outcomes = self.outcomes(alloc, worker, node, state, viewer)?;
        self.give_plainly(worker, node, outcomes)
    }

    fn give_plainly(
        &mut self,
        worker: u32,
        node: u32,
        outcomes: List<Outcome>,
    ) -> Result<(), NoMemory>
        requires can { CanGive LeastDead worker node outcomes self.old }
        ensures ok { OnOk result (IsEvent (event.Give worker node) self.old self.new) }
        ensures plain { OnOk result (IsPlainlyGiven worker node self.old self.new) }
        ensures err { OnErr result (self.new ≡ self.old) }
    {
        self.turns.give(worker, node, outcomes)
    }

    // what the ground actions do in the state of a node
    fn outcomes<V: Viewer>(
        &self,
        alloc: Global,
        worker: u32,
        node: u32,
        state: &State,
        viewer: &mut V,
    ) -> Result<List<Outcome>, NoMemory>
        requires taken { HasTaken worker node state.now self.now }
        requires task { V.of viewer.old ≡ self.now.table.task }
        ensures task { V.of viewer.new ≡ V.of viewer.old }
        ensures can { IfOk result (λ outcomes. CanGive LeastDead worker node outcomes self.now) }
    {
        let _turns = &self.turns;
        self.outcomes_of(alloc, state, viewer)
    }

    // what the ground actions do in the state, in their order
    fn outcomes_of<V: Viewer>(
        &self,
        alloc: Global,
        state: &State,
        viewer: &mut V,
    ) -> Result<List<Outcome>, NoMemory>
        requires of_task { IsStateOf self.now.table.task state.now }
        requires task { V.of viewer.old ≡ self.now.table.task }
        ensures task { V.of viewer.new ≡ V.of viewer.old }
        ensures all { IfOk result (AreAllOutcomes LeastDead self.now.table state.now) }
    {
        let mut next = StateBuffer::new(alloc, self.task())?;
        let mut outcomes = List::new(alloc);
        let all = self.task().raw().actions.len() as u32;
        'each: for action in 0..all {
            outcomes.push(self.outcome_of(alloc, state, action, &mut next, viewer)?)?;
        }
        Ok(outcomes)
    }

    fn outcome_of<V: Viewer>(
        &self,
        alloc: Global,
        state: &State,
        action: u32,
        next: &mut StateBuffer,
        viewer: &mut V,
    ) -> Result<Outcome, NoMemory>
        requires of_task { IsStateOf self.now.table.task state.now }
        requires known { action < length self.now.table.task.raw.actions }
        requires room { IsStateOf self.now.table.task next.old }
        requires task { V.of viewer.old ≡ self.now.table.task }
        ensures room { IsStateOf self.now.table.task next.new }
        ensures task { V.of viewer.new ≡ V.of viewer.old }
        ensures right { IfOk result (IsRightOutcome LeastDead self.now.table state.now action) }
    {
        match self.task().apply_into(state, action, next) {
            Advanced::Blocked => Ok(Outcome::Blocked),
            Advanced::Over => Ok(Outcome::Over),
            Advanced::Next => self.next_outcome(alloc, next.state(), viewer),
        }
    }

    fn next_outcome<V: Viewer>(
        &self,
        alloc: Global,
        next: &State,
        viewer: &mut V,
    ) -> Result<Outcome, NoMemory>
        requires of_task { IsStateOf self.now.table.task next.now }
        requires task { V.of viewer.old ≡ self.now.table.task }
        ensures task { V.of viewer.new ≡ V.of viewer.old }
        ensures right { IfOk result (IsRightNext LeastDead self.now.table next.now) }
    {
        if let Some(node) = self.turns.knows(next) {
            return Ok(Outcome::Known(node));
        }
        match viewer.quick(alloc, next)? {
            Some(view) => found(alloc, next, view),
            None => self.slow_outcome(alloc, next, viewer),
        }
    }

    // the same of a state that is not shown to be live
    fn slow_outcome<V: Viewer>(
        &self,
        alloc: Global,
        next: &State,
        viewer: &mut V,
    ) -> Result<Outcome, NoMemory>
        requires of_task { IsStateOf self.now.table.task next.now }
        requires task { V.of viewer.old ≡ self.now.table.task }
        ensures task { V.of viewer.new ≡ V.of viewer.old }
        ensures right { IfOk result (IsRightNext LeastDead self.now.table next.now) }
    {
        if self.turns.kept(next).is_some() {
            return Ok(Outcome::InKept(next.copy(alloc)?));
        }
        let view = viewer.full(alloc, next)?;
        found(alloc, next, view)
    }
}
