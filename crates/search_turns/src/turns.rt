//! The events of workers.

ghost use Rattle.std.specs.Prelude.{◌≡◌, ◌<◌, ◌≤◌, ◌++◌, ◌+◌, [], ◌∷◌, false, None, Some, All, MatchOption, IfOk, OnOk, OnErr, length, is_ok, vec_len, vec_capacity};
ghost use Rattle.search_runs.specs.Runs.{has_starved};
ghost use Rattle.search_runs.specs.declared.events.Event.TheVariants as event;
ghost use Rattle.search_nodes.specs.Growth.{FitsOutcome};
ghost use Rattle.search_nodes.specs.Tables.{IsTakenBy};
ghost use Rattle.search_turns.specs.Turns.{answer_in, CantTake, CanTake, IsGiven, IsJob, SameTerms};

use crate::search::SearchTurns;
use ground_task::State;
use num_ends::{List, NoMemory};
use search_nodes::Outcome;
use search_runs::Event;
use std::alloc::Global;

/// What a worker that asks for a node gets.
#[derive(Debug, Drop)]
pub enum Taken {
    /// This node, with a copy of its state.
    Job(u32, State),
    /// None yet: so many nodes are taken by others.
    NotYet(u32),
    /// None any more: there is an answer.
    Done,
}

/// Adds an event, for which there is room.
pub(crate) fn record(journal: &mut Vec<Event>, event: Event)
    requires room { vec_len journal.old < vec_capacity journal.old }
    ensures items { journal.new.items ≡ journal.old.items ++ event ∷ [] }
    ensures len { vec_len journal.new ≡ vec_len journal.old + 1 }
    ensures capacity { vec_capacity journal.old ≤ vec_capacity journal.new }
{
    let _added = journal.push(event);
}

fn refuse(outcomes: List<Outcome>, fault: NoMemory) -> Result<(), NoMemory>
    ensures { is_ok result ≡ false }
{
    drop(outcomes);
    Err(fault)
}

/// Makes room for an event more, and for one of each worker behind it.
pub(crate) fn make_room(journal: &mut Vec<Event>, workers: u32) -> Result<(), NoMemory>
    requires few { workers ≤ 1000000 }
    ensures items { journal.new.items ≡ journal.old.items }
    ensures len { vec_len journal.new ≡ vec_len journal.old }
    ensures capacity { vec_capacity journal.old ≤ vec_capacity journal.new }
    ensures ok { OnOk result (vec_len journal.new + (workers + 1) ≤ vec_capacity journal.new) }
{
    journal.reserve(workers as usize + 1)?;
    Ok(())
}

impl SearchTurns {
    // the node that may be taken, where one may
    fn takeable(&self) -> Option<u32>
        ensures { MatchOption result (CantTake self.now) (CanTake self.now) }
    {
        if self.nodes.full().is_some() || self.takes >= self.limit {
            None
        } else {
            self.nodes.least()
        }
    }

    /// The worker takes the node that waits with the least estimate, and the least number among those.
    ///
    /// `Done` comes exactly where there is an answer, `NotYet` where there is none and no node may be taken. Neither
    /// changes anything, and neither does want of memory.
    pub fn take(&mut self, alloc: Global, worker: u32) -> Result<Taken, NoMemory>
        requires worker { worker < self.old.workers }
        ensures terms { SameTerms self.old self.new }
        ensures ok { IfOk result (λ taken. IsJob worker taken self.old self.new) }
        ensures err { OnErr result (self.new ≡ self.old) }
    {
        if self.answer().is_some() {
            return Ok(Taken::Done);
        }
        match self.takeable() {
            None => Ok(Taken::NotYet(self.nodes.taken())),
            Some(node) => self.take_node(alloc, worker, node),
        }
    }

    fn take_node(&mut self, alloc: Global, worker: u32, node: u32) -> Result<Taken, NoMemory>
        requires worker { worker < self.old.workers }
        requires going { answer_in self.old ≡ None }
        requires can { CanTake self.old node }
        ensures terms { SameTerms self.old self.new }
        ensures ok { IfOk result (λ taken. IsJob worker taken self.old self.new) }
        ensures err { OnErr result (self.new ≡ self.old) }
    {
        let state = self.nodes.state(node).copy(alloc)?;
        make_room(&mut self.journal, self.workers)?;
        self.nodes.take(worker, node);
        record(&mut self.journal, Event::Take(worker, node));
        self.takes += 1;
        Ok(Taken::Job(node, state))
    }

    /// The worker gives what the actions of its node do, in their order. Without memory nothing changes.
    pub fn give(&mut self, worker: u32, node: u32, outcomes: List<Outcome>) -> Result<(), NoMemory>
        requires taken { IsTakenBy worker self.old.table.nodes node }
        requires fit { All (FitsOutcome self.old.table.task) outcomes }
        requires few { length outcomes ≤ 1000000000 }
        ensures terms { SameTerms self.old self.new }
        ensures ok { OnOk result (IsGiven worker node outcomes self.old self.new) }
        ensures err { OnErr result (self.new ≡ self.old) }
    {
        match make_room(&mut self.journal, self.workers) {
            Ok(()) => {}
            Err(fault) => return refuse(outcomes, fault),
        }
        match self.nodes.give(worker, node, outcomes) {
            Ok(()) => {}
            Err(fault) => return Err(fault),
        }
        record(&mut self.journal, Event::Give(worker, node));
        Ok(())
    }

    /// The worker found no memory, and stops. This takes none.
    pub fn starve(&mut self, worker: u32)
        requires worker { worker < self.old.workers }
        requires once { has_starved worker self.old.journal ≡ false }
        ensures { self.new ≡ record self.old { journal = self.old.journal ++ event.Starve worker ∷ [] } }
    {
        record(&mut self.journal, Event::Starve(worker));
        self.starved = true;
    }
}
