//! A search of a task.

ghost use Rattle.std.specs.Prelude.{◌≡◌, ◌<◌, ◌≤◌, false, length, IfNone, IfOk, IfSome, OnErr, OnOk};
ghost use Rattle.explored.specs.declared.classes.Most.{Most};
ghost use Rattle.dead_ends.specs.Reachable.{initial_state};
ghost use Rattle.ground_task.specs.States.{StateValue};
ghost use Rattle.search_nodes.specs.Tables.{IsNew, config_of};
ghost use Rattle.search_runs.specs.Spaces.{IsAt};
ghost use Rattle.search_runs.specs.declared.nodes.Node.{Node};
ghost use Rattle.search_runs.specs.Runs.{has_starved};
ghost use Rattle.search_runs.specs.declared.events.Event.TheVariants as event;
ghost use Rattle.search_turns.specs.Turns.{answer_in, SameTerms};
ghost use Rattle.search_records.specs.Claims.{Claims};
ghost use Rattle.search_records.specs.Records.{IsLegal, bounds};
ghost use Rattle.search_core.specs.Records.{record_of};
ghost use Rattle.search_core.specs.Searches.{CanGive, Gets, IsBegun, IsEvent, IsPlainSearch, IsSearch};
ghost use Rattle.search_records.specs.Spaces.{AnyDead, LeastDead};
ghost use Rattle.search_core.specs.Views.{IsRightView};

use explored::Most;
use ground_task::{State, Task};
use num_ends::{List, NoMemory};
use search_nodes::{Outcome, View};
use search_records::Record;
use search_runs::Answer;
use search_turns::{SearchTurns, Taken};
use std::alloc::Global;
use std::marker::Model;

/// A search of a task by workers, with its nodes, the dead boxes that it keeps, and the events so far, which are a run.
#[derive(Drop)]
pub struct Search {
    pub(crate) turns: SearchTurns,
}

impl Model for Search {
    ghost use Rattle.ground_task.specs.contracts.raw.GCond as cond;
    ghost use Rattle.ground_task.specs.contracts.raw.GExpr as expr;
    ghost use Rattle.std.specs.Coded.{codes};
    ghost use Rattle.search_turns.specs.Turns.{Turns};

    ghost Value = { Turns };

    ghost coded = { Prim.hlevel (codes, cond.the_row.coded, expr.the_row.coded) };

    ghost use Rattle.search_core.specs.Searches.{IsSearch};

    ghost view = { λ s. s.turns };

    ghost invariant = { λ s. IsSearch s.turns };
}

impl Search {
    /// A search with one event, the start: the initial state becomes node 0, by this view of it.
    ///
    /// At most `limit` nodes are taken, 500,000 states and 40,000 dead boxes kept. The workers have the numbers below
    /// `workers`.
    pub fn start(
        alloc: Global,
        task: Task,
        limit: u32,
        workers: u32,
        view: View,
    ) -> Result<Search, NoMemory>
        requires workers { workers ≤ 1000000 }
        requires right { IsRightView AnyDead task (initial_state task) view }
        ensures begun { IfOk result (IsBegun task limit workers bounds) }
        ensures plain { workers ≡ 1 → IsRightView LeastDead task (initial_state task) view → IfOk result IsPlainSearch }
    {
        let most = Most {
            states: 500_000,
            boxes: 40_000,
        };
        Search::start_within(alloc, task, limit, workers, most, view)
    }

    /// The same with other bounds on states and boxes, each at least 1.
    pub fn start_within(
        alloc: Global,
        task: Task,
        limit: u32,
        workers: u32,
        most: Most,
        view: View,
    ) -> Result<Search, NoMemory>
        requires workers { workers ≤ 1000000 }
        requires room { 0 < most.states }
        requires box_room { 0 < most.boxes }
        requires states { most.states ≤ 1000000000 }
        requires boxes { most.boxes ≤ 1000000000 }
        requires right { IsRightView AnyDead task (initial_state task) view }
        ensures begun { IfOk result (IsBegun task limit workers most) }
        ensures plain { workers ≡ 1 → IsRightView LeastDead task (initial_state task) view → IfOk result IsPlainSearch }
    {
        let _raw = task.raw();
        let turns = SearchTurns::start(alloc, task, limit, workers, most, view)?;
        Ok(Search { turns })
    }

    /// The worker takes the node that waits with the least estimate, and the least number among those, and gets a copy
    /// of its state.
    ///
    /// `Done` comes exactly where there is an answer, `NotYet` where there is none and no node may be taken now. Neither
    /// is an event. Without memory nothing changes.
    pub fn take(&mut self, alloc: Global, worker: u32) -> Result<Taken, NoMemory>
        requires worker { worker < self.old.workers }
        ensures terms { SameTerms self.old self.new }
        ensures ok { IfOk result (λ taken. Gets worker taken self.old self.new) }
        ensures err { OnErr result (self.new ≡ self.old) }
    {
        self.turns.take(alloc, worker)
    }

    /// The worker gives what the ground actions do in the state of its node, in their order. Without memory nothing
    /// changes.
    pub fn give(&mut self, worker: u32, node: u32, outcomes: List<Outcome>) -> Result<(), NoMemory>
        requires can { CanGive AnyDead worker node outcomes self.old }
        ensures ok { OnOk result (IsEvent (event.Give worker node) self.old self.new) }
        ensures err { OnErr result (self.new ≡ self.old) }
    {
        self.turns.give(worker, node, outcomes)
    }

    /// The worker found no memory, and stops. This takes none.
    pub fn starve(&mut self, worker: u32)
        requires worker { worker < self.old.workers }
        requires once { has_starved worker self.old.journal ≡ false }
        ensures { IsEvent (event.Starve worker) self.old self.new }
    {
        self.turns.starve(worker);
    }

    /// The answer, once there is one: a plan to the first goal node; a worker starved; and, where no node is taken, a
    /// lack of room, the limit of expansions, a number that left its range, or that no plan exists.
    pub fn answer(&self) -> Option<Answer>
        ensures value { result ≡ answer_in self.now }
        ensures claims { IfSome result (Claims self.now.table.task self.now.limit self.now.table.most self.now.journal (config_of self.now.table)) }
        ensures run { IsSearch self.now }
    {
        self.turns.answer()
    }

    /// The node that has this state.
    pub fn knows(&self, state: &State) -> Option<u32>
        ensures found { IfSome result (λ n. (x : Node StateValue) × IsAt self.now.table.nodes n x × (x.state ≡ state.now)) }
        ensures absent { IfNone result (IsNew self.now.table.nodes state.now) }
    {
        self.turns.knows(state)
    }

    /// The task.
    pub fn task(&self) -> &Task
        ensures { result.now ≡ self.now.table.task }
    {
        self.turns.task()
    }

    /// The number of events.
    pub fn events(&self) -> u64
        ensures { result ≡ length self.now.journal }
    {
        self.turns.events()
    }

    /// Ends the search. This takes no memory.
    pub fn finish(self) -> Record
        ensures value { result ≡ record_of self }
        ensures legal { self.table.most ≡ bounds → IsLegal self.table.task self.limit self.workers result }
    {
        let Search { turns } = self;
        let limit = turns.limit();
        let (found, journal) = turns.finish();
        Record {
            task: found.task,
            limit,
            nodes: found.nodes,
            boxes: found.boxes,
            over: found.over,
            full: found.full,
            journal,
        }
    }
}
