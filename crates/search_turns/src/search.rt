//! A search with its journal.

ghost use Rattle.std.specs.Prelude.{◌≡◌, ◌≤◌, [], ◌∷◌, length, IfOk};
ghost use Rattle.ground_task.specs.Tasks.{first_state};
ghost use Rattle.search_nodes.specs.Growth.{FitsState, FitsView};
ghost use Rattle.search_nodes.specs.Tables.{config_of};
ghost use Rattle.search_runs.specs.Nodes.{nothing};
ghost use Rattle.search_runs.specs.declared.events.Event.TheVariants as event;
ghost use Rattle.search_turns.specs.Turns.{HasFirst, IsStarted};

use crate::turns::{make_room, record};
use explored::Most;
use ground_task::{State, Task};
use num_ends::NoMemory;
use search_nodes::{SearchNodes, View};
use search_runs::Event;
use std::alloc::Global;
use std::marker::Model;

/// A search of a task by workers, with the events so far.
#[derive(Drop)]
pub struct SearchTurns {
    pub(crate) nodes: SearchNodes,
    pub(crate) limit: u32,
    pub(crate) workers: u32,
    pub(crate) journal: Vec<Event>,
    pub(crate) takes: u32,
    pub(crate) starved: bool,
}

impl Model for SearchTurns {
    ghost use Rattle.ground_task.specs.contracts.raw.GCond as cond;
    ghost use Rattle.ground_task.specs.contracts.raw.GExpr as expr;
    ghost use Rattle.std.specs.Coded.{codes};
    ghost use Rattle.std.specs.Prelude.{vec_len, vec_capacity};
    ghost use Rattle.search_turns.specs.Turns.{Turns, AreCounted};

    ghost Value = { Turns };

    ghost coded = { Prim.hlevel (codes, cond.the_row.coded, expr.the_row.coded) };

    ghost view = { λ s. record { table = s.nodes; limit = s.limit; workers = s.workers; journal = s.journal.items } };

    ghost invariant = { λ s. AreCounted s.journal.items s.limit s.workers s.takes s.starved (vec_len s.journal) (vec_capacity s.journal) };
}

fn discard_task(_task: Task) {}

fn discard_view(_view: View) {}

fn discard_nodes(_nodes: SearchNodes) {}

// the nodes once the initial state has become node 0
fn first_node(alloc: Global, task: Task, most: Most, view: View) -> Result<SearchNodes, NoMemory>
    requires states { most.states ≤ 1000000000 }
    requires boxes { most.boxes ≤ 1000000000 }
    requires fits { FitsView task view }
    ensures { IfOk result (HasFirst task most view) }
{
    match task.first().copy(alloc) {
        Ok(state) => enter_first(SearchNodes::new(alloc, task, most), state, view),
        Err(fault) => {
            discard_task(task);
            discard_view(view);
            Err(fault)
        }
    }
}

fn enter_first(mut nodes: SearchNodes, state: State, view: View) -> Result<SearchNodes, NoMemory>
    requires none { config_of nodes ≡ nothing }
    requires first { state ≡ first_state nodes.task.raw nodes.task.places }
    requires of_task { FitsState nodes.task state }
    requires fits { FitsView nodes.task view }
    ensures { IfOk result (HasFirst nodes.task nodes.most view) }
{
    match nodes.enter(state, 0, 0, view) {
        Ok(()) => Ok(nodes),
        Err(fault) => {
            discard_nodes(nodes);
            Err(fault)
        }
    }
}

// the search of these nodes, with the start as its only event
fn begin(
    alloc: Global,
    nodes: SearchNodes,
    limit: u32,
    workers: u32,
) -> Result<SearchTurns, NoMemory>
    requires workers { workers ≤ 1000000 }
    ensures { IfOk result (λ turns. turns ≡ record { table = nodes; limit = limit; workers = workers; journal = event.Start ∷ [] }) }
{
    let mut journal = Vec::new(alloc);
    match make_room(&mut journal, workers) {
        Ok(()) => {}
        Err(fault) => {
            discard_nodes(nodes);
            return Err(fault);
        }
    }
    record(&mut journal, Event::Start);
    Ok(SearchTurns {
        nodes,
        limit,
        workers,
        journal,
        takes: 0,
        starved: false,
    })
}

impl SearchTurns {
    /// A search whose first event is the start: the initial state becomes node 0, by this view of it.
    ///
    /// At most `limit` nodes are taken, and `most` states and boxes are kept.
    pub fn start(
        alloc: Global,
        task: Task,
        limit: u32,
        workers: u32,
        most: Most,
        view: View,
    ) -> Result<SearchTurns, NoMemory>
        requires workers { workers ≤ 1000000 }
        requires states { most.states ≤ 1000000000 }
        requires boxes { most.boxes ≤ 1000000000 }
        requires fits { FitsView task view }
        ensures { IfOk result (IsStarted task limit workers most view) }
    {
        let nodes = first_node(alloc, task, most, view)?;
        begin(alloc, nodes, limit, workers)
    }

    /// The task.
    pub fn task(&self) -> &Task
        ensures { result.now ≡ self.now.table.task }
    {
        self.nodes.task()
    }

    /// The number of events.
    pub fn events(&self) -> u64
        ensures { result ≡ length self.now.journal }
    {
        self.journal.len() as u64
    }
}
