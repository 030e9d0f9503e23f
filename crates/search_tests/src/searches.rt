//! Searches of the tasks of texts, by one worker.

ghost use Rattle.std.specs.Prelude.{◌≡◌, ◌<◌, ◌≤◌, IfOk};
ghost use Rattle.explored.specs.declared.classes.Most.{Most};
ghost use Rattle.dead_ends.specs.Reachable.{initial_state};
ghost use Rattle.search_records.specs.Spaces.{LeastDead};
ghost use Rattle.search_core.specs.Searches.{IsBegun};
ghost use Rattle.search_core.specs.Views.{IsRightView};

use explored::Most;
use ground_task::{State, Task};
use num_ends::NoMemory;
use pair_task::read_task;
use search_alone::TaskViewer;
use search_core::{Search, Viewer};
use search_nodes::View;
use search_records::Record;
use search_runs::{Answer, Event, Node, Status};
use search_turns::Taken;
use std::alloc::Global;

/// The answer of a search, and its record.
#[derive(Drop)]
pub(crate) struct Ended {
    pub(crate) answer: Option<Answer>,
    pub(crate) record: Record,
}

/// Lets a task go.
pub(crate) fn discard_task(_task: Task) {}

/// Lets a search go.
pub(crate) fn discard_search(_search: Search) {}

/// The ground task of two texts; none where they have none or are long.
pub(crate) fn task_of(alloc: Global, domain: &str, problem: &str) -> Option<Task> {
    if domain.len() > 1024 || problem.len() > 1024 {
        return None;
    }
    read_task(alloc, domain.as_bytes(), problem.as_bytes()).ok()
}

// The view of the initial state.
fn first_view<V: Viewer>(alloc: Global, task: &Task, viewer: &mut V) -> Result<View, NoMemory>
    requires of { V.of viewer.old ≡ task.now }
    ensures of { V.of viewer.new ≡ V.of viewer.old }
    ensures right { IfOk result (IsRightView LeastDead task.now (initial_state task.now)) }
{
    viewer.full(alloc, task.first())
}

/// A search that begins.
#[tactic(auto, using(crate::proofs::Views::wider_view))]
pub(crate) fn begun<V: Viewer>(
    alloc: Global,
    task: Task,
    limit: u32,
    workers: u32,
    most: Most,
    viewer: &mut V,
) -> Result<Search, NoMemory>
    requires of { V.of viewer.old ≡ task }
    requires workers { workers ≤ 1000000 }
    requires room { 0 < most.states }
    requires box_room { 0 < most.boxes }
    requires states { most.states ≤ 1000000000 }
    requires boxes { most.boxes ≤ 1000000000 }
    ensures of { V.of viewer.new ≡ V.of viewer.old }
    ensures begun { IfOk result (IsBegun task limit workers most) }
{
    match first_view(alloc, &task, viewer) {
        Ok(view) => Search::start_within(alloc, task, limit, workers, most, view),
        Err(fault) => {
            discard_task(task);
            Err(fault)
        }
    }
}

// The first worker takes a node and expands it; false where it gets none.
fn round<V: Viewer>(alloc: Global, search: &mut Search, viewer: &mut V) -> Result<bool, NoMemory>
    requires worker { 0 < search.old.workers }
    requires of { V.of viewer.old ≡ search.old.table.task }
    ensures worker { search.new.workers ≡ search.old.workers }
    ensures of { V.of viewer.new ≡ search.new.table.task }
{
    match search.take(alloc, 0)? {
        Taken::Job(node, state) => {
            search.expand(alloc, 0, node, &state, viewer)?;
            Ok(true)
        }
        Taken::NotYet(_) => Ok(false),
        Taken::Done => Ok(false),
    }
}

// Nodes are taken and expanded until none is given out, eight at most.
fn run<V: Viewer>(alloc: Global, search: &mut Search, viewer: &mut V) -> Result<(), NoMemory>
    requires worker { 0 < search.old.workers }
    requires of { V.of viewer.old ≡ search.old.table.task }
{
    'rounds: for _round in 0..8 {
        if !round(alloc, search, viewer)? {
            return Ok(());
        }
    }
    Ok(())
}

/// Ends a search.
pub(crate) fn end(search: Search) -> Ended {
    Ended {
        answer: search.answer(),
        record: search.finish(),
    }
}

fn run_through<V: Viewer>(
    alloc: Global,
    mut search: Search,
    viewer: &mut V,
) -> Result<Ended, NoMemory>
    requires worker { 0 < search.workers }
    requires of { V.of viewer.old ≡ search.table.task }
{
    match run(alloc, &mut search, viewer) {
        Ok(()) => Ok(end(search)),
        Err(fault) => {
            discard_search(search);
            Err(fault)
        }
    }
}

fn searched_by<V: Viewer + Drop>(
    alloc: Global,
    task: Task,
    limit: u32,
    most: Most,
    mut viewer: V,
) -> Result<Ended, NoMemory>
    requires of { V.of viewer ≡ task }
    requires room { 0 < most.states }
    requires box_room { 0 < most.boxes }
    requires states { most.states ≤ 1000000000 }
    requires boxes { most.boxes ≤ 1000000000 }
{
    let search = begun(alloc, task, limit, 1, most, &mut viewer)?;
    run_through(alloc, search, &mut viewer)
}

fn searched_with(
    alloc: Global,
    task: Task,
    limit: u32,
    most: Most,
    seen: &Task,
) -> Result<Ended, NoMemory>
    requires same { seen.now ≡ task }
    requires room { 0 < most.states }
    requires box_room { 0 < most.boxes }
    requires states { most.states ≤ 1000000000 }
    requires boxes { most.boxes ≤ 1000000000 }
{
    match TaskViewer::new(alloc, seen) {
        Ok(viewer) => searched_by(alloc, task, limit, most, viewer),
        Err(fault) => {
            discard_task(task);
            Err(fault)
        }
    }
}

/// The search of a task by one worker, with such bounds.
pub(crate) fn searched(alloc: Global, task: Task, limit: u32, most: Most) -> Result<Ended, NoMemory>
    requires room { 0 < most.states }
    requires box_room { 0 < most.boxes }
    requires states { most.states ≤ 1000000000 }
    requires boxes { most.boxes ≤ 1000000000 }
{
    match task.copy(alloc) {
        Ok(seen) => searched_with(alloc, task, limit, most, &seen),
        Err(fault) => {
            discard_task(task);
            Err(fault)
        }
    }
}

fn has_statuses(nodes: &[Node<State>], statuses: &[Status]) -> bool {
    nodes.len() == statuses.len()
        && nodes
            .iter()
            .zip(statuses.iter())
            .all(|(node, status)| node.status == *status)
}

/// Whether the events of a record are these, and the statuses of its nodes.
pub(crate) fn leads_to(found: &Record, events: &[Event], statuses: &[Status]) -> bool {
    found.journal.as_slice() == events && has_statuses(found.nodes.as_slice(), statuses)
}

/// Lets the end of a search go.
pub(crate) fn discard_end(_ended: Ended) {}
