//! A node is taken and expanded, until there is an answer.

ghost use Rattle.std.specs.Prelude.{◌≡◌, ◌≢◌, false, Some, IfOk, OnOk};
ghost use Rattle.dead_ends.specs.Reachable.{initial_state};
ghost use Rattle.search_records.specs.Records.{IsPlain, answer_in, bounds};
ghost use Rattle.search_records.specs.Spaces.{LeastDead};
ghost use Rattle.search_core.specs.Searches.{HasTaken, IsEvent, IsPlainlyGiven};
ghost use Rattle.search_runs.specs.Runs.{has_starve};
ghost use Rattle.search_runs.specs.declared.answers.Answer.TheVariants as answer;
ghost use Rattle.search_runs.specs.declared.events.Event.TheVariants as event;
ghost use Rattle.search_core.specs.Views.{IsRightView};
ghost use Rattle.search_alone.specs.Found.{IsFound};
ghost use Rattle.search_alone.specs.Rounds.{IsFed, IsRound};

use crate::task_viewer::TaskViewer;
use ground_task::{State, Task};
use num_ends::NoMemory;
use search_core::{Search, Viewer};
use search_nodes::View;
use search_records::Record;
use search_turns::Taken;
use std::alloc::Global;

fn discard_task(_task: Task) {}

fn discard_search(_search: Search) {}

// expands a node that was taken
fn expand<V: Viewer>(
    alloc: Global,
    search: &mut Search,
    viewer: &mut V,
    node: u32,
    state: State,
) -> Result<(), NoMemory>
    requires taken { HasTaken 0 node state search.old }
    requires task { V.of viewer.old ≡ search.old.table.task }
    ensures task { V.of viewer.new ≡ V.of viewer.old }
    ensures ok { OnOk result (IsEvent (event.Give 0 node) search.old search.new × IsPlainlyGiven 0 node search.old search.new) }
{
    search.expand(alloc, 0, node, &state, viewer)
}

// takes a node and expands it, and tells whether there was no answer yet
fn round<V: Viewer>(alloc: Global, search: &mut Search, viewer: &mut V) -> Result<bool, NoMemory>
    requires fed { IsFed search.old }
    requires task { V.of viewer.old ≡ search.old.table.task }
    ensures task { V.of viewer.new ≡ V.of viewer.old }
    ensures ok { IfOk result (λ more. IsRound more search.old search.new) }
{
    match search.take(alloc, 0)? {
        Taken::Job(node, state) => {
            expand(alloc, search, viewer, node, state)?;
            Ok(true)
        }
        Taken::NotYet(_) => Ok(false),
        Taken::Done => Ok(false),
    }
}

// nodes are taken and expanded until there is an answer
fn run<V: Viewer>(alloc: Global, search: &mut Search, viewer: &mut V) -> Result<(), NoMemory>
    requires fed { IsFed search.old }
    requires task { V.of viewer.old ≡ search.old.table.task }
    ensures ok { OnOk result (IsRound false search.old search.new) }
{
    'rounds: while round(alloc, search, viewer)? {}
    Ok(())
}

// a search that has begun
fn finish<V: Viewer>(alloc: Global, mut search: Search, viewer: &mut V) -> Result<Record, NoMemory>
    requires fed { IsFed search }
    requires bounds { search.table.most ≡ bounds }
    requires task { V.of viewer.old ≡ search.table.task }
    ensures { IfOk result (IsFound search.table.task search.limit) }
{
    match run(alloc, &mut search, viewer) {
        Ok(()) => Ok(search.finish()),
        Err(fault) => {
            discard_search(search);
            Err(fault)
        }
    }
}

// the view of the initial state
fn first_view<V: Viewer>(alloc: Global, task: &Task, viewer: &mut V) -> Result<View, NoMemory>
    requires { V.of viewer.old ≡ task.now }
    ensures task { V.of viewer.new ≡ V.of viewer.old }
    ensures right { IfOk result (IsRightView LeastDead task.now (initial_state task.now)) }
{
    viewer.full(alloc, task.first())
}

// the search of a task, whose states the viewer looks at
fn solve_by<V: Viewer + Drop>(
    alloc: Global,
    task: Task,
    limit: u32,
    mut viewer: V,
) -> Result<Record, NoMemory>
    requires { V.of viewer ≡ task }
    ensures { IfOk result (IsFound task limit) }
{
    match first_view(alloc, &task, &mut viewer) {
        Ok(view) => {
            let search = Search::start(alloc, task, limit, 1, view)?;
            finish(alloc, search, &mut viewer)
        }
        Err(fault) => {
            discard_task(task);
            Err(fault)
        }
    }
}

// the search of a task, of which there is a copy
fn solve_seen(alloc: Global, task: Task, limit: u32, seen: &Task) -> Result<Record, NoMemory>
    requires { seen.now ≡ task }
    ensures { IfOk result (IsFound task limit) }
{
    match TaskViewer::new(alloc, seen) {
        Ok(viewer) => solve_by(alloc, task, limit, viewer),
        Err(fault) => {
            discard_task(task);
            Err(fault)
        }
    }
}

/// Searches a task on this thread, and ends at the first answer: at most `limit` nodes are expanded, 500,000 states and
/// 40,000 dead boxes kept.
///
/// The record is the one of a search that takes a node only where none is taken, keeps least closed boxes alone and never
/// starves: there is no other but for the form of its boxes. It has an answer. Want of memory ends the search without a
/// record.
#[tactic(auto, using(crate::proofs::Answered::found_plain, crate::proofs::Answered::found_unstarved, crate::proofs::Answered::found_answered))]
pub fn solve_alone(alloc: Global, task: Task, limit: u32) -> Result<Record, NoMemory>
    ensures plain { IfOk result (IsPlain task limit) }
    ensures unstarved { IfOk result (λ r. has_starve r.journal ≡ false) }
    ensures answered { IfOk result (λ r. answer_in r ≢ Some answer.Starved) }
{
    match task.copy(alloc) {
        Ok(seen) => solve_seen(alloc, task, limit, &seen),
        Err(fault) => {
            discard_task(task);
            Err(fault)
        }
    }
}
