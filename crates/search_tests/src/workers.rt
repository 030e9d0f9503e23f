//! Searches by two workers, call by call.

ghost use Rattle.std.specs.Prelude.{◌≡◌, ◌<◌, ◌∷◌, [], true, IfOk, IfSome, OnErr};
ghost use Rattle.search_runs.specs.declared.events.Event.TheVariants as event;
ghost use Rattle.search_turns.specs.Turns.{SameTerms};
ghost use Rattle.search_core.specs.Searches.{HasTaken, IsEvent};

use crate::searches::{
    Ended, begun, discard_end, discard_search, discard_task, end, leads_to, task_of,
};
use explored::Most;
use ground_task::{State, Task};
use num_ends::NoMemory;
use search_alone::TaskViewer;
use search_core::{Search, Viewer};
use search_runs::{Answer, Event, Status};
use search_turns::Taken;
use std::alloc::Global;
use std::test::Fail;

/// What two workers do.
#[derive(Clone, Copy)]
enum Script {
    /// Each takes a node and gives it, one after the other, while the other asks for one.
    InTurn,
    /// Both have a node, and the second gives its node first.
    SideBySide,
    /// The second starves while the first has a node.
    StarvesAtWork,
    /// The first starves before a node is taken.
    StarvesAtOnce,
}

/// A script for a task, and what is to be found.
type Row = (
    Script,
    &'static str,
    &'static str,
    Answer,
    &'static [Event],
    &'static [Status],
);

const UP: &str = "(define (domain d) (:functions (x)) (:action inc :effect (increase (x) 1)))";

const DOWN_AND_UP: &str =
    "(define (domain d) (:functions (x)) (:action dec :effect (decrease (x) 1))
 (:action inc :effect (increase (x) 1)))";

const TO_0: &str = "(define (problem p) (:domain d) (:init (= (x) 0)) (:goal (>= (x) 0)))";

const TO_1: &str = "(define (problem p) (:domain d) (:init (= (x) 0)) (:goal (>= (x) 1)))";

const TO_2: &str = "(define (problem p) (:domain d) (:init (= (x) 0)) (:goal (>= (x) 2)))";

use Event::{Give, Start, Starve, Take};
use Status::{Closed, Goal, Waiting};

static ROWS: [Row; 6] = [
    (
        Script::InTurn,
        UP,
        TO_2,
        Answer::Plan(2),
        &[Start, Take(0, 0), Give(0, 0), Take(1, 1), Give(1, 1)],
        &[Closed, Closed, Goal],
    ),
    (
        Script::SideBySide,
        DOWN_AND_UP,
        TO_2,
        Answer::Plan(4),
        &[
            Start,
            Take(0, 0),
            Give(0, 0),
            Take(0, 2),
            Take(1, 1),
            Give(1, 1),
            Give(0, 2),
        ],
        &[Closed, Closed, Closed, Waiting(4), Goal],
    ),
    // a plan stands before the want of memory
    (
        Script::StarvesAtWork,
        UP,
        TO_1,
        Answer::Plan(1),
        &[Start, Take(0, 0), Starve(1), Give(0, 0)],
        &[Closed, Goal],
    ),
    (
        Script::StarvesAtWork,
        UP,
        TO_2,
        Answer::Starved,
        &[Start, Take(0, 0), Starve(1), Give(0, 0)],
        &[Closed, Waiting(1)],
    ),
    (
        Script::StarvesAtOnce,
        UP,
        TO_1,
        Answer::Starved,
        &[Start, Starve(0)],
        &[Waiting(1)],
    ),
    (
        Script::StarvesAtOnce,
        UP,
        TO_0,
        Answer::Plan(0),
        &[Start, Starve(0)],
        &[Goal],
    ),
];

// The worker takes a node; none where it gets none.
fn take(alloc: Global, search: &mut Search, worker: u32) -> Result<Option<(u32, State)>, NoMemory>
    requires worker { worker < search.old.workers }
    ensures terms { SameTerms search.old search.new }
    ensures event { IfOk result (λ job. IfSome job (λ p. IsEvent (event.Take worker p.0) search.old search.new)) }
    ensures taken { IfOk result (λ job. IfSome job (λ p. HasTaken worker p.0 p.1 search.new)) }
{
    match search.take(alloc, worker)? {
        Taken::Job(node, state) => Ok(Some((node, state))),
        Taken::NotYet(_) => Ok(None),
        Taken::Done => Ok(None),
    }
}

// Whether the worker asks for a node and is put off, since one is taken.
fn is_put_off(alloc: Global, search: &mut Search, worker: u32) -> Result<bool, NoMemory>
    requires worker { worker < search.old.workers }
    ensures terms { SameTerms search.old search.new }
    ensures same { IfOk result (λ yes. yes ≡ true → search.new ≡ search.old) }
{
    match search.take(alloc, worker)? {
        Taken::Job(_, _) => Ok(false),
        Taken::NotYet(taken) => Ok(taken == 1),
        Taken::Done => Ok(false),
    }
}

// Whether the worker asks for a node, and there is an answer.
fn is_done(alloc: Global, search: &mut Search, worker: u32) -> Result<bool, NoMemory>
    requires worker { worker < search.old.workers }
{
    let events = search.events();
    match search.take(alloc, worker)? {
        Taken::Job(_, _) => Ok(false),
        Taken::NotYet(_) => Ok(false),
        Taken::Done => Ok(search.events() == events),
    }
}

// A worker takes a node, the other is put off meanwhile, and the worker expands it.
fn expands<V: Viewer>(
    alloc: Global,
    search: &mut Search,
    viewer: &mut V,
    worker: u32,
    other: u32,
) -> Result<bool, NoMemory>
    requires worker { worker < search.old.workers }
    requires other { other < search.old.workers }
    requires of { V.of viewer.old ≡ search.old.table.task }
    ensures worker { search.new.workers ≡ search.old.workers }
    ensures of { V.of viewer.new ≡ search.new.table.task }
{
    let Some((node, state)) = take(alloc, search, worker)? else {
        return Ok(false);
    };
    if !is_put_off(alloc, search, other)? {
        return Ok(false);
    }
    search.expand(alloc, worker, node, &state, viewer)?;
    Ok(true)
}

fn in_turn<V: Viewer>(alloc: Global, search: &mut Search, viewer: &mut V) -> Result<bool, NoMemory>
    requires workers { search.old.workers ≡ 2 }
    requires of { V.of viewer.old ≡ search.old.table.task }
{
    let first = expands(alloc, search, viewer, 0, 1)?;
    let second = expands(alloc, search, viewer, 1, 0)?;
    let done = is_done(alloc, search, 0)?;
    Ok(first && second && done)
}

fn side_by_side<V: Viewer>(
    alloc: Global,
    search: &mut Search,
    viewer: &mut V,
) -> Result<bool, NoMemory>
    requires workers { search.old.workers ≡ 2 }
    requires of { V.of viewer.old ≡ search.old.table.task }
{
    let first = expands(alloc, search, viewer, 0, 1)?;
    let both = both_expand(alloc, search, viewer)?;
    Ok(first && both)
}

#[tactic(auto, using(crate::proofs::Taken::taken_beside))]
fn both_expand<V: Viewer>(
    alloc: Global,
    search: &mut Search,
    viewer: &mut V,
) -> Result<bool, NoMemory>
    requires workers { search.old.workers ≡ 2 }
    requires of { V.of viewer.old ≡ search.old.table.task }
{
    let Some((first, of_first)) = take(alloc, search, 0)? else {
        return Ok(false);
    };
    let Some((second, of_second)) = take(alloc, search, 1)? else {
        return Ok(false);
    };
    search.expand(alloc, 1, second, &of_second, viewer)?;
    search.expand(alloc, 0, first, &of_first, viewer)?;
    Ok(true)
}

#[tactic(auto, using(crate::proofs::Taken::taken_starving, crate::proofs::Taken::none_starved))]
fn starves_at_work<V: Viewer>(
    alloc: Global,
    search: &mut Search,
    viewer: &mut V,
) -> Result<bool, NoMemory>
    requires workers { search.old.workers ≡ 2 }
    requires begun { search.old.journal ≡ event.Start ∷ [] }
    requires of { V.of viewer.old ≡ search.old.table.task }
{
    let Some((node, state)) = take(alloc, search, 0)? else {
        return Ok(false);
    };
    search.starve(1);
    let starved = search.answer() == Some(Answer::Starved);
    search.expand(alloc, 0, node, &state, viewer)?;
    let done = is_done(alloc, search, 0)?;
    Ok(starved && done)
}

fn starves_at_once(alloc: Global, search: &mut Search) -> Result<bool, NoMemory>
    requires workers { search.old.workers ≡ 2 }
    requires begun { search.old.journal ≡ event.Start ∷ [] }
{
    search.starve(0);
    is_done(alloc, search, 1)
}

// Whether what is done by the script is answered as it should be.
fn follows<V: Viewer>(
    alloc: Global,
    search: &mut Search,
    viewer: &mut V,
    script: Script,
) -> Result<bool, NoMemory>
    requires workers { search.old.workers ≡ 2 }
    requires begun { search.old.journal ≡ event.Start ∷ [] }
    requires of { V.of viewer.old ≡ search.old.table.task }
{
    match script {
        Script::InTurn => in_turn(alloc, search, viewer),
        Script::SideBySide => side_by_side(alloc, search, viewer),
        Script::StarvesAtWork => starves_at_work(alloc, search, viewer),
        Script::StarvesAtOnce => starves_at_once(alloc, search),
    }
}

// The end of a search; none where a call was answered otherwise.
fn followed<V: Viewer>(
    alloc: Global,
    mut search: Search,
    viewer: &mut V,
    script: Script,
) -> Result<Option<Ended>, NoMemory>
    requires workers { search.workers ≡ 2 }
    requires begun { search.journal ≡ event.Start ∷ [] }
    requires of { V.of viewer.old ≡ search.table.task }
{
    match follows(alloc, &mut search, viewer, script) {
        Ok(true) => Ok(Some(end(search))),
        Ok(false) => {
            discard_search(search);
            Ok(None)
        }
        Err(fault) => {
            discard_search(search);
            Err(fault)
        }
    }
}

fn followed_by<V: Viewer + Drop>(
    alloc: Global,
    task: Task,
    script: Script,
    mut viewer: V,
) -> Result<Option<Ended>, NoMemory>
    requires of { V.of viewer ≡ task }
{
    let most = Most {
        states: 100,
        boxes: 100,
    };
    let search = begun(alloc, task, 100, 2, most, &mut viewer)?;
    followed(alloc, search, &mut viewer, script)
}

fn followed_with(
    alloc: Global,
    task: Task,
    script: Script,
    seen: &Task,
) -> Result<Option<Ended>, NoMemory>
    requires same { seen.now ≡ task }
{
    match TaskViewer::new(alloc, seen) {
        Ok(viewer) => followed_by(alloc, task, script, viewer),
        Err(fault) => {
            discard_task(task);
            Err(fault)
        }
    }
}

fn end_of(alloc: Global, task: Task, script: Script) -> Result<Option<Ended>, NoMemory> {
    match task.copy(alloc) {
        Ok(seen) => followed_with(alloc, task, script, &seen),
        Err(fault) => {
            discard_task(task);
            Err(fault)
        }
    }
}

// Whether the two workers of a row find what they should.
fn is_right(alloc: Global, row: Row) -> Result<bool, NoMemory> {
    let (script, domain, problem, answer, events, statuses) = row;
    let Some(task) = task_of(alloc, domain, problem) else {
        return Ok(false);
    };
    match end_of(alloc, task, script)? {
        Some(ended) => {
            let same = ended.answer == Some(answer) && leads_to(&ended.record, events, statuses);
            discard_end(ended);
            Ok(same)
        }
        None => Ok(false),
    }
}

#[test]
fn two_workers_search(rt: HostRuntime) -> Result<(), Fail> {
    for (i, row) in ROWS.iter().enumerate() {
        assert!(rt; is_right(rt.alloc(), *row)?, "row {i}");
    }
    Ok(())
}
