//! Paths to nodes, and the lines of their steps.

ghost use Rattle.std.specs.Prelude.{◌≡◌, ◌<◌, ◌≤◌, ◌++◌, ℕ, codes, decimal, length, IfOk, OnOk};
ghost use Rattle.ground_task.specs.States.{StateValue};
ghost use Rattle.search_runs.specs.Answers.{path_to};
ghost use Rattle.search_runs.specs.Spaces.{IsAt};
ghost use Rattle.search_runs.specs.declared.nodes.Node.{Node};
ghost use Rattle.search_records.specs.Records.{AreParents};
ghost use Rattle.answer_text.specs.Texts.{site_text};

use crate::lines::append_action;
use ground_task::{State, Task};
use itoa::Buffer;
use num_ends::{List, NoMemory};
use search_runs::{Node, Site};
use std::alloc::Global;

/// The actions that lead from the first node to this one.
#[tactic(auto, using(crate::proofs::Path::up, crate::proofs::Path::parent_below))]
pub(crate) fn path_to(
    alloc: Global,
    nodes: &[Node<State>],
    node: u32,
) -> Result<List<u32>, NoMemory>
    requires known { node < length nodes.now }
    requires parents { AreParents nodes.now }
    ensures path { IfOk result (λ path. path ≡ path_to nodes.now node) }
    ensures few { IfOk result (λ path. length path ≤ node) }
{
    let mut path = Vec::new(alloc);
    let mut at = node as usize;
    'up: while at > 0 {
        path.push(nodes[at].via)?;
        at = nodes[at].parent as usize;
    }
    path.reverse();
    Ok(List::from_vec(path))
}

/// Appends a number in decimal.
pub(crate) fn append_number(out: &mut List<u8>, number: u64) -> Result<(), NoMemory>
    ensures { OnOk result (out.new ≡ out.old ++ decimal number) }
{
    let mut buffer = Buffer::new();
    out.extend_from_slice(buffer.format(number).as_bytes())
}

/// A line that ends with a number.
pub(crate) fn numbered(alloc: Global, words: &[u8], number: u64) -> Result<List<u8>, NoMemory>
    ensures { IfOk result (λ line. line ≡ words.now ++ decimal number ++ codes "\n") }
{
    let mut line = List::new(alloc);
    line.extend_from_slice(words)?;
    append_number(&mut line, number)?;
    line.extend_from_slice(b"\n")?;
    Ok(line)
}

fn append_site(task: &Task, site: Site, out: &mut List<u8>) -> Result<(), NoMemory>
    ensures { OnOk result (out.new ≡ out.old ++ site_text task.now site) }
{
    match site {
        Site::Goal => out.extend_from_slice(b"goal"),
        Site::Action(action) => append_action(task, action, out),
    }
}

/// The line of what leaves the range of numbers.
pub(crate) fn overflow_line(alloc: Global, task: &Task, site: Site) -> Result<List<u8>, NoMemory>
    ensures { IfOk result (λ line. line ≡ codes "OVERFLOW " ++ site_text task.now site ++ codes "\n") }
{
    let mut line = List::new(alloc);
    line.extend_from_slice(b"OVERFLOW ")?;
    append_site(task, site, &mut line)?;
    line.extend_from_slice(b"\n")?;
    Ok(line)
}
