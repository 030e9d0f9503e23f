//! The lines of a text.

ghost use Rattle.std.specs.Prelude.{◌≡◌, ◌<◌, ◌≤◌, ◌+◌, ◌++◌, [], ◌∷◌, All, length, map, slice_index_or, OnOk};
ghost use Rattle.ground_task.specs.Tasks.{IsStateOf, TaskValue};
ghost use Rattle.box_model.specs.Boxes.{IsBoxOf};
ghost use Rattle.answer_text.specs.Texts.{action_text, certificate_lines, claim_lines, step_line};
ghost use Rattle.answer_text.specs.internal.Listed.{AreFew, AreReady, lines_of};

use box_model::StateBox;
use cert_text::{write_box_short, write_state};
use ground_task::{State, Task};
use num_ends::{List, NoMemory};
use std::alloc::Global;

/// The lines of a text, of which each is made when it is wanted.
#[derive(Drop)]
pub(crate) enum Lines<'a> {
    /// A line, and the lines of these ground actions.
    Steps(List<u8>, List<u32>),
    /// The lines of the certificate of these boxes and states.
    Certificate(&'a [StateBox], Vec<&'a State>),
}

/// Appends the name of a ground action.
pub(crate) fn append_action(task: &Task, action: u32, out: &mut List<u8>) -> Result<(), NoMemory>
    ensures { OnOk result (out.new ≡ out.old ++ action_text task.now action) }
{
    match task.raw().actions.as_slice().get(action as usize) {
        Some(action) => out.extend_from_slice(action.name.as_slice()),
        None => Ok(()),
    }
}

fn append_step(task: &Task, action: u32, out: &mut List<u8>) -> Result<(), NoMemory>
    ensures { OnOk result (out.new ≡ out.old ++ step_line task.now action) }
{
    append_action(task, action, out)?;
    out.extend_from_slice(b"\n")
}

/// Appends a line behind the first of a certificate.
#[tactic(auto, using(crate::proofs::Listing::box_at, crate::proofs::Listing::state_at, crate::proofs::Listing::end_at))]
fn append_claim(
    alloc: Global,
    task: &Task,
    boxes: &[StateBox],
    states: &[&State],
    number: usize,
    out: &mut List<u8>,
) -> Result<(), NoMemory>
    requires boxes { All (IsBoxOf task.now) boxes.now }
    requires states { All (λ s. IsStateOf task.now s.now) states.now }
    requires known { number ≤ length boxes.now + length states.now }
    ensures { OnOk result (out.new ≡ out.old ++ slice_index_or (claim_lines task.now boxes.now (map (λ s. s.now) states.now)) number []) }
{
    if number < boxes.len() {
        return write_box_short(alloc, task, &boxes[number], out);
    }
    let place = number - boxes.len();
    if place < states.len() {
        return write_state(alloc, task, states[place], out);
    }
    out.extend_from_slice(b"end\n")
}

/// Appends a line of a certificate.
#[tactic(auto, using(crate::proofs::Listing::first_line, crate::proofs::Listing::behind))]
fn append_certified(
    alloc: Global,
    task: &Task,
    boxes: &[StateBox],
    states: &[&State],
    number: usize,
    out: &mut List<u8>,
) -> Result<(), NoMemory>
    requires boxes { All (IsBoxOf task.now) boxes.now }
    requires states { All (λ s. IsStateOf task.now s.now) states.now }
    requires known { number < length boxes.now + length states.now + 2 }
    ensures { OnOk result (out.new ≡ out.old ++ slice_index_or (certificate_lines task.now boxes.now (map (λ s. s.now) states.now)) number []) }
{
    if number == 0 {
        return out.extend_from_slice(b"UNSOLVABLE 2\n");
    }
    append_claim(alloc, task, boxes, states, number - 1, out)
}

/// Appends a line of a path with a line before it.
#[tactic(auto, using(crate::proofs::Listing::first_line, crate::proofs::Listing::step_at))]
fn append_listed(
    task: &Task,
    head: &[u8],
    path: &[u32],
    number: usize,
    out: &mut List<u8>,
) -> Result<(), NoMemory>
    requires known { number < length path.now + 1 }
    ensures { OnOk result (out.new ≡ out.old ++ slice_index_or (head.now ∷ map (step_line task.now) path.now) number []) }
{
    if number == 0 {
        return out.extend_from_slice(head);
    }
    append_step(task, path[number - 1], out)
}

impl<'a> Lines<'a> {
    /// The number of lines.
    #[tactic(auto, using(crate::proofs::Listing::count_steps, crate::proofs::Listing::count_refs))]
    pub(crate) fn count(&self) -> usize
        requires few { AreFew self.now }
        ensures { (t : TaskValue) → result ≡ length (lines_of t self.now) }
    {
        match self {
            Lines::Steps(_, path) => path.len() + 1,
            Lines::Certificate(boxes, states) => boxes.len() + states.len() + 2,
        }
    }

    /// Appends the line of this number. Without memory a part of it may be there.
    #[tactic(auto, using(crate::proofs::Listing::count_steps, crate::proofs::Listing::count_refs))]
    pub(crate) fn write(
        &self,
        alloc: Global,
        task: &Task,
        number: usize,
        out: &mut List<u8>,
    ) -> Result<(), NoMemory>
        requires ready { AreReady task.now self.now }
        requires known { number < length (lines_of task.now self.now) }
        ensures { OnOk result (out.new ≡ out.old ++ slice_index_or (lines_of task.now self.now) number []) }
    {
        match self {
            Lines::Steps(head, path) => {
                append_listed(task, head.as_slice(), path.as_slice(), number, out)
            }
            Lines::Certificate(boxes, states) => {
                append_certified(alloc, task, boxes, states.as_slice(), number, out)
            }
        }
    }
}
