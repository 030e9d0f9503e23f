//! The least closed box of a task, and what it says of the goal.

ghost use Rattle.std.specs.Prelude.{◌≡◌, IfOk};
ghost use Rattle.ground_task.specs.Tasks.{first_state};
ghost use Rattle.box_model.specs.Boxes.{IsBoxOf};
ghost use Rattle.box_model.specs.Least.{IsLeastClosed};
ghost use Rattle.relax_command.specs.Relaxations.{IsTaskAnswer, box_answer};

use box_model::StateBox;
use cert_text::write_box;
use ground_task::Task;
use num_ends::{List, NoMemory};
use relax_plain::least_box;
use run_answers::Answer;
use std::alloc::Global;

/// The least closed box above the initial state of a task.
fn first_box(alloc: Global, task: &Task) -> Result<StateBox, NoMemory>
    ensures { IfOk result (IsLeastClosed task.now (first_state task.now.raw task.now.places)) }
{
    least_box(alloc, task, task.first())
}

/// Whether the goal is met or missed in a box, and the line of the box.
fn box_answer(alloc: Global, task: &Task, part: &StateBox) -> Result<Answer, NoMemory>
    requires { IsBoxOf task.now part.now }
    ensures { IfOk result (λ answer. answer ≡ box_answer task.now part.now) }
{
    let mut text = List::new(alloc);
    let status = if part.misses_goal(task) {
        text.extend_from_slice(b"MISSED\n")?;
        1
    } else {
        text.extend_from_slice(b"MET\n")?;
        0
    };
    write_box(alloc, task, part, &mut text)?;
    Ok(Answer { status, text })
}

/// What is answered of a task: whether its goal is met or missed in its least closed box, and the line of that box.
pub(crate) fn task_answer(alloc: Global, task: &Task) -> Result<Answer, NoMemory>
    ensures { IfOk result (IsTaskAnswer task.now) }
{
    let part = first_box(alloc, task)?;
    box_answer(alloc, task, &part)
}
