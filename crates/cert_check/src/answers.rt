//! The answer on a certificate.

ghost use Rattle.std.specs.Prelude.{◌≡◌, ◌≤◌, ℕ, List, length, All, IfOk};
ghost use Rattle.ground_task.specs.Tasks.{IsStateOf};
ghost use Rattle.ground_task.specs.Steps.{IsTaskPlan};
ghost use Rattle.box_model.specs.Boxes.{IsBoxOf};
ghost use Rattle.cert_check.specs.declared.answers.Checked.TheVariants.{Certified};
ghost use Rattle.cert_check.specs.Checks.{AreBoxesDead, IsChecked};

use crate::boxes::first_against_boxes;
use crate::index::Index;
use crate::laws::good_lines;
use crate::lines::first_against_states;
use cert_text::Cert;
use dead_ends::laws::good_certificates_exclude_plans;
use ground_task::{StateBuffer, Task};
use num_ends::NoMemory;
use search_runs::Site;
use std::alloc::Global;

/// What stands against a line of a certificate.
#[derive(Clone, Copy, Debug, PartialEq, Eq)]
pub enum Reason {
    /// The action of this number may be applied in the box, which doesn't meet a demand of it.
    Unmet(u32),
    /// The goal may hold in the box.
    MayGoal,
    /// The goal holds in the state.
    GoalHolds,
    /// The action of this number leads to a state that is on no state line and in no box.
    Successor(u32),
    /// A number leaves its range in the state.
    Over(Site),
    /// The initial state is on no state line and in no box.
    Initial,
}

/// The answer on a certificate.
#[derive(Clone, Copy, Debug, PartialEq, Eq)]
pub enum Checked {
    Certified,
    /// The first line against which something stands, from 1, and what stands first against it.
    Refused { line: u32, reason: Reason },
}

/// The answer behind the boxes, all of them dead.
fn behind_boxes(alloc: Global, task: &Task, cert: &Cert) -> Result<Checked, NoMemory>
    requires boxes { All (IsBoxOf task.now) cert.now.boxes }
    requires states { All (IsStateOf task.now) cert.now.states }
    requires few_boxes { length cert.now.boxes ≤ 1000000000 }
    requires few_states { length cert.now.states ≤ 1000000000 }
    requires dead { AreBoxesDead task.now cert.now.boxes }
    ensures { IfOk result (IsChecked task.now cert.now.boxes cert.now.states) }
{
    // The places of a task suffice.
    let _raw = task.raw();
    let index = Index::of(alloc, cert)?;
    let mut next = StateBuffer::new(alloc, task)?;
    if let Some((line, reason)) = first_against_states(task, &index, &mut next) {
        return Ok(Checked::Refused { line, reason });
    }
    if index.covers(task, task.first()) {
        good_lines();
        return Ok(Checked::Certified);
    }
    let line = 2 + cert.boxes.len() as u32 + cert.states.len() as u32;
    let reason = Reason::Initial;
    Ok(Checked::Refused { line, reason })
}

/// Whether a certificate is good and no number leaves its range on a state line of it; else the first line against which
/// something stands, and what stands first against it. A certified task has no plan.
pub fn check(alloc: Global, task: &Task, cert: &Cert) -> Result<Checked, NoMemory>
    requires boxes { All (IsBoxOf task.now) cert.now.boxes }
    requires states { All (IsStateOf task.now) cert.now.states }
    requires few_boxes { length cert.now.boxes ≤ 1000000000 }
    requires few_states { length cert.now.states ≤ 1000000000 }
    ensures answer { IfOk result (IsChecked task.now cert.now.boxes cert.now.states) }
    ensures no_plan { IfOk result (λ checked. checked ≡ Certified → (plan : List ℕ) → IsTaskPlan task.now plan → ⊥) }
{
    // The places of a task suffice.
    let _raw = task.raw();
    good_certificates_exclude_plans();
    if let Some((line, reason)) = first_against_boxes(task, cert.boxes.as_slice()) {
        return Ok(Checked::Refused { line, reason });
    }
    behind_boxes(alloc, task, cert)
}
