//! The states and boxes of a certificate, made to be searched.

ghost use Rattle.std.specs.Prelude.{◌≡◌, ◌++◌, [], ◌∷◌, ℕ, false, All, IfOk, IsTrue, OnOk};
ghost use Rattle.std.specs.List.{list_any};
ghost use Rattle.ground_task.specs.Orders.{is_same_state};
ghost use Rattle.ground_task.specs.Tasks.{IsStateOf};
ghost use Rattle.box_model.specs.Boxes.{Contains, IsBoxOf};
ghost use Rattle.box_model.specs.declared.state_box.StateBox.{StateBox};
ghost use Rattle.dead_ends.specs.Certificates.{IsCovered};
ghost use Rattle.search_runs.specs.KeptBoxes.{IsInNone};
ghost use Rattle.search_runs.specs.Spaces.{IsAt};

use crate::set::StateSet;
use box_model::StateBox;
use cert_text::Cert;
use ground_task::{State, Task};
use kept_boxes::KeptBoxes;
use num_ends::{List, NoMemory};
use std::alloc::Global;
use std::marker::Model;

const MAX_BOXES: u32 = 1_000_000_000;

/// A certificate with its states found by hash and its boxes found by hulls. Contracts see the certificate.
#[derive(Drop)]
pub(crate) struct Index<'a> {
    cert: &'a Cert,
    states: StateSet<'a>,
    boxes: KeptBoxes,
}

impl<'a> Model for Index<'a> {
    ghost use Rattle.std.specs.Prelude.{◌≡◌};
    ghost use Rattle.cert_text.specs.declared.cert.Cert.{Cert};
    ghost use Rattle.cert_check.specs.Sets.{HasSame};

    ghost Value = { Cert };

    ghost view = { λ index. index.cert.now };

    ghost invariant = { λ index. (index.boxes ≡ index.cert.now.boxes) × HasSame index.states index.cert.now.states };
}

/// Adds a copy of a box.
fn push_copy(alloc: Global, boxes: &mut KeptBoxes, own: &StateBox) -> Result<(), NoMemory>
    ensures { OnOk result (boxes.new ≡ boxes.old ++ own.now ∷ []) }
{
    if boxes.len() >= MAX_BOXES {
        return Err(NoMemory);
    }
    let facts = List::from_vec(Vec::from_slice(alloc, own.facts.as_slice())?);
    let fluents = List::from_vec(Vec::from_slice(alloc, own.fluents.as_slice())?);
    boxes.push(StateBox { facts, fluents })
}

/// A list of boxes, to be searched.
fn kept(alloc: Global, boxes: &[StateBox]) -> Result<KeptBoxes, NoMemory>
    ensures { IfOk result (λ kept. kept ≡ boxes.now) }
{
    let mut kept = KeptBoxes::new(alloc);
    'each: for own in boxes {
        push_copy(alloc, &mut kept, own)?;
    }
    Ok(kept)
}

impl<'a> Index<'a> {
    /// The index of a certificate.
    pub(crate) fn of(alloc: Global, cert: &'a Cert) -> Result<Index<'a>, NoMemory>
        ensures { IfOk result (λ index. index ≡ cert.now) }
    {
        let states = StateSet::of(alloc, cert.states.as_slice())?;
        let boxes = kept(alloc, cert.boxes.as_slice())?;
        Ok(Index {
            cert,
            states,
            boxes,
        })
    }

    /// The certificate.
    pub(crate) fn cert(&self) -> &Cert
        ensures { result.now ≡ self.now }
    {
        self.cert
    }

    /// Whether the state is on a state line.
    fn is_listed(&self, state: &State) -> bool
        ensures { result ≡ list_any (is_same_state state.now) self.now.states }
    {
        self.states.has(state)
    }

    /// Whether the state is in a box.
    fn is_in_box(&self, task: &Task, state: &State) -> bool
        requires boxes { All (IsBoxOf task.now) self.now.boxes }
        requires of_task { IsStateOf task.now state.now }
        ensures there { IsTrue result → (b : ℕ) × (box : StateBox) × IsAt self.now.boxes b box × Contains task.now.places box state.now }
        ensures absent { result ≡ false → IsInNone (Contains task.now.places) self.now.boxes state.now }
    {
        match self.boxes.first(task, state) {
            Some(_) => true,
            None => false,
        }
    }

    /// Whether the state is on a state line, or in a box.
    pub(crate) fn covers(&self, task: &Task, state: &State) -> bool
        requires boxes { All (IsBoxOf task.now) self.now.boxes }
        requires of_task { IsStateOf task.now state.now }
        ensures covered { IsTrue result → IsCovered task.now self.now.boxes self.now.states state.now }
        ensures missing { result ≡ false → IsCovered task.now self.now.boxes self.now.states state.now → ⊥ }
    {
        if self.is_listed(state) {
            return true;
        }
        self.is_in_box(task, state)
    }
}
