//! The kept boxes.

ghost use Rattle.std.specs.Prelude.{◌≡◌, ◌<◌, ◌≤◌, ◌+◌, ◌++◌, ℕ, [], ◌∷◌, length, take, All, IsTrue, IsFalse, IfSome, IfNone, OnErr, OnOk};
ghost use Rattle.search_runs.specs.KeptBoxes.{IsInNone, IsFirstIn};
ghost use Rattle.search_runs.specs.Spaces.{IsAt};
ghost use Rattle.box_model.specs.Boxes.{Contains, IsBoxOf};
ghost use Rattle.box_model.specs.declared.state_box.StateBox.{StateBox};
ghost use Rattle.kept_boxes.specs.Hulls.{IsInside};

use crate::hull::{Hull, widen_group};
use box_model::StateBox;
use ground_task::{State, Task};
use num_ends::NoMemory;
use std::alloc::Global;
use std::marker::Model;

const SMALL: usize = 16;

const LARGE: usize = 256;

/// A growing list of boxes. Each sixteen of them, and each 256, have a hull: a state outside of it lies in none of them.
#[derive(Drop)]
pub struct KeptBoxes {
    alloc: Global,
    boxes: Vec<StateBox>,
    small: Vec<Hull>,
    large: Vec<Hull>,
}

impl Model for KeptBoxes {
    ghost use Rattle.std.specs.Prelude.{List};
    ghost use Rattle.box_model.specs.declared.state_box.StateBox.{StateBox};
    ghost use Rattle.kept_boxes.specs.Hulls.{AreGrouped};

    ghost Value = { List StateBox };

    ghost view = { λ k. k.boxes.items };

    ghost invariant = { λ k. AreGrouped k.boxes.items k.small.items k.large.items };
}

// whether the state is outside of the hull of this group
fn misses_group(hulls: &Vec<Hull>, group: usize, task: &Task, state: &State) -> bool
    requires within { group < length hulls.now.items }
    requires facts { length state.now.facts ≡ length task.now.raw.facts }
    requires values { length state.now.values ≡ length task.now.raw.fluents }
    ensures { IsTrue result → (hull b : StateBox) → IsAt hulls.now.items group hull → IsInside b hull → Contains task.now.places b state.now → ⊥ }
{
    let hull = &hulls[group];
    !hull.may_contain(task, state)
}

impl KeptBoxes {
    /// No box yet, which takes no memory.
    pub fn new(alloc: Global) -> KeptBoxes
        ensures { result ≡ [] }
    {
        KeptBoxes {
            alloc,
            boxes: Vec::new(alloc),
            small: Vec::new(alloc),
            large: Vec::new(alloc),
        }
    }

    /// The number of boxes.
    pub fn len(&self) -> u32
        ensures number { result ≡ length self.now }
        ensures few { length self.now ≤ 1000000000 }
    {
        self.boxes.len() as u32
    }

    /// Adds a box at the end. Without memory nothing changes.
    pub fn push(&mut self, own: StateBox) -> Result<(), NoMemory>
        requires room { length self.old < 1000000000 }
        ensures ok { OnOk result (self.new ≡ self.old ++ own ∷ []) }
        ensures err { OnErr result (self.new ≡ self.old) }
    {
        let number = self.boxes.len();
        widen_group(&mut self.small, self.alloc, number / SMALL, &own)?;
        widen_group(&mut self.large, self.alloc, number / LARGE, &own)?;
        self.boxes.push(own)?;
        Ok(())
    }

    /// Keeps the first boxes, so many.
    pub fn cut(&mut self, len: u32)
        ensures { self.new ≡ take len self.old }
    {
        let len = len as usize;
        self.boxes.truncate(len);
        self.small.truncate((len + SMALL - 1) / SMALL);
        self.large.truncate((len + LARGE - 1) / LARGE);
    }

    /// The number of the first box that contains the state.
    pub fn first(&self, task: &Task, state: &State) -> Option<u32>
        requires boxes { All (IsBoxOf task.now) self.now }
        requires facts { length state.now.facts ≡ length task.now.raw.facts }
        requires values { length state.now.values ≡ length task.now.raw.fluents }
        ensures found { IfSome result (λ b. IsFirstIn (Contains task.now.places) self.now state.now b) }
        ensures absent { IfNone result (IsInNone (Contains task.now.places) self.now state.now) }
    {
        let count = self.len() as usize;
        let mut next = 0;
        'each: while next < count {
            let skipped = self.skipped(next, task, state);
            if skipped > 0 {
                next += skipped;
            } else if self.lies_in(next, task, state) {
                return Some(next as u32);
            } else {
                next += 1;
            }
        }
        None
    }

    // whether the state lies in this box
    fn lies_in(&self, number: usize, task: &Task, state: &State) -> bool
        requires within { number < length self.now }
        requires boxes { All (IsBoxOf task.now) self.now }
        requires facts { length state.now.facts ≡ length task.now.raw.facts }
        requires values { length state.now.values ≡ length task.now.raw.fluents }
        ensures there { IsTrue result → (own : StateBox) × IsAt self.now number own × Contains task.now.places own state.now }
        ensures absent { IsFalse result → (own : StateBox) → IsAt self.now number own → Contains task.now.places own state.now → ⊥ }
    {
        self.boxes[number].contains(task, state)
    }

    // so many boxes from this one on are inside of a hull that the state is outside of
    fn skipped(&self, at: usize, task: &Task, state: &State) -> usize
        requires within { at < length self.now }
        requires facts { length state.now.facts ≡ length task.now.raw.facts }
        requires values { length state.now.values ≡ length task.now.raw.fluents }
        ensures few { result ≤ 256 }
        ensures missed { (k : ℕ) (other : StateBox) → at ≤ k → k < at + result → IsAt self.now k other → Contains task.now.places other state.now → ⊥ }
    {
        if self.misses_large(at, task, state) {
            LARGE
        } else if self.misses_small(at, task, state) {
            SMALL
        } else {
            0
        }
    }

    // whether the next 256 boxes have a hull that the state is outside of
    fn misses_large(&self, at: usize, task: &Task, state: &State) -> bool
        requires within { at < length self.now }
        requires facts { length state.now.facts ≡ length task.now.raw.facts }
        requires values { length state.now.values ≡ length task.now.raw.fluents }
        ensures { IsTrue result → (k : ℕ) (other : StateBox) → at ≤ k → k < at + 256 → IsAt self.now k other → Contains task.now.places other state.now → ⊥ }
    {
        if at % LARGE != 0 {
            return false;
        }
        misses_group(&self.large, at / LARGE, task, state)
    }

    // whether the next sixteen boxes have a hull that the state is outside of
    fn misses_small(&self, at: usize, task: &Task, state: &State) -> bool
        requires within { at < length self.now }
        requires facts { length state.now.facts ≡ length task.now.raw.facts }
        requires values { length state.now.values ≡ length task.now.raw.fluents }
        ensures { IsTrue result → (k : ℕ) (other : StateBox) → at ≤ k → k < at + 16 → IsAt self.now k other → Contains task.now.places other state.now → ⊥ }
    {
        if at % SMALL != 0 {
            return false;
        }
        misses_group(&self.small, at / SMALL, task, state)
    }

    /// The boxes as a list.
    pub fn into_vec(self) -> Vec<StateBox>
        ensures { result.items ≡ self }
    {
        self.boxes
    }
}
