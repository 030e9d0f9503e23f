//! The class of a new state.

ghost use Rattle.std.specs.Prelude.{◌≡◌, ◌<◌, ◌≤◌, length, All, IfOk, OnErr};
ghost use Rattle.search_runs.specs.KeptBoxes.{IsInNone};
ghost use Rattle.box_model.specs.Boxes.{Contains, IsBoxOf};
ghost use Rattle.explored.specs.Classes.{IsClassed, IsDeadClassed, IsOwnClassed};

use crate::kept::Explored;
use box_model::StateBox;
use ground_task::{State, Task};
use num_ends::NoMemory;
use search_runs::{Full, Site};

/// How many states and how many boxes may be kept.
#[derive(Clone, Copy, Debug)]
pub struct Most {
    pub states: u32,
    pub boxes: u32,
}

/// What is known of a state that is no node's yet.
#[derive(Debug, Drop)]
pub enum Seen {
    /// The goal holds.
    Goal,
    /// The box is dead and contains the state.
    Dead(StateBox),
    /// The state is live, and the goal doesn't hold.
    Live,
    /// The state is live, and a number leaves its range at the goal.
    LiveOver,
}

/// The class of a state that becomes a node.
#[derive(Clone, Copy, Debug, PartialEq, Eq)]
pub enum Class {
    /// The goal holds.
    Goal,
    /// The state lies in the kept dead box of this number, and in none before it.
    Dead(u32),
    /// The state waits to be expanded.
    Waits,
}

impl Explored {
    /// The class of a state that is to become the node of this number; `None` where there is no room, which is then
    /// marked. Without memory nothing changes.
    pub fn class(
        &mut self,
        task: &Task,
        node: u32,
        state: &State,
        seen: Seen,
        most: Most,
    ) -> Result<Option<Class>, NoMemory>
        requires boxes { All (IsBoxOf task.now) self.old.boxes }
        requires facts { length state.now.facts ≡ length task.now.raw.facts }
        requires values { length state.now.values ≡ length task.now.raw.fluents }
        requires few_nodes { node ≤ most.states }
        requires few_boxes { length self.old.boxes ≤ most.boxes }
        requires room { most.boxes ≤ 1000000000 }
        ensures ok { IfOk result (λ class. IsClassed task.now.places most node state.now seen class self.old self.new) }
        ensures err { OnErr result (self.new ≡ self.old) }
    {
        if node == most.states {
            self.mark(Full::States);
            return Ok(None);
        }
        match seen {
            Seen::Goal => Ok(Some(Class::Goal)),
            Seen::Live => Ok(Some(Class::Waits)),
            Seen::LiveOver => {
                self.note(node, Site::Goal);
                Ok(Some(Class::Waits))
            }
            Seen::Dead(own) => self.dead_class(task, state, own, most.boxes),
        }
    }

    fn dead_class(
        &mut self,
        task: &Task,
        state: &State,
        own: StateBox,
        most: u32,
    ) -> Result<Option<Class>, NoMemory>
        requires boxes { All (IsBoxOf task.now) self.old.boxes }
        requires facts { length state.now.facts ≡ length task.now.raw.facts }
        requires values { length state.now.values ≡ length task.now.raw.fluents }
        requires few_boxes { length self.old.boxes ≤ most }
        requires room { most ≤ 1000000000 }
        ensures ok { IfOk result (λ class. IsDeadClassed task.now.places most state.now own class self.old self.new) }
        ensures err { OnErr result (self.new ≡ self.old) }
    {
        match self.first(task, state) {
            Some(first) => {
                drop(own);
                Ok(Some(Class::Dead(first)))
            }
            None => self.own_class(own, most),
        }
    }

    // the class of a dead state that no kept box contains
    fn own_class(&mut self, own: StateBox, most: u32) -> Result<Option<Class>, NoMemory>
        requires few_boxes { length self.old.boxes ≤ most }
        requires room { most ≤ 1000000000 }
        ensures ok { IfOk result (λ class. IsOwnClassed most own class self.old self.new) }
        ensures err { OnErr result (self.new ≡ self.old) }
    {
        let number = self.boxes();
        if number == most {
            drop(own);
            self.mark(Full::Boxes);
            return Ok(None);
        }
        self.boxes.push(own)?;
        Ok(Some(Class::Dead(number)))
    }
}
