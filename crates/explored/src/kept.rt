//! Dead boxes, the first site at which a number left its range, and the first lack of room.

ghost use Rattle.std.specs.Prelude.{◌≡◌, ◌≤◌, [], None, length, take, All, IfSome, IfNone};
ghost use Rattle.search_runs.specs.KeptBoxes.{IsInNone, IsFirstIn};
ghost use Rattle.box_model.specs.Boxes.{Contains, IsBoxOf};
ghost use Rattle.explored.specs.Kept.{noted, marked};

use box_model::StateBox;
use ground_task::{State, Task};
use kept_boxes::KeptBoxes;
use num_ends::List;
use search_runs::{Full, Site};
use std::alloc::Global;
use std::marker::Model;

/// What a search has found out beside its nodes.
#[derive(Drop)]
pub struct Explored {
    pub(crate) boxes: KeptBoxes,
    pub(crate) over: Option<(u32, Site)>,
    pub(crate) full: Option<Full>,
}

impl Model for Explored {
    ghost use Rattle.explored.specs.Kept.{Kept};

    ghost Value = { Kept };

    ghost view = { λ e. record { boxes = e.boxes; over = e.over; full = e.full } };
}

/// A point in the past of a search, to go back to.
#[derive(Clone, Copy, Debug)]
pub struct Point {
    pub boxes: u32,
    pub over: Option<(u32, Site)>,
    pub full: Option<Full>,
}

impl Explored {
    /// Nothing yet, which takes no memory.
    pub fn new(alloc: Global) -> Explored
        ensures { result ≡ record { boxes = []; over = None; full = None } }
    {
        Explored {
            boxes: KeptBoxes::new(alloc),
            over: None,
            full: None,
        }
    }

    /// The number of kept boxes.
    pub fn boxes(&self) -> u32
        ensures number { result ≡ length self.now.boxes }
        ensures few { length self.now.boxes ≤ 1000000000 }
    {
        self.boxes.len()
    }

    /// The first site at which a number left its range, with its node.
    pub fn over(&self) -> Option<(u32, Site)>
        ensures { result ≡ self.now.over }
    {
        self.over
    }

    /// The first thing for which there was no room.
    pub fn full(&self) -> Option<Full>
        ensures { result ≡ self.now.full }
    {
        self.full
    }

    /// The number of the first kept box that contains the state.
    pub fn first(&self, task: &Task, state: &State) -> Option<u32>
        requires boxes { All (IsBoxOf task.now) self.now.boxes }
        requires facts { length state.now.facts ≡ length task.now.raw.facts }
        requires values { length state.now.values ≡ length task.now.raw.fluents }
        ensures found { IfSome result (λ b. IsFirstIn (Contains task.now.places) self.now.boxes state.now b) }
        ensures absent { IfNone result (IsInNone (Contains task.now.places) self.now.boxes state.now) }
    {
        self.boxes.first(task, state)
    }

    /// Notes a site of a node, where none is noted yet.
    pub fn note(&mut self, node: u32, site: Site)
        ensures { self.new ≡ noted node site self.old }
    {
        if self.over.is_none() {
            self.over = Some((node, site));
        }
    }

    /// Marks that there is no room for it, where there is no mark yet.
    pub fn mark(&mut self, full: Full)
        ensures { self.new ≡ marked full self.old }
    {
        if self.full.is_none() {
            self.full = Some(full);
        }
    }

    /// The point that is reached.
    pub fn point(&self) -> Point
        ensures boxes { result.boxes ≡ length self.now.boxes }
        ensures over { result.over ≡ self.now.over }
        ensures full { result.full ≡ self.now.full }
    {
        Point {
            boxes: self.boxes.len(),
            over: self.over,
            full: self.full,
        }
    }

    /// Goes back to a point: drops the boxes that came later.
    pub fn go_back(&mut self, point: Point)
        ensures { self.new ≡ record { boxes = take point.boxes self.old.boxes; over = point.over; full = point.full } }
    {
        self.boxes.cut(point.boxes);
        self.over = point.over;
        self.full = point.full;
    }
    /// The kept boxes, by value. This takes no memory.
    pub fn into_boxes(self) -> List<StateBox>
        ensures { result ≡ self.boxes }
    {
        List::from_vec(self.boxes.into_vec())
    }
}
