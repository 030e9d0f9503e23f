//! What a node's actions lead to is taken in.

ghost use Rattle.std.specs.Prelude.{◌≡◌, ◌<◌, ◌≤◌, [], ◌∷◌, All, length, take, OnOk, OnErr};
ghost use Rattle.search_runs.specs.Nodes.{changed};
ghost use Rattle.search_runs.specs.declared.nodes.Status.TheVariants.{Closed, Taken};
ghost use Rattle.search_nodes.specs.declared.views.Outcome.TheVariants.{InKept, Next};
ghost use Rattle.search_nodes.specs.Growth.{AreMet, Extends, FitsOutcome, FitsState, FitsView, IsEntered, IsKeptEntered, IsMet, SameTerms, estimate_in, seen_in, status_in};
ghost use Rattle.search_nodes.specs.Tables.{IsNew, IsTakenBy, config_of};

use crate::nodes::{Rest, SearchNodes};
use crate::views::{Outcome, View};
use explored::{Class, Point, Seen};
use ground_task::State;
use num_ends::{List, NoMemory};
use search_runs::{Full, Site, Status};

fn seen_of(view: View) -> (Seen, u32)
    ensures seen { result.0 ≡ seen_in view }
    ensures estimate { result.1 ≡ estimate_in view }
{
    match view {
        View::Goal => (Seen::Goal, 0),
        View::Dead(own) => (Seen::Dead(own), 0),
        View::Live(estimate) => (Seen::Live, estimate),
        View::LiveOver(estimate) => (Seen::LiveOver, estimate),
    }
}

fn status_of(class: Class, estimate: u32) -> Status
    ensures { result ≡ status_in class estimate }
{
    match class {
        Class::Goal => Status::Goal,
        Class::Dead(first) => Status::Dead(first),
        Class::Waits => Status::Waiting(estimate),
    }
}

impl SearchNodes {
    /// A state that is no node's becomes one, or there is no room and that is marked. Without memory nothing changes.
    pub fn enter(&mut self, state: State, parent: u32, via: u32, view: View) -> Result<(), NoMemory>
        requires new { IsNew self.old.nodes state }
        requires of_task { FitsState self.old.task state }
        requires fits { FitsView self.old.task view }
        ensures terms { SameTerms self.old self.new }
        ensures ok { OnOk result (IsEntered self.old.task.places self.old.most state parent via view (config_of self.old) (config_of self.new)) }
        ensures err { OnErr result (self.new ≡ self.old) }
    {
        let point = self.explored.point();
        let node = self.table.len();
        let (seen, estimate) = seen_of(view);
        let class = self
            .explored
            .class(&self.task, node, &state, seen, self.most)?;
        match class {
            None => {
                drop(state);
                Ok(())
            }
            Some(class) => {
                let status = status_of(class, estimate);
                match self.push(
                    state,
                    Rest {
                        parent,
                        via,
                        status,
                    },
                ) {
                    Ok(()) => Ok(()),
                    Err(fault) => {
                        self.go_back(node, point);
                        Err(fault)
                    }
                }
            }
        }
    }

    /// What an action of a node does is taken in. Without memory nothing changes.
    pub fn meet(&mut self, node: u32, action: u32, outcome: Outcome) -> Result<(), NoMemory>
        requires fits { FitsOutcome self.old.task outcome }
        ensures terms { SameTerms self.old self.new }
        ensures ok { OnOk result (IsMet self.old.task.places self.old.most node action outcome (config_of self.old) (config_of self.new)) }
        ensures err { OnErr result (self.new ≡ self.old) }
    {
        match outcome {
            Outcome::Blocked => Ok(()),
            Outcome::Over => {
                self.explored.note(node, Site::Action(action));
                Ok(())
            }
            Outcome::Known(_) => Ok(()),
            Outcome::InKept(state) => self.meet_kept(node, action, state),
            Outcome::Next(state, view) => self.meet_state(node, action, state, view),
        }
    }

    fn meet_state(
        &mut self,
        node: u32,
        action: u32,
        state: State,
        view: View,
    ) -> Result<(), NoMemory>
        requires of_task { FitsState self.old.task state }
        requires fits { FitsView self.old.task view }
        ensures terms { SameTerms self.old self.new }
        ensures ok { OnOk result (IsMet self.old.task.places self.old.most node action (Next state view) (config_of self.old) (config_of self.new)) }
        ensures err { OnErr result (self.new ≡ self.old) }
    {
        match self.table.find(&state) {
            Some(_) => {
                drop((state, view));
                Ok(())
            }
            None => self.enter(state, node, action, view),
        }
    }

    fn meet_kept(&mut self, node: u32, action: u32, state: State) -> Result<(), NoMemory>
        requires of_task { FitsState self.old.task state }
        ensures terms { SameTerms self.old self.new }
        ensures ok { OnOk result (IsMet self.old.task.places self.old.most node action (InKept state) (config_of self.old) (config_of self.new)) }
        ensures err { OnErr result (self.new ≡ self.old) }
    {
        match self.table.find(&state) {
            Some(_) => {
                drop(state);
                Ok(())
            }
            None => self.enter_kept(state, node, action),
        }
    }

    // a state that is no node's becomes one, by the first kept box that contains it
    fn enter_kept(&mut self, state: State, parent: u32, via: u32) -> Result<(), NoMemory>
        requires new { IsNew self.old.nodes state }
        requires of_task { FitsState self.old.task state }
        ensures terms { SameTerms self.old self.new }
        ensures ok { OnOk result (IsKeptEntered self.old.task.places self.old.most state parent via (config_of self.old) (config_of self.new)) }
        ensures err { OnErr result (self.new ≡ self.old) }
    {
        if self.table.len() == self.most.states {
            self.explored.mark(Full::States);
            drop(state);
            return Ok(());
        }
        match self.explored.first(&self.task, &state) {
            None => {
                drop(state);
                Ok(())
            }
            Some(first) => {
                let status = Status::Dead(first);
                self.push(
                    state,
                    Rest {
                        parent,
                        via,
                        status,
                    },
                )
            }
        }
    }

    /// A worker gives what the actions of its node do, in their order; the node is closed. Without memory nothing
    /// changes.
    pub fn give(&mut self, worker: u32, node: u32, outcomes: List<Outcome>) -> Result<(), NoMemory>
        requires taken { IsTakenBy worker self.old.nodes node }
        requires fit { All (FitsOutcome self.old.task) outcomes }
        requires few { length outcomes ≤ 1000000000 }
        ensures terms { SameTerms self.old self.new }
        ensures ok { OnOk result (AreMet self.old.task.places self.old.most node 0 outcomes (changed node Closed (config_of self.old)) (config_of self.new)) }
        ensures err { OnErr result (self.new ≡ self.old) }
    {
        let len = self.table.len();
        let point = self.explored.point();
        self.change(node, Status::Closed);
        match self.meet_all(node, outcomes) {
            Ok(()) => Ok(()),
            Err(fault) => {
                self.go_back(len, point);
                self.change(node, Status::Taken(worker));
                Err(fault)
            }
        }
    }

    /// Goes back to where there were so many nodes, and this was kept.
    fn go_back(&mut self, len: u32, point: Point)
        requires nodes { len ≤ length self.old.nodes }
        requires boxes { point.boxes ≤ length self.old.boxes }
        ensures { self.new ≡ record self.old { nodes = take len self.old.nodes; boxes = take point.boxes self.old.boxes; over = point.over; full = point.full } }
    {
        self.cut(len);
        self.explored.go_back(point);
    }

    fn meet_all(&mut self, node: u32, outcomes: List<Outcome>) -> Result<(), NoMemory>
        requires fit { All (FitsOutcome self.old.task) outcomes }
        requires few { length outcomes ≤ 1000000000 }
        ensures terms { SameTerms self.old self.new }
        ensures ok { OnOk result (AreMet self.old.task.places self.old.most node 0 outcomes (config_of self.old) (config_of self.new)) }
        ensures front { Extends (config_of self.old) (config_of self.new) }
    {
        let mut action = 0;
        'each: for outcome in outcomes.into_vec() {
            self.meet(node, action, outcome)?;
            action += 1;
        }
        Ok(())
    }
}
