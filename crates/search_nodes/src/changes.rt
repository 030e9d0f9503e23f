//! Nodes come, change and go.

ghost use Rattle.std.specs.Prelude.{◌≡◌, ◌<◌, ◌≤◌, ◌≢◌, ◌++◌, ◌-◌, [], ◌∷◌, false, All, length, take, MatchOption, OnOk, OnErr, is_some};
ghost use Rattle.search_runs.specs.Answers.{first_where, is_goal, is_taken, is_waiting};
ghost use Rattle.search_runs.specs.Nodes.{with_status};
ghost use Rattle.search_runs.specs.declared.nodes.Status.TheVariants.{Taken};
ghost use Rattle.search_nodes.specs.Tables.{HasLeast, IsNew, IsOther, NoneWaits, WithNodes};

use crate::nodes::{Rest, SearchNodes};
use crate::parts::{
    join_frontier, join_goal, join_taken, leave_frontier, leave_goal, leave_taken, set_status,
};
use ground_task::State;
use num_ends::NoMemory;
use search_runs::Status;

impl SearchNodes {
    /// Adds a node that isn't taken. Without memory nothing changes.
    pub(crate) fn push(&mut self, state: State, rest: Rest) -> Result<(), NoMemory>
        requires new { IsNew self.old.nodes state }
        requires room { length self.old.nodes < self.old.most.states }
        requires not_taken { is_taken rest.status ≡ false }
        ensures ok { OnOk result (self.new ≡ WithNodes (self.old.nodes ++ record { state = state; parent = rest.parent; via = rest.via; status = rest.status } ∷ []) self.old) }
        ensures err { OnErr result (self.new ≡ self.old) }
    {
        let node = self.table.len();
        self.table.push(state, rest)?;
        match join_frontier(&mut self.frontier, node, rest.status) {
            Ok(()) => {}
            Err(fault) => {
                self.table.cut(node);
                return Err(fault);
            }
        }
        self.goal = join_goal(self.goal, node, rest.status);
        Ok(())
    }

    /// Gives a node another status. Neither the old one nor the new one is `Goal`, and the new one isn't `Waiting`.
    pub(crate) fn change(&mut self, node: u32, status: Status)
        requires known { node < length self.old.nodes }
        requires old { IsOther self.old.nodes node }
        requires not_waiting { is_waiting status ≡ false }
        requires not_goal { is_goal status ≡ false }
        ensures { self.new ≡ WithNodes (with_status self.old.nodes node status) self.old }
    {
        let old = self.table.payload(node).status;
        leave_frontier(&mut self.frontier, node, old);
        self.taken = leave_taken(self.taken, old);
        self.taken = join_taken(self.taken, status);
        set_status(&mut self.table, node, status);
    }

    /// Takes the last node out.
    fn pop(&mut self)
        requires some { 0 < length self.old.nodes }
        ensures { self.new ≡ WithNodes (take (length self.old.nodes - 1) self.old.nodes) self.old }
    {
        let last = self.table.len() - 1;
        let status = self.table.payload(last).status;
        leave_frontier(&mut self.frontier, last, status);
        self.taken = leave_taken(self.taken, status);
        self.goal = leave_goal(self.goal, last);
        self.table.cut(last);
    }

    /// Keeps the first nodes, so many.
    pub(crate) fn cut(&mut self, len: u32)
        requires few { len ≤ length self.old.nodes }
        ensures { self.new ≡ WithNodes (take len self.old.nodes) self.old }
    {
        'each: while len < self.table.len() {
            self.pop();
        }
    }

    /// The node that waits with the least estimate, and the least number among those.
    pub fn least(&self) -> Option<u32>
        ensures { MatchOption result (NoneWaits self.now.nodes) (λ n. HasLeast self.now.nodes n) }
    {
        match self.frontier.least() {
            Some((_, node)) => Some(node),
            None => None,
        }
    }

    /// Whether a node waits.
    pub fn waits(&self) -> bool
        ensures { result ≡ is_some (first_where is_waiting self.now.nodes) }
    {
        match self.least() {
            Some(_) => true,
            None => false,
        }
    }

    /// The worker takes the node, which is the waiting one that comes first.
    pub fn take(&mut self, worker: u32, node: u32)
        requires least { HasLeast self.old.nodes node }
        ensures { self.new ≡ WithNodes (with_status self.old.nodes node (Taken worker)) self.old }
    {
        self.change(node, Status::Taken(worker));
    }
}
