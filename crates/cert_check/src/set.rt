//! States, found by hash.

ghost use Rattle.std.specs.Prelude.{◌≡◌, [], IfOk, OnOk};
ghost use Rattle.std.specs.List.{list_any};
ghost use Rattle.ground_task.specs.Orders.{is_same_state};
ghost use Rattle.cert_check.specs.Sets.{with_state, HasSame};

use ground_task::State;
use indexmap::IndexSet;
use num_ends::NoMemory;
use std::alloc::Global;
use std::marker::Model;

/// States, each once. Contracts see them in the order in which they came.
#[derive(Drop)]
pub(crate) struct StateSet<'a> {
    states: IndexSet<&'a State>,
}

impl<'a> Model for StateSet<'a> {
    ghost use Rattle.std.specs.Prelude.{List, map};
    ghost use Rattle.ground_task.specs.States.{StateValue};

    ghost Value = { List StateValue };

    ghost view = { λ s. map (λ t. t.now) s.states.keys };
}

impl<'a> StateSet<'a> {
    /// No states.
    fn new(alloc: Global) -> StateSet<'a>
        ensures { result ≡ [] }
    {
        StateSet {
            states: IndexSet::new(alloc),
        }
    }

    /// Adds a state, where it isn't there.
    fn add(&mut self, state: &'a State) -> Result<(), NoMemory>
        ensures { OnOk result (self.new ≡ with_state self.old state.now) }
    {
        self.states.insert(state)?;
        Ok(())
    }

    /// Whether a state is there.
    pub(crate) fn has(&self, state: &State) -> bool
        ensures { result ≡ list_any (is_same_state state.now) self.now }
    {
        self.states.contains(&state)
    }

    /// The states of a list.
    pub(crate) fn of(alloc: Global, states: &'a [State]) -> Result<StateSet<'a>, NoMemory>
        ensures { IfOk result (λ set. HasSame set states.now) }
    {
        let mut set = StateSet::new(alloc);
        'each: for state in states {
            set.add(state)?;
        }
        Ok(set)
    }
}
