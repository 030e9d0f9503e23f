//! A task with the decimal places of its fluents.

ghost use Rattle.std.specs.Prelude.{◌≡◌, ◌<◌, ◌≤◌, length, slice_index_or, IfOk, MatchResult};
ghost use Rattle.ground_task.specs.Placed.{IsPlaced};
ghost use Rattle.ground_task.specs.Tasks.{first_state, AreFirstInRange, IsCause, IsInitialState};
ghost use Rattle.ground_task.specs.Valid.{IsValid};

use crate::faults::TaskFault;
use crate::first::first_of;
use crate::raw::RawTask;
use crate::state::State;
use num_ends::{List, NoMemory};
use std::alloc::Global;
use std::marker::Model;

/// A valid ground task.
#[derive(Debug, Drop)]
pub struct Task {
    raw: RawTask,
    places: List<u8>,
    first: State,
}

impl Model for Task {
    ghost use Rattle.ground_task.specs.contracts.raw.GCond as cond;
    ghost use Rattle.ground_task.specs.contracts.raw.GExpr as expr;
    ghost use Rattle.std.specs.Coded.{codes};
    ghost use Rattle.ground_task.specs.Tasks.{TaskValue, IsTask};

    ghost Value = { TaskValue };

    ghost coded = { Prim.hlevel (codes, cond.the_row.coded, expr.the_row.coded) };

    ghost view = { λ t. record { raw = t.raw; places = t.places } };

    ghost invariant = { λ t. IsTask t.raw t.places t.first };
}

impl Task {
    /// The task of valid data, with the decimal places of each fluent.
    ///
    /// `Range` names the first fluent whose first value leaves the range at its places.
    pub fn with_places(alloc: Global, raw: RawTask, places: List<u8>) -> Result<Task, TaskFault>
        requires valid { IsValid raw }
        requires placed { IsPlaced raw places }
        ensures made { MatchResult result
            (λ t. (t ≡ record { raw = raw; places = places }) × AreFirstInRange places raw.values (length raw.fluents))
            (λ fault. IsCause raw places fault) }
    {
        match first_of(alloc, &raw, &places) {
            Ok(first) => Ok(Task { raw, places, first }),
            Err(fault) => Err(fault),
        }
    }

    /// The data of the task.
    pub fn raw(&self) -> &RawTask
        ensures value { result.now ≡ self.now.raw }
        ensures valid { IsValid self.now.raw }
        ensures placed { IsPlaced self.now.raw self.now.places }
    {
        &self.raw
    }

    /// The decimal places of a fluent.
    pub fn places(&self, fluent: u32) -> u8
        requires known { fluent < length self.now.raw.fluents }
        ensures value { result ≡ slice_index_or self.now.places fluent 0 }
        ensures few { result ≤ 9 }
    {
        self.places.as_slice()[fluent as usize]
    }

    /// The state at the start.
    pub fn first(&self) -> &State
        ensures value { result.now ≡ first_state self.now.raw self.now.places }
        ensures initial { IsInitialState self.now result.now }
    {
        &self.first
    }

    /// An equal task.
    pub fn copy(&self, alloc: Global) -> Result<Task, NoMemory>
        ensures { IfOk result (λ t. t ≡ self.now) }
    {
        let places = List::from_vec(Vec::from_slice(alloc, self.places.as_slice())?);
        let first = self.first.copy(alloc)?;
        let raw = self.raw.copy(alloc)?;
        Ok(Task { raw, places, first })
    }
}
