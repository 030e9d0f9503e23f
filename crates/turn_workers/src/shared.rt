//! Work that workers share: nodes that they take, and what comes of them.

ghost use Rattle.std.specs.Prelude.{◌≡◌, ℕ, IfOk, IfErr};
ghost use Rattle.turn_lock.specs.History.{Journal, OthersAfter, OwnAfter};
ghost use Rattle.turn_workers.specs.Workers.{IsTaken};
ghost use Rattle.turn_workers.specs.declared.work.Job.{Job};

use crate::work::{Job, Taken};
use num_ends::NoMemory;
use turn_lock::Told;

/// A value that gives out nodes and takes in what comes of them. What a worker knows between its turns is a fact about
/// the journal that it has seen, which the entries of other workers leave as it is.
pub trait Shared<N, O>: Told {
    // What the terms fix.
    ghost About: { Type 0 };

    ghost about: { Self → About };

    // The worker holds no node, whatever others add.
    ghost Idle: { About → ℕ → Journal → Type 0 };

    // The worker holds this node alone, with this state, whatever others add.
    ghost Has: { About → ℕ → Job N → Journal → Type 0 };

    // The worker hasn't left the work, whatever others add.
    ghost AtWork: { About → ℕ → Journal → Type 0 };

    // The worker has left the work for want of memory.
    ghost Starved: { About → ℕ → Journal → Type 0 };

    // What came of the node is what the terms say.
    ghost AreRight: { About → Job N → O → Type 0 };

    /// Takes a node for a worker that holds none. Without memory nothing is taken.
    fn take(&mut self, worker: u32) -> Result<Taken<N>, NoMemory>
        requires { Idle (about self.old) worker (Self.Told.journal self.old) }
        ensures terms { Self.Told.terms self.new ≡ Self.Told.terms self.old }
        ensures own { OwnAfter worker (Self.Told.journal self.old) (Self.Told.journal self.new) }
        ensures taken { IfOk result (IsTaken Idle Has (about self.new) worker (Self.Told.journal self.new)) }
        ensures refused { IfErr result (λ _. Idle (about self.new) worker (Self.Told.journal self.new)) };

    /// Gives what came of the node that the worker holds. Without memory the worker still holds it.
    fn give(&mut self, worker: u32, job: &Job<N>, outcomes: O) -> Result<(), NoMemory>
        requires job { Has (about self.old) worker job.now (Self.Told.journal self.old) }
        requires outcomes { AreRight (about self.old) job.now outcomes }
        ensures terms { Self.Told.terms self.new ≡ Self.Told.terms self.old }
        ensures own { OwnAfter worker (Self.Told.journal self.old) (Self.Told.journal self.new) }
        ensures given { IfOk result (λ _. Idle (about self.new) worker (Self.Told.journal self.new)) }
        ensures refused { IfErr result (λ _. Has (about self.new) worker job.now (Self.Told.journal self.new)) };

    /// Takes a worker out of the work, which found no memory.
    fn starve(&mut self, worker: u32)
        requires { AtWork (about self.old) worker (Self.Told.journal self.old) }
        ensures terms { Self.Told.terms self.new ≡ Self.Told.terms self.old }
        ensures own { OwnAfter worker (Self.Told.journal self.old) (Self.Told.journal self.new) }
        ensures starved { Starved (about self.new) worker (Self.Told.journal self.new) };

    // Values with the same terms are about the same.
    ghost fixed: { (s t : Self) → Self.Told.terms s ≡ Self.Told.terms t → about s ≡ about t };

    ghost idle_works: { (a : About) (worker : ℕ) (seen : Journal) → Idle a worker seen → AtWork a worker seen };

    ghost has_works: { (a : About) (worker : ℕ) (job : Job N) (seen : Journal) → Has a worker job seen → AtWork a worker seen };

    ghost work_stays: { (a : About) (worker : ℕ) (seen now : Journal) → AtWork a worker seen → OthersAfter worker seen now → AtWork a worker now };

    ghost idle_stays: { (a : About) (worker : ℕ) (seen now : Journal) → Idle a worker seen → OthersAfter worker seen now → Idle a worker now };

    ghost has_stays: { (a : About) (worker : ℕ) (job : Job N) (seen now : Journal) → Has a worker job seen → OthersAfter worker seen now → Has a worker job now };
}
