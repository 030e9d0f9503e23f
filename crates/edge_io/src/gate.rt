//! Where workers on several threads can be watched or held.

ghost use Rattle.std.specs.Prelude.{ℕ, Bool, true, IsTrue};
ghost use Rattle.edge_io.specs.declared.gate.Place.{Place};

/// What a worker is about to do.
#[derive(Clone, Copy, Debug, PartialEq, Eq)]
pub enum Place {
    /// A search worker took a node.
    TookNode,
    /// A relaxation worker claimed a rule, which it evaluates next.
    ClaimedSupporter,
}

/// A worker passes it, under its number, before each step of the kind that `place` names.
///
/// `pass` returns, and promises nothing more: an implementation may count, or hold a worker for a while.
pub trait Gate: Sync {
    // Which worker numbers may pass it before which steps.
    ghost may_pass: { Self → Place → ℕ → Bool } = { λ _ _ _. true };

    fn pass(&self, place: Place, worker: u32)
        requires { IsTrue (may_pass self.now place worker) };
}

/// Lets every worker pass at once.
pub struct OpenGate;

impl Gate for OpenGate {
    fn pass(&self, _place: Place, _worker: u32) {}
}
