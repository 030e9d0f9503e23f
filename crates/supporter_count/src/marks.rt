//! Marks on the facts that one action changes, so that each counts once.

ghost use Rattle.std.specs.Prelude.{◌≡◌, ◌<◌, ◌≤◌, ◌+◌, ◌++◌, ◌∷◌, [], ◌==◌, ℕ, List, All, length, IfOk};
ghost use Rattle.std.specs.Set.{distinct_count};
ghost use Rattle.supporter_count.specs.Marks.{AreOld, AreMarked};

use num_ends::NoMemory;
use std::alloc::Global;

/// A stamp per fact. The facts that are marked have the current stamp, so all marks are taken away at once.
#[derive(Drop)]
pub(crate) struct Marks {
    stamps: Vec<u32>,
    current: u32,
}

impl Marks {
    /// So many facts without a mark.
    pub(crate) fn new(alloc: Global, facts: usize) -> Result<Marks, NoMemory>
        ensures old { IfOk result AreOld }
        ensures size { IfOk result (λ m. length m.stamps.items ≡ facts) }
        ensures current { IfOk result (λ m. m.current ≡ 0) }
    {
        let stamps = vec![in alloc; 0; facts]?;
        Ok(Marks { stamps, current: 0 })
    }

    /// Takes all marks away.
    pub(crate) fn clear(&mut self)
        requires old { AreOld self.old }
        requires few { self.old.current < 20000 }
        ensures marked { AreMarked self.new [] }
        ensures size { length self.new.stamps.items ≡ length self.old.stamps.items }
        ensures current { self.new.current ≡ self.old.current + 1 }
    {
        self.current += 1;
    }

    // Marks a fact, and says how many are marked more: 1 or 0.
    fn mark(&mut self, fact: u32) -> u32
        requires known { fact < length self.old.stamps.items }
        ensures marked { (facts : List ℕ) → AreMarked self.old facts → AreMarked self.new (facts ++ fact ∷ []) × (distinct_count (λ f g. f == g) (facts ++ fact ∷ []) ≡ distinct_count (λ f g. f == g) facts + result) }
        ensures one { result ≤ 1 }
        ensures size { length self.new.stamps.items ≡ length self.old.stamps.items }
        ensures current { self.new.current ≡ self.old.current }
    {
        let fact = fact as usize;
        if self.stamps[fact] == self.current {
            return 0;
        }
        self.stamps[fact] = self.current;
        1
    }

    /// Marks these facts too, and says how many are marked more.
    pub(crate) fn mark_all(&mut self, facts: &[u32]) -> u32
        requires known { All (λ f. f < length self.old.stamps.items) facts.now }
        requires few { length facts.now ≤ 256 }
        ensures marked { (before : List ℕ) → AreMarked self.old before → AreMarked self.new (before ++ facts.now) × (distinct_count (λ f g. f == g) (before ++ facts.now) ≡ distinct_count (λ f g. f == g) before + result) }
        ensures few { result ≤ 256 }
        ensures size { length self.new.stamps.items ≡ length self.old.stamps.items }
        ensures current { self.new.current ≡ self.old.current }
    {
        let mut more = 0;
        'facts: for place in 0..facts.len() {
            more += self.mark(facts[place]);
        }
        more
    }
}
