//! The frontier of a best-first search: nodes in the order of their estimates.
#![tactic(auto)]

ghost use Rattle.std.specs.Prelude.{◌≡◌, false, MatchOption, OnOk, OnErr};
ghost use Rattle.std.specs.Bool.{OnFalse};
ghost use Rattle.std.specs.FinSet as set;
ghost use Rattle.open_list.specs.Frontier.{IsLeast};

use num_ends::NoMemory;
use std::alloc::Global;
use std::collections::BTreeSet;
use std::marker::Model;

/// A set of pairs of an estimate `h` and a node, which contracts see as that set.
#[derive(Debug, Drop)]
pub struct OpenList {
    pairs: BTreeSet<(u32, u32)>,
}

impl Model for OpenList {
    ghost use Rattle.std.specs.Coded.{coded×, coded_ℕ};
    ghost use Rattle.std.specs.FinSet as set;
    ghost use Rattle.open_list.specs.Frontier.{Frontier};

    ghost Value = { Frontier };

    ghost coded = { set.code (coded× coded_ℕ coded_ℕ) };

    ghost view = { λ list. set.from_list list.pairs.keys };
}

impl OpenList {
    /// The empty set, which takes no memory.
    pub fn new(alloc: Global) -> OpenList
        ensures { result ≡ set.empty }
    {
        OpenList {
            pairs: BTreeSet::new(alloc),
        }
    }

    /// Adds a pair that isn't there.
    pub fn push(&mut self, h: u32, node: u32) -> Result<(), NoMemory>
        requires { set.contains self.old (h, node) ≡ false }
        ensures ok { OnOk result (self.new ≡ set.insert self.old (h, node)) }
        ensures err { OnErr result (self.new ≡ self.old) }
    {
        self.pairs.insert((h, node))?;
        Ok(())
    }

    /// The pair that is first by the estimate and then by the node, where there is one.
    pub fn least(&self) -> Option<(u32, u32)>
        ensures { MatchOption result (self.now ≡ set.empty) (IsLeast self.now) }
    {
        match self.pairs.first() {
            Some(pair) => Some(*pair),
            None => None,
        }
    }

    /// Takes the pair out, and says whether it was there.
    pub fn remove(&mut self, h: u32, node: u32) -> bool
        ensures answer { result ≡ set.contains self.old (h, node) }
        ensures after { self.new ≡ set.remove self.old (h, node) }
        ensures unchanged { OnFalse result (self.new ≡ self.old) }
    {
        self.pairs.remove(&(h, node))
    }
}
