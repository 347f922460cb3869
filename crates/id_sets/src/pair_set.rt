//! Sets of pairs of identifiers, in a search tree.
ghost use Rattle.std.specs.Prelude.{◌≡◌, ℕ, false, OnOk, OnErr};
ghost use Rattle.id_sets.specs.IdPairs.{holds_pair, IsWithPair};

use par_base::Memory;
use std::alloc::Global;
use std::collections::BTreeSet;
use std::marker::Model;

/// A set of pairs of identifiers.
#[derive(Drop)]
pub struct PairSet {
    pairs: BTreeSet<(u64, u64)>,
}

impl Model for PairSet {
    ghost use Rattle.id_sets.specs.IdPairs.{IdPairs};

    ghost Value = { IdPairs };

    ghost view = { λ set. set.pairs.keys };
}

impl PairSet {
    /// The empty set. It takes no memory.
    pub fn new(alloc: Global) -> PairSet
        ensures { (a b : ℕ) → holds_pair result a b ≡ false }
    {
        PairSet {
            pairs: BTreeSet::new(alloc),
        }
    }

    /// Puts a pair, where it isn't there. It takes comparisons in the logarithm of the pairs.
    pub fn insert(&mut self, a: u64, b: u64) -> Result<(), Memory>
        ensures ok { OnOk result (IsWithPair self.old a b self.new) }
        ensures err { OnErr result (self.new ≡ self.old) }
    {
        self.pairs.insert((a, b))?;
        Ok(())
    }

    /// Whether the pair is there. It takes no memory, and comparisons in the logarithm of the
    /// pairs.
    pub fn has(&self, a: u64, b: u64) -> bool
        ensures { result ≡ holds_pair self.now a b }
    {
        self.pairs.contains(&(a, b))
    }
}
