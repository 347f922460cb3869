//! Numbers by identifier, in a search tree.
ghost use Rattle.std.specs.Prelude.{◌≡◌, ℕ, OnOk, OnErr, None};
ghost use Rattle.id_sets.specs.IdNumbers.{number_of_id, IsWithId};

use par_base::Memory;
use std::alloc::Global;
use std::collections::BTreeMap;
use std::marker::Model;

/// A map from identifiers to numbers.
#[derive(Drop)]
pub struct IdMap {
    numbers: BTreeMap<u64, u64>,
}

impl Model for IdMap {
    ghost use Rattle.id_sets.specs.IdNumbers.{IdNumbers};

    ghost Value = { IdNumbers };

    ghost view = { λ map. map.numbers.entries };
}

impl IdMap {
    /// The empty map. It takes no memory.
    pub fn new(alloc: Global) -> IdMap
        ensures { (id : ℕ) → number_of_id result id ≡ None }
    {
        IdMap {
            numbers: BTreeMap::new(alloc),
        }
    }

    /// Puts a number at the identifier, in place of one that is there. It takes comparisons in the
    /// logarithm of the entries.
    pub fn insert(&mut self, id: u64, number: u64) -> Result<(), Memory>
        ensures ok { OnOk result (IsWithId self.old id number self.new) }
        ensures err { OnErr result (self.new ≡ self.old) }
    {
        self.numbers.insert(id, number)?;
        Ok(())
    }

    /// The number of the identifier. It takes no memory, and comparisons in the logarithm of the
    /// entries.
    pub fn get(&self, id: u64) -> Option<u64>
        ensures { result ≡ number_of_id self.now id }
    {
        self.numbers.get(&id).copied()
    }
}
