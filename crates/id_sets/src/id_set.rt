//! Sets of identifiers, in a search tree.
ghost use Rattle.std.specs.Prelude.{◌≡◌, [], OnOk, OnErr, IfOk};
ghost use Rattle.op_law.specs.Identifiers.{put_id, has_id, IdsRise};

use par_base::{List, Memory};
use std::alloc::Global;
use std::collections::BTreeSet;
use std::marker::Model;

/// A set of identifiers. Contracts see it as their ascending list.
#[derive(Drop)]
pub struct IdSet {
    ids: BTreeSet<u64>,
}

impl Model for IdSet {
    ghost use Rattle.std.specs.Prelude.{List, ℕ};

    ghost Value = { List ℕ };

    ghost view = { λ set. set.ids.keys };
}

impl IdSet {
    /// The empty set. It takes no memory.
    pub fn new(alloc: Global) -> IdSet
        ensures { result ≡ [] }
    {
        IdSet {
            ids: BTreeSet::new(alloc),
        }
    }

    /// Puts an identifier, where it isn't there. It takes comparisons in the logarithm of the
    /// entries.
    pub fn insert(&mut self, id: u64) -> Result<(), Memory>
        ensures ok { OnOk result (self.new ≡ put_id id self.old) }
        ensures err { OnErr result (self.new ≡ self.old) }
    {
        self.ids.insert(id)?;
        Ok(())
    }

    /// Whether the identifier is there. It takes no memory, and comparisons in the logarithm of the
    /// entries.
    pub fn has(&self, id: u64) -> bool
        ensures { result ≡ has_id self.now id }
    {
        self.ids.contains(&id)
    }

    /// The identifiers, ascending.
    pub fn list(&self, alloc: Global) -> Result<List<u64>, Memory>
        ensures all { IfOk result (λ ids. ids ≡ self.now) }
        ensures rise { IfOk result (λ ids. IdsRise 0 ids) }
    {
        let mut ids = List::new(alloc);
        for id in self.ids.iter() {
            ids.push(*id)?;
        }
        Ok(ids)
    }
}
