//! The pairs that are taken.
ghost use Rattle.std.specs.Prelude.{◌≡◌, ◌++◌, ◌∷◌, [], OnOk};
ghost use Rattle.pair_rows.specs.Shown.{has};
ghost use Rattle.pair_rows.specs.inner.Knowing.{KnowsPairs};

use id_sets::PairSet;
use par_base::{List, Memory};
use std::alloc::Global;

/// The entries of the pairs that are taken, in the order in which they were, and the pairs as a set.
#[derive(Drop)]
pub struct Taken {
    pub entries: List<(u64, u64, u64)>,
    pub pairs: PairSet,
}

/// No pair is taken.
pub fn none_taken(alloc: Global) -> Taken
    ensures entries { result.entries ≡ [] }
    ensures knows { KnowsPairs result }
{
    Taken {
        entries: List::new(alloc),
        pairs: PairSet::new(alloc),
    }
}

/// Takes the pair of an entry.
pub fn take(taken: &mut Taken, entry: (u64, u64, u64)) -> Result<(), Memory>
    requires { KnowsPairs taken.old }
    ensures entries { OnOk result (taken.new.entries ≡ taken.old.entries ++ entry ∷ []) }
    ensures knows { OnOk result (KnowsPairs taken.new) }
{
    taken.pairs.insert(entry.1, entry.2)?;
    taken.entries.push(entry)?;
    Ok(())
}

/// Whether a pair is taken.
pub fn is_taken(taken: &Taken, a: u64, b: u64) -> bool
    requires { KnowsPairs taken.now }
    ensures { result ≡ has taken.now.entries a b }
{
    taken.pairs.has(a, b)
}
