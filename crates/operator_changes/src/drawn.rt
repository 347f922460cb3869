//! The identifiers of a footprint, with those that a mapping drew.
ghost use Rattle.std.specs.Prelude.{◌≡◌, ◌≤◌, IfOk};
ghost use Rattle.op_law.specs.Identifiers.{IdsRise};
ghost use Rattle.operator_changes.specs.Footprint.{ids_under, with_drawn};

use par_base::{List, Memory};
use std::alloc::Global;

fn ids_below(alloc: Global, ids: &[u64], n: u64) -> Result<List<u64>, Memory>
    ensures { IfOk result (λ made. made ≡ ids_under n ids.now) }
{
    let mut made = List::new(alloc);
    for id in ids {
        if *id < n {
            made.push(*id)?;
        }
    }
    Ok(made)
}

/// The identifiers of a footprint, and those that were drawn.
pub fn add_drawn(alloc: Global, ids: &[u64], from: u64, to: u64) -> Result<List<u64>, Memory>
    requires { from ≤ to }
    ensures value { IfOk result (λ all. all ≡ with_drawn ids.now from to) }
    ensures rise { IdsRise 0 ids.now → IfOk result (λ all. IdsRise 0 all) }
{
    let mut all = ids_below(alloc, ids, from)?;
    for id in from..to {
        all.push(id)?;
    }
    Ok(all)
}
