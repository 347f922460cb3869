//! What a built operator finds by keys, or by a memory.
ghost use Rattle.std.specs.Prelude.{IfOk};
ghost use Rattle.op_any.specs.Operators.{meaning_of};
ghost use Rattle.op_any.specs.Views.{built_view};
ghost use Rattle.fk_closing.specs.Found.{AreAmong};
ghost use Rattle.op_seeks.specs.Places.{place_of};
ghost use Rattle.op_seeks.specs.Seeking.{ApartOver, FootprintOf};
ghost use Rattle.op_seeks.specs.declared.known.Known.TheVariants.{Entries, Keys};

use crate::condition::{ids_of_decompose_on, ids_of_join_on};
use crate::decompose::{apart_of_decompose, footprint_of_decompose, footprint_of_outer};
use crate::join::{apart_of_join, footprint_of_join};
use crate::outer::ids_of_outer_on;
use crate::sought::{Sought, at_least, listed, sought_in};
use crate::{CondKeys, Crossed};
use expr_lang::Steps;
use fk_closing::FkKeys;
use op_any::BuiltOp;
use par_base::{List, Memory};
use std::alloc::Global;
use std::sync::ledger::Ledger;

/// A footprint by foreign keys.
pub(crate) fn foot_by_keys(
    alloc: Global,
    operator: &BuiltOp,
    keys: &FkKeys<'_>,
    crossed: Crossed<'_>,
    wanted: &[u64],
) -> Result<List<u64>, Memory>
    ensures foot { let b = built_view operator.now in IfOk result (FootprintOf (meaning_of b)
        (place_of b) crossed.entry.backward (Keys keys.now) crossed.entry.near.now.tables) }
    ensures holds { IfOk result (AreAmong wanted.now) }
{
    let backward = crossed.backward;
    let near = crossed.near;
    match sought_in(operator) {
        Sought::Decompose(it) => footprint_of_decompose(alloc, it, backward, keys, near, wanted),
        Sought::Outer(it) => footprint_of_outer(alloc, it, backward, keys, near, wanted),
        Sought::Join(it) => footprint_of_join(alloc, it, backward, keys, near, wanted),
        Sought::JoinOn(_) => at_least(alloc, keys, wanted),
        Sought::DecomposeOn(_) => at_least(alloc, keys, wanted),
        Sought::OuterOn(_) => at_least(alloc, keys, wanted),
        Sought::Nothing => at_least(alloc, keys, wanted),
    }
}

/// Identifiers that keep changes to themselves, by foreign keys.
pub(crate) fn apart_by_keys(
    alloc: Global,
    operator: &BuiltOp,
    keys: &FkKeys<'_>,
    crossed: Crossed<'_>,
    wanted: &[u64],
) -> Result<List<u64>, Memory>
    ensures apart { let b = built_view operator.now in IfOk result (ApartOver (meaning_of b)
        (place_of b) crossed.entry.backward (Keys keys.now) crossed.entry.near.now.tables
        crossed.entry.changes.now.tables) }
    ensures holds { IfOk result (AreAmong wanted.now) }
{
    match sought_in(operator) {
        Sought::Decompose(it) => apart_of_decompose(alloc, it, keys, crossed, wanted),
        Sought::Outer(it) => apart_of_decompose(alloc, it, keys, crossed, wanted),
        Sought::Join(it) => apart_of_join(alloc, it, keys, crossed, wanted),
        Sought::JoinOn(_) => at_least(alloc, keys, wanted),
        Sought::DecomposeOn(_) => at_least(alloc, keys, wanted),
        Sought::OuterOn(_) => at_least(alloc, keys, wanted),
        Sought::Nothing => at_least(alloc, keys, wanted),
    }
}

/// Both by a memory.
pub(crate) fn ids_by_entries<L: Ledger>(
    alloc: Global,
    operator: &BuiltOp,
    it: &CondKeys<'_>,
    crossed: Crossed<'_>,
    wanted: &[u64],
    steps: &mut Steps<L>,
) -> Result<List<u64>, Memory>
    ensures foot { let b = built_view operator.now in IfOk result (FootprintOf (meaning_of b)
        (place_of b) crossed.entry.backward (Entries it.now) crossed.entry.near.now.tables) }
    ensures apart { let b = built_view operator.now in IfOk result (ApartOver (meaning_of b)
        (place_of b) crossed.entry.backward (Entries it.now) crossed.entry.near.now.tables
        crossed.entry.changes.now.tables) }
    ensures holds { IfOk result (AreAmong wanted.now) }
{
    match sought_in(operator) {
        Sought::JoinOn(join) => ids_of_join_on(alloc, join, it, crossed, wanted, steps),
        Sought::DecomposeOn(join) => ids_of_decompose_on(alloc, join, it, crossed, wanted, steps),
        Sought::OuterOn(join) => ids_of_outer_on(alloc, join, it, crossed, wanted, steps),
        Sought::Decompose(_) => listed(alloc, wanted),
        Sought::Outer(_) => listed(alloc, wanted),
        Sought::Join(_) => listed(alloc, wanted),
        Sought::Nothing => listed(alloc, wanted),
    }
}
