//! A write or an evolution on its way: what was before, and what it has made so far.
ghost use Rattle.std.specs.Prelude.{◌≡◌, ◌≤◌, length, map, IfOk, OnOk};
ghost use Rattle.op_law.specs.Calls.{seen, MapsWithin};
ghost use Rattle.op_law.specs.Premises.{SomeMap};
ghost use Rattle.version_model.specs.Steps.{pair_in, directed};
ghost use Rattle.version_model.specs.Calls.{before_state, crossing_of, made_state, seen_from, Crosses};
ghost use Rattle.version_model.specs.Making.{HasMore};

use crate::Numbered;
use crate::crossing::{Way, map_over};
use crate::now::{memory_at, put_memory, put_side, side_now};
use expr_lang::Steps;
use id_memory::{IdCounter, PairMemory};
use op_law::{Operator, Pair};
use par_base::{Fault, IdsSpent, List, Memory};
use row_store::Table;
use std::alloc::Global;
use std::sync::ledger::Ledger;

/// The tables and memories before a write or an evolution, and the next identifier.
#[derive(Clone, Copy)]
pub struct Before<'a> {
    pub tables: &'a [Numbered<Table>],
    pub memories: &'a [Numbered<PairMemory>],
    pub next: u64,
}

/// What a write or an evolution has made so far, in order, and the counter after all that it has
/// drawn.
#[derive(Drop)]
pub struct Made {
    pub tables: List<Numbered<Table>>,
    pub memories: List<Numbered<PairMemory>>,
    pub ids: IdCounter,
}

/// The old pair of a way.
pub fn old_pair<O>(alloc: Global, before: Before<'_>, over: &Way<'_, O>) -> Result<Pair, Memory>
    requires near { length over.now.near.now ≤ 2 }
    requires far { length over.now.far.now ≤ 2 }
    ensures { IfOk result (λ pair. seen_from over.now.backward (seen pair)
        ≡ pair_in (before_state before.entry) (crossing_of over.now)) }
{
    let near = side_now(alloc, before.tables, &[], over.near)?;
    let far = side_now(alloc, before.tables, &[], over.far)?;
    let memory = memory_at(alloc, before.memories, over.number)?;
    let (source, target) = if over.backward {
        (far, near)
    } else {
        (near, far)
    };
    Ok(Pair {
        source,
        target,
        memory,
    })
}

/// Makes the far side of a way from the near one and the old pair.
pub fn cross<O: Operator, L: Ledger>(
    alloc: Global,
    before: Before<'_>,
    made: &mut Made,
    over: &Way<'_, O>,
    old: &Pair,
    steps: &mut Steps<L>,
) -> Result<(), Fault<IdsSpent>>
    requires near { length over.now.near.now ≤ 2 }
    requires far { length (seen_from over.now.backward (seen old.now)).target
        ≡ length over.now.far.now }
    requires may { SomeMap (directed over.now.backward (O.meaning over.now.operator.now))
        (map (made_state before made.old).tables over.now.near.now)
        (seen_from over.now.backward (seen old.now)) made.old.ids.next }
    ensures crosses { Crosses O.meaning before.entry (crossing_of over.now)
        (seen_from over.now.backward (seen old.now))
        made.old made.new result }
    ensures has { OnOk result (HasMore (crossing_of over.now) made.old made.new) }
    ensures steps { MapsWithin (directed over.now.backward (O.meaning over.now.operator.now))
        (map (made_state before.entry made.old).tables over.now.near.now)
        (seen_from over.now.backward (seen old.now)) steps.old steps.new }
{
    let near = side_now(alloc, before.tables, made.tables.as_slice(), over.near)?;
    let far = map_over(
        alloc,
        over.operator,
        over.backward,
        &near,
        old,
        &mut made.ids,
        steps,
    )?;
    put_side(&mut made.tables, over.far, far.side)?;
    put_memory(&mut made.memories, over.number, far.memory)?;
    Ok(())
}
