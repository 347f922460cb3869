//! The changes of the auxiliary tables of one operator, once a write was carried.
ghost use Rattle.std.specs.Prelude.{◌≡◌, true, map, length, [], IfOk};
ghost use Rattle.op_law.specs.Calls.{seen, tables_of};
ghost use Rattle.op_law.specs.Premises.{SomePair};
ghost use Rattle.row_changes.specs.Changed.{changed_tables, AreChangesOf};
ghost use Rattle.version_model.specs.Kept.{latest_of as latest_of_lem, newer_pairs};
ghost use Rattle.version_model.specs.Steps.{directed};
ghost use Rattle.version_model.specs.Calls.{crossing_of, seen_from};
ghost use Rattle.changes_walk.specs.Changing.{latest_changes};
ghost use Rattle.changes_walk.specs.Auxiliary.{aux_beside, pair_made as pair_made_lem, AreAuxChanges, AuxTakes, FitPair, MayChangeAux};

use crate::before::pair_before;
use crate::near::side_of;
use crate::pair::read_over;
use crate::progress::Changing;
use crate::reader::StateRead;
use cell_changes::ByCells;
use expr_lang::Steps;
use id_memory::PairMemory;
use op_law::{Aux, Operator, Pair, Side};
use par_base::{List, Memory};
use row_changes::{SideChanges, changed_copies, differences};
use row_store::Changes;
use std::alloc::Global;
use std::sync::ledger::Ledger;
use version_model::{Numbered, Way, latest_of};

/// A copy of a side, with the last changes of its tables.
fn changed_side(
    alloc: Global,
    side: &Side,
    made: &[Numbered<Changes>],
    numbers: &[u32],
) -> Result<Side, Memory>
    requires { AreChangesOf side.now (map (latest_changes made.now) numbers.now) }
    ensures { IfOk result (λ new. new
        ≡ changed_tables side.now (map (latest_changes made.now) numbers.now)) }
{
    let changes = side_of(alloc, made, numbers)?;
    let tables = changed_copies(alloc, side.tables(), changes.tables.as_slice())?;
    Ok(Side::new(tables))
}

/// A copy of the memory that was made last under a number, else of the old one.
fn memory_made(
    made: &[Numbered<PairMemory>],
    number: u32,
    old: &PairMemory,
) -> Result<PairMemory, Memory>
    ensures { IfOk result (λ memory. memory.entries
        ≡ newer_pairs (latest_of_lem made.now number) old.now.entries) }
{
    match latest_of(made, number) {
        Some(memory) => memory.copy(),
        None => old.copy(),
    }
}

/// What the changes make of a pair between these tables.
fn pair_made(
    alloc: Global,
    made: &Changing,
    source: &[u32],
    target: &[u32],
    number: u32,
    old: &Pair,
) -> Result<Pair, Memory>
    requires { FitPair made.now source.now target.now (seen old.now) }
    ensures { IfOk result (λ pair. seen pair
        ≡ pair_made_lem made.now source.now target.now number (seen old.now)) }
{
    let tables = made.tables.as_slice();
    Ok(Pair {
        source: changed_side(alloc, &old.source, tables, source)?,
        target: changed_side(alloc, &old.target, tables, target)?,
        memory: memory_made(made.memories.as_slice(), number, &old.memory)?,
    })
}

/// What the changes make of the old pair of a way.
fn pair_over<O>(
    alloc: Global,
    made: &Changing,
    over: &Way<'_, O>,
    old: &Pair,
) -> Result<Pair, Memory>
    requires { FitPair made.now over.now.near.now over.now.far.now
        (seen_from over.now.backward (seen old.now)) }
    ensures { IfOk result (λ pair. seen_from over.now.backward (seen pair)
        ≡ pair_made_lem made.now over.now.near.now over.now.far.now over.now.number
        (seen_from over.now.backward (seen old.now))) }
{
    if over.backward {
        pair_made(alloc, made, over.far, over.near, over.number, old)
    } else {
        pair_made(alloc, made, over.near, over.far, over.number, old)
    }
}

/// The auxiliary tables of a pair whose near side is stored.
fn aux_over<O: Operator, L: Ledger>(
    alloc: Global,
    operator: &O,
    backward: bool,
    pair: &Pair,
    steps: &mut Steps<L>,
) -> Result<Aux, Memory>
    requires { SomePair (directed backward (O.meaning operator.now))
        (seen_from backward (seen pair.now)) }
    ensures { IfOk result (λ aux. tables_of aux
        ≡ (directed backward (O.meaning operator.now)).aux_at_source
        (seen_from backward (seen pair.now))) }
{
    if backward {
        operator.aux_at_target(alloc, pair, steps)
    } else {
        operator.aux_at_source(alloc, pair, steps)
    }
}

/// Whether no auxiliary tables are kept.
fn is_bare(aux: &Aux) -> bool
    ensures { result ≡ true → tables_of aux.now ≡ [] }
{
    aux.tables.is_empty()
}

/// Over an operator that treats each identifier by itself, from the old rows of the identifiers
/// that the changes of both sides name. Its memory is empty, and stays so.
fn aux_local<O: ByCells, D: StateRead, L: Ledger>(
    alloc: Global,
    over: &Way<'_, O>,
    rows: &D,
    made: &Changing,
    aux: &Aux,
    steps: &mut Steps<L>,
) -> Result<SideChanges, Memory>
    requires local { (O.meaning over.now.operator.now).is_local ≡ true }
    requires may { MayChangeAux O.meaning (D.state rows.now) made.now (crossing_of over.now) }
    requires aux { tables_of aux.now
        ≡ aux_beside O.meaning (D.state rows.now) (crossing_of over.now) }
    ensures answer { IfOk result (λ changes. AreAuxChanges O.meaning (D.state rows.now) made.now
        (crossing_of over.now) (tables_of aux.now) changes.tables) }
    ensures steps { AuxTakes O.meaning (crossing_of over.now) made.now steps.old steps.new }
{
    let near = side_of(alloc, made.tables.as_slice(), over.near)?;
    let far = side_of(alloc, made.tables.as_slice(), over.far)?;
    let mut old = read_over(rows, over);
    over.operator
        .aux_differences(alloc, over.backward, &near, &far, &mut old, aux, steps)
}

/// Over any operator, from its old pair as a whole.
fn aux_whole<O: Operator, D: StateRead, L: Ledger>(
    alloc: Global,
    over: &Way<'_, O>,
    rows: &D,
    made: &Changing,
    aux: &Aux,
    steps: &mut Steps<L>,
) -> Result<SideChanges, Memory>
    requires may { MayChangeAux O.meaning (D.state rows.now) made.now (crossing_of over.now) }
    requires aux { tables_of aux.now
        ≡ aux_beside O.meaning (D.state rows.now) (crossing_of over.now) }
    ensures { IfOk result (λ changes. AreAuxChanges O.meaning (D.state rows.now) made.now
        (crossing_of over.now) (tables_of aux.now) changes.tables) }
{
    let old = pair_before(alloc, rows, over)?;
    let new = pair_over(alloc, made, over, &old)?;
    let now = aux_over(alloc, over.operator, over.backward, &new, steps)?;
    Ok(differences(alloc, aux.tables.as_slice(), now.tables.as_slice())?)
}

/// Exactly the difference between the auxiliary tables of an operator in the old state and in the
/// one that the changes make. The near side of the way is the stored one. Where no auxiliary tables
/// are kept, none come, and it reads nothing. Over an operator that treats each identifier by itself it
/// reads of the old state the rows of the identifiers that the changes name, and no others; over any
/// other it copies the tables on both sides.
pub fn aux_changes<O: ByCells, D: StateRead, L: Ledger>(
    alloc: Global,
    over: &Way<'_, O>,
    rows: &D,
    made: &Changing,
    aux: &Aux,
    steps: &mut Steps<L>,
) -> Result<SideChanges, Memory>
    requires may { MayChangeAux O.meaning (D.state rows.now) made.now (crossing_of over.now) }
    requires aux { tables_of aux.now
        ≡ aux_beside O.meaning (D.state rows.now) (crossing_of over.now) }
    ensures answer { IfOk result (λ changes. AreAuxChanges O.meaning (D.state rows.now) made.now
        (crossing_of over.now) (tables_of aux.now) changes.tables) }
    ensures steps { AuxTakes O.meaning (crossing_of over.now) made.now steps.old steps.new }
{
    if is_bare(aux) {
        return Ok(SideChanges {
            tables: List::new(alloc),
        });
    }
    if over.operator.is_local() {
        aux_local(alloc, over, rows, made, aux, steps)
    } else {
        aux_whole(alloc, over, rows, made, aux, steps)
    }
}
