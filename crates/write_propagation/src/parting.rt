//! The write of a part of a tree that is the part of the write.
ghost use Rattle.std.specs.Prelude.{◌≡◌, ◌≤◌, ℕ, true, IfOk, IfSome};
ghost use Rattle.row_store.specs.Changes.{ChangesRise};
ghost use Rattle.op_law.specs.Identifiers.{has_id, IdsRise};
ghost use Rattle.row_changes.specs.Touched.{AllPass};
ghost use Rattle.operator_changes.specs.Footprint.{passes};
ghost use Rattle.changes_walk.specs.Changing.{latest_changes};
ghost use Rattle.db_state.specs.Fields.{state_for};
ghost use Rattle.db_state.specs.Parts.{SplitsAt};
ghost use Rattle.kept_keys.specs.Kept.{AreKeysOf};
ghost use Rattle.sought_ids.specs.Found.{AreAmong};
ghost use Rattle.write_plans.specs.Making.{IsMaking, MayPlan};
ghost use Rattle.write_propagation.specs.PartMade.{named_in, ClosesTree, IsPartMade, IsTried, SeesTree};

use cell_changes::ByCells;
use db_state::{Db, Sight};
use expr_lang::Steps;
use layout_rules::holds;
use op_law::Operator;
use operator_changes::add_drawn;
use par_base::{Fault, List, Memory};
use row_changes::copy_changes;
use row_store::Changes;
use sought_ids::{Carried, Kept, Seeks, closed_over, is_enough, more_ids};
use std::alloc::Global;
use std::sync::ledger::Ledger;
use table_keys::TableKeys;
use version_model::Numbered;
use write_plans::{Making, RowWrite, Tree, make_write, named_ids};

/// How often the write of a part is tried at most.
const TRIES: u32 = 64;

/// A part is sought where a stored table of the tree has more rows for each change than these.
const ROWS_A_CHANGE: usize = 4;

/// A write, and its tree.
#[derive(Clone, Copy)]
pub(crate) struct Writing<'a> {
    pub(crate) tree: &'a Tree,
    pub(crate) written: &'a RowWrite,
}

/// Identifiers, and what a write makes of what stands at them.
#[derive(Drop)]
pub struct PartMade {
    pub ids: List<u64>,
    pub making: Making,
}

/// What a try came to.
#[derive(Drop)]
pub enum Tried {
    /// The write of the part is the part of the write.
    Made(PartMade),
    /// It takes these identifiers at least.
    More(List<u64>),
    /// No part is found.
    Never,
}

/// Whether the changes of a write are few, beside the rows of its tree: else all rows are copied in
/// less time than a part is found.
pub(crate) fn are_few<O: Operator>(db: &Db<O>, writing: Writing<'_>) -> bool {
    let tables = writing.tree.tables.as_slice();
    let changes = writing.written.changes.len();
    for item in db.stored() {
        if holds(tables, item.number) && item.value.len() / ROWS_A_CHANGE > changes {
            return true;
        }
    }
    false
}

fn copy_write(alloc: Global, written: &RowWrite) -> Result<RowWrite, Memory>
    ensures { IfOk result (λ copy. copy ≡ written.now) }
{
    Ok(RowWrite {
        set: written.set,
        table: written.table,
        changes: copy_changes(alloc, &written.changes)?,
        ids: written.ids.copy(),
    })
}

fn has(ids: &[u64], id: u64) -> bool
    ensures { result ≡ true → has_id ids.now id ≡ true }
{
    match ids.binary_search(&id) {
        Ok(at) => match ids.get(at) {
            Some(found) => *found == id,
            None => false,
        },
        Err(_) => false,
    }
}

// Whether the identifier is listed, or wasn't drawn before the write.
fn is_own(ids: &[u64], next: u64, id: u64) -> bool
    ensures { result ≡ true → passes ids.now next id ≡ true }
{
    id >= next || has(ids, id)
}

fn are_own(ids: &[u64], next: u64, changes: &Changes) -> bool
    ensures { result ≡ true → AllPass (passes ids.now next) changes.now }
{
    for change in changes.as_slice() {
        if !is_own(ids, next, change.id) {
            return false;
        }
    }
    true
}

fn all_own(ids: &[u64], next: u64, made: &[Numbered<Changes>]) -> bool
    ensures { result ≡ true → (t : ℕ) → AllPass (passes ids.now next)
        (latest_changes made.now t) }
{
    for item in made {
        if !are_own(ids, next, &item.value) {
            return false;
        }
    }
    true
}

// Whether the identifiers see all that was carried.
fn sees_all<O: Seeks, L: Ledger>(
    alloc: Global,
    db: &Db<O>,
    keys: &[Numbered<TableKeys>],
    writing: Writing<'_>,
    part: &PartMade,
    steps: &mut Steps<L>,
) -> Result<bool, Memory>
    requires may { MayPlan O.meaning db.now writing.tree.now writing.written.now }
    requires right { AreKeysOf (state_for O.meaning db.now).tables keys.now }
    requires rises { db.now.ids.next ≤ part.now.making.made.ids.next }
    ensures { IfOk result (λ sees. sees ≡ true → SeesTree O.meaning O.seeks db.now keys.now
        writing.entry.tree.now writing.entry.written.now part.now.ids part.now.making) }
{
    let made = &part.making.made;
    let seen = add_drawn(alloc, part.ids.as_slice(), db.ids().next(), made.ids.next())?;
    let kept = Kept {
        keys,
        memories: db.memories(),
    };
    let carried = Carried {
        kept,
        made: made.tables.as_slice(),
        set: writing.written.set,
        operators: writing.tree.operators.as_slice(),
    };
    is_enough(alloc, db.graph(), carried, seen.as_slice(), steps)
}

// Those identifiers, and others that it has to see.
fn grown<O: Seeks, L: Ledger>(
    alloc: Global,
    db: &Db<O>,
    keys: &[Numbered<TableKeys>],
    writing: Writing<'_>,
    part: PartMade,
    steps: &mut Steps<L>,
) -> Result<List<u64>, Memory>
    requires may { MayPlan O.meaning db.now writing.tree.now writing.written.now }
    requires right { AreKeysOf (state_for O.meaning db.now).tables keys.now }
    ensures { IfOk result (AreAmong part.ids) }
{
    let PartMade { ids, making } = part;
    let kept = Kept {
        keys,
        memories: db.memories(),
    };
    let carried = Carried {
        kept,
        made: making.made.tables.as_slice(),
        set: writing.written.set,
        operators: writing.tree.operators.as_slice(),
    };
    more_ids(alloc, db.graph(), carried, ids, steps)
}

// Whether what was made of the part is the part of the write.
fn judge<O: Seeks, L: Ledger>(
    alloc: Global,
    db: &Db<O>,
    keys: &[Numbered<TableKeys>],
    writing: Writing<'_>,
    part: PartMade,
    steps: &mut Steps<L>,
) -> Result<Tried, Memory>
    requires may { MayPlan O.meaning db.now writing.tree.now writing.written.now }
    requires right { AreKeysOf (state_for O.meaning db.now).tables keys.now }
    requires closed { ClosesTree O.meaning O.seeks db.now keys.now writing.tree.now
        writing.written.now part.ids }
    requires made { IsMaking O.meaning db.now writing.tree.now writing.written.now
        (has_id part.ids) (λ id. true) part.making }
    ensures { IfOk result (IsTried O.meaning O.seeks db.now keys.now writing.entry.tree.now
        writing.entry.written.now) }
{
    let made = part.making.made.tables.as_slice();
    if !all_own(part.ids.as_slice(), db.ids().next(), made) {
        return Ok(Tried::Never);
    }
    if sees_all(alloc, db, keys, writing, &part, steps)? {
        return Ok(Tried::Made(part));
    }
    let more = grown(alloc, db, keys, writing, part, steps)?;
    Ok(Tried::More(more))
}

// What the write makes of what stands at these identifiers, unless it needs an identifier that the
// counter doesn't give.
fn make_seen<O: ByCells, L: Ledger>(
    alloc: Global,
    db: &Db<O>,
    writing: Writing<'_>,
    ids: &[u64],
    steps: &mut Steps<L>,
) -> Result<Option<Making>, Memory>
    requires may { MayPlan O.meaning db.now writing.tree.now writing.written.now }
    requires rise { ChangesRise 0 writing.written.now.changes }
    requires ids { IdsRise 0 ids.now }
    requires split { SplitsAt O.meaning db.now.graph.edges (state_for O.meaning db.now)
        writing.tree.now.operators (has_id ids.now) }
    requires named { AllPass (has_id ids.now) writing.written.now.changes }
    ensures { IfOk result (λ found. IfSome found (IsMaking O.meaning db.now writing.entry.tree.now
        writing.entry.written.now (has_id ids.now) (λ id. true))) }
{
    let copy = copy_write(alloc, writing.written)?;
    match make_write(alloc, db, writing.tree, copy, Sight::Part(ids), steps) {
        Ok(making) => Ok(Some(making)),
        Err(Fault::Refused(_)) => Ok(None),
        Err(Fault::Memory(memory)) => Err(memory),
    }
}

fn try_part<O: Seeks + ByCells, L: Ledger>(
    alloc: Global,
    db: &Db<O>,
    keys: &[Numbered<TableKeys>],
    writing: Writing<'_>,
    ids: List<u64>,
    steps: &mut Steps<L>,
) -> Result<Tried, Memory>
    requires may { MayPlan O.meaning db.now writing.tree.now writing.written.now }
    requires rise { ChangesRise 0 writing.written.now.changes }
    requires right { AreKeysOf (state_for O.meaning db.now).tables keys.now }
    requires begins { AreAmong (named_in writing.written.now.changes) ids }
    ensures { IfOk result (IsTried O.meaning O.seeks db.now keys.now writing.entry.tree.now
        writing.entry.written.now) }
{
    let operators = writing.tree.operators.as_slice();
    let changes = writing.written.changes.as_slice();
    let kept = Kept {
        keys,
        memories: db.memories(),
    };
    let Some(closed) = closed_over(alloc, db.graph(), kept, operators, changes, ids)? else {
        return Ok(Tried::Never);
    };
    let Some(making) = make_seen(alloc, db, writing, closed.as_slice(), steps)? else {
        return Ok(Tried::Never);
    };
    judge(
        alloc,
        db,
        keys,
        writing,
        PartMade {
            ids: closed,
            making,
        },
        steps,
    )
}

/// A part of the tree of which the write is made, so that it is the part of the write, where one is
/// found. It copies the rows of the part, so often as it grows, and looks up to three times for
/// each of its identifiers and each operator that seeks.
pub(crate) fn make_part<O: Seeks + ByCells, L: Ledger>(
    alloc: Global,
    db: &Db<O>,
    keys: &[Numbered<TableKeys>],
    writing: Writing<'_>,
    steps: &mut Steps<L>,
) -> Result<Option<PartMade>, Memory>
    requires may { MayPlan O.meaning db.now writing.tree.now writing.written.now }
    requires rise { ChangesRise 0 writing.written.now.changes }
    requires right { AreKeysOf (state_for O.meaning db.now).tables keys.now }
    ensures { IfOk result (λ found. IfSome found (IsPartMade O.meaning O.seeks db.now keys.now
        writing.entry.tree.now writing.entry.written.now)) }
{
    let mut ids = named_ids(alloc, &writing.written.changes)?;
    for _turn in 0..TRIES {
        match try_part(alloc, db, keys, writing, ids, steps)? {
            Tried::Made(part) => return Ok(Some(part)),
            Tried::More(more) => ids = more,
            Tried::Never => return Ok(None),
        }
    }
    Ok(None)
}
