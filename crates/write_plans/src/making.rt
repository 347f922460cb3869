//! What a write makes of what is seen of its tree, told by its changes.
ghost use Rattle.std.specs.Prelude.{◌≡◌, length, IfOk};
ghost use Rattle.row_store.specs.Changes.{ChangesRise};
ghost use Rattle.row_store.specs.Rows.{row_of};
ghost use Rattle.row_changes.specs.Touched.{AllPass};
ghost use Rattle.changes_walk.specs.Calls.{MayCarryBy};
ghost use Rattle.db_state.specs.Fields.{state_for};
ghost use Rattle.db_state.specs.Parts.{passes, MaySee, SeenWithin};
ghost use Rattle.write_plans.specs.Making.{copied_state, first_changes, names_of, CarriesWrite, CarriesWriteWithin, MakesWrite, MayPlan};

use crate::copies::{Copies, copy_tree};
use crate::plans::RowWrite;
use crate::tree::Tree;
use cell_changes::ByCells;
use changes_walk::{Changing, StateRead, carry_changes};
use db_state::{Db, Sight};
use expr_lang::Steps;
use id_memory::PairMemory;
use pair_parts::memory_part;
use par_base::{Fault, IdsSpent, List, Memory, Row};
use row_store::Table;
use std::alloc::Global;
use std::sync::ledger::Ledger;
use version_graph::Graph;
use version_model::{Numbered, memory_at, value_of};

/// What is seen of a tree, and what a write makes of it.
#[derive(Drop)]
pub struct Making {
    pub copies: Copies,
    pub made: Changing,
}

/// What is seen of a tree, with the next identifier, as a state.
#[derive(Clone, Copy)]
pub(crate) struct Seen<'a> {
    pub(crate) copies: &'a Copies,
    pub(crate) next: u64,
}

fn copy_row(alloc: Global, table: &Table, id: u64) -> Result<Option<Row>, Memory>
    ensures { IfOk result (λ row. row ≡ row_of table.now.rows id) }
{
    match table.get(id) {
        Some(row) => Ok(Some(row.copy(alloc)?)),
        None => Ok(None),
    }
}

impl StateRead for Seen<'_> {
    ghost state = { λ it. copied_state it.copies.now it.next };

    fn row(&self, alloc: Global, table: u32, id: u64) -> Result<Option<Row>, Memory> {
        match value_of(self.copies.tables.as_slice(), table) {
            Some(rows) => copy_row(alloc, rows, id),
            None => Ok(None),
        }
    }

    fn table(&self, alloc: Global, table: u32) -> Result<Table, Memory> {
        match value_of(self.copies.tables.as_slice(), table) {
            Some(rows) => rows.copy(),
            None => Ok(Table::new(alloc)),
        }
    }

    fn memory(&self, alloc: Global, operator: u32) -> Result<PairMemory, Memory> {
        memory_at(alloc, self.copies.memories.as_slice(), operator)
    }

    fn entries(&self, alloc: Global, operator: u32, ids: &[u64]) -> Result<PairMemory, Memory> {
        match value_of(self.copies.memories.as_slice(), operator) {
            Some(memory) => memory_part(alloc, memory, ids),
            None => Ok(PairMemory::new(alloc)),
        }
    }
}

/// The changes of the written table alone.
pub(crate) fn first_made(alloc: Global, written: RowWrite) -> Result<Changing, Memory>
    ensures { IfOk result (λ made. made ≡ first_changes written) }
{
    let RowWrite {
        set: _,
        table,
        changes,
        ids,
    } = written;
    let mut made = Changing {
        tables: List::new(alloc),
        memories: List::new(alloc),
        ids,
    };
    made.tables.push(Numbered {
        number: table,
        value: changes,
    })?;
    Ok(made)
}

/// Carries the changes of a write along its tree.
fn carry_write<O: ByCells, L: Ledger>(
    alloc: Global,
    graph: &Graph<O>,
    rows: Seen<'_>,
    written: RowWrite,
    operators: &[u32],
    steps: &mut Steps<L>,
) -> Result<Changing, Fault<IdsSpent>>
    requires { MayCarryBy O.meaning graph.now.edges (copied_state rows.copies.now rows.next)
        (first_changes written) written.set operators.now }
    ensures carries { CarriesWrite O.meaning graph.now.edges
        (copied_state rows.entry.copies.now rows.entry.next) written operators.now result }
    ensures steps { CarriesWriteWithin O.meaning graph.now.edges written operators.now steps.old
        steps.new }
{
    let set = written.set;
    let mut made = first_made(alloc, written)?;
    carry_changes(alloc, graph, &rows, &mut made, set, operators, steps)?;
    Ok(made)
}

/// Makes the write of what is seen: of all rows, or of those of some identifiers.
pub fn make_write<O: ByCells, L: Ledger>(
    alloc: Global,
    db: &Db<O>,
    tree: &Tree,
    written: RowWrite,
    sight: Sight<'_>,
    steps: &mut Steps<L>,
) -> Result<Making, Fault<IdsSpent>>
    requires may { MayPlan O.meaning db.now tree.now written }
    requires sees { MaySee O.meaning db.now.graph.edges (state_for O.meaning db.now)
        tree.now.operators sight }
    requires named { AllPass (passes sight) written.changes }
    requires rise { ChangesRise 0 written.changes }
    ensures makes { MakesWrite O.meaning db.now tree.now written (passes sight.entry)
        (names_of sight.entry) result }
    ensures steps { SeenWithin 8 sight.entry (length tree.now.operators) steps.old steps.new }
{
    let copies = copy_tree(alloc, db, tree, sight, steps)?;
    let rows = Seen {
        copies: &copies,
        next: db.ids().next(),
    };
    let operators = tree.operators.as_slice();
    let made = carry_write(alloc, db.graph(), rows, written, operators, steps)?;
    Ok(Making { copies, made })
}
