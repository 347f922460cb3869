//! A pass over identifiers, which makes tables from what is made at each identifier by itself.
ghost use Rattle.std.specs.Prelude.{◌≡◌, ℕ, ◌+◌, ◌*◌, ◌≤◌, [], ◌++◌, length, List, IfOk, OnOk};
ghost use Rattle.row_store.specs.Rows.{AreBelow};
ghost use Rattle.op_law.specs.Tables.{Tables, contents};
ghost use Rattle.op_rows.specs.Cells.{Cells, cells_at, with_row, tables_from};
ghost use Rattle.op_rows.specs.inner.CellLemmas.{IdsRise};
ghost use Rattle.op_rows.specs.inner.Passes.{AllBelow, IsBelowAt, PutsCell, without_rows, with_cells, AdmitsAt, AdmitsEach};
ghost use Rattle.op_rows.specs.RowMeaning.{RowMeaning};
ghost use Rattle.op_rows.specs.RowCalls.{NearRows};

use crate::Cells;
use expr_lang::Steps;
use par_base::{List, Memory, Row};
use row_store::Table;
use std::alloc::Global;
use std::sync::ledger::Ledger;

/// What is made at each identifier by itself.
pub(crate) trait MakesCells {
    /// What it supposes at an identifier.
    ghost takes: { Self → ℕ → Type 0 };

    ghost made: { Self → ℕ → Cells };

    /// The steps that one identifier may take.
    ghost most: { Self → ℕ };

    fn at<L: Ledger>(&self, alloc: Global, id: u64, steps: &mut Steps<L>) -> Result<Cells, Memory>
        requires { takes self.now id }
        ensures answer { IfOk result (λ cells. cells ≡ made self.now id) }
        ensures steps { steps.new ≤ steps.old + most self.now };
}

/// What is tried at each identifier by itself: whether auxiliary rows belong to rows.
pub(crate) trait AdmitsCells {
    ghost row_meaning: { Self → RowMeaning };

    /// The tables that are read.
    ghost near: { Self → Tables };

    ghost aux: { Self → Tables };

    fn admit_at<L: Ledger>(
        &self,
        alloc: Global,
        id: u64,
        steps: &mut Steps<L>,
    ) -> Result<Option<Cells>, Memory>
        requires { NearRows (row_meaning self.now) (cells_at (near self.now) id) }
        ensures { IfOk result (AdmitsAt (row_meaning self.now) (near self.now) (aux self.now) id) };
}

fn empty_tables(alloc: Global, count: usize) -> Result<Vec<Table>, Memory>
    ensures { IfOk result (λ made. contents made.items ≡ without_rows count) }
{
    let mut made = Vec::new(alloc);
    for _ in 0..count {
        made.push(Table::new(alloc))?;
    }
    Ok(made)
}

fn push_cell(table: &mut Table, id: u64, cell: Option<Row>) -> Result<(), Memory>
    requires { AreBelow table.old.rows id }
    ensures { OnOk result (table.new.rows ≡ table.old.rows ++ with_row id cell []) }
{
    match cell {
        Some(row) => table.push(id, row),
        None => Ok(()),
    }
}

/// Puts a cell of a greater identifier behind its table. A cell that has no table is let go.
#[tactic(auto, using(crate::proofs::PassLemmas::puts_there))]
fn push_at(tables: &mut [Table], at: usize, id: u64, cell: Option<Row>) -> Result<(), Memory>
    requires { IsBelowAt tables.old at id }
    ensures { OnOk result (PutsCell tables.old at id cell tables.new) }
{
    if at >= tables.len() {
        return Ok(());
    }
    push_cell(&mut tables[at], id, cell)
}

/// Puts the cells of a greater identifier behind the tables, each behind its own. Cells that have
/// no table are let go.
fn push_cells(tables: &mut [Table], id: u64, cells: Cells) -> Result<(), Memory>
    requires { AllBelow (contents tables.old) id }
    ensures { OnOk result (contents tables.new ≡ with_cells (contents tables.old) id cells) }
{
    let mut left = cells;
    // The last cell comes first, since it can be moved out without a gap.
    while let Some(cell) = left.pop() {
        push_at(tables, left.len(), id, cell)?;
    }
    Ok(())
}

/// The tables that have at each of these identifiers what is made there.
pub(crate) fn tabulate<M: MakesCells, L: Ledger>(
    alloc: Global,
    ids: &[u64],
    each: &M,
    count: usize,
    steps: &mut Steps<L>,
) -> Result<List<Table>, Memory>
    requires rise { IdsRise 0 ids.now }
    requires takes { (id : ℕ) → M.takes each.now id }
    ensures value { IfOk result (λ made. contents made ≡ tables_from count ids.now
        (M.made each.now)) }
    ensures steps { steps.new ≤ steps.old + M.most each.now * length ids.now }
{
    let mut tables = empty_tables(alloc, count)?;
    for id in ids {
        let cells = each.at(alloc, *id, steps)?;
        push_cells(&mut tables, *id, cells)?;
    }
    Ok(List::from_vec(tables))
}

/// The tables that are read back at each of these identifiers, or none as soon as one of them admits
/// nothing.
pub(crate) fn admit_each<A: AdmitsCells, L: Ledger>(
    alloc: Global,
    ids: &[u64],
    each: &A,
    count: usize,
    steps: &mut Steps<L>,
) -> Result<Option<List<Table>>, Memory>
    requires rise { IdsRise 0 ids.now }
    requires near { (id : ℕ) → NearRows (A.row_meaning each.now) (cells_at (A.near each.now) id) }
    ensures { IfOk result (AdmitsEach (A.row_meaning each.now) (A.near each.now)
        (A.aux each.now) count ids.now) }
{
    let mut tables = empty_tables(alloc, count)?;
    for id in ids {
        let Some(cells) = each.admit_at(alloc, *id, steps)? else {
            return Ok(None);
        };
        push_cells(&mut tables, *id, cells)?;
    }
    Ok(Some(List::from_vec(tables)))
}
