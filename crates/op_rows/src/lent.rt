//! What tables have at one identifier, lent: whoever reads it copies no row and makes no list.
ghost use Rattle.std.specs.Prelude.{◌≡◌, length, IfOk};
ghost use Rattle.std.specs.Option.{option_copied};
ghost use Rattle.op_law.specs.Tables.{contents};
ghost use Rattle.op_rows.specs.Cells.{cells_at, nth_cell};

use crate::Cells;
use crate::cells::{cells_of, copy_items};
use par_base::{Memory, Row};
use row_store::Table;
use std::alloc::Global;
use std::marker::Model;

/// From where the rows are lent.
#[derive(Clone, Copy)]
enum Lent<'a> {
    /// What these tables have at the identifier.
    Stored(&'a [Table], u64),
    /// What was made.
    Made(&'a [Option<Row>]),
}

/// What each of some tables has at one identifier, to be read. Contracts see the cells.
#[derive(Drop)]
pub struct CellsAt<'a> {
    lent: Lent<'a>,
}

impl<'a> Model for CellsAt<'a> {
    ghost use Rattle.op_rows.specs.Cells.{Cells};
    ghost use Rattle.op_rows.specs.Lent.{cells_in};

    ghost Value = { Cells };

    ghost view = { λ it. cells_in it.lent };
}

impl<'a> CellsAt<'a> {
    /// What these tables have. It takes constant time.
    pub fn stored(tables: &'a [Table], id: u64) -> CellsAt<'a>
        ensures { result ≡ cells_at (contents tables.now) id }
    {
        CellsAt {
            lent: Lent::Stored(tables, id),
        }
    }

    /// What was made, and isn't stored. It takes constant time.
    pub fn made(cells: &'a Cells) -> CellsAt<'a>
        ensures { result ≡ cells.now }
    {
        CellsAt {
            lent: Lent::Made(cells.as_slice()),
        }
    }

    /// The number of tables.
    pub fn len(&self) -> usize
        ensures { result ≡ length self.now }
    {
        match self.lent {
            Lent::Stored(tables, _) => tables.len(),
            Lent::Made(cells) => cells.len(),
        }
    }
}

fn stored_row(tables: &[Table], id: u64, at: usize) -> Option<&Row>
    ensures { option_copied result ≡ nth_cell at (cells_at (contents tables.now) id) }
{
    match tables.get(at) {
        Some(table) => table.get(id),
        None => None,
    }
}

fn made_row(cells: &[Option<Row>], at: usize) -> Option<&Row>
    ensures { option_copied result ≡ nth_cell at cells.now }
{
    match cells.get(at) {
        Some(Some(row)) => Some(row),
        _ => None,
    }
}

/// The row of a table of a side, counted from 0. A table that is stored takes a look-up, so whoever
/// reads the row often keeps it.
pub fn row_at<'a>(cells: &CellsAt<'a>, at: usize) -> Option<&'a Row>
    ensures { option_copied result ≡ nth_cell at cells.now }
{
    match cells.lent {
        Lent::Stored(tables, id) => stored_row(tables, id, at),
        Lent::Made(cells) => made_row(cells, at),
    }
}

/// A copy of all rows. A table that is stored takes a look-up.
pub fn copy_cells(alloc: Global, cells: &CellsAt<'_>) -> Result<Cells, Memory>
    ensures { IfOk result (λ made. made ≡ cells.now) }
{
    match cells.lent {
        Lent::Stored(tables, id) => cells_of(alloc, tables, id),
        Lent::Made(cells) => copy_items(alloc, cells),
    }
}
