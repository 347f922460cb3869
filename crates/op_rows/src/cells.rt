//! What each table of a side has at one identifier, and copies of what tables have there.
//!
//! Cells of at most two tables stand in the value itself, so an identifier takes no memory for them.
//! Those of more tables stand in a list.
ghost use Rattle.std.specs.Prelude.{◌≡◌, [], ◌∷◌, ◌++◌, length, IfOk, MatchOption};
ghost use Rattle.op_law.specs.Tables.{contents};
ghost use Rattle.op_rows.specs.Cells.{cells_at};
ghost use Rattle.op_rows.specs.Held.{cells_held};

use op_law::{copied, copy_of};
use par_base::{List, Memory, Row};
use row_store::Table;
use std::alloc::Global;
use std::marker::Model;
use std::{mem, slice};

/// Where the cells stand.
#[derive(Drop)]
enum Held {
    Nothing,
    One(Option<Row>),
    Two([Option<Row>; 2]),
    Listed(List<Option<Row>>),
}

/// What each table of a side has at one identifier: a row, or none. Contracts see the list.
#[derive(Drop)]
pub struct Cells {
    held: Held,
}

impl Model for Cells {
    ghost use Rattle.op_rows.specs.Cells.{Cells as CellList};
    ghost use Rattle.op_rows.specs.Held.{cells_held};

    ghost Value = { CellList };

    ghost view = { λ cells. cells_held cells.held };
}

impl Cells {
    /// What a side without tables has.
    pub fn none() -> Cells
        ensures { result ≡ [] }
    {
        Cells {
            held: Held::Nothing,
        }
    }

    /// What a side with one table has.
    pub fn one(cell: Option<Row>) -> Cells
        ensures { result ≡ cell ∷ [] }
    {
        Cells {
            held: Held::One(cell),
        }
    }

    /// What a side with two tables has.
    pub fn two(first: Option<Row>, second: Option<Row>) -> Cells
        ensures { result ≡ first ∷ second ∷ [] }
    {
        Cells {
            held: Held::Two([first, second]),
        }
    }

    /// What any number of tables has. It takes no memory, and keeps that of the list.
    pub fn from_list(cells: List<Option<Row>>) -> Cells
        ensures { result ≡ cells }
    {
        Cells {
            held: Held::Listed(cells),
        }
    }

    /// The same, and what one table more has. From three tables on it takes memory.
    pub fn with(self, alloc: Global, cell: Option<Row>) -> Result<Cells, Memory>
        ensures { IfOk result (λ made. made ≡ self ++ cell ∷ []) }
    {
        let Cells { held } = self;
        match held {
            Held::Nothing => Ok(Cells::one(cell)),
            Held::One(first) => Ok(Cells::two(first, cell)),
            Held::Two(cells) => three_cells(alloc, cells, cell),
            Held::Listed(cells) => list_with(cells, cell),
        }
    }

    /// The number of tables.
    pub fn len(&self) -> usize
        ensures { result ≡ length self.now }
    {
        self.as_slice().len()
    }

    /// The cells in their order.
    pub fn as_slice(&self) -> &[Option<Row>]
        ensures { result.now ≡ self.now }
    {
        match &self.held {
            Held::Nothing => &[],
            Held::One(cell) => slice::from_ref(cell),
            Held::Two(cells) => cells,
            Held::Listed(cells) => cells.as_slice(),
        }
    }

    /// Takes out what the last table has.
    pub fn pop(&mut self) -> Option<Option<Row>>
        ensures { MatchOption result ((self.old ≡ []) × (self.new ≡ [])) (λ last. self.old
            ≡ self.new ++ last ∷ []) }
    {
        take_last(&mut self.held)
    }
}

fn take_last(held: &mut Held) -> Option<Option<Row>>
    ensures { MatchOption result ((cells_held held.old ≡ []) × (cells_held held.new ≡ []))
        (λ last. cells_held held.old ≡ cells_held held.new ++ last ∷ []) }
{
    match mem::replace(held, Held::Nothing) {
        Held::Nothing => None,
        Held::One(last) => Some(last),
        Held::Two(cells) => {
            let (first, last) = cells.into();
            *held = Held::One(first);
            Some(last)
        }
        Held::Listed(cells) => {
            let mut left = cells;
            let last = left.pop();
            *held = Held::Listed(left);
            last
        }
    }
}

fn three_cells(alloc: Global, cells: [Option<Row>; 2], third: Option<Row>) -> Result<Cells, Memory>
    ensures { IfOk result (λ made. made ≡ cells ++ third ∷ []) }
{
    let (first, second) = cells.into();
    let mut all = List::new(alloc);
    all.push(first)?;
    all.push(second)?;
    all.push(third)?;
    Ok(Cells::from_list(all))
}

fn list_with(cells: List<Option<Row>>, cell: Option<Row>) -> Result<Cells, Memory>
    ensures { IfOk result (λ made. made ≡ cells ++ cell ∷ []) }
{
    let mut all = cells;
    all.push(cell)?;
    Ok(Cells::from_list(all))
}

/// A copy of what each of the tables has at the identifier. A table takes a binary search.
pub(crate) fn cells_of(alloc: Global, tables: &[Table], id: u64) -> Result<Cells, Memory>
    ensures { IfOk result (λ cells. cells ≡ cells_at (contents tables.now) id) }
{
    let mut cells = Cells::none();
    for table in tables {
        cells = cells.with(alloc, copy_of(alloc, table, id)?)?;
    }
    Ok(cells)
}

/// Equal cells.
pub(crate) fn copy_items(alloc: Global, cells: &[Option<Row>]) -> Result<Cells, Memory>
    ensures { IfOk result (λ made. made ≡ cells.now) }
{
    let mut made = Cells::none();
    for cell in cells {
        made = made.with(alloc, copied(alloc, cell.as_ref())?)?;
    }
    Ok(made)
}
