//! The tables of an operator's side, and the auxiliary tables that are kept beside a stored side.
ghost use Rattle.std.specs.Prelude.{◌≡◌, ◌≤◌, [], ◌∷◌, length, IfOk};
ghost use Rattle.op_law.specs.Calls.{tables_of};
ghost use Rattle.op_law.specs.Tables.{contents};

use par_base::{List, Memory};
use row_store::Table;
use std::alloc::Global;
use std::marker::Model;

/// The tables of one side of an operator, at most two. Contracts see the rows of each.
#[derive(Drop)]
pub struct Side {
    tables: List<Table>,
}

impl Model for Side {
    ghost use Rattle.std.specs.Prelude.{◌≤◌, length};
    ghost use Rattle.op_law.specs.Tables.{Tables, contents};

    ghost Value = { Tables };

    ghost view = { λ side. contents side.tables };

    ghost invariant = { λ side. length side.tables ≤ 2 };
}

impl Side {
    /// The side with these tables. It takes no memory.
    pub fn new(tables: List<Table>) -> Side
        requires { length tables ≤ 2 }
        ensures { result ≡ contents tables }
    {
        Side { tables }
    }

    /// The side without tables. It takes no memory.
    pub fn empty(alloc: Global) -> Side
        ensures { result ≡ [] }
    {
        Side {
            tables: List::new(alloc),
        }
    }

    /// The side with one table.
    pub fn one(alloc: Global, table: Table) -> Result<Side, Memory>
        ensures { IfOk result (λ side. side ≡ table.rows ∷ []) }
    {
        let mut tables = List::new(alloc);
        tables.push(table)?;
        Ok(Side { tables })
    }

    /// The side with two tables.
    pub fn two(alloc: Global, first: Table, second: Table) -> Result<Side, Memory>
        ensures { IfOk result (λ side. side ≡ first.rows ∷ second.rows ∷ []) }
    {
        let mut tables = List::new(alloc);
        tables.push(first)?;
        tables.push(second)?;
        Ok(Side { tables })
    }

    /// The tables, in the order of the operator's numbers.
    pub fn tables(&self) -> &[Table]
        ensures all { contents result.now ≡ self.now }
        ensures few { length result.now ≤ 2 }
    {
        self.tables.as_slice()
    }

    /// The tables, without a copy.
    pub fn into_tables(self) -> List<Table>
        ensures all { contents result ≡ self }
        ensures few { length result ≤ 2 }
    {
        let Side { tables } = self;
        tables
    }

    /// An equal side.
    pub fn copy(&self, alloc: Global) -> Result<Side, Memory>
        ensures { IfOk result (λ made. made ≡ self.now) }
    {
        let tables = copy_tables(alloc, self.tables.as_slice())?;
        Ok(Side { tables })
    }
}

/// Auxiliary tables, which keep beside a stored side what it lacks of the other one.
#[derive(Drop)]
pub struct Aux {
    pub tables: List<Table>,
}

impl Aux {
    /// No auxiliary tables. It takes no memory.
    pub fn none(alloc: Global) -> Aux
        ensures { tables_of result ≡ [] }
    {
        Aux {
            tables: List::new(alloc),
        }
    }

    /// Two auxiliary tables.
    pub fn two(alloc: Global, first: Table, second: Table) -> Result<Aux, Memory>
        ensures { IfOk result (λ aux. tables_of aux ≡ first.rows ∷ second.rows ∷ []) }
    {
        let mut tables = List::new(alloc);
        tables.push(first)?;
        tables.push(second)?;
        Ok(Aux { tables })
    }
}

fn copy_tables(alloc: Global, tables: &[Table]) -> Result<List<Table>, Memory>
    ensures rows { IfOk result (λ made. contents made ≡ contents tables.now) }
    ensures many { IfOk result (λ made. length made ≡ length tables.now) }
{
    let mut made = List::new(alloc);
    for table in tables {
        made.push(table.copy()?)?;
    }
    Ok(made)
}
