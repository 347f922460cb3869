//! What a statement says in full.
ghost use Rattle.std.specs.Prelude.{◌≡◌, IfOk};
ghost use Rattle.std.specs.Option.{option_map};
ghost use Rattle.statements.specs.Views.{statement_view};
ghost use Rattle.engine_sessions.specs.InFull.{in_full as in_full_lem, name_in_full as name_in_full_lem, wants_csv as wants_csv_lem};

use csv_io::read_rows;
use par_base::{Memory, Name};
use statements::{Statement, TableName};
use std::alloc::Global;

/// Whether a statement asks for rows as CSV.
pub fn wants_csv(statement: &Statement) -> bool
    ensures { result ≡ wants_csv_lem (statement_view statement.now) }
{
    match statement {
        Statement::Select { csv, .. } => *csv,
        _ => false,
    }
}

// The table with its version: the one that is named, or else the one in use.
fn name_in_full(alloc: Global, used: Option<&Name>, name: TableName) -> Result<TableName, Memory>
    ensures { IfOk result (λ made. made
        ≡ name_in_full_lem (option_map (λ name. name.now) used.entry) name) }
{
    match (&name.version, used) {
        (None, Some(version)) => Ok(TableName {
            version: Some(version.copy(alloc)?),
            table: name.table,
        }),
        _ => Ok(name),
    }
}

/// What a statement says in full, where its session uses this version. It takes time in the length of
/// an IMPORT's text, and else none.
pub fn in_full(
    alloc: Global,
    used: Option<&Name>,
    statement: Statement,
) -> Result<Statement, Memory>
    ensures { IfOk result (λ made. statement_view made
        ≡ in_full_lem (option_map (λ name. name.now) used.entry) (statement_view statement)) }
{
    match statement {
        Statement::Insert { table, rows } => Ok(Statement::Insert {
            table: name_in_full(alloc, used, table)?,
            rows,
        }),
        Statement::Import { table, text } => Ok(Statement::Insert {
            table: name_in_full(alloc, used, table)?,
            rows: read_rows(alloc, &text)?,
        }),
        Statement::Update {
            table,
            assignments,
            filter,
        } => Ok(Statement::Update {
            table: name_in_full(alloc, used, table)?,
            assignments,
            filter,
        }),
        Statement::Delete { table, filter } => Ok(Statement::Delete {
            table: name_in_full(alloc, used, table)?,
            filter,
        }),
        Statement::Select {
            table,
            items,
            filter,
            csv: _,
        } => Ok(Statement::Select {
            table: name_in_full(alloc, used, table)?,
            items,
            filter,
            csv: false,
        }),
        statement => Ok(statement),
    }
}
