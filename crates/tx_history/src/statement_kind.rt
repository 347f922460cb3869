//! What a statement is to transactions.
ghost use Rattle.std.specs.Prelude.{◌≡◌, is_some};
ghost use Rattle.statements.specs.Views.{statement_view};
ghost use Rattle.tx_history.specs.Kinds.{kind_in, version_told, writes_rows_in};

use statements::Statement;

/// What a statement is to transactions.
#[derive(Drop)]
pub enum StatementKind {
    Begin,
    Rollback,
    Commit,
    Select,
    /// An INSERT, IMPORT, UPDATE or DELETE.
    Write,
    /// Every other statement, which acts at once.
    Other,
}

/// Whether a statement writes rows: an INSERT, IMPORT, UPDATE, DELETE or COMMIT. It does no work.
pub fn writes_rows(statement: &Statement) -> bool
    ensures { result ≡ writes_rows_in (kind_in (statement_view statement.now)) }
{
    match kind_of(statement) {
        StatementKind::Commit | StatementKind::Write => true,
        _ => false,
    }
}

/// What a statement is. It does no work.
pub fn kind_of(statement: &Statement) -> StatementKind
    ensures { result ≡ kind_in (statement_view statement.now) }
{
    match statement {
        Statement::Begin => StatementKind::Begin,
        Statement::Rollback => StatementKind::Rollback,
        Statement::Commit => StatementKind::Commit,
        Statement::Select { .. } => StatementKind::Select,
        Statement::Insert { .. }
        | Statement::Import { .. }
        | Statement::Update { .. }
        | Statement::Delete { .. } => StatementKind::Write,
        _ => StatementKind::Other,
    }
}

/// Whether a write tells the version of its table: no other statement does. It does no work.
pub fn tells_version(statement: &Statement) -> bool
    ensures { result ≡ is_some (version_told (statement_view statement.now)) }
{
    match statement {
        Statement::Insert { table, .. }
        | Statement::Import { table, .. }
        | Statement::Update { table, .. }
        | Statement::Delete { table, .. } => table.version.is_some(),
        _ => false,
    }
}
