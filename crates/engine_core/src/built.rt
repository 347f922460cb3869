//! Which forms of statements are carried out.
ghost use Rattle.std.specs.Prelude.{◌≡◌, ◌==◌, length, map, not};
ghost use Rattle.statements.specs.Views.{op_view, statement_view};
ghost use Rattle.engine_core.specs.Act.{is_built as is_built_statement};

use statements::{OpText, Statement};

fn are_some(operators: &[OpText]) -> bool
    ensures { result ≡ not (length (map op_view operators.now) == 0) }
{
    !operators.is_empty()
}

/// Whether the form of a statement is carried out.
pub fn is_built(statement: &Statement) -> bool
    ensures { result ≡ is_built_statement (statement_view statement.now) }
{
    match statement {
        Statement::CreateVersion { operators, .. } => are_some(operators.as_slice()),
        Statement::DropVersion { .. }
        | Statement::Insert { .. }
        | Statement::Update { .. }
        | Statement::Delete { .. } => true,
        Statement::Select { csv, .. } => !*csv,
        Statement::Materialize { in_steps, .. } => !*in_steps,
        Statement::ShowLayout => true,
        _ => false,
    }
}
