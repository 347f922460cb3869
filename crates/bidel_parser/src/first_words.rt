//! The words by which statements, operators and keys are told apart.

/// The first words of statements.
#[derive(Clone, Copy, PartialEq, Eq)]
pub enum StatementWord {
    Create,
    Drop,
    Insert,
    Import,
    Update,
    Delete,
    Select,
    Materialize,
    Step,
    Show,
    Use,
    Session,
    Advise,
    Watch,
    Unwatch,
    Begin,
    Commit,
    Rollback,
}

/// The first words of operators.
#[derive(Clone, Copy, PartialEq, Eq)]
pub enum OperatorWord {
    Create,
    Drop,
    Rename,
    Add,
    Decompose,
    Outer,
    Join,
    Split,
    Merge,
}

/// What an operator drops or renames.
#[derive(Clone, Copy, PartialEq, Eq)]
pub enum Kind {
    Table,
    Column,
}

/// The first words of keys that are no conditions.
#[derive(Clone, Copy, PartialEq, Eq)]
pub enum KeyWord {
    Pk,
    Primary,
    Fk,
    Foreign,
}
