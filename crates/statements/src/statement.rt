//! Statements as they were written.
use expr_lang::ExprText;
use par_base::{List, Name, Row, Target, Text};

/// A table, of a version or of the one in use.
#[derive(Drop)]
pub struct TableName {
    pub version: Option<Name>,
    pub table: Name,
}

/// A column and what it is set to.
#[derive(Drop)]
pub struct Assignment {
    pub column: Name,
    pub value: ExprText,
}

/// By what two tables belong together.
#[derive(Drop)]
pub enum KeyText {
    /// Rows of one identifier.
    Primary,
    /// A column of the first table that refers to rows of the second.
    Foreign(Name),
    /// A condition on the columns of both.
    Condition(ExprText),
}

/// A table, and the condition of its rows.
#[derive(Drop)]
pub struct Branch {
    pub table: Name,
    pub condition: ExprText,
}

/// An operator, with its names, lists and expressions in the order of its text.
#[derive(Drop)]
pub enum OpText {
    CreateTable {
        table: Name,
        columns: List<Name>,
    },
    DropTable {
        table: Name,
    },
    RenameTable {
        table: Name,
        new_name: Name,
    },
    RenameColumn {
        column: Name,
        table: Name,
        new_name: Name,
    },
    /// A tracked column's value follows its expression until it is written.
    AddColumn {
        column: Name,
        value: ExprText,
        table: Name,
        tracked: bool,
    },
    /// `value` is what rows have in the column that come in without it.
    DropColumn {
        column: Name,
        table: Name,
        value: ExprText,
    },
    DecomposeSingle {
        table: Name,
        target: Name,
        columns: List<Name>,
    },
    Decompose {
        table: Name,
        first: Name,
        first_columns: List<Name>,
        second: Name,
        second_columns: List<Name>,
        key: KeyText,
    },
    Join {
        outer: bool,
        first: Name,
        second: Name,
        target: Name,
        key: KeyText,
    },
    Split {
        table: Name,
        first: Branch,
        second: Option<Branch>,
    },
    Merge {
        first: Branch,
        second: Branch,
        target: Name,
    },
}

/// A statement.
#[derive(Drop)]
pub enum Statement {
    CreateVersion {
        name: Name,
        from: Option<Name>,
        operators: List<OpText>,
    },
    DropVersion {
        name: Name,
    },
    Insert {
        table: TableName,
        rows: List<Row>,
    },
    /// `text` has the rows as CSV.
    Import {
        table: TableName,
        text: Text,
    },
    Update {
        table: TableName,
        assignments: List<Assignment>,
        filter: Option<ExprText>,
    },
    Delete {
        table: TableName,
        filter: Option<ExprText>,
    },
    /// `items` is None where all columns are asked for.
    Select {
        table: TableName,
        items: Option<List<Name>>,
        filter: Option<ExprText>,
        csv: bool,
    },
    Materialize {
        named: List<Target>,
        in_steps: bool,
    },
    Step,
    ShowLayout,
    Use {
        name: Name,
    },
    Session {
        number: u8,
    },
    Advise {
        name: Name,
    },
    Watch {
        name: Name,
    },
    Unwatch {
        number: u64,
    },
    Begin,
    Commit,
    Rollback,
}
