//! Copies of operators' texts.
ghost use Rattle.std.specs.Prelude.{◌≡◌, IfOk};
ghost use Rattle.expr_lang.specs.Terms.{text_term};
ghost use Rattle.statements.specs.Views.{op_view, key_view, branch_view, second_view, CreateTable, DropTable, RenameTable, RenameColumn, AddColumn, DropColumn, DecomposeSingle, Decompose, Join, Split, Merge};

use crate::{Branch, KeyText, OpText};
use expr_lang::ExprText;
use par_base::{List, Memory, Name, copy_names};
use std::alloc::Global;

fn copy_key(alloc: Global, key: &KeyText) -> Result<KeyText, Memory>
    ensures { IfOk result (λ made. key_view made ≡ key_view key.now) }
{
    match key {
        KeyText::Primary => Ok(KeyText::Primary),
        KeyText::Foreign(column) => Ok(KeyText::Foreign(column.copy(alloc)?)),
        KeyText::Condition(condition) => Ok(KeyText::Condition(condition.copy(alloc)?)),
    }
}

fn copy_branch(alloc: Global, branch: &Branch) -> Result<Branch, Memory>
    ensures { IfOk result (λ made. branch_view made ≡ branch_view branch.now) }
{
    Ok(Branch {
        table: branch.table.copy(alloc)?,
        condition: branch.condition.copy(alloc)?,
    })
}

fn copy_second(alloc: Global, second: &Option<Branch>) -> Result<Option<Branch>, Memory>
    ensures { IfOk result (λ made. second_view made ≡ second_view second.now) }
{
    match second {
        Some(branch) => Ok(Some(copy_branch(alloc, branch)?)),
        None => Ok(None),
    }
}

fn copy_create_table(alloc: Global, table: &Name, columns: &List<Name>) -> Result<OpText, Memory>
    ensures { IfOk result (λ made. op_view made ≡ CreateTable table.now columns.now) }
{
    Ok(OpText::CreateTable {
        table: table.copy(alloc)?,
        columns: copy_names(alloc, columns.as_slice())?,
    })
}

fn copy_drop_table(alloc: Global, table: &Name) -> Result<OpText, Memory>
    ensures { IfOk result (λ made. op_view made ≡ DropTable table.now) }
{
    Ok(OpText::DropTable {
        table: table.copy(alloc)?,
    })
}

fn copy_rename_table(alloc: Global, table: &Name, new_name: &Name) -> Result<OpText, Memory>
    ensures { IfOk result (λ made. op_view made ≡ RenameTable table.now new_name.now) }
{
    Ok(OpText::RenameTable {
        table: table.copy(alloc)?,
        new_name: new_name.copy(alloc)?,
    })
}

fn copy_rename_column(
    alloc: Global,
    column: &Name,
    table: &Name,
    new_name: &Name,
) -> Result<OpText, Memory>
    ensures { IfOk result (λ made. op_view made ≡ RenameColumn column.now table.now new_name.now) }
{
    Ok(OpText::RenameColumn {
        column: column.copy(alloc)?,
        table: table.copy(alloc)?,
        new_name: new_name.copy(alloc)?,
    })
}

fn copy_add_column(
    alloc: Global,
    column: &Name,
    value: &ExprText,
    table: &Name,
    tracked: bool,
) -> Result<OpText, Memory>
    ensures { IfOk result (λ made. op_view made ≡ AddColumn column.now
        (text_term value.now) table.now tracked) }
{
    Ok(OpText::AddColumn {
        column: column.copy(alloc)?,
        value: value.copy(alloc)?,
        table: table.copy(alloc)?,
        tracked,
    })
}

fn copy_drop_column(
    alloc: Global,
    column: &Name,
    table: &Name,
    value: &ExprText,
) -> Result<OpText, Memory>
    ensures { IfOk result (λ made. op_view made ≡ DropColumn column.now table.now
        (text_term value.now)) }
{
    Ok(OpText::DropColumn {
        column: column.copy(alloc)?,
        table: table.copy(alloc)?,
        value: value.copy(alloc)?,
    })
}

fn copy_decompose_single(
    alloc: Global,
    table: &Name,
    target: &Name,
    columns: &List<Name>,
) -> Result<OpText, Memory>
    ensures { IfOk result (λ made. op_view made
        ≡ DecomposeSingle table.now target.now columns.now) }
{
    Ok(OpText::DecomposeSingle {
        table: table.copy(alloc)?,
        target: target.copy(alloc)?,
        columns: copy_names(alloc, columns.as_slice())?,
    })
}

fn copy_decompose(
    alloc: Global,
    table: &Name,
    first: &Name,
    first_columns: &List<Name>,
    second: &Name,
    second_columns: &List<Name>,
    key: &KeyText,
) -> Result<OpText, Memory>
    ensures { IfOk result (λ made. op_view made
        ≡ Decompose table.now first.now first_columns.now second.now second_columns.now
        (key_view key.now)) }
{
    Ok(OpText::Decompose {
        table: table.copy(alloc)?,
        first: first.copy(alloc)?,
        first_columns: copy_names(alloc, first_columns.as_slice())?,
        second: second.copy(alloc)?,
        second_columns: copy_names(alloc, second_columns.as_slice())?,
        key: copy_key(alloc, key)?,
    })
}

fn copy_join(
    alloc: Global,
    outer: bool,
    first: &Name,
    second: &Name,
    target: &Name,
    key: &KeyText,
) -> Result<OpText, Memory>
    ensures { IfOk result (λ made. op_view made ≡ Join outer first.now second.now target.now
        (key_view key.now)) }
{
    Ok(OpText::Join {
        outer,
        first: first.copy(alloc)?,
        second: second.copy(alloc)?,
        target: target.copy(alloc)?,
        key: copy_key(alloc, key)?,
    })
}

fn copy_split(
    alloc: Global,
    table: &Name,
    first: &Branch,
    second: &Option<Branch>,
) -> Result<OpText, Memory>
    ensures { IfOk result (λ made. op_view made ≡ Split table.now (branch_view first.now)
        (second_view second.now)) }
{
    Ok(OpText::Split {
        table: table.copy(alloc)?,
        first: copy_branch(alloc, first)?,
        second: copy_second(alloc, second)?,
    })
}

fn copy_merge(
    alloc: Global,
    first: &Branch,
    second: &Branch,
    target: &Name,
) -> Result<OpText, Memory>
    ensures { IfOk result (λ made. op_view made ≡ Merge (branch_view first.now)
        (branch_view second.now) target.now) }
{
    Ok(OpText::Merge {
        first: copy_branch(alloc, first)?,
        second: copy_branch(alloc, second)?,
        target: target.copy(alloc)?,
    })
}

/// An equal text.
pub fn copy_text(alloc: Global, text: &OpText) -> Result<OpText, Memory>
    ensures { IfOk result (λ made. op_view made ≡ op_view text.now) }
{
    match text {
        OpText::CreateTable { table, columns } => copy_create_table(alloc, table, columns),
        OpText::DropTable { table } => copy_drop_table(alloc, table),
        OpText::RenameTable { table, new_name } => copy_rename_table(alloc, table, new_name),
        OpText::RenameColumn {
            column,
            table,
            new_name,
        } => copy_rename_column(alloc, column, table, new_name),
        OpText::AddColumn {
            column,
            value,
            table,
            tracked,
        } => copy_add_column(alloc, column, value, table, *tracked),
        OpText::DropColumn {
            column,
            table,
            value,
        } => copy_drop_column(alloc, column, table, value),
        OpText::DecomposeSingle {
            table,
            target,
            columns,
        } => copy_decompose_single(alloc, table, target, columns),
        OpText::Decompose {
            table,
            first,
            first_columns,
            second,
            second_columns,
            key,
        } => copy_decompose(
            alloc,
            table,
            first,
            first_columns,
            second,
            second_columns,
            key,
        ),
        OpText::Join {
            outer,
            first,
            second,
            target,
            key,
        } => copy_join(alloc, *outer, first, second, target, key),
        OpText::Split {
            table,
            first,
            second,
        } => copy_split(alloc, table, first, second),
        OpText::Merge {
            first,
            second,
            target,
        } => copy_merge(alloc, first, second, target),
    }
}
