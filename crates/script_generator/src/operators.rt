//! The operators of the versions.
ghost use Rattle.std.specs.Prelude.{◌≡◌, IfOk};
ghost use Rattle.statements.specs.Views.{op_view};
ghost use Rattle.script_generator.specs.Generated.{create_task, split_task, drop_prio, decompose_task, rename_author};

use crate::parts::{column_is, name_of};
use expr_lang::ExprText;
use par_base::{List, Memory, Value};
use statements::{Branch, KeyText, OpText};
use std::alloc::Global;

/// `CREATE TABLE task(author, task, prio)`
#[tactic(auto, unfolding(par_base::specs::Names::is_name, par_base::specs::Names::is_reserved))]
pub fn create_task(alloc: Global) -> Result<OpText, Memory>
    ensures { IfOk result (λ operator. op_view operator ≡ create_task) }
{
    let mut columns = List::new(alloc);
    columns.push(name_of(alloc, "author")?)?;
    columns.push(name_of(alloc, "task")?)?;
    columns.push(name_of(alloc, "prio")?)?;
    Ok(OpText::CreateTable {
        table: name_of(alloc, "task")?,
        columns,
    })
}

/// `SPLIT TABLE task INTO todo WITH prio = 1`
#[tactic(auto, unfolding(par_base::specs::Names::is_name, par_base::specs::Names::is_reserved))]
pub fn split_task(alloc: Global) -> Result<OpText, Memory>
    ensures { IfOk result (λ operator. op_view operator ≡ split_task) }
{
    Ok(OpText::Split {
        table: name_of(alloc, "task")?,
        first: Branch {
            table: name_of(alloc, "todo")?,
            condition: column_is(alloc, "prio", Value::Int(1))?,
        },
        second: None,
    })
}

/// `DROP COLUMN prio FROM todo DEFAULT 1`
#[tactic(auto, unfolding(par_base::specs::Names::is_name, par_base::specs::Names::is_reserved))]
pub fn drop_prio(alloc: Global) -> Result<OpText, Memory>
    ensures { IfOk result (λ operator. op_view operator ≡ drop_prio) }
{
    Ok(OpText::DropColumn {
        column: name_of(alloc, "prio")?,
        table: name_of(alloc, "todo")?,
        value: ExprText::Literal(Value::Int(1)),
    })
}

/// `DECOMPOSE TABLE task INTO task(task, prio), author(author) ON FK author`
#[tactic(auto, unfolding(par_base::specs::Names::is_name, par_base::specs::Names::is_reserved))]
pub fn decompose_task(alloc: Global) -> Result<OpText, Memory>
    ensures { IfOk result (λ operator. op_view operator ≡ decompose_task) }
{
    let mut first_columns = List::new(alloc);
    first_columns.push(name_of(alloc, "task")?)?;
    first_columns.push(name_of(alloc, "prio")?)?;
    let mut second_columns = List::new(alloc);
    second_columns.push(name_of(alloc, "author")?)?;
    Ok(OpText::Decompose {
        table: name_of(alloc, "task")?,
        first: name_of(alloc, "task")?,
        first_columns,
        second: name_of(alloc, "author")?,
        second_columns,
        key: KeyText::Foreign(name_of(alloc, "author")?),
    })
}

/// `RENAME COLUMN author IN author TO name`
#[tactic(auto, unfolding(par_base::specs::Names::is_name, par_base::specs::Names::is_reserved))]
pub fn rename_author(alloc: Global) -> Result<OpText, Memory>
    ensures { IfOk result (λ operator. op_view operator ≡ rename_author) }
{
    Ok(OpText::RenameColumn {
        column: name_of(alloc, "author")?,
        table: name_of(alloc, "author")?,
        new_name: name_of(alloc, "name")?,
    })
}
