//! The statements that no number changes.
ghost use Rattle.std.specs.Prelude.{◌≡◌, IfOk, option_map, slice_get};
ghost use Rattle.statements.specs.Views.{statement_view};
ghost use Rattle.script_generator.specs.Generated.{create_tasky, create_do, create_tasky2, materialize, delete_tasks, rename_authors, evolution, ending};
ghost use Rattle.script_generator.specs.inner.Names.{IsName};

use crate::operators::{create_task, decompose_task, drop_prio, rename_author, split_task};
use crate::parts::{column_is, name_of, table_of};
use expr_lang::ExprText;
use par_base::{List, Memory, SharedText, Target, Value};
use statements::{Assignment, Statement};
use std::alloc::Global;

/// The statement that makes the version `tasky`.
#[tactic(auto, unfolding(par_base::specs::Names::is_name, par_base::specs::Names::is_reserved))]
pub fn create_tasky(alloc: Global) -> Result<Statement, Memory>
    ensures { IfOk result (λ statement. statement_view statement ≡ create_tasky) }
{
    let mut operators = List::new(alloc);
    operators.push(create_task(alloc)?)?;
    Ok(Statement::CreateVersion {
        name: name_of(alloc, "tasky")?,
        from: None,
        operators,
    })
}

#[tactic(auto, unfolding(par_base::specs::Names::is_name, par_base::specs::Names::is_reserved))]
fn create_do(alloc: Global) -> Result<Statement, Memory>
    ensures { IfOk result (λ statement. statement_view statement ≡ create_do) }
{
    let mut operators = List::new(alloc);
    operators.push(split_task(alloc)?)?;
    operators.push(drop_prio(alloc)?)?;
    Ok(Statement::CreateVersion {
        name: name_of(alloc, "do!")?,
        from: Some(name_of(alloc, "tasky")?),
        operators,
    })
}

#[tactic(auto, unfolding(par_base::specs::Names::is_name, par_base::specs::Names::is_reserved))]
fn create_tasky2(alloc: Global) -> Result<Statement, Memory>
    ensures { IfOk result (λ statement. statement_view statement ≡ create_tasky2) }
{
    let mut operators = List::new(alloc);
    operators.push(decompose_task(alloc)?)?;
    operators.push(rename_author(alloc)?)?;
    Ok(Statement::CreateVersion {
        name: name_of(alloc, "tasky2")?,
        from: Some(name_of(alloc, "tasky")?),
        operators,
    })
}

fn materialize(alloc: Global, version: &str) -> Result<Statement, Memory>
    requires { IsName version.now }
    ensures { IfOk result (λ statement. statement_view statement ≡ materialize version.now) }
{
    let mut named = List::new(alloc);
    named.push(Target {
        version: name_of(alloc, version)?,
        table: None,
    })?;
    Ok(Statement::Materialize {
        named,
        in_steps: false,
    })
}

#[tactic(auto, unfolding(par_base::specs::Names::is_name, par_base::specs::Names::is_reserved))]
fn delete_tasks(alloc: Global) -> Result<Statement, Memory>
    ensures { IfOk result (λ statement. statement_view statement ≡ delete_tasks) }
{
    Ok(Statement::Delete {
        table: table_of(alloc, "tasky", "task")?,
        filter: Some(column_is(alloc, "prio", Value::Int(2))?),
    })
}

#[tactic(auto, unfolding(par_base::specs::Names::is_name, par_base::specs::Names::is_reserved))]
fn rename_authors(alloc: Global) -> Result<Statement, Memory>
    ensures { IfOk result (λ statement. statement_view statement ≡ rename_authors) }
{
    let new_name = Value::Text(SharedText::from_str(alloc, "c")?);
    let old_name = Value::Text(SharedText::from_str(alloc, "b0")?);
    let mut assignments = List::new(alloc);
    assignments.push(Assignment {
        column: name_of(alloc, "name")?,
        value: ExprText::Literal(new_name),
    })?;
    Ok(Statement::Update {
        table: table_of(alloc, "tasky2", "author")?,
        assignments,
        filter: Some(column_is(alloc, "name", old_name)?),
    })
}

/// The statements behind the rows of `task`, by their places.
#[tactic(auto, unfolding(par_base::specs::Names::is_name, par_base::specs::Names::is_reserved))]
pub fn evolution(alloc: Global, at: u64) -> Result<Option<Statement>, Memory>
    ensures { IfOk result (λ found. option_map statement_view found ≡ slice_get evolution at) }
{
    match at {
        0 => Ok(Some(create_do(alloc)?)),
        1 => Ok(Some(create_tasky2(alloc)?)),
        2 => Ok(Some(materialize(alloc, "tasky2")?)),
        _ => Ok(None),
    }
}

/// The statements behind the rows of `todo`, by their places.
#[tactic(auto, unfolding(par_base::specs::Names::is_name, par_base::specs::Names::is_reserved))]
pub fn ending(alloc: Global, at: u64) -> Result<Option<Statement>, Memory>
    ensures { IfOk result (λ found. option_map statement_view found ≡ slice_get ending at) }
{
    match at {
        0 => Ok(Some(materialize(alloc, "do!")?)),
        1 => Ok(Some(delete_tasks(alloc)?)),
        2 => Ok(Some(rename_authors(alloc)?)),
        3 => Ok(Some(materialize(alloc, "tasky")?)),
        _ => Ok(None),
    }
}
