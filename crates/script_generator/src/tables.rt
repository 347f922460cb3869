//! The tables whose rows a summary counts.
ghost use Rattle.std.specs.Prelude.{◌≡◌, codes, IfOk};
ghost use Rattle.script_generator.specs.Generated.{table_of as table_of_lem};

use crate::parts::table_of;
use par_base::Memory;
use statements::TableName;
use std::alloc::Global;

/// Each table that a summary counts, by its version and name.
#[derive(Drop)]
pub struct SummedTables {
    /// `tasky.task`.
    pub tasks: TableName,
    /// `do!.todo`.
    pub todos: TableName,
    /// `tasky2.task`.
    pub new_tasks: TableName,
    /// `tasky2.author`.
    pub authors: TableName,
}

/// The names of the four tables.
#[tactic(auto, unfolding(par_base::specs::Names::is_name, par_base::specs::Names::is_reserved))]
pub fn summed_tables(alloc: Global) -> Result<SummedTables, Memory>
    ensures tasks { IfOk result (λ tables. tables.tasks
        ≡ table_of_lem (codes "tasky") (codes "task")) }
    ensures todos { IfOk result (λ tables. tables.todos
        ≡ table_of_lem (codes "do!") (codes "todo")) }
    ensures new_tasks { IfOk result (λ tables. tables.new_tasks
        ≡ table_of_lem (codes "tasky2") (codes "task")) }
    ensures authors { IfOk result (λ tables. tables.authors
        ≡ table_of_lem (codes "tasky2") (codes "author")) }
{
    Ok(SummedTables {
        tasks: table_of(alloc, "tasky", "task")?,
        todos: table_of(alloc, "do!", "todo")?,
        new_tasks: table_of(alloc, "tasky2", "task")?,
        authors: table_of(alloc, "tasky2", "author")?,
    })
}
