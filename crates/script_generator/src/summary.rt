//! The summary of a run over the workload.
ghost use Rattle.std.specs.Prelude.{◌≡◌, ◌++◌, IfOk, OnOk, string_bytes};
ghost use Rattle.script_generator.specs.Summary.{counted, summary_lines};

use par_base::{Memory, Text};
use std::alloc::Global;

/// What a run over the workload came to.
#[derive(Clone, Copy, Drop)]
pub struct Summary {
    /// How many statements were given.
    pub statements: u64,
    /// How many of them were refused.
    pub refused: u64,
    /// How many rows `tasky.task` has at the end.
    pub tasks: usize,
    /// How many rows `do!.todo` has.
    pub todos: usize,
    /// How many rows `tasky2.task` has.
    pub new_tasks: usize,
    /// How many rows `tasky2.author` has.
    pub authors: usize,
    /// The next identifier.
    pub next: u64,
}

// Adds words and a number, ended by a line feed.
fn push_counted(alloc: Global, made: &mut String, words: &str, number: u64) -> Result<(), Memory>
    ensures { OnOk result (string_bytes made.new ≡ string_bytes made.old
        ++ counted words.now number) }
{
    let line = format!(in alloc; "{words}{number}\n")?;
    made.push_str(line.as_str())?;
    Ok(())
}

/// The summary in seven lines, each ended by a line feed.
pub fn summary_text(alloc: Global, summary: &Summary) -> Result<Text, Memory>
    ensures { IfOk result (λ text. text ≡ summary_lines summary.now) }
{
    let mut made = String::new(alloc);
    push_counted(alloc, &mut made, "statements ", summary.statements)?;
    push_counted(alloc, &mut made, "refused ", summary.refused)?;
    push_counted(alloc, &mut made, "tasky.task ", summary.tasks as u64)?;
    push_counted(alloc, &mut made, "do!.todo ", summary.todos as u64)?;
    push_counted(alloc, &mut made, "tasky2.task ", summary.new_tasks as u64)?;
    push_counted(alloc, &mut made, "tasky2.author ", summary.authors as u64)?;
    push_counted(alloc, &mut made, "next #", summary.next)?;
    Ok(Text::from_string(made))
}
