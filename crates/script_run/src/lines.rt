//! The last line of a run that found a fault.
ghost use Rattle.std.specs.Prelude.{◌≡◌, IfOk};
ghost use Rattle.script_run.specs.Statuses.{fault_line};

use par_base::{Memory, Text};
use std::alloc::Global;

/// The line that says where the script has its first fault.
pub fn syntax_line(alloc: Global, line: usize, column: usize) -> Result<Text, Memory>
    ensures { IfOk result (λ text. text ≡ fault_line (record { line = line; column = column })) }
{
    let text = format!(in alloc; "syntax {line}:{column}\n")?;
    Ok(Text::from_string(text))
}
