//! The lines of an answer.
ghost use Rattle.std.specs.Prelude.{◌≡◌, ◌++◌, string_bytes, IfOk, OnOk};
ghost use Rattle.engine_moves.specs.EngineCoreTexts.{line};
ghost use Rattle.engine_state.specs.Replies.{HasWidth};
ghost use Rattle.engine_sessions.specs.Calls.{IsAnswer};
ghost use Rattle.engine_sessions.specs.Texts.{advice_lines, answer_bytes, cost_text, csv_lines};

use crate::Answer;
use csv_io::rows_csv;
use engine_moves::reply_text;
use layout_planner::VersionCost;
use par_base::{Memory, Name, Row, Text};
use std::alloc::Global;

/// The lines of an answer, each with its line feed.
#[tactic(auto, unfolding(crate::specs::Texts::answer_bytes))]
pub fn answer_text(alloc: Global, answer: &Answer) -> Result<Text, Memory>
    requires { IsAnswer answer.now }
    ensures { IfOk result (λ text. text ≡ answer_bytes answer.now) }
{
    match answer {
        Answer::Plain(reply) => reply_text(alloc, reply),
        Answer::Csv { header, rows } => csv_text(alloc, header.as_slice(), rows.as_slice()),
        Answer::Advice { costs, best } => advice_text(alloc, costs.as_slice(), best),
    }
}

// Rows as CSV, and their count.
fn csv_text(alloc: Global, header: &[Name], rows: &[Row]) -> Result<Text, Memory>
    requires { HasWidth header.now rows.now }
    ensures { IfOk result (λ text. text ≡ csv_lines header.now rows.now) }
{
    let lines = rows_csv(alloc, header, rows)?;
    let count = rows.len();
    let text = format!(in alloc; "{}rows {count}\n", lines.as_str())?;
    Ok(Text::from_string(text))
}

// The cost of each version, and the best.
fn advice_text(alloc: Global, costs: &[VersionCost], best: &Name) -> Result<Text, Memory>
    ensures { IfOk result (λ text. text ≡ advice_lines costs.now best.now) }
{
    let mut text = String::new(alloc);
    for cost in costs {
        push_cost(&mut text, cost)?;
    }
    write!(text, "best {}\n", best.as_str())?;
    Ok(Text::from_string(text))
}

fn push_cost(text: &mut String, cost: &VersionCost) -> Result<(), Memory>
    ensures { OnOk result (string_bytes text.new ≡ string_bytes text.old ++ line
        (cost_text cost.now)) }
{
    let number = cost.cost;
    write!(text, "{} {number}\n", cost.version.as_str())?;
    Ok(())
}
