//! The script, statement by statement.
ghost use Rattle.std.specs.Prelude.{◌≡◌, IfOk, IfSome, option_map};
ghost use Rattle.statements.specs.Views.{statement_view};
ghost use Rattle.bidel_text.specs.StatementText.{statement_text};
ghost use Rattle.script_generator.specs.Generated.{generated_statement};
ghost use Rattle.script_generator.specs.Laws.{IsLikeParsed};
ghost use Rattle.script_generator.specs.inner.Places.{statement_at};

use crate::fixed::{create_tasky, ending, evolution};
use crate::inserts::{insert_task, insert_todo};
use crate::places::{Place, place_of};
use bidel_text::print_statement;
use par_base::{Memory, Text};
use statements::Statement;
use std::alloc::Global;
use std::mem;

// The statement at a place.
fn make(alloc: Global, place: Place) -> Result<Option<Statement>, Memory>
    ensures { IfOk result (λ found. option_map statement_view found ≡ statement_at place) }
{
    match place {
        Place::First => Ok(Some(create_tasky(alloc)?)),
        Place::Task(i) => Ok(Some(insert_task(alloc, i)?)),
        Place::Evolution(at) => evolution(alloc, at),
        Place::Todo(i) => Ok(Some(insert_todo(alloc, i)?)),
        Place::Ending(at) => ending(alloc, at),
    }
}

/// The statement `k`, from 0 on, of the script of `n` numbers; None exactly past the last one. It
/// takes the time of one statement, wherever it stands.
#[tactic(auto, using(crate::proofs::ScriptLemmas::found_parsed))]
pub fn generated(alloc: Global, n: u32, k: u64) -> Result<Option<Statement>, Memory>
    ensures value { IfOk result (λ found. option_map statement_view found
        ≡ generated_statement n k) }
    ensures parsed { IfOk result (λ found. IfSome found (λ statement. IsLikeParsed
        (statement_view statement))) }
{
    make(alloc, place_of(n, k))
}

/// The text of the same statement, as it would be written.
pub fn generated_text(alloc: Global, n: u32, k: u64) -> Result<Option<Text>, Memory>
    ensures { IfOk result (λ found. found ≡ option_map statement_text (generated_statement n k)) }
{
    match generated(alloc, n, k)? {
        Some(statement) => {
            let text = print_statement(alloc, &statement);
            mem::drop(statement);
            Ok(Some(text?))
        }
        None => Ok(None),
    }
}
