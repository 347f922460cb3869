//! Statements that act at once and write no rows.
ghost use Rattle.std.specs.Prelude.{◌≡◌, List, IfOk, OnErr};
ghost use Rattle.expr_lang.specs.Operations.{text_limit};
ghost use Rattle.statements.specs.Texts.{TextsWithin};
ghost use Rattle.statements.specs.Views.{statement_view, DropVersion};
ghost use Rattle.engine_sessions.specs.Calls.{IsAnswer};
ghost use Rattle.engine_transactions.specs.Act.{Answers};
ghost use Rattle.engine_transactions.specs.Calls.{standing_in, IsIdle, IsSame, Keeps};
ghost use Rattle.tx_history.specs.History.{with_drop, with_version};
ghost use Rattle.engine_transactions.specs.ByKind.{at_once_with, graph_behind};
ghost use Rattle.tx_history.specs.Views.{OpenView};

use crate::Executing;
use engine_sessions::Answer;
use expr_lang::Steps;
use par_base::{Fault, Name, Refusal};
use statements::Statement;
use std::alloc::Global;
use std::sync::ledger::Ledger;
use tx_history::{keep_drop, number_drop};

// One that no number stands for.
fn pass<L: Ledger>(
    alloc: Global,
    at: &mut Executing,
    statement: Statement,
    steps: &mut Steps<L>,
) -> Result<Answer, Fault<Refusal>>
    requires texts { TextsWithin text_limit (statement_view statement) }
    requires idle { IsIdle at.old }
    ensures answers { (opens : List OpenView) → Answers (at_once_with (standing_in at.old opens)
        (statement_view statement) (λ next. (standing_in at.old opens).history)) result
        (standing_in at.new opens) }
    ensures same { OnErr result (IsSame at.old at.new) }
    ensures answer { IfOk result IsAnswer }
    ensures keeps { Keeps (statement_view statement) at.old at.new }
    ensures idle { IsIdle at.new }
{
    at.sessions.event(alloc, statement, steps)
}

// A CREATE SCHEMA VERSION, which has the next number.
fn create<L: Ledger>(
    alloc: Global,
    at: &mut Executing,
    statement: Statement,
    steps: &mut Steps<L>,
) -> Result<Answer, Fault<Refusal>>
    requires texts { TextsWithin text_limit (statement_view statement) }
    requires idle { IsIdle at.old }
    ensures answers { (opens : List OpenView) → Answers (at_once_with (standing_in at.old opens)
        (statement_view statement) (λ next. with_version (standing_in at.old opens).history)) result
        (standing_in at.new opens) }
    ensures same { OnErr result (IsSame at.old at.new) }
    ensures answer { IfOk result IsAnswer }
    ensures keeps { Keeps (statement_view statement) at.old at.new }
    ensures idle { IsIdle at.new }
{
    let answer = at.sessions.event(alloc, statement, steps)?;
    at.numbers.last = at.numbers.last.saturating_add(1);
    Ok(answer)
}

// A DROP SCHEMA VERSION, which has the next number, as its name has then.
fn drop_version<L: Ledger>(
    alloc: Global,
    at: &mut Executing,
    name: Name,
    steps: &mut Steps<L>,
) -> Result<Answer, Fault<Refusal>>
    requires idle { IsIdle at.old }
    ensures answers { (opens : List OpenView) → Answers (at_once_with (standing_in at.old opens)
        (DropVersion name) (λ next. with_drop (standing_in at.old opens).history name)) result
        (standing_in at.new opens) }
    ensures same { OnErr result (IsSame at.old at.new) }
    ensures answer { IfOk result IsAnswer }
    ensures keeps { Keeps (DropVersion name) at.old at.new }
    ensures idle { IsIdle at.new }
{
    let place = keep_drop(alloc, &mut at.numbers.dropped, &name)?;
    let answer = at
        .sessions
        .event(alloc, Statement::DropVersion { name }, steps)?;
    number_drop(alloc, &mut at.numbers, place);
    Ok(answer)
}

/// Carries out a statement that acts at once and writes no rows.
pub fn act_at_once<L: Ledger>(
    alloc: Global,
    at: &mut Executing,
    statement: Statement,
    steps: &mut Steps<L>,
) -> Result<Answer, Fault<Refusal>>
    requires texts { TextsWithin text_limit (statement_view statement) }
    requires idle { IsIdle at.old }
    ensures answers { (opens : List OpenView) → Answers (at_once_with (standing_in at.old opens)
        (statement_view statement)
        (graph_behind (standing_in at.old opens) (statement_view statement))) result
        (standing_in at.new opens) }
    ensures same { OnErr result (IsSame at.old at.new) }
    ensures answer { IfOk result IsAnswer }
    ensures keeps { Keeps (statement_view statement) at.old at.new }
    ensures idle { IsIdle at.new }
{
    match statement {
        Statement::CreateVersion {
            name,
            from,
            operators,
        } => {
            let statement = Statement::CreateVersion {
                name,
                from,
                operators,
            };
            create(alloc, at, statement, steps)
        }
        Statement::DropVersion { name } => drop_version(alloc, at, name, steps),
        statement => pass(alloc, at, statement, steps),
    }
}
