//! The run of the generated script.
ghost use Rattle.std.specs.Prelude.{◌≡◌, IfOk, OnOk};
ghost use Rattle.expr_lang.specs.Operations.{text_limit};
ghost use Rattle.statements.specs.Views.{statement_view};
ghost use Rattle.statements.specs.Texts.{TextsWithin};
ghost use Rattle.op_any.specs.Operators.{any_meaning};
ghost use Rattle.db_state.specs.Fields.{database_for};
ghost use Rattle.script_run.specs.Spoken.{TextsCome};
ghost use Rattle.script_run.specs.TransactionsKept.{kept_in};
ghost use Rattle.script_run.specs.TransactionsCalls.{standing_of};
ghost use Rattle.script_run.specs.TransactionsAct.{act};
ghost use Rattle.script_generator.specs.Generated.{generated_script};
ghost use Rattle.script_run.specs.Kept.{Keeps};
ghost use Rattle.script_run.specs.Replies.{next_state};
ghost use Rattle.generated_run.specs.Summed.{generated_end, generated_summary, refusals};
ghost use Rattle.generated_run.specs.Calls.{Sums, Tallies};

use crate::counting::rows_at;
use db_state::Db;
use expr_lang::Steps;
use op_any::AnyOp;
use par_base::{Fault, Memory};
use script_generator::{Summary, generated, summed_tables};
use script_run::Transactions;
use statements::Statement;
use std::alloc::Global;
use std::marker::Brand;
use std::sync::ledger::{Blank, Ledger};

/// How many statements were carried out, and how many of them were refused.
#[derive(Clone, Copy)]
struct Tally {
    statements: u64,
    refused: u64,
}

// Carries out a statement, and tells how many refusals it met: one or none.
fn count_refusals<L: Ledger>(
    alloc: Global,
    transactions: &mut Transactions,
    statement: Statement,
    steps: &mut Steps<L>,
) -> Result<u64, Memory>
    requires { TextsWithin text_limit (statement_view statement) }
    ensures count { IfOk result (λ count. count
        ≡ refusals (act (standing_of transactions.old) (statement_view statement))) }
    ensures next { OnOk result (standing_of transactions.new
        ≡ next_state (standing_of transactions.old)
        (act (standing_of transactions.old) (statement_view statement))) }
    ensures texts { TextsCome (statement_view statement) (kept_in transactions.old).graph.edges
        (kept_in transactions.new).graph.edges }
    ensures limit { (kept_in transactions.new).ids.limit ≡ (kept_in transactions.old).ids.limit }
{
    match transactions.event(alloc, statement, steps) {
        Ok(_) => Ok(0),
        Err(Fault::Refused(_)) => Ok(1),
        Err(Fault::Memory(memory)) => Err(memory),
    }
}

// Carries out each statement of the script of `n` numbers.
fn run_all<L: Ledger>(
    alloc: Global,
    transactions: &mut Transactions,
    n: u32,
    steps: &mut Steps<L>,
) -> Result<Tally, Memory>
    ensures tally { IfOk result (Tallies (standing_of transactions.old) (generated_script n)) }
    ensures end { OnOk result (standing_of transactions.new
        ≡ generated_end (standing_of transactions.old) n) }
    ensures keeps { Keeps (kept_in transactions.old) (kept_in transactions.new) }
{
    let mut tally = Tally {
        statements: 0,
        refused: 0,
    };
    while let Some(statement) = generated(alloc, n, tally.statements)? {
        let refused = count_refusals(alloc, transactions, statement, steps)?;
        tally.refused += refused;
        tally.statements += 1;
    }
    Ok(tally)
}

// The summary of a run that left this database.
fn sum_up<L: Ledger>(
    alloc: Global,
    database: &Db<AnyOp>,
    tally: Tally,
    steps: &mut Steps<L>,
) -> Result<Summary, Memory>
    ensures { IfOk result (Sums tally (database_for any_meaning database.now)) }
{
    let tables = summed_tables(alloc)?;
    Ok(Summary {
        statements: tally.statements,
        refused: tally.refused,
        tasks: rows_at(alloc, database, &tables.tasks, steps)?,
        todos: rows_at(alloc, database, &tables.todos, steps)?,
        new_tasks: rows_at(alloc, database, &tables.new_tasks, steps)?,
        authors: rows_at(alloc, database, &tables.authors, steps)?,
        next: database.ids().next(),
    })
}

// The same with steps of its own.
fn run_counted<L: Ledger>(
    alloc: Global,
    transactions: &mut Transactions,
    n: u32,
    blank: Blank,
) -> Result<Summary, Memory>
    requires name { blank.name ≡ L.name }
    requires parts { blank.parts ≡ L.parts }
    requires one { blank.parts ≡ 1 }
    ensures summary { IfOk result (λ summary. summary
        ≡ generated_summary (standing_of transactions.old) n) }
    ensures end { OnOk result (standing_of transactions.new
        ≡ generated_end (standing_of transactions.old) n) }
    ensures keeps { Keeps (kept_in transactions.old) (kept_in transactions.new) }
{
    let mut steps = Steps::<L>::new(blank);
    let tally = run_all(alloc, transactions, n, &mut steps)?;
    sum_up(
        alloc,
        transactions.sessions().engine().database(),
        tally,
        &mut steps,
    )
}

/// Carries out the generated script of `n` numbers from where the engine stands, and gives its
/// summary. It takes the time of its statements, one after the other, and keeps none of them.
pub fn run_generated(
    alloc: Global,
    transactions: &mut Transactions,
    n: u32,
) -> Result<Summary, Memory>
    ensures summary { IfOk result (λ summary. summary
        ≡ generated_summary (standing_of transactions.old) n) }
    ensures end { OnOk result (standing_of transactions.new
        ≡ generated_end (standing_of transactions.old) n) }
    ensures keeps { Keeps (kept_in transactions.old) (kept_in transactions.new) }
{
    run_counted::<Brand>(alloc, transactions, n, Blank::new(1))
}
