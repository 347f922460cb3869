//! Every other statement, and whom it is told.
ghost use Rattle.std.specs.Prelude.{◌≡◌, ◌&&◌, not, true, OnErr, OnOk};
ghost use Rattle.expr_lang.specs.Operations.{text_limit};
ghost use Rattle.statements.specs.Texts.{TextsWithin};
ghost use Rattle.statements.specs.Views.{statement_view, DropVersion};
ghost use Rattle.change_feed.specs.Feeds.{events_prepared};
ghost use Rattle.change_feed.specs.Watches.{all_cleared, WatchesState};
ghost use Rattle.version_notes.specs.Runs.{runs_notes, MayHearAlong};
ghost use Rattle.engine_transactions.specs.Calls.{IsIdle};
ghost use Rattle.engine_transactions.specs.Kept.{kept_in as kept_beneath};
ghost use Rattle.tx_history.specs.Kinds.{kind_in, writes_rows_in};
ghost use Rattle.engine_feeds.specs.Act.{acted_by};
ghost use Rattle.engine_feeds.specs.Calls.{standing_with, Carries};
ghost use Rattle.engine_feeds.specs.Kept.{AreKept};
ghost use Rattle.engine_feeds.specs.Plain.{is_plain, HearNothing};

use change_feed::{Watcher, Watches};
use engine_transactions::{Answer, Kept};
use expr_lang::Steps;
use par_base::{Fault, Memory, Name, Refusal};
use statements::Statement;
use std::alloc::Global;
use std::sync::ledger::Ledger;
use tx_history::writes_rows;
use version_notes::prepare_runs;

// Carries out a statement of which no watch is told.
fn pass<L: Ledger>(
    alloc: Global,
    kept: &mut Kept,
    statement: Statement,
    steps: &mut Steps<L>,
) -> Result<Answer, Fault<Refusal>>
    requires texts { TextsWithin text_limit (statement_view statement) }
    requires idle { IsIdle kept.old.executing }
    ensures { (watches : WatchesState) → HearNothing (statement_view statement) watches
        → AreKept kept.old watches
        → Carries (acted_by (standing_with kept.old watches) (statement_view statement))
        (statement_view statement) kept.old watches result kept.new watches }
{
    // That the versions beside a new one keep their tables rests on it.
    kept.sessions().engine().versions_always_agree();
    kept.event(alloc, statement, steps)
}

// Makes the live watches ready for the notes of what isn't settled.
fn make_ready<W: Watcher>(
    alloc: Global,
    kept: &Kept,
    watches: &mut Watches<W>,
) -> Result<(), Memory>
    requires { MayHearAlong (runs_notes (kept_beneath kept.now).graph watches.old.live
        kept.now.executing.unsettled.items) watches.old }
    ensures ok { OnOk result (watches.new ≡ events_prepared (runs_notes
        (kept_beneath kept.now).graph watches.old.live kept.now.executing.unsettled.items)
        watches.old) }
    ensures err { OnErr result (watches.new ≡ all_cleared watches.old) }
{
    let graph = kept.sessions().engine().database().graph();
    prepare_runs(alloc, graph, watches, kept.runs())
}

// Carries out a statement that writes rows: the watches are made ready before it stays, and told after.
fn write<W: Watcher, L: Ledger>(
    alloc: Global,
    kept: &mut Kept,
    watches: &mut Watches<W>,
    statement: Statement,
    steps: &mut Steps<L>,
) -> Result<Answer, Fault<Refusal>>
    requires texts { TextsWithin text_limit (statement_view statement) }
    requires writes { writes_rows_in (kind_in (statement_view statement)) ≡ true }
    requires kept { AreKept kept.old watches.old }
    ensures { Carries (acted_by (standing_with kept.old watches.old) (statement_view statement))
        (statement_view statement) kept.old watches.old result kept.new watches.new }
{
    // That the tables before it rise rests on it.
    kept.sessions().engine().versions_always_agree();
    match kept.hold(alloc, statement, steps) {
        Ok(held) => match make_ready(alloc, kept, watches) {
            Ok(()) => {
                let answer = kept.settle(held);
                watches.tell_all();
                Ok(answer)
            }
            Err(memory) => {
                kept.let_go(held);
                Err(Fault::Memory(memory))
            }
        },
        Err(fault) => Err(fault),
    }
}

// Carries out a DROP SCHEMA VERSION, with which the watches of the version go.
fn drop_version<W: Watcher, L: Ledger>(
    alloc: Global,
    kept: &mut Kept,
    watches: &mut Watches<W>,
    name: Name,
    steps: &mut Steps<L>,
) -> Result<Answer, Fault<Refusal>>
    requires { AreKept kept.old watches.old }
    ensures { Carries (acted_by (standing_with kept.old watches.old) (DropVersion name))
        (DropVersion name) kept.old watches.old result kept.new watches.new }
{
    let version = name.copy(alloc)?;
    match kept.event(alloc, Statement::DropVersion { name }, steps) {
        Ok(answer) => {
            watches.drop_version(&version);
            Ok(answer)
        }
        Err(refused) => Err(refused),
    }
}

// Carries out a statement that is no DROP SCHEMA VERSION.
fn tell<W: Watcher, L: Ledger>(
    alloc: Global,
    kept: &mut Kept,
    watches: &mut Watches<W>,
    statement: Statement,
    steps: &mut Steps<L>,
) -> Result<Answer, Fault<Refusal>>
    requires texts { TextsWithin text_limit (statement_view statement) }
    requires kept { AreKept kept.old watches.old }
    requires plain { is_plain (statement_view statement) ≡ true }
    ensures { Carries (acted_by (standing_with kept.old watches.old) (statement_view statement))
        (statement_view statement) kept.old watches.old result kept.new watches.new }
{
    if writes_rows(&statement) {
        write(alloc, kept, watches, statement, steps)
    } else {
        pass(alloc, kept, statement, steps)
    }
}

// Carries out a statement beside live watches.
fn tell_watches<W: Watcher, L: Ledger>(
    alloc: Global,
    kept: &mut Kept,
    watches: &mut Watches<W>,
    statement: Statement,
    steps: &mut Steps<L>,
) -> Result<Answer, Fault<Refusal>>
    requires texts { TextsWithin text_limit (statement_view statement) }
    requires kept { AreKept kept.old watches.old }
    ensures { Carries (acted_by (standing_with kept.old watches.old) (statement_view statement))
        (statement_view statement) kept.old watches.old result kept.new watches.new }
{
    match statement {
        Statement::DropVersion { name } => drop_version(alloc, kept, watches, name, steps),
        statement => tell(alloc, kept, watches, statement, steps),
    }
}

/// Carries out every other statement than WATCH and UNWATCH. Where nobody watches, it does no more than
/// the transactions do.
pub(crate) fn carry_out<W: Watcher, L: Ledger>(
    alloc: Global,
    kept: &mut Kept,
    watches: &mut Watches<W>,
    statement: Statement,
    steps: &mut Steps<L>,
) -> Result<Answer, Fault<Refusal>>
    requires texts { TextsWithin text_limit (statement_view statement) }
    requires kept { AreKept kept.old watches.old }
    ensures { Carries (acted_by (standing_with kept.old watches.old) (statement_view statement))
        (statement_view statement) kept.old watches.old result kept.new watches.new }
{
    if watches.len() == 0 {
        pass(alloc, kept, statement, steps)
    } else {
        tell_watches(alloc, kept, watches, statement, steps)
    }
}
