//! What is kept, and what each statement does to it.
ghost use Rattle.std.specs.Prelude.{◌≡◌, true, Some, IfOk, OnErr};
ghost use Rattle.expr_lang.specs.Operations.{text_limit};
ghost use Rattle.statements.specs.Texts.{TextsWithin};
ghost use Rattle.statements.specs.Views.{statement_view};
ghost use Rattle.engine_sessions.specs.Calls.{IsAnswer};
ghost use Rattle.engine_sessions.specs.InFull.{wants_csv as wants_csv_lem};
ghost use Rattle.engine_sessions.specs.Standing.{standing_of as standing_of_sessions};
ghost use Rattle.engine_transactions.specs.Act.{act, at_hand, begun_by, rolled_back, Answers};
ghost use Rattle.engine_transactions.specs.Calls.{standing_of, IsIdle, Keeps};
ghost use Rattle.engine_transactions.specs.ByKind.{acted_by, full_at, read_full, read_told as read_told_lem, selected_in};
ghost use Rattle.tx_history.specs.Kinds.{kind_in, writes_rows_in};
ghost use Rattle.tx_history.specs.Views.{OpenView};
ghost use Rattle.tx_history.specs.declared.statement_kind.StatementKind.TheVariants.{Select};

use crate::at_once::act_at_once;
use crate::executing::Executing;
use crate::found_read::find_read;
use engine_sessions::{Answer, Sessions, wants_csv};
use engine_state::Reply;
use expr_lang::Steps;
use par_base::{Fault, Memory, Refusal};
use statements::Statement;
use std::alloc::Global;
use std::mem;
use std::sync::ledger::Ledger;
use tx_history::{
    OpenTransaction, StatementKind, TableRead, end, keeps_write, kind_of, note, start,
};

/// The engine with its sessions and numbers, and the open transaction of each session that has one.
/// Unlike in `Transactions`, an event may be half done.
#[derive(Drop)]
pub struct Kept {
    pub executing: Executing,
    pub opens: Vec<OpenTransaction>,
}

// The table of a SELECT, as it is read.
fn read_told(
    alloc: Global,
    sessions: &Sessions,
    statement: &Statement,
) -> Result<Option<TableRead>, Memory>
    ensures { IfOk result (λ read. read ≡ read_told_lem
        (standing_of_sessions sessions.now).laid.database (statement_view statement.now)) }
{
    match statement {
        Statement::Select { table, .. } => find_read(alloc, sessions.engine().database(), table),
        _ => Ok(None),
    }
}

impl Kept {
    /// The sessions with their engine. It does no work.
    pub fn sessions(&self) -> &Sessions
        ensures { result.now ≡ self.now.executing.sessions }
    {
        &self.executing.sessions
    }

    // Carries out a BEGIN.
    fn begin(&mut self, alloc: Global) -> Result<Answer, Fault<Refusal>>
        requires idle { IsIdle self.old.executing }
        ensures answers { Answers (begun_by (standing_of self.old) (at_hand (standing_of self.old)))
            result (standing_of self.new) }
        ensures same { OnErr result (standing_of self.new ≡ standing_of self.old) }
        ensures engine { self.new.executing ≡ self.old.executing }
    {
        let session = self.executing.sessions.session();
        match keeps_write(self.opens.as_slice(), session) {
            Some(_) => Err(Fault::Refused(Refusal::TransactionOpen)),
            None => {
                start(alloc, &mut self.opens, session)?;
                Ok(Answer::Plain(Reply::Done))
            }
        }
    }

    // Carries out a ROLLBACK.
    fn roll_back(&mut self) -> Result<Answer, Fault<Refusal>>
        ensures answers { Answers (rolled_back (standing_of self.old)
            (at_hand (standing_of self.old))) result (standing_of self.new) }
        ensures same { OnErr result (standing_of self.new ≡ standing_of self.old) }
        ensures engine { self.new.executing ≡ self.old.executing }
    {
        let session = self.executing.sessions.session();
        match keeps_write(self.opens.as_slice(), session) {
            Some(_) => {
                end(&mut self.opens, session);
                Ok(Answer::Plain(Reply::Done))
            }
            None => Err(Fault::Refused(Refusal::NoTransaction)),
        }
    }

    // Answers a SELECT in a transaction without writes, and notes what it read.
    fn read<L: Ledger>(
        &mut self,
        alloc: Global,
        statement: Statement,
        steps: &mut Steps<L>,
    ) -> Result<Answer, Fault<Refusal>>
        requires texts { TextsWithin text_limit (statement_view statement) }
        ensures answers { (o : OpenView) → at_hand (standing_of self.old) ≡ Some o
            → Answers (read_full (standing_of self.old) o.transaction
            (wants_csv_lem (statement_view statement))
            (full_at (standing_of self.old) (statement_view statement))) result
            (standing_of self.new) }
        ensures same { OnErr result (standing_of self.new ≡ standing_of self.old) }
        ensures answer { IfOk result IsAnswer }
        ensures engine { self.new.executing ≡ self.old.executing }
    {
        let csv = wants_csv(&statement);
        let sessions = &self.executing.sessions;
        let statement = sessions.in_full(alloc, statement)?;
        let read = read_told(alloc, sessions, &statement)?;
        let answer = sessions.read(alloc, &statement, csv, steps)?;
        let session = sessions.session();
        note(&mut self.opens, session, read, self.executing.numbers.last)?;
        Ok(answer)
    }

    // Carries out a SELECT.
    fn select<L: Ledger>(
        &mut self,
        alloc: Global,
        statement: Statement,
        steps: &mut Steps<L>,
    ) -> Result<Answer, Fault<Refusal>>
        requires texts { TextsWithin text_limit (statement_view statement) }
        requires select { kind_in (statement_view statement) ≡ Select }
        requires idle { IsIdle self.old.executing }
        ensures answers { Answers (selected_in (standing_of self.old)
            (at_hand (standing_of self.old)) (statement_view statement)) result
            (standing_of self.new) }
        ensures same { OnErr result (standing_of self.new ≡ standing_of self.old) }
        ensures answer { IfOk result IsAnswer }
        ensures keeps { Keeps (statement_view statement) self.old.executing self.new.executing }
        ensures idle { IsIdle self.new.executing }
    {
        let session = self.executing.sessions.session();
        match keeps_write(self.opens.as_slice(), session) {
            None => act_at_once(alloc, &mut self.executing, statement, steps),
            Some(true) => {
                mem::drop(statement);
                Err(Fault::Refused(Refusal::ReadAfterWrite))
            }
            Some(false) => self.read(alloc, statement, steps),
        }
    }

    // Carries out a statement that writes rows.
    fn write<L: Ledger>(
        &mut self,
        alloc: Global,
        statement: Statement,
        steps: &mut Steps<L>,
    ) -> Result<Answer, Fault<Refusal>>
        requires texts { TextsWithin text_limit (statement_view statement) }
        requires writes { writes_rows_in (kind_in (statement_view statement)) ≡ true }
        requires idle { IsIdle self.old.executing }
        ensures answers { Answers (act (standing_of self.old) (statement_view statement)) result
            (standing_of self.new) }
        ensures same { OnErr result (standing_of self.new ≡ standing_of self.old) }
        ensures answer { IfOk result IsAnswer }
        ensures keeps { Keeps (statement_view statement) self.old.executing self.new.executing }
        ensures idle { IsIdle self.new.executing }
    {
        match self.hold(alloc, statement, steps) {
            Ok(held) => Ok(self.settle(held)),
            Err(fault) => Err(fault),
        }
    }

    // Carries out one statement, by what it is.
    fn carry_out<L: Ledger>(
        &mut self,
        alloc: Global,
        statement: Statement,
        steps: &mut Steps<L>,
    ) -> Result<Answer, Fault<Refusal>>
        requires texts { TextsWithin text_limit (statement_view statement) }
        requires idle { IsIdle self.old.executing }
        ensures answers { Answers (acted_by (kind_in (statement_view statement))
            (standing_of self.old) (statement_view statement)) result (standing_of self.new) }
        ensures same { OnErr result (standing_of self.new ≡ standing_of self.old) }
        ensures answer { IfOk result IsAnswer }
        ensures keeps { Keeps (statement_view statement) self.old.executing self.new.executing }
        ensures idle { IsIdle self.new.executing }
    {
        match kind_of(&statement) {
            StatementKind::Begin => {
                mem::drop(statement);
                self.begin(alloc)
            }
            StatementKind::Rollback => {
                mem::drop(statement);
                self.roll_back()
            }
            StatementKind::Select => self.select(alloc, statement, steps),
            StatementKind::Other => act_at_once(alloc, &mut self.executing, statement, steps),
            StatementKind::Commit => self.write(alloc, statement, steps),
            StatementKind::Write => self.write(alloc, statement, steps),
        }
    }

    /// Carries out one statement in whole, as `Transactions::event` does.
    pub fn event<L: Ledger>(
        &mut self,
        alloc: Global,
        statement: Statement,
        steps: &mut Steps<L>,
    ) -> Result<Answer, Fault<Refusal>>
        requires texts { TextsWithin text_limit (statement_view statement) }
        requires idle { IsIdle self.old.executing }
        ensures answers { Answers (act (standing_of self.old) (statement_view statement)) result
            (standing_of self.new) }
        ensures same { OnErr result (standing_of self.new ≡ standing_of self.old) }
        ensures answer { IfOk result IsAnswer }
        ensures keeps { Keeps (statement_view statement) self.old.executing self.new.executing }
        ensures idle { IsIdle self.new.executing }
    {
        self.carry_out(alloc, statement, steps)
    }
}
