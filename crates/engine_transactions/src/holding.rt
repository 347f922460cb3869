//! An event that writes rows, in two halves.
ghost use Rattle.std.specs.Prelude.{◌≡◌, true, List, [], ◌∷◌, Some, OnErr};
ghost use Rattle.expr_lang.specs.Operations.{text_limit};
ghost use Rattle.par_base.specs.Checked.{Checked};
ghost use Rattle.statements.specs.Texts.{TextsWithin};
ghost use Rattle.statements.specs.Views.{statement_view};
ghost use Rattle.engine_state.specs.AnyDatabase.{AnyDatabase};
ghost use Rattle.engine_sessions.specs.declared.answer.Answer.{Answer as AnswerSeen};
ghost use Rattle.engine_transactions.specs.Act.{act, at_hand, at_once, committed, kept_by};
ghost use Rattle.engine_transactions.specs.Calls.{standing_of, IsIdle, Keeps};
ghost use Rattle.engine_transactions.specs.Held.{Holds, HoldsAs, IsBack, IsHeld, Settles};
ghost use Rattle.engine_transactions.specs.ByKind.{full_at, written_at};
ghost use Rattle.tx_history.specs.Kinds.{kind_in, version_told, writes_rows_in};
ghost use Rattle.engine_transactions.specs.Leads.{data_behind, open_data, written_data};
ghost use Rattle.tx_history.specs.Views.{OpenView};
ghost use Rattle.engine_transactions.specs.Standing.{Standing};
ghost use Rattle.engine_transactions.specs.declared.kept.Kept.{Kept as KeptSeen};
ghost use Rattle.tx_history.specs.declared.statement_kind.StatementKind.TheVariants.{Write};

use crate::commit::{hold_open, hold_write, settle_runs, take_back_runs};
use crate::held::Held;
use crate::kept::Kept;
use engine_sessions::{Answer, Undo};
use engine_state::Reply;
use expr_lang::Steps;
use par_base::{Fault, Refusal};
use statements::Statement;
use std::alloc::Global;
use std::mem;
use std::sync::ledger::Ledger;
use tx_history::{
    KeptWrite, StatementKind, end, forget, keep, keeps_write, kind_of, tells_version,
};

impl Kept {
    // Runs the open transaction of the session at hand.
    fn hold_commit<L: Ledger>(
        &mut self,
        alloc: Global,
        steps: &mut Steps<L>,
    ) -> Result<Held, Fault<Refusal>>
        requires { IsIdle self.old.executing }
        ensures holds { HoldsAs (committed (standing_of self.old) (at_hand (standing_of self.old)))
            (λ next. open_data (standing_of self.old) (at_hand (standing_of self.old))) self.old
            result self.new }
        ensures same { OnErr result (standing_of self.new ≡ standing_of self.old) }
        ensures idle { OnErr result (IsIdle self.new.executing) }
    {
        let session = self.executing.sessions.session();
        let opens = self.opens.as_slice();
        match hold_open(alloc, &mut self.executing, opens, session, steps) {
            Ok(runs) => Ok(Held::Commit { session, runs }),
            Err(fault) => Err(fault),
        }
    }

    // Keeps a write in the transaction of the session at hand.
    fn keep(&mut self, alloc: Global, statement: Statement) -> Result<Held, Fault<Refusal>>
        requires texts { TextsWithin text_limit (statement_view statement) }
        requires idle { IsIdle self.old.executing }
        ensures holds { (o : OpenView) → at_hand (standing_of self.old) ≡ Some o
            → HoldsAs (kept_by (standing_of self.old) o.transaction
            (version_told (full_at (standing_of self.old) (statement_view statement)))
            (full_at (standing_of self.old) (statement_view statement))) (λ next. []) self.old
            result self.new }
        ensures same { OnErr result (standing_of self.new ≡ standing_of self.old) }
        ensures engine { self.new.executing ≡ self.old.executing }
    {
        let session = self.executing.sessions.session();
        let statement = self.executing.sessions.in_full(alloc, statement)?;
        if !tells_version(&statement) {
            mem::drop(statement);
            return Err(Fault::Refused(Refusal::NoVersionInUse));
        }
        keep(&mut self.opens, session, KeptWrite::new(statement))?;
        Ok(Held::Kept { session })
    }

    // Runs a write outside a transaction.
    fn hold_outside<L: Ledger>(
        &mut self,
        alloc: Global,
        statement: Statement,
        steps: &mut Steps<L>,
    ) -> Result<Held, Fault<Refusal>>
        requires texts { TextsWithin text_limit (statement_view statement) }
        requires write { kind_in (statement_view statement) ≡ Write }
        requires idle { IsIdle self.old.executing }
        ensures holds { HoldsAs (at_once (standing_of self.old) (statement_view statement))
            (λ next. next.sessions.laid.database ∷ []) self.old result self.new }
        ensures same { OnErr result (standing_of self.new ≡ standing_of self.old) }
        ensures idle { OnErr result (IsIdle self.new.executing) }
    {
        match hold_write(alloc, &mut self.executing, statement, steps) {
            Ok(runs) => Ok(Held::Write { runs }),
            Err(fault) => Err(fault),
        }
    }

    // Does all of a write that may fail.
    fn hold_write<L: Ledger>(
        &mut self,
        alloc: Global,
        statement: Statement,
        steps: &mut Steps<L>,
    ) -> Result<Held, Fault<Refusal>>
        requires texts { TextsWithin text_limit (statement_view statement) }
        requires write { kind_in (statement_view statement) ≡ Write }
        requires idle { IsIdle self.old.executing }
        ensures holds { HoldsAs (written_at (standing_of self.old)
            (at_hand (standing_of self.old)) (statement_view statement))
            (written_data (at_hand (standing_of self.old))) self.old result self.new }
        ensures same { OnErr result (standing_of self.new ≡ standing_of self.old) }
        ensures idle { OnErr result (IsIdle self.new.executing) }
    {
        let session = self.executing.sessions.session();
        match keeps_write(self.opens.as_slice(), session) {
            None => self.hold_outside(alloc, statement, steps),
            Some(_) => self.keep(alloc, statement),
        }
    }

    /// Does all that may fail of a statement that writes rows, as `event` would. Its runs stay to be
    /// read, in the order of the writes, until the one call of `settle` or `let_go` that must follow.
    /// A write in an open transaction has none.
    pub fn hold<L: Ledger>(
        &mut self,
        alloc: Global,
        statement: Statement,
        steps: &mut Steps<L>,
    ) -> Result<Held, Fault<Refusal>>
        requires texts { TextsWithin text_limit (statement_view statement) }
        requires writes { writes_rows_in (kind_in (statement_view statement)) ≡ true }
        requires idle { IsIdle self.old.executing }
        ensures holds { HoldsAs (act (standing_of self.old) (statement_view statement))
            (data_behind (standing_of self.old) (statement_view statement)) self.old result
            self.new }
        ensures same { OnErr result (standing_of self.new ≡ standing_of self.old) }
        ensures keeps { OnErr result (Keeps (statement_view statement) self.old.executing
            self.new.executing) }
        ensures idle { OnErr result (IsIdle self.new.executing) }
    {
        match kind_of(&statement) {
            StatementKind::Commit => {
                mem::drop(statement);
                self.hold_commit(alloc, steps)
            }
            _ => self.hold_write(alloc, statement, steps),
        }
    }

    /// The runs that are still to be settled, in the order of their writes: there are none but between
    /// `hold` and what follows it. It does no work.
    pub fn runs(&self) -> &[Undo]
        ensures { result.now ≡ self.now.executing.unsettled.items }
    {
        self.executing.unsettled.as_slice()
    }

    /// Makes what was held stay, and gives its answer. It takes no memory.
    pub fn settle(&mut self, held: Held) -> Answer
        ensures { (model : Checked (AnswerSeen × Standing)) → (datas : Standing → List AnyDatabase)
            → (old : KeptSeen) → Holds model datas old held self.old
            → Settles model old result self.new }
    {
        match held {
            Held::Kept { session: _ } => Answer::Plain(Reply::Kept),
            Held::Write { runs } => settle_runs(&mut self.executing, runs),
            Held::Commit { session, runs } => {
                let answer = settle_runs(&mut self.executing, runs);
                end(&mut self.opens, session);
                answer
            }
        }
    }

    /// Takes what was held back: all is as before `hold`. It takes no memory.
    pub fn let_go(&mut self, held: Held)
        requires { IsHeld held self.old }
        ensures { (model : Checked (AnswerSeen × Standing)) → (datas : Standing → List AnyDatabase)
            → (old : KeptSeen) → Holds model datas old held self.old → IsBack old self.new }
    {
        match held {
            Held::Kept { session } => forget(&mut self.opens, session),
            Held::Write { .. } => take_back_runs(&mut self.executing),
            Held::Commit { .. } => take_back_runs(&mut self.executing),
        }
    }
}
