//! The engine with its sessions: one event after the other.
ghost use Rattle.std.specs.Prelude.{◌≡◌, IfOk, Ok, OnErr};
ghost use Rattle.expr_lang.specs.Operations.{text_limit};
ghost use Rattle.statements.specs.Views.{statement_view, Session};
ghost use Rattle.statements.specs.Texts.{TextsWithin};
ghost use Rattle.std.specs.Option.{option_copied};
ghost use Rattle.layout_planner.specs.Best.{best as best_lem};
ghost use Rattle.engine_moves.specs.EngineCoreKept.{state_of};
ghost use Rattle.engine_state.specs.Replies.{IsReply};
ghost use Rattle.engine_moves.specs.Spoken.{TextsCome};
ghost use Rattle.engine_moves.specs.EngineCoreUndo.{AnswersWrite, LeavesWrite};
ghost use Rattle.op_any.specs.BuiltOn.{AreBuiltOn};
ghost use Rattle.par_base.specs.Checked.{Gives};
ghost use Rattle.op_any.specs.Operators.{any_meaning};
ghost use Rattle.engine_moves.specs.Capacity.{HoldsAsMuch};
ghost use Rattle.engine_moves.specs.WritesUndone.{IsRevertible, Restores};
ghost use Rattle.engine_sessions.specs.InFull.{in_full as in_full_lem, wants_csv as wants_csv_lem};
ghost use Rattle.engine_moves.specs.Pending.{IsPending};
ghost use Rattle.engine_sessions.specs.Standing.{begun, begun_with, kept_in, standing_of, used_by};
ghost use Rattle.engine_sessions.specs.Act.{act, advised, answer_of as answer_of_lem, best_name as best_name_lem, counted, read_in, used, written_in, Answers};
ghost use Rattle.engine_sessions.specs.Calls.{IsAnswer};

use crate::Answer;
use crate::counts::{count_access, is_move, keep_behind};
use crate::in_full::{in_full, wants_csv};
use crate::uses::{VersionInUse, find_use, use_version};
use engine_moves::{Engine, Mover, Undo, Written, select_rows};
use engine_state::{Reply, known_set};
use expr_lang::Steps;
use layout_planner::{TableCount, VersionCost, best, costs};
use par_base::{Fault, List, Memory, Name, Refusal};
use statements::Statement;
use std::alloc::Global;
use std::mem;
use std::sync::ledger::Ledger;

/// An engine with the move that is pending, the accesses of its table versions, the versions in use,
/// and the session in which the next statement is given.
#[derive(Drop)]
pub struct Sessions {
    mover: Mover,
    counts: List<TableCount>,
    uses: List<VersionInUse>,
    session: u8,
}

// The rows of a reply as CSV, where they are asked for so.
fn answer_of(reply: Reply, csv: bool) -> Answer
    ensures value { result ≡ answer_of_lem csv reply }
    ensures prints { IsReply reply → IsAnswer result }
{
    match reply {
        Reply::Rows { header, rows } if csv => Answer::Csv { header, rows },
        reply => Answer::Plain(reply),
    }
}

// The first of least cost.
fn cheapest(costs: &[VersionCost]) -> Option<&VersionCost>
    ensures { option_copied result ≡ best_lem costs.entry.now }
{
    costs.get(best(costs)?)
}

// The name of the version of least cost; the version itself where none has a cost.
fn best_name(alloc: Global, version: &Name, costs: &[VersionCost]) -> Result<Name, Memory>
    ensures { IfOk result (λ name. name ≡ best_name_lem version.now costs.now) }
{
    match cheapest(costs) {
        Some(cost) => cost.version.copy(alloc),
        None => version.copy(alloc),
    }
}

impl Sessions {
    /// The beginning over an engine: nothing is pending, nothing was accessed, and session 0 is at
    /// hand. It takes no memory.
    pub fn over(alloc: Global, engine: Engine) -> Sessions
        ensures standing { standing_of result ≡ begun (state_of engine) }
        ensures engine { kept_in result ≡ engine }
    {
        Sessions {
            mover: Mover::over(alloc, engine),
            counts: List::new(alloc),
            uses: List::new(alloc),
            session: 0,
        }
    }

    /// The beginning over an engine with what was counted and is pending beside it; session 0 is at
    /// hand. It takes no memory.
    pub fn resume(
        alloc: Global,
        engine: Engine,
        counts: List<TableCount>,
        pending: List<u32>,
    ) -> Sessions
        requires { IsPending engine.graph.edges engine.layout.operators pending }
        ensures standing { standing_of result ≡ begun_with (state_of engine) counts pending }
        ensures engine { kept_in result ≡ engine }
    {
        Sessions {
            mover: Mover::resume(engine, pending),
            counts,
            uses: List::new(alloc),
            session: 0,
        }
    }

    /// How often each table version was accessed, of those that were. It does no work.
    pub fn counts(&self) -> &[TableCount]
        ensures { result.now ≡ (standing_of self.now).counts }
    {
        self.counts.as_slice()
    }

    /// The session in which the next statement is given. It does no work.
    pub fn session(&self) -> u8
        ensures { result ≡ (standing_of self.now).session }
    {
        self.session
    }

    /// Puts counts in place of those that are kept. It takes no memory.
    pub fn put_counts(&mut self, counts: List<TableCount>)
        ensures standing { standing_of self.new ≡ record (standing_of self.old)
            { counts = counts } }
        ensures engine { kept_in self.new ≡ kept_in self.old }
    {
        self.counts = counts;
    }

    /// What a statement says in full in the session at hand. It takes time in the length of an
    /// IMPORT's text, and else none.
    pub fn in_full(&self, alloc: Global, statement: Statement) -> Result<Statement, Memory>
        requires { TextsWithin text_limit (statement_view statement) }
        ensures full { IfOk result (λ made. statement_view made ≡ in_full_lem
            (used_by (standing_of self.now).uses (standing_of self.now).session)
            (statement_view statement)) }
        ensures texts { IfOk result (λ made. TextsWithin text_limit (statement_view made)) }
    {
        let used = find_use(self.uses.as_slice(), self.session);
        in_full(alloc, used, statement)
    }

    /// Answers a SELECT that is told in full, with its rows as CSV or not. It counts no access.
    pub fn read<L: Ledger>(
        &self,
        alloc: Global,
        statement: &Statement,
        csv: bool,
        steps: &mut Steps<L>,
    ) -> Result<Answer, Fault<Refusal>>
        ensures gives { Gives (λ answer. answer) result (read_in (standing_of self.now) csv
            (statement_view statement.now)) }
        ensures answer { IfOk result IsAnswer }
    {
        match statement {
            Statement::Select {
                table,
                items,
                filter,
                ..
            } => {
                let reader = self.engine().reader();
                let reply = select_rows(alloc, reader, table, items, filter, steps)?;
                Ok(answer_of(reply, csv))
            }
            _ => Err(Fault::Refused(Refusal::NotBuilt)),
        }
    }

    /// The operators whose data are still to go to their other side, ascending: they lead to a valid
    /// layout. Where there are none, no move is pending. It does no work.
    pub fn pending(&self) -> &[u32]
        ensures value { result.now ≡ (standing_of self.now).pending }
        ensures leads { IsPending (kept_in self.now).graph.edges
            (kept_in self.now).layout.operators result.now }
    {
        self.mover.pending()
    }

    /// The engine. It does no work.
    pub fn engine(&self) -> &Engine
        ensures { result.now ≡ kept_in self.now }
    {
        self.mover.engine()
    }

    /// Carries out one statement, whose texts have at most 65,536 bytes, in the session at hand, and
    /// answers the model's answer or refusal. After an error all is as it was. Each evaluation of an
    /// expression is a step.
    ///
    /// It takes the time of the mover's event for the statement in full; besides, for an IMPORT, in
    /// the length of its text, and for each statement on a table in the number of tables that were
    /// accessed, each of which is looked up. An ADVISE takes the time of `layout_planner`'s costs.
    pub fn event<L: Ledger>(
        &mut self,
        alloc: Global,
        statement: Statement,
        steps: &mut Steps<L>,
    ) -> Result<Answer, Fault<Refusal>>
        requires texts { TextsWithin text_limit (statement_view statement) }
        ensures answers { Answers (act (standing_of self.old) (statement_view statement)) result
            (standing_of self.new) }
        ensures same { OnErr result (standing_of self.new ≡ standing_of self.old) }
        ensures answer { IfOk result IsAnswer }
        ensures texts { TextsCome (statement_view statement) (kept_in self.old).graph.edges
            (kept_in self.new).graph.edges }
        ensures limit { (kept_in self.new).ids.limit ≡ (kept_in self.old).ids.limit }
    {
        match statement {
            Statement::Use { name } => self.use_named(alloc, name),
            Statement::Session { number } => Ok(self.choose(number)),
            Statement::Advise { name } => self.advise(alloc, &name),
            statement => self.carry_out(alloc, statement, steps),
        }
    }

    /// Carries out an INSERT, UPDATE or DELETE that is told in full, counts no access, and gives what
    /// takes it back beside its reply. After an error nothing has changed but what tables can hold
    /// without memory, which grows at most.
    pub fn write_undoable<L: Ledger>(
        &mut self,
        alloc: Global,
        statement: &Statement,
        steps: &mut Steps<L>,
    ) -> Result<Written, Fault<Refusal>>
        requires texts { TextsWithin text_limit (statement_view statement.now) }
        ensures answers { AnswersWrite (written_in (standing_of self.old)
            (statement_view statement.now)) result (standing_of self.new) }
        ensures leaves { LeavesWrite (λ written. written.undo) (kept_in self.old)
            (kept_in self.new) result }
        ensures built { IfOk result (λ written. AreBuiltOn written.undo.ids.next
            (kept_in self.new).graph.edges) }
        ensures beside { standing_of self.new ≡ record (standing_of self.old)
            { laid = state_of (kept_in self.new) } }
        ensures same { OnErr result (standing_of self.new ≡ standing_of self.old) }
        ensures reply { IfOk result (λ written. IsReply written.reply) }
    {
        self.mover.write_undoable(alloc, statement, steps)
    }

    /// Takes a write back with what it left: all is as it was before it. It takes no memory.
    pub fn take_back(&mut self, alloc: Global, undo: Undo)
        requires revertible { IsRevertible any_meaning (kept_in self.old) undo }
        requires built { AreBuiltOn undo.ids.next (kept_in self.old).graph.edges }
        ensures restores { Restores any_meaning (kept_in self.old) undo (kept_in self.new) }
        ensures capacity { HoldsAsMuch (kept_in self.old) (kept_in self.new) }
        ensures beside { standing_of self.new ≡ record (standing_of self.old)
            { laid = state_of (kept_in self.new) } }
    {
        self.mover.take_back(alloc, undo);
    }

    // Carries out a USE.
    fn use_named(&mut self, alloc: Global, name: Name) -> Result<Answer, Fault<Refusal>>
        ensures answers { Answers (used (standing_of self.old) name) result
            (standing_of self.new) }
        ensures same { OnErr result (standing_of self.new ≡ standing_of self.old) }
        ensures engine { kept_in self.new ≡ kept_in self.old }
    {
        let _set = known_set(alloc, self.engine().database().graph(), &name)?;
        self.uses = use_version(alloc, self.uses.as_slice(), self.session, name)?;
        Ok(Answer::Plain(Reply::Done))
    }

    // Carries out a SESSION.
    fn choose(&mut self, number: u8) -> Answer
        ensures answers { Answers (act (standing_of self.old) (Session number)) (Ok result)
            (standing_of self.new) }
        ensures engine { kept_in self.new ≡ kept_in self.old }
    {
        self.session = number;
        Answer::Plain(Reply::Done)
    }

    // Carries out an ADVISE.
    fn advise(&self, alloc: Global, name: &Name) -> Result<Answer, Fault<Refusal>>
        ensures answers { Answers (advised (standing_of self.now) name.now) result
            (standing_of self.now) }
        ensures answer { IfOk result IsAnswer }
    {
        let graph = self.engine().database().graph();
        let _set = known_set(alloc, graph, name)?;
        let costs = costs(alloc, graph, self.counts.as_slice(), name)?;
        let best = best_name(alloc, name, costs.as_slice())?;
        Ok(Answer::Advice { costs, best })
    }

    // Carries out a statement in full, and counts its access.
    fn carry_out<L: Ledger>(
        &mut self,
        alloc: Global,
        statement: Statement,
        steps: &mut Steps<L>,
    ) -> Result<Answer, Fault<Refusal>>
        requires texts { TextsWithin text_limit (statement_view statement) }
        ensures answers { Answers (counted (standing_of self.old)
            (wants_csv_lem (statement_view statement))
            (in_full_lem (used_by self.old.uses self.old.session) (statement_view statement)))
            result (standing_of self.new) }
        ensures same { OnErr result (standing_of self.new ≡ standing_of self.old) }
        ensures answer { IfOk result IsAnswer }
        ensures texts { TextsCome (statement_view statement) (kept_in self.old).graph.edges
            (kept_in self.new).graph.edges }
        ensures limit { (kept_in self.new).ids.limit ≡ (kept_in self.old).ids.limit }
    {
        let csv = wants_csv(&statement);
        let statement = self.in_full(alloc, statement)?;
        let moves = is_move(&statement);
        let database = self.engine().database();
        let counts = match count_access(alloc, database, self.counts.as_slice(), &statement) {
            Ok(counts) => counts,
            Err(memory) => {
                mem::drop(statement);
                return Err(Fault::Memory(memory));
            }
        };
        let reply = self.mover.event(alloc, self.session, statement, steps)?;
        self.counts = keep_behind(moves, self.engine().database().graph(), counts);
        Ok(answer_of(reply, csv))
    }
}
