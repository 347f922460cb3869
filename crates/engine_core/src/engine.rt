//! The engine: one event after the other.
ghost use Rattle.std.specs.Prelude.{◌≡◌, ◌==◌, ◌≤◌, not, true, Ok, OnErr, OnOk, IfOk, length, map};
ghost use Rattle.std.specs.List.{All};
ghost use Rattle.expr_lang.specs.Operations.{text_limit};
ghost use Rattle.statements.specs.Views.{op_view, statement_view};
ghost use Rattle.statements.specs.Texts.{IsTextWithin, OpTexts, TextsWithin};
ghost use Rattle.version_graph.specs.Edges.{IsGraph};
ghost use Rattle.par_base.specs.Checked.{◌then◌};
ghost use Rattle.op_any.specs.BuiltOn.{AreBuiltOn};
ghost use Rattle.op_any.specs.Operators.{any_meaning};
ghost use Rattle.version_model.specs.Sound.{IsSound};
ghost use Rattle.storage_law.specs.Canonical.{SameStored};
ghost use Rattle.db_state.specs.Fields.{storage_in, IsDatabase};
ghost use Rattle.db_state.specs.Laws.{IsRestored};
ghost use Rattle.engine_state.specs.Replies.{IsReply};
ghost use Rattle.engine_statements.specs.Calls.{HasKeys};
ghost use Rattle.engine_statements.specs.Statements.{Planned, wrote};
ghost use Rattle.engine_versions.specs.Evolve.{created};
ghost use Rattle.engine_layouts.specs.Laid.{flipped_laid, materialized};
ghost use Rattle.engine_core.specs.Act.{act, acted, acted_data, is_built as is_built_statement, planned_write, IsOrdinary};
ghost use Rattle.engine_core.specs.Bounds.{InsertTakes};
ghost use Rattle.engine_core.specs.Kept.{data_of, empty_state, state_of, Answers, Follows, MayFlip};
ghost use Rattle.engine_core.specs.Spoken.{TextsCome};

use crate::built::is_built;
use db_state::{Db, states_are_stored_once};
use engine_layouts::{flip_operator, materialize, show_layout};
use engine_state::Reply;
use engine_statements::{Reader, select_rows};
use engine_versions::{create_version, drop_version};
use expr_lang::Steps;
use op_any::AnyOp;
use par_base::{Fault, Limits, Memory, Name, Refusal, Target};
use statements::{OpText, Statement};
use std::alloc::Global;
use std::marker::Model;
use std::mem;
use std::sync::ledger::Ledger;
use table_keys::TableKeys;
use version_model::Numbered;

/// A database with all its versions, under a layout, and the keys that are kept of some of its tables.
///
/// The keys are those of the tables as the versions show them, whatever is stored. Contracts see the
/// database alone.
#[derive(Drop)]
pub struct Engine {
    pub(crate) database: Db<AnyOp>,
    pub(crate) keys: Vec<Numbered<TableKeys>>,
}

impl Model for Engine {
    ghost use Rattle.op_any.specs.Operators.{AnyView};
    ghost use Rattle.op_any.specs.Codes.{coded_any};
    ghost use Rattle.std.specs.Coded.{codes};
    ghost use Rattle.db_state.specs.declared.parts.Parts.{Parts};
    ghost use Rattle.op_any.specs.BuiltOn.{AreBuiltOn};
    ghost use Rattle.op_any.specs.Operators.{any_meaning};
    ghost use Rattle.db_state.specs.Fields.{state_for};
    ghost use Rattle.kept_keys.specs.Kept.{AreKeysOf};

    ghost Value = { Parts AnyView };

    ghost coded = { Prim.hlevel (codes, coded_any) };

    ghost view = { λ it. it.database };

    ghost invariant = { λ it. AreBuiltOn it.database.ids.next it.database.graph.edges
        × AreKeysOf (state_for any_meaning it.database).tables it.keys.items };
}

impl Engine {
    /// The engine of an empty database. It takes no memory.
    pub fn new(alloc: Global, limits: Limits) -> Engine
        ensures { state_of result ≡ empty_state limits.max_id }
    {
        let database = Db::new(alloc, limits.max_id);
        let keys = Vec::new(alloc);
        Engine { database, keys }
    }

    /// The engine of a database whose operators are each what its own text builds. It takes no memory.
    pub fn over(alloc: Global, database: Db<AnyOp>) -> Engine
        requires { AreBuiltOn database.ids.next database.graph.edges }
        ensures { result ≡ database }
    {
        let keys = Vec::new(alloc);
        Engine { database, keys }
    }

    /// The database with its layout, whose operators may be told by their texts alone: each is what
    /// its text builds on the working set on which it stands. It does no work.
    pub fn database(&self) -> &Db<AnyOp>
        ensures database { result.now ≡ self.now }
        ensures built { AreBuiltOn self.now.ids.next self.now.graph.edges }
    {
        &self.database
    }

    /// The database and the keys that are kept of it, for what reads it alone. It does no work.
    pub fn reader(&self) -> Reader<'_>
        ensures database { result.database.now ≡ self.now }
        ensures keys { HasKeys result }
    {
        Reader {
            database: &self.database,
            keys: self.keys.as_slice(),
        }
    }

    /// Carries out one statement of a session, whose texts have at most 65,536 bytes, and answers the
    /// model's reply or refusal. After an error the state is as it was. Whatever brings back a state
    /// with its layout brings back every stored table, auxiliary table and memory. Operators come from
    /// statements alone. Each evaluation of an expression is a step.
    /// Where every operator of its tree treats each identifier by itself, an INSERT takes time in
    /// the number of its values, for each table of the tree, and an UPDATE or DELETE besides in the
    /// number of values of its table; else each takes time in the number of values of its table and
    /// of the tables of its tree. A CREATE SCHEMA VERSION takes time in that of the sources and
    /// targets of its operators, a SELECT in that of its table and of those on its way to storage,
    /// a MATERIALIZE in that of the operators that change sides, near and far. Where a condition pins
    /// an identifier, an UPDATE, DELETE or SELECT reads of its own table one row, and over foreign keys
    /// those that hang together with it, where keys are kept: from the first write through the foreign
    /// key on, until the next evolution. Besides, each takes
    /// time in the square of the number of live operators and tables at most, but MATERIALIZE and
    /// DROP SCHEMA VERSION also in that of the operators that are stored on their target side, for
    /// each table and each live operator.
    pub fn event<L: Ledger>(
        &mut self,
        alloc: Global,
        session: u8,
        statement: Statement,
        steps: &mut Steps<L>,
    ) -> Result<Reply, Fault<Refusal>>
        requires texts { TextsWithin text_limit (statement_view statement) }
        ensures answers { Answers (act (state_of self.old) (statement_view statement)) result
            (state_of self.new) }
        ensures same { OnErr result (state_of self.new ≡ state_of self.old) }
        ensures reply { IfOk result IsReply }
        ensures ordinary { (p : Planned) → planned_write (data_of self.old)
            (statement_view statement) ≡ Ok p
            → OnOk result (IsOrdinary (data_of self.old) p (data_of self.new)) }
        ensures restores { IsRestored any_meaning self.new }
        ensures texts { TextsCome (statement_view statement) self.old.graph.edges
            self.new.graph.edges }
        ensures limit { self.new.ids.limit ≡ self.old.ids.limit }
        ensures steps { InsertTakes (data_of self.old) (statement_view statement) steps.old
            steps.new }
    {
        let _session = session;
        // What is stored rests on these.
        states_are_stored_once::<AnyOp>();
        self.versions_always_agree();
        if !is_built(&statement) {
            mem::drop(statement);
            return Err(Fault::Refused(Refusal::NotBuilt));
        }
        let answer = self.carry_out(alloc, &statement, steps);
        self.versions_always_agree();
        mem::drop(statement);
        answer
    }

    /// In every database each operator relates its source and its target tables, so that all versions
    /// show one state of the data. It does nothing: its contract is the law.
    pub fn versions_always_agree(&self)
        ensures agree { IsSound any_meaning self.now.graph.edges (data_of self.now).state }
        ensures graph { IsGraph self.now.graph }
        ensures stored { IsDatabase any_meaning self.now }
    {
        let _graph = self.database.graph();
    }

    /// Engines of one state store the same: so whatever brings back state and layout brings back every
    /// stored table, auxiliary table and memory. It does nothing: its contract is the law.
    pub fn storage_comes_back(&self, other: &Engine)
        ensures { state_of self.now ≡ state_of other.now
            → SameStored (storage_in self.now) (storage_in other.now) }
    {
        states_are_stored_once::<AnyOp>();
        let _graph = self.database.graph();
        let _other = other.database.graph();
    }

    /// Moves the data of one live operator to its other side, into a valid layout, and changes nothing
    /// else. It takes time in the number of values of this operator, near and far.
    pub fn flip<L: Ledger>(
        &mut self,
        alloc: Global,
        operator: u32,
        steps: &mut Steps<L>,
    ) -> Result<(), Memory>
        requires { MayFlip self.old operator }
        ensures flips { OnOk result (state_of self.new
            ≡ flipped_laid (state_of self.old) operator) }
        ensures same { OnErr result (self.new ≡ self.old) }
    {
        flip_operator(alloc, &mut self.database, operator, steps)
    }

    // Carries out a statement of a form that is built.
    fn carry_out<L: Ledger>(
        &mut self,
        alloc: Global,
        statement: &Statement,
        steps: &mut Steps<L>,
    ) -> Result<Reply, Fault<Refusal>>
        requires texts { TextsWithin text_limit (statement_view statement.now) }
        requires built { is_built_statement (statement_view statement.now) ≡ true }
        ensures answers { Answers (acted (state_of self.old) (statement_view statement.now)) result
            (state_of self.new) }
        ensures same { OnErr result (state_of self.new ≡ state_of self.old) }
        ensures reply { IfOk result IsReply }
        ensures ordinary { (p : Planned) → planned_write (data_of self.old)
            (statement_view statement.now) ≡ Ok p
            → OnOk result (IsOrdinary (data_of self.old) p (data_of self.new)) }
        ensures steps { InsertTakes (data_of self.old) (statement_view statement.now) steps.old
            steps.new }
    {
        // That the layout stays where the graph does rests on it.
        self.versions_always_agree();
        match statement {
            Statement::Materialize { named, .. } => self.move_data(alloc, named.as_slice(), steps),
            Statement::ShowLayout => Ok(show_layout(alloc, &self.database)?),
            _ => self.change_data(alloc, statement, steps),
        }
    }

    // Carries out a MATERIALIZE.
    fn move_data<L: Ledger>(
        &mut self,
        alloc: Global,
        named: &[Target],
        steps: &mut Steps<L>,
    ) -> Result<Reply, Fault<Refusal>>
        ensures answers { Answers (materialized (state_of self.old) named.now
            then λ m. Ok (Reply.Moved m.0, m.1)) result (state_of self.new) }
        ensures same { OnErr result (state_of self.new ≡ state_of self.old) }
        ensures reply { IfOk result IsReply }
    {
        let count = materialize(alloc, &mut self.database, named, steps)?;
        Ok(Reply::Moved { count })
    }

    // Carries out a statement on the data.
    fn change_data<L: Ledger>(
        &mut self,
        alloc: Global,
        statement: &Statement,
        steps: &mut Steps<L>,
    ) -> Result<Reply, Fault<Refusal>>
        requires texts { TextsWithin text_limit (statement_view statement.now) }
        requires built { is_built_statement (statement_view statement.now) ≡ true }
        ensures answers { Answers (acted_data (data_of self.old)
            (statement_view statement.now)) result
            (data_of self.new) }
        ensures same { OnErr result (data_of self.new ≡ data_of self.old) }
        ensures layout { Follows self.old self.new }
        ensures reply { IfOk result IsReply }
        ensures ordinary { (p : Planned) → planned_write (data_of self.old)
            (statement_view statement.now) ≡ Ok p
            → OnOk result (IsOrdinary (data_of self.old) p (data_of self.new)) }
        ensures steps { InsertTakes (data_of self.old) (statement_view statement.now) steps.old
            steps.new }
    {
        // That the layout stays where the graph does rests on it.
        self.versions_always_agree();
        match statement {
            Statement::CreateVersion {
                name,
                from,
                operators,
            } => self.create(alloc, name, from, operators.as_slice(), steps),
            Statement::DropVersion { name } => {
                self.keys = Vec::new(alloc);
                drop_version(alloc, &mut self.database, name, steps)?;
                Ok(Reply::Done)
            }
            Statement::Select {
                table,
                items,
                filter,
                ..
            } => select_rows(alloc, self.reader(), table, items, filter, steps),
            _ => self.change(alloc, statement, steps),
        }
    }

    // Carries out a CREATE SCHEMA VERSION.
    fn create<L: Ledger>(
        &mut self,
        alloc: Global,
        name: &Name,
        from: &Option<Name>,
        operators: &[OpText],
        steps: &mut Steps<L>,
    ) -> Result<Reply, Fault<Refusal>>
        requires texts { All (OpTexts (IsTextWithin text_limit))
            (map op_view operators.now) }
        requires some { not (length (map op_view operators.now) == 0) ≡ true }
        ensures answers { Answers ((created (data_of self.old) name.now from.now
            (map op_view operators.now))
            then λ next. Ok (Reply.Done, next)) result (data_of self.new) }
        ensures same { OnErr result (data_of self.new ≡ data_of self.old) }
        ensures layout { Follows self.old self.new }
        ensures reply { IfOk result IsReply }
    {
        // That the layout stays where the graph does rests on it.
        self.versions_always_agree();
        let name = name.copy(alloc)?;
        self.keys = Vec::new(alloc);
        create_version(
            alloc,
            &mut self.database,
            name,
            from.as_ref(),
            operators,
            steps,
        )?;
        Ok(Reply::Done)
    }

    // Carries out a statement that writes rows.
    fn change<L: Ledger>(
        &mut self,
        alloc: Global,
        statement: &Statement,
        steps: &mut Steps<L>,
    ) -> Result<Reply, Fault<Refusal>>
        requires texts { TextsWithin text_limit (statement_view statement.now) }
        ensures answers { Answers ((planned_write (data_of self.old) (statement_view statement.now))
            then λ p. wrote (data_of self.old) p) result (data_of self.new) }
        ensures same { OnErr result (data_of self.new ≡ data_of self.old) }
        ensures layout { Follows self.old self.new }
        ensures reply { IfOk result IsReply }
        ensures ordinary { (p : Planned) → planned_write (data_of self.old)
            (statement_view statement.now) ≡ Ok p
            → OnOk result (IsOrdinary (data_of self.old) p (data_of self.new)) }
        ensures steps { InsertTakes (data_of self.old) (statement_view statement.now) steps.old
            steps.new }
    {
        // That the layout stays where the graph does rests on it.
        self.versions_always_agree();
        let written = self.write_undoable(alloc, statement, steps)?;
        Ok(written.reply)
    }
}
