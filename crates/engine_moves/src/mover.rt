//! The engine with its pending move: one event after the other.
ghost use Rattle.std.specs.Prelude.{◌≡◌, [], IfOk, OnErr};
ghost use Rattle.expr_lang.specs.Operations.{text_limit};
ghost use Rattle.statements.specs.Views.{statement_view, Materialize};
ghost use Rattle.statements.specs.Texts.{TextsWithin};
ghost use Rattle.engine_core.specs.Kept.{data_of, Answers};
ghost use Rattle.engine_core.specs.Spoken.{TextsCome};
ghost use Rattle.engine_core.specs.Undo.{acted_write, AnswersWrite, LeavesWrite};
ghost use Rattle.op_any.specs.BuiltOn.{AreBuiltOn};
ghost use Rattle.op_any.specs.Operators.{any_meaning};
ghost use Rattle.engine_core.specs.Capacity.{HoldsAsMuch};
ghost use Rattle.engine_core.specs.WritesUndone.{IsRevertible, Restores};
ghost use Rattle.engine_state.specs.Replies.{IsReply};
ghost use Rattle.migration.specs.Pending.{IsPending};
ghost use Rattle.engine_moves.specs.Act.{act, at_once, is_materialize as is_materialize_lem, moved, started, stepped};
ghost use Rattle.engine_moves.specs.Moving.{moving_of};

use engine_core::{Engine, Undo, Written};
use engine_state::Reply;
use expr_lang::Steps;
use migration::{keep_pending, next_flip, pending_without, start_move, steps_are_flips};
use op_any::AnyOp;
use par_base::{Fault, List, Refusal, Target};
use statements::Statement;
use std::alloc::Global;
use std::marker::Model;
use std::mem;
use std::sync::ledger::Ledger;

/// An engine, and the operators whose data are still to go to their other side, ascending. Where
/// there are none, no move is pending.
#[derive(Drop)]
pub struct Mover {
    engine: Engine,
    pending: List<u32>,
}

impl Model for Mover {
    ghost use Rattle.op_any.specs.Codes.{coded_any};
    ghost use Rattle.std.specs.Coded.{codes};
    ghost use Rattle.migration.specs.Pending.{IsPending};
    ghost use Rattle.engine_moves.specs.Moving.{KeptMove};

    ghost Value = { KeptMove };

    ghost coded = { Prim.hlevel (codes, coded_any) };

    ghost view = { λ it. record { database = it.engine; pending = it.pending } };

    ghost invariant = { λ it. IsPending it.engine.graph.edges it.engine.layout.operators it.pending };
}

// Whether a statement is a MATERIALIZE.
fn is_materialize(statement: &Statement) -> bool
    ensures { result ≡ is_materialize_lem (statement_view statement.now) }
{
    match statement {
        Statement::Materialize { .. } => true,
        _ => false,
    }
}

impl Mover {
    /// The beginning over an engine: no move is pending. It takes no memory.
    pub fn over(alloc: Global, engine: Engine) -> Mover
        ensures { result ≡ record { database = engine; pending = [] } }
    {
        // That nothing is pending leads to a valid layout rests on it.
        engine.versions_always_agree();
        Mover {
            engine,
            pending: List::new(alloc),
        }
    }

    /// The beginning over an engine with a pending move. It takes no memory.
    pub fn resume(engine: Engine, pending: List<u32>) -> Mover
        requires { IsPending engine.graph.edges engine.layout.operators pending }
        ensures { result ≡ record { database = engine; pending = pending } }
    {
        Mover { engine, pending }
    }

    /// The operators whose data are still to go to their other side, ascending: they lead to a valid
    /// layout. It does no work.
    pub fn pending(&self) -> &[u32]
        ensures value { result.now ≡ self.now.pending }
        ensures leads { IsPending self.now.database.graph.edges self.now.database.layout.operators
            result.now }
    {
        self.pending.as_slice()
    }

    /// The engine. It does no work.
    pub fn engine(&self) -> &Engine
        ensures { result.now ≡ self.now.database }
    {
        &self.engine
    }

    /// Carries out one statement of a session, whose texts have at most 65,536 bytes, and answers the
    /// model's reply or refusal. After an error the state is as it was. Each evaluation of an
    /// expression is a step.
    ///
    /// A STEP takes the time of the flip of one operator, and a MATERIALIZE .. IN STEPS that of
    /// finding its layout. Each other statement takes the time of the engine's event; besides it looks
    /// up each operator that is pending.
    pub fn event<L: Ledger>(
        &mut self,
        alloc: Global,
        session: u8,
        statement: Statement,
        steps: &mut Steps<L>,
    ) -> Result<Reply, Fault<Refusal>>
        requires texts { TextsWithin text_limit (statement_view statement) }
        ensures answers { Answers (act (moving_of self.old) (statement_view statement)) result
            (moving_of self.new) }
        ensures same { OnErr result (moving_of self.new ≡ moving_of self.old) }
        ensures reply { IfOk result IsReply }
        ensures texts { TextsCome (statement_view statement) self.old.database.graph.edges
            self.new.database.graph.edges }
        ensures limit { self.new.database.ids.limit ≡ self.old.database.ids.limit }
    {
        match statement {
            Statement::Materialize { named, in_steps } => {
                self.move_data(alloc, session, named, in_steps, steps)
            }
            Statement::Step => self.step(alloc, steps),
            statement => self.carry_out(alloc, session, statement, steps),
        }
    }

    /// Carries out an INSERT, UPDATE or DELETE, and gives what takes it back beside its reply. After an
    /// error nothing has changed but what tables can hold without memory, which grows at most.
    pub fn write_undoable<L: Ledger>(
        &mut self,
        alloc: Global,
        statement: &Statement,
        steps: &mut Steps<L>,
    ) -> Result<Written, Fault<Refusal>>
        requires texts { TextsWithin text_limit (statement_view statement.now) }
        ensures answers { AnswersWrite (acted_write (data_of self.old.database)
            (statement_view statement.now)) result (data_of self.new.database) }
        ensures leaves { LeavesWrite (λ written. written.undo) self.old.database self.new.database
            result }
        ensures built { IfOk result (λ written. AreBuiltOn written.undo.ids.next
            self.new.database.graph.edges) }
        ensures same { OnErr result (moving_of self.new ≡ moving_of self.old) }
        ensures pending { self.new.pending ≡ self.old.pending }
        ensures reply { IfOk result (λ written. IsReply written.reply) }
    {
        self.engine.write_undoable(alloc, statement, steps)
    }

    /// Takes a write back with what it left: all is as it was before it. It takes no memory.
    pub fn take_back(&mut self, alloc: Global, undo: Undo)
        requires revertible { IsRevertible any_meaning self.old.database undo }
        requires built { AreBuiltOn undo.ids.next self.old.database.graph.edges }
        ensures restores { Restores any_meaning self.old.database undo self.new.database }
        ensures capacity { HoldsAsMuch self.old.database self.new.database }
        ensures pending { self.new.pending ≡ self.old.pending }
    {
        self.engine.take_back(alloc, undo);
    }

    // Carries out a MATERIALIZE.
    fn move_data<L: Ledger>(
        &mut self,
        alloc: Global,
        session: u8,
        named: List<Target>,
        in_steps: bool,
        steps: &mut Steps<L>,
    ) -> Result<Reply, Fault<Refusal>>
        ensures answers { Answers (moved (moving_of self.old) named in_steps) result
            (moving_of self.new) }
        ensures same { OnErr result (moving_of self.new ≡ moving_of self.old) }
        ensures reply { IfOk result IsReply }
        ensures texts { TextsCome (Materialize named in_steps) self.old.database.graph.edges
            self.new.database.graph.edges }
        ensures limit { self.new.database.ids.limit ≡ self.old.database.ids.limit }
    {
        if in_steps {
            return self.start(alloc, named.as_slice());
        }
        let statement = Statement::Materialize { named, in_steps };
        self.carry_out(alloc, session, statement, steps)
    }

    // Carries out a MATERIALIZE .. IN STEPS.
    fn start(&mut self, alloc: Global, named: &[Target]) -> Result<Reply, Fault<Refusal>>
        ensures answers { Answers (started (moving_of self.old) named.now) result
            (moving_of self.new) }
        ensures same { OnErr result (moving_of self.new ≡ moving_of self.old) }
        ensures reply { IfOk result IsReply }
        ensures engine { self.new.database ≡ self.old.database }
    {
        self.pending = start_move(alloc, self.engine.database(), named)?;
        Ok(Reply::Pending {
            count: self.pending.len(),
        })
    }

    // Carries out a STEP.
    fn step<L: Ledger>(
        &mut self,
        alloc: Global,
        steps: &mut Steps<L>,
    ) -> Result<Reply, Fault<Refusal>>
        ensures answers { Answers (stepped (moving_of self.old)) result (moving_of self.new) }
        ensures same { OnErr result (moving_of self.new ≡ moving_of self.old) }
        ensures reply { IfOk result IsReply }
        ensures data { data_of self.new.database ≡ data_of self.old.database }
    {
        // That the flip leaves a valid layout rests on these.
        steps_are_flips::<AnyOp>();
        self.engine.versions_always_agree();
        let layout = self.engine.database().layout().operators.as_slice();
        let Some(operator) = next_flip(layout, self.pending.as_slice()) else {
            return Err(Fault::Refused(Refusal::NothingPending));
        };
        self.engine.flip(alloc, operator, steps)?;
        let pending = mem::replace(&mut self.pending, List::new(alloc));
        self.pending = pending_without(operator, pending);
        Ok(Reply::Flipped {
            operator,
            left: self.pending.len(),
        })
    }

    // Carries out any other statement, and a MATERIALIZE that moves at once.
    fn carry_out<L: Ledger>(
        &mut self,
        alloc: Global,
        session: u8,
        statement: Statement,
        steps: &mut Steps<L>,
    ) -> Result<Reply, Fault<Refusal>>
        requires texts { TextsWithin text_limit (statement_view statement) }
        ensures answers { Answers (at_once (moving_of self.old) (statement_view statement)) result
            (moving_of self.new) }
        ensures same { OnErr result (moving_of self.new ≡ moving_of self.old) }
        ensures reply { IfOk result IsReply }
        ensures texts { TextsCome (statement_view statement) self.old.database.graph.edges
            self.new.database.graph.edges }
        ensures limit { self.new.database.ids.limit ≡ self.old.database.ids.limit }
    {
        // That what is pending leads to a valid layout still rests on these.
        self.engine.versions_always_agree();
        let materialize = is_materialize(&statement);
        let reply = self.engine.event(alloc, session, statement, steps)?;
        self.engine.versions_always_agree();
        let pending = mem::replace(&mut self.pending, List::new(alloc));
        if !materialize {
            self.pending = keep_pending(self.engine.database().graph(), pending);
        }
        Ok(reply)
    }
}
