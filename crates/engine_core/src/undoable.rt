//! Writes of the engine that can be taken back.
ghost use Rattle.std.specs.Prelude.{◌≡◌, Ok, OnErr, OnOk, IfOk};
ghost use Rattle.expr_lang.specs.Operations.{text_limit};
ghost use Rattle.statements.specs.Views.{statement_view};
ghost use Rattle.statements.specs.Texts.{TextsWithin};
ghost use Rattle.par_base.specs.Checked.{Gives};
ghost use Rattle.op_any.specs.BuiltOn.{AreBuiltOn};
ghost use Rattle.op_any.specs.Operators.{any_meaning};
ghost use Rattle.write_propagation.specs.Bounds.{PlansWithin};
ghost use Rattle.write_plans.specs.Capacity.{HoldsAsMuch};
ghost use Rattle.write_plans.specs.Undo.{IsRevertible, Restores};
ghost use Rattle.engine_state.specs.Replies.{IsReply};
ghost use Rattle.engine_statements.specs.Statements.{Planned, wrote};
ghost use Rattle.engine_statements.specs.Calls.{planned_view, TakesWrite};
ghost use Rattle.engine_core.specs.Act.{planned_write, IsOrdinary};
ghost use Rattle.engine_core.specs.Bounds.{InsertTakes, PlansInsert};
ghost use Rattle.engine_core.specs.Kept.{data_of, Follows};
ghost use Rattle.engine_core.specs.Undo.{acted_write, AnswersWrite, LeavesWrite};

use crate::Engine;
use crate::spent::counter_at;
use crate::writing::write_through;
use crate::written::Written;
use engine_statements::{WritePlan, plan_delete, plan_insert, plan_update};
use expr_lang::Steps;
use par_base::{Fault, Refusal};
use statements::Statement;
use std::alloc::Global;
use std::sync::ledger::Ledger;
use write_plans::{RowWrite, Undo, revert};

impl Engine {
    /// Carries out an INSERT, UPDATE or DELETE as `event` does, and gives what takes it back beside its
    /// reply. After an error nothing has changed but what tables can hold without memory, which grows
    /// at most.
    pub fn write_undoable<L: Ledger>(
        &mut self,
        alloc: Global,
        statement: &Statement,
        steps: &mut Steps<L>,
    ) -> Result<Written, Fault<Refusal>>
        requires texts { TextsWithin text_limit (statement_view statement.now) }
        ensures answers { AnswersWrite (acted_write (data_of self.old)
            (statement_view statement.now)) result (data_of self.new) }
        ensures leaves { LeavesWrite (λ written. written.undo) self.old self.new result }
        ensures built { IfOk result (λ written. AreBuiltOn written.undo.ids.next
            self.new.graph.edges) }
        ensures same { OnErr result (data_of self.new ≡ data_of self.old) }
        ensures layout { Follows self.old self.new }
        ensures reply { IfOk result (λ written. IsReply written.reply) }
        ensures ordinary { (p : Planned) → planned_write (data_of self.old)
            (statement_view statement.now) ≡ Ok p
            → OnOk result (IsOrdinary (data_of self.old) p (data_of self.new)) }
        ensures steps { InsertTakes (data_of self.old) (statement_view statement.now) steps.old
            steps.new }
    {
        // That the layout stays where the graph does rests on it.
        self.versions_always_agree();
        let plan = self.plan(alloc, statement, steps)?;
        self.write(alloc, plan, steps)
    }

    /// Takes a write back with what it left: all is as it was before it. It takes no memory.
    pub fn take_back(&mut self, alloc: Global, undo: Undo)
        requires revertible { IsRevertible any_meaning self.old undo }
        requires built { AreBuiltOn undo.ids.next self.old.graph.edges }
        ensures restores { Restores any_meaning self.old undo self.new }
        ensures capacity { HoldsAsMuch self.old self.new }
    {
        // Keys are those of the state that goes; none are always right.
        self.keys = Vec::new(alloc);
        revert(alloc, &mut self.database, undo);
    }

    // What a statement makes of its version's table.
    fn plan<L: Ledger>(
        &self,
        alloc: Global,
        statement: &Statement,
        steps: &mut Steps<L>,
    ) -> Result<WritePlan, Fault<Refusal>>
        requires texts { TextsWithin text_limit (statement_view statement.now) }
        ensures gives { Gives (planned_view self.now) result
            (planned_write (data_of self.now) (statement_view statement.now)) }
        ensures taken { IfOk result (TakesWrite self.now) }
        ensures insert { PlansInsert (statement_view statement.now) result steps.old steps.new }
    {
        match statement {
            Statement::Insert { table, rows } => {
                plan_insert(alloc, &self.database, table, rows.as_slice())
            }
            Statement::Update {
                table,
                assignments,
                filter,
            } => plan_update(
                alloc,
                self.reader(),
                table,
                assignments.as_slice(),
                filter,
                steps,
            ),
            Statement::Delete { table, filter } => {
                plan_delete(alloc, self.reader(), table, filter, steps)
            }
            _ => Err(Fault::Refused(Refusal::NotBuilt)),
        }
    }

    // Makes the changes of a statement, and carries them along the walk.
    pub(crate) fn write<L: Ledger>(
        &mut self,
        alloc: Global,
        plan: WritePlan,
        steps: &mut Steps<L>,
    ) -> Result<Written, Fault<Refusal>>
        requires { TakesWrite self.old plan }
        ensures answers { AnswersWrite (wrote (data_of self.old)
            (planned_view self.old plan)) result
            (data_of self.new) }
        ensures leaves { LeavesWrite (λ written. written.undo) self.old self.new result }
        ensures built { IfOk result (λ written. AreBuiltOn written.undo.ids.next
            self.new.graph.edges) }
        ensures same { OnErr result (data_of self.new ≡ data_of self.old) }
        ensures layout { Follows self.old self.new }
        ensures reply { IsReply plan.reply → IfOk result (λ written. IsReply written.reply) }
        ensures ordinary { OnOk result (IsOrdinary (data_of self.old)
            (planned_view self.old plan)
            (data_of self.new)) }
        ensures steps { PlansWithin any_meaning self.old.graph.edges plan.set plan.changes steps.old
            steps.new }
    {
        // What follows in the other versions rests on it.
        self.versions_always_agree();
        let WritePlan {
            set,
            table,
            changes,
            next,
            reply,
        } = plan;
        let ids = counter_at(self.database.ids(), next)?;
        let written = RowWrite {
            set,
            table,
            changes,
            ids,
        };
        match write_through(alloc, &mut self.database, &mut self.keys, written, steps) {
            Ok(undo) => Ok(Written { reply, undo }),
            Err(Fault::Refused(spent)) => Err(spent.refused()),
            Err(Fault::Memory(memory)) => Err(Fault::Memory(memory)),
        }
    }
}
