//! The engine with its sessions and their transactions: one event after the other.
ghost use Rattle.std.specs.Prelude.{◌≡◌, [], IfOk, OnErr};
ghost use Rattle.expr_lang.specs.Operations.{text_limit};
ghost use Rattle.statements.specs.Texts.{TextsWithin};
ghost use Rattle.statements.specs.Views.{statement_view};
ghost use Rattle.engine_sessions.specs.Spoken.{TextsCome};
ghost use Rattle.engine_sessions.specs.Calls.{IsAnswer};
ghost use Rattle.engine_sessions.specs.Standing.{kept_in as kept_beside, standing_of as standing_beside};
ghost use Rattle.engine_transactions.specs.Act.{act, Answers};
ghost use Rattle.engine_transactions.specs.Calls.{standing_of, IsIdle};
ghost use Rattle.engine_transactions.specs.Standing.{begun};

use crate::Executing;
use crate::kept::Kept;
use engine_sessions::{Answer, Sessions};
use expr_lang::Steps;
use par_base::{Fault, List, Refusal};
use statements::Statement;
use std::alloc::Global;
use std::marker::Model;
use std::sync::ledger::Ledger;
use tx_history::ChangeNumbers;

/// An engine with its sessions, the numbers of changes, and the open transaction of each session that
/// has one.
#[derive(Drop)]
pub struct Transactions {
    kept: Kept,
}

impl Model for Transactions {
    ghost use Rattle.std.specs.Coded.{codes};
    ghost use Rattle.expr_lang.specs.contracts.tree.ExprText as expression;
    ghost use Rattle.op_any.specs.Codes.{coded_any};
    ghost use Rattle.session_tx.specs.Transactions.{coded_transaction};
    ghost use Rattle.engine_transactions.specs.declared.kept.Kept.{Kept};
    ghost use Rattle.engine_transactions.specs.Calls.{IsIdle};

    ghost Value = { Kept };

    ghost coded = { Prim.hlevel (codes, coded_any, coded_transaction, expression.the_row.coded) };

    ghost view = { λ it. it.kept };

    ghost invariant = { λ it. IsIdle it.kept.executing };
}

impl Transactions {
    /// The beginning over sessions: nothing has changed yet, and no transaction is open. It takes no
    /// memory.
    pub fn over(alloc: Global, sessions: Sessions) -> Transactions
        ensures standing { standing_of result ≡ begun (standing_beside sessions) }
        ensures sessions { result.executing.sessions ≡ sessions }
    {
        let numbers = ChangeNumbers {
            last: 0,
            changed: List::new(alloc),
            dropped: List::new(alloc),
        };
        Transactions {
            kept: Kept {
                executing: Executing {
                    sessions,
                    numbers,
                    unsettled: Vec::new(alloc),
                },
                opens: Vec::new(alloc),
            },
        }
    }

    /// The sessions with their engine. It does no work.
    pub fn sessions(&self) -> &Sessions
        ensures { result.now ≡ self.now.executing.sessions }
    {
        self.kept.sessions()
    }

    /// What is kept, for a crate above that does more within an event. It takes no memory.
    pub fn into_kept(self) -> Kept
        ensures value { result ≡ self }
        ensures idle { IsIdle result.executing }
    {
        let Transactions { kept } = self;
        kept
    }

    /// Carries out one statement, whose texts have at most 65,536 bytes, in the session at hand, and
    /// answers the model's answer or refusal. After an error, want of memory in a COMMIT among them,
    /// all is as it was, and a transaction is still open. Each evaluation of an expression is a step.
    ///
    /// A statement outside a transaction takes the time of the sessions' event; a write besides that
    /// of finding the number of each table that it changes among all that ever changed. A SELECT in a
    /// transaction takes that of a SELECT. A write in a transaction takes no more than its text. A
    /// COMMIT takes the time of its writes, and for each read and write besides that of looking up
    /// its table among those that ever changed and among those that were accessed.
    pub fn event<L: Ledger>(
        &mut self,
        alloc: Global,
        statement: Statement,
        steps: &mut Steps<L>,
    ) -> Result<Answer, Fault<Refusal>>
        requires texts { TextsWithin text_limit (statement_view statement) }
        ensures answers { Answers (act (standing_of self.old) (statement_view statement)) result
            (standing_of self.new) }
        ensures same { OnErr result (standing_of self.new ≡ standing_of self.old) }
        ensures answer { IfOk result IsAnswer }
        ensures texts { TextsCome (statement_view statement)
            (kept_beside self.old.executing.sessions).graph.edges
            (kept_beside self.new.executing.sessions).graph.edges }
        ensures limit { (kept_beside self.new.executing.sessions).ids.limit
            ≡ (kept_beside self.old.executing.sessions).ids.limit }
    {
        self.kept.event(alloc, statement, steps)
    }
}
