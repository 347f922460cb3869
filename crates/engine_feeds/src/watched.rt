//! The engine with its transactions and its watches: one event after the other.
ghost use Rattle.std.specs.Prelude.{◌≡◌, IfOk, OnOk, OnErr};
ghost use Rattle.std.specs.Option.{option_map};
ghost use Rattle.expr_lang.specs.Operations.{text_limit};
ghost use Rattle.statements.specs.Texts.{TextsWithin};
ghost use Rattle.statements.specs.Views.{statement_view};
ghost use Rattle.change_feed.specs.Watchers.{IsFresh};
ghost use Rattle.change_feed.specs.Watches.{given, heard_of};
ghost use Rattle.engine_transactions.specs.Spoken.{TextsCome};
ghost use Rattle.engine_transactions.specs.EngineSessionsCalls.{IsAnswer};
ghost use Rattle.engine_transactions.specs.Calls.{standing_of as standing_beneath};
ghost use Rattle.engine_feeds.specs.Act.{act, data_in, Answers};
ghost use Rattle.engine_feeds.specs.Calls.{standing_of};
ghost use Rattle.engine_feeds.specs.Kept.{kept_in};
ghost use Rattle.engine_feeds.specs.Standing.{unwatched};
ghost use Rattle.version_notes.specs.Mirrors.{AreQuiet};

use crate::asking::{unwatch, watch};
use crate::telling::carry_out;
use change_feed::{Note, Watcher, Watches};
use engine_transactions::{Answer, Kept, Sessions, Transactions};
use expr_lang::Steps;
use par_base::{Fault, Memory, Refusal};
use statements::Statement;
use std::alloc::Global;
use std::marker::Model;
use std::sync::ledger::Ledger;

/// An engine with its transactions, the watchers that wait, and the live watches.
#[derive(Drop)]
pub struct Watched<W: Watcher> {
    kept: Kept,
    watches: Watches<W>,
}

impl<W: Watcher> Model for Watched<W> {
    ghost use Rattle.std.specs.Coded.{codes};
    ghost use Rattle.expr_lang.specs.contracts.tree.ExprText as expression;
    ghost use Rattle.op_any.specs.Codes.{coded_any};
    ghost use Rattle.session_tx.specs.Transactions.{coded_transaction};
    ghost use Rattle.engine_feeds.specs.Kept.{view_of, WatchedView, AreKept};

    ghost Value = { WatchedView };

    ghost coded = { Prim.hlevel (codes, coded_any, coded_transaction, expression.the_row.coded) };

    ghost view = { λ it. view_of it.kept it.watches };

    ghost invariant = { λ it. AreKept it.kept it.watches };
}

impl<W: Watcher> Watched<W> {
    /// The beginning over transactions: no watcher waits, and nothing is watched. It takes no memory.
    pub fn over(alloc: Global, transactions: Transactions) -> Watched<W>
        ensures standing { standing_of result ≡ unwatched (standing_beneath transactions) }
        ensures transactions { result.transactions ≡ transactions }
    {
        Watched {
            kept: transactions.into_kept(),
            watches: Watches::new(alloc),
        }
    }

    /// The sessions with their engine. It does no work.
    pub fn sessions(&self) -> &Sessions
        ensures { result.now ≡ self.now.transactions.executing.sessions }
    {
        self.kept.sessions()
    }

    /// Lets a watcher wait behind the others. Where memory runs out, it is dropped.
    pub fn give(&mut self, watcher: W) -> Result<(), Memory>
        requires { IsFresh (W.seen watcher) }
        ensures ok { OnOk result (self.new ≡ record self.old {
          watches = given (W.seen watcher) self.old.watches;
        }) }
        ensures err { OnErr result (self.new ≡ self.old) }
    {
        self.watches.give(watcher)?;
        Ok(())
    }

    /// What the live watch of a number has heard, where there is one, and it tells that. It takes no
    /// memory.
    pub fn heard(&self, number: u64) -> Option<&[Note]>
        ensures { option_map (λ notes. notes.now) result ≡ heard_of number self.now.watches }
    {
        self.watches.heard(number)
    }

    /// Each live watch is ready for nothing, and where it shows rows, these are those of its version's
    /// tables. It does nothing: its contract is the law.
    pub fn mirrors_show_their_versions(&self)
        ensures { AreQuiet (data_in (standing_of self.now)) self.now.watches }
    {
        let _watches = &self.watches;
    }

    /// Carries out one statement, whose texts have at most 65,536 bytes, in the session at hand, and
    /// answers the model's answer or refusal. After an error all is as it was, and nobody was told.
    /// Each evaluation of an expression is a step.
    ///
    /// A WATCH takes the time of reading the tables of its version, and copies their rows. Each other
    /// statement takes the time of the transactions' event, and where a version is watched and rows are
    /// written besides time in the rows that changed in the versions that are watched, for each watch.
    pub fn event<L: Ledger>(
        &mut self,
        alloc: Global,
        statement: Statement,
        steps: &mut Steps<L>,
    ) -> Result<Answer, Fault<Refusal>>
        requires texts { TextsWithin text_limit (statement_view statement) }
        ensures answers { Answers (act (standing_of self.old) (statement_view statement)) result
            (standing_of self.new) }
        ensures same { OnErr result (standing_of self.new ≡ standing_of self.old) }
        ensures answer { IfOk result IsAnswer }
        ensures texts { TextsCome (statement_view statement) (kept_in self.old).graph.edges
            (kept_in self.new).graph.edges }
        ensures limit { (kept_in self.new).ids.limit ≡ (kept_in self.old).ids.limit }
    {
        match statement {
            Statement::Watch { name } => watch(alloc, &self.kept, &mut self.watches, name, steps),
            Statement::Unwatch { number } => unwatch(&mut self.watches, number),
            statement => carry_out(alloc, &mut self.kept, &mut self.watches, statement, steps),
        }
    }
}
