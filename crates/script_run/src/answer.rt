//! A statement carried out and answered.
ghost use Rattle.std.specs.Prelude.{◌≡◌, IfOk, OnOk};
ghost use Rattle.expr_lang.specs.Operations.{text_limit};
ghost use Rattle.statements.specs.Views.{statement_view};
ghost use Rattle.statements.specs.Texts.{TextsWithin};
ghost use Rattle.engine_feeds.specs.Spoken.{TextsCome};
ghost use Rattle.engine_feeds.specs.Kept.{kept_in};
ghost use Rattle.engine_feeds.specs.Calls.{standing_of};
ghost use Rattle.engine_feeds.specs.Act.{act};
ghost use Rattle.engine_feeds.specs.Replies.{next_state};
ghost use Rattle.script_run.specs.Calls.{IsReplyTo};

use crate::stream::Next;
use change_feed::Watcher;
use engine_feeds::{Watched, answer_text, refusal_text};
use expr_lang::Steps;
use par_base::{Fault, Memory};
use statements::Statement;
use std::alloc::Global;
use std::sync::ledger::Ledger;

/// Carries out a statement, and gives the lines that answer it.
pub fn answer<W: Watcher, L: Ledger>(
    alloc: Global,
    watched: &mut Watched<W>,
    statement: Statement,
    steps: &mut Steps<L>,
) -> Result<Next, Memory>
    requires { TextsWithin text_limit (statement_view statement) }
    ensures reply { IfOk result (IsReplyTo (act (standing_of watched.old)
        (statement_view statement))) }
    ensures next { OnOk result (standing_of watched.new ≡ next_state (standing_of watched.old)
        (act (standing_of watched.old) (statement_view statement))) }
    ensures texts { TextsCome (statement_view statement) (kept_in watched.old).graph.edges
        (kept_in watched.new).graph.edges }
    ensures limit { (kept_in watched.new).ids.limit ≡ (kept_in watched.old).ids.limit }
{
    match watched.event(alloc, statement, steps) {
        Ok(answer) => Ok(Next::Reply {
            text: answer_text(alloc, &answer)?,
            refused: false,
        }),
        Err(Fault::Refused(refusal)) => Ok(Next::Reply {
            text: refusal_text(alloc, &refusal)?,
            refused: true,
        }),
        Err(Fault::Memory(memory)) => Err(memory),
    }
}
