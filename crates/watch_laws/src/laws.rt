//! The laws. The functions do nothing: their contracts are the laws.
ghost use Rattle.watch_laws.specs.Beside.{OthersAreAnswered, StandsBeside, UnwatchedAreAnswered};
ghost use Rattle.watch_laws.specs.Lines.{StatementsAreAnswered};
ghost use Rattle.watch_laws.specs.Moves.{MovesChangeNoReply, MovesTellNothing};
ghost use Rattle.watch_laws.specs.Said.{SaidNeedNoSession};
ghost use Rattle.watch_laws.specs.Scripts.{ScriptsAreOrdinary, ScriptsStayKept};

use engine_feeds::replies_are_lines;
use script_laws::{
    answers_are_lines, said_scripts_need_no_session as said_scripts_need_none,
    scripts_are_ordinary as writes_are_ordinary,
};

/// Whoever watches: all other statements are answered the same, and leave the same data, sessions and
/// transactions, as where nobody does. Without watches WATCH and UNWATCH are refused and change nothing.
pub fn watches_are_beside()
    ensures stands { StandsBeside }
    ensures replies { OthersAreAnswered }
    ensures unwatched { UnwatchedAreAnswered }
{}

/// With every MATERIALIZE and every STEP struck out of a script, all other statements but SHOW LAYOUT
/// are answered the same, from any layout of the same data on, and watchers are told the same.
pub fn moves_change_no_reply()
    ensures replies { MovesChangeNoReply }
    ensures watches { MovesTellNothing }
{}

/// Each statement is answered by one line at least, and the last line ends too, in every session and
/// whatever stands.
pub fn statements_are_answered()
    ensures { StatementsAreAnswered }
{
    answers_are_lines();
    replies_are_lines();
}

/// Where no transaction is open, statements that name the version of their table, or stand behind an
/// answered USE of their session among them, and neither begin a transaction nor name a watch, are
/// answered the same and leave the same but for sessions, history and watches, whatever was in use,
/// happened and was watched before them.
pub fn said_scripts_need_no_session()
    ensures { SaidNeedNoSession }
{
    watches_are_beside();
    said_scripts_need_none();
}

/// Each state that a script reaches from a sound one is sound, and each answered write of the script
/// is that of an ordinary database: at once, or at the COMMIT of its transaction.
pub fn scripts_are_ordinary()
    ensures kept { ScriptsStayKept }
    ensures ordinary { ScriptsAreOrdinary }
{
    watches_are_beside();
    writes_are_ordinary();
}
