//! The laws. The functions do nothing: their contracts are the laws.
ghost use Rattle.script_laws.specs.Kept.{ScriptsKeep, ScriptsKeepCounts, StatementsKeep};
ghost use Rattle.script_laws.specs.Lines.{StatementsAreAnswered};
ghost use Rattle.script_laws.specs.Moves.{MovesChangeNoReply};
ghost use Rattle.script_laws.specs.Said.{SaidNeedNoSession};
ghost use Rattle.script_laws.specs.Scripts.{ScriptsAreOrdinary, ScriptsFit, ScriptsStayKept};
ghost use Rattle.script_laws.specs.Stored.{MovesStoreNamed, StartsLeadToNamed};
ghost use Rattle.script_laws.specs.Written.{StatementsAreOrdinary};

use engine_transactions::replies_are_lines;
use session_laws::{
    answers_are_lines, counts_stay_beside_the_graph, each_write_is_ordinary,
    moves_store_what_they_name as moves_store_at_once, said_statements_need_no_session,
    statements_keep_states,
};

/// With every MATERIALIZE and every STEP struck out of a script, all other statements but SHOW LAYOUT
/// are answered the same, from any layout of the same data on.
pub fn moves_change_no_reply()
    ensures { MovesChangeNoReply }
{}

/// An answered MATERIALIZE changes no data, and leaves each table stored that it names: the one of
/// that name in the version, or each table of the version where none is named. One in steps changes
/// nothing, and what is then pending leads to a layout that stores them.
pub fn moves_store_what_they_name()
    ensures moved { MovesStoreNamed }
    ensures started { StartsLeadToNamed }
{
    moves_store_at_once();
}

/// Each statement is answered by one line at least, and the last line ends too, in every session and
/// whatever stands.
pub fn statements_are_answered()
    ensures { StatementsAreAnswered }
{
    answers_are_lines();
    replies_are_lines();
}

/// Where no transaction is open, statements that name the version of their table, or stand behind an
/// answered USE of their session among them, and begin no transaction, are answered the same and leave
/// the same but for sessions and history, whatever was in use and happened before them.
pub fn said_scripts_need_no_session()
    ensures { SaidNeedNoSession }
{
    said_statements_need_no_session();
}

/// Each statement of a script leaves a sound state, in which all versions show one state of the data,
/// be it answered or refused.
pub fn scripts_keep_states()
    ensures one { StatementsKeep }
    ensures all { ScriptsKeep }
{
    statements_keep_states();
    each_write_is_ordinary();
}

/// What is counted are accesses of tables that live, each once and ascending, and stays so behind each
/// statement of a script.
pub fn scripts_keep_counts()
    ensures { ScriptsKeepCounts }
{
    counts_stay_beside_the_graph();
}

/// Each state that a script reaches from a sound one is sound, and each answered write of the script
/// is that of an ordinary database: at once, or at the COMMIT of its transaction.
pub fn scripts_are_ordinary()
    ensures fit { ScriptsFit }
    ensures one { StatementsAreOrdinary }
    ensures kept { ScriptsStayKept }
    ensures ordinary { ScriptsAreOrdinary }
{
    each_write_is_ordinary();
    scripts_keep_states();
}
