//! The laws. The functions do nothing: their contracts are the laws.
ghost use Rattle.session_laws.specs.Kept.{DatabasesAreKept, EmptyIsKept, StatementsKeep};
ghost use Rattle.session_laws.specs.Lines.{AnswersAreLines};
ghost use Rattle.session_laws.specs.Moves.{MovesStoreNamed, StartsLeadToNamed};
ghost use Rattle.session_laws.specs.Said.{SaidNeedNoSession};
ghost use Rattle.session_laws.specs.Sessions.{CountsStay, NeedNoSession, NeedTheDataAlone, UsesAreOwn};
ghost use Rattle.session_laws.specs.Written.{WritesAreOrdinary, WritesInFullAreOrdinary};

use engine_sessions::{moves_store_targets, replies_are_lines, writes_are_by_identifier};

/// A USE sets the version in use of its own session, and no other.
pub fn uses_are_each_sessions_own()
    ensures { UsesAreOwn }
{}

/// A statement that names the version of its table, asks for no advice and is no STEP is answered by
/// the data alone, whatever is in use, is pending and was counted.
pub fn full_statements_need_the_data_alone()
    ensures { NeedTheDataAlone }
{}

/// A statement that names the version of its table, where it is on one, is answered the same and leaves
/// the same but for sessions, whatever is in use and whichever session is at hand.
pub fn named_statements_need_no_session()
    ensures { NeedNoSession }
{}

/// What is counted is always counted of tables that live, each once and ascending.
pub fn counts_stay_beside_the_graph()
    ensures { CountsStay }
{}

/// Each answer has one line at least, and its last line ends too, be it rows as CSV or advice.
pub fn answers_are_lines()
    ensures { AnswersAreLines }
{
    replies_are_lines();
}

/// An answered MATERIALIZE changes no data, and leaves each table stored that it names: the one of
/// that name in the version, or each table of the version where none is named. One in steps changes
/// nothing, and what is then pending leads to a layout that stores them.
pub fn moves_store_what_they_name()
    ensures moved { MovesStoreNamed }
    ensures started { StartsLeadToNamed }
{
    moves_store_targets();
}

/// Statements that name the version of their table, or stand behind an answered USE of their session
/// among them, are answered the same and leave the same but for sessions, whatever was in use and
/// whichever session was at hand before them.
pub fn said_statements_need_no_session()
    ensures { SaidNeedNoSession }
{
    uses_are_each_sessions_own();
}

/// The database without versions and every database that is kept or loaded has a sound state, in which
/// all versions show one state of the data; and each statement leaves such a one, be it answered or
/// refused.
pub fn statements_keep_states()
    ensures empty { EmptyIsKept }
    ensures loaded { DatabasesAreKept }
    ensures one { StatementsKeep }
{}

/// From a sound state on, each answered INSERT, IMPORT, UPDATE and DELETE leaves its table with just
/// the rows that the statement makes of it by identifier, and no other table of the version that is
/// named or in use, and no version, has changed; so does each write that is told in full, as a
/// transaction keeps it.
pub fn each_write_is_ordinary()
    ensures in_session { WritesAreOrdinary }
    ensures in_full { WritesInFullAreOrdinary }
{
    writes_are_by_identifier();
}
