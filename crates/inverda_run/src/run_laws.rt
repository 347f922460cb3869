//! Laws of runs and their scripts, each the contract of a function that does nothing.
ghost use Rattle.inverda_run.specs.ScriptLaws.{RunsAreOrdinary, RunsAreSerial, RunsStayKept, SaidRunsAreOne};

use crate::laws::two_runs_are_one;
use transaction_laws::transactions_are_serial;
use watch_laws::{
    moves_store_what_they_name, said_scripts_need_no_session, scripts_are_ordinary,
    scripts_keep_states, statements_are_answered, statements_keep_states, watches_are_beside,
};

/// Each version is an ordinary database throughout a run, from the empty or the loaded database on,
/// whatever is watched: each state that its script reaches is sound, and each answered write, at once or
/// at the COMMIT of its transaction, leaves its own table with the rows that it says, and changes no other
/// table of its version. Each statement is answered by lines, and an answered MATERIALIZE leaves stored
/// what it names.
pub fn runs_are_ordinary()
    ensures kept { RunsStayKept }
    ensures ordinary { RunsAreOrdinary }
{
    statements_are_answered();
    moves_store_what_they_name();
    statements_keep_states();
    scripts_keep_states();
    scripts_are_ordinary();
}

/// A run that loads what another one dumped, with no transaction open, goes on where that one ended, also
/// where its script says USE before it leaves versions out; it begins no transaction and watches nothing.
pub fn said_runs_are_one()
    ensures { SaidRunsAreOne }
{
    two_runs_are_one();
    said_scripts_need_no_session();
}

/// Committed transactions of interleaved sessions answer as one after the other, each at its COMMIT, and
/// the other statements between them: from the empty or the loaded database on, whatever the script, and
/// whatever is watched.
pub fn runs_are_serial()
    ensures { RunsAreSerial }
{
    transactions_are_serial();
    watches_are_beside();
}
