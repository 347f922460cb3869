//! Laws of runs, each the contract of a function that does nothing.
ghost use Rattle.inverda_run.specs.Laws.{BeginsAgain, EachStateHasADump, LoadsTheDumped, OneStart, RunsAreOne, TwoRuns};

use dump_formats::dumps_are_of_one_run;
use watch_laws::{named_statements_need_no_session, watches_are_beside};

/// A run that loads what another one dumped goes on where that one ended, where both have the same
/// greatest identifier: together they put what one run of both scripts puts, where the statements of
/// the second name their versions and are none of transactions or watches, since what is in use, the
/// history and what is watched aren't dumped, and no transaction was open behind the first. Wherever a run
/// stands it has a dump, and a file that is loaded stands for one start.
pub fn two_runs_are_one()
    ensures dump { EachStateHasADump }
    ensures start { OneStart }
    ensures loads { LoadsTheDumped }
    ensures runs { TwoRuns }
    ensures again { BeginsAgain }
    ensures one { RunsAreOne }
{
    dumps_are_of_one_run();
    named_statements_need_no_session();
    watches_are_beside();
}
