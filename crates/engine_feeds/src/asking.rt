//! WATCH and UNWATCH.
ghost use Rattle.std.specs.Prelude.{ℕ, IsSome, Some, ◌≡◌};
ghost use Rattle.statements.specs.Views.{Unwatch, Watch};
ghost use Rattle.version_graph.specs.Edges.{set_named};
ghost use Rattle.engine_transactions.specs.declared.kept.Kept.{Kept as KeptSeen};
ghost use Rattle.engine_feeds.specs.Act.{data_in, ended_by, taken_for, watched_by};
ghost use Rattle.engine_feeds.specs.Calls.{standing_with, Carries};
ghost use Rattle.engine_feeds.specs.Kept.{AreKept};

use change_feed::{Left, Watcher, Watches};
use engine_state::{Reply, known_set};
use engine_transactions::{Answer, Kept};
use expr_lang::Steps;
use par_base::{Fault, Name, Refusal};
use std::alloc::Global;
use std::sync::ledger::Ledger;
use version_notes::first_note;

// Takes a watcher for a version that lives.
fn take<W: Watcher, L: Ledger>(
    alloc: Global,
    kept: &Kept,
    watches: &mut Watches<W>,
    name: Name,
    steps: &mut Steps<L>,
) -> Result<Answer, Fault<Refusal>>
    requires kept { AreKept kept.now watches.old }
    requires lives { IsSome (set_named (data_in (standing_with kept.now
        watches.old)).graph.versions name) }
    ensures { (set : ℕ) → set_named (data_in (standing_with kept.now watches.old)).graph.versions
        name ≡ Some set
        → Carries (taken_for (standing_with kept.now watches.old) name set) (Watch name)
        kept.now watches.old result kept.now watches.new }
{
    // That the version's tables rise rests on it.
    kept.sessions().engine().versions_always_agree();
    if !watches.can_watch() {
        return Err(Fault::Refused(Refusal::NoWatcherLeft));
    }
    let database = kept.sessions().engine().database();
    let first = first_note(alloc, database, &name, steps)?;
    let number = watches.watch(alloc, name, &first)?;
    Ok(Answer::Plain(Reply::Watching { number }))
}

/// Carries out a WATCH.
pub(crate) fn watch<W: Watcher, L: Ledger>(
    alloc: Global,
    kept: &Kept,
    watches: &mut Watches<W>,
    name: Name,
    steps: &mut Steps<L>,
) -> Result<Answer, Fault<Refusal>>
    requires { AreKept kept.now watches.old }
    ensures { Carries (watched_by (standing_with kept.now watches.old) name) (Watch name) kept.now
        watches.old result kept.now watches.new }
{
    match known_set(alloc, kept.sessions().engine().database().graph(), &name) {
        Ok(_set) => take(alloc, kept, watches, name, steps),
        Err(fault) => Err(fault),
    }
}

/// Carries out an UNWATCH.
pub(crate) fn unwatch<W: Watcher>(
    watches: &mut Watches<W>,
    number: u64,
) -> Result<Answer, Fault<Refusal>>
    ensures { (kept : KeptSeen) → AreKept kept watches.old
        → Carries (ended_by (standing_with kept watches.old) number) (Unwatch number) kept
        watches.old result kept watches.new }
{
    match watches.unwatch(number) {
        Some(Left { told, rows }) => Ok(Answer::Plain(Reply::Unwatched { number, told, rows })),
        None => Err(Fault::Refused(Refusal::UnknownWatch { number })),
    }
}
