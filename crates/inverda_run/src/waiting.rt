//! The watchers that are handed in.
ghost use Rattle.std.specs.Prelude.{◌≡◌, map, IfOk};
ghost use Rattle.change_feed.specs.Watches.{AllFresh};
ghost use Rattle.inverda_run.specs.Starts.{all_waiting};

use change_feed::Watcher;
use generated_run::{Transactions, Watched};
use par_base::Memory;
use std::alloc::Global;

/// The beginning over transactions, with these watchers waiting. Where memory runs out, all are dropped.
pub fn with_watchers<W: Watcher>(
    alloc: Global,
    transactions: Transactions,
    watchers: Vec<W>,
) -> Result<Watched<W>, Memory>
    requires { AllFresh (map W.seen watchers.items) }
    ensures { IfOk result (λ watched. watched ≡ record {
      transactions = transactions;
      watches = all_waiting (map W.seen watchers.items);
    }) }
{
    let mut watched = Watched::over(alloc, transactions);
    for watcher in watchers {
        watched.give(watcher)?;
    }
    Ok(watched)
}
