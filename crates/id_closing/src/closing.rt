//! The identifiers that some bring with them, and those that these bring, to the end.
ghost use Rattle.std.specs.Prelude.{IfOk, OnOk};
ghost use Rattle.id_closing.specs.Closing.{IsClosing};
ghost use Rattle.id_closing.specs.Found.{AreIds, FindsMore};

use crate::Rule;
use crate::found::find_all;
use id_sets::IdSet;
use par_base::{List, Memory};
use std::alloc::Global;

/// Finds what an identifier brings.
fn follow<R: Rule>(
    alloc: Global,
    rule: &R,
    next: (u64, Option<u64>),
    found: &mut IdSet,
    left: &mut List<(u64, Option<u64>)>,
) -> Result<(), Memory>
    requires { AreIds found.old }
    ensures more { OnOk result (FindsMore found.old left.old found.new left.new) }
    ensures all { OnOk result (R.brings rule.now next.0 found.new) }
{
    let ids = rule.brought(alloc, next.0, next.1)?;
    find_all(found, left, ids.as_slice(), Some(next.0))
}

/// These identifiers, and all that is brought with them. Each is found once and followed once, so
/// it ends, and takes the work of the rule for each identifier that is found.
pub fn close<R: Rule>(alloc: Global, rule: &R, begin: &[u64]) -> Result<List<u64>, Memory>
    ensures { IfOk result (IsClosing (R.brings rule.now) begin.now) }
{
    let mut found = IdSet::new(alloc);
    let mut left = List::new(alloc);
    find_all(&mut found, &mut left, begin, None)?;
    while let Some(next) = left.pop() {
        follow(alloc, rule, next, &mut found, &mut left)?;
    }
    found.list(alloc)
}
