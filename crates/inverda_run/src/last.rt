//! The last line of a run.
ghost use Rattle.std.specs.Prelude.{◌≤◌};
ghost use Rattle.inverda_run.specs.Calls.{PutsLast};

use crate::end::End;
use outside::{Failed, Sink, write_all};

/// Puts the line with which a run ends.
pub fn put_last<K: Sink>(end: End, line: &[u8], out: &mut K) -> End
    ensures puts { PutsLast end line.now (K.held out.old) (K.held out.new) (K.faults out.old)
        (K.faults out.new) result }
    ensures later { K.faults out.old ≤ K.faults out.new }
{
    match write_all(out, line) {
        Ok(()) => end,
        Err(Failed) => End::Unwritten,
    }
}
