//! The dump at the end of a run.
ghost use Rattle.std.specs.Prelude.{◌≡◌, ◌≤◌, ℕ, List, option_map};
ghost use Rattle.dump_formats.specs.Texts.{AreSpelled};
ghost use Rattle.watch_laws.specs.SessionLawsSessions.{HasCounts};
ghost use Rattle.generated_run.specs.SessionsStanding.{kept_in, standing_of};
ghost use Rattle.generated_run.specs.Standing.{Standing};
ghost use Rattle.inverda_run.specs.Calls.{DumpsTo, Finishes, WritesBut, WritesTo};

use crate::end::End;
use crate::last::put_last;
use crate::limit::LIMIT;
use dump_formats::dump;
use generated_run::Sessions;
use outside::{Failed, Files, Sink};
use std::alloc::Global;

// Writes the dump to a file.
fn dump_to<K: Sink, F: Files>(
    alloc: Global,
    sessions: &Sessions,
    name: &str,
    out: &mut K,
    files: &mut F,
) -> End
    requires spelled { AreSpelled (kept_in sessions.now).graph.edges }
    requires counted { HasCounts (standing_of sessions.now) }
    ensures dumps { (to : Standing) → to.sessions ≡ standing_of sessions.now
        → DumpsTo to (F.told files.new name.now) (K.held out.old) (K.held out.new)
        (K.faults out.old) (K.faults out.new) (F.faults files.old) (F.faults files.new) result }
    ensures others { (file : List ℕ) → WritesBut name.now (F.told files.old) (F.told files.new)
        (F.faults files.old) (F.faults files.new) result file }
    ensures missing { F.missing files.new ≡ F.missing files.old }
    ensures later_write { K.faults out.old ≤ K.faults out.new }
    ensures later_file { F.faults files.old ≤ F.faults files.new }
{
    let database = sessions.engine().database();
    let Ok(text) = dump(alloc, database, sessions.counts(), sessions.pending()) else {
        return End::Memory;
    };
    let bytes = text.as_str().as_bytes();
    if bytes.len() > LIMIT as usize {
        return put_last(End::LongDump, b"too long\n", out);
    }
    match files.replace(name, bytes) {
        Ok(()) => End::Done,
        Err(Failed) => put_last(End::UnwrittenDump, b"file fault\n", out),
    }
}

/// Dumps the database, and what sessions keep beside it, at the end of a run that has carried out its
/// script, where the words name a file for it. The dump is in memory, as JSON and as text.
pub fn finish<K: Sink, F: Files>(
    alloc: Global,
    sessions: &Sessions,
    dump: Option<&str>,
    out: &mut K,
    files: &mut F,
) -> End
    requires spelled { AreSpelled (kept_in sessions.now).graph.edges }
    requires counted { HasCounts (standing_of sessions.now) }
    ensures finishes { (to : Standing) → to.sessions ≡ standing_of sessions.now
        → Finishes to (option_map (λ s. s.now) dump.entry) (F.told files.new) (K.held out.old)
        (K.held out.new) (K.faults out.old) (K.faults out.new) (F.faults files.old)
        (F.faults files.new) result }
    ensures others { (file : List ℕ) → WritesTo (option_map (λ s. s.now) dump.entry)
        (F.told files.old) (F.told files.new) (F.faults files.old) (F.faults files.new) result
        file }
    ensures missing { F.missing files.new ≡ F.missing files.old }
    ensures later_write { K.faults out.old ≤ K.faults out.new }
    ensures later_file { F.faults files.old ≤ F.faults files.new }
{
    match dump {
        Some(name) => dump_to(alloc, sessions, name, out, files),
        None => End::Done,
    }
}
