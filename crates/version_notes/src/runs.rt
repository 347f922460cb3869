//! The notes of runs for the versions that are watched.
ghost use Rattle.std.specs.Prelude.{◌≡◌, ◌++◌, option_to_list, IfOk, OnErr, OnOk};
ghost use Rattle.std.specs.Option.{option_map};
ghost use Rattle.change_feed.specs.Feeds.{events_prepared};
ghost use Rattle.change_feed.specs.Watches.{AllMayPrepare, all_cleared, all_prepared};
ghost use Rattle.change_feed.specs.declared.note.VersionNote.{VersionNote};
ghost use Rattle.version_notes.specs.Runs.{run_note, run_notes, runs_notes, MayHearAlong};

use crate::changes::changes_of;
use change_feed::{Note, VersionNote, Watcher, Watches};
use par_base::{List, Memory, Name};
use std::alloc::Global;
use version_graph::Graph;
use write_plans::Undo;

// Puts the note of a run for a version behind the others, where its rows changed.
fn push_note<O>(
    alloc: Global,
    graph: &Graph<O>,
    version: &Name,
    undo: &Undo,
    notes: &mut List<VersionNote>,
) -> Result<(), Memory>
    ensures { OnOk result (notes.new ≡ notes.old ++ option_to_list (option_map
        (λ note. record { version = version.now; note = note })
        (run_note graph.now undo.now version.now))) }
{
    let tables = changes_of(alloc, graph, version, undo)?;
    if tables.is_empty() {
        return Ok(());
    }
    notes.push(VersionNote {
        version: version.copy(alloc)?,
        note: Note { tables },
    })
}

// The notes of a run for the versions that are watched.
fn notes_of<O, W: Watcher>(
    alloc: Global,
    graph: &Graph<O>,
    watches: &Watches<W>,
    undo: &Undo,
) -> Result<List<VersionNote>, Memory>
    ensures { IfOk result (λ notes. notes ≡ run_notes graph.now watches.now.live undo.now) }
{
    let mut notes = List::new(alloc);
    for at in 0..watches.len() {
        push_note(alloc, graph, watches.version_at(at), undo, &mut notes)?;
    }
    Ok(notes)
}

// Makes the live watches ready for the notes of a run; all or none.
fn prepare_run<O, W: Watcher>(
    alloc: Global,
    graph: &Graph<O>,
    watches: &mut Watches<W>,
    undo: &Undo,
) -> Result<(), Memory>
    requires { AllMayPrepare (run_notes graph.now watches.old.live undo.now) watches.old.live }
    ensures ok { OnOk result (watches.new ≡ all_prepared
        (run_notes graph.now watches.old.live undo.now) watches.old) }
    ensures err { OnErr result (watches.new ≡ watches.old) }
{
    let notes = notes_of(alloc, graph, watches, undo)?;
    watches.prepare_all(alloc, notes.as_slice())?;
    Ok(())
}

/// Makes the live watches ready for the notes of runs, for each after those before it. After an error
/// they are ready for nothing. It takes time in the rows that the runs changed in the versions that are
/// watched, for each watch.
pub fn prepare_runs<O, W: Watcher>(
    alloc: Global,
    graph: &Graph<O>,
    watches: &mut Watches<W>,
    runs: &[Undo],
) -> Result<(), Memory>
    requires { MayHearAlong (runs_notes graph.now watches.old.live runs.now) watches.old }
    ensures ok { OnOk result (watches.new ≡ events_prepared
        (runs_notes graph.now watches.old.live runs.now) watches.old) }
    ensures err { OnErr result (watches.new ≡ all_cleared watches.old) }
{
    for undo in runs {
        if let Err(memory) = prepare_run(alloc, graph, watches, undo) {
            watches.clear_all();
            return Err(memory);
        }
    }
    Ok(())
}
