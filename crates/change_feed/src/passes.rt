//! Passes over all live watches.
ghost use Rattle.std.specs.Prelude.{◌≡◌, ◌≤◌, ◌<◌, length, MatchOption, OnOk, OnErr};
ghost use Rattle.std.specs.Option.{option_map};
ghost use Rattle.change_feed.specs.Watchers.{MayPrepare, with_cleared, with_told};
ghost use Rattle.change_feed.specs.Watches.{note_for, with_first, with_note, without_note, MayHear, HasHeard};
ghost use Rattle.change_feed.specs.Places.{AtPlace, PutsAt};
ghost use Rattle.change_feed.specs.inner.Live.{each_taken, made_ready, made_unready, EachMay, EachHas, NoneHas, IsFirst};

use crate::arrivals::Arrivals;
use crate::watches::Taken;
use crate::{Note, VersionNote, Watcher};
use par_base::{Memory, Name};
use std::alloc::Global;

/// The note of a version.
fn find_note<'a>(notes: &'a [VersionNote], version: &Name) -> Option<&'a Note>
    ensures { option_map (λ note. note.now) result ≡ note_for notes.now version.now }
{
    for own in notes {
        if own.version.is_same(version) {
            return Some(&own.note);
        }
    }
    None
}

fn prepare_at<W: Watcher>(
    alloc: Global,
    note: Option<&Note>,
    watchers: &mut Arrivals<W>,
    at: usize,
) -> Result<(), Memory>
    requires { AtPlace watchers.old at (MayHear (option_map (λ own. own.now) note)) }
    ensures ok { OnOk result (PutsAt watchers.old at (with_note (option_map (λ own. own.now)
        note.entry)) watchers.new) }
    ensures err { OnErr result (watchers.new ≡ watchers.old) }
{
    match note {
        Some(own) => {
            watchers.prepare(alloc, at, own)?;
            Ok(())
        }
        None => Ok(()),
    }
}

/// Tells a watcher its first note, unless it names no table.
pub(crate) fn begin<W: Watcher>(
    alloc: Global,
    first: &Note,
    watchers: &mut Arrivals<W>,
    at: usize,
) -> Result<(), Memory>
    requires { AtPlace watchers.old at (λ watcher. MayPrepare watcher first.now) }
    ensures ok { OnOk result (PutsAt watchers.old at (with_first first.now) watchers.new) }
    ensures err { OnErr result (watchers.new ≡ watchers.old) }
{
    if first.tables.is_empty() {
        return Ok(());
    }
    watchers.prepare(alloc, at, first)?;
    watchers.tell(at);
    Ok(())
}

/// The place of the first watch with a number.
pub(crate) fn place_of(taken: &[Taken], number: u64) -> Option<usize>
    ensures { MatchOption result (NoneHas number taken.now) (λ at. IsFirst number taken.now at) }
{
    for at in 0..taken.len() {
        if taken[at].number == number {
            return Some(at);
        }
    }
    None
}

fn unprepare_at<W: Watcher>(note: Option<&Note>, watchers: &mut Arrivals<W>, at: usize)
    requires { AtPlace watchers.old at (HasHeard (option_map (λ own. own.now) note)) }
    ensures { PutsAt watchers.old at (without_note (option_map (λ own. own.now) note.entry))
        watchers.new }
{
    match note {
        Some(_own) => watchers.unprepare(at),
        None => {}
    }
}

/// Makes the watchers ready, or none of them.
pub(crate) fn prepare_each<W: Watcher>(
    alloc: Global,
    notes: &[VersionNote],
    taken: &[Taken],
    watchers: &mut Arrivals<W>,
) -> Result<(), Memory>
    requires within { length taken.now ≤ length watchers.old }
    requires may { EachMay notes.now taken.now watchers.old }
    ensures ok { OnOk result (watchers.new ≡ each_taken (made_ready notes.now) taken.now
        watchers.old) }
    ensures err { OnErr result (watchers.new ≡ watchers.old) }
{
    for at in 0..taken.len() {
        let note = find_note(notes, &taken[at].version);
        if let Err(memory) = prepare_at(alloc, note, watchers, at) {
            unprepare_each(notes, &taken[..at], watchers);
            return Err(memory);
        }
    }
    Ok(())
}

/// Takes the last note from each watcher of a version with a note.
fn unprepare_each<W: Watcher>(notes: &[VersionNote], taken: &[Taken], watchers: &mut Arrivals<W>)
    requires within { length taken.now ≤ length watchers.old }
    requires has { EachHas notes.now taken.now watchers.old }
    ensures { watchers.new ≡ each_taken (made_unready notes.now) taken.now watchers.old }
{
    for at in 0..taken.len() {
        unprepare_at(find_note(notes, &taken[at].version), watchers, at);
    }
}

pub(crate) fn tell_each<W: Watcher>(taken: &[Taken], watchers: &mut Arrivals<W>)
    requires { length taken.now ≤ length watchers.old }
    ensures { watchers.new ≡ each_taken (λ _. with_told) taken.now watchers.old }
{
    for at in 0..taken.len() {
        watchers.tell(at);
    }
}

pub(crate) fn clear_each<W: Watcher>(taken: &[Taken], watchers: &mut Arrivals<W>)
    requires { length taken.now ≤ length watchers.old }
    ensures { watchers.new ≡ each_taken (λ _. with_cleared) taken.now watchers.old }
{
    for at in 0..taken.len() {
        watchers.clear(at);
    }
}
