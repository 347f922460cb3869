//! The watches of an engine: the watchers that were handed in, and the watches that took one.
ghost use Rattle.std.specs.Prelude.{◌≡◌, ◌+◌, ◌<◌, ◌↔◌, [], ◌∷◌, ◌++◌, length, remove, slice_get, Some, IsTrue, IfOk, OnOk, OnErr};
ghost use Rattle.std.specs.Option.{option_map};
ghost use Rattle.change_feed.specs.Watchers.{IsFresh};
ghost use Rattle.change_feed.specs.Shown.{Fit};
ghost use Rattle.change_feed.specs.Places.{AtPlace};
ghost use Rattle.change_feed.specs.inner.Live.{dropped_at};
ghost use Rattle.change_feed.specs.Watches.{no_watches, given, watched, CanWatch, AllMayPrepare, all_cleared, all_prepared, all_told, watch_of, left_of, heard_of, without_number, without_version, left_by};

use crate::arrivals::Arrivals;
use crate::held::Held;
use crate::passes::{begin, clear_each, place_of, prepare_each, tell_each};
use crate::{Note, VersionNote, Watcher};
use par_base::{List, Memory, Name};
use std::alloc::Global;
use std::marker::Model;

/// The number of a watch, and the version that it watches.
#[derive(Drop)]
pub(crate) struct Taken {
    pub number: u64,
    pub version: Name,
}

/// What a watch leaves when it ends: how many notes were told, and how many rows are shown, where
/// that is told.
#[derive(Clone, Copy)]
pub struct Left {
    pub told: u64,
    pub rows: Option<u64>,
}

/// Watchers that wait, in order, and live watches, by rising number.
#[derive(Drop)]
pub struct Watches<W: Watcher> {
    taken: List<Taken>,
    /// Those of the live watches, in their order, and then those that wait.
    watchers: Arrivals<W>,
    last: u64,
}

impl<W: Watcher> Model for Watches<W> {
    ghost use Rattle.change_feed.specs.Watches.{WatchesState};
    ghost use Rattle.change_feed.specs.inner.Live.{view_of, AreWatches};

    ghost Value = { WatchesState };

    ghost view = { λ it. view_of it.taken it.watchers it.last };

    ghost invariant = { λ it. AreWatches it.taken it.watchers };
}

impl<W: Watcher> Watches<W> {
    /// No watch, and no watcher. It takes no memory.
    pub fn new(alloc: Global) -> Watches<W>
        ensures { result ≡ no_watches }
    {
        Watches {
            taken: List::new(alloc),
            watchers: Arrivals::new(alloc),
            last: 0,
        }
    }

    /// Lets a watcher wait behind the others. Where memory runs out, it is dropped.
    pub fn give(&mut self, watcher: W) -> Result<(), Memory>
        requires { IsFresh (W.seen watcher) }
        ensures ok { OnOk result (self.new ≡ given (W.seen watcher) self.old) }
        ensures err { OnErr result (self.new ≡ self.old) }
    {
        self.watchers.push(Held::new(watcher))?;
        Ok(())
    }

    /// Makes each live watch of a version with a note ready to be told it; all or none.
    pub fn prepare_all(&mut self, alloc: Global, notes: &[VersionNote]) -> Result<(), Memory>
        requires { AllMayPrepare notes.now self.old.live }
        ensures ok { OnOk result (self.new ≡ all_prepared notes.now self.old) }
        ensures err { OnErr result (self.new ≡ self.old) }
    {
        prepare_each(alloc, notes, self.taken.as_slice(), &mut self.watchers)?;
        Ok(())
    }

    /// Takes from each live watch all notes for which it is ready. It takes no memory.
    pub fn clear_all(&mut self)
        ensures { self.new ≡ all_cleared self.old }
    {
        clear_each(self.taken.as_slice(), &mut self.watchers);
    }

    /// Tells each live watch all notes for which it is ready. It takes no memory.
    pub fn tell_all(&mut self)
        ensures { self.new ≡ all_told self.old }
    {
        tell_each(self.taken.as_slice(), &mut self.watchers);
    }

    /// Whether a watcher waits, and there is a number for it.
    pub fn can_watch(&self) -> bool
        ensures { IsTrue result ↔ CanWatch self.now }
    {
        self.taken.len() < self.watchers.len() && self.last < u64::MAX
    }

    /// Takes the first watcher that waits for a version, under the next number, and tells it its
    /// first note, unless that names no table.
    pub fn watch(&mut self, alloc: Global, version: Name, first: &Note) -> Result<u64, Memory>
        requires can { CanWatch self.old }
        requires fits { Fit first.now.tables [] }
        ensures number { IfOk result (λ number. number ≡ self.old.last + 1) }
        ensures ok { OnOk result (self.new ≡ watched version first.now self.old) }
        ensures err { OnErr result (self.new ≡ self.old) }
    {
        let number = self.last + 1;
        let at = self.taken.len();
        self.taken.push(Taken { number, version })?;
        if let Err(memory) = begin(alloc, first, &mut self.watchers, at) {
            let _ = self.taken.pop();
            return Err(memory);
        }
        self.last = number;
        Ok(number)
    }

    /// Takes a watch out, and drops its watcher.
    fn remove_at(&mut self, at: usize)
        requires { at < length self.old.live }
        ensures { self.new ≡ record self.old { live = remove self.old.live at } }
    {
        let _ = self.taken.remove(at);
        self.watchers.remove(at);
    }

    /// What the live watch of a number leaves, or None exactly where there is none. Its watcher is
    /// dropped. It takes no memory.
    pub fn unwatch(&mut self, number: u64) -> Option<Left>
        ensures value { result ≡ option_map left_of (watch_of number self.old.live) }
        ensures rest { self.new ≡ record self.old { live = without_number number self.old.live } }
    {
        match place_of(self.taken.as_slice(), number) {
            Some(at) => {
                let left = left_at(&self.watchers, at);
                self.remove_at(at);
                Some(left)
            }
            None => None,
        }
    }

    /// How many live watches there are. It takes no memory.
    pub fn len(&self) -> usize
        ensures { result ≡ length self.now.live }
    {
        self.taken.len()
    }

    /// The version of a live watch, by its place. It takes no memory.
    pub fn version_at(&self, at: usize) -> &Name
        requires { at < length self.now.live }
        ensures { AtPlace self.now.live at (λ watch. watch.version ≡ result.now) }
    {
        &taken_at(self.taken.as_slice(), at).version
    }

    /// Takes a watch out where it is of the version.
    fn drop_at(&mut self, at: usize, version: &Name)
        requires { at < length self.old.live }
        ensures { self.new ≡ record self.old { live = dropped_at version.now at self.old.live } }
    {
        if self.version_at(at).is_same(version) {
            self.remove_at(at);
        }
    }

    /// Takes all live watches of a version out, and drops their watchers. It takes no memory.
    pub fn drop_version(&mut self, version: &Name)
        ensures { self.new ≡ record self.old { live = without_version version.now self.old.live } }
    {
        let mut at = self.len();
        'watches: while at > 0 {
            at -= 1;
            self.drop_at(at, version);
        }
    }

    /// What the live watch of a number has heard, where there is one, and it tells that. It takes
    /// no memory.
    pub fn heard(&self, number: u64) -> Option<&[Note]>
        ensures { option_map (λ notes. notes.now) result ≡ heard_of number self.now }
    {
        match place_of(self.taken.as_slice(), number) {
            Some(at) => self.watchers.get(at).heard(),
            None => None,
        }
    }
}

fn taken_at(taken: &[Taken], at: usize) -> &Taken
    requires { at < length taken.now }
    ensures { slice_get taken.now at ≡ Some result.now }
{
    &taken[at]
}

fn left_at<W: Watcher>(watchers: &Arrivals<W>, at: usize) -> Left
    requires { at < length watchers.now }
    ensures { option_map left_by (slice_get watchers.now at) ≡ Some result }
{
    let watcher = watchers.get(at);
    Left {
        told: watcher.told(),
        rows: watcher.rows(),
    }
}
