//! Watchers in the order in which they came, under keys of a slab.
ghost use Rattle.std.specs.Prelude.{◌≡◌, [], ◌∷◌, ◌++◌, ◌<◌, length, remove, slice_get, Some, OnOk, OnErr};
ghost use Rattle.slab.specs.Slab.{ContainsKey};
ghost use Rattle.change_feed.specs.Watchers.{MayPrepare, with_prepared, with_cleared, with_told, without_last, HasPrepared};
ghost use Rattle.change_feed.specs.Places.{AtPlace, PutsAt};
ghost use Rattle.change_feed.specs.inner.Keys.{AtKey, PutsAtKey};

use crate::held::Held;
use crate::{Note, Watcher};
use par_base::{List, Memory};
use slab::Slab;
use std::alloc::Global;
use std::marker::Model;

/// Watchers in the order in which they came.
#[derive(Drop)]
pub(crate) struct Arrivals<W: Watcher> {
    watchers: Slab<Held<W>>,
    /// The key of each, in order.
    keys: List<usize>,
}

impl<W: Watcher> Model for Arrivals<W> {
    ghost use Rattle.std.specs.Prelude.{List};
    ghost use Rattle.slab.specs.Slab.{get};
    ghost use Rattle.change_feed.specs.Watchers.{WatcherState};
    ghost use Rattle.change_feed.specs.inner.Keys.{values_at, AreKeys};

    ghost Value = { List WatcherState };

    ghost view = { λ it. values_at (get it.watchers) it.keys };

    ghost invariant = { λ it. AreKeys (get it.watchers) it.keys };
}

impl<W: Watcher> Arrivals<W> {
    /// It takes no memory.
    pub(crate) fn new(alloc: Global) -> Arrivals<W>
        ensures { result ≡ [] }
    {
        Arrivals {
            watchers: Slab::new(alloc),
            keys: List::new(alloc),
        }
    }

    pub(crate) fn len(&self) -> usize
        ensures { result ≡ length self.now }
    {
        self.keys.len()
    }

    pub(crate) fn get(&self, at: usize) -> &Held<W>
        requires { at < length self.now }
        ensures { slice_get self.now at ≡ Some result.now }
    {
        &self.watchers[key_at(&self.keys, at)]
    }

    /// Adds a watcher behind the others.
    pub(crate) fn push(&mut self, watcher: Held<W>) -> Result<(), Memory>
        ensures ok { OnOk result (self.new ≡ self.old ++ watcher ∷ []) }
        ensures err { OnErr result (self.new ≡ self.old) }
    {
        self.watchers.reserve(1)?;
        self.keys.push(self.watchers.vacant_key())?;
        let _ = self.watchers.insert_reserved(watcher);
        Ok(())
    }

    /// Takes a watcher out.
    pub(crate) fn remove(&mut self, at: usize)
        requires { at < length self.old }
        ensures { self.new ≡ remove self.old at }
    {
        let key = self.keys.remove(at);
        let _ = self.watchers.remove(key);
    }

    pub(crate) fn prepare(&mut self, alloc: Global, at: usize, note: &Note) -> Result<(), Memory>
        requires { AtPlace self.old at (λ watcher. MayPrepare watcher note.now) }
        ensures ok { OnOk result (PutsAt self.old at (with_prepared note.now) self.new) }
        ensures err { OnErr result (self.new ≡ self.old) }
    {
        prepare_one(&mut self.watchers, key_at(&self.keys, at), alloc, note)?;
        Ok(())
    }

    pub(crate) fn tell(&mut self, at: usize)
        requires { at < length self.old }
        ensures { PutsAt self.old at with_told self.new }
    {
        tell_one(&mut self.watchers, key_at(&self.keys, at));
    }

    pub(crate) fn clear(&mut self, at: usize)
        requires { at < length self.old }
        ensures { PutsAt self.old at with_cleared self.new }
    {
        clear_one(&mut self.watchers, key_at(&self.keys, at));
    }

    pub(crate) fn unprepare(&mut self, at: usize)
        requires { AtPlace self.old at HasPrepared }
        ensures { PutsAt self.old at without_last self.new }
    {
        unprepare_one(&mut self.watchers, key_at(&self.keys, at));
    }
}

fn key_at(keys: &List<usize>, at: usize) -> usize
    requires { at < length keys.now }
    ensures { slice_get keys.now at ≡ Some result }
{
    keys.as_slice()[at]
}

fn prepare_one<W: Watcher>(
    watchers: &mut Slab<Held<W>>,
    key: usize,
    alloc: Global,
    note: &Note,
) -> Result<(), Memory>
    requires { AtKey watchers.old key (λ watcher. MayPrepare watcher note.now) }
    ensures ok { OnOk result (PutsAtKey watchers.old key (with_prepared note.now) watchers.new) }
    ensures err { OnErr result (PutsAtKey watchers.old key (λ watcher. watcher) watchers.new) }
{
    watchers[key].prepare(alloc, note)
}

fn tell_one<W: Watcher>(watchers: &mut Slab<Held<W>>, key: usize)
    requires { ContainsKey watchers.old key }
    ensures { PutsAtKey watchers.old key with_told watchers.new }
{
    watchers[key].tell();
}

fn clear_one<W: Watcher>(watchers: &mut Slab<Held<W>>, key: usize)
    requires { ContainsKey watchers.old key }
    ensures { PutsAtKey watchers.old key with_cleared watchers.new }
{
    watchers[key].clear();
}

fn unprepare_one<W: Watcher>(watchers: &mut Slab<Held<W>>, key: usize)
    requires { AtKey watchers.old key HasPrepared }
    ensures { PutsAtKey watchers.old key without_last watchers.new }
{
    watchers[key].unprepare();
}
