//! Changed keys exchanged in place with the keys that are ready.
//!
//! A key that is put comes out of the place of its change, and the one that is taken out goes
//! there. So nothing is copied, and what was exchanged can be exchanged back.
ghost use Rattle.std.specs.Prelude.{◌≡◌, ◌+◌, ◌≤◌, length, None};
ghost use Rattle.row_store.specs.Rows.{row_of};
ghost use Rattle.row_store.specs.Changes.{ChangesRise, AreOld};
ghost use Rattle.ordered_pages.specs.Entries.{count_of};
ghost use Rattle.key_index.specs.Changes.{news, olds};
ghost use Rattle.key_index.specs.inner.Entries.{keys_by_id, HaveOneEach, PutsRow, count_ready};
ghost use Rattle.key_index.specs.inner.Passes.{told, all_told, IsPassed};

use crate::keyed::{From, Keyed};
use ordered_pages::Pages;
use par_base::Row;
use row_store::Change;

/// Which keys of changes are taken out: the old ones, or the new ones.
#[derive(Clone, Copy)]
pub(crate) enum Way {
    Forth,
    Back,
}

/// The key that the change takes out.
fn gone_of(change: &Change, way: Way) -> &Option<Row>
    ensures { result.now ≡ (told way change.now).old }
{
    match way {
        Way::Forth => &change.old,
        Way::Back => &change.new,
    }
}

/// Takes the key of an identifier out, where it has one.
fn take_key(pages: &mut Pages<Keyed>, id: u64, gone: &Option<Row>) -> Option<Row>
    requires each { HaveOneEach pages.old.entries }
    requires own { gone.now ≡ row_of (keys_by_id pages.old.entries) id }
    ensures each { HaveOneEach pages.new.entries }
    ensures rows { PutsRow id None (keys_by_id pages.old.entries) (keys_by_id pages.new.entries) }
    ensures value { result ≡ gone.now }
    ensures len { length pages.new.entries + count_of result ≡ length pages.old.entries }
    ensures capacity { pages.new.capacity ≡ pages.old.capacity }
{
    match gone {
        Some(key) => {
            pages.fits();
            let key = key.as_slice();
            match pages.take(&From { key, id }) {
                Some(keyed) => Some(keyed.key),
                None => None,
            }
        }
        None => None,
    }
}

/// Puts a key at an identifier that has none, where there is one.
pub(crate) fn put_key(pages: &mut Pages<Keyed>, id: u64, key: Option<Row>)
    requires each { HaveOneEach pages.old.entries }
    requires none { row_of (keys_by_id pages.old.entries) id ≡ None }
    requires room { length pages.old.entries + count_of key ≤ pages.old.capacity }
    ensures each { HaveOneEach pages.new.entries }
    ensures rows { PutsRow id key (keys_by_id pages.old.entries) (keys_by_id pages.new.entries) }
    ensures len { length pages.new.entries ≡ length pages.old.entries + count_of key }
    ensures capacity { pages.new.capacity ≡ pages.old.capacity }
{
    if let Some(key) = key {
        pages.fits();
        let _ = pages.put(Keyed { key, id });
    }
}

/// Exchanges the key of an identifier with the one that is ready.
fn exchange_one(pages: &mut Pages<Keyed>, id: u64, gone: &Option<Row>, ready: &mut Option<Row>)
    requires each { HaveOneEach pages.old.entries }
    requires own { gone.now ≡ row_of (keys_by_id pages.old.entries) id }
    requires room { length pages.old.entries + count_of ready.now ≤ pages.old.capacity }
    ensures each { HaveOneEach pages.new.entries }
    ensures rows { PutsRow id ready.entry.now (keys_by_id pages.old.entries)
        (keys_by_id pages.new.entries) }
    ensures ready { ready.exit.now ≡ gone.now }
    ensures len { length pages.new.entries + count_of ready.exit.now
        ≡ length pages.old.entries + count_of ready.entry.now }
    ensures capacity { pages.new.capacity ≡ pages.old.capacity }
{
    let key = ready.take();
    *ready = take_key(pages, id, gone);
    put_key(pages, id, key);
}

/// Exchanges the keys of all changes with those that are ready.
pub(crate) fn exchange_all(
    pages: &mut Pages<Keyed>,
    changes: &[Change],
    ready: &mut Vec<Option<Row>>,
    way: Way,
)
    requires each { HaveOneEach pages.old.entries }
    requires rise { ChangesRise 0 changes.now }
    requires fit { AreOld (keys_by_id pages.old.entries) (all_told way changes.now) }
    requires ready { ready.old.items ≡ news (all_told way changes.now) }
    requires room { length pages.old.entries + count_ready ready.old.items
        ≤ pages.old.capacity }
    ensures each { HaveOneEach pages.new.entries }
    ensures rows { IsPassed (all_told way changes.now) (keys_by_id pages.old.entries)
        (keys_by_id pages.new.entries) }
    ensures ready { ready.new.items ≡ olds (all_told way changes.now) }
    ensures room { length pages.new.entries + count_ready ready.new.items
        ≤ pages.new.capacity }
{
    for at in 0..changes.len() {
        let change = &changes[at];
        exchange_one(pages, change.id, gone_of(change, way), &mut ready[at]);
    }
}
