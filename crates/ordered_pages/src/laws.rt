//! Laws of entries by ascending keys. The functions do nothing: their contracts are the laws.
ghost use Rattle.ordered_pages.specs.Laws.{OneListHasThem};

use crate::Entry;

/// Entries whose keys rise are what they have at each key.
pub fn entries_are_the_list<E: Entry>()
    ensures { OneListHasThem E.order }
{}
