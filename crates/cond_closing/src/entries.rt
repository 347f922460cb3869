//! The entries of a memory that have an identifier as one half, in the order of the other half.
//!
//! A memory finds the next entry of an identifier by few comparisons.
ghost use Rattle.std.specs.Prelude.{◌≡◌, Some, OnOk};
ghost use Rattle.id_memory.specs.Pairs.{pair_of};
ghost use Rattle.id_memory.specs.Found.{IsLeastFrom};
ghost use Rattle.pair_rows.specs.declared.half.Half.TheVariants.{First, Second};
ghost use Rattle.table_keys.specs.States.{behind};
ghost use Rattle.id_closing.specs.Found.{AreAmong};
ghost use Rattle.cond_closing.specs.Entries.{other_of, HasEntries, IsNextWith};

use id_memory::{PairMemory, id_of_is_the_other_way};
use pair_rows::Half;
use par_base::{List, Memory};

/// The least second half of a pair of `s`, or the least behind another, and the pair's identifier.
fn found_first(memory: &PairMemory, s: u64, after: Option<u64>) -> Option<(u64, u64)>
    ensures { IsLeastFrom (λ t p. pair_of memory.now.entries p ≡ Some (s, t))
        (behind after) result }
{
    match after {
        Some(t) => memory.next_of_first(s, t),
        None => memory.least_of_first(s),
    }
}

/// The least first half of a pair of `t`, or the least behind another, and the pair's identifier.
fn found_second(memory: &PairMemory, t: u64, after: Option<u64>) -> Option<(u64, u64)>
    ensures { IsLeastFrom (λ s p. pair_of memory.now.entries p ≡ Some (s, t))
        (behind after) result }
{
    match after {
        Some(s) => memory.next_of_second(t, s),
        None => memory.least_of_second(t),
    }
}

/// The entry of `s` as its first half with the least second one, or with the least behind another:
/// by two binary searches. It takes no memory.
fn first_with(memory: &PairMemory, s: u64, after: Option<u64>) -> Option<(u64, u64, u64)>
    ensures { IsNextWith First memory.now.entries s (behind after) result }
{
    // That the identifiers rise, and that one alone has a pair.
    let _ = memory.iter();
    id_of_is_the_other_way();
    match found_first(memory, s, after) {
        Some(found) => Some((found.1, s, found.0)),
        None => None,
    }
}

/// The entry of `t` as its second half with the least first one, or with the least behind another:
/// by two binary searches. It takes no memory.
fn second_with(memory: &PairMemory, t: u64, after: Option<u64>) -> Option<(u64, u64, u64)>
    ensures { IsNextWith Second memory.now.entries t (behind after) result }
{
    // That the identifiers rise, and that one alone has a pair.
    let _ = memory.iter();
    id_of_is_the_other_way();
    match found_second(memory, t, after) {
        Some(found) => Some((found.1, found.0, t)),
        None => None,
    }
}

/// The entry of an identifier as one half with the least other one, or with the least behind
/// another: by two binary searches. It takes no memory.
pub(crate) fn next_with(
    memory: &PairMemory,
    half: Half,
    id: u64,
    after: Option<u64>,
) -> Option<(u64, u64, u64)>
    ensures { IsNextWith half memory.now.entries id (behind after) result }
{
    match half {
        Half::First => first_with(memory, id, after),
        Half::Second => second_with(memory, id, after),
    }
}

/// The other identifier of an entry's pair.
pub(crate) fn other_in(half: Half, entry: &(u64, u64, u64)) -> u64
    ensures { result ≡ other_of half entry.now }
{
    match half {
        Half::First => entry.2,
        Half::Second => entry.1,
    }
}

/// Adds the identifiers of all entries that have an identifier as one half, by a search for each.
pub(crate) fn add_entries(
    memory: &PairMemory,
    half: Half,
    id: u64,
    ids: &mut List<u64>,
) -> Result<(), Memory>
    ensures entries { OnOk result (HasEntries half memory.now.entries ids.new id) }
    ensures stay { OnOk result (AreAmong ids.old ids.new) }
{
    let mut after = None;
    while let Some(entry) = next_with(memory, half, id, after) {
        ids.push(entry.0)?;
        after = Some(other_in(half, &entry));
    }
    Ok(())
}
