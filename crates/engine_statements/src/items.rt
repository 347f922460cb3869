//! What a SELECT lists: places among the names that rows show, and the header over them.
ghost use Rattle.std.specs.Prelude.{◌≡◌, List, ℕ, IfOk};
ghost use Rattle.par_base.specs.Checked.{Gives};
ghost use Rattle.engine_statements.specs.Found.{shown_names};
ghost use Rattle.engine_statements.specs.Statements.{known_items, places_from, listed_places, listed_names};

use op_checks::find_place;
use par_base::{Fault, List, Memory, Name, Refusal, copy_names};
use std::alloc::Global;

#[tactic(auto, unfolding(crate::specs::Statements::known_items))]
fn find_items(alloc: Global, shown: &[Name], names: &[Name]) -> Result<List<usize>, Fault<Refusal>>
    ensures { Gives (λ places. places) result (known_items shown.now names.now) }
{
    let mut places = List::new(alloc);
    for name in names {
        places.push(find_place(alloc, shown, name)?)?;
    }
    Ok(places)
}

#[tactic(auto, unfolding(crate::specs::Statements::places_from))]
fn all_places(alloc: Global, names: &[Name]) -> Result<List<usize>, Memory>
    ensures { IfOk result (λ places. places ≡ places_from 0 names.now) }
{
    let mut places = List::new(alloc);
    for (at, _name) in names.iter().enumerate() {
        places.push(at)?;
    }
    Ok(places)
}

/// The places of the listed names among those that rows show, or the first unknown one's refusal.
/// Without a list these are all places.
pub fn find_places(
    alloc: Global,
    shown: &[Name],
    items: &Option<List<Name>>,
) -> Result<List<usize>, Fault<Refusal>>
    ensures { (columns : List (List ℕ)) → shown.now ≡ shown_names columns
        → Gives (λ places. places) result (listed_places columns items.now) }
{
    match items {
        Some(names) => find_items(alloc, shown, names.as_slice()),
        None => Ok(all_places(alloc, shown)?),
    }
}

/// The header: the listed names, or without a list all that rows show.
pub fn header(
    alloc: Global,
    shown: &[Name],
    items: &Option<List<Name>>,
) -> Result<List<Name>, Memory>
    ensures { (columns : List (List ℕ)) → shown.now ≡ shown_names columns
        → IfOk result (λ names. names ≡ listed_names columns items.now) }
{
    match items {
        Some(names) => copy_names(alloc, names.as_slice()),
        None => copy_names(alloc, shown),
    }
}
