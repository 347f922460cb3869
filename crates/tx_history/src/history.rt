//! When table versions and names changed last.
ghost use Rattle.std.specs.Prelude.{◌≡◌, ◌<◌, ◌≤◌, ◌==◌, ℕ, List, length, Some, IfOk, OnOk, if◌then◌else◌};
ghost use Rattle.std.specs.List.{find, position};
ghost use Rattle.std.specs.Option.{option_copied};
ghost use Rattle.std.specs.Str.{bytes_eq};
ghost use Rattle.version_graph.specs.Edges.{is_in};
ghost use Rattle.version_graph.specs.Sets.{In, Within};
ghost use Rattle.version_model.specs.Kept.{numbers_in};
ghost use Rattle.session_tx.specs.Calls.{last_number};
ghost use Rattle.tx_history.specs.History.{dropped_in, history_of, last_change as last_change_lem, number_in, with_drop, DropsArePast};

use crate::TableRead;
use par_base::{List, Memory, Name};
use std::alloc::Global;
use std::mem;
use version_model::{Numbered, place_of, value_of};

/// The last number at which a version with this name was dropped.
#[derive(Drop)]
pub struct NameDrop {
    pub name: Name,
    pub at: u64,
}

/// The number of the last statement that changed a table or the graph; and of each table version and
/// name the number of the last one that changed or dropped it. A number 0 says as much as none.
#[derive(Drop)]
pub struct ChangeNumbers {
    pub last: u64,
    pub changed: List<Numbered<u64>>,
    pub dropped: List<NameDrop>,
}

// The number under a table.
fn number_at(changed: &[Numbered<u64>], table: u32) -> u64
    ensures { result ≡ number_in changed.now table }
{
    match value_of(changed, table) {
        Some(number) => *number,
        None => 0,
    }
}

// Whether it is the drop of a version with this name.
fn is_drop_of(one: &NameDrop, name: &Name) -> bool
    ensures { result ≡ bytes_eq name.now one.now.name }
{
    name.as_str().as_bytes() == one.name.as_str().as_bytes()
}

// The first drop of a version with this name.
fn drop_named<'a>(dropped: &'a [NameDrop], name: &Name) -> Option<&'a NameDrop>
    ensures { option_copied result ≡ find (λ one. bytes_eq name.now one.name) dropped.entry.now }
{
    dropped.iter().find(|one| is_drop_of(one, name))
}

// The number of the last drop of a version with this name.
fn drop_of(dropped: &[NameDrop], name: &Name) -> u64
    ensures { result ≡ dropped_in dropped.now name.now }
{
    match drop_named(dropped, name) {
        Some(one) => one.at,
        None => 0,
    }
}

/// The last number at which what was read has changed. It takes one comparison for each table and name
/// that ever changed.
pub fn last_change(numbers: &ChangeNumbers, read: &TableRead) -> u64
    ensures { result ≡ last_change_lem (history_of numbers.now) read.now }
{
    let changed = number_at(numbers.changed.as_slice(), read.table);
    changed.max(drop_of(numbers.dropped.as_slice(), &read.version))
}

// A number under a table that has none: 0, which says as much.
fn keep_number(changed: &mut List<Numbered<u64>>, table: u32) -> Result<(), Memory>
    ensures same { (t : ℕ) → number_in changed.new t ≡ number_in changed.old t }
    ensures more { Within (numbers_in changed.old) (numbers_in changed.new) }
    ensures ok { OnOk result (In table (numbers_in changed.new)) }
{
    if place_of(changed.as_slice(), table).is_some() {
        return Ok(());
    }
    changed.push(Numbered {
        number: table,
        value: 0,
    })
}

/// Numbers under all of these tables. What they say stays.
pub fn keep_numbers(changed: &mut List<Numbered<u64>>, tables: &[u32]) -> Result<(), Memory>
    ensures same { (t : ℕ) → number_in changed.new t ≡ number_in changed.old t }
    ensures more { Within (numbers_in changed.old) (numbers_in changed.new) }
    ensures ok { OnOk result (Within tables.now (numbers_in changed.new)) }
{
    for table in tables {
        keep_number(changed, *table)?;
    }
    Ok(())
}

// Another number under a table, where it has one.
fn set_number(changed: &mut Vec<Numbered<u64>>, table: u32, at: u64)
    ensures rows { In table (numbers_in changed.old.items) → (t : ℕ)
        → number_in changed.new.items t
        ≡ (if t == table then at else number_in changed.old.items t) }
    ensures numbers { numbers_in changed.new.items ≡ numbers_in changed.old.items }
{
    if let Some(place) = place_of(changed.as_slice(), table) {
        changed[place].value = at;
    }
}

/// Another number under each of these tables, where it has one. It takes no memory.
pub fn set_numbers(changed: &mut Vec<Numbered<u64>>, tables: &[u32], at: u64)
    ensures rows { Within tables.now (numbers_in changed.old.items) → (t : ℕ)
        → number_in changed.new.items t
        ≡ (if is_in t tables.now then at else number_in changed.old.items t) }
    ensures numbers { numbers_in changed.new.items ≡ numbers_in changed.old.items }
{
    for table in tables {
        set_number(changed, *table, at);
    }
}

fn place_of_drop(dropped: &[NameDrop], name: &Name) -> Option<usize>
    ensures { result ≡ position (λ one. bytes_eq name.now one.name) dropped.now }
{
    dropped.iter().position(|one| is_drop_of(one, name))
}

/// A number under a name: 0 where it has none, which says as much. It gives the number's place.
pub fn keep_drop(alloc: Global, dropped: &mut List<NameDrop>, name: &Name) -> Result<usize, Memory>
    ensures same { (other : List ℕ) → dropped_in dropped.new other
        ≡ dropped_in dropped.old other }
    ensures place { IfOk result (λ place. position (λ one. bytes_eq name.now one.name) dropped.new
        ≡ Some place) }
    ensures within { IfOk result (λ place. place < length dropped.new) }
{
    if let Some(place) = place_of_drop(dropped.as_slice(), name) {
        return Ok(place);
    }
    let place = dropped.len();
    dropped.push(NameDrop {
        name: name.copy(alloc)?,
        at: 0,
    })?;
    Ok(place)
}

/// The next number, under the name at a place. It takes no memory.
pub fn number_drop(alloc: Global, numbers: &mut ChangeNumbers, place: usize)
    requires { place < length numbers.old.dropped }
    ensures history { (name : List ℕ)
        → position (λ one. bytes_eq name one.name) numbers.old.dropped ≡ Some place
        → history_of numbers.new ≡ with_drop (history_of numbers.old) name }
    ensures past { (name : List ℕ)
        → position (λ one. bytes_eq name one.name) numbers.old.dropped ≡ Some place
        → numbers.old.last ≤ last_number → DropsArePast numbers.old → DropsArePast numbers.new }
{
    let last = numbers.last.saturating_add(1);
    let mut dropped = mem::replace(&mut numbers.dropped, List::new(alloc)).into_vec();
    dropped[place].at = last;
    numbers.dropped = List::from_vec(dropped);
    numbers.last = last;
}
