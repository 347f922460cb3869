//! Values under the numbers of tables or operators.
ghost use Rattle.std.specs.Prelude.{◌≡◌, ℕ, ◌==◌, Some, None, map, if◌then◌else◌};
ghost use Rattle.std.specs.List.{find, position};
ghost use Rattle.std.specs.Option.{option_copied};
ghost use mathlib.Core.List.{reverse};
ghost use Rattle.version_model.specs.Kept.{value_of as value_of_lem, latest_of as latest_of_lem, renewed};

use par_base::List;

/// A value under a number.
#[derive(Drop)]
pub struct Numbered<T> {
    pub number: u32,
    pub value: T,
}

fn item_of<T>(items: &[Numbered<T>], number: u32) -> Option<&Numbered<T>>
    ensures { option_copied result ≡ find (λ item. number == item.number) items.now }
{
    items.iter().find(|item| number == item.number)
}

fn latest_item<T>(items: &[Numbered<T>], number: u32) -> Option<&Numbered<T>>
    ensures { option_copied result ≡ find (λ item. number == item.number) (reverse items.now) }
{
    items.iter().rev().find(|item| number == item.number)
}

/// The value under a number. It takes one comparison for each item before it.
pub fn value_of<T>(items: &[Numbered<T>], number: u32) -> Option<&T>
    ensures { option_copied result ≡ value_of_lem items.now number }
{
    match item_of(items, number) {
        Some(item) => Some(&item.value),
        None => None,
    }
}

/// The last value that came under a number. It takes one comparison for each item behind it.
pub fn latest_of<T>(items: &[Numbered<T>], number: u32) -> Option<&T>
    ensures { option_copied result ≡ latest_of_lem items.now number }
{
    match latest_item(items, number) {
        Some(item) => Some(&item.value),
        None => None,
    }
}

/// The place of a number. It takes one comparison for each item before it.
pub fn place_of<T>(items: &[Numbered<T>], number: u32) -> Option<usize>
    ensures { result ≡ position (λ item. number == item.number) items.now }
{
    items.iter().position(|item| number == item.number)
}

/// Puts another value under a number, where there is one. It takes no memory.
pub fn replace<T: Drop>(items: &mut Vec<Numbered<T>>, item: Numbered<T>)
    ensures values { (n : ℕ) → value_of_lem items.new.items n
        ≡ renewed (value_of_lem items.old.items n) (if n == item.number then Some item.value else
        None) }
    ensures numbers { map (λ item. item.number) items.new.items
        ≡ map (λ item. item.number) items.old.items }
{
    let Numbered { number, value } = item;
    if let Some(at) = place_of(items.as_slice(), number) {
        items[at].value = value;
    }
}

/// Puts newer values under their numbers, where there are such, the last ones last. It takes no
/// memory.
pub fn replace_all<T: Drop>(items: &mut Vec<Numbered<T>>, newer: List<Numbered<T>>)
    ensures values { (n : ℕ) → value_of_lem items.new.items n
        ≡ renewed (value_of_lem items.old.items n) (latest_of_lem newer n) }
    ensures numbers { map (λ item. item.number) items.new.items
        ≡ map (λ item. item.number) items.old.items }
{
    let mut left = newer.into_vec();
    left.as_mut_slice().reverse();
    while let Some(item) = left.pop() {
        replace(items, item);
    }
}
