//! Tables and columns by their names.
ghost use Rattle.std.specs.Prelude.{◌≡◌, ◌<◌, ◌++◌, ◌∷◌, [], not, length, IfSome};
ghost use Rattle.std.specs.Option.{option_map};
ghost use Rattle.std.specs.List.{list_any};
ghost use Rattle.std.specs.Str.{bytes_eq};
ghost use Rattle.expr_lang.specs.Resolved.{place_of};
ghost use Rattle.version_graph.specs.Tables.{row_name, is_among as is_source};
ghost use Rattle.op_checks.specs.NameChecks.{is_passing as is_passing_name, repeated, left_out, misdivided};

use par_base::Name;
use version_graph::Heading;

/// Whether this is the wanted name.
pub(crate) fn has_name(name: &Name, wanted: &Name) -> bool
    ensures { result ≡ bytes_eq name.now wanted.now }
{
    name.as_str().as_bytes() == wanted.as_str().as_bytes()
}

fn is_among(names: &[Name], wanted: &Name) -> bool
    ensures { result ≡ list_any (bytes_eq wanted.now) names.now }
{
    names.iter().any(|name| has_name(wanted, name))
}

fn is_none_of(heading: &Heading, sources: &[Name]) -> bool
    ensures { result ≡ not (is_source sources.now heading.now) }
{
    !is_among(sources, &heading.name)
}

/// Whether a table that is none of the sources has this name.
#[tactic(auto, unfolding(crate::specs::NameChecks::is_passing))]
pub(crate) fn is_passing(set: &[Heading], sources: &[Name], name: &Name) -> bool
    ensures { result ≡ is_passing_name set.now sources.now name.now }
{
    set.iter()
        .filter(|heading| is_none_of(heading, sources))
        .any(|heading| has_name(&heading.name, name))
}

/// The place of the first column with this name.
#[tactic(auto, unfolding(expr_lang::specs::Resolved::place_of))]
pub(crate) fn find_column(columns: &[Name], name: &Name) -> Option<usize>
    ensures place { result ≡ place_of columns.now name.now }
    ensures within { IfSome result (λ place. place < length columns.now) }
{
    columns.iter().position(|column| has_name(name, column))
}

fn is_row_name(name: &Name) -> bool
    ensures { result ≡ bytes_eq name.now row_name }
{
    name.as_str().as_bytes() == b"p".as_slice()
}

fn is_taken(known: &[Name], before: &[Name], name: &Name) -> bool
    ensures { result ≡ list_any (bytes_eq name.now) (row_name ∷ (known.now ++ before.now)) }
{
    is_row_name(name) || is_among(known, name) || is_among(before, name)
}

/// The first of the new names that is `p`, a known one or one of those before it. It takes time in
/// the number of pairs of names.
#[tactic(auto, unfolding(crate::specs::NameChecks::repeated))]
pub(crate) fn find_repeated<'a>(known: &[Name], names: &'a [Name]) -> Option<&'a Name>
    ensures { option_map (λ name. name.now) result ≡ repeated
        (row_name ∷ known.now) names.entry.now }
{
    for (at, name) in names.iter().enumerate() {
        if is_taken(known, &names[..at], name) {
            return Some(name);
        }
    }
    None
}

fn is_before(known: &[Name], before: &[Name], name: &Name) -> bool
    ensures { result ≡ list_any (bytes_eq name.now) (known.now ++ before.now) }
{
    is_among(known, name) || is_among(before, name)
}

/// The first of these names that is a known one or one of those before it. It takes time in the
/// number of pairs of names.
#[tactic(auto, unfolding(crate::specs::NameChecks::repeated))]
pub(crate) fn find_again<'a>(known: &[Name], names: &'a [Name]) -> Option<&'a Name>
    ensures { option_map (λ name. name.now) result ≡ repeated known.now names.entry.now }
{
    for (at, name) in names.iter().enumerate() {
        if is_before(known, &names[..at], name) {
            return Some(name);
        }
    }
    None
}

#[tactic(auto, using(crate::proofs::RepeatedLaws::repeated_both))]
fn find_twice<'a>(first: &'a [Name], second: &'a [Name]) -> Option<&'a Name>
    ensures { option_map (λ name. name.now) result ≡ repeated []
        (first.entry.now ++ second.entry.now) }
{
    match find_again(&[], first) {
        Some(name) => Some(name),
        None => find_again(first, second),
    }
}

fn find_left_out<'a>(columns: &'a [Name], first: &[Name], second: &[Name]) -> Option<&'a Name>
    ensures { option_map (λ name. name.now) result ≡ left_out columns.entry.now
        (first.now ++ second.now) }
{
    columns
        .iter()
        .find(|column| !is_before(first, second, column))
}

/// The first name that two lists name twice, or else the first column that they leave out. It takes
/// time in the number of pairs of names.
pub(crate) fn find_misdivided<'a>(
    columns: &'a [Name],
    first: &'a [Name],
    second: &'a [Name],
) -> Option<&'a Name>
    ensures { option_map (λ name. name.now) result
        ≡ misdivided columns.entry.now (first.entry.now ++ second.entry.now) }
{
    match find_twice(first, second) {
        Some(name) => Some(name),
        None => find_left_out(columns, first, second),
    }
}
