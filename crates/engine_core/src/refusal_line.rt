//! The line of a refusal: `refused`, its number and its text.
//!
//! Most lines hold no value or end with a name. Each other line has a function of its own.
ghost use Rattle.std.specs.Prelude.{◌≡◌, ◌++◌, codes, IfOk};
ghost use Rattle.engine_core.specs.Texts.{refusal_bytes, line};

use par_base::{Memory, Name, Refusal, Text};
use std::alloc::Global;

/// The line that answers a refused statement, with its line feed.
#[tactic(auto, unfolding(crate::specs::Texts::refusal_bytes))]
pub fn refusal_text(alloc: Global, refusal: &Refusal) -> Result<Text, Memory>
    ensures { IfOk result (λ text. text ≡ refusal_bytes refusal.now) }
{
    match refusal {
        Refusal::NotBuilt => plain(alloc, "refused 0 not built"),
        Refusal::UnknownVersion { version } => named(alloc, "refused 1 unknown version", version),
        Refusal::VersionExists { version } => named(alloc, "refused 2 version exists", version),
        Refusal::UnknownTable { table } => named(alloc, "refused 3 unknown table", table),
        Refusal::TableExists { table } => named(alloc, "refused 4 table exists", table),
        Refusal::UnknownColumn { column } => named(alloc, "refused 5 unknown column", column),
        Refusal::ColumnExists { column } => named(alloc, "refused 6 column exists", column),
        Refusal::WrongCount { given, wanted } => wrong_count(alloc, *given, *wanted),
        Refusal::UnknownId { id, next } => unknown_id(alloc, *id, *next),
        Refusal::IdsSpent { needed, limit } => ids_spent(alloc, *needed, *limit),
        Refusal::BadPartition { column } => named(alloc, "refused 10 bad partition", column),
        Refusal::InvalidLayout { table } => invalid_layout(alloc, table),
        Refusal::NoVersionInUse => plain(alloc, "refused 12 no version in use"),
        Refusal::TooManyOperators { limit } => too_many_operators(alloc, *limit),
        Refusal::TooManyColumns { table, limit } => too_many_columns(alloc, table, *limit),
        Refusal::ColumnsDiffer { first, second } => columns_differ(alloc, first, second),
        Refusal::SameTable { table } => named(alloc, "refused 16 same table", table),
        Refusal::NothingPending => plain(alloc, "refused 17 nothing pending"),
        Refusal::NoWatcherLeft => plain(alloc, "refused 18 no watcher left"),
        Refusal::UnknownWatch { number } => unknown_watch(alloc, *number),
        Refusal::TransactionOpen => plain(alloc, "refused 20 transaction open"),
        Refusal::NoTransaction => plain(alloc, "refused 21 no transaction"),
        Refusal::ReadAfterWrite => plain(alloc, "refused 22 read after write"),
        Refusal::Stale {
            table,
            read,
            changed,
        } => stale(alloc, table, *read, *changed),
        Refusal::HistorySpent => plain(alloc, "refused 24 history spent"),
    }
}

// A line that holds no value.
fn plain(alloc: Global, words: &str) -> Result<Text, Memory>
    ensures { IfOk result (λ text. text ≡ line words.now) }
{
    let text = format!(in alloc; "{words}\n")?;
    Ok(Text::from_string(text))
}

// A line that ends with a name.
fn named(alloc: Global, words: &str, name: &Name) -> Result<Text, Memory>
    ensures { IfOk result (λ text. text ≡ line (words.now ++ codes " " ++ name.now)) }
{
    let text = format!(in alloc; "{words} {}\n", name.as_str())?;
    Ok(Text::from_string(text))
}

#[tactic(auto, unfolding(crate::specs::Texts::refusal_bytes))]
fn wrong_count(alloc: Global, given: u64, wanted: u64) -> Result<Text, Memory>
    ensures { IfOk result (λ text. text ≡ refusal_bytes (Refusal.WrongCount given wanted)) }
{
    let text = format!(in alloc; "refused 7 wrong count {given} of {wanted}\n")?;
    Ok(Text::from_string(text))
}

#[tactic(auto, unfolding(crate::specs::Texts::refusal_bytes))]
fn unknown_id(alloc: Global, id: u64, next: u64) -> Result<Text, Memory>
    ensures { IfOk result (λ text. text ≡ refusal_bytes (Refusal.UnknownId id next)) }
{
    let text = format!(in alloc; "refused 8 unknown id #{id}, next #{next}\n")?;
    Ok(Text::from_string(text))
}

#[tactic(auto, unfolding(crate::specs::Texts::refusal_bytes))]
fn ids_spent(alloc: Global, needed: u64, limit: u64) -> Result<Text, Memory>
    ensures { IfOk result (λ text. text ≡ refusal_bytes (Refusal.IdsSpent needed limit)) }
{
    let text = format!(in alloc; "refused 9 ids spent, needs #{needed}, limit #{limit}\n")?;
    Ok(Text::from_string(text))
}

#[tactic(auto, unfolding(crate::specs::Texts::refusal_bytes))]
fn invalid_layout(alloc: Global, table: &Text) -> Result<Text, Memory>
    ensures { IfOk result (λ text. text ≡ refusal_bytes (Refusal.InvalidLayout table.now)) }
{
    let text = format!(in alloc; "refused 11 invalid layout {}\n", table.as_str())?;
    Ok(Text::from_string(text))
}

#[tactic(auto, unfolding(crate::specs::Texts::refusal_bytes))]
fn too_many_operators(alloc: Global, limit: u64) -> Result<Text, Memory>
    ensures { IfOk result (λ text. text ≡ refusal_bytes (Refusal.TooManyOperators limit)) }
{
    let text = format!(in alloc; "refused 13 too many operators, limit {limit}\n")?;
    Ok(Text::from_string(text))
}

#[tactic(auto, unfolding(crate::specs::Texts::refusal_bytes))]
fn too_many_columns(alloc: Global, table: &Name, limit: u64) -> Result<Text, Memory>
    ensures { IfOk result (λ text. text ≡ refusal_bytes (Refusal.TooManyColumns table.now limit)) }
{
    let text = format!(in alloc;
        "refused 14 too many columns {}, limit {limit}\n",
        table.as_str()
    )?;
    Ok(Text::from_string(text))
}

#[tactic(auto, unfolding(crate::specs::Texts::refusal_bytes))]
fn columns_differ(alloc: Global, first: &Name, second: &Name) -> Result<Text, Memory>
    ensures { IfOk result (λ text. text ≡ refusal_bytes (Refusal.ColumnsDiffer first.now
        second.now)) }
{
    let text = format!(in alloc;
        "refused 15 columns differ {} {}\n",
        first.as_str(),
        second.as_str()
    )?;
    Ok(Text::from_string(text))
}

#[tactic(auto, unfolding(crate::specs::Texts::refusal_bytes))]
fn unknown_watch(alloc: Global, number: u64) -> Result<Text, Memory>
    ensures { IfOk result (λ text. text ≡ refusal_bytes (Refusal.UnknownWatch number)) }
{
    let text = format!(in alloc; "refused 19 unknown watch {number}\n")?;
    Ok(Text::from_string(text))
}

#[tactic(auto, unfolding(crate::specs::Texts::refusal_bytes))]
fn stale(alloc: Global, table: &Text, read: u64, changed: u64) -> Result<Text, Memory>
    ensures { IfOk result (λ text. text ≡ refusal_bytes (Refusal.Stale table.now read changed)) }
{
    let text = format!(in alloc;
        "refused 23 stale {}, read at {read}, changed at {changed}\n",
        table.as_str()
    )?;
    Ok(Text::from_string(text))
}
