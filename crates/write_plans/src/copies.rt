//! Copies of the tables and memories of a tree.
ghost use Rattle.std.specs.Prelude.{◌≡◌, ℕ, ◌<◌, true, false, filter, IfOk};
ghost use Rattle.op_law.specs.Identifiers.{has_id, IdsRise};
ghost use Rattle.version_graph.specs.Edges.{is_in};
ghost use Rattle.version_graph.specs.Forest.{forest};
ghost use Rattle.version_model.specs.Kept.{rows_now, pairs_at, numbers_in};
ghost use Rattle.db_state.specs.Fields.{state_for, IsDatabase};
ghost use Rattle.db_state.specs.Parts.{entries_of, listed_in, seen_of, Ascends, MaySee, SeenWithin};
ghost use Rattle.changes_walk.specs.Reach.{IsWhole};
ghost use Rattle.write_plans.specs.Calls.{beside, told_pairs, told_rows, AreToCome, CopiesTree};

use crate::tree::Tree;
use db_state::{Db, Sight, memory_seen, now_seen, read_over};
use expr_lang::Steps;
use id_memory::PairMemory;
use layout_rules::holds;
use op_law::Operator;
use par_base::{List, Memory};
use row_store::Table;
use std::alloc::Global;
use std::sync::ledger::Ledger;
use version_model::{Numbered, value_of};

/// The tables and memories of a tree, as they are read.
#[derive(Drop)]
pub struct Copies {
    pub tables: List<Numbered<Table>>,
    pub memories: List<Numbered<PairMemory>>,
}

/// Copies of the rows that are seen of the tables of these numbers: of those that were made last,
/// else of those that are kept.
pub(crate) fn copy_tables(
    alloc: Global,
    kept: &[Numbered<Table>],
    made: &[Numbered<Table>],
    numbers: &[u32],
    sight: Sight<'_>,
) -> Result<List<Numbered<Table>>, Memory>
    requires { Ascends sight }
    ensures { IfOk result (λ copies. told_rows copies
        ≡ beside (seen_of sight.entry (rows_now kept.now made.now)) numbers.now) }
{
    let mut copies = List::new(alloc);
    for number in numbers {
        let value = now_seen(alloc, kept, made, *number, sight)?;
        copies.push(Numbered {
            number: *number,
            value,
        })?;
    }
    Ok(copies)
}

/// A copy of the entries that are seen of the memory of a number.
fn copy_memory(
    alloc: Global,
    kept: &[Numbered<PairMemory>],
    number: u32,
    sight: Sight<'_>,
) -> Result<PairMemory, Memory>
    requires { Ascends sight }
    ensures { IfOk result (λ made. made.entries
        ≡ entries_of sight.entry (pairs_at kept.now) number) }
{
    match value_of(kept, number) {
        Some(memory) => memory_seen(alloc, memory, sight),
        None => Ok(PairMemory::new(alloc)),
    }
}

/// Copies of the entries that are seen of the memories of these numbers.
pub(crate) fn copy_memories(
    alloc: Global,
    kept: &[Numbered<PairMemory>],
    numbers: &[u32],
    sight: Sight<'_>,
) -> Result<List<Numbered<PairMemory>>, Memory>
    requires { Ascends sight }
    ensures { IfOk result (λ copies. told_pairs copies
        ≡ beside (entries_of sight.entry (pairs_at kept.now)) numbers.now) }
{
    let mut copies = List::new(alloc);
    for number in numbers {
        let value = copy_memory(alloc, kept, *number, sight)?;
        copies.push(Numbered {
            number: *number,
            value,
        })?;
    }
    Ok(copies)
}

/// The numbers of the tables that are kept, of those that are listed.
pub(crate) fn kept_of(
    alloc: Global,
    kept: &[Numbered<Table>],
    tables: &[u32],
) -> Result<List<u32>, Memory>
    ensures { IfOk result (λ made. made
        ≡ filter (λ number. is_in number tables.now) (numbers_in kept.now)) }
{
    let mut made = List::new(alloc);
    for item in kept {
        if holds(tables, item.number) {
            made.push(item.number)?;
        }
    }
    Ok(made)
}

/// What is seen of the tables and the memories of a tree, read from what is stored.
fn read_tree<O: Operator, L: Ledger>(
    alloc: Global,
    db: &Db<O>,
    tree: &Tree,
    sight: Sight<'_>,
    steps: &mut Steps<L>,
) -> Result<Copies, Memory>
    requires whole { IsWhole db.now.graph.edges tree.now.operators tree.now.tables }
    requires may { MaySee O.meaning db.now.graph.edges (state_for O.meaning db.now)
        tree.now.operators sight }
    requires ascends { Ascends sight }
    ensures copies { IfOk result (CopiesTree O.meaning db.now tree.now sight.entry) }
    ensures steps { SeenWithin 2 sight.entry (listed_in tree.now.operators
        (forest db.now.graph.edges)) steps.old steps.new }
{
    let read = read_over(alloc, db, tree.operators.as_slice(), sight, steps)?;
    let tables = copy_tables(
        alloc,
        db.stored(),
        read.as_slice(),
        tree.tables.as_slice(),
        sight,
    )?;
    let operators = tree.operators.as_slice();
    let memories = copy_memories(alloc, db.memories(), operators, sight)?;
    Ok(Copies { tables, memories })
}

#[tactic(auto, using(crate::proofs::CopyLemmas::none_before_first))]
fn begin_from(ids: &[u64], next: u64) -> bool
    requires { IdsRise 0 ids.now }
    ensures { result ≡ true → (id : ℕ) → id < next → has_id ids.now id ≡ false }
{
    match ids.split_first() {
        Some((first, _rest)) => *first >= next,
        None => true,
    }
}

// Whether identifiers alone are seen that are drawn from here on.
fn are_to_come(sight: Sight<'_>, next: u64) -> bool
    requires { Ascends sight }
    ensures { result ≡ true → AreToCome sight.entry next }
{
    match sight {
        Sight::Of(ids) => begin_from(ids, next),
        Sight::All => false,
        Sight::Part(_) => false,
    }
}

/// What is seen of the tables and the memories of a tree. It is read from what is stored, but where only
/// identifiers are seen that weren't drawn: then nothing is there.
pub(crate) fn copy_tree<O: Operator, L: Ledger>(
    alloc: Global,
    db: &Db<O>,
    tree: &Tree,
    sight: Sight<'_>,
    steps: &mut Steps<L>,
) -> Result<Copies, Memory>
    requires kept { IsDatabase O.meaning db.now }
    requires whole { IsWhole db.now.graph.edges tree.now.operators tree.now.tables }
    requires may { MaySee O.meaning db.now.graph.edges (state_for O.meaning db.now)
        tree.now.operators sight }
    requires ascends { Ascends sight }
    ensures copies { IfOk result (CopiesTree O.meaning db.now tree.now sight.entry) }
    ensures steps { SeenWithin 2 sight.entry (listed_in tree.now.operators
        (forest db.now.graph.edges)) steps.old steps.new }
{
    if are_to_come(sight, db.ids().next()) {
        return Ok(Copies {
            tables: List::new(alloc),
            memories: List::new(alloc),
        });
    }
    read_tree(alloc, db, tree, sight, steps)
}
