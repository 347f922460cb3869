//! CREATE SCHEMA VERSION.
ghost use Rattle.std.specs.Prelude.{◌≡◌, ◌<◌, length, OnErr, OnOk};
ghost use Rattle.std.specs.Option.{option_copied};
ghost use Rattle.layout_rules.specs.Changes.{evolved_layout};
ghost use Rattle.version_model.specs.Databases.{Evolves, MayEvolveTo};
ghost use Rattle.db_state.specs.Fields.{database_for, state_for, IsDatabase};
ghost use Rattle.db_evolution.specs.Sources.{AreSources};

use crate::contents::{filled, install};
use crate::sources::read_sources;
use db_state::{Db, Parts, put_parts, take_parts};
use expr_lang::Steps;
use op_law::Operator;
use par_base::{Fault, List, Name, Refusal};
use row_store::Table;
use std::alloc::Global;
use std::sync::ledger::Ledger;
use version_graph::Edge;
use version_model::{Numbered, as_refusal};

fn evolve_parts<O: Operator + Drop, L: Ledger>(
    alloc: Global,
    parts: &mut Parts<O>,
    name: Name,
    from: Option<&Name>,
    edges: List<Edge<O>>,
    sources: &[Numbered<Table>],
    steps: &mut Steps<L>,
) -> Result<(), Fault<Refusal>>
    requires kept { IsDatabase O.meaning parts.old }
    requires sources { AreSources parts.old.graph (state_for O.meaning parts.old)
        (option_copied from) edges sources.now }
    requires some { 0 < length edges }
    requires may { MayEvolveTo O.meaning (database_for O.meaning parts.old)
        (option_copied from) edges }
    ensures kept { IsDatabase O.meaning parts.new }
    ensures evolves { Evolves O.meaning (database_for O.meaning parts.old) name
        (option_copied from.entry) edges
        result (database_for O.meaning parts.new) }
    ensures layout { OnOk result (parts.new.layout.operators
        ≡ evolved_layout parts.old.graph edges parts.old.layout.operators) }
    ensures same { OnErr result (parts.new.layout ≡ parts.old.layout) }
{
    let operators = parts.graph.live_operators();
    let (last_operator, last_table) = parts.graph.last_numbers();
    parts.graph.evolve(name, from, edges)?;
    match filled(alloc, parts, operators, sources, steps) {
        Ok(contents) => {
            install(alloc, parts, contents);
            Ok(())
        }
        Err(fault) => {
            parts.graph.take_back(operators, last_operator, last_table);
            Err(as_refusal(fault))
        }
    }
}

/// Adds the edges, each on the working set before it, the first on that of the version `from` or on
/// the empty one, and names the last working set. The tables of new CREATE TABLE operators are
/// stored, and no other table comes or goes. It reads the tables that an edge names as a source, each
/// along its way to storage, and copies the tables on both sides of each new operator. Beside that it
/// takes time in the logarithm of the number of operators and in the number of tables of one operator,
/// for each source of a new edge and each table of the working set before it, and in the square of
/// the number of stored tables and of live operators. After an error all is as before.
pub fn evolve_db<O: Operator + Drop, L: Ledger>(
    alloc: Global,
    db: &mut Db<O>,
    name: Name,
    from: Option<&Name>,
    edges: List<Edge<O>>,
    steps: &mut Steps<L>,
) -> Result<(), Fault<Refusal>>
    requires some { 0 < length edges }
    requires may { MayEvolveTo O.meaning (database_for O.meaning db.old)
        (option_copied from) edges }
    ensures evolves { Evolves O.meaning (database_for O.meaning db.old) name
        (option_copied from.entry) edges
        result (database_for O.meaning db.new) }
    ensures layout { OnOk result (db.new.layout.operators
        ≡ evolved_layout db.old.graph edges db.old.layout.operators) }
    ensures same { OnErr result (db.new.layout ≡ db.old.layout) }
{
    let sources = read_sources(alloc, db, from, edges.as_slice(), steps)?;
    let mut parts = take_parts(alloc, db);
    let done = evolve_parts(
        alloc,
        &mut parts,
        name,
        from,
        edges,
        sources.as_slice(),
        steps,
    );
    put_parts(db, parts);
    done
}
