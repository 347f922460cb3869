//! Dumping a database.
ghost use Rattle.std.specs.Prelude.{◌≡◌, ◌≤◌, false, IfOk};
ghost use Rattle.serde_json.specs.Data.{depth};
ghost use Rattle.serde_json.specs.Read.{max_depth};
ghost use Rattle.serde_json.specs.View.{view};
ghost use Rattle.serde_json.specs.Written.{has_float};
ghost use Rattle.dump_values.specs.Laws.{DumpFits};
ghost use Rattle.dump_graph.specs.Graphs.{AreNames};
ghost use Rattle.dump_graph.specs.Texts.{AreFromTexts};
ghost use Rattle.op_any.specs.Operators.{any_meaning};
ghost use Rattle.db_state.specs.Fields.{database_for};
ghost use Rattle.dump_file.specs.Stands.{Stands};
ghost use Rattle.dump_file.specs.States.{state_json};
ghost use Rattle.dump_file.specs.Told.{database_json, dump_told};
ghost use Rattle.dump_file.specs.inner.Calls.{HasWords};

use crate::laws::{databases_stand_for_their_dumps, dumps_tell_the_state};
use crate::writing::{
    write_all_stored, write_auxes, write_memories, write_operators, write_versions,
};
use db_state::Db;
use dump_values::{WrittenLines, write_dump, write_numbers};
use op_any::AnyOp;
use par_base::Memory;
use serde_json::Value as Json;
use std::alloc::Global;

// The fields as JSON.
fn write_fields(alloc: Global, db: &Db<AnyOp>) -> Result<Json, Memory>
    ensures value { IfOk result (λ json. view json ≡ database_json db.now) }
    ensures names { IfOk result (λ _. AreNames db.now.graph.versions) }
{
    let graph = db.graph();
    let (last_operator, last_table) = graph.last_numbers();
    let lines = WrittenLines {
        auxes: write_auxes(alloc, db.aux())?,
        last_operator,
        last_table,
        layout: write_numbers(alloc, db.layout().operators.as_slice())?,
        memories: write_memories(alloc, graph, db.memories())?,
        next: db.ids().next(),
        operators: write_operators(alloc, graph)?,
        stored: write_all_stored(alloc, db.stored())?,
        versions: write_versions(alloc, graph)?,
    };
    write_dump(alloc, lines)
}

// That they have the bits of their types is known where they are read.
fn look_at_numbers(db: &Db<AnyOp>)
    ensures { HasWords db.now }
{
    let (_last_operator, _last_table) = db.graph().last_numbers();
    let _next = db.ids().next();
}

// That a dump tells the numbers of this database as they are.
fn look_at(db: &Db<AnyOp>)
    ensures { DumpFits (dump_told db.now) }
{
    // What the fields promise rests on this call.
    let _graph = db.graph();
    look_at_numbers(db);
}

/// A database as JSON: objects with sorted keys. It takes time in the number of stored values, and in
/// the logarithm of the number of live operators for each of them.
pub fn write_database(alloc: Global, db: &Db<AnyOp>) -> Result<Json, Memory>
    ensures value { IfOk result (λ json. view json
        ≡ state_json (database_for any_meaning db.now) db.now.layout.operators) }
    ensures whole { IfOk result (λ json. has_float (view json) ≡ false) }
    ensures shallow { IfOk result (λ json. depth (view json) ≤ max_depth) }
    ensures stands { IfOk result (λ json. AreFromTexts db.now.ids.next db.now.graph.edges
        → Stands (view json) db.now) }
{
    look_at(db);
    // That the database stands for it, and that it tells of its state, rests on these laws, and on what
    // the fields promise.
    databases_stand_for_their_dumps();
    dumps_tell_the_state();
    let _graph = db.graph();
    let json = write_fields(alloc, db)?;
    Ok(json)
}
