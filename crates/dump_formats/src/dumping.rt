//! Dumping a database, and what a run keeps beside it.
ghost use Rattle.std.specs.Prelude.{◌≡◌, ◌≤◌, false, string_bytes, IfOk};
ghost use Rattle.serde_json.specs.Data.{depth};
ghost use Rattle.serde_json.specs.Read.{max_depth};
ghost use Rattle.serde_json.specs.View.{view};
ghost use Rattle.serde_json.specs.Written.{compact_text, has_float};
ghost use Rattle.layout_planner.specs.Counts.{AreCounts};
ghost use Rattle.migration.specs.Pending.{IsPending};
ghost use Rattle.op_any.specs.Operators.{any_meaning};
ghost use Rattle.db_state.specs.Fields.{database_for};
ghost use Rattle.dump_file.specs.States.{state_json};
ghost use Rattle.dump_file.specs.Stands.{Stands};
ghost use Rattle.dump_file.specs.Texts.{AreFromTexts};
ghost use Rattle.dump_formats.specs.Formats.{dump_text, run_json};
ghost use Rattle.dump_formats.specs.Stands.{IsDumpOf, Spells};
ghost use Rattle.dump_formats.specs.declared.loaded.Loaded.{Loaded};

use crate::accesses::write_counts;
use crate::goals::write_goal;
use crate::parts::with_members;
use crate::tables::live_tables;
use db_state::Db;
use dump_file::write_database;
use layout_planner::TableCount;
use op_any::AnyOp;
use par_base::{Memory, Text};
use serde_json::Value as Json;
use std::alloc::Global;

/// The compact text of JSON without floats, which nests no deeper than may be read.
fn text_of(alloc: Global, json: &Json) -> Result<String, Memory>
    requires whole { has_float (view json.now) ≡ false }
    requires shallow { depth (view json.now) ≤ max_depth }
    ensures text { IfOk result (λ text. string_bytes text ≡ compact_text (view json.now)) }
    ensures read { IfOk result (λ text. Spells (string_bytes text) (view json.now)) }
{
    let text = json.to_string(alloc)?;
    Ok(text)
}

// The dump as JSON.
fn write_run(
    alloc: Global,
    db: &Db<AnyOp>,
    counts: &[TableCount],
    pending: &[u32],
) -> Result<Json, Memory>
    ensures value { IfOk result (λ json. view json
        ≡ run_json (database_for any_meaning db.now) db.now.layout.operators counts.now
        pending.now) }
    ensures whole { IfOk result (λ json. has_float (view json) ≡ false) }
    ensures shallow { IfOk result (λ json. depth (view json) ≤ max_depth) }
    ensures stands { IfOk result (λ json. AreFromTexts db.now.ids.next db.now.graph.edges
        → Stands (state_json (database_for any_meaning db.now) db.now.layout.operators) db.now) }
{
    let first = write_database(alloc, db)?;
    let tables = live_tables(alloc, db.graph())?;
    let counts = write_counts(alloc, tables.as_slice(), counts)?;
    let layout = db.layout().operators.as_slice();
    let goal = write_goal(alloc, db.graph(), layout, pending)?;
    let json = with_members(alloc, first, counts, goal)?;
    Ok(json)
}

/// The text of a dump of the second format: compact JSON with sorted keys, and no line feed at the
/// end. The counts are those beside the database's graph, and what is pending leads to a layout. It
/// takes time in the number of stored values, and in the logarithm of the number of live operators
/// for each of them; besides it looks through the counts for each table version, and through the
/// layout for each operator.
pub fn dump(
    alloc: Global,
    db: &Db<AnyOp>,
    counts: &[TableCount],
    pending: &[u32],
) -> Result<Text, Memory>
    requires counted { AreCounts db.now.graph.edges counts.now }
    requires leads { IsPending db.now.graph.edges db.now.layout.operators pending.now }
    ensures text { IfOk result (λ text. text ≡ dump_text (database_for any_meaning db.now)
        db.now.layout.operators counts.now pending.now) }
    ensures stands { IfOk result (λ text. AreFromTexts db.now.ids.next db.now.graph.edges
        → IsDumpOf text
        (record { database = db.now; counts = counts.now; pending = pending.now })) }
{
    let json = write_run(alloc, db, counts, pending)?;
    let text = text_of(alloc, &json)?;
    Ok(Text::from_string(text))
}
