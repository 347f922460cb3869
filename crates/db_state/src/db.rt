//! The type of databases.
ghost use Rattle.std.specs.Prelude.{◌≡◌, [], ◌<◌, ◌^◌, IfSome};
ghost use Rattle.std.specs.Option.{option_copied};
ghost use Rattle.version_model.specs.Kept.{value_of as value_of_lem};
ghost use Rattle.version_model.specs.Databases.{empty_database};
ghost use Rattle.storage_law.specs.Reading.{ReadsSources};
ghost use Rattle.db_state.specs.Fields.{database_for, state_for, IsDatabase};

use crate::Parts;
use id_memory::{IdCounter, PairMemory};
use layout_rules::Layout;
use op_law::{Aux, Operator};
use par_base::{Limits, List};
use row_store::Table;
use std::alloc::Global;
use std::marker::Model;
use std::mem;
use version_graph::Graph;
use version_model::{Numbered, value_of};

/// A database with all its versions: a layout, a table for each table version that the layout
/// stores, and auxiliary tables and a memory for each operator.
#[derive(Drop)]
pub struct Db<O: Operator> {
    graph: Graph<O>,
    layout: Layout,
    stored: List<Numbered<Table>>,
    aux: List<Numbered<Aux>>,
    memories: List<Numbered<PairMemory>>,
    ids: IdCounter,
}

impl<O: Operator> Model for Db<O> {
    ghost use Rattle.db_state.specs.Fields.{IsDatabase};
    ghost use Rattle.db_state.specs.declared.parts.Parts.{Parts as Fields};

    ghost Value = { Fields O };

    ghost view = { λ it. record {
      graph = it.graph;
      layout = it.layout;
      stored = it.stored;
      aux = it.aux;
      memories = it.memories;
      ids = it.ids;
    } };

    ghost invariant = { λ it. IsDatabase O.meaning (record {
      graph = it.graph;
      layout = it.layout;
      stored = it.stored;
      aux = it.aux;
      memories = it.memories;
      ids = it.ids;
    }) };
}

impl<O: Operator> Db<O> {
    /// The database without versions. It takes no memory.
    pub fn new(alloc: Global, limit: u64) -> Db<O>
        requires reads { ReadsSources O.meaning }
        requires limit { limit < 2 ^ 63 }
        ensures empty { database_for O.meaning result ≡ empty_database limit }
        ensures layout { result.layout.operators ≡ [] }
    {
        Db {
            graph: Graph::new(alloc),
            layout: Layout {
                operators: List::new(alloc),
            },
            stored: List::new(alloc),
            aux: List::new(alloc),
            memories: List::new(alloc),
            ids: IdCounter::new(1, limit),
        }
    }

    /// The versions, operators and headings of tables.
    pub fn graph(&self) -> &Graph<O>
        ensures graph { result.now ≡ self.now.graph }
        ensures kept { IsDatabase O.meaning self.now }
    {
        &self.graph
    }

    /// The operators that are stored on their target side.
    pub fn layout(&self) -> &Layout
        ensures { result.now ≡ self.now.layout }
    {
        &self.layout
    }

    /// The stored tables, by ascending number.
    pub fn stored(&self) -> &[Numbered<Table>]
        ensures { result.now ≡ self.now.stored }
    {
        self.stored.as_slice()
    }

    /// The stored table of a number, where there is one. It takes one comparison for each stored
    /// table before it.
    pub fn stored_table(&self, table: u32) -> Option<&Table>
        ensures table { option_copied result ≡ value_of_lem self.now.stored table }
        ensures rows { IfSome result (λ stored. stored.now.rows
            ≡ (state_for O.meaning self.now).tables table) }
    {
        value_of(self.stored.as_slice(), table)
    }

    /// The auxiliary tables of each live operator, by ascending number.
    pub fn aux(&self) -> &[Numbered<Aux>]
        ensures { result.now ≡ self.now.aux }
    {
        self.aux.as_slice()
    }

    /// The memory of each live operator, by ascending number.
    pub fn memories(&self) -> &[Numbered<PairMemory>]
        ensures { result.now ≡ self.now.memories }
    {
        self.memories.as_slice()
    }

    /// The counter of identifiers.
    pub fn ids(&self) -> &IdCounter
        ensures { result.now ≡ self.now.ids }
    {
        &self.ids
    }
}

/// The fields of a database, which is left empty, with the same limit of identifiers. It takes no
/// memory.
pub fn take_parts<O: Operator + Drop>(alloc: Global, db: &mut Db<O>) -> Parts<O>
    ensures parts { result ≡ db.old }
    ensures kept { IsDatabase O.meaning result }
    ensures left { database_for O.meaning db.new ≡ empty_database db.old.ids.limit }
{
    let limit = db.ids.limit();
    let Db {
        graph,
        layout,
        stored,
        aux,
        memories,
        ids,
    } = mem::replace(db, Db::new(alloc, limit));
    Parts {
        graph,
        layout,
        stored,
        aux,
        memories,
        ids,
    }
}

/// Makes the parts the fields of a database. It takes no memory.
pub fn put_parts<O: Operator + Drop>(db: &mut Db<O>, parts: Parts<O>)
    requires { IsDatabase O.meaning parts }
    ensures { db.new ≡ parts }
{
    let Parts {
        graph,
        layout,
        stored,
        aux,
        memories,
        ids,
    } = parts;
    *db = Db {
        graph,
        layout,
        stored,
        aux,
        memories,
        ids,
    };
}
