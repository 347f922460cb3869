//! The keys of a table.
ghost use Rattle.std.specs.Prelude.{◌≡◌, [], IfOk, OnOk, Some, None};
ghost use Rattle.std.specs.Option.{option_map};
ghost use Rattle.row_store.specs.Rows.{RiseFrom, row_of};
ghost use Rattle.key_index.specs.Found.{IsLeastFrom};
ghost use Rattle.table_keys.specs.Keys.{keys_by, keyed_changes};
ghost use Rattle.table_keys.specs.States.{behind, pending_after, ArePendingOld};

use crate::KeyColumns;
use crate::changing::key_changes;
use key_index::KeyIndex;
use par_base::{Memory, Row, Value};
use row_changes::difference;
use row_store::{Changes, Table};
use std::alloc::Global;
use std::marker::Model;

/// The keys of a table in these columns, by identifier and by value, and the changes that are ready
/// to be made.
///
/// Contracts see the keys by identifier, as rows of a table.
#[derive(Drop)]
pub struct TableKeys {
    columns: KeyColumns,
    keys: Table,
    index: KeyIndex,
    pending: Option<Changes>,
}

impl Model for TableKeys {
    ghost use Rattle.table_keys.specs.States.{KeysState};

    ghost Value = { KeysState };

    ghost use Rattle.std.specs.Prelude.{◌≡◌};
    ghost use Rattle.table_keys.specs.inner.Ready.{AreReady};

    ghost view = { λ it. record {
      columns = it.columns;
      rows = it.keys.rows;
      pending = it.pending;
    } };

    ghost invariant = { λ it. (it.index.rows ≡ it.keys.rows)
        × AreReady it.keys.spare it.index.ready it.pending };
}

impl TableKeys {
    /// No keys. It takes no memory.
    fn new(alloc: Global, columns: KeyColumns) -> TableKeys
        ensures columns { result.columns ≡ columns }
        ensures rows { result.rows ≡ [] }
    {
        TableKeys {
            columns,
            keys: Table::new(alloc),
            index: KeyIndex::new(alloc),
            pending: None,
        }
    }

    /// The keys of a table. It takes the time of sorting them.
    pub fn build(alloc: Global, columns: KeyColumns, table: &Table) -> Result<TableKeys, Memory>
        ensures columns { IfOk result (λ made. made.columns ≡ columns) }
        ensures rows { IfOk result (λ made. made.rows ≡ keys_by columns table.now.rows) }
    {
        let changes = difference(alloc, &Table::new(alloc), table)?;
        let mut made = TableKeys::new(alloc, columns);
        made.prepare(alloc, &changes)?;
        made.commit();
        Ok(made)
    }

    /// In which columns they are.
    pub fn columns(&self) -> KeyColumns
        ensures { result ≡ self.now.columns }
    {
        self.columns
    }

    /// The keys by identifier; in all columns they are the rows of the table. It takes no memory.
    pub fn rows(&self) -> &Table
        ensures { result.now.rows ≡ self.now.rows }
    {
        &self.keys
    }

    /// The key of an identifier, found by two binary searches. It takes no memory.
    pub fn get(&self, id: u64) -> Option<&Row>
        ensures value { option_map (λ row. row.now) result ≡ row_of self.now.rows id }
        ensures rise { RiseFrom 0 self.now.rows }
    {
        self.keys.get(id)
    }

    /// The least identifier with the key, or the least one behind another, found by two binary
    /// searches. It takes no memory.
    pub fn least_with(&self, key: &[Value], after: Option<u64>) -> Option<u64>
        ensures { IsLeastFrom self.now.rows key.now (behind after) result }
    {
        match after {
            Some(id) => self.index.next_with(key, id),
            None => self.index.least_with(key),
        }
    }

    /// Makes ready for the changes of the table. It changes no key.
    pub fn prepare(&mut self, alloc: Global, changes: &Changes) -> Result<(), Memory>
        ensures ok { OnOk result (self.new.pending
            ≡ Some (keyed_changes self.old.columns changes.now)) }
        ensures rows { self.new.rows ≡ self.old.rows }
        ensures columns { self.new.columns ≡ self.old.columns }
    {
        self.pending = None;
        let keyed = key_changes(alloc, self.columns, changes)?;
        self.keys.reserve(keyed.len())?;
        self.index.reserve(&keyed)?;
        self.pending = Some(keyed);
        Ok(())
    }

    /// Makes the changes that are ready. It takes no memory.
    ///
    /// A change takes up to six binary searches, and moves the keys of two pages.
    pub fn commit(&mut self)
        requires { ArePendingOld self.old.rows self.old.pending }
        ensures rows { self.new.rows ≡ pending_after self.old.rows self.old.pending }
        ensures columns { self.new.columns ≡ self.old.columns }
    {
        if let Some(changes) = self.pending.take() {
            let mut left = changes;
            self.index.apply(&left);
            self.keys.apply(&mut left);
        }
    }
}
